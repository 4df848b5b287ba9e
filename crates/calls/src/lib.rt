// The answers of the calls. specs/ defines the calls, and specs/Answers.antt says what each answer stands for. A call that declines
// answers why, as an `Err`; an answer that comes with a state stands beside it.
#![tactic(auto)]

use pool::State;
use refusals::Declined;

// R, M, N and the largest charge of any carried rule.
#[derive(Clone, Copy, Debug, PartialEq, Eq)]
pub struct CheckAnswer {
    pub channels: u32,
    pub rules: u32,
    pub parts: u32,
    pub charge: u32,
}

// The charge now pending.
#[derive(Clone, Copy, Debug, PartialEq, Eq)]
pub enum CommitAnswer {
    Applied(u32),
    Discarded(u32),
}

// The number of commits made.
#[derive(Clone, Copy, Debug, PartialEq, Eq)]
pub enum SettleAnswer {
    Settled(u32),
    Spent(u32),
}

// What input, commit and settle are asked for: a part, a place, a budget.
#[derive(Clone, Copy, Debug, PartialEq, Eq)]
pub enum Request {
    Input(u32),
    Commit(u32),
    Settle(u32),
}

// What they answer, for the code that they share.
#[derive(Clone, Copy, Debug, PartialEq, Eq)]
pub enum Response {
    Added(u32),
    Applied(u32),
    Discarded(u32),
    Settled(u32),
    Spent(u32),
}

// Such an answer, and the updates pending then. A call that declines leaves as many pending as were.
#[derive(Clone, Copy, Debug, PartialEq, Eq)]
pub struct AfterCall {
    pub response: Response,
    pub pending: u32,
}

// The answer of a call that hands back a state, and the state.
#[derive(Clone, Copy)]
pub struct Answered<T> {
    pub answer: Result<T, Declined>,
    pub state: State,
}
