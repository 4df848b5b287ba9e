// The seven published calls. Types of their answers and definitions are in `calls` and, for convert, in `conversion`; behind check,
// section and start are `calls_check`, `calls_section` and `calls_start`, behind convert `conversion_call`, behind the others `calls_lent`.
// Decks of at most 16 rules get short tables.
#![tactic(auto)]

ghost use Rattle.std.specs.Prelude.{◌≡◌};
ghost use Rattle.deck.specs.Stretch.{LiesAt};
ghost use Rattle.calls.specs.Calls as Calls;
ghost use Rattle.calls.specs.Answers.{check_outcome, section_of, start_outcome, input_outcome, commit_outcome, settle_outcome};
ghost use Rattle.calls.specs.Answers.{memory_of, reply_of};
ghost use Rattle.calls.specs.Requests.{outcome_to, Accepts, IsOfInput, IsOfCommit, IsOfSettle};
ghost use Rattle.conversion.specs.Conversion as Conversion;

use calls::{Answered, CheckAnswer, CommitAnswer, Request, Response, SettleAnswer};
use passing::{MEMO, RULE_TABLE, SHORT_MEMO, SHORT_RULE_TABLE};
use pool::State;
use refusals::Declined;

// R, M, N and the largest charge of any carried rule; or why the deck does not pass.
pub fn check(deck: &[u8]) -> Result<CheckAnswer, Declined>
    ensures { check_outcome result ≡ Calls.check deck.now }
{
    if deck_reading::few_rules(deck) {
        calls_check::check_tabled::<SHORT_RULE_TABLE, SHORT_MEMO>(deck)
    } else {
        calls_check::check_tabled::<RULE_TABLE, MEMO>(deck)
    }
}

// The stretch of the deck from a section's count to its end, in the lent deck itself; empty where it is refused. The refusal's
// number and place go into the two lent numbers, both 0 where it is not.
pub fn section<'a>(deck: &'a [u8], number: u32, refusal: &mut u32, place: &mut u32) -> &'a [u8]
    ensures { (section_of result.now refusal.new place.new ≡ Calls.section deck.now number)
        × LiesAt deck.entry.ref_ptr result.ref_ptr (Calls.section_from deck.now number) }
{
    if deck_reading::few_rules(deck) {
        calls_section::section_tabled::<SHORT_RULE_TABLE, SHORT_MEMO>(deck, number, refusal, place)
    } else {
        calls_section::section_tabled::<RULE_TABLE, MEMO>(deck, number, refusal, place)
    }
}

// The opening values, nothing pending, and the pool all 0. A refused start hands back a state of zeros.
pub fn start(deck: &[u8], pool: &mut [i32]) -> Answered<()>
    ensures { reply_of (start_outcome result.answer) result.state pool.new
        ≡ Calls.start deck.now pool.old }
{
    if deck_reading::few_rules(deck) {
        calls_start::start_tabled::<SHORT_RULE_TABLE, SHORT_MEMO>(deck, pool)
    } else {
        calls_start::start_tabled::<RULE_TABLE, MEMO>(deck, pool)
    }
}

// What input, commit and settle answer, each in its own words.
fn input_answer(told: Result<Response, Declined>) -> Result<u32, Declined>
    requires { Accepts IsOfInput (outcome_to told) }
    ensures { input_outcome result ≡ outcome_to told }
{
    match told? {
        Response::Added(charge) => Ok(charge),
        _ => unreachable!(),
    }
}

fn commit_answer(told: Result<Response, Declined>) -> Result<CommitAnswer, Declined>
    requires { Accepts IsOfCommit (outcome_to told) }
    ensures { commit_outcome result ≡ outcome_to told }
{
    match told? {
        Response::Applied(charge) => Ok(CommitAnswer::Applied(charge)),
        Response::Discarded(charge) => Ok(CommitAnswer::Discarded(charge)),
        _ => unreachable!(),
    }
}

fn settle_answer(told: Result<Response, Declined>) -> Result<SettleAnswer, Declined>
    requires { Accepts IsOfSettle (outcome_to told) }
    ensures { settle_outcome result ≡ outcome_to told }
{
    match told? {
        Response::Settled(commits) => Ok(SettleAnswer::Settled(commits)),
        Response::Spent(commits) => Ok(SettleAnswer::Spent(commits)),
        _ => unreachable!(),
    }
}

// The values of channels of a part are set, unless that would leave the part outside its limit. The answer is the charge added.
pub fn input(deck: &[u8], pool: &mut [i32], state: State, part: u32, pairs: &[i32]) -> Answered<u32>
    ensures { reply_of (input_outcome result.answer) result.state pool.new
        ≡ Calls.input deck.now (memory_of state pool.old) part pairs.now }
{
    let State {
        mut values,
        mut pending,
    } = state;
    let request = Request::Input(part);
    let told = calls_lent::call_lent(deck, pool, &mut values, &mut pending, request, pairs);
    Answered {
        answer: input_answer(told),
        state: State { values, pending },
    }
}

// The commit of the update at a place. The answer is whether it was applied, and the charge now pending.
pub fn commit(deck: &[u8], pool: &mut [i32], state: State, place: u32) -> Answered<CommitAnswer>
    ensures { reply_of (commit_outcome result.answer) result.state pool.new
        ≡ Calls.commit deck.now (memory_of state pool.old) place }
{
    let State {
        mut values,
        mut pending,
    } = state;
    let request = Request::Commit(place);
    let told = calls_lent::call_lent(deck, pool, &mut values, &mut pending, request, &[]);
    Answered {
        answer: commit_answer(told),
        state: State { values, pending },
    }
}

// The commit of place 0, again and again, within a budget of commits. The answer is how many were made, and whether nothing is
// pending then.
pub fn settle(deck: &[u8], pool: &mut [i32], state: State, budget: u32) -> Answered<SettleAnswer>
    ensures { reply_of (settle_outcome result.answer) result.state pool.new
        ≡ Calls.settle deck.now (memory_of state pool.old) budget }
{
    let State {
        mut values,
        mut pending,
    } = state;
    let request = Request::Settle(budget);
    let told = calls_lent::call_lent(deck, pool, &mut values, &mut pending, request, &[]);
    Answered {
        answer: settle_answer(told),
        state: State { values, pending },
    }
}

// The new deck that an old one becomes, at the front of the buffer; where it is refused, the buffer stays as it is. The answer is the
// new deck's length.
pub fn convert(deck: &[u8], buffer: &mut [u8]) -> Result<u32, Declined>
    ensures { Conversion.reply_of (Conversion.convert_outcome result) buffer.new
        ≡ Conversion.convert deck.now buffer.old }
{
    if deck_reading::few_rules(deck) {
        conversion_call::convert_tabled::<SHORT_RULE_TABLE, SHORT_MEMO>(deck, buffer)
    } else {
        conversion_call::convert_tabled::<RULE_TABLE, MEMO>(deck, buffer)
    }
}
