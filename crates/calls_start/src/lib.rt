// What is behind start, with tables that are long enough for the deck. `calls` has the definitions.
#![tactic(auto)]

ghost use Rattle.std.specs.Prelude.{◌≡◌, ◌≤◌, pos, length, replicate};
ghost use Rattle.pool.specs.Places.{zeros};
ghost use Rattle.calls.specs.Calls as Calls;
ghost use Rattle.calls.specs.Answers.{start_outcome, reply_of};
ghost use Rattle.passing.specs.Judged.{ZeroRules, ZeroMemo};

use calls::Answered;
use deck::{Deck, Form, Rig};
use pool::State;
use refusals::{Declined, Refusal};

// A refused start hands back a state of zeros.
fn start_declined(why: Declined) -> Answered<()>
    ensures { (result.answer ≡ Err why) × (result.state.values ≡ replicate 512 (pos 0)) × (result.state.pending ≡ 0) }
{
    let state = State {
        values: [0; Deck::VALUES],
        pending: 0,
    };
    Answered {
        answer: Err(why),
        state,
    }
}

// A start that is accepted leaves the pool all 0.
fn begin(pool: &mut [i32], state: State) -> Answered<()>
    ensures { (result.answer ≡ Ok tt) × (result.state ≡ state) × (pool.new ≡ zeros (length pool.old)) }
{
    pool::clear(pool);
    Answered {
        answer: Ok(()),
        state,
    }
}

// The start with a table of rules and a memo that are long enough for the deck.
pub fn start_with(
    deck: &[u8],
    pool: &mut [i32],
    rules: &mut [u64],
    memo: &mut [u32],
) -> Answered<()>
    requires { ZeroRules deck.now rules.old × ZeroMemo deck.now memo.old }
    ensures { reply_of (start_outcome result.answer) result.state pool.new
        ≡ Calls.start deck.now pool.old }
{
    let mut parts = [0u64; passing::PART_TABLE];
    let mut values = [0i32; Deck::VALUES];
    match passing_tests::judge(deck, rules, &mut parts, memo, Form::New) {
        Err(why) => start_declined(why),
        Ok(passing) => {
            if !pool::good_length(pool.len()) {
                return start_declined(Refusal::BadPool.unplaced());
            }
            let rig = Rig {
                deck,
                counts: passing.counts,
                rules,
                parts: &parts,
            };
            passing_tests::open_parts(&rig, &mut values);
            begin(pool, State { values, pending: 0 })
        }
    }
}

// The start with a table of rules and a memo of lengths that are enough for the deck.
pub fn start_tabled<const RULES: usize, const MEMO: usize>(
    deck: &[u8],
    pool: &mut [i32],
) -> Answered<()>
    requires { ZeroRules deck.now (replicate RULES 0) × ZeroMemo deck.now (replicate MEMO 0) × (RULES ≤ 512) × (MEMO ≤ 1024) }
    ensures { reply_of (start_outcome result.answer) result.state pool.new
        ≡ Calls.start deck.now pool.old }
{
    let mut rules = [0u64; RULES];
    let mut memo = [0u32; MEMO];
    start_with(deck, pool, &mut rules, &mut memo)
}
