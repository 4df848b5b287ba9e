// Settle on what was tested. `calls` has the definition; specs/Settled.antt says what is left of it behind the tests.
#![tactic(auto)]

ghost use Rattle.std.specs.Prelude.{◌≡◌, cond, eqb};
ghost use Rattle.calls.specs.Calls as Calls;
ghost use Rattle.calls.specs.Calls.{settled, spent};
ghost use Rattle.calls.specs.Answers.{memory_at};
ghost use Rattle.calls.specs.Requests.{answer_to, reply_after};
ghost use Rattle.calls_tests.specs.Tested.{TestsPassed};

use calls::{AfterCall, Response};
use calls_tests::Pending;
use calls_turns::Turns;
use deck::{Deck, Rig};
use refusals::{Declined, Refusal};

const LARGEST_BUDGET: u32 = Deck::CHARGE as u32;

// What it answers: how many commits were made, and whether nothing is pending then.
fn response(turns: Turns) -> Response
    ensures { answer_to result ≡ cond (eqb turns.pending 0) (settled turns.made) (spent turns.made) }
{
    if turns.pending == 0 {
        Response::Settled(turns.made)
    } else {
        Response::Spent(turns.made)
    }
}

// The settle within a budget of at most 65,535 (16): place 0 is committed until none is pending or the budget is used.
pub fn settle_tested(
    rig: &Rig,
    pending: Pending,
    memo: &mut [u32],
    index: &mut [u16],
    pool: &mut [i32],
    values: &mut [i32; Deck::VALUES],
    budget: u32,
) -> Result<AfterCall, Declined>
    requires { TestsPassed rig.now.deck.now rig.now.rules.now rig.now.parts.now memo.old index.old
        (memory_at values.old pending.count pool.old) rig.now.counts pending.charge }
    ensures { reply_after result values.new pending.count pool.new
        ≡ Calls.settle rig.now.deck.now (memory_at values.old pending.count pool.old) budget }
{
    if budget > LARGEST_BUDGET {
        return Err(Refusal::BudgetTooLarge.unplaced());
    }
    let first = firing_commits::next_place();
    let turns = calls_turns::take_turns(rig, pending, memo, index, pool, values, first, budget);
    Ok(AfterCall {
        response: response(turns),
        pending: turns.pending as u32,
    })
}
