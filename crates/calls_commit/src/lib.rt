// Commit on what was tested. `calls` has the definition; specs/Committed.antt says what is left of it behind the tests.
#![tactic(auto)]

ghost use Rattle.std.specs.Prelude.{◌≡◌};
ghost use Rattle.calls.specs.Calls as Calls;
ghost use Rattle.calls.specs.Answers.{memory_at};
ghost use Rattle.calls.specs.Requests.{answer_to, reply_after};
ghost use Rattle.calls_tests.specs.Tested.{TestsPassed};
ghost use Rattle.calls_commit.specs.Committed.{committed_as};

use calls::{AfterCall, Response};
use calls_tests::Pending;
use calls_turns::Turns;
use deck::{Deck, Rig};
use refusals::{Declined, Refusal};

// The commits that a commit makes.
const ONE: u32 = 1;

// What it answers: whether the update was applied, and the charge pending then.
fn response(turn: Turns) -> Response
    ensures { answer_to result ≡ committed_as turn.applied turn.charge }
{
    if turn.applied {
        Response::Applied(turn.charge)
    } else {
        Response::Discarded(turn.charge)
    }
}

// The commit of a place, if it is pending (14).
pub fn commit_tested(
    rig: &Rig,
    pending: Pending,
    memo: &mut [u32],
    index: &mut [u16],
    pool: &mut [i32],
    values: &mut [i32; Deck::VALUES],
    place: u32,
) -> Result<AfterCall, Declined>
    requires { TestsPassed rig.now.deck.now rig.now.rules.now rig.now.parts.now memo.old index.old
        (memory_at values.old pending.count pool.old) rig.now.counts pending.charge }
    ensures { reply_after result values.new pending.count pool.new
        ≡ Calls.commit rig.now.deck.now (memory_at values.old pending.count pool.old) place }
{
    let k = place as usize;
    if !firing_commits::may_take(pending.count as usize, k) {
        return Err(Refusal::PlaceNotPending.unplaced());
    }
    let turn = calls_turns::take_turns(rig, pending, memo, index, pool, values, k, ONE);
    Ok(AfterCall {
        response: response(turn),
        pending: turn.pending as u32,
    })
}
