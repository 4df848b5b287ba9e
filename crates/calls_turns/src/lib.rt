// Commits of one place, again and again, and the pending updates moved together behind them: what commit and settle share. One loop
// calls the commit, so that the compiler puts it there. The definitions are in specs/.
#![tactic(auto)]

ghost use Rattle.std.specs.Prelude.{length};
ghost use Rattle.pool.specs.Places.{capacity};
ghost use Rattle.calls_turns.specs.Turns.{Beginning, Turned};

use calls_tests::Pending;
use deck::{Deck, Rig};
use firing_queue::Queue;

// The commits made, the updates pending and their charge, and whether the last commit was applied.
#[derive(Clone, Copy)]
pub struct Turns {
    pub made: u32,
    pub pending: usize,
    pub charge: u32,
    pub applied: bool,
}

// The update that is pending at place `first` is committed until none is or the budget is used. What was tested once is not tested
// again. The places that were taken out follow one another from `first` on.
pub fn take_turns(
    rig: &Rig,
    pending: Pending,
    memo: &mut [u32],
    index: &mut [u16],
    pool: &mut [i32],
    values: &mut [i32; Deck::VALUES],
    first: usize,
    budget: u32,
) -> Turns
    requires { Beginning rig.now.deck.now rig.now.counts rig.now.rules.now rig.now.parts.now memo.old index.old pool.old
        (capacity (length pool.old)) values.old pending.count pending.charge first }
    ensures { Turned rig.now.deck.now (capacity (length pool.old)) values.old pending.count
        pending.charge index.old pool.old first budget result.made result.pending result.charge result.applied
        values.new pool.new }
{
    let mut queue = Queue {
        used: pending.count as usize,
        charge: pending.charge,
        capacity: (pool.len() / Deck::PLACE) as u32,
        full: false,
    };
    let mut applied = false;
    let mut made: u32 = 0;
    let mut next = first;
    // A `while`: it ends as well where nothing is pending there, and what follows asks how many turns were made.
    while made < budget {
        let ahead = queue.used - next;
        if ahead == 0 {
            break;
        }
        let step = firing_commits::commit(rig, memo, index, pool, queue, values, next);
        queue = step.queue;
        applied = step.applied;
        made += 1;
        next += 1;
    }
    let left = pool_holes::gather(pool, first, next, queue.used);
    Turns {
        made,
        pending: left,
        charge: queue.charge,
        applied,
    }
}
