// The commits. The definitions are in `firing`.
#![tactic(auto)]

ghost use Rattle.std.specs.Prelude.{◌≡◌, ◌-◌, length};
ghost use Rattle.passing.specs.Tabled.{deck_of};
ghost use Rattle.deck.specs.Shape.{shape};
ghost use Rattle.firing_queue.specs.Queue.{held_of};
ghost use Rattle.firing_commits.specs.Commits.{Looking, Looks, CommittingAt, Commits, MayTake, NextPlace};

use deck::{Deck, Rig};
use firing_queue::Queue;
use firing_rules::Change;

// The part of an update and the number of its pairs, its charge, up to 65,536, and the channels that it changes, as a set.
#[derive(Clone, Copy)]
pub struct Looked {
    pub part: usize,
    pub count: usize,
    pub charge: u32,
    pub changed: u64,
}

// The update at place k, applied. `back` begins then with the pairs that set its channels back.
fn look(
    rig: &Rig,
    memo: &mut [u32],
    pool: &[i32],
    values: &mut [i32],
    back: &mut [i32],
    k: usize,
) -> Looked
    requires { Looking rig.now.counts rig.now.rules.now rig.now.parts.now memo.old pool.now k × (length values.old ≡ 512)
        × (length back.old ≡ 8) }
    ensures { Looks (shape rig.now.rules.now rig.now.parts.now rig.now.counts) k values.old pool.now
        memo.new values.new back.new result.part result.count result.charge result.changed }
{
    let at = Deck::PLACE * k;
    let end = at + Deck::PLACE;
    let place = &pool[at..end];
    let part = pool_states::number_at(place, 0);
    let count = pool_states::number_at(place, 1);
    let mask = pool_states::channels_of(place);
    let charge = charge_tables::update_charge(rig, memo, part, mask);
    let to = 2 + 2 * count;
    let pairs = &place[2..to];
    let changed = firing_actions::changed_by(values, part, pairs, back);
    firing_actions::assign_pairs(values, part, pairs);
    Looked {
        part,
        count,
        charge,
        changed,
    }
}

// What is pending after a commit, and whether the update was applied: the queue is as good where it was not.
#[derive(Clone, Copy)]
pub struct AfterCommit {
    pub queue: Queue,
    pub applied: bool,
}

// The commit of the update at place k, which becomes a hole: it is applied, and set back where the limit of its part would fail. There
// is room for a charge of the queue's capacity beside the holes, and for one less afterwards.
pub fn commit(
    rig: &Rig,
    memo: &mut [u32],
    index: &mut [u16],
    pool: &mut [i32],
    queue: Queue,
    values: &mut [i32],
    k: usize,
) -> AfterCommit
    requires { CommittingAt rig.now.deck.now rig.now.counts rig.now.rules.now rig.now.parts.now memo.old
        (held_of index.old pool.old) queue.capacity values.old queue.used queue.charge k }
    ensures { Commits (deck_of rig.now.deck.now) (shape rig.now.rules.now rig.now.parts.now rig.now.counts)
        queue.capacity k (held_of index.old pool.old) values.old queue.used queue.charge memo.new
        (held_of index.new pool.new) values.new result.queue.used result.queue.charge result.applied
        × (result.queue.capacity ≡ queue.capacity - 1) }
{
    let mut back = [0i32; 2 * Deck::ASSIGNMENTS];
    let found = look(rig, memo, pool, values, &mut back, k);
    pool_holes::empty(pool, k);
    let part = found.part;
    let left = Queue {
        used: queue.used,
        charge: queue.charge - found.charge,
        capacity: queue.capacity - 1,
        full: false,
    };
    if !passing_tests::within(rig, values, part) {
        firing_actions::assign_pairs(values, part, &back[..2 * found.count]);
        return AfterCommit {
            queue: left,
            applied: false,
        };
    }
    let change = Change {
        part,
        channels: found.changed,
    };
    let queue = firing_rules::react(rig, memo, index, pool, left, values, change);
    AfterCommit {
        queue,
        applied: true,
    }
}

// Whether a commit may take a place: every pending one.
pub fn may_take(pending: usize, k: usize) -> bool
    ensures { MayTake pending k result }
{
    k < pending
}

// The place of the pending updates that a settle takes next.
pub fn next_place() -> usize
    ensures { NextPlace result }
{
    0
}
