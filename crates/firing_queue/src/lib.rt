// A new update offered to the pending ones: it stands behind them, unless it is equal to one of them or its charge passes the capacity.
#![tactic(auto)]

ghost use Rattle.std.specs.Prelude.{◌≡◌, true, [], ◌∷◌};
ghost use Rattle.pool.specs.Places.{update_of};
ghost use Rattle.pool_states.specs.Answer.{HoldsKnown};
ghost use Rattle.deck.specs.Shape.{shape};
ghost use Rattle.firing_queue.specs.Queue.{held_of, Offering, Offered};

use deck::Rig;

// The places used, those from which an update was taken out among them, the charge of the pending updates, and the capacity that it
// keeps within; full where a new one would have passed it. A flag beside numbers that mean the same where it is set: an input takes back
// the places that were used then.
#[derive(Clone, Copy)]
pub struct Queue {
    pub used: usize,
    pub charge: u32,
    pub capacity: u32,
    pub full: bool,
}

// The capacity would be passed: nothing more is taken.
fn over_capacity(queue: Queue) -> Queue
    ensures { (result.used ≡ queue.used) × (result.charge ≡ queue.charge) × (result.capacity ≡ queue.capacity)
        × (result.full ≡ true) }
{
    Queue {
        full: true,
        ..queue
    }
}

// Memo, index and pool are lent one by one: what is said of them is said of each, before and after.
// A new update behind the last place used, unless it is equal to one then pending or its charge passes the capacity.
pub fn add(
    rig: &Rig,
    memo: &mut [u32],
    index: &mut [u16],
    pool: &mut [i32],
    queue: Queue,
    row: &[i32],
) -> Queue
    requires { Offering rig.now.rules.now rig.now.parts.now rig.now.counts memo.old (held_of index.old pool.old) queue
        × HoldsKnown (shape rig.now.rules.now rig.now.parts.now rig.now.counts) row.now }
    ensures { Offered (shape rig.now.rules.now rig.now.parts.now rig.now.counts) (update_of row.now ∷ [])
        (held_of index.old pool.old) queue memo.new (held_of index.new pool.new) result }
{
    if queue.full {
        return queue;
    }
    let Some(slot) = pool_index::find(index, pool, queue.used, row) else {
        return queue;
    };
    let c = pool_states::place_charge(rig, memo, row);
    let total = queue.charge + c;
    if total > queue.capacity {
        return over_capacity(queue);
    }
    pool::push(pool, queue.used, row);
    pool_index::note(index, queue.used, slot);
    Queue {
        used: queue.used + 1,
        charge: total,
        ..queue
    }
}
