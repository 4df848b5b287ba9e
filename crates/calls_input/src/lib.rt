// Input on what was tested. `calls` has the definition; specs/Entered.antt says what is left of it behind the tests.
#![tactic(auto)]

ghost use Rattle.std.specs.Prelude.{◌≡◌, true, ◌*◌, ◌-◌, ◌≤◌, ◌<◌, ◌++◌, length, take};
ghost use Rattle.pool.specs.Places.{zeros};
ghost use Rattle.passing.specs.Tabled.{deck_of};
ghost use Rattle.calls.specs.Calls as Calls;
ghost use Rattle.calls.specs.Calls.{good_input};
ghost use Rattle.calls.specs.Answers.{memory_at};
ghost use Rattle.calls.specs.Requests.{reply_after};
ghost use Rattle.calls_tests.specs.Tested.{TestsPassed};
ghost use Rattle.calls_input.specs.Entered.{GoodInput};

use calls::{AfterCall, Response};
use calls_tests::Pending;
use deck::{Deck, Rig};
use firing_queue::Queue;
use firing_rules::Change;
use refusals::{Declined, Refusal};

// 12: 1 to 32 pairs of known, different channels.
fn good_input(pairs: &[i32], channels: usize) -> bool
    requires { channels ≤ 32 }
    ensures { GoodInput channels pairs.now result }
{
    let n = pairs.len();
    if n < 2 || n > 2 * Deck::CHANNELS || n % 2 != 0 {
        return false;
    }
    let mut seen: u64 = 0;
    for i in 0..n / 2 {
        let Some(c) = pool_states::bounded_at(pairs, 2 * i, channels) else {
            return false;
        };
        if (seen >> c) % 2 == 1 {
            return false;
        }
        seen |= 1 << c;
    }
    true
}

// All but the first updates are taken back: their places become zeros again.
fn take_back(pool: &mut [i32], pending: usize)
    requires { 10 * pending ≤ length pool.old }
    ensures { pool.new ≡ take (10 * pending) pool.old ++ zeros (length pool.old - 10 * pending) }
{
    let from = Deck::PLACE * pending;
    pool::clear(&mut pool[from..]);
}

// A good input to a known part. The values of its channels are set on a copy, the limit is tested there and the firing follows, and
// they are stored unless that is too much (17, 13).
fn enter(
    rig: &Rig,
    pending: Pending,
    memo: &mut [u32],
    index: &mut [u16],
    pool: &mut [i32],
    values: &mut [i32; Deck::VALUES],
    part: usize,
    pairs: &[i32],
) -> Result<AfterCall, Declined>
    requires { TestsPassed rig.now.deck.now rig.now.rules.now rig.now.parts.now memo.old index.old
        (memory_at values.old pending.count pool.old) rig.now.counts pending.charge
        × (part < rig.now.counts.parts) × (good_input (deck_of rig.now.deck.now) pairs.now ≡ true) }
    ensures { reply_after result values.new pending.count pool.new
        ≡ Calls.input rig.now.deck.now (memory_at values.old pending.count pool.old) part
        pairs.now }
{
    let mut after = *values;
    firing_actions::assign_pairs(&mut after, part, pairs);
    if !passing_tests::within(rig, &after, part) {
        return Err(Refusal::InputOutside.unplaced());
    }
    let mut back = [0i32; 2 * Deck::CHANNELS];
    let channels = firing_actions::changed_by(values, part, pairs, &mut back);
    let change = Change { part, channels };
    let n = pending.count as usize;
    let queue = Queue {
        used: n,
        charge: pending.charge,
        capacity: (pool.len() / Deck::PLACE) as u32,
        full: false,
    };
    let grown = firing_rules::react(rig, memo, index, pool, queue, &after, change);
    if grown.full {
        take_back(pool, n);
        return Err(Refusal::OverCapacity.unplaced());
    }
    firing_actions::assign_pairs(values, part, pairs);
    Ok(AfterCall {
        response: Response::Added(grown.charge - pending.charge),
        pending: grown.used as u32,
    })
}

// The input to a part, if the part is known and the input list is good (11, 12).
pub fn input_tested(
    rig: &Rig,
    pending: Pending,
    memo: &mut [u32],
    index: &mut [u16],
    pool: &mut [i32],
    values: &mut [i32; Deck::VALUES],
    part: u32,
    pairs: &[i32],
) -> Result<AfterCall, Declined>
    requires { TestsPassed rig.now.deck.now rig.now.rules.now rig.now.parts.now memo.old index.old
        (memory_at values.old pending.count pool.old) rig.now.counts pending.charge }
    ensures { reply_after result values.new pending.count pool.new
        ≡ Calls.input rig.now.deck.now (memory_at values.old pending.count pool.old) part
        pairs.now }
{
    let p = part as usize;
    if p >= rig.counts.parts {
        return Err(Refusal::UnknownPart.unplaced());
    }
    if !good_input(pairs, rig.counts.channels) {
        return Err(Refusal::BadInput.unplaced());
    }
    enter(rig, pending, memo, index, pool, values, p, pairs)
}
