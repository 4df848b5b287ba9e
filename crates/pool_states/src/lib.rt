// The test for a good state (10) and the charge of its pending updates. The definitions are in `pool`.
#![tactic(auto)]

ghost use Rattle.std.specs.Prelude.{◌≡◌, true, ◌+◌, ◌*◌, ◌<◌, ◌≤◌, ltb, length, get_or, drop, replicate, pos, nat_abs};
ghost use Rattle.lists.specs.Lists.{all_of};
ghost use Rattle.lists.specs.Bits.{mask_of};
ghost use Rattle.deck.specs.Shape.{shape};
ghost use Rattle.charge.specs.Memo.{Ready};
ghost use Rattle.pool.specs.Updates.{channels};
ghost use Rattle.pool.specs.Places.{is_zero, update_of, well_written};
ghost use Rattle.pool.specs.States.{good_length};
ghost use Rattle.pool_index.specs.Index.{Roomy};
ghost use Rattle.pool_states.specs.Answer.{FitsChannels, FitsPairs, FitsPlace, FitsValues, FitsState, HoldsKnown, PlaceGives, Weighs};
ghost use Rattle.pool_states.specs.Answer.{memory_of, Fresh, TestsGood};
ghost use Rattle.pool_states.specs.Fits.{Bounded, IsNatural};

use deck::{Deck, Rig};

// The number at an index, if it is from 0 to below the bound.
pub fn bounded_at(place: &[i32], i: usize, bound: usize) -> Option<usize>
    requires { i < length place.now }
    ensures { Bounded bound (get_or place.now i (pos 0)) result }
{
    let x = place[i];
    if x < 0 {
        return None;
    }
    let n = x as usize;
    if n < bound { Some(n) } else { None }
}

// The number at an index, where it is known not to be below 0.
pub fn number_at(place: &[i32], i: usize) -> usize
    requires { (i < length place.now) × IsNatural (get_or place.now i (pos 0)) }
    ensures { result ≡ nat_abs (get_or place.now i (pos 0)) }
{
    place[i] as usize
}

// The channels of the pairs as a set, if they are known ones and no two are equal.
fn channels_fit(place: &[i32], count: usize, channels: usize) -> Option<u64>
    requires { (2 + 2 * count ≤ length place.now) × (channels ≤ 32) }
    ensures { FitsChannels channels count (drop 2 place.now) result }
{
    let mut mask: u64 = 0;
    for i in 0..count {
        let c = bounded_at(place, 2 + 2 * i, channels)?;
        if (mask >> c) % 2 == 1 {
            return None;
        }
        mask |= 1 << c;
    }
    Some(mask)
}

// Whether the numbers of a place from one on are 0. A plain loop: there are at most eight.
fn zero_from(place: &[i32], from: usize) -> bool
    requires { length place.now ≡ 10 }
    ensures { result ≡ all_of is_zero (drop from place.now) }
{
    for i in from..Deck::PLACE {
        if place[i] != 0 {
            return false;
        }
    }
    true
}

// The set of the one channel of a place with one pair, if it is a known one and zeros stand behind the pair.
fn single_fits(place: &[i32], channels: usize) -> Option<u64>
    requires { (length place.now ≡ 10) × (channels ≤ 32) × (get_or place.now 1 (pos 0) ≡ pos 1) }
    ensures { FitsPairs channels place.now result }
{
    let c = bounded_at(place, 2, channels)?;
    if pool::all_zero(&place[4..]) {
        Some(1 << c)
    } else {
        None
    }
}

// The set of the channels of a place, if it has 1 to 4 pairs, their channels are known and no two are equal, and zeros stand
// behind the pairs.
fn several_fit(place: &[i32], channels: usize) -> Option<u64>
    requires { (length place.now ≡ 10) × (channels ≤ 32) }
    ensures { FitsPairs channels place.now result }
{
    let count = bounded_at(place, 1, Deck::ASSIGNMENTS + 1)?;
    if count == 0 {
        return None;
    }
    let mask = channels_fit(place, count, channels)?;
    if !zero_from(place, 2 + 2 * count) {
        return None;
    }
    Some(mask)
}

// The channels of the update that a place holds, as a set, if the place is well written and its update is a known one. Most
// places have one pair.
fn place_fits(place: &[i32], channels: usize, parts: usize) -> Option<u64>
    requires { (length place.now ≡ 10) × (channels ≤ 32) }
    ensures { FitsPlace channels parts place.now result }
{
    bounded_at(place, 0, parts)?;
    if place[1] == 1 {
        single_fits(place, channels)
    } else {
        several_fit(place, channels)
    }
}

// Whether the numbers behind the channels of each part are 0.
fn parts_fit(values: &[i32], channels: usize, parts: usize) -> bool
    requires { (length values.now ≡ 32 * parts) × (channels ≤ 32) × (parts ≤ 16) }
    ensures { FitsValues channels parts values.now result }
{
    for p in 0..parts {
        let from = Deck::CHANNELS * p + channels;
        let to = Deck::CHANNELS * p + Deck::CHANNELS;
        if !pool::all_zero(&values[from..to]) {
            return false;
        }
    }
    true
}

// Whether the numbers of the table that belong to no channel of a part are 0.
fn values_fit(values: &[i32], channels: usize, parts: usize) -> bool
    requires { (length values.now ≡ 512) × (channels ≤ 32) × (parts ≤ 16) }
    ensures { FitsValues channels parts values.now result }
{
    let end = Deck::CHANNELS * parts;
    if !parts_fit(&values[..end], channels, parts) {
        return false;
    }
    pool::all_zero(&values[end..])
}

// The channels of the update that a place holds, as a set.
pub fn channels_of(place: &[i32]) -> u64
    requires { (length place.now ≡ 10) × (well_written place.now ≡ true)
        × (all_of (λ c. ltb c 32) (channels (update_of place.now)) ≡ true) }
    ensures { result ≡ mask_of (channels (update_of place.now)) }
{
    let count = number_at(place, 1);
    let mut mask: u64 = 0;
    for i in 0..count {
        let c = number_at(place, 2 + 2 * i);
        mask |= 1 << c;
    }
    mask
}

// The charge of the update that a place holds, up to 65,536.
pub fn place_charge(rig: &Rig, memo: &mut [u32], place: &[i32]) -> u32
    requires { Ready rig.now.rules.now rig.now.parts.now rig.now.counts memo.old × (rig.now.counts.channels ≤ 32)
        × HoldsKnown (shape rig.now.rules.now rig.now.parts.now rig.now.counts) place.now }
    ensures { PlaceGives (shape rig.now.rules.now rig.now.parts.now rig.now.counts) place.now memo.new result }
{
    let p = number_at(place, 0);
    let mask = channels_of(place);
    charge_tables::update_charge(rig, memo, p, mask)
}

// The charge of the pending updates, up to 65,536, and the index of them, if each place is well written and holds a known
// update and no two are equal. A place is looked for where it and all before it are well written: equal numbers mean equal
// updates only there.
fn weigh(
    rig: &Rig,
    memo: &mut [u32],
    pool: &[i32],
    pending: usize,
    index: &mut [u16],
) -> Option<u32>
    requires { Ready rig.now.rules.now rig.now.parts.now rig.now.counts memo.old × (rig.now.counts.channels ≤ 32)
        × (10 * pending ≤ length pool.now) × (pending ≤ 65535) × Roomy pending index.old
        × (index.old ≡ replicate (length index.old) 0) }
    ensures { Weighs (shape rig.now.rules.now rig.now.parts.now rig.now.counts) pending pool.now memo.new
        index.old index.new result }
{
    let mut total: u32 = 0;
    for k in 0..pending {
        let at = Deck::PLACE * k;
        let next = at + Deck::PLACE;
        let place = &pool[at..next];
        let mask = place_fits(place, rig.counts.channels, rig.counts.parts)?;
        let p = number_at(place, 0);
        let c = charge_tables::update_charge(rig, memo, p, mask);
        total = charge_tables::capped_sum(total, c);
        let slot = pool_index::find(index, pool, k, place)?;
        pool_index::note(index, k, slot);
    }
    Some(total)
}

// Whether the values and the count of pending updates are those of a good state, and zeros stand behind their places.
fn state_fits(values: &[i32], pending: usize, pool: &[i32], channels: usize, parts: usize) -> bool
    requires { (channels ≤ 32) × (parts ≤ 16) }
    ensures { FitsState channels parts (memory_of values.now pending pool.now) result }
{
    if values.len() != Deck::VALUES {
        return false;
    }
    if !values_fit(values, channels, parts) {
        return false;
    }
    if pool.len() / Deck::PLACE < pending {
        return false;
    }
    let end = Deck::PLACE * pending;
    pool::all_zero(&pool[end..])
}

// 10: the charge of the pending updates, if the state is a good one; the index is then that of these updates.
pub fn good_state(
    rig: &Rig,
    memo: &mut [u32],
    index: &mut [u16],
    values: &[i32],
    pending: usize,
    pool: &[i32],
) -> Option<u32>
    requires { Ready rig.now.rules.now rig.now.parts.now rig.now.counts memo.old × (rig.now.counts.channels ≤ 32)
        × (good_length (length pool.now) ≡ true) × Fresh (length pool.now) index.old }
    ensures { TestsGood (shape rig.now.rules.now rig.now.parts.now rig.now.counts) values.now pending pool.now
        memo.new index.old index.new result }
{
    if !state_fits(values, pending, pool, rig.counts.channels, rig.counts.parts) {
        return None;
    }
    let total = weigh(rig, memo, pool, pending, index)?;
    let places = pool.len() / Deck::PLACE;
    if places < total as usize {
        return None;
    }
    Some(total)
}
