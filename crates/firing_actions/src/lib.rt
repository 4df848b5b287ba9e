// The update that an action makes, and the channels that an update sets. The definitions are in `firing`.
#![tactic(auto)]

ghost use Rattle.std.specs.Prelude.{◌≡◌, ◌+◌, ◌*◌, ◌%◌, ◌≤◌, ◌<◌, length, get_or};
ghost use Rattle.pool.specs.Updates.{assign};
ghost use Rattle.pool.specs.Places.{pairs_of};
ghost use Rattle.firing.specs.Evaluated.{HasNumber, NumberIs, HasAction, ActionIs, Assignable, Compared};

use deck::Deck;

// The value of the number that stands at an offset of the deck.
fn number_from(deck: &[u8], at: usize, own: &[i32], far: &[i32]) -> i32
    requires { HasNumber deck.now at (length own.now) (length far.now) }
    ensures { NumberIs deck.now at own.now far.now result }
{
    let from = at + 1;
    let to = from + usize::from(deck[at]);
    expression_values::num_value(&deck[from..to], own, far).unwrap_or(0)
}

// The place of the update that an action of one assignment, at an offset, makes for a part. Most actions have one, and its numbers are
// written without a loop.
fn evaluate_one(deck: &[u8], at: usize, part: usize, own: &[i32], far: &[i32]) -> [i32; Deck::PLACE]
    requires { HasAction deck.now at (length own.now) (length far.now) × (part < 16) × (get_or deck.now at 0 ≡ 1) }
    ensures { ActionIs deck.now at part own.now far.now result }
{
    let mut row = [0i32; Deck::PLACE];
    let value = number_from(deck, at + 2, own, far);
    row[0] = part as i32;
    row[1] = 1;
    row[2] = i32::from(deck[at + 1]);
    row[3] = value;
    row
}

// The place of the update that the action at an offset makes for a part.
pub fn evaluate(deck: &[u8], at: usize, part: usize, own: &[i32], far: &[i32]) -> [i32; Deck::PLACE]
    requires { HasAction deck.now at (length own.now) (length far.now) × (part < 16) }
    ensures { ActionIs deck.now at part own.now far.now result }
{
    let count = usize::from(deck[at]);
    if count == 1 {
        return evaluate_one(deck, at, part, own, far);
    }
    let mut row = [0i32; Deck::PLACE];
    row[0] = part as i32;
    row[1] = count as i32;
    let mut place = at + 1;
    for i in 0..count {
        let target = i32::from(deck[place]);
        let value = number_from(deck, place + 1, own, far);
        row[2 + 2 * i] = target;
        row[3 + 2 * i] = value;
        place += 2 + usize::from(deck[place + 1]);
    }
    row
}

// What the pairs change at a part, as a set of channels. `back` begins then with the pairs that set the channels back.
pub fn changed_by(values: &[i32], part: usize, pairs: &[i32], back: &mut [i32]) -> u64
    requires { (length values.now ≡ 512) × (part < 16) × Assignable pairs.now × (length pairs.now % 2 ≡ 0)
        × (length pairs.now ≤ length back.old) }
    ensures { Compared part pairs.now values.now back.new result }
{
    let n = pairs.len() / 2;
    let mut mask: u64 = 0;
    // By index: the same places of `back` are written.
    for i in 0..n {
        let c = pairs[2 * i] as usize;
        let new = pairs[2 * i + 1];
        let old = values[Deck::CHANNELS * part + c];
        back[2 * i] = pairs[2 * i];
        back[2 * i + 1] = old;
        if old != new {
            mask |= 1u64 << c;
        }
    }
    mask
}

// The channels of a part set, pair by pair.
pub fn assign_pairs(values: &mut [i32], part: usize, pairs: &[i32])
    requires { (length values.old ≡ 512) × (part < 16) × Assignable pairs.now }
    ensures { values.new ≡ assign part (pairs_of pairs.now) values.old }
{
    for pair in pairs.chunks_exact(2) {
        let c = pair[0] as usize;
        values[Deck::CHANNELS * part + c] = pair[1];
    }
}
