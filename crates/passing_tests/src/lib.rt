// The tests of a deck. The definitions are in `passing`.
#![tactic(auto)]

ghost use Rattle.std.specs.Prelude.{◌≡◌, ◌++◌, ◌+◌, ◌*◌, ◌≤◌, ◌<◌, length, drop, replicate};
ghost use Rattle.lists.specs.Lists.{first_or};
ghost use Rattle.deck.specs.Deck.{N};
ghost use Rattle.graph.specs.FirstCycle.{FoundBelow};
ghost use Rattle.charge.specs.Memo.{memo_size};
ghost use Rattle.pool.specs.Places.{zeros};
ghost use Rattle.passing.specs.Check.{opening_values, outside};
ghost use Rattle.passing.specs.Check as Check;
ghost use Rattle.passing.specs.Stands.{HasTruth, TruthIs, stretch, values_from};
ghost use Rattle.passing.specs.Tabled.{deck_of, PartsKnown};
ghost use Rattle.passing.specs.Judged.{RulesKnown, JudgesRules, ZeroRules, ZeroMemo, WholeKnown, Judges, JudgesRead};

use deck::{Deck, Form, Rig};
use passing::Passing;
use refusals::{Declined, Refusal};

// The value of the truth that stands at an offset of the deck. Own and far channels are stretches of the values, lent by where they
// begin and how many they are: a stretch that was just made is slow to hand on.
pub fn truth_from(
    deck: &[u8],
    at: usize,
    values: &[i32],
    own_at: usize,
    owns: usize,
    far_at: usize,
    fars: usize,
) -> bool
    requires { (own_at + owns ≤ length values.now) × (far_at + fars ≤ length values.now)
        × HasTruth deck.now at (length (stretch values.now own_at owns)) (length (stretch values.now far_at fars)) }
    ensures { TruthIs deck.now at (stretch values.now own_at owns)
        (stretch values.now far_at fars) result }
{
    let n = usize::from(deck[at]);
    let from = at + 1;
    let to = from + n;
    let own_to = own_at + owns;
    let far_to = far_at + fars;
    let value = expression_values::truth_value(
        &deck[from..to],
        &values[own_at..own_to],
        &values[far_at..far_to],
    );
    value.unwrap_or(false)
}

// The first opening values of a part, `count` of them, written to the front of a part's stretch of the table, or of a row of its own.
fn open_part(stretch: &mut [i32], deck: &[u8], at: usize, count: usize)
    requires { (count ≤ length stretch.old) × (at + 4 * count ≤ length deck.now) }
    ensures { stretch.new ≡ values_from deck.now at count ++ drop count stretch.old }
{
    for c in 0..count {
        let o = at + 4 * c;
        stretch[c] = expression::value_of([deck[o], deck[o + 1], deck[o + 2], deck[o + 3]]);
    }
}

// Whether part p is within its limit.
pub fn within(rig: &Rig, values: &[i32], p: usize) -> bool
    requires { PartsKnown rig.now.deck.now rig.now.counts rig.now.parts.now × (length values.now ≡ 512)
        × (p < rig.now.counts.parts) }
    ensures { result ≡ Check.within (deck_of rig.now.deck.now) p values.now }
{
    let at = rig.parts[Deck::PART_ROW * p + Deck::PART_LIMIT_AT] as usize;
    truth_from(
        rig.deck,
        at,
        values,
        Deck::CHANNELS * p,
        rig.counts.channels,
        0,
        0,
    )
}

// The opening values of all parts, written into a table of zeros.
pub fn open_parts(rig: &Rig, values: &mut [i32])
    requires { PartsKnown rig.now.deck.now rig.now.counts rig.now.parts.now × (values.old ≡ zeros 512) }
    ensures { values.new ≡ opening_values (deck_of rig.now.deck.now) }
{
    for p in 0..rig.counts.parts {
        let at = rig.parts[Deck::PART_ROW * p + Deck::PART_OPENING_AT] as usize;
        let from = Deck::CHANNELS * p;
        open_part(&mut values[from..], rig.deck, at, rig.counts.channels);
    }
}

// Whether part p opens within its limit: its opening values in a row of their own.
fn opens_within(rig: &Rig, p: usize) -> bool
    requires { PartsKnown rig.now.deck.now rig.now.counts rig.now.parts.now × (p < rig.now.counts.parts) }
    ensures { result ≡ Check.within (deck_of rig.now.deck.now) p (opening_values (deck_of rig.now.deck.now)) }
{
    let mut row = [0i32; Deck::CHANNELS];
    let at = rig.parts[Deck::PART_ROW * p + Deck::PART_OPENING_AT] as usize;
    open_part(&mut row, rig.deck, at, rig.counts.channels);
    let limit = rig.parts[Deck::PART_ROW * p + Deck::PART_LIMIT_AT] as usize;
    truth_from(rig.deck, limit, &row, 0, rig.counts.channels, 0, 0)
}

// The lowest part that opens outside its limit, if one does.
fn first_outside(rig: &Rig) -> Option<usize>
    requires { PartsKnown rig.now.deck.now rig.now.counts rig.now.parts.now }
    ensures { FoundBelow rig.now.counts.parts
        (first_or (N (deck_of rig.now.deck.now)) (outside (deck_of rig.now.deck.now))) result }
{
    for p in 0..rig.counts.parts {
        if !opens_within(rig, p) {
            return Some(p);
        }
    }
    None
}

fn declined(refusal: Refusal, place: usize) -> Declined
    requires { place ≤ 65536 }
    ensures { (result.refusal ≡ refusal) × (result.place ≡ place) }
{
    Declined {
        refusal,
        place: place as u32,
    }
}

// 7 and 8, for a deck whose parts open within their limits.
fn judge_rules(rig: &Rig, memo: &mut [u32]) -> Result<Passing, Declined>
    requires { RulesKnown rig.now.rules.now rig.now.parts.now rig.now.counts
        × (memo.old ≡ replicate (memo_size rig.now.counts.rules) 0) }
    ensures { JudgesRules rig.now.rules.now rig.now.parts.now memo.new rig.now.counts result }
{
    let counts = rig.counts;
    if let Some(c) = graph::first_cycle(rig.rules, rig.parts, counts) {
        return Err(declined(Refusal::CyclicGraph, c));
    }
    match charge_bound::first_above(rig, memo) {
        Ok(charge) => Ok(Passing { counts, charge }),
        Err(place) => Err(declined(Refusal::Overcharged, place)),
    }
}

// 6 to 8, for a deck that was read.
fn judge_whole(
    deck: &[u8],
    counts: Deck,
    rules: &mut [u64],
    parts: &[u64],
    memo: &mut [u32],
) -> Result<Passing, Declined>
    requires { WholeKnown deck.now counts rules.old parts.now × (memo.old ≡ replicate (memo_size counts.rules) 0) }
    ensures { JudgesRead deck.now rules.new parts.now memo.new result }
{
    let read = Rig {
        deck,
        counts,
        rules,
        parts,
    };
    if let Some(p) = first_outside(&read) {
        return Err(declined(Refusal::OpensOutside, p));
    }
    charge_listeners::note_listeners(rules, parts, counts.rules, counts.parts);
    let rig = Rig {
        deck,
        counts,
        rules,
        parts,
    };
    judge_rules(&rig, memo)
}

// 1 to 8 and 18 to 20: the deck's tables are filled, and the tests follow in their order. The memo keeps the charges of a deck that
// passes.
pub fn judge(
    deck: &[u8],
    rules: &mut [u64],
    parts: &mut [u64],
    memo: &mut [u32],
    form: Form,
) -> Result<Passing, Declined>
    requires { ZeroRules deck.now rules.old × (parts.old ≡ replicate 64 0) × ZeroMemo deck.now memo.old }
    ensures { Judges form deck.now rules.new parts.new memo.new result }
{
    match deck_reading::read(deck, rules, parts, form) {
        Ok(counts) => judge_whole(deck, counts, rules, parts, memo),
        Err(fault) => Err(declined(fault.refusal, fault.place)),
    }
}
