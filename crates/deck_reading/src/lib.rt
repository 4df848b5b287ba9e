// The pass over a deck's bytes: the faults 1 to 5 and 18 to 20, the two tables, and the stretch of a section. The definitions are in
// `deck`.
#![tactic(auto)]

ghost use Rattle.std.specs.Prelude.{◌≡◌, ◌≤◌, length};
ghost use Rattle.deck.specs.Stretch.{LiesAt};
ghost use Rattle.deck.specs.Marks.{RulesFit, FewRules, ReadsFront, Loads};
ghost use Rattle.deck.specs.Sections.{offset_of, stretch_of};

use deck::{Deck, Form, Front, Read};
use refusals::{Fault, Refusal};

// The channels and the rules.
fn front_at(s: &[u8], table: &mut [u64], form: Form) -> Result<Read<Front>, Fault>
    requires { RulesFit s.now (length table.old) }
    ensures { ReadsFront form s.now result table.new table.old }
{
    let Read {
        value: channels,
        next: labels,
    } = deck_fields::number_at(s, 0, 1, Deck::CHANNELS + 1)?;
    let rules_at = deck_fields::labels_at(s, labels, channels)?;
    let Read {
        value: rules,
        next: from,
    } = deck_fields::number_at(s, rules_at, 0, Deck::RULES + 1)?;
    let next = deck_rules::rules_at(s, from, channels, rules, table, form)?;
    let value = Front {
        channels,
        rules,
        rules_at,
    };
    Ok(Read { value, next })
}

// One pass over the bytes: the deck, its rules and parts in the tables, or the first fault in reading order, 1 to 5 or 18 to 20.
pub fn read(deck: &[u8], rules: &mut [u64], parts: &mut [u64], form: Form) -> Result<Deck, Fault>
    requires { RulesFit deck.now (length rules.old) × (64 ≤ length parts.old) }
    ensures { Loads form deck.now rules.new rules.old parts.new parts.old result }
{
    let Read {
        value: front,
        next: parts_at,
    } = front_at(deck, rules, form)?;
    let count = deck_fields::number_at(deck, parts_at, 1, Deck::PARTS + 1)?;
    let end = deck_parts::parts_at(
        deck,
        count.next,
        front.channels,
        front.rules,
        count.value,
        parts,
    )?;
    if end < deck.len() {
        return Err(Fault {
            refusal: Refusal::BytesFollow,
            place: end,
        });
    }
    Ok(Deck {
        channels: front.channels,
        rules: front.rules,
        parts: count.value,
        rules_at: front.rules_at,
        parts_at,
    })
}

// Whether a deck has at most 16 rules. Their number is looked up and not read in order: of other bytes only a true answer says
// something, that the byte where the number would stand is at most 16.
pub fn few_rules(deck: &[u8]) -> bool
    ensures { FewRules deck.now result }
{
    let Some(&channels) = deck.first() else {
        return false;
    };
    match deck.get(1 + usize::from(channels)) {
        Some(&rules) => usize::from(rules) <= Deck::FEW_RULES,
        None => false,
    }
}

// The offset of a section's count; from 3 on, the deck's end.
fn offset(deck: Deck, number: usize, end: usize) -> usize
    ensures { result ≡ offset_of deck.rules_at deck.parts_at end number }
{
    match number {
        0 => 0,
        1 => deck.rules_at,
        2 => deck.parts_at,
        _ => end,
    }
}

// The stretch of a section, from its count to its end.
pub fn stretch(bytes: &[u8], deck: Deck, number: usize) -> &[u8]
    requires { (deck.rules_at ≤ deck.parts_at) × (deck.parts_at ≤ length bytes.now) × (number ≤ 2) }
    ensures { (result.now ≡ stretch_of deck.rules_at deck.parts_at bytes.now number)
        × LiesAt bytes.entry.ref_ptr result.ref_ptr (offset_of deck.rules_at deck.parts_at (length bytes.now) number) }
{
    let from = offset(deck, number, bytes.len());
    let to = offset(deck, number + 1, bytes.len());
    &bytes[from..to]
}
