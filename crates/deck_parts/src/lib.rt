// The parts of a deck, read at an offset of its bytes, and the table of their rows. The definitions are in `deck`.
#![tactic(auto)]

ghost use Rattle.std.specs.Prelude.{◌≡◌, ◌*◌, ◌≤◌, length, drop};
ghost use mathlib.Core.List.{◌++◌, flat_map};
ghost use Rattle.deck.specs.Reader.{repeats, value};
ghost use Rattle.deck.specs.Marks.{Reads, ReadsKept, marked_part, part_row};

use deck::{Deck, Read};
use refusals::{Fault, Refusal};

// The opening values of `count` channels, of four bytes each: whatever the bytes are, only their number matters.
fn values_at(s: &[u8], at: usize, count: usize) -> Result<usize, Fault>
    requires { (at ≤ length s.now) × (count ≤ 32) }
    ensures { Reads s.now (repeats count value (drop at s.now) at) (λ _. Unit {0}) result }
{
    let size = 4 * count;
    if s.len() - at < size {
        return Err(Fault {
            refusal: Refusal::DeckEnds,
            place: s.len(),
        });
    }
    Ok(at + size)
}

// A part's row of the table.
fn part_at(
    s: &[u8],
    at: usize,
    own: usize,
    rules: usize,
) -> Result<Read<[u64; Deck::PART_ROW]>, Fault>
    requires { (at ≤ length s.now) × (own ≤ 32) × (rules ≤ 64) }
    ensures { ReadsKept s.now (marked_part own rules (drop at s.now) at) (λ kept m. kept ≡ part_row m) result }
{
    let count_at = values_at(s, at, own)?;
    let count = deck_fields::number_at(s, count_at, 0, rules + 1)?;
    let carried = deck_fields::rising_at(s, count.next, count.value, rules)?;
    let next = deck_fields::expression_at(s, carried.next, true, own, 0)?;
    let value = [carried.value, at as u64, carried.next as u64, 0];
    Ok(Read { value, next })
}

// The `count` parts, a row of four numbers for each. The loop of `rules_at` once more: one loop for both would be lent a closure that
// answers a row, and the bound of a closure cannot name the length of the row.
pub fn parts_at(
    s: &[u8],
    at: usize,
    own: usize,
    rules: usize,
    count: usize,
    table: &mut [u64],
) -> Result<usize, Fault>
    requires { (at ≤ length s.now) × (own ≤ 32) × (rules ≤ 64) × (4 * count ≤ length table.old) }
    ensures { Reads s.now (repeats count (marked_part own rules) (drop at s.now) at)
        (λ ms. table.new ≡ flat_map part_row ms ++ drop (4 * count) table.old) result }
{
    let mut next = at;
    for i in 0..count {
        let part = part_at(s, next, own, rules)?;
        deck_fields::write_row(&mut table[Deck::PART_ROW * i..], &part.value);
        next = part.next;
    }
    Ok(next)
}
