// What is behind convert, with tables that are long enough for the deck. `conversion` has the definitions.
#![tactic(auto)]

ghost use Rattle.std.specs.Prelude.{◌≡◌, ◌≤◌, replicate};
ghost use Rattle.deck.specs.Limits.{limits};
ghost use Rattle.deck.specs.Deck.{M};
ghost use Rattle.passing.specs.Tabled.{deck_of};
ghost use Rattle.passing.specs.Judged.{ZeroRules, ZeroMemo};
ghost use Rattle.conversion.specs.Converted.{converted};
ghost use Rattle.conversion.specs.Conversion.{convert, convert_outcome, reply_of};
ghost use Rattle.conversion_bytes.specs.Decks.{Numbered};
ghost use Rattle.conversion_call.specs.Passed.{OldDeck};

use deck::{Deck, Form};
use refusals::{Declined, Refusal};

// Writes the conversion of a deck from which at most 64 rules result. It is made beside the buffer, which stays as it is where the
// bytes do not fit.
fn write(deck: &[u8], counts: Deck, numbers: &[u8], buffer: &mut [u8]) -> Result<u32, Declined>
    requires { OldDeck deck.now counts × Numbered (deck_of deck.now) numbers.now
        × (M (converted (deck_of deck.now)) ≤ limits.rules) }
    ensures { reply_of (convert_outcome result) buffer.new ≡ convert deck.now buffer.old }
{
    let mut made = [0u8; Deck::BYTES];
    let length = conversion_bytes::write(deck, counts, numbers, &mut made);
    if length > buffer.len() {
        return Err(Refusal::BufferTooShort.unplaced());
    }
    let end = conversion_bytes::copy(&made, 0, length, buffer, 0);
    Ok(end as u32)
}

// The conversion of a deck that the old check passed.
fn convert_passed(deck: &[u8], counts: Deck, buffer: &mut [u8]) -> Result<u32, Declined>
    requires { OldDeck deck.now counts }
    ensures { reply_of (convert_outcome result) buffer.new ≡ convert deck.now buffer.old }
{
    let mut numbers = [0u8; Deck::RULES + 1];
    conversion_bytes::number(deck, counts, &mut numbers);
    let result = usize::from(numbers[counts.rules]);
    if result > Deck::RULES {
        return Err(Refusal::TooManyRules.unplaced());
    }
    write(deck, counts, &numbers, buffer)
}

// The conversion with a table of rules and a memo that are long enough for the deck.
pub fn convert_with(
    deck: &[u8],
    buffer: &mut [u8],
    rules: &mut [u64],
    memo: &mut [u32],
) -> Result<u32, Declined>
    requires { ZeroRules deck.now rules.old × ZeroMemo deck.now memo.old }
    ensures { reply_of (convert_outcome result) buffer.new ≡ convert deck.now buffer.old }
{
    let mut parts = [0u64; passing::PART_TABLE];
    let passing = passing_tests::judge(deck, rules, &mut parts, memo, Form::Old)?;
    convert_passed(deck, passing.counts, buffer)
}

// The conversion with a table of rules and a memo of lengths that are enough for the deck.
pub fn convert_tabled<const RULES: usize, const MEMO: usize>(
    deck: &[u8],
    buffer: &mut [u8],
) -> Result<u32, Declined>
    requires { ZeroRules deck.now (replicate RULES 0) × ZeroMemo deck.now (replicate MEMO 0) × (RULES ≤ 512) × (MEMO ≤ 1024) }
    ensures { reply_of (convert_outcome result) buffer.new ≡ convert deck.now buffer.old }
{
    let mut rules = [0u64; RULES];
    let mut memo = [0u32; MEMO];
    convert_with(deck, buffer, &mut rules, &mut memo)
}
