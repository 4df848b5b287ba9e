// The fields of a deck, each read at an offset of its bytes: a number, rising numbers, labels, an expression; and the writing of a
// row. The definitions are in `deck`.
#![tactic(auto)]

ghost use Rattle.std.specs.Prelude.{◌≡◌, ◌++◌, ◌≤◌, length, drop};
ghost use Rattle.lists.specs.Bits.{mask_of};
ghost use Rattle.deck.specs.Reader.{number, repeats, rising, label};
ghost use Rattle.deck.specs.Marks.{Reads, ReadsKept, ReadsTo, scope_of, expression_for, is_whole};

use deck::{Deck, Read};
use refusals::{Fault, Refusal};

// A byte from lo to below hi.
pub fn number_at(s: &[u8], at: usize, lo: usize, hi: usize) -> Result<Read<usize>, Fault>
    ensures { ReadsKept s.now (number lo hi (drop at s.now) at) (λ kept v. kept ≡ v) result }
{
    let Some(&b) = s.get(at) else {
        return Err(Fault {
            refusal: Refusal::DeckEnds,
            place: at,
        });
    };
    let value = usize::from(b);
    if value < lo || hi <= value {
        return Err(Fault {
            refusal: Refusal::OutOfRange,
            place: at,
        });
    }
    Ok(Read {
        value,
        next: at + 1,
    })
}

// `count` strictly rising numbers below hi, as a set.
pub fn rising_at(s: &[u8], at: usize, count: usize, hi: usize) -> Result<Read<u64>, Fault>
    requires { (at ≤ length s.now) × (hi ≤ 64) }
    ensures { ReadsKept s.now (rising count 0 hi (drop at s.now) at) (λ kept cs. kept ≡ mask_of cs) result }
{
    let mut value: u64 = 0;
    let mut next = at;
    let mut low = 0;
    for _ in 0..count {
        let c = number_at(s, next, low, hi)?;
        value |= 1u64 << c.value;
        low = c.value + 1;
        next = c.next;
    }
    Ok(Read { value, next })
}

// A label is below this.
const LABELS_END: usize = Deck::HIGHEST_LABEL + 1;

// As many labels as there are channels.
pub fn labels_at(s: &[u8], at: usize, count: usize) -> Result<usize, Fault>
    requires { at ≤ length s.now }
    ensures { Reads s.now (repeats count label (drop at s.now) at) (λ _. Unit {0}) result }
{
    let mut next = at;
    for _ in 0..count {
        next = number_at(s, next, Deck::LOWEST_LABEL, LABELS_END)?.next;
    }
    Ok(next)
}

// A row written to the front of the tail of a table.
pub fn write_row(tail: &mut [u64], row: &[u64])
    requires { length row.now ≤ length tail.old }
    ensures { tail.new ≡ row.now ++ drop (length row.now) tail.old }
{
    tail[..row.len()].copy_from_slice(row);
}

// Whether the bytes are a whole truth, or else a whole number.
fn is_whole(bytes: &[u8], truth: bool, own: usize, far: usize) -> bool
    ensures { result ≡ is_whole truth (scope_of own far) bytes.now }
{
    if truth {
        expression_types::is_truth(bytes, own, far)
    } else {
        expression_types::is_num(bytes, own, far)
    }
}

// The place after an expression, a truth or else a number, with `own` own and `far` far channels known; none where there is a fault.
fn expression_end(s: &[u8], at: usize, truth: bool, own: usize, far: usize) -> Option<usize>
    ensures { ReadsTo s.now (expression_for truth (scope_of own far) (drop at s.now) at) result }
{
    let n = usize::from(*s.get(at)?);
    if n == 0 || Deck::EXPRESSION < n || s.len() - at <= n {
        return None;
    }
    let from = at + 1;
    let to = from + n;
    if is_whole(&s[from..to], truth, own, far) {
        Some(to)
    } else {
        None
    }
}

// The same with the fault: of the length byte, of too few bytes, or the first one of the expression. It is called only where there is
// one, so that decks that pass are not searched.
fn expression_step(s: &[u8], at: usize, truth: bool, own: usize, far: usize) -> Result<usize, Fault>
    ensures { Reads s.now (expression_for truth (scope_of own far) (drop at s.now) at) (λ _. Unit {0}) result }
{
    let Read {
        value: n,
        next: from,
    } = number_at(s, at, 1, Deck::EXPRESSION + 1)?;
    if s.len() - from < n {
        return Err(Fault {
            refusal: Refusal::DeckEnds,
            place: s.len(),
        });
    }
    let to = from + n;
    expression_faults::expression_fault(s, from, to, truth, own, far)
}

// An expression. Mostly it has no fault. `expression_step` is called in two places: called in one, it would be compiled into this
// function, and this one no longer into its callers, and reading a deck would take more steps.
pub fn expression_at(
    s: &[u8],
    at: usize,
    truth: bool,
    own: usize,
    far: usize,
) -> Result<usize, Fault>
    ensures { Reads s.now (expression_for truth (scope_of own far) (drop at s.now) at) (λ _. Unit {0}) result }
{
    if let Some(end) = expression_end(s, at, truth, own, far) {
        return Ok(end);
    }
    if truth {
        expression_step(s, at, true, own, far)
    } else {
        expression_step(s, at, false, own, far)
    }
}
