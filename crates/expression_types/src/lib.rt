// The type check: whether bytes are an expression. It goes over the bytes as they stand: it reads an operator and calls itself for
// each operand, and fewer bytes are unread then. The definitions are in `expression`. Numbers and truths have functions of their own,
// as they have operators of their own.
#![tactic(auto)]

ghost use Rattle.std.specs.Prelude.{◌≡◌, ◌<◌, ◌≤◌, length, get_or};
ghost use Rattle.expression.specs.Reading.{literal_at, channel_at, whole_num, whole_truth};
ghost use Rattle.expression.specs.Answers.{Answers, scope, num_end, truth_end, of_end, end_of, ends_at, is_got};

use expression::TruthOp;

// What is lent to check an expression: its bytes, and how many own and far channels are known. It is handed on by a reference, and so
// is the place in the bytes: compiled code answers an Option of nothing in a register, but not one of a place.
#[derive(Clone, Copy)]
struct Lent<'a> {
    bytes: &'a [u8],
    own: usize,
    far: usize,
}

// A literal's four bytes.
fn literal_end(s: &[u8], at: &mut usize) -> Option<()>
    requires { at.old ≤ length s.now }
    ensures { of_end result at.new ≡ end_of (literal_at s.now at.old) }
{
    if s.len() - *at < 4 {
        return None;
    }
    *at += 4;
    Some(())
}

// A channel's number, of n that are known.
fn channel_end(s: &[u8], at: &mut usize, n: usize) -> Option<()>
    ensures { of_end result at.new ≡ end_of (channel_at n s.now at.old) }
{
    let c = usize::from(*s.get(*at)?);
    *at += 1;
    if c < n { Some(()) } else { None }
}

// A literal or a channel, which have no operands, by its first byte b.
fn leaf_end(lent: &Lent, at: &mut usize, b: u8) -> Option<()>
    requires { (at.old < length lent.now.bytes.now) × (b ≡ get_or lent.now.bytes.now at.old 0) × (b < 3) }
    ensures { Answers (num_end (scope lent.now.own lent.now.far)) lent.now.bytes.now at.old (of_end result at.new) }
{
    *at += 1;
    match b {
        0 => literal_end(lent.bytes, at),
        1 => channel_end(lent.bytes, at, lent.own),
        _ => channel_end(lent.bytes, at, lent.far),
    }
}

// The number at a place, which moves on to its end. Bytes below 3 are literals and channels; 6 is the negation, which has one operand.
fn num_end(lent: &Lent, at: &mut usize) -> Option<()>
    requires { length lent.now.bytes.now < 18446744073709551616 }
    ensures { Answers (num_end (scope lent.now.own lent.now.far)) lent.now.bytes.now at.old (of_end result at.new) }
{
    let b = *lent.bytes.get(*at)?;
    if b < 3 {
        return leaf_end(lent, at, b);
    }
    *at += 1;
    if b > 6 {
        return None;
    }
    if b == 6 {
        return num_end(lent, at);
    }
    num_end(lent, at)?;
    num_end(lent, at)
}

// The truth at a place, which moves on to its end.
fn truth_end(lent: &Lent, at: &mut usize) -> Option<()>
    requires { length lent.now.bytes.now < 18446744073709551616 }
    ensures { Answers (truth_end (scope lent.now.own lent.now.far)) lent.now.bytes.now at.old (of_end result at.new) }
{
    let op = expression::truth_op(*lent.bytes.get(*at)?);
    *at += 1;
    match op {
        TruthOp::Constant(_) => Some(()),
        TruthOp::Not => truth_end(lent, at),
        TruthOp::Both(_) => {
            truth_end(lent, at)?;
            truth_end(lent, at)
        }
        TruthOp::Two(_) => {
            num_end(lent, at)?;
            num_end(lent, at)
        }
        TruthOp::Unknown => None,
    }
}

// ---- whole expressions

// Whether an expression that ends there ends with the bytes, so that nothing stands after it.
fn ends(s: &[u8], end: Option<()>, at: usize) -> bool
    ensures { result ≡ ends_at (length s.now) (of_end end at) }
{
    end.is_some() && at == s.len()
}

// Whether the bytes are a number.
pub fn is_num(s: &[u8], own: usize, far: usize) -> bool
    ensures { result ≡ is_got (whole_num (scope own far) s.now) }
{
    let mut at = 0;
    let end = num_end(&Lent { bytes: s, own, far }, &mut at);
    ends(s, end, at)
}

// Whether the bytes are a truth.
pub fn is_truth(s: &[u8], own: usize, far: usize) -> bool
    ensures { result ≡ is_got (whole_truth (scope own far) s.now) }
{
    let mut at = 0;
    let end = truth_end(&Lent { bytes: s, own, far }, &mut at);
    ends(s, end, at)
}
