// The evaluator of expressions. It goes over the bytes as they stand: it reads an operator and calls itself for each operand, and
// fewer bytes are unread then. The definitions are in `expression`.
#![tactic(auto)]

ghost use Rattle.std.specs.Prelude.{◌≡◌, ◌<◌, length, get_or};
ghost use Rattle.expression.specs.Values.{arith, join, comparison};
ghost use Rattle.expression.specs.Reading.{literal_at, channel_at};
ghost use Rattle.expression.specs.Answers.{map_read, Answers, value_in, num_at, truth_at, of_num, of_truth};
ghost use Rattle.expression.specs.Answers.{whole_num_value, whole_truth_value};

use expression::{Arith, Compare, Join, NumOp, TruthOp};

// What is lent to evaluate an expression: its bytes, and the values of the own and of the far channels. It is handed on by a reference,
// and so is the place in the bytes: compiled code answers a value in registers, but not a value with a place.
#[derive(Clone, Copy)]
struct Lent<'a> {
    bytes: &'a [u8],
    own: &'a [i32],
    far: &'a [i32],
}

// A literal's four bytes.
fn literal_at(bytes: &[u8], at: &mut usize) -> Option<i32>
    ensures { of_num result at.new ≡ literal_at bytes.now at.old }
{
    let i = *at;
    if bytes.len().saturating_sub(i) < 4 {
        return None;
    }
    *at = i + 4;
    Some(expression::value_of([bytes[i], bytes[i + 1], bytes[i + 2], bytes[i + 3]]))
}

// The value of one of these channels, by its number.
fn channel_at(bytes: &[u8], at: &mut usize, values: &[i32]) -> Option<i32>
    ensures { of_num result at.new ≡ map_read (value_in values.now) (channel_at (length values.now) bytes.now at.old) }
{
    let c = usize::from(*bytes.get(*at)?);
    *at += 1;
    values.get(c).copied()
}

fn calculate(k: Arith, a: i32, b: i32) -> i32
    ensures { result ≡ arith k a b }
{
    match k {
        Arith::Sum => clamped::add(a, b),
        Arith::Difference => clamped::sub(a, b),
        Arith::Product => clamped::mul(a, b),
    }
}

// The number at a place, which moves on to its end.
fn num_at(lent: &Lent, at: &mut usize) -> Option<i32>
    ensures { Answers (num_at lent.now.own.now lent.now.far.now) lent.now.bytes.now at.old (of_num result at.new) }
{
    let b = *lent.bytes.get(*at)?;
    *at += 1;
    match expression::num_op(b) {
        NumOp::Literal => literal_at(lent.bytes, at),
        NumOp::Own => channel_at(lent.bytes, at, lent.own),
        NumOp::Far => channel_at(lent.bytes, at, lent.far),
        NumOp::Two(k) => {
            let x = num_at(lent, at)?;
            let y = num_at(lent, at)?;
            Some(calculate(k, x, y))
        }
        NumOp::Negation => {
            let x = num_at(lent, at)?;
            Some(clamped::neg(x))
        }
        NumOp::Unknown => None,
    }
}

fn join_truths(k: Join, p: bool, q: bool) -> bool
    ensures { result ≡ join k p q }
{
    match k {
        Join::And => p && q,
        Join::Or => p || q,
    }
}

fn compare_nums(k: Compare, a: i32, b: i32) -> bool
    ensures { result ≡ comparison k a b }
{
    match k {
        Compare::Less => a < b,
        Compare::Equal => a == b,
    }
}

// The truth at a place, which moves on to its end.
fn truth_at(lent: &Lent, at: &mut usize) -> Option<bool>
    ensures { Answers (truth_at lent.now.own.now lent.now.far.now) lent.now.bytes.now at.old (of_truth result at.new) }
{
    let b = *lent.bytes.get(*at)?;
    *at += 1;
    match expression::truth_op(b) {
        TruthOp::Constant(p) => Some(p),
        TruthOp::Not => {
            let p = truth_at(lent, at)?;
            Some(!p)
        }
        TruthOp::Both(k) => {
            let p = truth_at(lent, at)?;
            let q = truth_at(lent, at)?;
            Some(join_truths(k, p, q))
        }
        TruthOp::Two(k) => {
            let x = num_at(lent, at)?;
            let y = num_at(lent, at)?;
            Some(compare_nums(k, x, y))
        }
        TruthOp::Unknown => None,
    }
}

// ---- whole expressions

// The value of the number that the bytes are.
pub fn num_value(s: &[u8], own: &[i32], far: &[i32]) -> Option<i32>
    ensures { result ≡ whole_num_value own.now far.now s.now }
{
    let mut at = 0;
    let value = num_at(&Lent { bytes: s, own, far }, &mut at)?;
    if at == s.len() { Some(value) } else { None }
}

// The value of the truth that the bytes are.
pub fn truth_value(s: &[u8], own: &[i32], far: &[i32]) -> Option<bool>
    ensures { result ≡ whole_truth_value own.now far.now s.now }
{
    let mut at = 0;
    let value = truth_at(&Lent { bytes: s, own, far }, &mut at)?;
    if at == s.len() { Some(value) } else { None }
}
