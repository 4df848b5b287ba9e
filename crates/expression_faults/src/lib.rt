// The search for an expression's first fault: it reads an operator and calls itself for each operand, and fewer bytes are unread
// then. It is called where the type check has said no. Numbers and truths have functions of their own, as they have operators of their
// own. The definitions are in `expression`.
#![tactic(auto)]

ghost use Rattle.std.specs.Prelude.{◌≡◌, ◌≤◌, [], ◌∷◌, length, Err};
ghost use Rattle.expression.specs.Reading.{num_op, truth_op};
ghost use Rattle.expression.specs.Answers.{scope};
ghost use Rattle.expression.specs.Faults.{a_number, a_truth, other_truth, other_number, first_fault};
ghost use Rattle.expression.specs.Searching.{Searched, LiteralSearched, ChannelSearched, WholeSearched};
ghost use Rattle.expression.specs.Searching.{fault, refused_at, of_search, answer_for, awaited_for, found_between};

use expression::{NumOp, TruthOp};
use refusals::{Fault, Refusal};

// This fault at a place.
fn fault(refusal: Refusal, place: usize) -> Result<usize, Fault>
    ensures { result ≡ Err (fault refusal place) }
{
    Err(Fault { refusal, place })
}

// A literal's four bytes.
fn literal_fault(s: &[u8], at: usize) -> Result<usize, Fault>
    requires { at ≤ length s.now }
    ensures { LiteralSearched s.now at result }
{
    if s.len() - at < 4 {
        return fault(Refusal::WrongEnd, s.len());
    }
    Ok(at + 4)
}

// A channel's byte, with `known` channels of its kind.
fn channel_fault(s: &[u8], at: usize, known: usize) -> Result<usize, Fault>
    ensures { ChannelSearched s.now known at result }
{
    if s.len() <= at {
        return fault(Refusal::WrongEnd, at);
    }
    if usize::from(s[at]) < known {
        Ok(at + 1)
    } else {
        fault(Refusal::UnknownByte, at)
    }
}

// A byte that is no operator of numbers, where a number is awaited.
fn other_than_number(b: u8, at: usize) -> Result<usize, Fault>
    ensures { result ≡ refused_at at (other_truth (truth_op b)) }
{
    match expression::truth_op(b) {
        TruthOp::Unknown => fault(Refusal::UnknownByte, at),
        _ => fault(Refusal::WrongType, at),
    }
}

// A byte that is no operator of truths, where a truth is awaited.
fn other_than_truth(b: u8, at: usize) -> Result<usize, Fault>
    ensures { result ≡ refused_at at (other_number (num_op b)) }
{
    match expression::num_op(b) {
        NumOp::Unknown => fault(Refusal::UnknownByte, at),
        _ => fault(Refusal::WrongType, at),
    }
}

// The place after the number that begins at a place of s, or its first fault. `own` own and `far` far channels are known; no far ones
// where none may stand.
fn num_fault(s: &[u8], at: usize, own: usize, far: usize) -> Result<usize, Fault>
    ensures { Searched (scope own far) s.now (a_number ∷ []) at result }
{
    if s.len() <= at {
        return fault(Refusal::WrongEnd, at);
    }
    let b = s[at];
    let op = expression::num_op(b);
    let next = at + 1;
    match op {
        NumOp::Literal => literal_fault(s, next),
        NumOp::Own => channel_fault(s, next, own),
        NumOp::Far => {
            if far == 0 {
                fault(Refusal::WrongType, at)
            } else {
                channel_fault(s, next, far)
            }
        }
        NumOp::Two(_) => {
            let n = num_fault(s, next, own, far)?;
            num_fault(s, n, own, far)
        }
        NumOp::Negation => num_fault(s, next, own, far),
        NumOp::Unknown => other_than_number(b, at),
    }
}

// The same of the truth that begins there.
fn truth_fault(s: &[u8], at: usize, own: usize, far: usize) -> Result<usize, Fault>
    ensures { Searched (scope own far) s.now (a_truth ∷ []) at result }
{
    if s.len() <= at {
        return fault(Refusal::WrongEnd, at);
    }
    let b = s[at];
    let op = expression::truth_op(b);
    let next = at + 1;
    match op {
        TruthOp::Constant(_) => Ok(next),
        TruthOp::Not => truth_fault(s, next, own, far),
        TruthOp::Both(_) => {
            let n = truth_fault(s, next, own, far)?;
            truth_fault(s, n, own, far)
        }
        TruthOp::Two(_) => {
            let n = num_fault(s, next, own, far)?;
            num_fault(s, n, own, far)
        }
        TruthOp::Unknown => other_than_truth(b, at),
    }
}

// What was found of a value that begins the bytes s, and then of bytes that are left over.
fn ended(s: &[u8], found: Result<usize, Fault>) -> Result<usize, Fault>
    ensures { WholeSearched s.now found result }
{
    let n = found?;
    if n < s.len() {
        fault(Refusal::WrongEnd, n)
    } else {
        Ok(n)
    }
}

// The first fault of the bytes s, which are to be a truth or else a number. Where there is none, the place after them.
fn whole_fault(s: &[u8], truth: bool, own: usize, far: usize) -> Result<usize, Fault>
    ensures { of_search result ≡ answer_for (length s.now) (first_fault (scope own far) (awaited_for truth ∷ []) s.now 0) }
{
    if truth {
        ended(s, truth_fault(s, 0, own, far))
    } else {
        ended(s, num_fault(s, 0, own, far))
    }
}

// The same of the bytes of s from one place to another, with the places of s.
pub fn expression_fault(
    s: &[u8],
    from: usize,
    to: usize,
    truth: bool,
    own: usize,
    far: usize,
) -> Result<usize, Fault>
    requires { (from ≤ to) × (to ≤ length s.now) }
    ensures { of_search result ≡ answer_for to (found_between (scope own far) truth s.now from to) }
{
    match whole_fault(&s[from..to], truth, own, far) {
        Ok(_) => Ok(to),
        Err(f) => fault(f.refusal, from + f.place),
    }
}
