// The line that the program prints for a deck. Document 01, "Calls"; specs/Line.antt of `calls` has its definition.
#![tactic(auto)]

ghost use Rattle.std.specs.Prelude.{◌≡◌, take, Some, IsTrue, OnOk};
ghost use Rattle.std.specs.Io.KnownBytes.{Appends};
ghost use Rattle.descriptors.specs.Counts.{IsPrefixLen};
ghost use Rattle.calls.specs.Line.{line as Line·line};
ghost use Rattle.calls.specs.Calls.{check};
ghost use Rattle.calls.specs.Answers.{check_outcome};
ghost use Rattle.check_line.specs.Reports.{Reports};

use calls::CheckAnswer;
use deck::Deck;
use refusals::Declined;
use std::io::{Read, Write};
use std::{fmt, io};

#[cfg(test)]
mod tests;

// Puts the line of an answer at the start of a buffer, and answers its length.
fn put_line(answer: Result<CheckAnswer, Declined>, out: &mut [u8; 64]) -> usize
    ensures prefix_len { IsPrefixLen result out.new }
    ensures out_after { take result out.new ≡ Line·line (check_outcome answer) }
{
    match answer {
        Ok(
            CheckAnswer {
                channels,
                rules,
                parts,
                charge,
            },
        ) => {
            let a = decimal::put_text(out, 0, b"passed");
            let b = decimal::put_number(out, a, channels);
            let c = decimal::put_number(out, b, rules);
            let d = decimal::put_number(out, c, parts);
            let e = decimal::put_number(out, d, charge);
            decimal::put_byte(out, e, b'\n')
        }
        Err(why) => {
            let a = decimal::put_text(out, 0, b"refused");
            let b = decimal::put_number(out, a, why.refusal.number());
            let c = decimal::put_number(out, b, why.place);
            decimal::put_byte(out, c, b'\n')
        }
    }
}

// What check answers. It is printed as a line, with its newline.
#[derive(Clone, Copy, Debug, PartialEq, Eq)]
pub struct CheckLine {
    pub answer: Result<CheckAnswer, Declined>,
}

impl fmt::Display for CheckLine {
    ghost output = { λ l. Some (Line·line (check_outcome l.answer)) };

    fn fmt<W: fmt::Write>(&self, f: &mut fmt::Formatter<W>) -> fmt::Result {
        let mut text = [0u8; 64];
        let n = put_line(self.answer, &mut text);
        match str::from_utf8(&text[..n]) {
            Ok(line) => f.write_str(line),
            // A line is plain text.
            Err(_) => unreachable!(),
        }
    }
}

// Checks a deck, puts the line of the answer at the start of a buffer, and answers its length.
pub fn check_line(deck: &[u8], out: &mut [u8; 64]) -> usize
    ensures prefix_len { IsPrefixLen result out.new }
    ensures out_after { take result out.new ≡ Line·line (check deck.now) }
{
    put_line(engine::check(deck), out)
}

// Prints the line of a deck.
fn print<W: Write>(deck: &[u8], out: &mut W) -> io::Result<()>
    ensures { OnOk result (Appends (W.contents out.old) (W.contents out.new) (Line·line (check deck.now))) }
{
    let mut text = [0u8; 64];
    let n = check_line(deck, &mut text);
    out.write_all(&text[..n])
}

// Reads a deck and prints the line of its check, and answers whether it did. One byte more than the longest deck that can pass already
// shows the fault. Where a read or a write fails, says so on `err`.
pub fn report<R: Read, W: Write, E: Write>(from: &mut R, out: &mut W, err: &mut E) -> bool
    ensures { IsTrue result → Reports (R.remaining from.old) (W.contents out.old) (W.contents out.new) }
{
    // On the stack: a report cannot run out of memory.
    let mut buf = [0u8; Deck::BYTES + 1];
    let n = match descriptors::read_all(from, &mut buf) {
        Ok(n) => n,
        Err(why) => {
            let _ = descriptors::fail(err, b"cannot read the deck", &why);
            return false;
        }
    };
    if let Err(why) = print(&buf[..n], out) {
        let _ = descriptors::fail(err, b"cannot write the line", &why);
        return false;
    }
    true
}
