// Reads an old deck from standard input and writes the new deck that it becomes to standard output; where it is refused, nothing, and
// `refused NUMBER PLACE` to standard error.
#![tactic(auto)]

ghost use Rattle.std.specs.Prelude.{◌≡◌, IsTrue, length};
ghost use Rattle.std.specs.Io.KnownBytes.{Appends};
ghost use Rattle.conversion.specs.Conversion.{conversion};
ghost use Rattle.conversion.specs.Fits.{Fits};
ghost use Rattle.convert_deck.specs.Written.{Holds, Writes, written};

use deck::Deck;
use refusals::Declined;
use replay_text::answers::Answer;
use std::io::{Read, Write};

// Writes a deck, and answers whether it did.
fn write_deck<W: Write, E: Write>(deck: &[u8], out: &mut W, err: &mut E) -> bool
    ensures { IsTrue result → Appends (W.contents out.old) (W.contents out.new) deck.now }
{
    if let Err(why) = out.write_all(deck) {
        let _ = descriptors::fail(err, b"cannot write the deck", &why);
        return false;
    }
    true
}

fn convert_into(deck: &[u8], new: &mut [u8]) -> Result<u32, Declined>
    ensures fits { Fits result (length new.old) }
    ensures holds { Holds result new.new (conversion deck.now (length new.old)) }
{
    engine::convert(deck, new)
}

// The conversion of a deck, with as much room as the longest new deck needs. Answers whether what is to be written was.
fn convert<W: Write, E: Write>(deck: &[u8], out: &mut W, err: &mut E) -> bool
    ensures { IsTrue result → Appends (W.contents out.old) (W.contents out.new) (written deck.now) }
{
    let mut new = [0u8; Deck::BYTES];
    match convert_into(deck, &mut new) {
        Ok(length) => write_deck(&new[..length as usize], out, err),
        Err(why) => {
            let line = Answer::from(why).line();
            let _ = err.write_all(line.as_str().as_bytes());
            true
        }
    }
}

// Reads an old deck and converts it. One byte more than the longest old deck already shows the fault.
fn convert_from<R: Read, W: Write, E: Write>(from: &mut R, out: &mut W, err: &mut E) -> bool
    ensures { IsTrue result → Writes (R.remaining from.old) (W.contents out.old) (W.contents out.new) }
{
    // On the stack: a conversion cannot run out of memory.
    let mut old = [0u8; Deck::OLD_BYTES + 1];
    match descriptors::read_all(from, &mut old) {
        Ok(n) => convert(&old[..n], out, err),
        Err(why) => {
            let _ = descriptors::fail(err, b"cannot read the deck", &why);
            false
        }
    }
}

fn main(rt: HostRuntime) {
    convert_from(&mut rt.stdin(), &mut rt.stdout(), &mut rt.stderr());
}
