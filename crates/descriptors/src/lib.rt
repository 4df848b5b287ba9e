// Bytes read from a reader, files by the names that arguments have, and what is said of a call that failed.
#![tactic(auto)]

ghost use Rattle.std.specs.Prelude.{IfSome};
ghost use Rattle.descriptors.specs.Counts.{IsPrefixLen};
ghost use Rattle.descriptors.specs.Input.{Within, Gives, GivesAll};

use std::env::FillError;
use std::io::{Error, ErrorKind, Read, Write};
use std::rt::{Env, Files};
use std::{fs, io};

// One read. 0 bytes: the input has ended.
pub fn read_some<R: Read>(from: &mut R, buf: &mut [u8]) -> io::Result<usize>
    ensures within { Within result buf.new }
    ensures given { Gives (R.remaining from.old) (R.remaining from.new) result buf.new }
{
    from.read(buf)
}

// Reads until buf is full or the input ends.
pub fn read_all<R: Read>(from: &mut R, buf: &mut [u8]) -> io::Result<usize>
    ensures within { Within result buf.new }
    ensures given { GivesAll (R.remaining from.old) (R.remaining from.new) result buf.new }
{
    let mut done = 0;
    // A `while`: a read gives as many bytes as it likes, and `GivesAll` says how they add up.
    while done < buf.len() {
        let n = read_some(from, &mut buf[done..])?;
        if n == 0 {
            break;
        }
        done += n;
    }
    Ok(done)
}

// Writes a line: what failed, a colon and why.
pub fn fail<W: Write>(to: &mut W, what: &[u8], why: &Error) -> io::Result<()> {
    to.write_all(what)?;
    writeln!(to, ": {why}")
}

// Puts an argument at the start of buf, and answers its length: nothing of it, where it is longer than buf. 0 is the program's name,
// and behind the last argument there is none.
// A buffer and a length, not a `String`: a name that is no text is reported, and the programs go on with the next.
pub fn argument<R: Env>(rt: &R, i: usize, buf: &mut [u8]) -> Option<usize>
    ensures { IfSome result (λ n. IsPrefixLen n buf.new) }
{
    match rt.arg(i, buf) {
        Ok(n) => Some(n),
        Err(FillError::TooLong) => Some(0),
        Err(FillError::NotPresent) => None,
    }
}

// A name that is no text names no file.
fn open<R: Files>(rt: &R, name: &[u8]) -> io::Result<R::File> {
    let path = str::from_utf8(name).map_err(|_| Error::from(ErrorKind::InvalidFilename))?;
    fs::open(rt, path)
}

// Opens a file for reading; where that fails, says so on `err`.
pub fn open_named<R: Files, E: Write>(rt: &R, name: &[u8], err: &mut E) -> Option<R::File> {
    match open(rt, name) {
        Ok(file) => Some(file),
        Err(why) => {
            let _ = fail(err, name, &why);
            None
        }
    }
}
