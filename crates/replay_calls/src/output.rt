// Output that waits until there is no room for more of it.
ghost use Rattle.std.specs.Prelude.{◌≡◌, [], ◌++◌};

use arrayvec::ArrayVec;
use replay_text::answers::Answer;
use std::fmt;
use std::io::{Error, Write};

// Bytes of output that may wait.
const ROOM: usize = 65_536;

// What waits. A text that does not fit is left out.
#[derive(Drop)]
struct Waiting {
    bytes: ArrayVec<u8, ROOM>,
}

impl fmt::Write for Waiting {
    ghost write_str_gives = { λ before text after. after.bytes.items ≡ before.bytes.items ++ text };

    #[inline]
    fn write_str(&mut self, text: &str) -> fmt::Result {
        match self.bytes.try_extend_from_slice(text.as_bytes()) {
            Ok(()) => Ok(()),
            Err(_) => Err(fmt::Error),
        }
    }
}

impl Waiting {
    // Puts a line behind what waits, or as much of it as fits.
    fn put(&mut self, answer: Answer) -> fmt::Result {
        fmt::Write::write_fmt(self, answer)?;
        match self.bytes.try_push(b'\n') {
            Ok(()) => Ok(()),
            Err(_) => Err(fmt::Error),
        }
    }
}

// What waits goes to `to`; where that fails, `err` is told, and the bytes are lost. Nothing is allocated.
#[derive(Drop)]
pub struct Output<W: Write + Drop, E: Write + Drop> {
    to: W,
    err: E,
    waiting: Waiting,
}

impl<W: Write + Drop, E: Write + Drop> Output<W, E> {
    // Nothing waits.
    pub fn new(to: W, err: E) -> Output<W, E>
        ensures { result.waiting.bytes.items ≡ [] }
    {
        Output {
            to,
            err,
            waiting: Waiting {
                bytes: ArrayVec::new(),
            },
        }
    }

    // Prints a line. It is written in one piece, so that a write that fails loses whole lines.
    pub fn print(&mut self, answer: Answer) {
        let whole = self.waiting.bytes.len();
        if self.waiting.put(answer).is_err() {
            self.waiting.bytes.truncate(whole);
            self.flush();
            let _ = self.waiting.put(answer);
        }
    }

    // Says on `err` what failed and why.
    pub fn tell(&mut self, what: &[u8], why: &Error) {
        let _ = descriptors::fail(&mut self.err, what, why);
    }

    // Writes what waits.
    pub fn flush(&mut self)
        ensures { self.new.waiting.bytes.items ≡ [] }
    {
        if let Err(why) = self.to.write_all(self.waiting.bytes.as_slice()) {
            self.tell(b"cannot write the answers", &why);
        }
        self.waiting.bytes.clear();
    }
}
