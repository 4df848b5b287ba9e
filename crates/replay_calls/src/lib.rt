// Goes through a text of calls on the memory of one host, and prints an answer for each and at the end what is left in memory.
// What is read and written is tested and not proved.
#![tactic(auto)]

mod host;
mod output;

use host::{Host, LONGEST_DECK, LONGEST_POOL};
use output::Output;
use replay_text::answers::Answer;
use replay_text::lines::{Line, Unreadable};
use std::io::{Read, Write};

// How many bytes of the text are read at once.
const AT_ONCE: usize = 65_536;

// A host between two bytes of its text, with the line as far as it is read. What the host lends stands beside it: moved with it, it would
// take its room on the stack again and again.
#[derive(Drop)]
struct Player<W: Write + Drop, E: Write + Drop> {
    host: Host,
    line: Line,
    out: Output<W, E>,
}

impl<W: Write + Drop, E: Write + Drop> Player<W, E> {
    // Goes through the line, now that it has ended.
    fn end_line(&mut self, deck: &mut [u8; LONGEST_DECK], pool: &mut [i32; LONGEST_POOL]) {
        let line = self.line;
        self.line = Line::new();
        match line.command() {
            Ok(Some(command)) => self.host.perform(deck, pool, command, &mut self.out),
            Ok(None) => {}
            Err(Unreadable) => self.out.print(Answer::Unreadable),
        }
    }

    fn read(
        &mut self,
        deck: &mut [u8; LONGEST_DECK],
        pool: &mut [i32; LONGEST_POOL],
        bytes: &[u8],
    ) {
        for b in bytes {
            if *b == b'\n' {
                self.end_line(deck, pool);
            } else {
                self.line.push(*b);
            }
        }
    }

    // Goes through the whole text, or as far as it can be read. A proved loop has to end, and nothing says that a text does: so it
    // counts its reads up to a number that no run comes to.
    fn read_all<C: Read>(
        &mut self,
        deck: &mut [u8; LONGEST_DECK],
        pool: &mut [i32; LONGEST_POOL],
        calls: &mut C,
    ) {
        let mut bytes = [0u8; AT_ONCE];
        for _ in 0..u64::MAX {
            match descriptors::read_some(calls, &mut bytes) {
                Ok(0) => break,
                Ok(n) => self.read(deck, pool, &bytes[..n]),
                Err(why) => {
                    self.out.tell(b"cannot read the calls", &why);
                    break;
                }
            }
        }
        self.end_line(deck, pool);
    }
}

// Reads a deck and goes through the calls that come from another reader.
pub fn replay<D: Read, C: Read, W: Write + Drop, E: Write + Drop>(
    deck: &mut D,
    calls: &mut C,
    to: W,
    err: E,
) {
    let mut bytes = [0u8; LONGEST_DECK];
    let mut pool = [0i32; LONGEST_POOL];
    let mut player = Player {
        host: Host::new(),
        line: Line::new(),
        out: Output::new(to, err),
    };
    if let Err(why) = player.host.read_deck(&mut bytes, deck) {
        player.out.tell(b"cannot read the deck", &why);
        return;
    }
    player.read_all(&mut bytes, &mut pool, calls);
    player.host.print(&pool, &mut player.out);
    player.out.flush();
}
