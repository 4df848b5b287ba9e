// The memory that a host holds and lends, and what a line does to it.
ghost use Rattle.std.specs.Prelude.{◌≡◌, ◌≤◌, length};
ghost use Rattle.conversion.specs.Fits.{Fits};

use crate::output::Output;
use calls::{Answered, CommitAnswer, SettleAnswer};
use deck::Deck;
use pool::State;
use refusals::Declined;
use replay_text::answers::Answer;
use replay_text::lines::Command;
use std::io;
use std::io::{Read, Write};

// The longest deck that is read. One byte more than the longest old deck already shows the fault, and there is room for more.
pub const LONGEST_DECK: usize = 50_000;

// The longest pool that a line may lend.
pub const LONGEST_POOL: usize = 700_000;

// What every number of a pool is before a start.
const LENT: i32 = 7;

// The longest buffer that a line may lend.
const LONGEST_BUFFER: usize = 50_000;

// What every byte of a buffer is before a conversion.
const LENT_BYTE: u8 = 7;

// How many bytes the deck has, and how many numbers the pool: never more than there is room for.
#[derive(Drop)]
struct DeckLen {
    count: usize,
    ghost fits: { count ≤ 50000 },
}

#[derive(Drop)]
struct PoolLen {
    count: usize,
    ghost fits: { count ≤ 700000 },
}

// What a host holds besides the bytes and numbers that it lends: these stand in two arrays, of which the first are the deck and the pool.
// Nothing of it is allocated, so that no run is ever out of memory.
#[derive(Drop)]
pub struct Host {
    deck_len: DeckLen,
    pool_len: PoolLen,
    state: State,
}

// Writes into memory, to try damaged memory.
fn set(numbers: &mut [i32], index: u32, value: i32) -> Option<Answer> {
    let Some(number) = numbers.get_mut(index as usize) else {
        return Some(Answer::Unreadable);
    };
    *number = value;
    None
}

// Prints each number that is not 0.
fn print_numbers<F: Fn(u32, i32) -> Answer, W: Write + Drop, E: Write + Drop>(
    numbers: &[i32],
    entry: &F,
    out: &mut Output<W, E>,
)
    requires { F.IsAlwaysCallable entry.now }
{
    for (index, value) in (0u32..).zip(numbers) {
        if *value != 0 {
            out.print(entry(index, *value));
        }
    }
}

// Prints each byte from one place up to another that is not as it was lent.
fn print_changed<W: Write + Drop, E: Write + Drop>(
    buffer: &[u8; LONGEST_BUFFER],
    from: usize,
    end: usize,
    out: &mut Output<W, E>,
)
    requires { end ≤ LONGEST_BUFFER }
{
    for index in from..end {
        let byte = buffer[index];
        if byte != LENT_BYTE {
            let index = index as u32;
            out.print(Answer::Buffer { index, byte });
        }
    }
}

// How many bytes a section has, or the answer that there is none. The two lent numbers are the published call's.
fn section_len(deck: &[u8], number: u32) -> Result<u32, Answer> {
    let (mut refusal, mut place) = (0, 0);
    let section = engine::section(deck, number, &mut refusal, &mut place);
    if refusal != 0 {
        return Err(Answer::Refused {
            number: refusal,
            place,
        });
    }
    // A deck has fewer than 2^32 bytes.
    Ok(u32::try_from(section.len()).unwrap_or(u32::MAX))
}

// The sections follow each other from the deck's first byte on, so one begins where those in front of it end.
fn section(deck: &[u8], number: u32) -> Result<Answer, Answer> {
    let length = section_len(deck, number)?;
    let mut from = 0u32;
    for earlier in 0..number {
        from = from.saturating_add(section_len(deck, earlier)?);
    }
    Ok(Answer::Section {
        from,
        to: from.saturating_add(length),
    })
}

fn convert_into(deck: &[u8], buffer: &mut [u8]) -> Result<u32, Declined>
    ensures { Fits result (length buffer.old) }
{
    engine::convert(deck, buffer)
}

impl Host {
    // Before the first start the state is zeros and the pool has length 0.
    pub fn new() -> Host {
        Host {
            deck_len: DeckLen { count: 0 },
            pool_len: PoolLen { count: 0 },
            state: State {
                values: [0; Deck::VALUES],
                pending: 0,
            },
        }
    }

    pub fn read_deck<D: Read>(
        &mut self,
        deck: &mut [u8; LONGEST_DECK],
        from: &mut D,
    ) -> io::Result<()> {
        let count = descriptors::read_all(from, deck)?;
        self.deck_len = DeckLen { count };
        Ok(())
    }

    // Keeps the state that a call hands back.
    fn keep<T: Drop>(&mut self, called: Answered<T>) -> Result<T, Declined>
        ensures { self.new.pool_len ≡ self.old.pool_len }
    {
        self.state = called.state;
        called.answer
    }

    // Lends a new pool.
    fn start(&mut self, deck: &[u8], pool: &mut [i32; LONGEST_POOL], length: u32) -> Answer {
        let count = length as usize;
        if count > LONGEST_POOL {
            return Answer::Unreadable;
        }
        self.pool_len = PoolLen { count };
        let lent = &mut pool[..count];
        lent.fill(LENT);
        let called = engine::start(deck, lent);
        match self.keep(called) {
            Ok(()) => Answer::Started,
            Err(why) => Answer::from(why),
        }
    }

    fn input(
        &mut self,
        deck: &[u8],
        pool: &mut [i32],
        part: u32,
        numbers: &[i32],
    ) -> Result<Answer, Declined>
        ensures { self.new.pool_len ≡ self.old.pool_len }
    {
        let called = engine::input(deck, pool, self.state, part, numbers);
        Ok(Answer::Added(self.keep(called)?))
    }

    fn commit(&mut self, deck: &[u8], pool: &mut [i32], place: u32) -> Result<Answer, Declined>
        ensures { self.new.pool_len ≡ self.old.pool_len }
    {
        let called = engine::commit(deck, pool, self.state, place);
        Ok(match self.keep(called)? {
            CommitAnswer::Applied(charge) => Answer::Applied(charge),
            CommitAnswer::Discarded(charge) => Answer::Discarded(charge),
        })
    }

    fn settle(&mut self, deck: &[u8], pool: &mut [i32], budget: u32) -> Result<Answer, Declined>
        ensures { self.new.pool_len ≡ self.old.pool_len }
    {
        let called = engine::settle(deck, pool, self.state, budget);
        Ok(match self.keep(called)? {
            SettleAnswer::Settled(commits) => Answer::Settled(commits),
            SettleAnswer::Spent(commits) => Answer::Spent(commits),
        })
    }

    fn set_pending(&mut self, pending: u32) -> Option<Answer> {
        self.state.pending = pending;
        None
    }

    // Lends the deck and a new buffer; what the converter makes is the deck from then on. Behind the answer comes each byte that
    // should be as it was lent and is not.
    fn convert<W: Write + Drop, E: Write + Drop>(
        &mut self,
        deck: &mut [u8; LONGEST_DECK],
        length: u32,
        out: &mut Output<W, E>,
    ) {
        let length = length as usize;
        if length > LONGEST_BUFFER {
            return out.print(Answer::Unreadable);
        }
        let mut buffer = [LENT_BYTE; LONGEST_BUFFER];
        let made = convert_into(&deck[..self.deck_len.count], &mut buffer[..length]);
        out.print(made.map_or_else(Answer::from, Answer::Converted));
        let written = made.unwrap_or(0) as usize;
        print_changed(&buffer, written, length, out);
        if made.is_ok() {
            deck[..written].copy_from_slice(&buffer[..written]);
            self.deck_len = DeckLen { count: written };
        }
    }

    // Does what a line asks for that leaves the deck as it is. What it answers, where it answers.
    fn called(
        &mut self,
        deck: &[u8],
        pool: &mut [i32; LONGEST_POOL],
        command: Command,
    ) -> Option<Answer> {
        if let Command::Start(length) = command {
            return Some(self.start(deck, pool, length));
        }
        let lent = &mut pool[..self.pool_len.count];
        match command {
            Command::Input { part, numbers } => Some(
                self.input(deck, lent, part, numbers.as_slice())
                    .unwrap_or_else(Answer::from),
            ),
            Command::Commit(place) => Some(
                self.commit(deck, lent, place).unwrap_or_else(Answer::from),
            ),
            Command::Settle(budget) => Some(
                self.settle(deck, lent, budget).unwrap_or_else(Answer::from),
            ),
            Command::Section(number) => Some(section(deck, number).unwrap_or_else(
                |refused| refused,
            )),
            Command::Value { index, value } => set(&mut self.state.values, index, value),
            Command::Pool { index, value } => set(lent, index, value),
            Command::Pending(pending) => self.set_pending(pending),
            Command::Start(_) | Command::Convert(_) => None,
        }
    }

    // Does what a line asks for, and prints what it answers.
    pub fn perform<W: Write + Drop, E: Write + Drop>(
        &mut self,
        deck: &mut [u8; LONGEST_DECK],
        pool: &mut [i32; LONGEST_POOL],
        command: Command,
        out: &mut Output<W, E>,
    ) {
        if let Command::Convert(length) = command {
            return self.convert(deck, length, out);
        }
        if let Some(answer) = self.called(&deck[..self.deck_len.count], pool, command) {
            out.print(answer);
        }
    }

    // Prints what is left in memory: what is pending, and each number that is not 0.
    pub fn print<W: Write + Drop, E: Write + Drop>(
        &self,
        pool: &[i32; LONGEST_POOL],
        out: &mut Output<W, E>,
    ) {
        out.print(Answer::Pending(self.state.pending));
        print_numbers(
            &self.state.values,
            &|index, value| Answer::Value { index, value },
            out,
        );
        print_numbers(
            &pool[..self.pool_len.count],
            &|index, value| Answer::Pool { index, value },
            out,
        );
    }
}
