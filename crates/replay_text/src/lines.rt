// The text of calls that `replay` reads. A line is a word and its fields, one space between them. The first field is a whole
// number below 2^32, each further one a signed number of 32 bits. It is read byte by byte, so it may be as long as it likes.
ghost use Rattle.std.specs.Prelude.{◌≡◌, ◌↔◌, Ok, None, IsErr};
ghost use Rattle.replay_text.specs.Lines.{IsEmpty, IsBroken};

use crate::fields::{Field, Word};
use crate::kept::Kept;

// How many numbers behind the first are kept. An input takes 64: of a longer list no call looks at more than that it is longer.
pub const KEPT: usize = 128;

// One letter more than the longest word has. Words of so many letters are all the same to us.
const LETTERS: usize = 8;

// What a line is that is none of those that docs/FORMAT.md names.
#[derive(Clone, Copy, Debug, PartialEq, Eq)]
pub struct Unreadable;

// What a line asks for.
#[derive(Clone, Copy)]
pub enum Command {
    Start(u32),
    Input { part: u32, numbers: Kept<i32, KEPT> },
    Commit(u32),
    Settle(u32),
    Section(u32),
    Convert(u32),
    Value { index: u32, value: i32 },
    Pool { index: u32, value: i32 },
    Pending(u32),
}

// The fields of a line as far as they are read.
#[derive(Clone, Copy)]
pub struct Fields {
    word: Word,
    // The first field and the kept ones behind it, each once it has ended.
    first: Option<u32>,
    numbers: Kept<i32, KEPT>,
    // The field that goes on.
    field: Field,
}

impl Fields {
    fn new(word: Word) -> Fields {
        Fields {
            word,
            first: None,
            numbers: Kept::new(0),
            field: Field::default(),
        }
    }

    // The field that goes on has ended.
    fn end_field(&mut self) -> Result<(), Unreadable> {
        if self.first.is_none() {
            self.first = Some(self.field.natural()?);
        } else {
            let number = self.field.signed()?;
            self.numbers.push(number);
        }
        self.field = Field::default();
        Ok(())
    }

    fn push(&mut self, b: u8) -> Result<(), Unreadable> {
        if b == b' ' {
            return self.end_field();
        }
        self.field = self.field.with_byte(b)?;
        Ok(())
    }

    fn command(mut self) -> Result<Command, Unreadable> {
        self.end_field()?;
        let first = self.first.ok_or(Unreadable)?;
        if self.word == Word::Input {
            return Ok(Command::Input {
                part: first,
                numbers: self.numbers,
            });
        }
        match self.numbers.as_slice() {
            [] => one_field(self.word, first),
            [second] => two_fields(self.word, first, *second),
            _ => Err(Unreadable),
        }
    }
}

// A line with one field.
fn one_field(word: Word, n: u32) -> Result<Command, Unreadable> {
    match word {
        Word::Start => Ok(Command::Start(n)),
        Word::Commit => Ok(Command::Commit(n)),
        Word::Settle => Ok(Command::Settle(n)),
        Word::Section => Ok(Command::Section(n)),
        Word::Convert => Ok(Command::Convert(n)),
        Word::Pending => Ok(Command::Pending(n)),
        _ => Err(Unreadable),
    }
}

// A line with two fields.
fn two_fields(word: Word, index: u32, value: i32) -> Result<Command, Unreadable> {
    match word {
        Word::Value => Ok(Command::Value { index, value }),
        Word::Pool => Ok(Command::Pool { index, value }),
        _ => Err(Unreadable),
    }
}

// A line as far as it is read.
#[derive(Clone, Copy)]
pub enum Line {
    // The letters in front of the first space.
    Word(Kept<u8, LETTERS>),
    // What stands behind the first space.
    Fields(Fields),
    // No line, whatever follows.
    Unreadable,
}

impl Line {
    // Before the first byte.
    pub fn new() -> Line
        ensures { IsEmpty result }
    {
        Line::Word(Kept::new(0))
    }

    // Reads one byte more.
    pub fn push(&mut self, b: u8)
        ensures longer { IsEmpty self.new → ⊥ }
        ensures broken { IsBroken self.old → IsBroken self.new }
    {
        match self {
            Line::Word(letters) => {
                if b == b' ' {
                    *self = match Word::try_from(letters.as_slice()) {
                        Ok(word) => Line::Fields(Fields::new(word)),
                        Err(Unreadable) => Line::Unreadable,
                    };
                } else {
                    letters.push(b);
                }
            }
            Line::Fields(fields) => {
                if fields.push(b).is_err() {
                    *self = Line::Unreadable;
                }
            }
            Line::Unreadable => {}
        }
    }

    // What the line asks for, now that it has ended. An empty one asks for nothing.
    pub fn command(self) -> Result<Option<Command>, Unreadable>
        ensures empty { (result ≡ Ok None) ↔ IsEmpty self }
        ensures broken { IsBroken self → IsErr result }
    {
        match self {
            Line::Word(letters) if letters.is_empty() => Ok(None),
            Line::Fields(fields) => Ok(Some(fields.command()?)),
            _ => Err(Unreadable),
        }
    }
}
