// The lines that `replay` prints.
ghost use Rattle.std.specs.Prelude.{◌≡◌, Some};
ghost use Rattle.std.specs.Fmt.InlineText.{inline_text};
ghost use Rattle.std.specs.Fmt.Cut.{IsTextOrCut};
ghost use Rattle.replay_text.specs.Answers.{text_of, line_of, refusal_of};

use refusals::Declined;
use std::fmt;
use std::fmt::InlineText;

// Room for any line: the longest has 30 bytes.
pub const LINE: usize = 64;

// What one line says.
#[derive(Clone, Copy, Debug, PartialEq, Eq)]
pub enum Answer {
    Unreadable,
    Started,
    Added(u32),
    Applied(u32),
    Discarded(u32),
    Settled(u32),
    Spent(u32),
    Section { from: u32, to: u32 },
    Converted(u32),
    Refused { number: u32, place: u32 },
    Buffer { index: u32, byte: u8 },
    Pending(u32),
    Value { index: u32, value: i32 },
    Pool { index: u32, value: i32 },
}

impl fmt::Display for Answer {
    ghost output = { λ a. Some (text_of a) };

    fn fmt<W: fmt::Write>(&self, f: &mut fmt::Formatter<W>) -> fmt::Result {
        match self {
            Answer::Unreadable => write!(f, "unreadable"),
            Answer::Started => write!(f, "started"),
            Answer::Added(charge) => write!(f, "added {charge}"),
            Answer::Applied(charge) => write!(f, "applied {charge}"),
            Answer::Discarded(charge) => write!(f, "discarded {charge}"),
            Answer::Settled(commits) => write!(f, "settled {commits}"),
            Answer::Spent(commits) => write!(f, "spent {commits}"),
            Answer::Section { from, to } => write!(f, "section {from} {to}"),
            Answer::Converted(length) => write!(f, "converted {length}"),
            Answer::Refused { number, place } => write!(f, "refused {number} {place}"),
            Answer::Buffer { index, byte } => write!(f, "buffer {index} {byte}"),
            Answer::Pending(pending) => write!(f, "pending {pending}"),
            Answer::Value { index, value } => write!(f, "value {index} {value}"),
            Answer::Pool { index, value } => write!(f, "pool {index} {value}"),
        }
    }
}

// An answer as a line, with its newline.
#[derive(Clone, Copy)]
struct Printed {
    answer: Answer,
}

impl fmt::Display for Printed {
    ghost output = { λ p. Some (line_of p.answer) };

    fn fmt<W: fmt::Write>(&self, f: &mut fmt::Formatter<W>) -> fmt::Result {
        let answer = self.answer;
        writeln!(f, "{answer}")
    }
}

impl Answer {
    // The line that it is printed as, in one piece and without an allocation: a write that fails loses whole lines.
    pub fn line(self) -> InlineText<LINE>
        ensures { IsTextOrCut LINE (line_of self) (inline_text result) }
    {
        InlineText::of(Printed { answer: self })
    }
}

impl From<Declined> for Answer {
    ghost from_gives = { λ why a. a ≡ refusal_of why };

    fn from(why: Declined) -> Answer {
        Answer::Refused {
            number: why.refusal.number(),
            place: why.place,
        }
    }
}
