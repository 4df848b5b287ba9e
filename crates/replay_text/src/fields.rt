// The words of a text of calls, and the numbers behind them.

use crate::lines::Unreadable;

// What a line begins with.
#[derive(Clone, Copy, Debug, PartialEq, Eq)]
pub enum Word {
    Start,
    Input,
    Commit,
    Settle,
    Section,
    Convert,
    Value,
    Pool,
    Pending,
}

impl TryFrom<&[u8]> for Word {
    type Error = Unreadable;

    fn try_from(text: &[u8]) -> Result<Word, Unreadable> {
        match text {
            b"start" => Ok(Word::Start),
            b"input" => Ok(Word::Input),
            b"commit" => Ok(Word::Commit),
            b"settle" => Ok(Word::Settle),
            b"section" => Ok(Word::Section),
            b"convert" => Ok(Word::Convert),
            b"value" => Ok(Word::Value),
            b"pool" => Ok(Word::Pool),
            b"pending" => Ok(Word::Pending),
            _ => Err(Unreadable),
        }
    }
}

// A number as far as it is read: whether it has a minus sign, and what its digits say.
#[derive(Clone, Copy, Debug, Default)]
pub struct Field {
    minus: bool,
    digits: Option<u64>,
}

impl Field {
    // The field with one byte more: a digit, or a minus sign at the front. A number beyond 64 bits stays the largest of them.
    pub fn with_byte(self, b: u8) -> Result<Field, Unreadable> {
        match b {
            b'0'..=b'9' => {
                let digits = self.digits.unwrap_or(0);
                let more = digits
                    .saturating_mul(10)
                    .saturating_add(u64::from(b - b'0'));
                Ok(Field {
                    digits: Some(more),
                    ..self
                })
            }
            b'-' if !self.minus && self.digits.is_none() => Ok(Field {
                minus: true,
                ..self
            }),
            _ => Err(Unreadable),
        }
    }

    // The whole number below 2^32 that it is.
    pub fn natural(self) -> Result<u32, Unreadable> {
        match self.digits {
            Some(n) if !self.minus => u32::try_from(n).map_err(|_| Unreadable),
            _ => Err(Unreadable),
        }
    }

    // The signed number of 32 bits that it is.
    pub fn signed(self) -> Result<i32, Unreadable> {
        let n = self.digits.ok_or(Unreadable)?;
        let n = i64::try_from(n).map_err(|_| Unreadable)?;
        i32::try_from(if self.minus { -n } else { n }).map_err(|_| Unreadable)
    }
}
