// Why a reading or a call declines. specs/Numbers.antt has the numbers for the definitions, and specs/Declined.antt says what the types
// stand for.
#![tactic(auto)]

ghost use Rattle.std.specs.Prelude.{◌≡◌};
ghost use Rattle.refusals.specs.Declined.{number_of, unplaced};

// The refusals, each with its number.
#[derive(Clone, Copy, Debug, PartialEq, Eq)]
pub enum Refusal {
    DeckEnds = 1,
    OutOfRange = 2,
    UnknownByte = 3,
    RepeatedTarget = 4,
    BytesFollow = 5,
    OpensOutside = 6,
    CyclicGraph = 7,
    Overcharged = 8,
    BadPool = 9,
    BadState = 10,
    UnknownPart = 11,
    BadInput = 12,
    OverCapacity = 13,
    PlaceNotPending = 14,
    UnknownSection = 15,
    BudgetTooLarge = 16,
    InputOutside = 17,
    WrongType = 18,
    WrongEnd = 19,
    DefaultRetired = 20,
    TooManyRules = 21,
    BufferTooShort = 22,
}

impl Refusal {
    pub fn number(self) -> u32
        ensures { result ≡ number_of self }
    {
        self as u32
    }

    // Why a call declines that names no place: 0 stands for it.
    pub fn unplaced(self) -> Declined
        ensures { result ≡ unplaced self }
    {
        Declined {
            refusal: self,
            place: 0,
        }
    }
}

// The first fault of bytes that are read, and where it stands among them.
#[derive(Clone, Copy, Debug, PartialEq, Eq)]
pub struct Fault {
    pub refusal: Refusal,
    pub place: usize,
}

// Why a call declines, and the place that it names.
#[derive(Clone, Copy, Debug, PartialEq, Eq)]
pub struct Declined {
    pub refusal: Refusal,
    pub place: u32,
}
