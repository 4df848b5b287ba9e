// The definitions of the tests of a deck, in specs/, with the struct that they name and the lengths of the tables that a call lends.
// The crate `passing_tests` computes the tests.
#![tactic(auto)]

use deck::Deck;

// The numbers of a table of rules and of a memo of charges, for decks of few rules and for the others, and of a table of parts. They
// begin as zeros in each call. A table of rules has a row for each channel as well.
pub const SHORT_RULE_TABLE: usize = Deck::CHANNELS * Deck::RULE_ROW;

pub const RULE_TABLE: usize = Deck::RULES * Deck::RULE_ROW;

pub const SHORT_MEMO: usize = Deck::FEW_RULES * Deck::PARTS;

pub const MEMO: usize = Deck::RULES * Deck::PARTS;

pub const PART_TABLE: usize = Deck::PARTS * Deck::PART_ROW;

// A deck that passes, with the largest charge of its carried rules. Another one is declined, with 1 to 8 or 18 to 20.
#[derive(Clone, Copy)]
pub struct Passing {
    pub counts: Deck,
    pub charge: u32,
}
