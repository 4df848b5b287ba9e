// The deck's types, with the definitions of specs/. The associated constants of `Deck` are the largest numbers of document 01, "The
// deck", and the lengths that follow; the crate `deck_reading` reads a deck's bytes.
#![tactic(auto)]

ghost use Rattle.std.specs.Prelude.{◌≡◌};
ghost use Rattle.deck.specs.Limits.{limits};

// The two forms of a deck: rules of an old one may have default actions.
#[derive(Clone, Copy, Debug, PartialEq, Eq)]
pub enum Form {
    Old,
    New,
}

// The counts R, M and N of a deck, and the offsets of its second and third section's counts.
#[derive(Clone, Copy, Debug, PartialEq, Eq)]
pub struct Deck {
    pub channels: usize,
    pub rules: usize,
    pub parts: usize,
    pub rules_at: usize,
    pub parts_at: usize,
}

// What is kept of the first two sections of a deck.
#[derive(Clone, Copy, Debug, PartialEq, Eq)]
pub struct Front {
    pub channels: usize,
    pub rules: usize,
    pub rules_at: usize,
}

// What was read, and the place after it.
#[derive(Clone, Copy, Debug, PartialEq, Eq)]
pub struct Read<T> {
    pub value: T,
    pub next: usize,
}

// A deck that was read, as calls go through it: its bytes, its counts and offsets, and the tables of its rules and parts. It is handed
// on by a reference.
#[derive(Clone, Copy)]
pub struct Rig<'a> {
    pub deck: &'a [u8],
    pub counts: Deck,
    pub rules: &'a [u64],
    pub parts: &'a [u64],
}

// The largest numbers, as specs/Limits.antt has them for the definitions.
#[derive(Clone, Copy, Debug, PartialEq, Eq)]
pub struct Limits {
    pub channels: usize,
    pub rules: usize,
    pub parts: usize,
    pub events: usize,
    pub assignments: usize,
    pub expression: usize,
    pub values: usize,
    pub place: usize,
    pub deck: usize,
    pub old: usize,
    pub charge: usize,
    pub lowest: usize,
    pub highest: usize,
}

impl Deck {
    pub const CHANNELS: usize = 32;

    pub const RULES: usize = 64;

    pub const PARTS: usize = 16;

    // The events of a rule.
    pub const EVENTS: usize = 8;

    // The assignments of an action.
    pub const ASSIGNMENTS: usize = 4;

    // The bytes of an expression after its length byte.
    pub const EXPRESSION: usize = 64;

    // The numbers of a value table.
    pub const VALUES: usize = Deck::PARTS * Deck::CHANNELS;

    // The numbers of a place: part, count, and a pair for each assignment.
    pub const PLACE: usize = 2 + 2 * Deck::ASSIGNMENTS;

    // The bytes that a label may be.
    pub const LOWEST_LABEL: usize = 33;

    pub const HIGHEST_LABEL: usize = 126;

    // The largest charge of a carried rule, the most places of a pool and the largest budget of a settle.
    pub const CHARGE: usize = 65535;

    // The numbers of a rule's row in the table that the pass fills, and their columns: its events and the targets of its two actions
    // as sets, its kind, and where its default action, its condition and its action stand in the deck. The events are column 0. In
    // the last column row c has the rules that listen to channel c. Plain numbers, the kind too: a table begins as zeros, and laws of
    // tables are laws of lists.
    pub const RULE_ROW: usize = 8;

    pub const RULE_DEFAULT_TARGETS: usize = 1;

    pub const RULE_TARGETS: usize = 2;

    pub const RULE_KIND: usize = 3;

    pub const RULE_DEFAULT_AT: usize = 4;

    pub const RULE_CONDITION_AT: usize = 5;

    pub const RULE_ACTION_AT: usize = 6;

    pub const RULE_LISTENERS: usize = 7;

    // The same of a part: the rules that it carries, column 0, and where its opening values and its limit stand.
    pub const PART_ROW: usize = 4;

    pub const PART_OPENING_AT: usize = 1;

    pub const PART_LIMIT_AT: usize = 2;

    // The kind of a rule that goes to all other parts.
    pub const EVERYWHERE: u64 = 1;

    // Decks of at most 16 rules get short tables.
    pub const FEW_RULES: usize = 16;

    // The bytes of the longest action, rule, part and deck.
    pub const ACTION_BYTES: usize = 1 + Deck::ASSIGNMENTS * (2 + Deck::EXPRESSION);

    // A new deck's rule has one byte for its default action, the count 0.
    pub const NO_ACTION_BYTES: usize = 1;

    pub const RULE_BYTES: usize = 1
        + Deck::EVENTS
        + Deck::NO_ACTION_BYTES
        + 1
        + (1 + Deck::EXPRESSION)
        + Deck::ACTION_BYTES;

    pub const PART_BYTES: usize = 4 * Deck::CHANNELS + 1 + Deck::RULES + (1 + Deck::EXPRESSION);

    pub const BYTES: usize = 1
        + Deck::CHANNELS
        + 1
        + Deck::RULES * Deck::RULE_BYTES
        + 1
        + Deck::PARTS * Deck::PART_BYTES;

    // An old deck's rules have default actions.
    pub const OLD_BYTES: usize = Deck::BYTES
        + Deck::RULES * (Deck::ACTION_BYTES - Deck::NO_ACTION_BYTES);

    // The constants and the definitions agree.
    pub fn limits() -> Limits
        ensures { result ≡ limits }
    {
        Limits {
            channels: Deck::CHANNELS,
            rules: Deck::RULES,
            parts: Deck::PARTS,
            events: Deck::EVENTS,
            assignments: Deck::ASSIGNMENTS,
            expression: Deck::EXPRESSION,
            values: Deck::VALUES,
            place: Deck::PLACE,
            deck: Deck::BYTES,
            old: Deck::OLD_BYTES,
            charge: Deck::CHARGE,
            lowest: Deck::LOWEST_LABEL,
            highest: Deck::HIGHEST_LABEL,
        }
    }
}
