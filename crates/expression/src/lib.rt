// Expressions: their operators, and the numbers that bytes make. The definitions are in specs/; evaluator, type check and the search for
// a fault are in the crates `expression_values`, `expression_types` and `expression_faults`.
#![tactic(auto)]

ghost use Rattle.std.specs.Prelude.{◌≡◌, get_or};
ghost use Rattle.expression.specs.Reading.{num_op, truth_op, word, signed};

// What two numbers make a number.
#[derive(Clone, Copy, Debug, PartialEq, Eq)]
pub enum Arith {
    Sum,
    Difference,
    Product,
}

// What two truths make a truth.
#[derive(Clone, Copy, Debug, PartialEq, Eq)]
pub enum Join {
    And,
    Or,
}

// What two numbers make a truth.
#[derive(Clone, Copy, Debug, PartialEq, Eq)]
pub enum Compare {
    Less,
    Equal,
}

// The operators of numbers. `Unknown` is one of them, and not a `None` around them: specs/Reading.antt and specs/Faults.antt say by one
// match what each byte comes to.
#[derive(Clone, Copy, Debug, PartialEq, Eq)]
pub enum NumOp {
    Literal,
    Own,
    Far,
    Two(Arith),
    Negation,
    Unknown,
}

// The operators of truths, and `Unknown` for the same reason.
#[derive(Clone, Copy, Debug, PartialEq, Eq)]
pub enum TruthOp {
    Constant(bool),
    Not,
    Both(Join),
    Two(Compare),
    Unknown,
}

// Bytes that stand for no operator are `Unknown`.
pub fn num_op(b: u8) -> NumOp
    ensures { result ≡ num_op b }
{
    match b {
        0 => NumOp::Literal,
        1 => NumOp::Own,
        2 => NumOp::Far,
        3 => NumOp::Two(Arith::Sum),
        4 => NumOp::Two(Arith::Difference),
        5 => NumOp::Two(Arith::Product),
        6 => NumOp::Negation,
        _ => NumOp::Unknown,
    }
}

pub fn truth_op(b: u8) -> TruthOp
    ensures { result ≡ truth_op b }
{
    match b {
        16 => TruthOp::Constant(false),
        17 => TruthOp::Constant(true),
        18 => TruthOp::Not,
        19 => TruthOp::Both(Join::And),
        20 => TruthOp::Both(Join::Or),
        21 => TruthOp::Two(Compare::Less),
        22 => TruthOp::Two(Compare::Equal),
        _ => TruthOp::Unknown,
    }
}

// The signed number of four bytes, low byte first.
pub fn value_of(bytes: [u8; 4]) -> i32
    ensures { result ≡ signed (word (get_or bytes 0 0) (get_or bytes 1 0) (get_or bytes 2 0) (get_or bytes 3 0)) }
{
    i32::from_le_bytes(bytes)
}
