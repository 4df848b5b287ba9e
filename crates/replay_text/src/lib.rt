// The text of calls that `replay` goes through, and the lines that it prints.
#![tactic(auto)]

pub mod answers;
mod fields;
pub mod kept;
pub mod lines;
#[cfg(test)]
mod tests;
