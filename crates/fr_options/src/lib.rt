//! The words of a command line: options whose values are numbers.
#![tactic(auto)]

mod number;
mod options;
#[cfg(test)]
mod tests;

pub use number::read_number;
pub use options::{Options, WordsFault, read_words};
