//! Letters, permutations of them, and words: what the automata above are written in.
//!
//! The letters of an alphabet are the numbers from 1 up to its size, as in the literature on
//! automata groups and in the GAP package FR. A contract sees an [`Alphabet`] as its number of
//! letters, a [`Perm`] as the list of the images of 1, 2, .., and a [`Word`] as the list of its
//! letters.
#![tactic(auto)]

mod alphabet;
mod cycles;
mod memory;
mod perm;
mod rank;
#[cfg(test)]
mod tests;
mod word;

pub use alphabet::Alphabet;
pub use memory::NoMemory;
pub use perm::Perm;
pub use word::{WORD_LIMIT, Word, WordFault, print_word};
