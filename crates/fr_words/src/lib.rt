//! The words of the shared table, and the hands that step on them.
//!
//! Any number of threads read and write one table of atomic words at once: the number of claimed
//! rows, the rows, a link for each row, a hash table of rows, and a cache of products. A [`Hand`] is
//! the right to step on it, and each call of a hand is one atomic step: a load, a store, a compare
//! and exchange, or a swap of one word. No call waits for another thread, and no call but
//! [`Words::new`] allocates anything.
//!
//! A rule says what the words mean, whatever the threads do: a row that stands in a cell is one of a
//! finished block, and no two cells hold rows that act alike. So at every moment two handles are
//! equal exactly if their elements act alike. Each step keeps the rule. In proofs a hand has a
//! [`Note`] of what it met and did; what a step asks is said of that note alone.
#![tactic(auto)]

mod hand;
pub mod laws;
mod notes;
mod plays;
#[cfg(test)]
mod tests;
mod words;

pub use hand::Hand;
pub use notes::{Claim, Fact, Gap, Note, Ruled};
pub use words::Words;
