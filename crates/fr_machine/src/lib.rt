//! Invertible Mealy machines: how their rows act on words, and walks that number what they meet.
#![tactic(auto)]

mod fixed;
mod machine;
mod minimal;
mod row;
#[cfg(test)]
mod tests;
mod walk;

pub use fixed::FixedWalk;
pub use machine::Machine;
pub use minimal::{Minimal, STATE_LIMIT};
pub use row::Row;
pub use walk::Walk;
