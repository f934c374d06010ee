//! The smallest machine of an element, and the least word that tells two elements apart.
//!
//! An element is a row of a machine, up to acting alike. Its smallest machine has a row for each of its sections
//! (Grigorchuk, Nekrashevych and Sushchanskii, Automata, dynamical systems, and groups).
#![tactic(auto)]

mod groups;
mod met;
mod reached;
mod search;
mod separation;
mod smallest;
#[cfg(test)]
mod tests;

pub use separation::separate;
pub use smallest::{MinFault, minimize, minimize_with};
