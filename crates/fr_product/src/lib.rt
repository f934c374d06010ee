//! The product of two elements, and the rows of a machine that are reached from cycles.
//!
//! An element is a row of a machine, up to acting alike. The rows of a product are pairs of rows of the factors
//! (Grigorchuk, Nekrashevych and Sushchanskii, Automata, dynamical systems, and groups).
#![tactic(auto)]

mod growing;
mod limits;
mod pairs;
#[cfg(test)]
mod tests;

pub use growing::GrowingLimits;
pub use limits::limit_rows;
pub use pairs::{PAIR_LIMIT, ProductFault, product};
