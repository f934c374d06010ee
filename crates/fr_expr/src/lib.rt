//! The evaluation of expressions over any store of elements.
#![tactic(auto)]

mod env;
#[cfg(test)]
mod env_tests;
mod expression;
mod fault;
mod power;
mod steps;
#[cfg(test)]
mod tests;

pub use env::{Binding, Env};
pub use expression::eval;
pub use fault::EvalFault;
pub use steps::{enter, multiply};
