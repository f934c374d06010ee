//! The evaluation of statements over any store of elements.
#![tactic(auto)]

mod answers;
mod block;
mod definitions;
mod differences;
mod ends;
mod entering;
mod finish;
mod images;
mod names;
mod nucleus;
mod order;
mod rows;
#[cfg(test)]
mod tests;
mod texts;
mod transitions;

pub use answers::ask;
pub use definitions::define;
pub use ends::{LineEnd, Stop};
