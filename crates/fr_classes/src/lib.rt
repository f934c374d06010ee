//! Which rows of a machine act alike.
#![tactic(auto)]

mod choices;
mod growing;
mod hashes;
mod key_table;
mod members;
mod numbering;
mod partition;
mod predecessors;
mod signature;
mod sparse;
#[cfg(test)]
mod tests;

pub use choices::choice;
pub use growing::GrowingClasses;
pub use partition::{classes, classes_within};
