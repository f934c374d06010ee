//! Sessions: items are fed to a store and the names that are bound over it, one after the other.
#![tactic(auto)]

mod fault;
mod laws;
mod session;
mod statement;
#[cfg(test)]
mod tests;

pub use fault::SessionFault;
pub use laws::handles_count_held;
pub use session::{Reply, Session};
