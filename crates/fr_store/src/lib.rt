//! Stores of elements: each element that a store knows has one handle, and so have its sections.
#![tactic(auto)]

mod blocks;
mod counted;
mod handle;
mod index;
mod inverses;
mod products;
mod store;
#[cfg(test)]
mod tests;
mod vec_store;

pub use counted::Counted;
pub use handle::{Full, Handle};
pub use store::Store;
pub use vec_store::VecStore;
