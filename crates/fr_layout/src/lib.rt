//! Where the words of the shared table lie, and what they mean.
//!
//! The table has one word for the number of claimed rows, the fields of all rows, a link for each
//! row, a hash table of cells, and a cache of products. A block of rows is an automaton, and each of
//! its rows the element that it acts as. A cell or a link holds a pack, which names a row of a
//! block. The cells of a row are looked through from its home on, which its code gives.
//!
//! The functions compute places and packs; those of [`laws`] compute nothing, and the contract of
//! each is a law that holds of the definitions.
#![tactic(auto)]

pub mod laws;
mod packs;
mod plan;
mod rows;
#[cfg(test)]
mod tests;

pub use packs::{pair_place, product_rows, product_word};
pub use plan::{Block, Plan};
pub use rows::{field_value, row_of_fields};
