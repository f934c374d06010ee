//! The elements of the names of a block of wreath recursions, whose sections are products of names and inverses of names.
//!
//! The functional recursions of the GAP package FR are of this form. A name stands for the machine whose rows are its
//! section words: the sections of the name, each written as a product and freely reduced.
#![tactic(auto)]

mod block;
mod closure;
mod elements;
mod products;
#[cfg(test)]
mod tests;
mod words;

pub use block::{Block, Factor, Wreath};
pub use elements::{Elements, NameFault};
