//! How the activity of an element grows: the class of a minimal machine with a certificate, and its text.
//!
//! [`class`] first looks for two short words of one length that lead from the first row back to it: where that row moves
//! some word, they make the growth exponential. Without them it finds the strongly connected components of the rows. A row
//! that moves some word and stays in its component at two letters makes the growth exponential. Else each component is one
//! cycle or one row, and the degree is one less than the most cycles of rows that move some word that lie on one way. The
//! contract says nothing of components: it speaks of sections, words and how many words of each length are active.
#![tactic(auto)]

mod bits;
mod chaining;
mod classing;
mod distances;
mod edges;
mod growth_class;
mod knots;
mod layers;
mod least;
mod leveling;
mod marking;
mod printing;
mod rows;
#[cfg(test)]
mod tests;

pub use classing::class;
pub use growth_class::{Class, Link};
pub use printing::print_class;
