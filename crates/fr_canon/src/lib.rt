//! Canonical numberings of elements, their codes, and the texts of their machines.
//!
//! The states of an element are its sections. They are numbered in the order in which a breadth-first walk from it, with
//! letters in order, meets them, as a minimal automaton is put into a standard form. Two elements act alike exactly where
//! their codes, or the texts of their machines, are equal. A contract sees a [`Code`] as the list of its numbers.
#![tactic(auto)]

mod canonical;
mod code;
mod cycles;
mod fault;
mod laws;
mod lines;
mod printing;
mod reading;
mod rows;
#[cfg(test)]
mod tests;

pub use canonical::{Scratch, alike, canon, canon_rows, canonical_machine, count_states, has_code};
pub use code::{Code, home};
pub use fault::ReadFault;
pub use laws::states_have_codes;
pub use printing::print_machine;
pub use reading::read_machine;
pub use rows::rows_of_code;
