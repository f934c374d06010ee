//! Scripts: their items by the grammar, each with what it says or with its fault.
//!
//! The language is this project's own. A script is cut into lines. A block of recursions is one
//! item, each other line that is not blank is one too, and an item that is refused keeps its place.
#![tactic(auto)]

mod fault;
mod inner;
mod item;
mod kept;
mod laws;
mod line_reader;
mod outcome;
mod permutation;
mod print;
mod script;
#[cfg(test)]
mod tests;

pub use fault::{Fault, LineFault};
pub use fr_syntax::{Atom, Expr, Factor, Name, Op, Ray, Recursion, SecName, SecWord, Statement};
pub use item::{Body, Item};
pub use kept::{Kept, Told, may_wait};
pub use laws::{
    disjoint_cycles_are_their_product, pushes_are_unique, scripts_are_read_by_lines,
    scripts_are_unique, scripts_exist, scripts_fit,
};
pub use line_reader::{LineReader, ScriptFault};
pub use print::print_fault;
pub use script::{Cut, Script, cut_line, read_script};
