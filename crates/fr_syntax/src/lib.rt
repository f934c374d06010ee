//! One line of a script: its tokens, the grammar, and readers that follow the grammar exactly.
//!
//! The grammar is this project's own. Its notions are those of self-similar groups: recursions,
//! sections and permutations, as in Nekrashevych, "Self-Similar Groups", chapter 1. A grammar is
//! given by its trees and their tokens, and each reader is proved to find the tree of the tokens,
//! or the place where they stop to begin any.
#![tactic(auto)]

mod cycles;
mod follow;
mod keyword;
mod laws;
mod lexer;
mod line;
mod lists;
mod name;
mod nesting;
mod notes;
mod numbers;
mod places;
mod reader;
mod recursion;
mod sections;
mod statement;
#[cfg(test)]
mod tests;
mod token;
mod tree;
mod unfinished;

pub use keyword::Keyword;
pub use laws::{lines_are_small, lines_are_unambiguous, lines_fit, recursions_are_unambiguous};
pub use lexer::{LineFront, code, length_before, line_front, tokens};
pub use line::{Line, LineReading, ReadLine, read_tokens};
pub use name::Name;
pub use nesting::{NESTING_LIMIT, passes_nesting};
pub use notes::Notes;
pub use numbers::POWER_LIMIT;
pub use places::{bad_place, place_of};
pub use recursion::{RecursionLine, RecursionReading, read_recursion};
pub use statement::{Ray, Recursion, SecName, SecWord, Statement};
pub use token::{Mark, Placed, Token};
pub use tree::{Atom, Expr, Factor, Op};
