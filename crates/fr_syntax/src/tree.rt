//! Expressions as trees: products of powers, conjugates and sections of named elements.

use crate::name::Name;
use fr_alphabet::Word;
use sqlite_items::{Boxed, Items};

/// A product of factors, from left to right. It has at least one.
#[cycle(tree)]
#[derive(Drop)]
pub struct Expr {
    pub factors: Items<Factor>,
}

/// An atom and the operations after it, which apply from left to right.
#[cycle(tree)]
#[derive(Drop)]
pub struct Factor {
    pub atom: Atom,
    pub ops: Items<Op>,
}

/// What an expression is made of.
#[cycle(tree)]
#[derive(Drop)]
pub enum Atom {
    /// The identity.
    One,
    /// A name.
    Named(Name),
    /// An expression in brackets.
    Paren(Expr),
    /// The commutator of two elements.
    Comm(Boxed<Expr>, Boxed<Expr>),
}

/// An operation after an atom.
#[cycle(tree)]
#[derive(Drop)]
pub enum Op {
    /// The power with the exponent k of at most 1,000,000, or with -k.
    Power { negative: bool, k: u32 },
    /// The conjugate by an atom.
    Conj(Atom),
    /// The section at a word.
    At(Word),
}
