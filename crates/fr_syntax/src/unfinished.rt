//! What was read of an expression that is not whole: a zipper of the tree that it will be.

ghost use Rattle.std.specs.Prelude.{◌≡◌, ◌∷◌, [], ◌++◌, IfOk, OnOk};
ghost use Rattle.fr_syntax.specs.Values as values;
ghost use Rattle.fr_syntax.specs.Steps as spec;

use crate::lists::{exact, push};
use crate::tree::{Atom, Expr, Factor, Op};
use fr_alphabet::NoMemory;
use sqlite_items::Items;
use std::alloc::Global;

/// What may come next.
#[derive(Clone, Copy, Debug)]
pub enum Place {
    /// An atom, which begins a factor.
    Atom,
    /// What follows the `^` after the last factor: an atom, or the number or the `-` of a power.
    Power,
    /// The number of a negative power of the last factor.
    Negative,
    /// The word of a section of the last factor.
    Word,
    /// An operation on the last factor, a `*` or what follows the expression.
    After,
}

/// What a bracket holds before the expression that is read.
#[derive(Drop)]
pub enum Open {
    /// A `(`.
    Paren,
    /// A `[`.
    First,
    /// A `[`, an expression and its `,`.
    Second(Expr),
}

/// An open bracket, the factors before it, and the place of the atom that it will be.
#[derive(Drop)]
pub struct Frame {
    pub open: Open,
    pub factors: Items<Factor>,
    pub place: Place,
}

/// A factor without operations.
pub fn plain(alloc: Global, atom: Atom) -> Factor
    ensures { result ≡ values.plain atom }
{
    Factor {
        atom,
        ops: Items::new(alloc),
    }
}

/// A factor with one operation more.
fn with_op(alloc: Global, factor: Factor, op: Op) -> Result<Factor, NoMemory>
    ensures { IfOk result (λ f. f ≡ values.with_op factor op) }
{
    let Factor { atom, mut ops } = factor;
    push(alloc, &mut ops, op)?;
    Ok(Factor { atom, ops })
}

/// Adds an operation to the last factor.
pub fn add_op(alloc: Global, factors: &mut Items<Factor>, op: Op) -> Result<(), NoMemory>
    ensures { OnOk result (factors.new ≡ spec.add_op factors.old op) }
{
    if let Some(factor) = factors.pop() {
        factors.push(with_op(alloc, factor, op)?)?;
    }
    Ok(())
}

// A factor after which no operation comes.
fn closed(alloc: Global, factor: Factor) -> Result<Factor, NoMemory>
    ensures { IfOk result (λ f. f ≡ factor) }
{
    let Factor { atom, ops } = factor;
    let ops = exact(alloc, ops)?;
    Ok(Factor { atom, ops })
}

fn has_ops(factors: &Items<Factor>) -> bool {
    factors
        .as_slice()
        .last()
        .is_some_and(|last| last.ops.len() > 1)
}

/// Lets the last factor, after which no operation comes, take no more room than it needs.
pub fn close(alloc: Global, factors: &mut Items<Factor>) -> Result<(), NoMemory>
    ensures { OnOk result (factors.new ≡ factors.old) }
{
    if !has_ops(factors) {
        return Ok(());
    }
    if let Some(last) = factors.pop() {
        factors.push(closed(alloc, last)?)?;
    }
    Ok(())
}

/// The product of factors.
pub fn product(alloc: Global, mut factors: Items<Factor>) -> Result<Expr, NoMemory>
    ensures { IfOk result (λ e. e ≡ values.product factors) }
{
    close(alloc, &mut factors)?;
    let factors = exact(alloc, factors)?;
    Ok(Expr { factors })
}
