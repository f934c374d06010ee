//! The product of two rows: a walk over pairs of rows, which begins with the two.

ghost use Rattle.std.specs.Prelude.{[], ◌∷◌, ◌≡◌, ◌<◌, ◌≤◌, ◌+◌, ◌*◌, ◌⊎◌, IfOk, IsErrOf, OnOk, length};
ghost use Rattle.fr_model.specs.Words.{IsLetter};
ghost use Rattle.fr_machine.specs.Walks.{IsRowMade, IsRowPassed};
ghost use Rattle.fr_machine.specs.Rows.{IsMachine, row_term, states_of};
ghost use Rattle.fr_model.specs.Classes.{HasMorePairs};
ghost use Rattle.fr_product.specs.Products.{IsProduct, pair_step, pair_output};

use fr_alphabet::{NoMemory, Perm};
use fr_machine::{Machine, Minimal, Row, Walk};
use std::alloc::{AllocError, AllocFailed, Global};
use thiserror::Error;

/// The most rows of a product.
pub const PAIR_LIMIT: usize = 65536;

// For how many rows room is taken at first, so that small products take it once.
const FIRST_ROOM: usize = 64;

/// Why there is no product.
#[derive(Clone, Copy, Debug, PartialEq, Eq, Error)]
pub enum ProductFault {
    /// There are more than 65,536 pairs of sections, no two of which act alike.
    #[error("more than 65536 pairs of sections")]
    PairsPassed,
    /// Memory ran out.
    #[error("out of memory")]
    NoMemory,
}

impl<T: Drop> From<AllocFailed<T>> for ProductFault {
    ghost use Rattle.std.specs.Prelude.{◌≡◌};
    ghost use Rattle.fr_product.specs.declared.pairs.ProductFault.TheVariants.{NoMemory};

    ghost from_gives = { λ _ e. e ≡ NoMemory };

    fn from(_failed: AllocFailed<T>) -> ProductFault {
        ProductFault::NoMemory
    }
}

impl From<AllocError> for ProductFault {
    ghost use Rattle.std.specs.Prelude.{◌≡◌};
    ghost use Rattle.fr_product.specs.declared.pairs.ProductFault.TheVariants.{NoMemory};

    ghost from_gives = { λ _ e. e ≡ NoMemory };

    fn from(_failed: AllocError) -> ProductFault {
        ProductFault::NoMemory
    }
}

impl From<NoMemory> for ProductFault {
    ghost use Rattle.std.specs.Prelude.{◌≡◌};
    ghost use Rattle.fr_product.specs.declared.pairs.ProductFault.TheVariants.{NoMemory};

    ghost from_gives = { λ _ e. e ≡ NoMemory };

    fn from(_failed: NoMemory) -> ProductFault {
        ProductFault::NoMemory
    }
}

/// The machine whose row 0 is the product of row `s` of `a` and row `t` of `b`: first the one acts, then the other. Its rows
/// are the pairs of a section of the one at a word and the section of the other at the word's image, each pair once. This is
/// the product of automata of Grigorchuk, Nekrashevych and Sushchanskii (Automata, dynamical systems, and groups).
///
/// Both machines are over one alphabet.
///
/// Errors: `PairsPassed` exactly where there are more than 65,536 such pairs, no two of which act alike, and memory lasts.
pub fn product(
    alloc: Global,
    a: &Minimal,
    s: u16,
    b: &Minimal,
    t: u16,
) -> Result<Machine, ProductFault>
    requires alphabets { a.now.alphabet ≡ b.now.alphabet }
    requires left { s < length a.now.rows }
    requires right { t < length b.now.rows }
    ensures alphabet { IfOk result (λ p. p.alphabet ≡ a.now.alphabet) }
    ensures ok { IfOk result (λ p. IsProduct a.now.alphabet (row_term a.now.rows s) (row_term b.now.rows t) p.rows) }
    ensures passed { IsErrOf result ProductFault.PairsPassed → HasMorePairs a.now.alphabet (row_term a.now.rows s) (row_term b.now.rows t) 65536 }
    ensures within { OnOk result (¬ HasMorePairs a.now.alphabet (row_term a.now.rows s) (row_term b.now.rows t) 65536) }
{
    let m = a.machine();
    let n = b.machine();
    let width = n.rows().len() as u32;
    let mut walk = walk_from(
        alloc,
        m.rows().len() * n.rows().len(),
        s as u32 * width + t as u32,
    )?;
    let mut rows = Vec::with_capacity(alloc, FIRST_ROOM)?;
    while rows.len() < walk.keys().len() {
        let key = walk.keys()[rows.len()];
        let row = row_of(m, n, &mut walk, key)?;
        rows.push(row)?;
    }
    Ok(Machine::from_rows(m.alphabet(), rows))
}

// The row of a pair, whose next pairs are numbered.
fn row_of(m: &Machine, n: &Machine, walk: &mut Walk, key: u32) -> Result<Row, ProductFault>
    requires alphabets { m.now.alphabet ≡ n.now.alphabet }
    requires few { length m.now.rows ≤ 1024 }
    requires few_too { length n.now.rows ≤ 1024 }
    requires key { key < length m.now.rows * length n.now.rows }
    requires bound { walk.old.bound ≡ length m.now.rows * length n.now.rows }
    requires room { length walk.old.keys ≤ 65536 }
    ensures ok { IfOk result (λ r. IsRowMade m.now.alphabet 65536 (pair_step (states_of m.now.rows) (states_of n.now.rows) (length n.now.rows)) (pair_output (states_of m.now.rows) (states_of n.now.rows) (length n.now.rows)) walk.old walk.new key r) }
    ensures passed { IsErrOf result ProductFault.PairsPassed → IsRowPassed m.now.alphabet 65536 walk.old.bound (pair_step (states_of m.now.rows) (states_of n.now.rows) (length n.now.rows)) walk.old.keys key }
{
    let d = m.alphabet().letters();
    let mut next = [0; 8];
    for x in 0..d {
        let target = target_of(m, n, key, x + 1);
        let _keys = walk.keys();
        match walk.number(target, PAIR_LIMIT)? {
            Some(number) => next[x as usize] = number,
            None => return Err(ProductFault::PairsPassed),
        }
    }
    Ok(Row {
        perm: output_of(m, n, key),
        next,
    })
}

// What a pair of rows leads to at a letter. A pair is its place in a table of a row for each row of the first.
fn target_of(m: &Machine, n: &Machine, key: u32, x: u8) -> u32
    requires alphabets { m.now.alphabet ≡ n.now.alphabet }
    requires few { length m.now.rows ≤ 1024 }
    requires few_too { length n.now.rows ≤ 1024 }
    requires key { key < length m.now.rows * length n.now.rows }
    requires letter { IsLetter m.now.alphabet x }
    ensures value { result ≡ pair_step (states_of m.now.rows) (states_of n.now.rows) (length n.now.rows) key x }
    ensures below { result < length m.now.rows * length n.now.rows }
{
    let width = n.rows().len() as u32;
    let left = (key / width) as u16;
    let right = (key % width) as u16;
    let y = m.output(left, x);
    m.next(left, x) as u32 * width + n.next(right, y) as u32
}

// What a pair of rows puts out.
fn output_of(m: &Machine, n: &Machine, key: u32) -> Perm
    requires alphabets { m.now.alphabet ≡ n.now.alphabet }
    requires few { length n.now.rows ≤ 1024 }
    requires few_too { length m.now.rows ≤ 1024 }
    requires key { key < length m.now.rows * length n.now.rows }
    ensures { result ≡ pair_output (states_of m.now.rows) (states_of n.now.rows) (length n.now.rows) key }
{
    let width = n.rows().len() as u32;
    let left = m.wreath((key / width) as u16);
    let right = n.wreath((key % width) as u16);
    left.perm.then(&right.perm)
}

// A walk that begins with this key.
fn walk_from(alloc: Global, bound: usize, key: u32) -> Result<Walk, NoMemory>
    requires { key < bound }
    ensures bound { IfOk result (λ w. w.bound ≡ bound) }
    ensures keys { IfOk result (λ w. w.keys ≡ key ∷ []) }
{
    let mut walk = Walk::new(alloc, bound)?;
    walk.number(key, 1)?;
    Ok(walk)
}
