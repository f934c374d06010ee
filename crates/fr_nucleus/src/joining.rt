//! Machines that are made of the rows of others.

ghost use Rattle.std.specs.Prelude.{◌≡◌, ℕ, ◌<◌, ◌≤◌, ◌+◌, IfOk, length, slice_index};
ghost use Rattle.fr_machine.specs.Rows.{IsRow};
ghost use Rattle.fr_classes.specs.Classes.{AreClasses};
ghost use Rattle.fr_nucleus.specs.Joining.{IsRenumbered, AreJoined, AreReduced};

use fr_alphabet::NoMemory;
use fr_machine::{Machine, Row};
use std::alloc::Global;

/// The rows of `m`, and behind them those of `n`, which act as before. Both machines are over one alphabet, and have at
/// most 65,536 rows together. The only error is want of memory.
pub fn joined(alloc: Global, m: &Machine, n: &Machine) -> Result<Machine, NoMemory>
    requires alphabets { m.now.alphabet ≡ n.now.alphabet }
    requires room { length m.now.rows + length n.now.rows ≤ 65536 }
    ensures alphabet { IfOk result (λ q. q.alphabet ≡ m.now.alphabet) }
    ensures rows { IfOk result (λ q. AreJoined m.now.rows n.now.rows q.rows) }
{
    let first = m.rows().len();
    let mut rows = Vec::with_capacity(alloc, first + n.rows().len())?;
    rows.extend_from_slice(m.rows())?;
    for row in n.rows() {
        rows.push(shifted(row, first as u16))?;
    }
    Ok(Machine::from_rows(m.alphabet(), rows))
}

// A row whose next rows stand so many places further back.
fn shifted(row: &Row, first: u16) -> Row
    requires { (n : ℕ) × (n + first ≤ 65536) × IsRow (length row.now.perm) n row.now }
    ensures { IsRenumbered (λ n. n + first) row.now result }
{
    let mut next = [0; 8];
    for x in 0..row.perm.letters() {
        next[x as usize] = row.next[x as usize] + first;
    }
    Row {
        perm: row.perm,
        next,
    }
}

/// The first row of each class of like rows of `m`, where `of` is what `classes` gives of `m`: row `of[s]` acts as row `s`
/// of `m` does. The only error is want of memory.
pub fn reduced(alloc: Global, m: &Machine, of: &[u16]) -> Result<Machine, NoMemory>
    requires { AreClasses m.now.rows of.now }
    ensures alphabet { IfOk result (λ q. q.alphabet ≡ m.now.alphabet) }
    ensures rows { IfOk result (λ q. AreReduced m.now.rows of.now q.rows) }
{
    let mut rows = Vec::new(alloc);
    for (s, row) in m.rows().iter().enumerate() {
        if of[s] as usize == rows.len() {
            rows.push(row_of_class(row, of))?;
        }
    }
    Ok(Machine::from_rows(m.alphabet(), rows))
}

// A row whose next rows are replaced by their classes.
fn row_of_class(row: &Row, of: &[u16]) -> Row
    requires { IsRow (length row.now.perm) (length of.now) row.now }
    ensures { IsRenumbered (λ n. slice_index of.now n) row.now result }
{
    let mut next = [0; 8];
    for x in 0..row.perm.letters() {
        next[x as usize] = of[row.next[x as usize] as usize];
    }
    Row {
        perm: row.perm,
        next,
    }
}
