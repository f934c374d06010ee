//! The rows that are reached from a row, as a machine of their own.

ghost use Rattle.std.specs.Prelude.{◌≡◌, ◌<◌, ◌≤◌, IfOk, length};
ghost use Rattle.fr_machine.specs.Walks.{IsRowMade};
ghost use Rattle.fr_machine.specs.Rows.{IsMachine, row_term, states_of};
ghost use Rattle.fr_machine.specs.Minimal.{AreReached};
ghost use Rattle.fr_model.specs.Automata.{next_state};
ghost use Rattle.fr_model.specs.Terms.{IsAlike};
ghost use Rattle.fr_minimal.specs.Smallest.{chosen_output};

use crate::smallest::walk_from;
use fr_alphabet::NoMemory;
use fr_machine::{Machine, Row, Walk};
use std::alloc::Global;

/// The machine of the rows of `m` that are reached from row `s`, in the order in which a breadth-first walk meets them, so
/// that its row 0 acts like row `s`. The only error is want of memory.
pub fn reached(alloc: Global, m: &Machine, s: u16) -> Result<Machine, NoMemory>
    requires { s < length m.now.rows }
    ensures alphabet { IfOk result (λ q. q.alphabet ≡ m.now.alphabet) }
    ensures machine { IfOk result (λ q. IsMachine m.now.alphabet q.rows) }
    ensures alike { IfOk result (λ q. IsAlike (row_term q.rows 0) (row_term m.now.rows s)) }
    ensures reached { IfOk result (λ q. AreReached m.now.alphabet q.rows) }
{
    let mut walk = walk_from(alloc, m.rows().len(), s as u32)?;
    let mut rows = Vec::with_capacity(alloc, m.rows().len())?;
    while rows.len() < walk.keys().len() {
        let key = walk.keys()[rows.len()] as u16;
        let row = row_of(m, &mut walk, key)?;
        rows.push(row)?;
    }
    let _keys = walk.keys();
    Ok(Machine::from_rows(m.alphabet(), rows))
}

// Row `s`, with its next rows replaced by the numbers that they have in the walk.
fn row_of(m: &Machine, walk: &mut Walk, s: u16) -> Result<Row, NoMemory>
    requires row { s < length m.now.rows }
    requires bound { walk.old.bound ≡ length m.now.rows }
    requires room { length walk.old.keys ≤ 65536 }
    ensures { IfOk result (λ r. IsRowMade m.now.alphabet 65536 (next_state (states_of m.now.rows)) (chosen_output (states_of m.now.rows)) walk.old walk.new s r) }
{
    let row = m.wreath(s);
    let mut next = [0; 8];
    for x in 0..m.alphabet().letters() {
        next[x as usize] = walk.number_of(m.next(s, x + 1) as u32)?;
    }
    Ok(Row {
        perm: row.perm,
        next,
    })
}
