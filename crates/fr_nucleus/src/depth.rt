//! How many letters lead from products to members for certain.

ghost use Rattle.std.specs.Prelude.{◌≡◌, ◌<◌, ◌≤◌, ℕ, false, true, IfOk, MatchBool, length};
ghost use Rattle.fr_model.specs.Automata.{IsLimitState};
ghost use Rattle.fr_machine.specs.Rows.{IsRow, states_of};
ghost use Rattle.fr_nucleus.specs.Depths.{mark_at, IsWayOut, IsBackOf, LeadsInAt, LeadsOut};

use fr_alphabet::NoMemory;
use fr_machine::{Machine, Row};
use std::alloc::Global;
use std::mem;

/// The least length of words behind which no row stands that is `outside`, wherever the words begin. No such row is reached
/// from a cycle. The only error is want of memory.
pub fn depth_of(alloc: Global, m: &Machine, outside: Vec<bool>) -> Result<u32, NoMemory>
    requires count { length outside.items ≡ length m.now.rows }
    requires limits { (r : ℕ) → r < length m.now.rows → IsLimitState m.now.alphabet (states_of m.now.rows) r → mark_at outside.items r ≡ false }
    ensures { IfOk result (λ k. IsWayOut m.now.alphabet (states_of m.now.rows) outside.items k) }
{
    // For the proof: what is known of the rows.
    let _rows = m.rows();
    let mut depth = 0;
    let mut here = outside;
    let mut before = vec![in alloc; false; here.len()]?;
    while here.contains(&true) {
        step_back(m, &here, &mut before);
        mem::swap(&mut here, &mut before);
        depth += 1;
    }
    Ok(depth)
}

// Marks the rows that a letter leads to a marked one.
fn step_back(m: &Machine, here: &[bool], before: &mut [bool])
    requires here { length here.now ≡ length m.now.rows }
    requires before { length before.old ≡ length m.now.rows }
    ensures { IsBackOf m.now.rows here.now before.new }
{
    for (s, row) in m.rows().iter().enumerate() {
        before[s] = leads_in(row, here);
    }
}

// Whether a letter leads to a marked row.
fn leads_in(row: &Row, marks: &[bool]) -> bool
    requires { IsRow (length row.now.perm) (length marks.now) row.now }
    ensures { MatchBool result (LeadsInAt row.now marks.now) (LeadsOut row.now marks.now (length row.now.perm)) }
{
    for x in 0..row.perm.letters() {
        if marks[row.next[x as usize] as usize] {
            return true;
        }
    }
    false
}
