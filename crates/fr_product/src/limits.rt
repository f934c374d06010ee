//! The rows of a machine that are reached from a cycle.

ghost use Rattle.std.specs.Prelude.{◌≡◌, ◌<◌, ◌≤◌, ◌+◌, ◌-◌, ◌*◌, ◌^◌, ◌⊎◌, ◌++◌, ℕ, [], ◌∷◌, IfOk, OnOk, length, replicate, true, false, slice_index, slice_index_or, slice_set};
ghost use Rattle.fr_model.specs.Automata.{IsAutomaton, state_at};
ghost use Rattle.fr_machine.specs.Minimal.{AreReached};
ghost use Rattle.fr_machine.specs.Rows.{IsRow, IsMachine, state_of, states_of};
ghost use Rattle.fr_product.specs.Limits.{AreLimitRows, AreLimitSections, AreUnreached, IsPeeling, arrivals_from, times};

use fr_alphabet::NoMemory;
use fr_machine::{Machine, Row};
use std::alloc::Global;

/// For each row of `m` whether it is reached, along any word, from a row on a cycle. The nucleus of a group is made of such
/// rows (Nekrashevych, Self-Similar Groups, chapter 2). Where all rows are reached from row 0, the marked ones are its limit
/// sections, up to acting alike.
///
/// The only error is that memory runs out. It takes time linear in the number of rows times letters.
pub fn limit_rows(alloc: Global, m: &Machine) -> Result<Vec<bool>, NoMemory>
    ensures limits { IfOk result (λ marks. AreLimitRows m.now.alphabet m.now.rows marks.items) }
    ensures sections { IfOk result (λ marks. AreReached m.now.alphabet m.now.rows → AreLimitSections m.now.alphabet m.now.rows marks.items) }
{
    let rows = m.rows();
    let arrivals = arrivals(alloc, rows)?;
    let todo = unreached(alloc, &arrivals)?;
    let remains = vec![in alloc; true; rows.len()]?;
    let mut peeling = Peeling {
        remains,
        arrivals,
        todo,
    };
    while let Some(s) = peeling.todo.pop() {
        peeling.peel(m, s)?;
    }
    Ok(peeling.remains)
}

// The rows that remain, how often each row is a next row of one of them, and those of them to which none leads.
#[derive(Drop)]
struct Peeling {
    remains: Vec<bool>,
    arrivals: Vec<u32>,
    todo: Vec<u16>,
}

impl Peeling {
    // One next row of a row that is gone.
    fn leave(&mut self, next: u16) -> Result<(), NoMemory>
        requires inside { next < length self.old.arrivals.items }
        requires counted { 0 < slice_index self.old.arrivals.items next }
        ensures remains { OnOk result (self.new.remains.items ≡ self.old.remains.items) }
        ensures arrivals { OnOk result (self.new.arrivals.items ≡ slice_set self.old.arrivals.items next (slice_index self.old.arrivals.items next - 1)) }
        ensures todo { OnOk result (((slice_index self.old.arrivals.items next ≡ 1) × (self.new.todo.items ≡ self.old.todo.items ++ next ∷ [])) ⊎ ((1 < slice_index self.old.arrivals.items next) × (self.new.todo.items ≡ self.old.todo.items))) }
    {
        let left = self.arrivals[next as usize] - 1;
        self.arrivals[next as usize] = left;
        if left == 0 {
            self.todo.push(next)?;
        }
        Ok(())
    }

    // Takes away a row to which none of those that remain leads.
    fn peel(&mut self, m: &Machine, s: u16) -> Result<(), NoMemory>
        requires row { s < length m.now.rows }
        requires peeling { IsPeeling m.now.alphabet (states_of m.now.rows) self.old.remains.items self.old.arrivals.items (self.old.todo.items ++ s ∷ []) [] }
        ensures peeling { OnOk result (IsPeeling m.now.alphabet (states_of m.now.rows) self.new.remains.items self.new.arrivals.items self.new.todo.items []) }
        ensures remains { OnOk result (self.new.remains.items ≡ slice_set self.old.remains.items s false) }
    {
        let row = &m.rows()[s as usize];
        self.remains[s as usize] = false;
        for x in 0..row.perm.letters() {
            self.leave(row.next[x as usize])?;
        }
        Ok(())
    }
}

// Counts the next rows of a row.
fn count_nexts(arrivals: &mut [u32], row: &Row)
    requires row { IsRow (length row.now.perm) (length arrivals.old) row.now }
    requires room { (y : ℕ) → y < length arrivals.old → slice_index arrivals.old y + 8 < 2 ^ 32 }
    ensures { (y : ℕ) → y < length arrivals.old → slice_index arrivals.new y ≡ slice_index arrivals.old y + times y (state_of row.now).next }
{
    for x in 0..row.perm.letters() {
        arrivals[row.next[x as usize] as usize] += 1;
    }
}

// How often each row is a next row.
fn arrivals(alloc: Global, rows: &[Row]) -> Result<Vec<u32>, NoMemory>
    requires { (d : ℕ) × IsMachine d rows.now }
    ensures size { IfOk result (λ a. length a.items ≡ length rows.now) }
    ensures counts { IfOk result (λ a. (y : ℕ) → y < length rows.now → slice_index a.items y ≡ arrivals_from y rows.now) }
{
    let mut arrivals = vec![in alloc; 0u32; rows.len()]?;
    for row in rows {
        count_nexts(&mut arrivals, row);
    }
    Ok(arrivals)
}

// The rows to which none leads.
fn unreached(alloc: Global, arrivals: &[u32]) -> Result<Vec<u16>, NoMemory>
    requires { length arrivals.now ≤ 65536 }
    ensures { IfOk result (λ todo. AreUnreached arrivals.now todo.items) }
{
    let mut todo = Vec::with_capacity(alloc, arrivals.len())?;
    for (s, count) in arrivals.iter().enumerate() {
        if *count == 0 {
            todo.push(s as u16)?;
        }
    }
    Ok(todo)
}
