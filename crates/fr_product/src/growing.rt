//! The rows that are reached from a cycle, of a machine that grows by rows behind the others.

ghost use Rattle.std.specs.Prelude.{◌≡◌, ◌<◌, ◌≤◌, ◌+◌, ◌⊎◌, ◌++◌, ℕ, List, [], ◌∷◌, IfOk, OnOk, length, true, false, slice_index_or, slice_set};
ghost use Rattle.fr_model.specs.Automata.{state_at};
ghost use Rattle.fr_machine.specs.declared.row.Row.{Row};
ghost use Rattle.fr_machine.specs.Rows.{IsLonger};
ghost use Rattle.fr_machine.specs.Rows.{states_of};
ghost use Rattle.fr_product.specs.Growing.{AreLimitsOf};
ghost use Rattle.fr_product.specs.Limits.{AreLimitRows};
ghost use Rattle.fr_product.specs.Spreading.{AreClosed, AreAlone, IsSpreading, renumbered, unmarked};

use crate::limits::limit_rows;
use fr_alphabet::{NoMemory, Perm};
use fr_machine::{Machine, Row};
use std::alloc::Global;

/// Which rows of a machine that grows by rows behind the others are reached from a cycle. Only new rows are looked at, and
/// the rows before them that they reach.
#[derive(Debug, Drop)]
pub struct GrowingLimits {
    // For each row whether it is reached from a cycle.
    marks: Vec<bool>,
}

impl GrowingLimits {
    /// Those of no rows.
    pub fn new(alloc: Global) -> GrowingLimits
        ensures { (d : ℕ) → AreLimitsOf d [] result }
    {
        GrowingLimits {
            marks: Vec::new(alloc),
        }
    }

    /// Takes the rows of a machine whose first rows are those so far. The only error is want of memory. After want of memory the
    /// marks are of no further use.
    pub fn extend(&mut self, alloc: Global, m: &Machine) -> Result<(), NoMemory>
        requires { (old : List Row) × AreLimitsOf m.now.alphabet old self.old × IsLonger old m.now.rows }
        ensures { OnOk result (AreLimitsOf m.now.alphabet m.now.rows self.new) }
    {
        // For the proof: what is known of the rows.
        let _rows = m.rows();
        let first = self.marks.len();
        if first == 0 {
            self.marks = limit_rows(alloc, m)?;
            return Ok(());
        }
        let new_marks = limit_rows(alloc, &alone(alloc, m, first)?)?;
        self.marks.extend_from_slice(&new_marks[1..])?;
        self.spread(alloc, m, first)
    }

    // Marks what the marked rows behind the first ones lead to, along any word.
    fn spread(&mut self, alloc: Global, m: &Machine, first: usize) -> Result<(), NoMemory>
        requires { IsSpreading m.now.alphabet (states_of m.now.rows) self.old.marks.items [] [] first }
        ensures { OnOk result (AreLimitRows m.now.alphabet m.now.rows self.new.marks.items) }
    {
        let mut todo = Vec::new(alloc);
        for s in first..m.rows().len() {
            if self.marks[s] {
                self.mark_nexts(m, s as u16, &mut todo)?;
            }
        }
        self.finish(m, todo)
    }

    // Marks what the rows of a stack lead to, along any word.
    fn finish(&mut self, m: &Machine, mut todo: Vec<u16>) -> Result<(), NoMemory>
        requires { IsSpreading m.now.alphabet (states_of m.now.rows) self.old.marks.items todo.items [] (length m.now.rows) }
        ensures { OnOk result (AreLimitRows m.now.alphabet m.now.rows self.new.marks.items) }
    {
        // For the proof: what is known of the rows.
        let _rows = m.rows();
        while let Some(s) = todo.pop() {
            self.mark_nexts(m, s, &mut todo)?;
        }
        Ok(())
    }

    // Marks the next rows of a row, and puts those that had no mark on the stack.
    fn mark_nexts(&mut self, m: &Machine, s: u16, todo: &mut Vec<u16>) -> Result<(), NoMemory>
        requires row { s < length m.now.rows }
        requires count { length self.old.marks.items ≡ length m.now.rows }
        ensures spreading { OnOk result ((from : ℕ)
            → IsSpreading m.now.alphabet (states_of m.now.rows) self.old.marks.items todo.old.items (state_at (states_of m.now.rows) s).next from
            → IsSpreading m.now.alphabet (states_of m.now.rows) self.new.marks.items todo.new.items [] from) }
        ensures work { OnOk result (length todo.new.items + unmarked self.new.marks.items ≡ length todo.old.items + unmarked self.old.marks.items) }
    {
        let row = &m.rows()[s as usize];
        for x in 0..row.perm.letters() {
            self.mark(row.next[x as usize], todo)?;
        }
        Ok(())
    }

    // Marks a row. If it had no mark, it is put on the stack.
    fn mark(&mut self, s: u16, todo: &mut Vec<u16>) -> Result<(), NoMemory>
        requires { s < length self.old.marks.items }
        ensures { OnOk result
            (((slice_index_or self.old.marks.items s false ≡ true) × (self.new.marks.items ≡ self.old.marks.items) × (todo.new.items ≡ todo.old.items))
            ⊎ ((slice_index_or self.old.marks.items s false ≡ false) × (self.new.marks.items ≡ slice_set self.old.marks.items s true) × (todo.new.items ≡ todo.old.items ++ s ∷ []))) }
    {
        if !self.marks[s as usize] {
            self.marks[s as usize] = true;
            todo.push(s)?;
        }
        Ok(())
    }

    /// For each row of the machine that was taken last whether it is reached, along any word, from a row on a cycle, as
    /// [`limit_rows`](crate::limit_rows) has it.
    pub fn marks(&self) -> &[bool]
        ensures { result.now ≡ self.now.marks.items }
    {
        &self.marks
    }
}

// The machine of the rows behind the first ones. Its row 0 stands for each of the first ones, and leads to itself.
fn alone(alloc: Global, m: &Machine, first: usize) -> Result<Machine, NoMemory>
    requires some { 0 < first }
    requires closed { AreClosed m.now.alphabet first (states_of m.now.rows) }
    ensures alphabet { IfOk result (λ p. p.alphabet ≡ m.now.alphabet) }
    ensures rows { IfOk result (λ p. AreAlone m.now.alphabet first (states_of m.now.rows) (states_of p.rows)) }
{
    let new = &m.rows()[first..];
    let mut rows = Vec::with_capacity(alloc, new.len() + 1)?;
    rows.push(Row {
        perm: Perm::identity(m.alphabet()),
        next: [0; 8],
    })?;
    for row in new {
        rows.push(renumbered(row, first))?;
    }
    Ok(Machine::from_rows(m.alphabet(), rows))
}

// A row as `alone` has it.
fn renumbered(row: &Row, first: usize) -> Row
    requires { 0 < first }
    ensures { result ≡ renumbered first row.now }
{
    let mut next = row.next;
    for n in &mut next {
        *n = (*n as usize + 1).saturating_sub(first) as u16;
    }
    Row {
        perm: row.perm,
        next,
    }
}
