//! The rows that have a row as a next row, for each row.

ghost use Rattle.std.specs.Prelude.{ℕ, ◌≡◌, ◌<◌, ◌≤◌, ◌+◌, ◌*◌, ◌-◌, [], ◌∷◌, ◌++◌, IfOk, OnOk, length, slice_index, slice_index_or, slice_set};
ghost use Rattle.fr_machine.specs.Rows.{IsMachine};
ghost use Rattle.fr_classes.specs.Predecessors.{AreLinks, IsFilled, ArePredecessors, link_at, lists_of};

use fr_alphabet::NoMemory;
use fr_machine::Row;
use std::alloc::Global;

/// A place at which a row stands as a next row.
#[derive(Clone, Copy)]
pub struct Link {
    /// The row with this next row.
    pub row: u16,
    /// The number of the link to the same next row that was made before this one; 0 if there is none.
    pub earlier: u32,
}

/// For each row the rows that have it as a next row, as lists that share one table.
#[derive(Drop)]
pub struct Predecessors {
    // Links are numbered from 1.
    links: Vec<Link>,
    // For each row the number of the latest link to it; 0 if there is none.
    latest: Vec<u32>,
}

impl Predecessors {
    /// The predecessors of the rows of a machine. The only error is want of memory.
    pub fn new(alloc: Global, rows: &[Row]) -> Result<Predecessors, NoMemory>
        requires { (d : ℕ) × IsMachine d rows.now }
        ensures { IfOk result (λ before. ArePredecessors rows.now before) }
    {
        let mut before = Predecessors {
            links: Vec::new(alloc),
            latest: vec![in alloc; 0u32; rows.len()]?,
        };
        for s in 0..rows.len() {
            before.add_row(rows, s)?;
        }
        Ok(before)
    }

    // Adds a link from a row to a next row of it.
    fn add(&mut self, row: u16, next: u16) -> Result<(), NoMemory>
        requires next { next < length self.old.latest.items }
        requires links { AreLinks self.old }
        requires few { length self.old.links.items ≤ 524288 }
        ensures links { OnOk result (AreLinks self.new) }
        ensures count { OnOk result (length self.new.links.items ≡ length self.old.links.items + 1) }
        ensures lists { OnOk result (lists_of self.new ≡ slice_set (lists_of self.old) next (row ∷ slice_index_or (lists_of self.old) next [])) }
    {
        let earlier = self.latest[next as usize];
        self.links.push(Link { row, earlier })?;
        self.latest[next as usize] = self.links.len() as u32;
        Ok(())
    }

    // Adds a link from a row to each of its next rows.
    fn add_row(&mut self, rows: &[Row], s: usize) -> Result<(), NoMemory>
        requires machine { (d : ℕ) × IsMachine d rows.now }
        requires row { s < length rows.now }
        requires filled { IsFilled rows.now self.old s 0 }
        ensures { OnOk result (IsFilled rows.now self.new (s + 1) 0) }
    {
        let row = &rows[s];
        for x in 0..row.perm.letters() {
            self.add(s as u16, row.next[x as usize])?;
        }
        Ok(())
    }

    /// The number of the latest link to a row; 0 if there is none.
    pub fn latest(&self, row: u16) -> u32
        requires links { AreLinks self.now }
        requires row { row < length self.now.latest.items }
        ensures value { result ≡ slice_index self.now.latest.items row }
        ensures most { result ≤ length self.now.links.items }
    {
        self.latest[row as usize]
    }

    /// The link of a number.
    pub fn link(&self, number: u32) -> Link
        requires links { AreLinks self.now }
        requires least { 1 ≤ number }
        requires most { number ≤ length self.now.links.items }
        ensures value { result ≡ link_at self.now.links.items (number - 1) }
        ensures earlier { result.earlier < number }
    {
        self.links[number as usize - 1]
    }
}
