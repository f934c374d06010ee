//! How far rows are from a row.

ghost use Rattle.std.specs.Prelude.{◌≡◌, ℕ, ◌<◌, IfOk, IfSome, OnOk, length, slice_index};
ghost use Rattle.fr_growth.specs.Distances.{IsSearch, IsMet, AreDistances};

use crate::bits::{BitRow, has, put};
use fr_alphabet::NoMemory;
use fr_machine::Minimal;
use std::alloc::Global;

/// The rows to which words lead from a row, and the least lengths of these words.
#[derive(Drop)]
pub struct Distances {
    /// The rows, in rising order of their distances.
    pub rows: Vec<u16>,
    /// The distance of each of these rows; 0 at others.
    pub values: Vec<u16>,
    // The rows that were met.
    seen: BitRow,
}

/// The distances from a row, by a breadth-first search. The only error is want of memory.
pub fn find_distances(alloc: Global, m: &Minimal, from: u16) -> Result<Distances, NoMemory>
    requires { from < length m.now.rows }
    ensures { IfOk result (λ r. AreDistances m.now.alphabet m.now.rows from r.rows.items r.values.items) }
{
    let _known = m.machine();
    let mut distances = Distances::new(alloc, m, from)?;
    let mut place = 0;
    while place < distances.rows.len() {
        distances.go_on(m, place, from)?;
        place += 1;
    }
    Ok(distances)
}

/// The distances from a row, where it has no row farther than so many letters. The answer `None` says only that the search
/// was given up. The only error is want of memory.
pub fn find_near_distances(
    alloc: Global,
    m: &Minimal,
    from: u16,
    most: u16,
) -> Result<Option<Distances>, NoMemory>
    requires { from < length m.now.rows }
    ensures { IfOk result (λ o. IfSome o (λ r. AreDistances m.now.alphabet m.now.rows from r.rows.items r.values.items)) }
{
    let _known = m.machine();
    let mut distances = Distances::new(alloc, m, from)?;
    let mut place = 0;
    while place < distances.rows.len() {
        if distances.values[distances.rows[place] as usize] > most {
            return Ok(None);
        }
        distances.go_on(m, place, from)?;
        place += 1;
    }
    Ok(Some(distances))
}

impl Distances {
    // The row alone.
    fn new(alloc: Global, m: &Minimal, from: u16) -> Result<Distances, NoMemory>
        requires { from < length m.now.rows }
        ensures { IfOk result (λ r. IsSearch m.now.alphabet m.now.rows from r.rows.items r.values.items r.seen 0 0) }
    {
        let _known = m.machine();
        let mut rows = Vec::with_capacity(alloc, m.size() as usize)?;
        rows.push(from)?;
        let mut seen = [0; 16];
        put(&mut seen, from);
        Ok(Distances {
            rows,
            values: vec![in alloc; 0u16; m.size() as usize]?,
            seen,
        })
    }

    // Meets the next rows of the row at a place.
    fn go_on(&mut self, m: &Minimal, place: usize, from: u16) -> Result<(), NoMemory>
        requires place { place < length self.old.rows.items }
        requires search { IsSearch m.now.alphabet m.now.rows from self.old.rows.items self.old.values.items self.old.seen place 0 }
        ensures search { OnOk result (IsSearch m.now.alphabet m.now.rows from self.new.rows.items self.new.values.items self.new.seen place m.now.alphabet) }
        ensures place { OnOk result (place < length self.new.rows.items) }
    {
        let _from = from;
        let machine = m.machine();
        let row = self.rows[place];
        let distance = self.values[row as usize] + 1;
        for x in 0..machine.alphabet().letters() {
            self.meet(machine.next(row, x + 1), distance)?;
        }
        Ok(())
    }

    // Enters a row with its distance, unless it was met.
    fn meet(&mut self, row: u16, distance: u16) -> Result<(), NoMemory>
        requires row { row < length self.old.values.items }
        requires small { row < 1024 }
        ensures { OnOk result (IsMet self.old.rows.items self.old.values.items self.old.seen row distance self.new.rows.items self.new.values.items self.new.seen) }
    {
        if has(&self.seen, row) {
            return Ok(());
        }
        self.rows.push(row)?;
        put(&mut self.seen, row);
        self.values[row as usize] = distance;
        Ok(())
    }
}
