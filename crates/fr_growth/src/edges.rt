//! The letters that lead to a row.

ghost use Rattle.std.specs.Prelude.{◌≡◌, ◌-◌, ◌<◌, ◌≤◌, IfOk, OnOk, length, slice_index};
ghost use Rattle.fr_growth.specs.Distances.{AreDistances};
ghost use Rattle.fr_growth.specs.Edges.{AreEdges, AreEdgesFrom, IsAdded, edge_at};

use crate::distances::Distances;
use fr_alphabet::NoMemory;
use fr_machine::Minimal;
use std::alloc::Global;

/// A letter that leads from a row to another.
#[derive(Clone, Copy)]
pub struct Edge {
    /// The row from which it leads.
    pub row: u16,
    /// The letter.
    pub letter: u8,
    /// The number of the edge to the same row that was made before this one; 0 if there is none.
    pub earlier: usize,
}

/// For each row the edges that lead to it, as lists that share one table.
#[derive(Drop)]
pub struct Edges {
    // Edges are numbered from 1.
    list: Vec<Edge>,
    // For each row the number of the latest edge to it; 0 if there is none.
    latest: Vec<usize>,
}

/// The edges from the rows that have a distance; of two edges to a row the one that was made later leads from a row that
/// is not farther. The only error is want of memory.
pub fn find_edges(
    alloc: Global,
    m: &Minimal,
    distances: &Distances,
    from: u16,
) -> Result<Edges, NoMemory>
    requires { AreDistances m.now.alphabet m.now.rows from distances.now.rows.items distances.now.values.items }
    ensures { IfOk result (λ e. AreEdges m.now.alphabet m.now.rows distances.now.rows.items distances.now.values.items e.list.items e.latest.items) }
{
    let _from = from;
    let _known = m.machine();
    let mut edges = Edges {
        list: Vec::with_capacity(alloc, 2 * m.size() as usize)?,
        latest: vec![in alloc; 0usize; m.size() as usize]?,
    };
    let mut place = distances.rows.len();
    while place > 0 {
        place -= 1;
        edges.add_row(m, distances, from, place)?;
    }
    Ok(edges)
}

impl Edges {
    // Adds the edges from the row at a place.
    fn add_row(
        &mut self,
        m: &Minimal,
        distances: &Distances,
        from: u16,
        place: usize,
    ) -> Result<(), NoMemory>
        requires distances { AreDistances m.now.alphabet m.now.rows from distances.now.rows.items distances.now.values.items }
        requires place { place < length distances.now.rows.items }
        requires edges { AreEdgesFrom m.now.alphabet m.now.rows distances.now.rows.items distances.now.values.items self.old.list.items self.old.latest.items place 0 }
        ensures { OnOk result (AreEdgesFrom m.now.alphabet m.now.rows distances.now.rows.items distances.now.values.items self.new.list.items self.new.latest.items place m.now.alphabet) }
    {
        let _from = from;
        let machine = m.machine();
        let row = distances.rows[place];
        for x in 0..machine.alphabet().letters() {
            self.add(row, x + 1, machine.next(row, x + 1))?;
        }
        Ok(())
    }

    // Adds an edge.
    fn add(&mut self, row: u16, letter: u8, target: u16) -> Result<(), NoMemory>
        requires { target < length self.old.latest.items }
        ensures { OnOk result (IsAdded self.old.list.items self.old.latest.items row letter target self.new.list.items self.new.latest.items) }
    {
        let earlier = self.latest[target as usize];
        self.list.push(Edge {
            row,
            letter,
            earlier,
        })?;
        self.latest[target as usize] = self.list.len();
        Ok(())
    }

    /// The number of the latest edge to a row; 0 if there is none.
    pub fn latest(&self, row: u16) -> usize
        requires { row < length self.now.latest.items }
        ensures { result ≡ slice_index self.now.latest.items row }
    {
        self.latest[row as usize]
    }

    /// The edge of a number.
    pub fn edge(&self, number: usize) -> Edge
        requires least { 1 ≤ number }
        requires most { number ≤ length self.now.list.items }
        ensures { result ≡ edge_at self.now.list.items (number - 1) }
    {
        self.list[number - 1]
    }
}
