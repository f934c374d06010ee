//! The rows from which words of each length lead to a goal.

ghost use Rattle.std.specs.Prelude.{◌≡◌, ℕ, ◌+◌, ◌-◌, ◌<◌, ◌≤◌, false, [], IfOk, OnOk, length};
ghost use Rattle.fr_growth.specs.Distances.{AreDistances};
ghost use Rattle.fr_growth.specs.Edges.{AreEdges};
ghost use Rattle.fr_growth.specs.Bits.{has_bit};
ghost use Rattle.fr_growth.specs.Layers.{AreGoals, IsEntered, IsPart, IsToFirst, IsLowered, AreWithWords, AreFound};

use crate::bits::{BitRow, has, put};
use crate::distances::Distances;
use crate::edges::Edges;
use fr_alphabet::NoMemory;
use fr_machine::Minimal;
use std::alloc::Global;
use std::mem::swap;

/// The rows from which words of one length lead to a goal.
#[derive(Drop)]
struct Layer {
    set: BitRow,
    // The same rows.
    rows: Vec<u16>,
    // The first letter of a word of each of them.
    letters: Vec<u8>,
}

impl Layer {
    // No rows, of so many in all.
    fn new(alloc: Global, count: usize) -> Result<Layer, NoMemory>
        ensures set { IfOk result (λ l. (u : ℕ) → u < 1024 → has_bit l.set u ≡ false) }
        ensures rows { IfOk result (λ l. l.rows.items ≡ []) }
        ensures letters { IfOk result (λ l. length l.letters.items ≡ count) }
    {
        Ok(Layer {
            set: [0; 16],
            rows: Vec::with_capacity(alloc, count)?,
            letters: vec![in alloc; 0u8; count]?,
        })
    }

    // The goals, which are the rows with the empty word.
    fn of_goals(alloc: Global, goals: &[bool]) -> Result<Layer, NoMemory>
        requires { length goals.now ≤ 1024 }
        ensures goals { IfOk result (λ l. AreGoals goals.now l.set l.rows.items) }
        ensures letters { IfOk result (λ l. length l.letters.items ≡ length goals.now) }
    {
        let mut layer = Layer::new(alloc, goals.len())?;
        for s in 0..goals.len() {
            if goals[s] {
                layer.enter(s as u16, 0)?;
            }
        }
        Ok(layer)
    }

    // Lets all rows go, and keeps their room.
    fn clear(&mut self)
        ensures set { (u : ℕ) → u < 1024 → has_bit self.new.set u ≡ false }
        ensures rows { self.new.rows.items ≡ [] }
        ensures letters { length self.new.letters.items ≡ length self.old.letters.items }
    {
        self.set = [0; 16];
        self.rows.clear();
    }

    // Enters a row with the first letter of a word. The answer is whether the row is there already, with another letter.
    fn enter(&mut self, row: u16, letter: u8) -> Result<bool, NoMemory>
        requires row { row < length self.old.letters.items }
        requires small { row < 1024 }
        ensures { IfOk result (λ again. IsEntered self.old.set self.old.rows.items self.old.letters.items row letter again self.new.set self.new.rows.items self.new.letters.items) }
    {
        if has(&self.set, row) {
            return Ok(self.letters[row as usize] != letter);
        }
        put(&mut self.set, row);
        self.rows.push(row)?;
        self.letters[row as usize] = letter;
        Ok(false)
    }
}

/// For each length from 0 on the rows from which a word of this length leads to a goal, as far as words from a row of
/// `distances` pass there with at most `most` letters in all. The last length is `most`, or less, where two words of a
/// less length lead from that row to a goal: the least such length. The only error is want of memory.
pub fn find_layers(
    alloc: Global,
    m: &Minimal,
    from: u16,
    goals: &[bool],
    distances: &Distances,
    edges: &Edges,
    most: u16,
) -> Result<Vec<BitRow>, NoMemory>
    requires from { from < length m.now.rows }
    requires goals { length goals.now ≡ length m.now.rows }
    requires distances { AreDistances m.now.alphabet m.now.rows from distances.now.rows.items distances.now.values.items }
    requires edges { AreEdges m.now.alphabet m.now.rows distances.now.rows.items distances.now.values.items edges.now.list.items edges.now.latest.items }
    requires most { most ≤ 4096 }
    ensures { IfOk result (λ sets. AreFound m.now.alphabet m.now.rows goals.now from most sets.items) }
{
    let _known = m.machine();
    let mut layer = Layer::of_goals(alloc, goals)?;
    let mut next = Layer::new(alloc, goals.len())?;
    let mut sets = Vec::new(alloc);
    sets.push(layer.set)?;
    let mut bound = most;
    let mut long = 0u16;
    while long < bound {
        long += 1;
        layer_before(
            m,
            from,
            goals,
            distances,
            edges,
            &layer.rows,
            long,
            &mut next,
            &mut bound,
        )?;
        sets.push(next.set)?;
        swap(&mut layer, &mut next);
    }
    Ok(sets)
}

// Makes the layer of the words with one letter more than those of these rows, in the room of another. The bound comes down
// to the least length in which a row of the layer makes two words.
fn layer_before(
    m: &Minimal,
    from: u16,
    goals: &[bool],
    distances: &Distances,
    edges: &Edges,
    rows: &[u16],
    long: u16,
    layer: &mut Layer,
    bound: &mut u16,
) -> Result<(), NoMemory>
    requires distances { AreDistances m.now.alphabet m.now.rows from distances.now.rows.items distances.now.values.items }
    requires edges { AreEdges m.now.alphabet m.now.rows distances.now.rows.items distances.now.values.items edges.now.list.items edges.now.latest.items }
    requires long { 1 ≤ long }
    requires rows { AreWithWords m.now.alphabet m.now.rows goals.now rows.now (long - 1) }
    requires bound { long ≤ bound.old }
    requires most { bound.old ≤ 4096 }
    requires letters { length layer.old.letters.items ≡ length m.now.rows }
    ensures lowered { OnOk result (IsLowered m.now.alphabet m.now.rows goals.now from long bound.old bound.new) }
    ensures layer { OnOk result (IsPart m.now.alphabet m.now.rows goals.now distances.now.values.items edges.now.list.items long (λ e. IsToFirst m.now.rows edges.now.list.items rows.now (length rows.now) e) layer.new.set layer.new.rows.items layer.new.letters.items bound.new) }
{
    let _known = m.machine();
    layer.clear();
    for place in 0..rows.len() {
        enter_before(
            m, from, goals, distances, edges, rows, place, long, layer, bound,
        )?;
    }
    Ok(())
}

// Enters the rows from which an edge leads to the row at a place.
fn enter_before(
    m: &Minimal,
    from: u16,
    goals: &[bool],
    distances: &Distances,
    edges: &Edges,
    rows: &[u16],
    place: usize,
    long: u16,
    layer: &mut Layer,
    bound: &mut u16,
) -> Result<(), NoMemory>
    requires distances { AreDistances m.now.alphabet m.now.rows from distances.now.rows.items distances.now.values.items }
    requires edges { AreEdges m.now.alphabet m.now.rows distances.now.rows.items distances.now.values.items edges.now.list.items edges.now.latest.items }
    requires long { 1 ≤ long }
    requires rows { AreWithWords m.now.alphabet m.now.rows goals.now rows.now (long - 1) }
    requires place { place < length rows.now }
    requires bound { long ≤ bound.old }
    requires most { bound.old ≤ 4096 }
    requires layer { IsPart m.now.alphabet m.now.rows goals.now distances.now.values.items edges.now.list.items long (λ e. IsToFirst m.now.rows edges.now.list.items rows.now place e) layer.old.set layer.old.rows.items layer.old.letters.items bound.old }
    ensures lowered { OnOk result (IsLowered m.now.alphabet m.now.rows goals.now from long bound.old bound.new) }
    ensures layer { OnOk result (IsPart m.now.alphabet m.now.rows goals.now distances.now.values.items edges.now.list.items long (λ e. IsToFirst m.now.rows edges.now.list.items rows.now (place + 1) e) layer.new.set layer.new.rows.items layer.new.letters.items bound.new) }
{
    let _known = m.machine();
    let _from = from;
    let _goals = goals;
    let mut number = edges.latest(rows[place]);
    while number > 0 {
        let edge = edges.edge(number);
        let total = distances.values[edge.row as usize] as u32 + long as u32;
        if total > *bound as u32 {
            return Ok(());
        }
        if layer.enter(edge.row, edge.letter)? {
            *bound = total as u16;
        }
        number = edge.earlier;
    }
    Ok(())
}
