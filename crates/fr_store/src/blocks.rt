//! Rows in blocks, one block behind the other.

ghost use Rattle.std.specs.Prelude.{◌≡◌, ◌↔◌, ◌+◌, ◌-◌, ◌<◌, ◌≤◌, ◌^◌, [], ◌++◌, IsTrue, IfOk, length, replicate, slice_set, vec_len, vec_capacity};
ghost use Rattle.fr_model.specs.Words.{IsLetter};
ghost use Rattle.fr_model.specs.Terms.{Term, IsAlike};
ghost use Rattle.fr_model.specs.Automata.{next_state, state_at};
ghost use Rattle.fr_model.specs.Classes.{IsSize};
ghost use Rattle.fr_model.specs.Canonical.{IsCanonical};
ghost use Rattle.fr_machine.specs.Rows.{IsMachine, states_of};
ghost use Rattle.fr_machine.specs.Minimal.{IsMinimal};
ghost use Rattle.std.proofs.Props.{props};
ghost use Rattle.fr_store.specs.Props.{IsWord-IsProp};
ghost use Rattle.fr_store.specs.Blocks.{AreBlocks, AreSizes, IsPlaced, code_at, element_at, place_at, block, next_at};

use fr_alphabet::{Alphabet, NoMemory, Perm};
use fr_canon::{Code, Scratch, canon_rows, canonical_machine, count_states, has_code};
use fr_machine::{Minimal, Row};
use std::alloc::Global;

/// The rows of a block.
#[derive(Clone, Copy, Debug, PartialEq, Eq)]
pub(crate) struct Place {
    /// Its first row.
    pub start: u32,
    /// How many rows it has.
    pub size: u32,
}

/// Rows in blocks, each of which is a machine of at most 1,024 unlike rows; next rows are counted from its first row. How
/// many sections the element of a row has is kept, once it is known. All memory is taken when it is made. This project's
/// own.
#[derive(Debug, Drop)]
pub(crate) struct Blocks {
    pub alphabet: Alphabet,
    pub rows: Vec<Row>,
    // The block of each row.
    pub places: Vec<Place>,
    // For each row how many sections its element has, or 0 where they were not counted.
    pub sizes: Vec<u16>,
    ghost are_blocks: { AreBlocks alphabet rows.items places.items } by { Prim.hlevel (props, IsWord-IsProp) },
    ghost are_sizes: { AreSizes alphabet rows.items places.items sizes.items },
    ghost few: { length rows.items < 2 ^ 32 },
    ghost least: { 2 ≤ alphabet },
    ghost most: { alphabet ≤ 8 },
}

impl Blocks {
    /// No blocks, and room for so many rows. The only error is want of memory.
    pub fn new(alloc: Global, a: Alphabet, room: usize) -> Result<Blocks, NoMemory>
        ensures alphabet { IfOk result (λ b. b.alphabet ≡ a) }
        ensures rows { IfOk result (λ b. b.rows.items ≡ []) }
        ensures places { IfOk result (λ b. b.places.items ≡ []) }
        ensures room { IfOk result (λ b. (room ≤ vec_capacity b.rows) × (room ≤ vec_capacity b.places) × (room ≤ vec_capacity b.sizes)) }
    {
        let _letters = a.letters();
        Ok(Blocks {
            alphabet: a,
            rows: Vec::with_capacity(alloc, room)?,
            places: Vec::with_capacity(alloc, room)?,
            sizes: Vec::with_capacity(alloc, room)?,
        })
    }

    /// The rows of the block of a row.
    pub fn block(&self, row: u32) -> &[Row]
        requires { row < length self.now.rows.items }
        ensures value { result.now ≡ block self.now.rows.items (place_at self.now.places.items row) }
        ensures placed { IsPlaced self.now.alphabet self.now.rows.items self.now.places.items row (place_at self.now.places.items row) }
        ensures size { length result.now ≡ (place_at self.now.places.items row).size }
    {
        let place = self.places[row as usize];
        let start = place.start as usize;
        &self.rows[start..start + place.size as usize]
    }

    /// Makes `out` the code of a row.
    pub fn code(&self, scratch: &mut Scratch, row: u32, out: &mut Code)
        requires { row < length self.now.rows.items }
        ensures { out.new ≡ code_at self.now.alphabet self.now.rows.items self.now.places.items row }
    {
        let place = self.places[row as usize];
        let block = self.block(row);
        canon_rows(
            scratch,
            self.alphabet,
            block,
            (row - place.start) as u16,
            out,
        );
    }

    /// Whether a row has this code.
    pub fn has_code(&self, scratch: &mut Scratch, row: u32, code: &Code) -> bool
        requires { row < length self.now.rows.items }
        ensures { IsTrue result ↔ (code_at self.now.alphabet self.now.rows.items self.now.places.items row ≡ code.now) }
    {
        let place = self.places[row as usize];
        let block = self.block(row);
        has_code(
            scratch,
            self.alphabet,
            block,
            (row - place.start) as u16,
            code,
        )
    }

    /// How many sections the element of a row has, up to acting alike: 1 to 1,024. They are counted when they are first
    /// asked for.
    pub fn states(&mut self, scratch: &mut Scratch, row: u32) -> u16
        requires { row < length self.old.rows.items }
        ensures size { (t : Term) → IsAlike (element_at self.old.rows.items self.old.places.items row) t → IsSize self.old.alphabet t result }
        ensures most { result ≤ 1024 }
        ensures alphabet { self.new.alphabet ≡ self.old.alphabet }
        ensures rows { self.new.rows ≡ self.old.rows }
        ensures places { self.new.places ≡ self.old.places }
        ensures size_room { vec_capacity self.old.sizes ≤ vec_capacity self.new.sizes }
    {
        let known = self.sizes[row as usize];
        if known > 0 {
            return known;
        }
        let size = self.count(scratch, row);
        self.sizes[row as usize] = size;
        size
    }

    // Counts the sections of the element of a row, up to acting alike.
    fn count(&self, scratch: &mut Scratch, row: u32) -> u16
        requires { row < length self.now.rows.items }
        ensures size { (t : Term) → IsAlike (element_at self.now.rows.items self.now.places.items row) t → IsSize self.now.alphabet t result }
        ensures most { result ≤ 1024 }
    {
        let place = self.places[row as usize];
        let block = self.block(row);
        count_states(scratch, self.alphabet, block, (row - place.start) as u16)
    }

    /// The machine of the element of a row, with its rows in the order of the canonical numbering. The only error is want
    /// of memory.
    pub fn machine(
        &self,
        alloc: Global,
        scratch: &mut Scratch,
        row: u32,
    ) -> Result<Minimal, NoMemory>
        requires { row < length self.now.rows.items }
        ensures alphabet { IfOk result (λ m. m.alphabet ≡ self.now.alphabet) }
        ensures canonical { IfOk result (λ m. (t : Term) → IsAlike (element_at self.now.rows.items self.now.places.items row) t → IsCanonical self.now.alphabet t (states_of m.rows)) }
    {
        let place = self.places[row as usize];
        let block = self.block(row);
        canonical_machine(
            alloc,
            scratch,
            self.alphabet,
            block,
            (row - place.start) as u16,
        )
    }

    /// The permutation that a row puts out.
    pub fn perm(&self, row: u32) -> Perm
        requires { row < length self.now.rows.items }
        ensures value { result ≡ (state_at (states_of (block self.now.rows.items (place_at self.now.places.items row))) (row - (place_at self.now.places.items row).start)).perm }
    {
        let place = self.places[row as usize];
        perm_of(self.block(row), (row - place.start) as usize)
    }

    /// The row that a row leads to at a letter.
    pub fn next(&self, row: u32, x: u8) -> u32
        requires row { row < length self.now.rows.items }
        requires letter { IsLetter self.now.alphabet x }
        ensures value { result ≡ next_at self.now.rows.items self.now.places.items row x }
        ensures row { result < length self.now.rows.items }
    {
        let place = self.places[row as usize];
        let next = next_of(
            self.alphabet,
            self.block(row),
            (row - place.start) as usize,
            x,
        );
        place.start + next as u32
    }

    /// Puts the rows of `m`, which is over the alphabet, behind the others as a block. There is room for them.
    pub fn push(&mut self, m: &Minimal)
        requires alphabet { m.now.alphabet ≡ self.old.alphabet }
        requires few { length self.old.rows.items + length m.now.rows < 2 ^ 32 }
        requires row_room { length self.old.rows.items + length m.now.rows ≤ vec_capacity self.old.rows }
        requires place_room { length self.old.rows.items + length m.now.rows ≤ vec_capacity self.old.places }
        requires size_room { length self.old.rows.items + length m.now.rows ≤ vec_capacity self.old.sizes }
        ensures alphabet { self.new.alphabet ≡ self.old.alphabet }
        ensures rows { self.new.rows.items ≡ self.old.rows.items ++ m.now.rows }
        ensures places { self.new.places.items ≡ self.old.places.items ++ replicate (length m.now.rows) (record { start = length self.old.rows.items; size = length m.now.rows }) }
        ensures row_room { vec_capacity self.old.rows ≤ vec_capacity self.new.rows }
        ensures place_room { vec_capacity self.old.places ≤ vec_capacity self.new.places }
        ensures size_room { vec_capacity self.old.sizes ≤ vec_capacity self.new.sizes }
        ensures minimal { IsMinimal m.now.alphabet m.now.rows }
    {
        let size = m.size();
        let place = Place {
            start: self.rows.len() as u32,
            size: size as u32,
        };
        let _ = self.rows.extend_from_slice(m.machine().rows());
        push_places(&mut self.places, place);
        push_sizes(&mut self.sizes, size);
    }
}

// What a row puts out.
fn perm_of(rows: &[Row], s: usize) -> Perm
    requires { s < length rows.now }
    ensures { result ≡ (state_at (states_of rows.now) s).perm }
{
    rows[s].perm
}

// The next row of a row at a letter.
fn next_of(a: Alphabet, rows: &[Row], s: usize, x: u8) -> u16
    requires machine { IsMachine a rows.now }
    requires row { s < length rows.now }
    requires letter { IsLetter a x }
    ensures row { result < length rows.now }
    ensures value { result ≡ next_state (states_of rows.now) s x }
{
    let row = rows[s];
    row.next[x as usize - 1]
}

// Notes the place of each row of a new block.
fn push_places(places: &mut Vec<Place>, place: Place)
    requires { length places.old.items + place.size ≤ vec_capacity places.old }
    ensures places { places.new.items ≡ places.old.items ++ replicate place.size place }
    ensures room { vec_capacity places.old ≤ vec_capacity places.new }
{
    for _ in 0..place.size {
        let _ = places.push(place);
    }
}

// Notes how many sections the first row of a new block has: it leads to all rows. Those of the others are not counted yet.
fn push_sizes(sizes: &mut Vec<u16>, size: u16)
    requires some { 1 ≤ size }
    requires room { length sizes.old.items + size ≤ vec_capacity sizes.old }
    ensures sizes { sizes.new.items ≡ slice_set (sizes.old.items ++ replicate size 0) (length sizes.old.items) size }
    ensures room { vec_capacity sizes.old ≤ vec_capacity sizes.new }
{
    let start = sizes.len();
    let _ = sizes.resize(start + size as usize, 0);
    sizes[start] = size;
}
