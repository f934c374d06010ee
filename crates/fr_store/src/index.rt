//! Handles, and a hash table in which they are found by their codes. A code is compared with the rows themselves.

ghost use Rattle.std.specs.Prelude.{ℕ, ◌≡◌, ◌+◌, ◌-◌, ◌*◌, ◌<◌, ◌≤◌, ◌^◌, [], ◌∷◌, ◌++◌, IfOk, MatchResult, length, take, replicate, slice_index, slice_set, vec_len, vec_capacity};
ghost use Rattle.fr_model.specs.Words.{IsLetter};
ghost use Rattle.fr_store.specs.Coded.{codes_of};
ghost use Rattle.fr_store.specs.Entered.{IsEntered};
ghost use Rattle.fr_store.specs.Index.{AreDistinct, IsFound, IsGap, IsTable, IsIndex, IsGiven, AreHints, IsLinked, AreFull, IsFirstEmpty};

use crate::blocks::Blocks;
use fr_alphabet::NoMemory;
use fr_canon::{Code, Scratch, home};
use fr_machine::Minimal;
use std::alloc::Global;

// A table begins with 2^FIRST_BITS cells where it may have so many.
const FIRST_BITS: u32 = 11;

// It is widened to 2^WIDER_BITS times as many.
const WIDER_BITS: u32 = 4;

/// Where codes are made and compared.
#[derive(Debug, Drop)]
pub(crate) struct Desk {
    pub scratch: Scratch,
    pub wanted: Code,
    // For each row of a block that is entered 0, or a handle that it is known to have and one more.
    pub hints: Vec<u32>,
    ghost hint_room: { length hints.items ≡ 1024 },
}

impl Desk {
    /// Takes the room. The only error is want of memory.
    pub fn new(alloc: Global) -> Result<Desk, NoMemory> {
        Ok(Desk {
            scratch: Scratch::new(alloc)?,
            wanted: Code::new(alloc)?,
            hints: vec![in alloc; 0u32; 1024]?,
        })
    }

    // No row is known to have a handle.
    fn forget(&mut self)
        ensures { (k : ℕ) → slice_index self.new.hints.items k ≡ 0 }
    {
        self.hints.fill(0);
    }
}

/// The handles of a store on blocks of rows. All memory is taken when it is made; the hash table begins small, and is widened
/// in place. This project's own.
#[derive(Debug, Drop)]
pub(crate) struct Index {
    // For each row the handle of its element.
    pub links: Vec<u32>,
    // The handles, in the order in which they were given.
    pub handles: Vec<u32>,
    // A hash table of handles, each with one more: a walk from the home of a code goes upwards to the first 0.
    pub cells: Vec<u32>,
    // There are 2^bits cells.
    bits: u32,
    // There is room for 2^most_bits cells.
    pub most_bits: u32,
    ghost power: { length cells.items ≡ 2 ^ bits },
    ghost some: { 0 < length cells.items },
    ghost within: { bits ≤ most_bits },
    ghost most: { most_bits ≤ 21 },
    ghost room: { 2 ^ most_bits ≤ vec_capacity cells },
}

impl Index {
    /// No handles, with room for so many rows and at least twice as many cells, of which few are there. The only error is want
    /// of memory.
    pub fn new(alloc: Global, room: u32) -> Result<Index, NoMemory>
        requires least { 1 ≤ room }
        requires limit { room ≤ 1048576 }
        ensures links { IfOk result (λ i. i.links.items ≡ []) }
        ensures handles { IfOk result (λ i. i.handles.items ≡ []) }
        ensures cells { IfOk result (λ i. (c : ℕ) → slice_index i.cells.items c ≡ 0) }
        ensures half { IfOk result (λ i. 2 * room ≤ 2 ^ i.most_bits) }
        ensures link_room { IfOk result (λ i. room ≤ vec_capacity i.links) }
        ensures handle_room { IfOk result (λ i. room ≤ vec_capacity i.handles) }
    {
        let most_bits = bits_for(room);
        let bits = most_bits.min(FIRST_BITS);
        let mut cells = Vec::with_capacity(alloc, 2usize.pow(most_bits))?;
        push_empty(&mut cells, 2usize.pow(bits));
        Ok(Index {
            links: Vec::with_capacity(alloc, room as usize)?,
            handles: Vec::with_capacity(alloc, room as usize)?,
            cells,
            bits,
            most_bits,
        })
    }

    // To how many bits the table is widened where it is too small for so many rows: to 16 times as many cells where there is
    // room, since each time all handles are coded again.
    fn wider(&self, rows: u32) -> u32
        requires least { 1 ≤ rows }
        requires room { 2 * rows ≤ 2 ^ self.now.most_bits }
        ensures half { 2 * rows ≤ 2 ^ result }
        ensures most { result ≤ self.now.most_bits }
    {
        let few = bits_for(rows);
        few.max(self.bits + WIDER_BITS).min(self.most_bits)
    }

    // Empties the table, which has 2^bits cells from now on. There is room for them.
    fn widen(&mut self, bits: u32)
        requires { bits ≤ self.old.most_bits }
        ensures empty { (c : ℕ) → slice_index self.new.cells.items c ≡ 0 }
        ensures cells { length self.new.cells.items ≡ 2 ^ bits }
        ensures most_bits { self.new.most_bits ≡ self.old.most_bits }
        ensures handles { self.new.handles ≡ self.old.handles }
        ensures links { self.new.links ≡ self.old.links }
    {
        self.cells.clear();
        push_empty(&mut self.cells, 2usize.pow(bits));
        self.bits = bits;
    }

    // The first cell that is empty on a walk upwards; behind the last cell comes the first.
    fn first_empty(&self, start: usize) -> usize
        requires start { start < length self.now.cells.items }
        requires some { ¬ AreFull self.now.cells.items }
        ensures { IsFirstEmpty self.now.cells.items start result }
    {
        let cells = self.cells.len();
        for steps in 0..cells {
            let cell = (start + steps) % cells;
            if self.cells[cell] == 0 {
                return cell;
            }
        }
        unreachable!()
    }

    // Enters handle k, counted from 0, in the table, where those before it stand.
    fn reenter(&mut self, blocks: &Blocks, desk: &mut Desk, k: usize)
        requires distinct { AreDistinct (codes_of blocks.now) (length blocks.now.rows.items) self.old.handles.items }
        requires table { IsTable (codes_of blocks.now) (take k self.old.handles.items) self.old.cells.items }
        requires few { length blocks.now.rows.items < length self.old.cells.items }
        requires next { k < length self.old.handles.items }
        ensures table { IsTable (codes_of blocks.now) (take (k + 1) self.old.handles.items) self.new.cells.items }
        ensures cells { length self.new.cells.items ≡ length self.old.cells.items }
        ensures most_bits { self.new.most_bits ≡ self.old.most_bits }
        ensures handles { self.new.handles ≡ self.old.handles }
        ensures links { self.new.links ≡ self.old.links }
    {
        let handle = self.handles[k];
        blocks.code(&mut desk.scratch, handle, &mut desk.wanted);
        let start = home(&desk.wanted, self.cells.len() as u32) as usize;
        let cell = self.first_empty(start);
        self.cells[cell] = handle + 1;
    }

    // Enters all handles in a table that is empty.
    fn reenter_all(&mut self, blocks: &Blocks, desk: &mut Desk)
        requires distinct { AreDistinct (codes_of blocks.now) (length blocks.now.rows.items) self.old.handles.items }
        requires empty { (c : ℕ) → slice_index self.old.cells.items c ≡ 0 }
        requires few { length blocks.now.rows.items < length self.old.cells.items }
        ensures table { IsTable (codes_of blocks.now) self.old.handles.items self.new.cells.items }
        ensures cells { length self.new.cells.items ≡ length self.old.cells.items }
        ensures most_bits { self.new.most_bits ≡ self.old.most_bits }
        ensures handles { self.new.handles ≡ self.old.handles }
        ensures links { self.new.links ≡ self.old.links }
    {
        for k in 0..self.handles.len() {
            self.reenter(blocks, desk, k);
        }
    }

    /// Sees to it that there are at least twice as many cells as `rows`, which are those that are there and some to come.
    pub fn make_room(&mut self, blocks: &Blocks, desk: &mut Desk, rows: u32)
        requires distinct { AreDistinct (codes_of blocks.now) (length blocks.now.rows.items) self.old.handles.items }
        requires table { IsTable (codes_of blocks.now) self.old.handles.items self.old.cells.items }
        requires more { length blocks.now.rows.items < rows }
        requires room { 2 * rows ≤ 2 ^ self.old.most_bits }
        ensures table { IsTable (codes_of blocks.now) self.old.handles.items self.new.cells.items }
        ensures half { 2 * rows ≤ length self.new.cells.items }
        ensures most_bits { self.new.most_bits ≡ self.old.most_bits }
        ensures handles { self.new.handles ≡ self.old.handles }
        ensures links { self.new.links ≡ self.old.links }
    {
        if 2 * rows as usize <= self.cells.len() {
            return;
        }
        self.widen(self.wider(rows));
        self.reenter_all(blocks, desk);
    }

    /// Looks for the wanted code. The answer is the handle that has it, or the cell where it would stand.
    pub fn search(&self, blocks: &Blocks, desk: &mut Desk) -> Result<u32, usize>
        requires distinct { AreDistinct (codes_of blocks.now) (length blocks.now.rows.items) self.now.handles.items }
        requires table { IsTable (codes_of blocks.now) self.now.handles.items self.now.cells.items }
        requires room { length blocks.now.rows.items < length self.now.cells.items }
        ensures found { MatchResult result (λ n. IsFound (codes_of blocks.now) self.now.handles.items desk.old.wanted n) (λ cell. IsGap (codes_of blocks.now) self.now.cells.items desk.old.wanted cell) }
        ensures wanted { desk.new.wanted ≡ desk.old.wanted }
        ensures hints { desk.new.hints ≡ desk.old.hints }
    {
        let cells = self.cells.len();
        let start = home(&desk.wanted, cells as u32) as usize;
        for steps in 0..cells {
            let cell = (start + steps) % cells;
            let held = self.cells[cell];
            if held == 0 {
                return Err(cell);
            }
            if blocks.has_code(&mut desk.scratch, held - 1, &desk.wanted) {
                return Ok(held - 1);
            }
        }
        unreachable!()
    }

    // Makes a row a handle, which stands in a cell from now on. There is room for it.
    fn put(&mut self, row: u32, cell: usize)
        requires row { row < 2 ^ 32 - 1 }
        requires cell { cell < length self.old.cells.items }
        requires room { length self.old.handles.items < vec_capacity self.old.handles }
        ensures handles { self.new.handles.items ≡ self.old.handles.items ++ row ∷ [] }
        ensures cells { self.new.cells.items ≡ slice_set self.old.cells.items cell (row + 1) }
        ensures most_bits { self.new.most_bits ≡ self.old.most_bits }
        ensures links { self.new.links ≡ self.old.links }
        ensures room { vec_capacity self.old.handles ≤ vec_capacity self.new.handles }
    {
        let _ = self.handles.push(row);
        self.cells[cell] = row + 1;
    }

    // The handle of a row: the one that has its code, or the row itself.
    fn give(&mut self, blocks: &Blocks, desk: &mut Desk, row: u32) -> u32
        requires distinct { AreDistinct (codes_of blocks.now) (length blocks.now.rows.items) self.old.handles.items }
        requires table { IsTable (codes_of blocks.now) self.old.handles.items self.old.cells.items }
        requires row { row < length blocks.now.rows.items }
        requires few { length blocks.now.rows.items < length self.old.cells.items }
        requires room { length self.old.handles.items < vec_capacity self.old.handles }
        ensures given { IsGiven (codes_of blocks.now) (length blocks.now.rows.items) row self.old.handles.items self.new.handles.items self.new.cells.items result }
        ensures hints { desk.new.hints ≡ desk.old.hints }
        ensures cells { length self.new.cells.items ≡ length self.old.cells.items }
        ensures most_bits { self.new.most_bits ≡ self.old.most_bits }
        ensures links { self.new.links ≡ self.old.links }
        ensures room { vec_capacity self.old.handles ≤ vec_capacity self.new.handles }
    {
        blocks.code(&mut desk.scratch, row, &mut desk.wanted);
        match self.search(blocks, desk) {
            Ok(handle) => handle,
            Err(cell) => {
                self.put(row, cell);
                row
            }
        }
    }

    // The handle of a row, which is not looked for where it is known.
    fn give_known(&mut self, blocks: &Blocks, desk: &mut Desk, start: u32, row: u32) -> u32
        requires distinct { AreDistinct (codes_of blocks.now) (length blocks.now.rows.items) self.old.handles.items }
        requires table { IsTable (codes_of blocks.now) self.old.handles.items self.old.cells.items }
        requires hints { AreHints (codes_of blocks.now) self.old.handles.items start desk.old.hints.items }
        requires start { start ≤ row }
        requires row { row < length blocks.now.rows.items }
        requires block { length blocks.now.rows.items ≤ start + 1024 }
        requires few { length blocks.now.rows.items < length self.old.cells.items }
        requires room { length self.old.handles.items < vec_capacity self.old.handles }
        ensures given { IsGiven (codes_of blocks.now) (length blocks.now.rows.items) row self.old.handles.items self.new.handles.items self.new.cells.items result }
        ensures hints { desk.new.hints ≡ desk.old.hints }
        ensures cells { length self.new.cells.items ≡ length self.old.cells.items }
        ensures most_bits { self.new.most_bits ≡ self.old.most_bits }
        ensures links { self.new.links ≡ self.old.links }
        ensures room { vec_capacity self.old.handles ≤ vec_capacity self.new.handles }
    {
        let hint = desk.hints[(row - start) as usize];
        if hint > 0 {
            return hint - 1;
        }
        self.give(blocks, desk, row)
    }

    // Notes the handle of the next row of a row at a letter, where the row has the handle of a row that is entered.
    fn hint(&self, blocks: &Blocks, hints: &mut Vec<u32>, start: u32, row: u32, handle: u32, x: u8)
        requires index { IsIndex (codes_of blocks.now) (length blocks.now.rows.items) self.now.handles.items self.now.links.items }
        requires hints { AreHints (codes_of blocks.now) self.now.handles.items start hints.old.items }
        requires row { row < length blocks.now.rows.items }
        requires handle { handle < length blocks.now.rows.items }
        requires same { codes_of blocks.now handle ≡ codes_of blocks.now row }
        requires block { length blocks.now.rows.items ≤ start + 1024 }
        requires room { length hints.old.items ≡ 1024 }
        requires letter { IsLetter blocks.now.alphabet x }
        ensures hints { AreHints (codes_of blocks.now) self.now.handles.items start hints.new.items }
        ensures room { length hints.new.items ≡ 1024 }
    {
        let known = blocks.next(handle, x) as usize;
        let next = blocks.next(row, x);
        if known < self.links.len() && next >= start {
            hints[(next - start) as usize] = self.links[known] + 1;
        }
    }

    // Notes the handles of the next rows of a row that has the handle of a row that is entered.
    fn hint_all(&self, blocks: &Blocks, hints: &mut Vec<u32>, start: u32, row: u32, handle: u32)
        requires index { IsIndex (codes_of blocks.now) (length blocks.now.rows.items) self.now.handles.items self.now.links.items }
        requires hints { AreHints (codes_of blocks.now) self.now.handles.items start hints.old.items }
        requires row { row < length blocks.now.rows.items }
        requires handle { handle < length blocks.now.rows.items }
        requires same { codes_of blocks.now handle ≡ codes_of blocks.now row }
        requires block { length blocks.now.rows.items ≤ start + 1024 }
        requires room { length hints.old.items ≡ 1024 }
        ensures hints { AreHints (codes_of blocks.now) self.now.handles.items start hints.new.items }
        ensures room { length hints.new.items ≡ 1024 }
    {
        for x in 0..blocks.alphabet.letters() {
            self.hint(blocks, hints, start, row, handle, x + 1);
        }
    }

    // Gives the next row its handle.
    fn link(&mut self, blocks: &Blocks, desk: &mut Desk, start: u32)
        requires index { IsIndex (codes_of blocks.now) (length blocks.now.rows.items) self.old.handles.items self.old.links.items }
        requires table { IsTable (codes_of blocks.now) self.old.handles.items self.old.cells.items }
        requires hints { AreHints (codes_of blocks.now) self.old.handles.items start desk.old.hints.items }
        requires start { start ≤ length self.old.links.items }
        requires next { length self.old.links.items < length blocks.now.rows.items }
        requires block { length blocks.now.rows.items ≤ start + 1024 }
        requires few { length blocks.now.rows.items < length self.old.cells.items }
        requires handle_room { length self.old.handles.items < vec_capacity self.old.handles }
        requires link_room { length self.old.links.items < vec_capacity self.old.links }
        ensures linked { IsLinked (codes_of blocks.now) (length blocks.now.rows.items) 1 self.old.handles.items self.old.links.items self.new.handles.items self.new.links.items self.new.cells.items }
        ensures hints { AreHints (codes_of blocks.now) self.new.handles.items start desk.new.hints.items }
        ensures cells { length self.new.cells.items ≡ length self.old.cells.items }
        ensures most_bits { self.new.most_bits ≡ self.old.most_bits }
        ensures handle_room { vec_capacity self.old.handles ≤ vec_capacity self.new.handles }
        ensures link_room { vec_capacity self.old.links ≤ vec_capacity self.new.links }
    {
        let row = self.links.len() as u32;
        let handle = self.give_known(blocks, desk, start, row);
        let _ = self.links.push(handle);
        if handle != row {
            self.hint_all(blocks, &mut desk.hints, start, row, handle);
        }
    }

    // Gives the next rows their handles.
    fn link_all(&mut self, blocks: &Blocks, desk: &mut Desk, start: u32, count: u16)
        requires index { IsIndex (codes_of blocks.now) (length blocks.now.rows.items) self.old.handles.items self.old.links.items }
        requires table { IsTable (codes_of blocks.now) self.old.handles.items self.old.cells.items }
        requires hints { AreHints (codes_of blocks.now) self.old.handles.items start desk.old.hints.items }
        requires start { start ≡ length self.old.links.items }
        requires block { count ≤ 1024 }
        requires all { length self.old.links.items + count ≡ length blocks.now.rows.items }
        requires few { length blocks.now.rows.items < length self.old.cells.items }
        requires handle_room { length blocks.now.rows.items ≤ vec_capacity self.old.handles }
        requires link_room { length blocks.now.rows.items ≤ vec_capacity self.old.links }
        ensures linked { IsLinked (codes_of blocks.now) (length blocks.now.rows.items) count self.old.handles.items self.old.links.items self.new.handles.items self.new.links.items self.new.cells.items }
        ensures cells { length self.new.cells.items ≡ length self.old.cells.items }
        ensures most_bits { self.new.most_bits ≡ self.old.most_bits }
        ensures handle_room { vec_capacity self.old.handles ≤ vec_capacity self.new.handles }
        ensures link_room { vec_capacity self.old.links ≤ vec_capacity self.new.links }
    {
        for _ in 0..count {
            self.link(blocks, desk, start);
        }
    }

    /// Puts the rows of `m` into the blocks, and gives them their handles. The answer is the handle of its element.
    pub fn enter(&mut self, blocks: &mut Blocks, desk: &mut Desk, m: &Minimal) -> u32
        requires alphabet { m.now.alphabet ≡ blocks.old.alphabet }
        requires index { IsIndex (codes_of blocks.old) (length blocks.old.rows.items) self.old.handles.items self.old.links.items }
        requires table { IsTable (codes_of blocks.old) self.old.handles.items self.old.cells.items }
        requires whole { length self.old.links.items ≡ length blocks.old.rows.items }
        requires few { length blocks.old.rows.items + length m.now.rows < length self.old.cells.items }
        requires row_room { length blocks.old.rows.items + length m.now.rows ≤ vec_capacity blocks.old.rows }
        requires place_room { length blocks.old.rows.items + length m.now.rows ≤ vec_capacity blocks.old.places }
        requires size_room { length blocks.old.rows.items + length m.now.rows ≤ vec_capacity blocks.old.sizes }
        requires handle_room { length blocks.old.rows.items + length m.now.rows ≤ vec_capacity self.old.handles }
        requires link_room { length blocks.old.rows.items + length m.now.rows ≤ vec_capacity self.old.links }
        ensures alphabet { blocks.new.alphabet ≡ blocks.old.alphabet }
        ensures entered { IsEntered blocks.old.alphabet blocks.old.rows.items blocks.old.places.items self.old.handles.items m.now.rows blocks.new.rows.items blocks.new.places.items self.new.handles.items self.new.links.items self.new.cells.items result }
        ensures cells { length self.new.cells.items ≡ length self.old.cells.items }
        ensures most_bits { self.new.most_bits ≡ self.old.most_bits }
        ensures row_room { vec_capacity blocks.old.rows ≤ vec_capacity blocks.new.rows }
        ensures place_room { vec_capacity blocks.old.places ≤ vec_capacity blocks.new.places }
        ensures size_room { vec_capacity blocks.old.sizes ≤ vec_capacity blocks.new.sizes }
        ensures handle_room { vec_capacity self.old.handles ≤ vec_capacity self.new.handles }
        ensures link_room { vec_capacity self.old.links ≤ vec_capacity self.new.links }
    {
        let start = blocks.rows.len();
        blocks.push(m);
        desk.forget();
        self.link_all(blocks, desk, start as u32, m.size());
        self.links[start]
    }
}

// How many bits number at least twice so many cells.
fn bits_for(room: u32) -> u32
    requires least { 1 ≤ room }
    requires limit { room ≤ 1048576 }
    ensures half { 2 * room ≤ 2 ^ result }
    ensures most { result ≤ 21 }
{
    (2 * room - 1).ilog2() + 1
}

// Appends so many empty cells, for which there is room.
fn push_empty(cells: &mut Vec<u32>, count: usize)
    requires { length cells.old.items + count ≤ vec_capacity cells.old }
    ensures cells { cells.new.items ≡ cells.old.items ++ replicate count 0 }
    ensures room { vec_capacity cells.old ≤ vec_capacity cells.new }
{
    for _ in 0..count {
        let _ = cells.push(0);
    }
}
