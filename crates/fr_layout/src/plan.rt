//! The sizes of a table, and the numbers of its words.
ghost use Rattle.std.specs.Prelude.{◌≡◌, ◌+◌, ◌*◌, ◌^◌, ◌<◌, ◌≤◌};
ghost use Rattle.fr_layout.specs.Places.{IsPlan, field_at, link_at, cell_at, cache_at, word_count, cache_size};

use fr_alphabet::Alphabet;

/// The sizes of a table.
#[derive(Clone, Copy, PartialEq, Eq, Debug, Drop)]
pub struct Plan {
    /// The number of letters, 2 to 8.
    pub letters: u8,
    /// The number of rows, 1 to 1,048,576.
    pub capacity: u32,
    /// The number of cells is two to this power.
    pub bits: u32,
    /// The number of cells, the least power of two that is twice the capacity or more.
    pub cells: u32,
}

/// Rows that were claimed at once, one behind the other. Together they are an automaton.
#[derive(Clone, Copy, PartialEq, Eq, Debug, Drop)]
pub struct Block {
    /// The first row.
    pub start: u32,
    /// How many rows, 1 to 1,024.
    pub size: u16,
}

impl Plan {
    /// The sizes of a table of `capacity` rows over the alphabet. The capacity is 1 to 1,048,576.
    pub fn new(a: Alphabet, capacity: u32) -> Plan
        requires capacity { (1 ≤ capacity) × (capacity ≤ 1048576) }
        ensures plan { IsPlan result }
        ensures sizes { (result.letters ≡ a) × (result.capacity ≡ capacity) }
    {
        let bits = bits_for(capacity);
        Plan {
            letters: a.letters(),
            capacity,
            bits,
            cells: 1 << bits,
        }
    }

    /// The number of words of the whole table, those of the cache among them, at most 12,648,449.
    pub fn words(&self) -> usize
        requires plan { IsPlan self.now }
        ensures value { result ≡ word_count self.now + cache_size }
    {
        self.cache_start() + 65536
    }

    /// The word of a row's field: field 0 has the row's permutation, and field x, up to the number
    /// of letters, its next row at the letter x.
    pub fn field_word(&self, row: u32, field: u8) -> usize
        requires plan { IsPlan self.now }
        requires place { (row < self.now.capacity) × (field ≤ self.now.letters) }
        ensures value { result ≡ field_at self.now row field }
    {
        1 + (row as usize * (self.letters as usize + 1) + field as usize)
    }

    /// The word of a row's link.
    pub fn link_word(&self, row: u32) -> usize
        requires plan { IsPlan self.now }
        requires place { row < self.now.capacity }
        ensures value { result ≡ link_at self.now row }
    {
        1 + (self.field_count() + row as usize)
    }

    /// The word of a cell.
    pub fn cell_word(&self, cell: u32) -> usize
        requires plan { IsPlan self.now }
        requires place { cell < self.now.cells }
        ensures value { result ≡ cell_at self.now cell }
    {
        1 + (self.field_count() + (self.capacity as usize + cell as usize))
    }

    /// The word of a place of the cache.
    pub fn cache_word(&self, place: u16) -> usize
        requires plan { IsPlan self.now }
        ensures value { result ≡ cache_at self.now place }
    {
        self.cache_start() + place as usize
    }

    // The number of words that come before the cache.
    fn cache_start(&self) -> usize
        requires { IsPlan self.now }
        ensures { result ≡ word_count self.now }
    {
        1 + (self.field_count() + (self.capacity as usize + self.cells as usize))
    }

    // The number of fields of all rows.
    fn field_count(&self) -> usize
        requires { IsPlan self.now }
        ensures { result ≡ self.now.capacity * (self.now.letters + 1) }
    {
        self.capacity as usize * (self.letters as usize + 1)
    }
}

// The least number of bits that number at least twice so many cells.
fn bits_for(room: u32) -> u32
    requires least { 1 ≤ room }
    requires limit { room ≤ 1048576 }
    ensures half { 2 * room ≤ 2 ^ result }
    ensures least { 2 ^ result < 4 * room }
    ensures most { result ≤ 21 }
{
    (2 * room - 1).ilog2() + 1
}
