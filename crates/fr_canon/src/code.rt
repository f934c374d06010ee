//! Codes: lists of numbers that tell elements apart, and the hash by which a table finds them.

ghost use Rattle.std.specs.Prelude.{ℕ, ◌≡◌, ◌<◌, ◌≤◌, ◌^◌, [], ◌∷◌, ◌++◌, IfOk, length};
ghost use Rattle.fr_canon.specs.Codes.{home_of};

use fr_alphabet::NoMemory;
use std::alloc::Global;
use std::marker::Model;

/// The code of an element, or an empty list: for each state of its canonical numbering the rank of its permutation and
/// the numbers of its next states, from 1. It has at most 9,216 numbers, as for 1,024 states over 8 letters, and room for
/// all of them is taken once.
#[derive(Debug, Drop)]
pub struct Code {
    numbers: Vec<u32>,
}

// Clauses see the list.
impl Model for Code {
    ghost use Rattle.std.specs.Prelude.{ℕ, ◌≤◌, List, length, vec_capacity};

    ghost Value = { List ℕ };

    ghost view = { λ c. c.numbers.items };

    ghost invariant = { λ c. (length c.numbers.items ≤ 9216) × (9216 ≤ vec_capacity c.numbers) };
}

impl Code {
    /// The empty list. The only error is want of memory.
    pub fn new(alloc: Global) -> Result<Code, NoMemory>
        ensures { IfOk result (λ c. c ≡ []) }
    {
        Ok(Code {
            numbers: Vec::with_capacity(alloc, 9216)?,
        })
    }

    /// The numbers in order, at most 9,216.
    pub fn numbers(&self) -> &[u32]
        ensures value { result.now ≡ self.now }
        ensures most { length self.now ≤ 9216 }
    {
        &self.numbers
    }

    // No numbers, from now on.
    pub(crate) fn clear(&mut self)
        ensures { self.new ≡ [] }
    {
        self.numbers.clear();
    }

    // One number more.
    pub(crate) fn push(&mut self, number: u32)
        requires { length self.old < 9216 }
        ensures { self.new ≡ self.old ++ number ∷ [] }
    {
        self.numbers.push_reserved(number);
    }
}

/// The cell at which a search for the code begins, in a table of so many cells, a power of two up to 2,097,152. The hash
/// begins with 7; each number of the code in turn makes it 1,000,003 times itself and the number more, modulo 2^32. The
/// cell is its 128th part, rounded down, modulo the number of cells. This takes no memory.
pub fn home(code: &Code, cells: u32) -> u32
    requires power { (k : ℕ) × (k ≤ 21) × (cells ≡ 2 ^ k) }
    ensures value { result ≡ home_of code.now cells }
    ensures cell { result < cells }
{
    let mut hash = 7u64;
    for number in code.numbers() {
        hash = (hash * 1000003 + *number as u64) % 4294967296;
    }
    ((hash / 128) % cells as u64) as u32
}
