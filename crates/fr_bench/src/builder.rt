//! Rows that are put together to a machine.

ghost use Rattle.std.specs.Prelude.{◌<◌};

use crate::answer::Stop;
use fr_alphabet::{Alphabet, Perm};
use fr_machine::{Machine, Row};
use std::alloc::Global;

/// The rows so far, and what they may put out.
#[derive(Drop)]
pub struct Builder {
    alphabet: Alphabet,
    stay: Perm,
    swap: Perm,
    rows: Vec<Row>,
}

impl Builder {
    /// No rows, over `letters` letters, 2 to 8; else the answer is `Usage`.
    pub fn new(alloc: Global, letters: u8) -> Result<Builder, Stop> {
        let alphabet = Alphabet::new(letters).ok_or(Stop::Usage)?;
        let swap = Perm::of_rank(alphabet, 1).ok_or(Stop::Usage)?;
        Ok(Builder {
            alphabet,
            stay: Perm::identity(alphabet),
            swap,
            rows: Vec::new(alloc),
        })
    }

    /// One row more, which swaps the last two letters or none.
    pub fn push(&mut self, swaps: bool, next: [u16; 8]) -> Result<(), Stop> {
        let perm = if swaps { self.swap } else { self.stay };
        self.rows.push(Row { perm, next })?;
        Ok(())
    }

    /// One row more, which permutes the letters as the permutation of this rank; `Usage` where there is none.
    pub fn push_ranked(&mut self, rank: u32, next: [u16; 8]) -> Result<(), Stop> {
        let perm = Perm::of_rank(self.alphabet, rank).ok_or(Stop::Usage)?;
        self.rows.push(Row { perm, next })?;
        Ok(())
    }

    /// The machine of the rows; `Usage` where they are none.
    pub fn finish(self) -> Result<Machine, Stop> {
        Machine::new(self.alphabet, self.rows).ok_or(Stop::Usage)
    }
}

/// The next rows of a row over two letters. Both are below 65,536.
pub fn nexts(first: u32, second: u32) -> [u16; 8]
    requires first { first < 65536 }
    requires second { second < 65536 }
{
    [first as u16, second as u16, 0, 0, 0, 0, 0, 0]
}
