//! The machine of names: a row for each of their section words.

ghost use Rattle.std.specs.Prelude.{◌≡◌, ◌+◌, ◌<◌, ◌≤◌, [], ℕ, IfOk, IfSome, MatchOption, length, slice_index_or};
ghost use Rattle.fr_block.specs.Closures.{AreClosuresPassed, AreWords, IsRowMade, IsRowPassed};
ghost use Rattle.fr_block.specs.Elements.{StandsForNames};

use crate::block::{Block, Factor};
use crate::products::section;
use crate::words::Words;
use fr_alphabet::{NoMemory, Perm};
use fr_machine::{Machine, Row};
use std::alloc::Global;

/// The machine of the section words of so many names from the first on, by a walk by breadth: row i acts as the name that
/// stands i places behind the first. The answer is `None` only where these names together have more than 8,192 section
/// words, or one of more than 4,096 members. The only error is want of memory.
pub fn closure(
    alloc: Global,
    block: &Block,
    first: u16,
    count: u16,
) -> Result<Option<Machine>, NoMemory>
    requires some { 0 < count }
    requires names { first + count ≤ length block.now.system }
    ensures alphabet { IfOk result (λ o. IfSome o (λ m. m.alphabet ≡ block.now.alphabet)) }
    ensures names { IfOk result (λ o. MatchOption o (AreClosuresPassed block.now.alphabet block.now.system first count) (λ m. StandsForNames block.now.alphabet block.now.system first count m.rows)) }
{
    let a = block.alphabet();
    let mut words = Words::of_names(alloc, first, count)?;
    let mut rows = Vec::new(alloc);

    // Each section is written here, and copied where it is new.
    let mut word = Vec::new(alloc);
    while rows.len() < words.count() {
        match row_of(alloc, block, &mut words, rows.len() as u16, &mut word)? {
            Some(row) => rows.push(row)?,
            None => return Ok(None),
        }
    }
    Ok(Some(Machine::from_rows(a, rows)))
}

// The row of the word of a number. The answer is `None` only where one of its sections passes the limits.
fn row_of(
    alloc: Global,
    block: &Block,
    words: &mut Words,
    number: u16,
    word: &mut Vec<Factor>,
) -> Result<Option<Row>, NoMemory>
    requires number { number < length words.old }
    requires words { AreWords block.now.system words.old }
    ensures { IfOk result (λ o. MatchOption o (IsRowPassed block.now.alphabet block.now.system words.old (slice_index_or words.old number [])) (λ r. IsRowMade block.now.alphabet block.now.system words.old words.new (slice_index_or words.old number []) r)) }
{
    let a = block.alphabet();
    let mut next = [0; 8];
    let mut images = [0; 8];
    for x in 0..a.letters() {
        let found = section(block, words.word(number), x + 1, word)?;
        images[x as usize] = found.image;
        match words.number(alloc, &word[..found.count])? {
            Some(target) => next[x as usize] = target,
            None => return Ok(None),
        }
    }
    let perm = Perm::of_images(a, &images[..a.letters() as usize]).unwrap();
    Ok(Some(Row { perm, next }))
}
