//! Blocks as they are read, and as their elements are found.

ghost use Rattle.std.specs.Prelude.{◌≡◌, ◌≤◌, None, IfOk, IsSome, length, map};
ghost use Rattle.std.specs.List.{All};
ghost use Rattle.fr_syntax.specs.Fits.{FitsRecursion};
ghost use Rattle.fr_block.specs.Blocks.{factor_of, product_of, wreath_of};
ghost use Rattle.fr_plain.specs.Blocks.{names_of, block_system};
ghost use Rattle.fr_plain.specs.BlockNames.{names_fault};
ghost use Rattle.fr_eval.specs.NamePlaces.{place_at, HasPlaces, ArePlaced, placed, placed_recursion};

use crate::names::NamePlaces;
use fr_alphabet::{Alphabet, NoMemory};
use fr_block::{Block, Factor, Wreath};
use fr_syntax::{Recursion, SecName};
use sqlite_items::Items;
use std::alloc::Global;

/// The block of recursions over an alphabet whose names have no fault, with the places of the names. A name is the place of
/// its line, from 0. The only error is want of memory.
pub fn block_of(
    alloc: Global,
    a: Alphabet,
    places: &NamePlaces<'_>,
    block: &[Recursion],
) -> Result<Block, NoMemory>
    requires places { HasPlaces (names_of block.now) places.now }
    requires names { names_fault block.now ≡ None }
    requires lines { All (FitsRecursion a) block.now }
    requires most { length block.now ≤ 4095 }
    ensures { IfOk result (λ b. b ≡ record { alphabet = a; system = block_system block.now }) }
{
    // For the proof: an alphabet has 2 to 8 letters.
    let _letters = a.letters();
    let mut wreaths = Vec::with_capacity(alloc, block.len())?;
    for recursion in block {
        wreaths.push(wreath(alloc, places, recursion)?)?;
    }
    Ok(Block::from_wreaths(a, wreaths))
}

// The wreath recursion of a line.
fn wreath(alloc: Global, places: &NamePlaces<'_>, recursion: &Recursion) -> Result<Wreath, NoMemory>
    requires { All (ArePlaced places.now) recursion.now.sections }
    ensures { IfOk result (λ w. wreath_of w ≡ placed_recursion places.now recursion.now) }
{
    let words = recursion.sections.as_slice();
    let mut sections = Vec::with_capacity(alloc, words.len())?;
    for word in words {
        sections.push(product(alloc, places, word.names())?)?;
    }
    Ok(Wreath {
        perm: recursion.perm,
        sections,
    })
}

// The product of a section.
fn product(
    alloc: Global,
    places: &NamePlaces<'_>,
    word: &[SecName],
) -> Result<Vec<Factor>, NoMemory>
    requires { ArePlaced places.now word.now }
    ensures { IfOk result (λ factors. product_of factors.items ≡ map (placed places.now) word.now) }
{
    let mut factors = Vec::with_capacity(alloc, word.len())?;
    for s in word {
        factors.push(factor(places, s))?;
    }
    Ok(factors)
}

// The factor of a name of a section or of its inverse.
fn factor(places: &NamePlaces<'_>, s: &SecName) -> Factor
    requires { IsSome (place_at places.now s.now.name) }
    ensures { factor_of result ≡ placed places.now s.now }
{
    Factor {
        name: places[s.name.bytes()],
        inverse: s.inverse,
    }
}
