//! Numbers from 0 on, in the order in which keys come first.

ghost use Rattle.std.specs.Prelude.{◌≡◌, ◌<◌, ◌≤◌, Some, None, IfOk, MatchOption, length, slice_index_or, slice_set};
ghost use Rattle.std.specs.List.{All};
ghost use Rattle.fr_classes.specs.Numberings.{IsNumbering, IsNumberingOfKeys};

use crate::sparse::SparseWalk;
use fr_alphabet::NoMemory;
use std::alloc::Global;

// The number of a key: the one that it has, or else the next one, which it has from now on.
fn name_of(names: &mut Vec<Option<u16>>, key: u16, next: u16) -> u16
    requires { key < length names.old.items }
    ensures { MatchOption (slice_index_or names.old.items key None) ((result ≡ next) × (names.new.items ≡ slice_set names.old.items key (Some next))) (λ known. (result ≡ known) × (names.new.items ≡ names.old.items)) }
{
    if let Some(number) = names[key as usize] {
        return number;
    }
    names[key as usize] = Some(next);
    next
}

/// The keys, at most 65,536 and all below a bound, replaced by 0, 1, .. in the order in which they come first.
/// The only error is want of memory.
pub fn by_first_places(alloc: Global, bound: usize, keys: &[u16]) -> Result<Vec<u16>, NoMemory>
    requires few { length keys.now ≤ 65536 }
    requires below { All (λ k. k < bound) keys.now }
    ensures { IfOk result (λ ns. IsNumbering keys.now ns.items) }
{
    let mut names: Vec<Option<u16>> = vec![in alloc; None; bound]?;
    let mut numbers = Vec::with_capacity(alloc, keys.len())?;
    let mut count = 0u32;
    for key in keys {
        let number = name_of(&mut names, *key, count as u16);
        count = count.max(number as u32 + 1);
        numbers.push(number)?;
    }
    Ok(numbers)
}

/// A number for each of a list of keys, and how many numbers there are.
#[derive(Drop)]
pub struct Numbering {
    /// The numbers.
    pub of: Vec<u16>,
    /// How many there are: each of 0, 1, .. below this is that of a key, and no other.
    pub count: usize,
}

/// The keys, at most 65,536, replaced by 0, 1, .. in the order in which they come first. The only error is want of memory.
pub fn by_first_keys(alloc: Global, keys: &[u32]) -> Result<Numbering, NoMemory>
    requires { length keys.now ≤ 65536 }
    ensures { IfOk result (λ n. IsNumberingOfKeys keys.now n.of.items n.count) }
{
    let mut walk = SparseWalk::new(alloc, keys.len())?;
    let mut of = Vec::with_capacity(alloc, keys.len())?;
    for key in keys {
        of.push(walk.number(*key)? as u16)?;
    }
    Ok(Numbering {
        of,
        count: walk.count(),
    })
}
