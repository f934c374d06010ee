//! The permutation that cycles write.

ghost use Rattle.std.specs.Prelude.{◌≡◌, ◌<◌, ◌==◌, IfOk, false, drop, length, slice_index};
ghost use Rattle.std.specs.List.{list_any};
ghost use Rattle.fr_model.specs.Words.{IsWord};
ghost use Rattle.fr_script.specs.Cycles as spec;

use fr_alphabet::{Alphabet, NoMemory, Perm};
use sqlite_items::Items;
use std::alloc::Global;

/// The letters in cycles, in order.
pub fn cycles_letters(alloc: Global, cycles: &[Items<u8>]) -> Result<Vec<u8>, NoMemory>
    ensures { IfOk result (λ v. v.items ≡ spec.cycles_letters cycles.now) }
{
    let mut letters = Vec::new(alloc);
    for cycle in cycles {
        letters.extend_from_slice(cycle.as_slice())?;
    }
    Ok(letters)
}

fn contains(letters: &[u8], x: u8) -> bool
    ensures { result ≡ list_any (λ y. y == x) letters.now }
{
    letters.iter().any(|y| *y == x)
}

/// Whether a letter stands twice.
pub fn has_repeat(letters: &[u8]) -> bool
    ensures { result ≡ spec.has_repeat letters.now }
{
    for (i, x) in letters.iter().enumerate() {
        if contains(&letters[i + 1..], *x) {
            return true;
        }
    }
    false
}

fn letter_behind(cycle: &[u8], i: usize) -> u8
    requires { i < length cycle.now }
    ensures { spec.letter_after (slice_index cycle.now 0) (drop i cycle.now) (slice_index cycle.now i) ≡ Some result }
{
    if i + 1 < cycle.len() {
        cycle[i + 1]
    } else {
        cycle[0]
    }
}

fn next_in_cycle(cycle: &[u8], x: u8) -> Option<u8>
    ensures { result ≡ spec.next_in_cycle cycle.now x }
{
    for (i, y) in cycle.iter().enumerate() {
        if *y == x {
            return Some(letter_behind(cycle, i));
        }
    }
    None
}

fn image_of(cycles: &[Items<u8>], x: u8) -> u8
    ensures { result ≡ spec.disjoint_cycles_image cycles.now x }
{
    for cycle in cycles {
        if let Some(y) = next_in_cycle(cycle.as_slice(), x) {
            return y;
        }
    }
    x
}

/// The permutation that sends each letter to the next one in its cycle, the last to the first,
/// and leaves each letter that is in none.
pub fn cycles_permutation(a: Alphabet, cycles: &[Items<u8>]) -> Perm
    requires letters { IsWord a (spec.cycles_letters cycles.now) }
    requires once { spec.has_repeat (spec.cycles_letters cycles.now) ≡ false }
    ensures { result ≡ spec.cycles_permutation a cycles.now }
{
    let d = a.letters();
    let mut images = [0; 8];
    for x in 0..d {
        images[x as usize] = image_of(cycles, x + 1);
    }
    match Perm::of_images(a, &images[..d as usize]) {
        Some(perm) => perm,
        None => unreachable!(),
    }
}
