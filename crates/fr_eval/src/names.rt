//! The names of a block and their places.

ghost use Rattle.std.specs.Prelude.{◌≡◌, ◌<◌, ◌^◌, ℕ, List, Some, None, [], IfOk, OnOk, is_some, length, MatchResult, if◌then◌else◌};
ghost use Rattle.std.specs.Str.{bytes_eq};
ghost use Rattle.std.specs.List.{list_any};
ghost use Rattle.fr_plain.specs.Blocks.{names_of};
ghost use Rattle.fr_plain.specs.BlockNames.{first_repeat, names_fault};
ghost use Rattle.fr_eval.specs.NamePlaces.{place_at, HasPlaces, ArePlaces, has_placeless, first_placeless};

use fr_alphabet::NoMemory;
use fr_script::{Fault, LineFault};
use fr_syntax::{Recursion, SecName};
use sqlite_items::Items;
use std::alloc::{AllocError, Global};
use std::collections::HashMap;

/// The place of each name of a block, from 0.
pub type NamePlaces<'a> = HashMap<&'a [u8], u16>;

/// The places of the names of a block, or the fault of its names: the first name that stands above it in the block, and
/// else the first section name that is none of the block. The only error is want of memory.
pub fn checked_places<'a>(
    alloc: Global,
    block: &'a [Recursion],
) -> Result<Result<NamePlaces<'a>, Fault>, NoMemory>
    requires { length block.now < 2 ^ 16 }
    ensures { IfOk result (λ r. MatchResult r (λ places. (names_fault block.entry.now ≡ None) × HasPlaces (names_of block.entry.now) places) (λ fault. names_fault block.entry.now ≡ Some fault)) }
{
    let places = match name_places(alloc, block)? {
        Ok(places) => places,
        Err(line) => {
            return Ok(Err(Fault {
                line,
                kind: LineFault::NameTaken,
            }));
        }
    };
    if let Some(line) = first_unknown(&places, block) {
        return Ok(Err(Fault {
            line,
            kind: LineFault::UnknownName,
        }));
    }
    Ok(Ok(places))
}

// The places of the names of a block, or the first line whose name stands above it.
fn name_places<'a>(
    alloc: Global,
    block: &'a [Recursion],
) -> Result<Result<NamePlaces<'a>, u32>, NoMemory>
    requires { length block.now < 2 ^ 16 }
    ensures { IfOk result (λ r. MatchResult r (λ places. ArePlaces block.entry.now places) (λ line. first_repeat [] block.entry.now ≡ Some line)) }
{
    let mut places = HashMap::new(alloc);
    for (i, recursion) in block.iter().enumerate() {
        if enter(&mut places, recursion.name.bytes(), i as u16)? {
            return Ok(Err(recursion.line));
        }
    }
    Ok(Ok(places))
}

// Enters a name with its place, and says whether the name had one.
fn enter<'a>(places: &mut NamePlaces<'a>, name: &'a [u8], place: u16) -> Result<bool, AllocError>
    ensures known { IfOk result (λ known. known ≡ is_some (place_at places.old name.entry.now)) }
    ensures entered { OnOk result ((q : List ℕ) → place_at places.new q ≡ (if bytes_eq name.entry.now q then Some place else place_at places.old q)) }
{
    let earlier = places.insert(name, place)?;
    Ok(earlier.is_some())
}

// The first line that has a section with a name without a place.
fn first_unknown(places: &NamePlaces<'_>, block: &[Recursion]) -> Option<u32>
    ensures { result ≡ first_placeless places.now block.now }
{
    for recursion in block {
        if has_unknown(places, recursion) {
            return Some(recursion.line);
        }
    }
    None
}

// Whether a line has a section with a name without a place.
fn has_unknown(places: &NamePlaces<'_>, recursion: &Recursion) -> bool
    ensures { result ≡ list_any (has_placeless places.now) recursion.now.sections }
{
    recursion
        .sections
        .as_slice()
        .iter()
        .any(|section| is_unknown(places, section.names()))
}

// Whether a section has a name without a place.
fn is_unknown(places: &NamePlaces<'_>, section: &[SecName]) -> bool
    ensures { result ≡ has_placeless places.now section.now }
{
    section.iter().any(|s| !is_known(places, s.name.bytes()))
}

// Whether a name has a place.
fn is_known(places: &NamePlaces<'_>, name: &[u8]) -> bool
    ensures { result ≡ is_some (place_at places.now name.now) }
{
    places.contains_key(name)
}
