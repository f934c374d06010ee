//! The sections of the generators and of their inverses.

ghost use Rattle.std.specs.Prelude.{◌≡◌, ◌<◌, ◌≤◌, ◌⊎◌, IfOk, IfErr, length};
ghost use Rattle.fr_model.specs.Terms.{IsAlike};
ghost use Rattle.fr_model.specs.Classes.{HasMoreThan};
ghost use Rattle.fr_nucleus.specs.Elements.{alphabet_of, AreOver};
ghost use Rattle.fr_nucleus.specs.Rows.{AreFewRows, AreSections};
ghost use Rattle.fr_nucleus.specs.Joining.{HasRowOfEither, IsUnion, IsAmong, HasAll};
ghost use Rattle.fr_nucleus.specs.Faults.{IsSectionFault};

use crate::fault::NucleusFault;
use crate::joining::{joined, reduced};
use fr_classes::classes_within;
use fr_machine::{Machine, Minimal};
use std::alloc::Global;

// The most elements that are sections of generators.
const SECTION_LIMIT: usize = 64;

/// The machine whose rows are the identity, which is row 0, and the sections of the generators and of their inverses, one of
/// those that act alike. There is a generator, and all are over one alphabet.
///
/// Errors: `TooManySections` exactly where they are more than 64, and want of memory.
pub fn generator_sections(alloc: Global, gens: &[Minimal]) -> Result<Machine, NucleusFault>
    requires some { 0 < length gens.now }
    requires over { AreOver (alphabet_of gens.now) gens.now }
    ensures alphabet { IfOk result (λ q. q.alphabet ≡ alphabet_of gens.now) }
    ensures sections { IfOk result (λ q. AreSections gens.now q.rows) }
    ensures err { IfErr result (λ e. IsSectionFault gens.now e) }
{
    let mut found = Machine::identity(alloc, gens[0].machine().alphabet())?;
    for g in gens {
        found = with_sections(alloc, &found, g.machine())?;
    }
    Ok(found)
}

// The rows of the first machine, and those of the other and their inverses, one of those that act alike.
fn with_sections(alloc: Global, found: &Machine, m: &Machine) -> Result<Machine, NucleusFault>
    requires alphabets { found.now.alphabet ≡ m.now.alphabet }
    requires found { AreFewRows found.now.rows }
    requires few { length m.now.rows ≤ 1024 }
    ensures alphabet { IfOk result (λ q. q.alphabet ≡ found.now.alphabet) }
    ensures rows { IfOk result (λ q. HasAll found.now.rows m.now.rows q.rows) }
    ensures err { IfErr result (λ e. (e ≡ NucleusFault.NoMemory) ⊎ ((e ≡ NucleusFault.TooManySections) × HasMoreThan (IsAmong found.now.rows m.now.rows) IsAlike 64)) }
{
    let inverse = m.inverse(alloc)?;
    let both = joined(alloc, m, &inverse)?;
    with_rows(alloc, found, &both)
}

// The rows of both machines, one of those that act alike, where those of the first come first.
fn with_rows(alloc: Global, found: &Machine, m: &Machine) -> Result<Machine, NucleusFault>
    requires alphabets { found.now.alphabet ≡ m.now.alphabet }
    requires found { AreFewRows found.now.rows }
    requires few { length m.now.rows ≤ 2048 }
    ensures alphabet { IfOk result (λ q. q.alphabet ≡ found.now.alphabet) }
    ensures rows { IfOk result (λ q. IsUnion found.now.rows m.now.rows q.rows) }
    ensures err { IfErr result (λ e. (e ≡ NucleusFault.NoMemory) ⊎ ((e ≡ NucleusFault.TooManySections) × HasMoreThan (HasRowOfEither found.now.rows m.now.rows) IsAlike 64)) }
{
    let all = joined(alloc, found, m)?;
    match classes_within(alloc, &all, SECTION_LIMIT)? {
        Some(of) => Ok(reduced(alloc, &all, &of)?),
        None => Err(NucleusFault::TooManySections),
    }
}
