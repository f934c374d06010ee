//! The nucleus of a group, from generators.

ghost use Rattle.std.specs.Prelude.{◌≡◌, ◌<◌, ◌≤◌, List, IfOk, IfErr, IsErrOf, OnOk, length};
ghost use Rattle.fr_model.specs.Terms.{Term, IsAlike};
ghost use Rattle.fr_model.specs.Classes.{IsClassList};
ghost use Rattle.fr_model.specs.Nuclei.{IsAbsorbing, IsNucleus, IsNucleusDepth};
ghost use Rattle.fr_nucleus.specs.Elements.{alphabet_of, elements_of, AreOver, IsSectionOf, IsMemberOf, HasMoreSections, HasMoreMembers};
ghost use Rattle.fr_nucleus.specs.Orders.{AreCanonical, AreInOrder};
ghost use Rattle.fr_nucleus.specs.Faults.{IsNucleusFault};

use crate::closure::{Closure, close};
use crate::coding::in_order;
use crate::depth::depth_of;
use crate::fault::NucleusFault;
use crate::group_nucleus::Nucleus;
use crate::sections::generator_sections;
use fr_machine::Minimal;
use std::alloc::Global;

/// The nucleus of the smallest self-similar group that holds the elements of `gens`, where it has at most `most` members
/// (Nekrashevych, *Self-Similar Groups*, chapter 2; the limits and the depth are this project's own). That group is generated
/// by the generators and all their sections; where these are products of the generators and their inverses, it is the group
/// that the generators generate. There is at least one generator, all are over one alphabet, and `most` is in 1..=256.
///
/// The members are the least set that holds the identity and, with each of its elements g and each section q of a generator
/// or of an inverse of one, the sections of the product of g and q that occur at words of unbounded length. They are given
/// once each up to acting alike, by size and then by code, with their rows in canonical order.
///
/// Errors: `TooManySections` exactly where the identity, the sections of the generators and those of their inverses are more
/// than 64 elements; else `Passes(most)` exactly where there are more than `most` members; and want of memory, in place of
/// any answer.
pub fn nucleus(alloc: Global, gens: &[Minimal], most: u16) -> Result<Nucleus, NucleusFault>
    requires some { 0 < length gens.now }
    requires over { AreOver (alphabet_of gens.now) gens.now }
    requires least { 1 ≤ most }
    requires most { most ≤ 256 }

    // One member of each class of like ones, in order, each numbered canonically; and the least depth.
    ensures members { IfOk result (λ n. IsClassList (IsMemberOf gens.now) IsAlike (elements_of n.members)) }
    ensures over { IfOk result (λ n. AreOver (alphabet_of gens.now) n.members) }
    ensures canonical { IfOk result (λ n. AreCanonical (alphabet_of gens.now) n.members) }
    ensures order { IfOk result (λ n. AreInOrder n.members) }
    ensures depth { IfOk result (λ n. IsNucleusDepth (alphabet_of gens.now) (IsSectionOf gens.now) n.depth) }

    // They hold all sections of each element of the group from some length on, and are the least list that does.
    ensures nucleus { IfOk result (λ n. IsNucleus (alphabet_of gens.now) (IsSectionOf gens.now) (elements_of n.members)) }
    ensures none { IsErrOf result (NucleusFault.Passes most) → (ms : List Term) → IsAbsorbing (alphabet_of gens.now) (IsSectionOf gens.now) ms → most < length ms }

    // Each refusal comes exactly where its cause holds, up to want of memory.
    ensures sections { OnOk result (¬ HasMoreSections gens.now 64) }
    ensures within { OnOk result (¬ HasMoreMembers gens.now most) }
    ensures few { IfOk result (λ n. length n.members ≤ most) }
    ensures err { IfErr result (λ e. IsNucleusFault gens.now most e) }
{
    let sections = generator_sections(alloc, gens)?;
    let Closure {
        members,
        products,
        outside,
    } = close(alloc, &sections, most)?;
    Ok(Nucleus {
        members: in_order(alloc, &members)?,
        depth: depth_of(alloc, &products, outside)?,
    })
}
