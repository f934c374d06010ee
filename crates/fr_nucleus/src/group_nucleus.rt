//! The nucleus of a group.

use fr_machine::Minimal;
use std::marker::Model;

/// The nucleus of a contracting group: the smallest finite set of elements in which all sections of each element of the group
/// lie from some length of words on (Nekrashevych, *Self-Similar Groups*, chapter 2).
#[derive(Debug, Drop)]
pub struct Nucleus {
    /// The members, by size and then by code, with their rows in canonical order.
    pub members: Vec<Minimal>,
    /// The least length of words at which all sections of a product of a member and a section of a generator, or of an
    /// inverse of one, are members. This notion of depth is the project's own.
    pub depth: u32,
}

// Clauses see the members in order, and the depth.
impl Model for Nucleus {
    ghost use Rattle.fr_nucleus.specs.Nuclei.{NucleusView};

    ghost Value = { NucleusView };

    ghost view = { λ n. record { members = n.members.items; depth = n.depth } };
}
