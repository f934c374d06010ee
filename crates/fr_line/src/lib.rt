//! The tree of splits and joins of seats.
//!
//! A seat is a token that steps on a shared table. It may be split in two, and two may be joined
//! into one. Each seat keeps a line, which says what part of the tree of all splits it stands for:
//! a map from addresses to counts. An address is a list of numbers. The first seat has the empty
//! address. A split of a seat gives the new one the address of a child of one of its own, that is,
//! that address followed by the number of children that it had before. A join gives all addresses
//! of one seat to the other.
//!
//! A seat that has the empty address and, with each of its addresses, all the children of that
//! address, is whole: every other seat then has nothing. So what a seat knows by itself shows that
//! all others were joined into it.
//!
//! The lines stand in proofs alone. The functions compute nothing: the contract of each is a law
//! that holds of the definitions.
#![tactic(auto)]

ghost use Rattle.fr_line.specs.Laws.{FirstSeatIsWhole, SplitsKeepTheTree, JoinsKeepTheTree, WholeSeatIsAlone, LinesMakeATree, CrewsKeepTheTree};

use std::collections::LinkedList;

/// An address of the tree, and how many children it has. No value of it is made.
pub struct Branch {
    /// The numbers of the children on the way from the root, the last one first.
    pub address: LinkedList<u64>,
    /// How many children were split off at this address.
    pub count: u64,
}

/// The first seat has the whole tree, which is the empty address without children.
pub fn first_seat_is_whole()
    ensures { FirstSeatIsWhole }
{}

/// A split keeps the tree, and leaves the seat that was split no longer whole.
pub fn splits_keep_the_tree()
    ensures { SplitsKeepTheTree }
{}

/// A join keeps the tree.
pub fn joins_keep_the_tree()
    ensures { JoinsKeepTheTree }
{}

/// Where one seat is whole, each other has nothing, and where each other has nothing, it is whole.
pub fn whole_seat_is_alone()
    ensures { WholeSeatIsAlone }
{}

/// Each address stands in the line of one seat and once, and the addresses are the empty one and
/// the children of addresses, all of them.
pub fn lines_make_a_tree()
    ensures { LinesMakeATree }
{}

/// One seat and those that were split from it and are still out: what a split and a join change,
/// and that the one is whole when all are back.
pub fn crews_keep_the_tree()
    ensures { CrewsKeepTheTree }
{}
