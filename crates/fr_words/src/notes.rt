//! What a hand notes, and the rule of the table.
use atomic_table::TableRule;
use fr_layout::{Block, Plan};
use fr_line::Branch;
use std::collections::LinkedList;

/// A word and its value. It stands in proofs alone, as do all types of this file but `Ruled`, and
/// no value of them is made.
pub struct Fact {
    /// The number of the word.
    pub word: u64,
    /// Its value, which is not 0.
    pub value: u64,
}

/// A cell that was found empty.
pub struct Gap {
    /// The cell's word.
    pub word: u64,
    /// The number of the hand's step that found it so.
    pub step: u64,
}

/// A block that a hand claimed.
pub struct Claim {
    /// The block.
    pub block: Block,
    /// The gap that the hand had noted when it claimed the block.
    pub gap: Option<Gap>,
}

/// What a [`Hand`](crate::Hand) noted.
pub struct Note {
    /// The sizes of the table.
    pub plan: Plan,
    /// The greatest number of claimed rows that it saw.
    pub seen: u64,
    /// The fields, links and cells that it saw or wrote, with their values, which are not 0.
    pub facts: LinkedList<Fact>,
    /// The blocks that it claimed.
    pub own: LinkedList<Claim>,
    /// The words of the cells that it filled.
    pub made: LinkedList<u64>,
    /// The words with products that it met in the cache.
    pub products: LinkedList<u64>,
    /// Its part of the tree of splits.
    pub line: LinkedList<Branch>,
    /// How many steps of its own it made.
    pub steps: u64,
    /// The word of the last of them.
    pub last_word: u64,
    /// What stood in that word right before it.
    pub found: u64,
    /// What stood in that word right after it.
    pub last_value: u64,
    /// The cell that a load of it found empty last.
    pub gap: Option<Gap>,
}

/// The rule of the table: at every moment its words and the notes of its hands agree.
pub struct Ruled;

impl TableRule<u8, Note, Plan> for Ruled {
    ghost use Rattle.fr_words.specs.Rule.{RuledBy};
    ghost use Rattle.fr_words.specs.Notes.{newcomer};

    ghost holds = { RuledBy };

    ghost first = { newcomer };
}
