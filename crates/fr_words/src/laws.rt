//! The laws of the shared table: what follows from its rule for its hands. The functions compute
//! nothing, and the contract of each is a law.
ghost use Rattle.fr_words.specs.Laws.{WholeHandsOwnAll, SomeCellIsEmpty, HandlesAreUnique, CellsAreUnique, RowsShowOneMachine, NoDraftIsLeft};

/// The blocks of a whole hand add up to the number of claimed rows, and the cells that it filled
/// are the full cells.
pub fn whole_hands_own_all()
    ensures { WholeHandsOwnAll }
{}

/// Not all cells are full, so each walk over them ends.
pub fn some_cell_is_empty()
    ensures { SomeCellIsEmpty }
{}

/// Two handles whose rows act alike are one.
pub fn handles_are_unique()
    ensures { HandlesAreUnique }
{}

/// Two cells whose rows act alike are one, and the link of a row that stands in a cell is 0 or names
/// that row.
pub fn cells_are_unique()
    ensures { CellsAreUnique }
{}

/// A block that was read shows one machine for good.
pub fn rows_show_one_machine()
    ensures { RowsShowOneMachine }
{}

/// Nobody sees an unfinished block, and a hand that has none leaves none.
pub fn no_draft_is_left()
    ensures { NoDraftIsLeft }
{}
