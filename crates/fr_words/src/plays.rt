//! What each step on the table tells the hand that makes it.
ghost use Rattle.fr_words.specs.Lawful.{looks, claims, fills, meets, meets_cell, enters_cell, sets_link, meets_product, swaps};
ghost use Rattle.fr_words.specs.Notes.{parted, sprouted, united, spent};

use crate::notes::Note;
use atomic_table::{Join, Play, Split};

// A load of the claim word.
pub(crate) struct Look;

impl Play<u8, Note> for Look {
    ghost then = { looks };
}

// A compare and exchange of the claim word.
pub(crate) struct Claim;

impl Play<u8, Note> for Claim {
    ghost then = { claims };
}

// A store of a field.
pub(crate) struct Fill;

impl Play<u8, Note> for Fill {
    ghost then = { fills };
}

// A load of a field or of a link.
pub(crate) struct Meet;

impl Play<u8, Note> for Meet {
    ghost then = { meets };
}

// A load of a cell.
pub(crate) struct MeetCell;

impl Play<u8, Note> for MeetCell {
    ghost then = { meets_cell };
}

// A compare and exchange of a cell from 0.
pub(crate) struct Enter;

impl Play<u8, Note> for Enter {
    ghost then = { enters_cell };
}

// A compare and exchange of a link from 0.
pub(crate) struct SetLink;

impl Play<u8, Note> for SetLink {
    ghost then = { sets_link };
}

// A load of a cache word.
pub(crate) struct MeetProduct;

impl Play<u8, Note> for MeetProduct {
    ghost then = { meets_product };
}

// A swap of a cache word.
pub(crate) struct Swap;

impl Play<u8, Note> for Swap {
    ghost then = { swaps };
}

// A split in two, and a join of two.
pub(crate) struct Part;

impl Split<Note> for Part {
    ghost left = { parted };

    ghost right = { sprouted };
}

impl Join<Note> for Part {
    ghost both = { united };

    ghost spent = { spent };
}
