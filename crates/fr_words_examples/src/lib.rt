//! The rows of machines are put into a shared table, step by step.
//!
//! It shows how what the steps of a hand ask is known, and by the wrong steps that are refuted what
//! they refuse.
#![tactic(auto)]

ghost use Rattle.std.specs.Prelude.{◌≡◌, ◌<◌, ◌≤◌, [], ◌∷◌, ◌+◌, ℕ, length, IsTrue, IfSome};
ghost use Rattle.fr_machine.specs.Rows.{IsMachine, row_term};
ghost use Rattle.fr_machine.specs.Minimal.{AreUnlike};
ghost use Rattle.fr_model.specs.Canonical.{IsCode};
ghost use Rattle.fr_canon.specs.Codes.{home_of};
ghost use Rattle.fr_layout.specs.Places.{field_at, link_at, cell_at};
ghost use Rattle.fr_layout.specs.Packs.{pack_of};
ghost use Rattle.fr_words.specs.Members.{Has, Owns};
ghost use Rattle.fr_words.specs.Notes.{entered, wrote};
ghost use Rattle.fr_words.specs.Lawful.{IsLawful};
ghost use Rattle.fr_words.specs.Asks.{IsFinished};
ghost use Rattle.fr_words.specs.Hands.{note, IsOf};
ghost use Rattle.fr_words_examples.specs.Filling.{block_at, IsFilling, HasFilled, KnowsHandles, KnowsRows, Adds};
ghost use Rattle.fr_words_examples.specs.Settled.{IsSettled, NewHandsAreSettled};

use fr_alphabet::Alphabet;
use fr_canon::{Code, Scratch, canon_rows, home};
use fr_layout::{Block, field_value};
use fr_machine::Row;
use fr_words::{Hand, Words};

mod products;
#[cfg(test)]
mod tests;

pub use products::{Published, cache_product, cache_square};

/// The rows of a machine, of which no two act alike, and where they stand in a table.
#[derive(Clone, Copy)]
pub struct Placed<'a> {
    /// The rows.
    pub rows: &'a [Row],
    /// The row of the table that is the first of them.
    pub start: u32,
}

/// The first hand of a new table knows no handle, and so the handles of all sections of those that
/// it knows.
pub fn new_hands_are_settled()
    ensures { NewHandsAreSettled }
{}

/// Publishes the rows of a machine, of which no two act alike, behind the rows that are claimed, by a
/// hand that has no unfinished block. It gives the first of the table's rows, from which the hand then
/// knows the handle of each row, which is the row itself, and its fields.
///
/// It is `None` where the rows do not fit into the table, another hand was faster at some step, or the
/// cell where a row's walk begins is full. The alphabet is the table's; `scratch` and `code` are
/// overwritten.
pub fn publish_rows(
    scratch: &mut Scratch,
    code: &mut Code,
    a: Alphabet,
    rows: &[Row],
    words: &Words,
    hand: &mut Hand,
) -> Option<u32>
    requires of { IsOf words.now hand.old }
    requires letters { words.now.plan.letters ≡ a }
    requires finished { IsFinished words.now.plan (note hand.old) }
    requires machine { IsMachine a rows.now × AreUnlike rows.now }
    requires few { (0 < length rows.now) × (length rows.now ≤ 1024) }
    ensures of { IsOf words.now hand.new }
    ensures known { IfSome result (λ start. KnowsRows words.now.plan (note hand.new) start rows.now) }
    ensures finished { IfSome result (λ _. IsFinished words.now.plan (note hand.new)) }
    ensures keeps { IfSome result (λ _. (i x : ℕ) → Has (note hand.old).facts i x → Has (note hand.new).facts i x) }

    // Where the handles of the sections of each known handle were known, they are so with the new ones.
    ensures settled { IfSome result (λ _. IsSettled (note hand.old) → IsSettled (note hand.new)) }
{
    let seen = hand.look_claim(words);
    let size = rows.len() as u16;
    if seen + size as u64 > words.plan().capacity as u64 {
        return None;
    }
    let Ok(start) = hand.claim(words, seen, size) else {
        return None;
    };
    if publish_at(scratch, code, a, Placed { rows, start }, words, hand) {
        Some(start)
    } else {
        None
    }
}

// Publishes the rows of a machine in the block that was claimed for them.
fn publish_at(
    scratch: &mut Scratch,
    code: &mut Code,
    a: Alphabet,
    machine: Placed<'_>,
    words: &Words,
    hand: &mut Hand,
) -> bool
    requires of { IsOf words.now hand.old }
    requires letters { words.now.plan.letters ≡ a }
    requires filling { IsFilling words.now.plan (note hand.old) machine.start machine.rows.now (field_at words.now.plan machine.start 0) }
    requires machine { IsMachine a machine.rows.now × AreUnlike machine.rows.now }
    requires few { (0 < length machine.rows.now) × (length machine.rows.now ≤ 1024) × (machine.start + length machine.rows.now ≤ words.now.plan.capacity) }
    ensures of { IsOf words.now hand.new }
    ensures known { IsTrue result → KnowsRows words.now.plan (note hand.new) machine.entry.start machine.entry.rows.now }
    ensures adds { IsTrue result → Adds words.now.plan machine.entry.start machine.entry.rows.now (note hand.old) (note hand.new) }
    ensures lawful { IsTrue result → IsLawful (note hand.new) }
{
    fill_rows(machine, words, hand);
    for row in 0..machine.rows.len() {
        canon_rows(scratch, a, machine.rows, row as u16, code);
        if !publish_row(machine, row, code, words, hand) {
            return false;
        }
    }
    true
}

// Fills the fields of all rows.
fn fill_rows(machine: Placed<'_>, words: &Words, hand: &mut Hand)
    requires of { IsOf words.now hand.old }
    requires filling { IsFilling words.now.plan (note hand.old) machine.start machine.rows.now (field_at words.now.plan machine.start 0) }
    requires machine { IsMachine words.now.plan.letters machine.rows.now × AreUnlike machine.rows.now }
    requires few { (length machine.rows.now ≤ 1024) × (machine.start + length machine.rows.now ≤ words.now.plan.capacity) }
    ensures of { IsOf words.now hand.new }
    ensures filled { HasFilled words.now.plan (note hand.new) machine.entry.start machine.entry.rows.now }
    ensures adds { Adds words.now.plan machine.entry.start machine.entry.rows.now (note hand.old) (note hand.new) }
{
    for row in 0..machine.rows.len() {
        fill_row(machine, row, words, hand);
    }
}

// Fills the fields of a row, where those of the rows before it are filled.
fn fill_row(machine: Placed<'_>, row: usize, words: &Words, hand: &mut Hand)
    requires of { IsOf words.now hand.old }
    requires row { row < length machine.rows.now }
    requires filling { IsFilling words.now.plan (note hand.old) machine.start machine.rows.now (field_at words.now.plan (machine.start + row) 0) }
    requires machine { IsMachine words.now.plan.letters machine.rows.now × AreUnlike machine.rows.now }
    requires few { (length machine.rows.now ≤ 1024) × (machine.start + length machine.rows.now ≤ words.now.plan.capacity) }
    ensures of { IsOf words.now hand.new }
    ensures filling { IsFilling words.now.plan (note hand.new) machine.entry.start machine.entry.rows.now (field_at words.now.plan (machine.entry.start + row + 1) 0) }
    ensures adds { Adds words.now.plan machine.entry.start machine.entry.rows.now (note hand.old) (note hand.new) }
{
    let Placed { rows, start } = machine;
    let plan = words.plan();
    for field in 0..plan.letters + 1 {
        let value = field_value(&rows[row], start, field);
        hand.fill(words, start + row as u32, field, value);
    }
}

// Puts a row into the cell where its walk begins, and lets its link name it.
fn publish_row(machine: Placed<'_>, row: usize, code: &Code, words: &Words, hand: &mut Hand) -> bool
    requires of { IsOf words.now hand.old }
    requires row { row < length machine.rows.now }
    requires machine { IsMachine words.now.plan.letters machine.rows.now × AreUnlike machine.rows.now }
    requires few { (length machine.rows.now ≤ 1024) × (machine.start + length machine.rows.now ≤ words.now.plan.capacity) }
    requires filled { HasFilled words.now.plan (note hand.old) machine.start machine.rows.now }
    requires code { IsCode words.now.plan.letters (row_term machine.rows.now row) code.now }
    requires handles { KnowsHandles words.now.plan (note hand.old) machine.start machine.rows.now row }
    ensures of { IsOf words.now hand.new }
    ensures adds { IsTrue result → Adds words.now.plan machine.entry.start machine.entry.rows.now (note hand.old) (note hand.new) }
    ensures handles { IsTrue result → KnowsHandles words.now.plan (note hand.new) machine.entry.start machine.entry.rows.now (row + 1) }
    ensures lawful { IsTrue result → IsLawful (note hand.new) }
{
    let first = home(code, words.plan().cells);
    enter_row(machine, row, code, first, words, hand) && link_row(machine, row, first, words, hand)
}

// Puts a row into the cell where its walk begins.
fn enter_row(
    machine: Placed<'_>,
    row: usize,
    code: &Code,
    first: u32,
    words: &Words,
    hand: &mut Hand,
) -> bool
    requires of { IsOf words.now hand.old }
    requires row { row < length machine.rows.now }
    requires machine { IsMachine words.now.plan.letters machine.rows.now × AreUnlike machine.rows.now }
    requires few { (length machine.rows.now ≤ 1024) × (machine.start + length machine.rows.now ≤ words.now.plan.capacity) }
    requires filled { HasFilled words.now.plan (note hand.old) machine.start machine.rows.now }
    requires code { IsCode words.now.plan.letters (row_term machine.rows.now row) code.now }
    requires home { first ≡ home_of code.now words.now.plan.cells }
    ensures of { IsOf words.now hand.new }
    ensures entered { IsTrue result → note hand.new ≡ entered (note hand.old) (cell_at words.now.plan first) (pack_of (block_at machine.entry.start machine.entry.rows.now) (machine.entry.start + row)) }
{
    // For the proof: how many cells there are.
    let _plan = words.plan();
    let Placed { rows, start } = machine;
    let size = rows.len() as u16;
    let block = Block { start, size };
    hand.enter(words, first, block.pack(start + row as u32))
        .is_ok()
}

// Lets the link of a row that stands in a cell name the row.
fn link_row(machine: Placed<'_>, row: usize, first: u32, words: &Words, hand: &mut Hand) -> bool
    requires of { IsOf words.now hand.old }
    requires row { row < length machine.rows.now }
    requires place { first < words.now.plan.cells }
    requires few { (length machine.rows.now ≤ 1024) × (machine.start + length machine.rows.now ≤ words.now.plan.capacity) }
    requires filled { HasFilled words.now.plan (note hand.old) machine.start machine.rows.now }
    requires entered { Has (note hand.old).facts (cell_at words.now.plan first) (pack_of (block_at machine.start machine.rows.now) (machine.start + row)) }
    ensures of { IsOf words.now hand.new }
    ensures linked { IsTrue result → note hand.new ≡ wrote (note hand.old) (link_at words.now.plan (machine.entry.start + row)) (pack_of (block_at machine.entry.start machine.entry.rows.now) (machine.entry.start + row)) }
    ensures lawful { IsLawful (note hand.new) }
{
    // For the proof: the capacity is small.
    let _plan = words.plan();
    let Placed { rows, start } = machine;
    let size = rows.len() as u16;
    let block = Block { start, size };
    let number = start + row as u32;
    hand.set_link(words, number, block.pack(number)).is_ok()
}
