//! The right to step on a table.
ghost use Rattle.std.specs.Prelude.{◌≡◌, []};
ghost use Rattle.fr_line.specs.Lines.{IsLive};

use crate::notes::Note;
use atomic_table::Seat;

mod cache;
mod cells;
mod claiming;
mod links;
mod parting;
mod rows;

/// The right to step on one table, and in proofs what was met and done by it. Each thread has its
/// own.
#[derive(Drop)]
pub struct Hand {
    pub(crate) seat: Seat<u8, Note>,
    ghost bare: { seat.me.1 ≡ [] },
    ghost live: { IsLive seat.me.0.line },
}
