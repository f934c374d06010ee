//! The hash cells.
ghost use Rattle.std.specs.Prelude.{◌≡◌, ℕ, ◌<◌, MatchResult};
ghost use Rattle.fr_layout.specs.declared.plan.Block.{Block};
ghost use Rattle.fr_layout.specs.Places.{cell_at};
ghost use Rattle.fr_layout.specs.Packs.{pack_of, IsPack};
ghost use Rattle.fr_words.specs.Notes.{learned, met_cell, entered};
ghost use Rattle.fr_words.specs.Lawful.{Lawful, IsLawful};
ghost use Rattle.fr_words.specs.Asks.{MayEnter};
ghost use Rattle.fr_words.specs.Hands.{note, IsOf};

use crate::hand::Hand;
use crate::plays::{Enter, MeetCell};
use crate::words::Words;

impl Hand {
    /// A cell: 0, or the pack of the row that stands there. It is one load.
    pub fn cell(&mut self, words: &Words, cell: u32) -> u64
        requires of { IsOf words.now self.old }
        requires place { cell < words.now.plan.cells }
        ensures of { IsOf words.now self.new }
        ensures noted { note self.new ≡ met_cell (note self.old) (cell_at words.now.plan cell) result }
        ensures found { (note self.new).found ≡ result }
        ensures pack { 0 < result → IsPack words.now.plan result }
        ensures lawful { Lawful (note self.old) (cell_at words.now.plan cell) result × IsLawful (note self.new) }
    {
        let word = words.plan.cell_word(cell);
        words.table.shared.load::<MeetCell>(&mut self.seat, word)
    }

    /// Puts a row into an empty cell: a compare and exchange from 0 to the row's pack. The row's
    /// block is known to be complete, and from the row's home to this cell the hand saw only full
    /// cells with unlike rows.
    ///
    /// # Errors
    ///
    /// The pack that is there, exactly where the cell is not empty.
    pub fn enter(&mut self, words: &Words, cell: u32, pack: u64) -> Result<(), u64>
        requires of { IsOf words.now self.old }
        requires place { cell < words.now.plan.cells }
        requires asks { (b : Block) × (r : ℕ) × (pack ≡ pack_of b r) × MayEnter words.now.plan (note self.old) b r cell }
        ensures of { IsOf words.now self.new }
        ensures entered { MatchResult result (λ _. note self.new ≡ entered (note self.old) (cell_at words.now.plan cell) pack) (λ there. (0 < there) × IsPack words.now.plan there × (note self.new ≡ learned (note self.old) (cell_at words.now.plan cell) there)) }
        ensures found { MatchResult result (λ _. (note self.new).found ≡ 0) (λ there. (note self.new).found ≡ there) }
        ensures met { MatchResult result (λ _. Lawful (note self.old) (cell_at words.now.plan cell) 0) (λ there. Lawful (note self.old) (cell_at words.now.plan cell) there) }
        ensures lawful { IsLawful (note self.new) }
    {
        let word = words.plan.cell_word(cell);
        let found = words
            .table
            .shared
            .compare_exchange::<Enter>(&mut self.seat, word, 0, pack);
        if found == 0 { Ok(()) } else { Err(found) }
    }
}
