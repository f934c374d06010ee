//! The fields of rows.
ghost use Rattle.std.specs.Prelude.{◌≡◌, ℕ, ◌<◌, ◌≤◌};
ghost use Rattle.fr_layout.specs.declared.plan.Block.{Block};
ghost use Rattle.fr_layout.specs.Places.{field_at, IsIn};
ghost use Rattle.fr_layout.specs.Meaning.{IsGood};
ghost use Rattle.fr_words.specs.Notes.{wrote, met};
ghost use Rattle.fr_words.specs.Lawful.{Lawful, IsLawful};
ghost use Rattle.fr_words.specs.Asks.{MayFill, IsComplete};
ghost use Rattle.fr_words.specs.Hands.{note, IsOf};

use crate::hand::Hand;
use crate::plays::{Fill, Meet};
use crate::words::Words;

impl Hand {
    /// Writes a field of the hand's own unfinished block, which is still 0. Field 0 gets 1 and the
    /// rank of a permutation, and field x, for a letter x, 1 and the row of the block that is next
    /// there. Where this is the last field of the block, its rows are then pairwise unlike. It is
    /// one store.
    pub fn fill(&mut self, words: &Words, row: u32, field: u8, value: u64)
        requires of { IsOf words.now self.old }
        requires place { row < words.now.plan.capacity }
        requires asks { (b : Block) × MayFill words.now.plan (note self.old) b row field value }
        ensures of { IsOf words.now self.new }
        ensures noted { note self.new ≡ wrote (note self.old) (field_at words.now.plan row field) value }
        ensures lawful { Lawful (note self.old) (field_at words.now.plan row field) 0 × IsLawful (note self.new) }
    {
        let word = words.plan.field_word(row, field);
        words
            .table
            .shared
            .store::<Fill>(&mut self.seat, word, value);
    }

    /// A field of a row. Where the row's block is known to be complete, it is not 0, and such as
    /// may stand there. It is one load.
    pub fn row_word(&mut self, words: &Words, row: u32, field: u8) -> u64
        requires of { IsOf words.now self.old }
        requires place { (row < words.now.plan.capacity) × (field ≤ words.now.plan.letters) }
        ensures of { IsOf words.now self.new }
        ensures noted { note self.new ≡ met (note self.old) (field_at words.now.plan row field) result }
        ensures found { (note self.new).found ≡ result }
        ensures complete { (b : Block) → IsComplete words.now.plan (note self.old) b → IsIn row b → (0 < result) × IsGood words.now.plan.letters b field result }
        ensures lawful { Lawful (note self.old) (field_at words.now.plan row field) result × IsLawful (note self.new) }
    {
        let word = words.plan.field_word(row, field);
        words.table.shared.load::<Meet>(&mut self.seat, word)
    }
}
