//! The links of rows.
ghost use Rattle.std.specs.Prelude.{◌≡◌, ℕ, ◌<◌, MatchResult};
ghost use Rattle.fr_layout.specs.declared.plan.Block.{Block};
ghost use Rattle.fr_layout.specs.Places.{link_at};
ghost use Rattle.fr_layout.specs.Packs.{pack_of, IsPack};
ghost use Rattle.fr_words.specs.Notes.{wrote, learned, met};
ghost use Rattle.fr_words.specs.Lawful.{Lawful, IsLawful};
ghost use Rattle.fr_words.specs.Asks.{MayLink};
ghost use Rattle.fr_words.specs.Hands.{note, IsOf};

use crate::hand::Hand;
use crate::plays::{Meet, SetLink};
use crate::words::Words;

impl Hand {
    /// The link of a row: 0, or the pack of a row that stands in a cell and acts alike. It is one
    /// load.
    pub fn link(&mut self, words: &Words, row: u32) -> u64
        requires of { IsOf words.now self.old }
        requires place { row < words.now.plan.capacity }
        ensures of { IsOf words.now self.new }
        ensures noted { note self.new ≡ met (note self.old) (link_at words.now.plan row) result }
        ensures found { (note self.new).found ≡ result }
        ensures pack { 0 < result → IsPack words.now.plan result }
        ensures lawful { Lawful (note self.old) (link_at words.now.plan row) result × IsLawful (note self.new) }
    {
        let word = words.plan.link_word(row);
        words.table.shared.load::<Meet>(&mut self.seat, word)
    }

    /// Sets the link of a row to a pack: a compare and exchange from 0. The row's block is known to
    /// be complete, the pack stands in a cell that the hand saw, and its row is known to act alike.
    ///
    /// # Errors
    ///
    /// The link that is there, exactly where it is not 0.
    pub fn set_link(&mut self, words: &Words, row: u32, pack: u64) -> Result<(), u64>
        requires of { IsOf words.now self.old }
        requires place { row < words.now.plan.capacity }
        requires asks { (d : Block) × (q : ℕ) × (pack ≡ pack_of d q) × MayLink words.now.plan (note self.old) row d q }
        ensures of { IsOf words.now self.new }
        ensures linked { MatchResult result (λ _. note self.new ≡ wrote (note self.old) (link_at words.now.plan row) pack) (λ there. (0 < there) × IsPack words.now.plan there × (note self.new ≡ learned (note self.old) (link_at words.now.plan row) there)) }
        ensures found { MatchResult result (λ _. (note self.new).found ≡ 0) (λ there. (note self.new).found ≡ there) }
        ensures met { MatchResult result (λ _. Lawful (note self.old) (link_at words.now.plan row) 0) (λ there. Lawful (note self.old) (link_at words.now.plan row) there) }
        ensures lawful { IsLawful (note self.new) }
    {
        let word = words.plan.link_word(row);
        let found = words
            .table
            .shared
            .compare_exchange::<SetLink>(&mut self.seat, word, 0, pack);
        if found == 0 { Ok(()) } else { Err(found) }
    }
}
