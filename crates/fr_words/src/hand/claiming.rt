//! The number of claimed rows.
ghost use Rattle.std.specs.Prelude.{◌≡◌, ℕ, ◌+◌, ◌<◌, ◌≤◌, IfOk, MatchResult};
ghost use Rattle.fr_layout.specs.Places.{field_at};
ghost use Rattle.fr_words.specs.Members.{Has};
ghost use Rattle.fr_words.specs.Notes.{saw, claimed};
ghost use Rattle.fr_words.specs.Lawful.{Lawful, IsLawful};
ghost use Rattle.fr_words.specs.Asks.{IsFinished};
ghost use Rattle.fr_words.specs.Hands.{note, IsOf};

use crate::hand::Hand;
use crate::plays::{Claim, Look};
use crate::words::Words;

impl Hand {
    /// The number of claimed rows. It is one load.
    pub fn look_claim(&mut self, words: &Words) -> u64
        requires of { IsOf words.now self.old }
        ensures of { IsOf words.now self.new }
        ensures noted { note self.new ≡ saw (note self.old) result }
        ensures found { (note self.new).found ≡ result }
        ensures range { ((note self.old).seen ≤ result) × (result ≤ words.now.plan.capacity) }
        ensures lawful { Lawful (note self.old) 0 result × IsLawful (note self.new) }
    {
        words.table.shared.load::<Look>(&mut self.seat, 0)
    }

    /// Claims `asked` rows, 1 to 1,024, where the number of claimed rows is `seen`: a compare and
    /// exchange of that number. It gives the first of the rows, which is `seen`. The hand saw so
    /// great a number, the rows fit into the table, and the hand has no unfinished block.
    ///
    /// # Errors
    ///
    /// The number of claimed rows, exactly where it is another one, and so a greater one.
    pub fn claim(&mut self, words: &Words, seen: u64, asked: u16) -> Result<u32, u64>
        requires of { IsOf words.now self.old }
        requires finished { IsFinished words.now.plan (note self.old) }
        requires seen { seen ≤ (note self.old).seen }
        requires asked { (0 < asked) × (asked ≤ 1024) }
        requires room { seen + asked ≤ words.now.plan.capacity }
        ensures of { IsOf words.now self.new }
        ensures claimed { MatchResult result (λ start. (start ≡ seen) × (note self.new ≡ claimed (note self.old) seen (seen + asked))) (λ now. (seen < now) × ((note self.old).seen ≤ now) × (now ≤ words.now.plan.capacity) × (note self.new ≡ saw (note self.old) now)) }
        ensures found { MatchResult result (λ start. (note self.new).found ≡ start) (λ now. (note self.new).found ≡ now) }

        // Nothing is noted of the block's fields, so each may be filled.
        ensures fresh { IfOk result (λ start. (r f x : ℕ) → start ≤ r → r < start + asked → f ≤ words.now.plan.letters → ¬ Has (note self.old).facts (field_at words.now.plan r f) x) }
        ensures met { MatchResult result (λ _. Lawful (note self.old) 0 seen) (λ now. Lawful (note self.old) 0 now) }
        ensures lawful { IsLawful (note self.new) }
    {
        let found = words
            .table
            .shared
            .compare_exchange::<Claim>(&mut self.seat, 0, seen, seen + asked as u64);
        if found == seen {
            Ok(seen as u32)
        } else {
            Err(found)
        }
    }
}
