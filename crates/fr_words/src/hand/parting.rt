//! One hand becomes two, and two become one.
ghost use Rattle.std.specs.Prelude.{◌≡◌, IsOk, IfOk};
ghost use Rattle.fr_words.specs.Notes.{parted, sprouted, united};
ghost use Rattle.fr_words.specs.Asks.{IsFinished};
ghost use Rattle.fr_words.specs.Hands.{note, IsOf};

use crate::hand::Hand;
use crate::plays::Part;
use crate::words::Words;
use fr_alphabet::NoMemory;

impl Hand {
    /// A second hand for the same table, for another thread, which knows all that this one knows
    /// and has claimed nothing. This one is of `words`. It is one load, whose value is not noted.
    ///
    /// # Errors
    ///
    /// None so far: a split takes no memory, and always succeeds.
    pub fn split(&mut self, words: &Words) -> Result<Hand, NoMemory>
        requires of { IsOf words.now self.old }
        ensures of { IsOf words.now self.new }
        ensures ok { IsOk result }
        ensures new { IfOk result (λ h. IsOf words.now h × (note h ≡ sprouted (note self.old))) }
        ensures old { note self.new ≡ parted (note self.old) }
    {
        let seat = words.table.shared.split_seat::<Part>(&mut self.seat);
        Ok(Hand { seat })
    }

    /// Takes back another hand of the table, which has no unfinished block: this one then knows what
    /// both knew, and what the other claimed and filled counts as its own. It is one load, whose
    /// value is not noted.
    pub fn join(&mut self, words: &Words, other: Hand)
        requires of { IsOf words.now self.old × IsOf words.now other }
        requires finished { IsFinished words.now.plan (note other) }
        ensures of { IsOf words.now self.new }
        ensures both { note self.new ≡ united (note self.old) (note other) }
    {
        let Hand { seat } = other;
        words.table.shared.join_seat::<Part>(&mut self.seat, seat);
    }
}
