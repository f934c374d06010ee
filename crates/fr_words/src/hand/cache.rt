//! The cache of products.
ghost use Rattle.std.specs.Prelude.{◌≡◌, ◌<◌};
ghost use Rattle.fr_layout.specs.Places.{cache_at};
ghost use Rattle.fr_words.specs.Notes.{ticked, met_product};
ghost use Rattle.fr_words.specs.Lawful.{Lawful, IsLawful};
ghost use Rattle.fr_words.specs.Asks.{MayCache};
ghost use Rattle.fr_words.specs.Hands.{note, IsOf};

use crate::hand::Hand;
use crate::plays::{MeetProduct, Swap};
use crate::words::Words;

impl Hand {
    /// A word of the cache: 0, or that of a product. It is one load.
    pub fn cache_word(&mut self, words: &Words, place: u16) -> u64
        requires of { IsOf words.now self.old }
        ensures of { IsOf words.now self.new }
        ensures noted { note self.new ≡ met_product (note self.old) (cache_at words.now.plan place) result }
        ensures found { (note self.new).found ≡ result }
        ensures lawful { Lawful (note self.old) (cache_at words.now.plan place) result × IsLawful (note self.new) }
    {
        let word = words.plan.cache_word(place);
        words.table.shared.load::<MeetProduct>(&mut self.seat, word)
    }

    /// Puts a product into the cache, and gives the word that stood there. `new` names three
    /// handles that the hand knows; the third is known to be the product of the others, which have
    /// at most 65,536 pairs of sections. It is one swap.
    pub fn swap_cache(&mut self, words: &Words, place: u16, new: u64) -> u64
        requires of { IsOf words.now self.old }
        requires asks { MayCache words.now.plan (note self.old) new }
        ensures of { IsOf words.now self.new }
        ensures noted { note self.new ≡ ticked (note self.old) (cache_at words.now.plan place) result new }
        ensures found { (note self.new).found ≡ result }
        ensures lawful { Lawful (note self.old) (cache_at words.now.plan place) result × IsLawful (note self.new) }
    {
        let word = words.plan.cache_word(place);
        words.table.shared.swap::<Swap>(&mut self.seat, word, new)
    }
}
