//! Section words, numbered in the order in which they are met.

ghost use Rattle.std.specs.Prelude.{◌≡◌, ◌+◌, ◌<◌, ◌≤◌, [], ℕ, IfOk, MatchOption, length, slice_index_or};
ghost use Rattle.fr_block.specs.Blocks.{product_of};
ghost use Rattle.fr_block.specs.Closures.{AreApart, AreNameWords, IsNumbered, IsPassed};

use crate::block::Factor;
use fr_alphabet::NoMemory;
use indexmap::IndexSet;
use std::alloc::Global;
use std::marker::Model;

// The most section words that the machine of a name has.
const WORD_LIMIT: usize = 8192;

// The most members that a section word has.
const MEMBER_LIMIT: usize = 4096;

/// Products of names and inverses of names, no two of them equal, numbered from 0.
#[derive(Drop)]
pub struct Words {
    set: IndexSet<Vec<Factor>>,
}

// Clauses see the products in their order.
impl Model for Words {
    ghost use Rattle.std.specs.Prelude.{List, map};
    ghost use Rattle.fr_model.specs.Systems.{Factor};
    ghost use Rattle.fr_block.specs.Blocks.{product_of};
    ghost use Rattle.fr_block.specs.Closures.{AreApart};

    ghost Value = { List (List Factor) };

    ghost view = { λ w. map (λ k. product_of k.items) w.set.keys };

    ghost invariant = { λ w. AreApart (map (λ k. product_of k.items) w.set.keys) };
}

impl Words {
    /// The words of the names from the first on, each of its name alone. The only error is want of memory.
    pub fn of_names(alloc: Global, first: u16, count: u16) -> Result<Words, NoMemory>
        requires { first + count ≤ 4095 }
        ensures { IfOk result (λ w. AreNameWords first count w) }
    {
        let mut words = Words {
            set: IndexSet::new(alloc),
        };
        for name in first..first + count {
            let alone = [Factor {
                name,
                inverse: false,
            }];
            words.number(alloc, &alone)?;
        }
        Ok(words)
    }

    /// How many words there are.
    pub fn count(&self) -> usize
        ensures count { result ≡ length self.now }
        ensures apart { AreApart self.now }
    {
        self.set.len()
    }

    /// The word of a number.
    pub fn word(&self, number: u16) -> &[Factor]
        requires { number < length self.now }
        ensures { product_of result.now ≡ slice_index_or self.now number [] }
    {
        &self.set.as_slice()[number as usize]
    }

    /// The number of a word, which it has from now on. The answer is `None` exactly where the word has more than 4,096
    /// members, or is new and 8,192 words are known. The only error is want of memory.
    pub fn number(&mut self, alloc: Global, word: &[Factor]) -> Result<Option<u16>, NoMemory>
        requires { length self.old ≤ 8192 }
        ensures { IfOk result (λ o. MatchOption o (IsPassed self.old self.new (product_of word.now)) (λ n. IsNumbered self.old self.new (product_of word.now) n)) }
    {
        if word.len() > MEMBER_LIMIT {
            return Ok(None);
        }
        if let Some(number) = self.set.get_index_of(word) {
            return Ok(Some(number as u16));
        }
        let (number, _) = self.set.insert_full(Vec::from_slice(alloc, word)?)?;
        if self.set.len() > WORD_LIMIT {
            return Ok(None);
        }
        Ok(Some(number as u16))
    }
}
