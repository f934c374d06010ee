//! Products of rows that were published, put into the cache.
ghost use Rattle.std.specs.Prelude.{◌≡◌, [], ◌∷◌, ◌+◌, ◌<◌};
ghost use Rattle.fr_model.specs.Permutations.{identity_permutation};
ghost use Rattle.fr_model.specs.Terms.{Product, IsAlike};
ghost use Rattle.fr_model.specs.Classes.{HasFewPairs};
ghost use Rattle.fr_machine.specs.Rows.{IsMachine, row_term};
ghost use Rattle.fr_layout.specs.Places.{cache_at};
ghost use Rattle.fr_layout.specs.Packs.{product_word, pair_place};
ghost use Rattle.fr_words.specs.Notes.{ticked};
ghost use Rattle.fr_words.specs.Hands.{note, IsOf};
ghost use Rattle.fr_words_examples.specs.Filling.{KnowsRows, IsPublished};

use crate::Placed;
use fr_layout::{pair_place, product_word};
use fr_machine::Row;
use fr_words::{Hand, Words};

/// A row of a machine that was published, which is a handle.
#[derive(Clone, Copy)]
pub struct Published<'a> {
    /// The machine.
    pub machine: Placed<'a>,
    /// The number of the row in the machine.
    pub row: u16,
}

/// Puts into the cache that the third element is the product of the first and the second, whichever
/// machines they were published with, and gives the word that stood there. The two have at most 65,536
/// pairs of sections.
pub fn cache_product(
    first: Published<'_>,
    second: Published<'_>,
    third: Published<'_>,
    words: &Words,
    hand: &mut Hand,
) -> u64
    requires of { IsOf words.now hand.old }
    requires first { IsPublished words.now.plan (note hand.old) first.machine.start first.machine.rows.now first.row }
    requires second { IsPublished words.now.plan (note hand.old) second.machine.start second.machine.rows.now second.row }
    requires third { IsPublished words.now.plan (note hand.old) third.machine.start third.machine.rows.now third.row }
    requires product { IsAlike (row_term third.machine.rows.now third.row) (Product (row_term first.machine.rows.now first.row) (row_term second.machine.rows.now second.row)) }
    requires few { HasFewPairs words.now.plan.letters (row_term first.machine.rows.now first.row) (row_term second.machine.rows.now second.row) }
    ensures of { IsOf words.now hand.new }
    ensures noted { note hand.new ≡ ticked (note hand.old) (cache_at words.now.plan (pair_place (first.entry.machine.start + first.entry.row) (second.entry.machine.start + second.entry.row))) result (product_word (first.entry.machine.start + first.entry.row) (second.entry.machine.start + second.entry.row) (third.entry.machine.start + third.entry.row)) }
{
    let a = first.number(words, hand);
    let b = second.number(words, hand);
    let c = third.number(words, hand);
    hand.swap_cache(words, pair_place(a, b), product_word(a, b, c))
}

/// Puts the square of the identity, which is the identity, into the cache, and gives the word that
/// stood there. The identity was published by itself, as a machine of one row, which is row `start` of
/// the table.
pub fn cache_square(row: &Row, start: u32, words: &Words, hand: &mut Hand) -> u64
    requires of { IsOf words.now hand.old }
    requires machine { IsMachine words.now.plan.letters (row.now ∷ []) }
    requires identity { row.now.perm ≡ identity_permutation words.now.plan.letters }
    requires known { KnowsRows words.now.plan (note hand.old) start (row.now ∷ []) }
    ensures of { IsOf words.now hand.new }
    ensures noted { note hand.new ≡ ticked (note hand.old) (cache_at words.now.plan (pair_place start start)) result (product_word start start start) }
{
    let rows = [*row];
    let machine = Placed { rows: &rows, start };
    let identity = Published { machine, row: 0 };
    cache_product(identity, identity, identity, words, hand)
}

impl Published<'_> {
    // The row of the table.
    fn number(&self, words: &Words, hand: &Hand) -> u32
        requires { IsPublished words.now.plan (note hand.now) self.now.machine.start self.now.machine.rows.now self.now.row }
        ensures { (result ≡ self.now.machine.start + self.now.row) × (result < 1048576) }
    {
        // For the proof: the capacity is small, and the hand knows the row.
        let _plan = words.plan();
        let _hand = hand;
        self.machine.start + self.row as u32
    }
}
