//! The pairs of rows that words lead to, in the order of the words, without those that the earlier ones make alike.

ghost use Rattle.std.specs.Prelude.{◌≡◌, ◌<◌, ◌≤◌, ◌+◌, ◌++◌, ℕ, [], ◌∷◌, List, IfOk, length, slice_index_or, vec_capacity};
ghost use Rattle.fr_minimal.specs.Groups.{IsShared, joins};
ghost use Rattle.fr_minimal.specs.Searches.{AgreeOnMet, AreInside, AreWords, IsLinked, IsMeeting, met_at};

use crate::groups::Groups;
use crate::met::Met;
use fr_alphabet::NoMemory;
use std::alloc::Global;

/// The pairs that were met, in order, and groups of the rows of both machines, those of the right one behind those of the
/// left one. A pair is met only where its rows lie in two groups, which it makes one (Hopcroft and Karp, A linear algorithm
/// for testing the equivalence of finite automata). So there are fewer pairs than rows of both machines.
#[derive(Drop)]
pub struct Search {
    pub left_rows: u16,
    pub groups: Groups,
    pub met: Vec<Met>,
    ghost inside: { AreInside left_rows (length groups.parents.items) met.items },
    ghost shared: { (image : ℕ → List ℕ) → AgreeOnMet left_rows met.items image → IsShared groups.parents.items image },
    ghost counted: { length met.items ≡ joins groups.parents.items },
    ghost room: { length groups.parents.items ≤ vec_capacity met },
}

impl Search {
    /// The search that has met this pair alone, among so many rows on the left and on the right. The only error is want of
    /// memory.
    pub fn new(
        alloc: Global,
        left_rows: u16,
        right_rows: u16,
        first: Met,
    ) -> Result<Search, NoMemory>
        requires few { left_rows + right_rows ≤ 65535 }
        requires left { first.left < left_rows }
        requires right { first.right < right_rows }
        ensures left_rows { IfOk result (λ s. s.left_rows ≡ left_rows) }
        ensures rows { IfOk result (λ s. length s.groups.parents.items ≡ left_rows + right_rows) }
        ensures met { IfOk result (λ s. s.met.items ≡ first ∷ []) }
    {
        let rows = left_rows + right_rows;
        let mut search = Search {
            left_rows,
            groups: Groups::new(alloc, rows)?,
            met: Vec::with_capacity(alloc, rows as usize)?,
        };
        search.meet(first);
        Ok(search)
    }

    /// Enters a pair at the end, unless its rows lie in one group.
    pub fn meet(&mut self, met: Met)
        requires left { met.left < self.old.left_rows }
        requires right { self.old.left_rows + met.right < length self.old.groups.parents.items }
        ensures left_rows { self.new.left_rows ≡ self.old.left_rows }
        ensures rows { length self.new.groups.parents.items ≡ length self.old.groups.parents.items }
        ensures met { IsMeeting self.old.left_rows self.old.met.items self.new.met.items met }
    {
        if self.groups.join(met.left, self.left_rows + met.right) {
            self.met.push_reserved(met);
        }
    }

    /// How many pairs were met: fewer than the rows of both machines together.
    pub fn count(&self) -> u16
        requires { 0 < length self.now.groups.parents.items }
        ensures value { result ≡ length self.now.met.items }
        ensures fewer { result < length self.now.groups.parents.items }
    {
        self.met.len() as u16
    }

    /// The letters that lead to the pair at a place, and `last` behind them. The only error is want of memory.
    pub fn word_to(&self, alloc: Global, place: u16, last: u8) -> Result<Vec<u8>, NoMemory>
        requires place { place < length self.now.met.items }
        requires linked { IsLinked self.now.met.items }
        ensures { IfOk result (λ w. (words : List (List ℕ)) → AreWords self.now.met.items words → w.items ≡ slice_index_or words place [] ++ last ∷ []) }
    {
        let mut letters = Vec::new(alloc);
        letters.push(last)?;
        let mut at = place;
        while at > 0 {
            let met = self.met[at as usize];
            letters.push(met.letter)?;
            at = met.before;
        }
        letters.reverse();
        Ok(letters)
    }
}
