//! Rows in groups, of which two at a time become one.

ghost use Rattle.std.specs.Prelude.{◌≡◌, ◌<◌, ◌≤◌, ◌+◌, ℕ, List, IfOk, length, slice_index, false, if◌then◌else◌};
ghost use Rattle.fr_minimal.specs.Groups.{AreParents, IsShared, IsRearranged, joins};

use fr_alphabet::NoMemory;
use std::alloc::Global;

/// Rows in groups, as a forest with a tree for each group (Tarjan, Efficiency of a good but not linear set union algorithm):
/// above each row stands a smaller row of its group, and above the least row of a group that row itself.
#[derive(Drop)]
pub struct Groups {
    pub parents: Vec<u16>,
    ghost sorted: { AreParents parents.items },
    ghost few: { length parents.items ≤ 65535 },
}

impl Groups {
    /// So many rows, each alone in its group. The only error is want of memory.
    pub fn new(alloc: Global, count: u16) -> Result<Groups, NoMemory>
        ensures size { IfOk result (λ g. length g.parents.items ≡ count) }
        ensures alone { IfOk result (λ g. (i : ℕ) → i < count → slice_index g.parents.items i ≡ i) }
    {
        let mut parents = Vec::with_capacity(alloc, count as usize)?;
        for row in 0..count {
            parents.push(row)?;
        }
        Ok(Groups { parents })
    }

    /// Makes the groups of two rows one. The answer is whether they were two.
    pub fn join(&mut self, a: u16, b: u16) -> bool
        requires first { a < length self.old.parents.items }
        requires second { b < length self.old.parents.items }
        ensures size { length self.new.parents.items ≡ length self.old.parents.items }
        ensures shared { (image : ℕ → List ℕ) → IsShared self.old.parents.items image → image a ≡ image b → IsShared self.new.parents.items image }
        ensures one { result ≡ false → (image : ℕ → List ℕ) → IsShared self.old.parents.items image → image a ≡ image b }
        ensures joins { joins self.new.parents.items ≡ joins self.old.parents.items + (if result then 1 else 0) }
    {
        let first = self.least(a);
        let second = self.least(b);
        if first == second {
            return false;
        }
        self.parents[first.max(second) as usize] = first.min(second);
        true
    }

    // The least row of the group of a row. The rows on the way there come nearer to it.
    fn least(&mut self, row: u16) -> u16
        requires { row < length self.old.parents.items }
        ensures rearranged { IsRearranged self.old.parents.items self.new.parents.items }
        ensures below { result < length self.new.parents.items }
        ensures least { slice_index self.new.parents.items result ≡ result }
        ensures same { (image : ℕ → List ℕ) → IsShared self.old.parents.items image → image result ≡ image row }
    {
        let mut at = row;
        let mut parent = self.parents[at as usize];
        while parent != at {
            let above = self.parents[parent as usize];
            self.parents[at as usize] = above;
            at = above;
            parent = self.parents[at as usize];
        }
        at
    }
}
