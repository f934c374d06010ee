//! Walks that number keys in the order in which they meet them.

ghost use Rattle.std.specs.Prelude.{◌≡◌, ◌<◌, ◌≤◌, [], ◌∷◌, IfOk, MatchOption, MatchResult, length, slice_index};
ghost use Rattle.std.specs.List.{Contains};
ghost use Rattle.fr_machine.specs.Walks.{IsKeys, IsNumbered, IsPassed};

use fr_alphabet::NoMemory;
use std::alloc::Global;
use std::marker::Model;

// For how many keys room is taken at first, so that short walks take it once.
const FIRST_ROOM: usize = 64;

/// Keys below a bound, numbered from 0 in the order in which they are met, at most 65,536 of them. Numbers are found in
/// constant time. This project's own, for breadth-first walks whose keys are rows or pairs of rows.
#[derive(Debug, Drop)]
pub struct Walk {
    // For each key 0, or its number and one more.
    index: Vec<u32>,
    keys: Vec<u32>,
}

// Clauses see the bound and the keys that were met.
impl Model for Walk {
    ghost use Rattle.std.specs.Prelude.{length};
    ghost use Rattle.fr_machine.specs.Walks.{WalkView, IsIndexed};

    ghost Value = { WalkView };

    ghost view = { λ w. record { bound = length w.index.items; keys = w.keys.items } };

    ghost invariant = { λ w. IsIndexed w.index.items w.keys.items };
}

impl Walk {
    /// A walk that has met no key, for keys below a bound. The only error is want of memory.
    pub fn new(alloc: Global, bound: usize) -> Result<Walk, NoMemory>
        ensures { IfOk result (λ w. w ≡ record { bound = bound; keys = [] }) }
    {
        Ok(Walk {
            index: vec![in alloc; 0u32; bound]?,
            keys: Vec::with_capacity(alloc, bound.min(FIRST_ROOM))?,
        })
    }

    /// A walk over keys below a bound that has met this key alone. The only error is want of memory.
    pub fn from_key(alloc: Global, bound: usize, key: u32) -> Result<Walk, NoMemory>
        requires { key < bound }
        ensures { IfOk result (λ w. w ≡ record { bound = bound; keys = key ∷ [] }) }
    {
        let mut walk = Walk::new(alloc, bound)?;
        walk.number(key, 1)?;
        Ok(walk)
    }

    /// The keys that were met, in the order of their numbers.
    pub fn keys(&self) -> &[u32]
        ensures value { result.now ≡ self.now.keys }
        ensures valid { IsKeys self.now.bound self.now.keys }
    {
        &self.keys
    }

    /// The number of a key below the bound, which it has from now on. The answer is `None`, and nothing changes, exactly
    /// where the key is new and as many keys as the limit, at most 65,536, were met. The only error is want of memory.
    pub fn number(&mut self, key: u32, limit: usize) -> Result<Option<u16>, NoMemory>
        requires key { key < self.old.bound }
        requires limit { limit ≤ 65536 }
        requires room { length self.old.keys ≤ limit }
        ensures { MatchResult result (λ o. MatchOption o (IsPassed self.old self.new key limit) (λ n. IsNumbered self.old self.new key limit n)) (λ _. self.new ≡ self.old) }
    {
        let known = self.index[key as usize];
        if known > 0 {
            return Ok(Some((known - 1) as u16));
        }
        let number = self.keys.len();
        if number >= limit {
            return Ok(None);
        }
        self.keys.push(key)?;
        self.index[key as usize] = number as u32 + 1;
        Ok(Some(number as u16))
    }

    /// The number of a key below the bound, if it was met.
    pub fn known(&self, key: u32) -> Option<u16>
        requires { key < self.now.bound }
        ensures { MatchOption result (¬ Contains self.now.keys key) (λ n. (n < length self.now.keys) × (slice_index self.now.keys n ≡ key)) }
    {
        let known = self.index[key as usize];
        if known == 0 {
            return None;
        }
        Some((known - 1) as u16)
    }

    /// The number of a key below the bound, which it has from now on, where the bound is at most 65,536, so that each key
    /// has room. The only error is want of memory.
    pub fn number_of(&mut self, key: u32) -> Result<u16, NoMemory>
        requires key { key < self.old.bound }
        requires bound { self.old.bound ≤ 65536 }
        ensures { MatchResult result (λ n. IsNumbered self.old self.new key 65536 n) (λ _. self.new ≡ self.old) }
    {
        let _keys = self.keys();
        match self.number(key, 65536)? {
            Some(number) => Ok(number),
            None => unreachable!(),
        }
    }
}
