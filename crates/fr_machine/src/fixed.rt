//! Walks over at most 1,024 keys, which take no memory as they go.

ghost use Rattle.std.specs.Prelude.{◌≡◌, ◌<◌, ◌≤◌, ◌⊎◌, [], ◌∷◌, ◌++◌, IfOk, MatchOption, length, slice_index};
ghost use Rattle.fr_machine.specs.Walks.{IsKeys, IsNumbered};

use fr_alphabet::NoMemory;
use std::alloc::Global;
use std::marker::Model;

/// Keys below 1,024, numbered from 0 in the order in which they are met, in tables that are taken once and may serve one
/// walk after the other. This project's own, for walks over the rows of minimal machines.
#[derive(Debug, Drop)]
pub struct FixedWalk {
    // For each key 0, or its number and one more.
    index: Vec<u16>,
    // The keys that were met, and room for more.
    table: Vec<u16>,
    // How many keys were met.
    count: u16,
}

// Clauses see the keys that were met.
impl Model for FixedWalk {
    ghost use Rattle.std.specs.Prelude.{take};
    ghost use Rattle.fr_machine.specs.Walks.{WalkView, IsFixed};

    ghost Value = { WalkView };

    ghost view = { λ w. record { bound = 1024; keys = take w.count w.table.items } };

    ghost invariant = { λ w. IsFixed w.index.items w.table.items w.count };
}

impl FixedWalk {
    /// A walk that has met no key. The only error is want of memory.
    pub fn new(alloc: Global) -> Result<FixedWalk, NoMemory>
        ensures { IfOk result (λ w. w ≡ record { bound = 1024; keys = [] }) }
    {
        Ok(FixedWalk {
            index: vec![in alloc; 0u16; 1024]?,
            table: vec![in alloc; 0u16; 1024]?,
            count: 0,
        })
    }

    /// The number of a key below 1,024, which it has from now on.
    pub fn number(&mut self, key: u16) -> u16
        requires key { key < 1024 }
        ensures { IsNumbered self.old self.new key 1024 result }
    {
        let known = self.index[key as usize];
        if known > 0 {
            return known - 1;
        }
        let number = self.count;
        prove!(number < 1024);
        self.table[number as usize] = key;
        self.index[key as usize] = number + 1;
        self.count = number + 1;
        number
    }

    /// How many keys were met: 0 to 1,024.
    pub fn count(&self) -> u16
        ensures value { result ≡ length self.now.keys }
        ensures most { result ≤ 1024 }
        ensures valid { IsKeys 1024 self.now.keys }
    {
        self.count
    }

    /// The key of a number below the count.
    pub fn key(&self, number: u16) -> u16
        requires { number < length self.now.keys }
        ensures value { result ≡ slice_index self.now.keys number }
        ensures below { result < 1024 }
        ensures valid { IsKeys 1024 self.now.keys }
    {
        self.table[number as usize]
    }

    /// Forgets the keys that were met, in time of their number.
    pub fn clear(&mut self)
        ensures { self.new ≡ record { bound = 1024; keys = [] } }
    {
        for i in 0..self.count {
            self.index[self.table[i as usize] as usize] = 0;
        }
        self.count = 0;
    }
}
