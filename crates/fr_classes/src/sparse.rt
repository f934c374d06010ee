//! Walks over keys of any size, found by their remainders.

ghost use Rattle.std.specs.Prelude.{ℕ, ◌≡◌, ◌≢◌, ◌<◌, ◌≤◌, [], IfOk, MatchOption, OnOk, length, slice_index};
ghost use Rattle.fr_classes.specs.Sparse.{IsSparse, IsMet};

use fr_alphabet::NoMemory;
use std::alloc::Global;

/// Keys that are numbered from 0 in the order in which they are met, as by `Walk`, in buckets by their remainders.
#[derive(Drop)]
pub struct SparseWalk {
    // The keys that were met.
    keys: Vec<u32>,
    // For each key the number of the one of the same bucket that was met before it, and one more; 0 if there is none.
    earlier: Vec<u32>,
    // For each bucket the number of its latest key, and one more; 0 if there is none.
    latest: Vec<u32>,
}

impl SparseWalk {
    /// A walk that has met no key; `count` is about how many are to come, and has to do with speed alone. The only error
    /// is want of memory.
    pub fn new(alloc: Global, count: usize) -> Result<SparseWalk, NoMemory>
        ensures sparse { IfOk result IsSparse }
        ensures keys { IfOk result (λ w. w.keys.items ≡ []) }
    {
        let buckets = buckets_for(count);
        Ok(SparseWalk {
            keys: Vec::new(alloc),
            earlier: Vec::new(alloc),
            latest: vec![in alloc; 0u32; buckets]?,
        })
    }

    // The number of a key, if it was met.
    fn find(&self, key: u32) -> Option<u32>
        requires { IsSparse self.now }
        ensures { MatchOption result ((i : ℕ) → i < length self.now.keys.items → slice_index self.now.keys.items i ≢ key) (λ n. (n < length self.now.keys.items) × (slice_index self.now.keys.items n ≡ key)) }
    {
        let mut next = self.latest[key as usize % self.latest.len()];
        while next > 0 {
            let number = next - 1;
            if self.keys[number as usize] == key {
                return Some(number);
            }
            next = self.earlier[number as usize];
        }
        None
    }

    /// The number of a key, which it has from now on. At most 65,536 keys are met. The only error is want of memory.
    pub fn number(&mut self, key: u32) -> Result<u32, NoMemory>
        requires sparse { IsSparse self.old }
        requires room { length self.old.keys.items < 65536 }
        ensures sparse { OnOk result (IsSparse self.new) }
        ensures met { IfOk result (λ n. IsMet self.old.keys.items self.new.keys.items key n) }
    {
        if let Some(number) = self.find(key) {
            return Ok(number);
        }
        let number = self.keys.len() as u32;
        let bucket = key as usize % self.latest.len();
        self.keys.push(key)?;
        self.earlier.push(self.latest[bucket])?;
        self.latest[bucket] = number + 1;
        Ok(number)
    }

    /// Whether there are so many keys that more buckets would serve them better, which has to do with speed alone.
    pub fn is_crowded(&self) -> bool {
        self.keys.len() / 4 > self.latest.len() && self.latest.len() < MOST_BUCKETS
    }

    /// How many keys were met.
    pub fn count(&self) -> usize
        ensures { result ≡ length self.now.keys.items }
    {
        self.keys.len()
    }
}

// The most buckets of a walk: as many as there are keys at most, so that hashes that are good have a bucket each.
const MOST_BUCKETS: usize = 65536;

// How many buckets serve about so many keys: chains stay short, and the table is soon made.
fn buckets_for(count: usize) -> usize
    ensures { 0 < result }
{
    match count {
        0..=63 => 64,
        64..=255 => 256,
        256..=1023 => 1024,
        1024..=4095 => 4096,
        4096..=16383 => 16384,
        _ => MOST_BUCKETS,
    }
}
