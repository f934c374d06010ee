//! Numbers of keys, found by a hash.

ghost use Rattle.std.specs.Prelude.{ℕ, ◌≡◌, ◌<◌, List, None, IfOk, OnOk, length};
ghost use Rattle.fr_classes.specs.KeyTables.{IsKeyTable, IsEntered, bucket_of, number_in};

use fr_alphabet::NoMemory;
use std::alloc::Global;

/// A class and a signature.
pub type Key = [u16; 17];

/// A key with its number.
#[derive(Clone, Copy)]
pub struct Entry {
    /// The key.
    pub key: Key,
    /// Its number.
    pub number: u16,
    /// The number of the entry of the same bucket that was made before this one, where entries are numbered from 1; 0 if
    /// there is none.
    pub earlier: usize,
}

/// Keys with their numbers, in buckets by a hash of the key.
#[derive(Drop)]
pub struct KeyTable {
    entries: Vec<Entry>,
    // For each bucket the number of its latest entry; 0 if there is none.
    latest: Vec<usize>,
}

impl KeyTable {
    /// No keys; `count` is about how many are to come, and has to do with speed alone. The only error is want of memory.
    pub fn new(alloc: Global, count: usize) -> Result<KeyTable, NoMemory>
        ensures table { IfOk result IsKeyTable }
        ensures none { IfOk result (λ t. (key : List ℕ) → number_in t key ≡ None) }
    {
        let buckets = bucket_count(count);
        Ok(KeyTable {
            entries: Vec::new(alloc),
            latest: vec![in alloc; 0usize; buckets]?,
        })
    }

    // The bucket of a key: its hash modulo the number of buckets. The hash begins with the class; the class of each next row in
    // turn makes it 1,000,003 times itself and the class more, modulo 2^32. What is put out is left out: rows of one class
    // mostly agree in it.
    fn bucket(&self, key: &Key) -> usize
        requires table { IsKeyTable self.now }
        ensures value { result ≡ bucket_of (length self.now.latest.items) key.now }
        ensures bucket { result < length self.now.latest.items }
    {
        let mut hash = key[0] as u64;
        for place in 9..17 {
            hash = (hash * 1000003 + key[place] as u64) % 4294967296;
        }
        hash as usize % self.latest.len()
    }

    /// The number that a key was given last, if it has one.
    pub fn number_of(&self, key: &Key) -> Option<u16>
        requires table { IsKeyTable self.now }
        ensures { result ≡ number_in self.now key.now }
    {
        let mut number = self.latest[self.bucket(key)];
        while number > 0 {
            let entry = &self.entries[number - 1];
            if entry.key == *key {
                return Some(entry.number);
            }
            number = entry.earlier;
        }
        None
    }

    /// Gives a key a number. The only error is want of memory.
    pub fn enter(&mut self, key: &Key, number: u16) -> Result<(), NoMemory>
        requires table { IsKeyTable self.old }
        ensures table { OnOk result (IsKeyTable self.new) }
        ensures entered { OnOk result (IsEntered self.old self.new key.now number) }
    {
        let bucket = self.bucket(key);
        self.entries.push(Entry {
            key: *key,
            number,
            earlier: self.latest[bucket],
        })?;
        self.latest[bucket] = self.entries.len();
        Ok(())
    }
}

// How many buckets serve so many keys.
fn bucket_count(count: usize) -> usize
    ensures { 0 < result }
{
    match count {
        0..64 => 16,
        64..1024 => 256,
        1024..16384 => 4096,
        _ => 65536,
    }
}
