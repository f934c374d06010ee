//! Hashes of rows, which are equal where rows act alike.

ghost use Rattle.std.specs.Prelude.{ℕ, ◌≡◌, ◌<◌, ◌≤◌, ◌+◌, ◌*◌, ◌/◌, ◌%◌, IfOk, length};
ghost use Rattle.fr_machine.specs.Rows.{IsRow, IsMachine};
ghost use Rattle.fr_classes.specs.Hashes.{hash_of, AreHashes, AreInvariant};

use fr_alphabet::NoMemory;
use fr_machine::Row;
use std::alloc::Global;
use std::mem;

/// For each row a hash of what it puts out on words of at most so many letters. Rows that act alike have one hash. The only
/// error is want of memory.
pub fn hashes(alloc: Global, rows: &[Row], depth: usize) -> Result<Vec<u32>, NoMemory>
    requires { (d : ℕ) × IsMachine d rows.now }
    ensures count { IfOk result (λ hs. length hs.items ≡ length rows.now) }
    ensures alike { IfOk result (λ hs. AreInvariant rows.now hs.items) }
{
    let mut hashes = vec![in alloc; 0u32; rows.len()]?;
    let mut shorter = vec![in alloc; 0u32; rows.len()]?;
    for _ in 0..depth {
        mem::swap(&mut hashes, &mut shorter);
        hash_rows(rows, &shorter, &mut hashes);
    }
    Ok(hashes)
}

// The hashes for one letter more.
fn hash_rows(rows: &[Row], shorter: &[u32], hashes: &mut Vec<u32>)
    requires machine { (d : ℕ) × IsMachine d rows.now }
    requires shorter { length shorter.now ≡ length rows.now }
    requires hashes { length hashes.old.items ≡ length rows.now }
    ensures { AreHashes rows.now shorter.now hashes.new.items }
{
    for (s, row) in rows.iter().enumerate() {
        hashes[s] = hash_of(row, shorter);
    }
}

// The hash of a row for one letter more: it begins with 7, and each letter in turn is mixed in.
fn hash_of(row: &Row, shorter: &[u32]) -> u32
    requires { IsRow (length row.now.perm) (length shorter.now) row.now }
    ensures { result ≡ hash_of row.now shorter.now (length row.now.perm) }
{
    let mut hash = 7u64;
    for x in 0..row.perm.letters() {
        let next = shorter[row.next[x as usize] as usize];
        hash = mixed(hash, next, row.perm.apply(x + 1));
    }
    hash as u32
}

/// A hash with a letter mixed in: adds the hash of the next row, takes the middle digits of a multiple, as multiplicative
/// hashing does, and adds the letter that is put out.
pub fn mixed(hash: u64, next: u32, output: u8) -> u64
    requires { hash < 4294967296 }
    ensures { result ≡ ((hash + next) * 1640531527 / 65536 + output) % 4294967296 }
{
    ((hash + next as u64) * 1640531527 / 65536 + output as u64) % 4294967296
}
