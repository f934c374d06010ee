//! Sources of bytes, and reading one to its end.
ghost use Rattle.std.specs.Prelude.{◌≡◌, ◌+◌, ◌≤◌, ◌↔◌, List, Option, ℕ, IfOk, IsSome, OnErr, IsErrOf};
ghost use Rattle.std.specs.Io.{ReadsAtMost};
ghost use Rattle.std.specs.Io.KnownBytes.{ReadConsumes};
ghost use Rattle.fr_io.specs.Causes.{HasCause, Rose, raised};
ghost use Rattle.fr_io.specs.Taken.{SameTold, TookAll, TookFew, TookTooMany, TookSome};

use std::alloc::{AllocError, Global};

/// A fault of reading or writing.
///
/// It has no fields: its cause is the count of faults of the source or sink that answered it, which
/// rose.
#[derive(Clone, Copy, Debug, PartialEq, Eq)]
pub struct Failed;

impl Failed {
    // Counts a fault, to be answered.
    pub(crate) fn counted(faults: &mut u64) -> Failed
        ensures count { faults.new ≡ raised faults.old }
        ensures later { faults.old ≤ faults.new }
    {
        *faults = faults.saturating_add(1);
        Failed
    }
}

/// Why [`get_all`] stopped before the end of its source.
#[derive(Clone, Copy, Debug, PartialEq, Eq)]
pub enum ReadStop {
    /// A read failed: the count of faults of the source rose in this call.
    Failed,
    /// More bytes were taken than there may be.
    TooLong,
    /// There is no memory for the bytes.
    NoMemory,
}

impl From<Failed> for ReadStop {
    ghost use Rattle.std.specs.Prelude.{◌≡◌};
    ghost use Rattle.fr_io.specs.declared.source.ReadStop.TheVariants.{Failed};

    ghost from_gives = { λ _ stop. stop ≡ Failed };

    fn from(_failed: Failed) -> ReadStop {
        ReadStop::Failed
    }
}

impl From<AllocError> for ReadStop {
    ghost use Rattle.std.specs.Prelude.{◌≡◌};
    ghost use Rattle.fr_io.specs.declared.source.ReadStop.TheVariants.{NoMemory};

    ghost from_gives = { λ _ stop. stop ≡ NoMemory };

    fn from(_failed: AllocError) -> ReadStop {
        ReadStop::NoMemory
    }
}

/// Bytes to read, with a count of the faults so far.
///
/// It is made after `std::io::Read`. The ghost members say what contracts may know of a
/// source; a type that does not know its bytes tells `None`.
pub trait Source {
    /// The bytes that are left, where they are told.
    ghost left: { Self → Option (List ℕ) };

    /// How many faults there were. A count that stands at 2^64 - 1 counts as risen in every call.
    ghost faults: { Self → ℕ };

    /// Puts bytes at the front of `buf` and gives their number, at most the length of `buf`.
    ///
    /// Where the bytes left are told, these are the first of them, and afterwards the rest is left.
    /// 0 for a buffer that is not empty is the end of input. Bytes are told after a call exactly
    /// where they were told before it, and the count of faults never falls.
    ///
    /// # Errors
    ///
    /// `Failed` only where the count of faults rose in this call. The bytes left are then as
    /// before.
    fn read(&mut self, buf: &mut [u8]) -> Result<usize, Failed>
        ensures bound { ReadsAtMost result buf.new }
        ensures bytes { ReadConsumes (left self.old) (left self.new) result buf.new }
        ensures told { SameTold (left self.old) (left self.new) }
        ensures cause { HasCause (faults self.old) (faults self.new) result };
}

/// The number of bytes that [`get_all`] asks for in each read.
pub const READ_SIZE: usize = 4096;

/// Reads a source to its end.
///
/// It asks for up to 4,096 bytes in each read and gives all bytes that were left, at most `most` of
/// them; then none is left. It stops as soon as more than `most` bytes were taken, before it asks
/// for memory for the last of them.
///
/// # Errors
///
/// - `Failed` only where the source's count of faults rose in this call; at most `most` bytes were
///   taken before.
/// - `TooLong` exactly where more than `most` bytes were taken before the end.
/// - `NoMemory` where there is no memory for the bytes; at most `most` of them were taken.
///
/// After each of them a prefix of what was left has been taken.
pub fn get_all<S: Source>(alloc: Global, input: &mut S, most: u32) -> Result<Vec<u8>, ReadStop>
    ensures all { IfOk result (λ v. TookAll most (S.left input.old) (S.left input.new) v.items) }
    ensures failed { IsErrOf result ReadStop.Failed → Rose (S.faults input.old) (S.faults input.new)
        × TookFew most (S.left input.old) (S.left input.new) }
    ensures too_long { IsErrOf result ReadStop.TooLong → TookTooMany most (S.left input.old) (S.left input.new) }
    ensures memory { IsErrOf result ReadStop.NoMemory → TookFew most (S.left input.old) (S.left input.new) }
    ensures stopped { OnErr result (TookSome (S.left input.old) (S.left input.new)) }
    ensures later { S.faults input.old ≤ S.faults input.new }

    // It stops at the read that passes the limit.
    ensures soon { IsErrOf result ReadStop.TooLong
        → TookFew (most + READ_SIZE) (S.left input.old) (S.left input.new) }

    // Both ways, where the source tells its bytes.
    ensures exactly { IsSome (S.left input.old)
        → (IsErrOf result ReadStop.TooLong ↔ TookTooMany most (S.left input.old) (S.left input.new)) }
{
    let mut all = Vec::new(alloc);
    let mut buf = [0u8; READ_SIZE];
    loop {
        let count = input.read(&mut buf)?;
        if count == 0 {
            return Ok(all);
        }
        if count > most as usize - all.len() {
            return Err(ReadStop::TooLong);
        }
        all.extend_from_slice(&buf[..count])?;
    }
}
