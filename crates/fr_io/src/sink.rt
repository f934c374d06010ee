//! Sinks for bytes, and writing all bytes of a text to one.
ghost use Rattle.std.specs.Prelude.{◌≡◌, ◌≤◌, ◌<◌, List, [], Option, ℕ, length, IfOk, IsOk, OnOk, OnErr};
ghost use Rattle.std.specs.Io.KnownBytes.{WriteAppends};
ghost use Rattle.fr_io.specs.Causes.{HasCause};
ghost use Rattle.fr_io.specs.Taken.{SameTold, Gave, GavePart};

use crate::Failed;

/// A place to write bytes to, with a count of the faults so far.
///
/// It is made after `std::io::Write`. The ghost members say what contracts may know of a
/// sink; a type that does not know its bytes tells `None`.
pub trait Sink {
    /// The bytes that were written, where they are told.
    ghost written: { Self → Option (List ℕ) };

    /// How many faults there were. A count that stands at 2^64 - 1 counts as risen in every call.
    ghost faults: { Self → ℕ };

    /// Takes bytes from the front of the piece `bytes` and gives their number, at most its length.
    ///
    /// Where the bytes written are told, they grow by just these. They are told after a call
    /// exactly where they were told before it, and the count of faults never falls.
    ///
    /// # Errors
    ///
    /// `Failed` only where the count of faults rose in this call. The bytes written are then as
    /// before. Where no byte of a piece that is not empty can be taken, the answer is `Failed`.
    fn write(&mut self, bytes: &[u8]) -> Result<usize, Failed>
        ensures bound { IfOk result (λ n. n ≤ length bytes.now) }
        ensures some { 0 < length bytes.now → IfOk result (λ n. 0 < n) }
        ensures bytes { WriteAppends (written self.old) (written self.new) result bytes.now }
        ensures told { SameTold (written self.old) (written self.new) }
        ensures cause { HasCause (faults self.old) (faults self.new) result };
}

/// Writes all of `bytes` to a sink, piece by piece.
///
/// It takes no memory, and where there are no bytes it makes no call.
///
/// # Errors
///
/// `Failed` only where the sink's count of faults rose in this call. The bytes written then grew by
/// a prefix of `bytes` that is not the whole.
pub fn put_all<T: Sink>(out: &mut T, bytes: &[u8]) -> Result<(), Failed>
    ensures all { OnOk result (Gave (T.written out.old) (T.written out.new) bytes.now) }
    ensures part { OnErr result (GavePart (T.written out.old) (T.written out.new) bytes.now) }
    ensures cause { HasCause (T.faults out.old) (T.faults out.new) result }
    ensures empty { bytes.now ≡ [] → IsOk result × (out.new ≡ out.old) }
{
    let mut done = 0;
    while done < bytes.len() {
        let count = out.write(&bytes[done..])?;
        done += count;
    }
    Ok(())
}
