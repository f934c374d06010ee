//! Signatures of rows: what two rows of one class must share to stay in one class.

ghost use Rattle.std.specs.Prelude.{◌≡◌, ◌<◌, ◌≤◌, IfOk, length};
ghost use Rattle.std.specs.List.{All};
ghost use Rattle.fr_machine.specs.Rows.{IsRow};
ghost use Rattle.fr_classes.specs.Refinement.{signature_of, signed_rows};

use fr_alphabet::NoMemory;
use fr_machine::Row;
use std::alloc::Global;

/// What a row puts out, and the classes of its next rows.
pub type Signature = [u16; 16];

/// A row with its class and signature.
#[derive(Clone, Copy)]
pub struct Signed {
    /// The class of the row.
    pub class: u16,
    /// The signature under the classes so far.
    pub signature: Signature,
    /// The row.
    pub row: u16,
}

/// The signature of a row under some classes.
pub fn signature(row: &Row, of: &[u16]) -> Signature
    requires { IsRow (length row.now.perm) (length of.now) row.now }
    ensures { result ≡ signature_of of.now row.now }
{
    let mut signature = [0; 16];
    for x in 0..row.perm.letters() {
        signature[x as usize] = row.perm.apply(x + 1) as u16;
        signature[8 + x as usize] = of[row.next[x as usize] as usize];
    }
    signature
}

/// The rows of a list with the signatures that they have under some classes. The only error is want of memory.
pub fn with_signatures(
    alloc: Global,
    rows: &[Row],
    of: &[u16],
    todo: &[u16],
) -> Result<Vec<Signed>, NoMemory>
    requires rows { All (λ r. IsRow (length r.perm) (length of.now) r) rows.now }
    requires todo { All (λ s. s < length rows.now) todo.now }
    requires of { length of.now ≡ length rows.now }
    ensures { IfOk result (λ work. work.items ≡ signed_rows rows.now of.now todo.now) }
{
    let mut work = Vec::with_capacity(alloc, todo.len())?;
    for s in todo {
        work.push(Signed {
            class: of[*s as usize],
            signature: signature(&rows[*s as usize], of),
            row: *s,
        })?;
    }
    Ok(work)
}
