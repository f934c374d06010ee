//! The members in their order, each as the machine of its canonical numbering.

ghost use Rattle.std.specs.Prelude.{◌≤◌, IfOk, length};
ghost use Rattle.fr_machine.specs.Minimal.{AreUnlike};
ghost use Rattle.fr_nucleus.specs.Rows.{IsListing};
ghost use Rattle.fr_nucleus.specs.Coding.{AreListed};

use fr_alphabet::NoMemory;
use fr_canon::{Code, Scratch, canon_rows, canonical_machine};
use fr_machine::{Machine, Minimal};
use std::alloc::Global;

// The code of a row, which is compared after the number of its states. No two rows have one code.
#[derive(Debug, Drop, PartialEq, Eq, PartialOrd, Ord)]
struct Listed {
    size: usize,
    code: Vec<u32>,
    row: u16,
}

/// The elements of the rows of `m`, which are at most 1,024 and pairwise unlike, in the order of their sizes and codes. Each
/// is the machine of its canonical numbering. The only error is want of memory.
pub fn in_order(alloc: Global, m: &Machine) -> Result<Vec<Minimal>, NoMemory>
    requires few { length m.now.rows ≤ 1024 }
    requires unlike { AreUnlike m.now.rows }
    ensures { IfOk result (λ ms. IsListing m.now.alphabet m.now.rows ms.items) }
{
    let a = m.alphabet();
    let mut scratch = Scratch::new(alloc)?;
    let mut listed = list_codes(alloc, &mut scratch, m)?;
    listed.sort_unstable();
    let mut members = Vec::with_capacity(alloc, listed.len())?;
    for item in &listed {
        members.push(canonical_machine(alloc, &mut scratch, a, m.rows(), item.row)?)?;
    }
    Ok(members)
}

// The code of each row.
fn list_codes(alloc: Global, scratch: &mut Scratch, m: &Machine) -> Result<Vec<Listed>, NoMemory>
    requires few { length m.now.rows ≤ 1024 }
    requires unlike { AreUnlike m.now.rows }
    ensures { IfOk result (λ items. AreListed m.now.alphabet m.now.rows items.items (length m.now.rows)) }
{
    let width = m.alphabet().letters() as usize + 1;
    let mut code = Code::new(alloc)?;
    let mut listed = Vec::with_capacity(alloc, m.rows().len())?;
    for s in 0..m.rows().len() {
        canon_rows(scratch, m.alphabet(), m.rows(), s as u16, &mut code);
        let numbers = code.numbers();
        listed.push(Listed {
            size: numbers.len() / width,
            code: Vec::from_slice(alloc, numbers)?,
            row: s as u16,
        })?;
    }
    Ok(listed)
}
