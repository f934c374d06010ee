//! One row of each class.

ghost use Rattle.std.specs.Prelude.{◌<◌, ◌≤◌, IfOk, length};
ghost use Rattle.std.specs.List.{All};
ghost use Rattle.fr_classes.specs.Choices.{IsChoice};

use fr_alphabet::NoMemory;
use std::alloc::Global;

/// A row of each class, at the place of the class, where `of` has the class of each of at most 65,536 rows, and classes are
/// numbers below that of the rows. A place that is no class has any row. The only error is want of memory.
pub fn choice(alloc: Global, of: &[u16]) -> Result<Vec<u16>, NoMemory>
    requires below { All (λ c. c < length of.now) of.now }
    requires few { length of.now ≤ 65536 }
    ensures { IfOk result (λ chosen. IsChoice of.now chosen.items) }
{
    let mut chosen = vec![in alloc; 0u16; of.len()]?;
    for (s, class) in of.iter().enumerate() {
        chosen[*class as usize] = s as u16;
    }
    Ok(chosen)
}
