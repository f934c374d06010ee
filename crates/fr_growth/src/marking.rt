//! Marks on rows.

ghost use Rattle.std.specs.Prelude.{◌≡◌, ℕ, ◌<◌, IfOk, length, slice_index};
ghost use Rattle.fr_growth.specs.Doubling.{AreDoubling, AreDoublingNumbers, IsOnly};

use fr_alphabet::NoMemory;
use std::alloc::Global;

/// Marks the rows that share their component with a row that stays in it at two letters. The only error is want of
/// memory.
pub fn doubling_rows(alloc: Global, numbers: &[u16], returns: &[u8]) -> Result<Vec<bool>, NoMemory>
    requires numbers { (s : ℕ) → s < length numbers.now → slice_index numbers.now s < length numbers.now }
    requires returns { length returns.now ≡ length numbers.now }
    ensures { IfOk result (λ marks. AreDoubling (length numbers.now) numbers.now returns.now marks.items) }
{
    let doubling = doubling_numbers(alloc, numbers, returns)?;
    let mut marks = Vec::with_capacity(alloc, numbers.len())?;
    for number in numbers {
        marks.push(doubling[*number as usize])?;
    }
    Ok(marks)
}

// Marks their components.
fn doubling_numbers(alloc: Global, numbers: &[u16], returns: &[u8]) -> Result<Vec<bool>, NoMemory>
    requires numbers { (s : ℕ) → s < length numbers.now → slice_index numbers.now s < length numbers.now }
    requires returns { length returns.now ≡ length numbers.now }
    ensures { IfOk result (λ marks. AreDoublingNumbers (length numbers.now) (length numbers.now) numbers.now returns.now marks.items) }
{
    let mut marks = vec![in alloc; false; numbers.len()]?;
    for (s, number) in numbers.iter().enumerate() {
        if returns[s] > 1 {
            marks[*number as usize] = true;
        }
    }
    Ok(marks)
}

/// Marks one of `count` rows. The only error is want of memory.
pub fn one_row(alloc: Global, count: u16, row: u16) -> Result<Vec<bool>, NoMemory>
    requires { row < count }
    ensures { IfOk result (λ marks. IsOnly count row marks.items) }
{
    let mut marks = vec![in alloc; false; count as usize]?;
    marks[row as usize] = true;
    Ok(marks)
}
