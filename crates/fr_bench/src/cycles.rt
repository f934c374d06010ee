//! Elements whose rows lie on a cycle.

ghost use Rattle.std.specs.Prelude.{◌<◌, ◌≤◌};

use crate::answer::Stop;
use crate::builder::{Builder, nexts};
use fr_machine::{Machine, Minimal};
use fr_minimal::minimize;
use std::alloc::Global;

/// The row after row `i` on a cycle of `count` rows.
pub fn after(i: u32, count: u32) -> u32
    requires { i < count }
    ensures { result < count }
{
    if i + 1 < count { i + 1 } else { 0 }
}

/// A cycle of `count` rows, 1 to 1,024, that both letters go along; the row at `swapping` alone swaps the letters.
pub fn cycle(alloc: Global, count: u32, swapping: u32) -> Result<Minimal, Stop>
    requires { count ≤ 65536 }
{
    let mut builder = Builder::new(alloc, 2)?;
    for i in 0..count {
        let next = after(i, count);
        builder.push(i == swapping, nexts(next, next))?;
    }
    smallest(alloc, &builder.finish()?)
}

/// A cycle of `count` rows, 1 to 1,024, that one letter goes along, the first or the second, while the other stays; the last
/// row alone swaps the letters.
pub fn half_cycle(alloc: Global, count: u32, along_first: bool) -> Result<Minimal, Stop>
    requires { count ≤ 65536 }
{
    let mut builder = Builder::new(alloc, 2)?;
    for i in 0..count {
        let next = after(i, count);
        let row = if along_first {
            nexts(next, i)
        } else {
            nexts(i, next)
        };
        builder.push(next == 0, row)?;
    }
    smallest(alloc, &builder.finish()?)
}

/// The smallest machine of row 0.
pub fn smallest(alloc: Global, machine: &Machine) -> Result<Minimal, Stop> {
    // A machine has a row.
    let _rows = machine.rows();
    Ok(minimize(alloc, machine, 0)?)
}
