//! The classes of rows of machines.

ghost use Rattle.std.specs.Prelude.{◌<◌, ◌≤◌};

use crate::answer::{Answer, Stop};
use crate::builder::{Builder, nexts};
use fr_classes::classes;
use fr_machine::Machine;
use std::alloc::Global;

/// Counts the classes of a machine, so many times.
pub fn count_classes(alloc: Global, machine: &Machine, times: u32) -> Result<Answer, Stop> {
    let mut count = 0;
    for _ in 0..times {
        let of = classes(alloc, machine)?;
        count = of.iter().max().map_or(0, |class| u32::from(*class) + 1);
    }
    Ok(Answer::Classes(count))
}

/// Each row leads to the one after it; the last swaps the letters and leads to itself. No two rows act alike.
pub fn chain(alloc: Global, count: u32) -> Result<Machine, Stop>
    requires { count ≤ 65536 }
{
    let mut builder = Builder::new(alloc, 2)?;
    for i in 0..count {
        let last = i + 1 == count;
        let next = if last { i } else { i + 1 };
        builder.push(last, nexts(next, next))?;
    }
    builder.finish()
}

/// Each row leads to the one before it; the first swaps the letters and leads to itself. No two rows act alike.
pub fn reversed(alloc: Global, count: u32) -> Result<Machine, Stop>
    requires { count ≤ 65536 }
{
    let mut builder = Builder::new(alloc, 2)?;
    for i in 0..count {
        let next = i.saturating_sub(1);
        builder.push(i == 0, nexts(next, next))?;
    }
    builder.finish()
}

/// Half of the rows swap the letters and lead to themselves, so that they act alike. Each other row leads to the one before
/// it. In each round one of these is as before while the classes of all after it change, which takes squared time where
/// the larger part is the one that moves.
pub fn halves(alloc: Global, count: u32) -> Result<Machine, Stop>
    requires { count ≤ 65536 }
{
    let mut builder = Builder::new(alloc, 2)?;
    for i in 0..count {
        let alike = i <= count / 2;
        let next = if alike { i } else { i - 1 };
        builder.push(alike, nexts(next, next))?;
    }
    builder.finish()
}

/// Over eight letters, where the others have two: half of the rows are a chain, in which each leads to the one before it,
/// and for each of these there is a row with a permutation of its own that leads to it. In each round one row of the chain
/// comes to another class, and the one that watches it is alone in its own, which takes squared time where a round looks at
/// all classes.
pub fn watched(alloc: Global, count: u32) -> Result<Machine, Stop>
    requires { count ≤ 65536 }
{
    let mut builder = Builder::new(alloc, 8)?;
    for k in 0..count / 2 {
        builder.push(k == 0, [k.saturating_sub(1) as u16; 8])?;
    }
    for k in 0..count / 2 {
        builder.push_ranked(k + 2, [k as u16; 8])?;
    }
    builder.finish()
}

/// Every second row swaps the letters, and the next rows are drawn.
pub fn drawn(alloc: Global, count: u32) -> Result<Machine, Stop>
    requires { count ≤ 65536 }
{
    drawn_from(alloc, 1, count)
}

/// Every second row swaps the letters, and the next rows are drawn from this seed on.
pub fn drawn_from(alloc: Global, seed: u32, count: u32) -> Result<Machine, Stop>
    requires { count ≤ 65536 }
{
    let mut builder = Builder::new(alloc, 2)?;
    let mut draws = Draws { state: seed };
    for i in 0..count {
        let first = draws.below(count);
        let second = draws.below(count);
        builder.push(i % 2 == 1, nexts(first, second))?;
    }
    builder.finish()
}

// The linear congruential generator of Numerical Recipes (Press and others), of which the upper bits are taken.
#[derive(Drop)]
struct Draws {
    state: u32,
}

impl Draws {
    // A number below the bound.
    fn below(&mut self, bound: u32) -> u32
        requires { 0 < bound }
        ensures { result < bound }
    {
        self.state = self.state.wrapping_mul(1664525).wrapping_add(1013904223);
        (self.state >> 8) % bound
    }
}
