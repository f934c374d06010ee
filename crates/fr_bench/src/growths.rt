//! The class of growth of an element.

ghost use Rattle.std.specs.Prelude.{◌<◌, ◌≤◌};

use crate::answer::{Answer, Stop};
use crate::builder::Builder;
use crate::cycles::{after, smallest};
use fr_growth::{Class, class};
use fr_machine::Minimal;
use std::alloc::Global;

/// Elements over 8 letters whose last row is the identity, where nothing else is said.
#[derive(Clone, Copy)]
pub enum Kind {
    /// Each row leads to the one after it: the activity ends.
    Ends,
    /// Each row leads to itself by one letter, and by one to the row after it: the degree is great.
    Loops,
    /// The rows lie on a cycle that one letter goes along, and the second has a loop: the words back have many letters.
    LoopFirst,
    /// The same, but the last has the loop.
    LoopLast,
    /// The same with the last but one, and six letters lead back from the rows of the second half.
    Back,
    /// The rows lie on a cycle that all letters go along.
    Cycle,
    /// Row i leads to row i x + 1 at letter x, modulo their number.
    Scattered,
}

/// Classifies an element, so many times, at least once.
pub fn classify(alloc: Global, element: &Minimal, times: u32) -> Result<Answer, Stop> {
    let mut answer = summary(&class(alloc, element)?);
    for _ in 1..times {
        answer = summary(&class(alloc, element)?);
    }
    Ok(answer)
}

// What is printed of a class.
fn summary(class: &Class) -> Answer {
    match class {
        Class::Finitary { depth } => Answer::Finitary(*depth),
        Class::Polynomial { degree, .. } => Answer::Polynomial(*degree),
        Class::Exponential { at, u, .. } => {
            Answer::Exponential(at.letters().len(), u.letters().len())
        }
    }
}

/// An element of a kind with `count` states, 2 to 1,024, some of which may act alike.
pub fn growing(alloc: Global, kind: Kind, count: u32) -> Result<Minimal, Stop>
    requires { count ≤ 65536 }
{
    if count < 2 {
        return Err(Stop::Usage);
    }
    let last = count - 1;
    let mut builder = Builder::new(alloc, 8)?;
    for i in 0..last {
        builder.push(swaps(kind, i, last), nexts(kind, i, last))?;
    }
    builder.push(false, [last as u16; 8])?;
    smallest(alloc, &builder.finish()?)
}

// Whether row i moves letters.
fn swaps(kind: Kind, i: u32, last: u32) -> bool
    requires last { last < 65536 }
    requires row { i < last }
{
    match kind {
        Kind::Ends => i + 1 == last,
        Kind::Loops => true,
        _ => i == 0,
    }
}

// The next rows of row i.
fn nexts(kind: Kind, i: u32, last: u32) -> [u16; 8]
    requires last { last < 65536 }
    requires row { i < last }
{
    let mut next = [0; 8];
    for x in 0..8 {
        next[x as usize] = target(kind, i, x, last) as u16;
    }
    next
}

// The next row of row i at the letter x + 1.
fn target(kind: Kind, i: u32, x: u32, last: u32) -> u32
    requires last { last < 65536 }
    requires row { i < last }
    requires letter { x < 8 }
    ensures { result ≤ last }
{
    let ahead = after(i, last);
    match kind {
        Kind::Ends => i + 1,
        Kind::Loops => match x {
            0 => i,
            1 => i + 1,
            _ => last,
        },
        Kind::LoopFirst => match x {
            0 => ahead,
            1 if i == 1 => i,
            _ => last,
        },
        Kind::LoopLast => match x {
            0 => ahead,
            1 if i + 1 == last => i,
            _ => last,
        },
        Kind::Back => match x {
            0 => ahead,
            1 if i + 2 == last => i,
            2..=7 if i > last / 2 + 8 => i - last / 2 - x,
            _ => last,
        },
        Kind::Cycle => ahead,
        Kind::Scattered => (i * (x + 1) + 1) % last,
    }
}
