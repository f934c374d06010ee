//! The code of an element.

ghost use Rattle.std.specs.Prelude.{◌<◌, ◌≤◌};

use crate::answer::{Answer, Stop};
use crate::builder::Builder;
use crate::cycles::smallest;
use fr_canon::{Code, Scratch, canon};
use fr_machine::Minimal;
use std::alloc::Global;

/// Lists the code of row 0, so many times.
pub fn list(alloc: Global, element: &Minimal, times: u32) -> Result<Answer, Stop> {
    let mut scratch = Scratch::new(alloc)?;
    let mut code = Code::new(alloc)?;
    // An element has a row, and at most 1,024.
    let _machine = element.machine();
    for _ in 0..times {
        canon(&mut scratch, element, 0, &mut code);
    }
    Ok(Answer::Code(code.numbers().len()))
}

/// An element of `count` states, 1 to 1,024, over `letters` letters, 2 to 8: state i leads to i x + 1 at letter x, modulo the
/// number of states, and the last state alone moves letters. By the first letter no two states act alike.
pub fn scattered(alloc: Global, letters: u8, count: u32) -> Result<Minimal, Stop>
    requires { count ≤ 65536 }
{
    let mut builder = Builder::new(alloc, letters)?;
    for i in 0..count {
        builder.push(i + 1 == count, scattered_nexts(letters, i, count))?;
    }
    smallest(alloc, &builder.finish()?)
}

// The next rows of row i.
fn scattered_nexts(letters: u8, i: u32, count: u32) -> [u16; 8]
    requires row { i < count }
    requires most { count ≤ 65536 }
{
    let mut next = [0; 8];
    for x in 0..letters.min(8) {
        let target = (i * (u32::from(x) + 1) + 1) % count;
        next[x as usize] = target as u16;
    }
    next
}
