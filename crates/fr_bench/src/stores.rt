//! Elements that are put into a store for one thread.

ghost use Rattle.std.specs.Prelude.{◌≤◌};

use crate::answer::{Answer, Stop};
use crate::cycles::smallest;
use crate::partitions::{chain, drawn_from};
use fr_machine::Minimal;
use fr_store::{Store, VecStore};
use std::alloc::Global;

/// Interns the elements in an empty store for so many rows, one after the other; all this so many times.
pub fn intern_all(
    alloc: Global,
    elements: &[Minimal],
    capacity: u32,
    times: u32,
) -> Result<Answer, Stop>
    requires least { 1 ≤ capacity }
    requires most { capacity ≤ 1048576 }
{
    let mut count = 0;
    for _ in 0..times {
        let alphabet = elements.first().ok_or(Stop::Usage)?.machine().alphabet();
        let mut store = VecStore::new(alloc, alphabet, capacity)?;
        for element in elements {
            intern(&mut store, element);
        }
        count = store.census();
    }
    Ok(Answer::Handles(count))
}

/// Interns an element in an empty store, and then so many times more.
pub fn find(alloc: Global, element: &Minimal, times: u32) -> Result<Answer, Stop> {
    let mut store = VecStore::new(alloc, element.machine().alphabet(), 1024)?;
    for _ in 0..times {
        intern(&mut store, element);
    }
    Ok(Answer::Handles(store.census()))
}

// Interns an element that is over the alphabet of the store, where there is room.
fn intern(store: &mut VecStore, element: &Minimal) {
    if element.machine().alphabet() == store.alphabet() {
        let _ = store.intern(element);
    }
}

/// So many elements of at most 2, 3, .., 10, 2, .. states over two letters, whose next states are drawn.
pub fn drawn_elements(alloc: Global, count: u32) -> Result<Vec<Minimal>, Stop> {
    let mut elements = Vec::new(alloc);
    for i in 0..count {
        elements.push(smallest(alloc, &drawn_from(alloc, i, 2 + i % 9)?)?)?;
    }
    Ok(elements)
}

/// Elements of 1, 2, .. states over two letters, at most 1,024, each of which has the one before it as its section at both
/// letters.
pub fn growing_elements(alloc: Global, count: u32) -> Result<Vec<Minimal>, Stop>
    requires { count ≤ 65536 }
{
    let mut elements = Vec::new(alloc);
    for i in 0..count {
        elements.push(smallest(alloc, &chain(alloc, i + 1)?)?)?;
    }
    Ok(elements)
}
