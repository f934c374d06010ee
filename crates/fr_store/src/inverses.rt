//! Inverses of handles that are remembered.

ghost use Rattle.std.specs.Prelude.{ℕ, ◌≡◌, ◌+◌, ◌-◌, ◌<◌, ◌^◌, IfOk, IfSome, length, slice_set};
ghost use Rattle.std.specs.List.{All, Contains};

use fr_alphabet::NoMemory;
use std::alloc::Global;

// How many inverses have a place.
const PLACES: usize = 1024;

/// What stands in a place.
#[derive(Clone, Copy, Debug, PartialEq, Eq)]
pub(crate) struct Entry {
    /// The handle of an element.
    pub element: u32,
    /// 0 where nothing stands, or the handle of its inverse and one more.
    pub inverse: u32,
}

/// Inverses of handles. Each has one place, which the handle of its element gives it, and is forgotten where another needs
/// the place. All memory is taken when it is made. This project's own.
#[derive(Debug, Drop)]
pub(crate) struct Inverses {
    pub entries: Vec<Entry>,
    ghost whole: { length entries.items ≡ 1024 },
}

impl Inverses {
    /// No inverses. The only error is want of memory.
    pub fn new(alloc: Global) -> Result<Inverses, NoMemory>
        ensures { IfOk result (λ p. All (λ e. e.inverse ≡ 0) p.entries.items) }
    {
        let nothing = Entry {
            element: 0,
            inverse: 0,
        };
        Ok(Inverses {
            entries: vec![in alloc; nothing; PLACES]?,
        })
    }

    /// The inverse of this element, where it is not forgotten.
    pub fn get(&self, element: u32) -> Option<u32>
        ensures { IfSome result (λ n. Contains self.now.entries.items (record { element = element; inverse = n + 1 })) }
    {
        let entry = self.entries[place_of(element)];
        if entry.element == element && entry.inverse > 0 {
            return Some(entry.inverse - 1);
        }
        None
    }

    /// Keeps the inverse of this element.
    pub fn put(&mut self, element: u32, inverse: u32)
        requires { inverse < 2 ^ 32 - 1 }
        ensures { (i : ℕ) × (self.new.entries.items ≡ slice_set self.old.entries.items i (record { element = element; inverse = inverse + 1 })) }
    {
        self.entries[place_of(element)] = Entry {
            element,
            inverse: inverse + 1,
        };
    }
}

// The place of the inverse of this element: the last bits of its handle, since handles are given one after the other.
fn place_of(element: u32) -> usize
    ensures { result < 1024 }
{
    element as usize % PLACES
}
