//! Products of handles that are remembered.

ghost use Rattle.std.specs.Prelude.{ℕ, ◌≡◌, ◌+◌, ◌-◌, ◌<◌, ◌^◌, IfOk, IfSome, length, slice_set};
ghost use Rattle.std.specs.List.{All, Contains};

use fr_alphabet::NoMemory;
use std::alloc::Global;

// How many products have a place.
const PLACES: usize = 8192;

/// What stands in a place.
#[derive(Clone, Copy, Debug, PartialEq, Eq)]
pub(crate) struct Entry {
    /// The handle of the first factor.
    pub left: u32,
    /// The handle of the second factor.
    pub right: u32,
    /// 0 where nothing stands, or the handle of the product and one more.
    pub product: u32,
}

/// Products of handles. Each has one place, which its factors give it, and is forgotten where another needs the place. All
/// memory is taken when it is made. This project's own.
#[derive(Debug, Drop)]
pub(crate) struct Products {
    pub entries: Vec<Entry>,
    ghost whole: { length entries.items ≡ 8192 },
}

impl Products {
    /// No products. The only error is want of memory.
    pub fn new(alloc: Global) -> Result<Products, NoMemory>
        ensures { IfOk result (λ p. All (λ e. e.product ≡ 0) p.entries.items) }
    {
        let nothing = Entry {
            left: 0,
            right: 0,
            product: 0,
        };
        Ok(Products {
            entries: vec![in alloc; nothing; PLACES]?,
        })
    }

    /// The product of these factors, where it is not forgotten.
    pub fn get(&self, left: u32, right: u32) -> Option<u32>
        ensures { IfSome result (λ n. Contains self.now.entries.items (record { left = left; right = right; product = n + 1 })) }
    {
        let entry = self.entries[place_of(left, right)];
        if entry.left == left && entry.right == right && entry.product > 0 {
            return Some(entry.product - 1);
        }
        None
    }

    /// Keeps the product of these factors.
    pub fn put(&mut self, left: u32, right: u32, product: u32)
        requires { product < 2 ^ 32 - 1 }
        ensures { (i : ℕ) × (self.new.entries.items ≡ slice_set self.old.entries.items i (record { left = left; right = right; product = product + 1 })) }
    {
        self.entries[place_of(left, right)] = Entry {
            left,
            right,
            product: product + 1,
        };
    }
}

// The place of the product of these factors: the first bits of a number that both of them change (the golden ratio as a
// multiplier: Knuth, The Art of Computer Programming, volume 3, 6.4).
fn place_of(left: u32, right: u32) -> usize
    ensures { result < 8192 }
{
    let both = left.wrapping_mul(0x85EB_CA6B).wrapping_add(right);
    (both.wrapping_mul(0x9E37_79B1) >> 19) as usize
}
