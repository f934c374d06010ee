//! Lists that take no more room than they need. A line has many short ones.

ghost use Rattle.std.specs.Prelude.{◌≡◌, [], ◌∷◌, ◌++◌, IfOk, OnOk};

use fr_alphabet::NoMemory;
use sqlite_items::Items;
use std::alloc::Global;

/// Adds an item at the end. A first one takes no room for others.
pub fn push<T: Drop>(alloc: Global, items: &mut Items<T>, item: T) -> Result<(), NoMemory>
    ensures { OnOk result (items.new ≡ items.old ++ item ∷ []) }
{
    if items.is_empty() {
        *items = with_room(alloc, 1)?;
    }
    items.push(item)?;
    Ok(())
}

/// The same list, in no more room than it needs.
pub fn exact<T: Drop>(alloc: Global, items: Items<T>) -> Result<Items<T>, NoMemory>
    ensures { IfOk result (λ r. r ≡ items) }
{
    // A list with one item has no room for others.
    if items.len() < 2 {
        return Ok(items);
    }
    let mut exact = with_room(alloc, items.len())?;
    exact.append(items)?;
    Ok(exact)
}

// The empty list, with room for so many items.
fn with_room<T>(alloc: Global, count: usize) -> Result<Items<T>, NoMemory>
    ensures { IfOk result (λ r. r ≡ []) }
{
    Ok(Items::from_vec(Vec::with_capacity(alloc, count)?))
}
