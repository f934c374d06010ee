//! The table.
ghost use Rattle.std.specs.Prelude.{◌≡◌, ◌+◌};
ghost use Rattle.fr_layout.specs.Places.{IsPlan, word_count, cache_size};

use crate::notes::{Note, Ruled};
use atomic_table::Table;
use fr_layout::Plan;
use std::alloc::Global;

mod making;

/// The words of a shared table, under their rule. Threads share it by reference.
#[derive(Drop)]
pub struct Words {
    pub(crate) table: Table<u8, Note, Plan, Ruled, Global>,
    pub(crate) plan: Plan,
    ghost planned: { table.shared.key ≡ plan },
    ghost wide: { table.shared.table_id.words ≡ word_count plan + cache_size },
    ghost sized: { IsPlan plan },
}
