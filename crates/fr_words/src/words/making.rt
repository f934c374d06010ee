//! How a table is made.
ghost use Rattle.std.specs.Prelude.{◌≡◌, ◌≤◌, IfOk};
ghost use Rattle.fr_layout.specs.Places.{IsPlan};
ghost use Rattle.fr_words.specs.Notes.{newcomer};
ghost use Rattle.fr_words.specs.Hands.{note, IsOf};

use crate::hand::Hand;
use crate::words::Words;
use atomic_table::Table;
use fr_alphabet::{Alphabet, NoMemory};
use fr_layout::Plan;
use std::alloc::Global;

impl Words {
    /// A table for `capacity` rows over the alphabet, 1 to 1,048,576, whose words are all 0, with
    /// the cache of 65,536 words, and its first hand, which is whole.
    ///
    /// # Errors
    ///
    /// `NoMemory`, where there is none for the words.
    pub fn new(alloc: Global, a: Alphabet, capacity: u32) -> Result<(Words, Hand), NoMemory>
        requires capacity { (1 ≤ capacity) × (capacity ≤ 1048576) }
        ensures sizes { IfOk result (λ r. (r.0.plan.letters ≡ a) × (r.0.plan.capacity ≡ capacity)) }
        ensures hand { IfOk result (λ r. IsOf r.0 r.1 × (note r.1 ≡ newcomer r.0.plan)) }
    {
        let plan = Plan::new(a, capacity);
        let blank = vec![in alloc; 0u64; plan.words()]?;
        let (table, seat) = Table::of_words(alloc, blank.as_slice(), &plan)?;
        Ok((Words { table, plan }, Hand { seat }))
    }

    /// The sizes of the table.
    pub fn plan(&self) -> Plan
        ensures value { result ≡ self.now.plan }
        ensures plan { IsPlan result }
    {
        self.plan
    }
}
