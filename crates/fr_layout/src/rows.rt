//! Rows of machines as the words of their fields.
ghost use Rattle.std.specs.Prelude.{◌≡◌, ℕ, suc, ◌<◌, ◌≤◌, slice_index};
ghost use Rattle.fr_model.specs.Permutations.{IsPermutation};
ghost use Rattle.fr_model.specs.Ranks.{rank, factorial};
ghost use Rattle.fr_machine.specs.Rows.{IsRow};
ghost use Rattle.fr_layout.specs.Meaning.{field_value, IsGood};

use crate::plan::Block;
use fr_alphabet::{Alphabet, Perm};
use fr_machine::Row;

/// What stands in a field of a row of a machine, where the machine's block begins at row `start`:
/// 1 and the rank of the row's permutation in field 0, and 1 and the next row at the letter x in
/// field x, which is 1 to 8.
pub fn field_value(row: &Row, start: u32, field: u8) -> u64
    requires field { field ≤ 8 }
    ensures value { result ≡ field_value start row.now field }
{
    if field == 0 {
        1 + row.perm.rank() as u64
    } else {
        1 + start as u64 + row.next[field as usize - 1] as u64
    }
}

/// The row of a machine over the alphabet whose fields these are, field 0 first, where the
/// machine's block is `block`. The fields up to the number of letters are those that a row of the
/// block may have; what stands behind them is not read.
pub fn row_of_fields(a: Alphabet, block: Block, fields: &[u64; 9]) -> Row
    requires size { block.size ≤ 1024 }
    requires written { (f : ℕ) → f ≤ a → 0 < slice_index fields.now f }
    requires good { (f : ℕ) → f ≤ a → IsGood a block f (slice_index fields.now f) }
    ensures row { IsRow a block.size result }
    ensures fields { (f : ℕ) → f ≤ a → slice_index fields.now f ≡ field_value block.start result f }
{
    let perm = perm_of_field(a, fields[0]);
    let letters = a.letters();
    let mut next = [0; 8];
    for x in 0..letters {
        next[x as usize] = (fields[x as usize + 1] - 1 - block.start as u64) as u16;
    }
    Row { perm, next }
}

// The permutation that field 0 of a row names.
fn perm_of_field(a: Alphabet, value: u64) -> Perm
    requires { (0 < value) × (value ≤ factorial a) }
    ensures { IsPermutation a result × (value ≡ suc (rank result)) }
{
    // For the proof: there are at most 8 letters.
    let _letters = a.letters();
    match Perm::of_rank(a, (value - 1) as u32) {
        Some(perm) => perm,
        None => Perm::identity(a),
    }
}
