//! Sets of row numbers.

ghost use Rattle.std.specs.Prelude.{◌≡◌, ℕ, ◌<◌, ◌==◌, ◌||◌};
ghost use Rattle.fr_growth.specs.Bits.{has_bit};

/// A set of numbers below 1,024, a bit for each.
pub type BitRow = [u64; 16];

/// Whether a number below 1,024 is in the set.
pub fn has(row: &BitRow, t: u16) -> bool
    requires { t < 1024 }
    ensures { result ≡ has_bit row.now t }
{
    (row[t as usize / 64] >> (t % 64)) & 1 == 1
}

/// Puts a number below 1,024 into the set.
pub fn put(row: &mut BitRow, t: u16)
    requires { t < 1024 }
    ensures { (u : ℕ) → u < 1024 → has_bit row.new u ≡ (has_bit row.old u || u == t) }
{
    row[t as usize / 64] |= 1 << (t % 64);
}
