//! Packs, which name rows, and the words of the cache.
ghost use Rattle.std.specs.Prelude.{◌≡◌, ℕ, ◌+◌, ◌<◌, ◌≤◌};
ghost use Rattle.fr_layout.specs.declared.plan.Block.{Block};
ghost use Rattle.fr_layout.specs.Places.{IsIn};
ghost use Rattle.fr_layout.specs.Packs.{pack_of, product_word, pair_place};

use crate::plan::Block;

impl Block {
    /// The pack of a row of the block, which is not 0. The block ends at 1,048,576 at most.
    pub fn pack(&self, row: u32) -> u64
        requires block { (self.now.size ≤ 1024) × (self.now.start + self.now.size ≤ 1048576) }
        requires row { IsIn row self.now }
        ensures value { result ≡ pack_of self.now row }
    {
        let offset = (row - self.start) as u64;
        1 + (offset + (1024 * (self.size as u64 - 1) + 1048576 * self.start as u64))
    }

    /// The block and the row of a pack.
    pub fn of_pack(pack: u64) -> (Block, u32)
        requires pack { (b : Block) × (r : ℕ) × (pack ≡ pack_of b r) × IsIn r b × (b.size ≤ 1024) × (b.start + b.size ≤ 1048576) }
        ensures value { (b : Block) (r : ℕ) → pack ≡ pack_of b r → IsIn r b → b.size ≤ 1024 → (result.0 ≡ b) × (result.1 ≡ r) }
    {
        let digits = pack - 1;
        let start = (digits / 1048576) as u32;
        let size = (digits / 1024 % 1024 + 1) as u16;
        let offset = (digits % 1024) as u32;
        (Block { start, size }, start + offset)
    }
}

/// The cache word that says that row `c` is the product of rows `a` and `b`. Rows are below
/// 1,048,576.
pub fn product_word(a: u32, b: u32, c: u32) -> u64
    requires rows { (a < 1048576) × (b < 1048576) × (c < 1048576) }
    ensures value { result ≡ product_word a b c }
{
    1 + (a as u64 + (1048576 * b as u64 + 1099511627776 * c as u64))
}

/// The three rows of a cache word that is not 0: two factors and their product.
pub fn product_rows(word: u64) -> (u32, u32, u32)
    requires word { (a b c : ℕ) × (word ≡ product_word a b c) × (a < 1048576) × (b < 1048576) × (c < 1048576) }
    ensures value { (a b c : ℕ) → word ≡ product_word a b c → a < 1048576 → b < 1048576 → c < 1048576 → (result.0 ≡ a) × (result.1 ≡ b) × (result.2 ≡ c) }
{
    let digits = word - 1;
    let first = (digits % 1048576) as u32;
    let second = (digits / 1048576 % 1048576) as u32;
    (first, second, (digits / 1099511627776) as u32)
}

/// The place in the cache of the product of rows `a` and `b`, which are below 1,048,576.
pub fn pair_place(a: u32, b: u32) -> u16
    requires rows { (a < 1048576) × (b < 1048576) }
    ensures value { result ≡ pair_place a b }
{
    ((31 * a + b) % 65536) as u16
}
