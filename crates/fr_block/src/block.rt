//! Blocks of wreath recursions.

ghost use Rattle.std.specs.Prelude.{◌≡◌, ◌<◌, ◌≤◌, ◌↔◌, IsSome, IfSome, IsTrue, length, not};
ghost use Rattle.std.specs.List.{All};
ghost use Rattle.fr_model.specs.Words.{IsLetter};
ghost use Rattle.fr_model.specs.Permutations.{preimage};
ghost use Rattle.fr_model.specs.Systems.{wreath_at, section_at, factor_output};
ghost use Rattle.fr_model.specs.FreeWords.{cancel};
ghost use Rattle.fr_block.specs.Blocks.{factor_of, product_of, system_of, IsBlock, IsRecursion, AreNames};

use fr_alphabet::{Alphabet, Perm};
use std::hash::{Hash, Hasher};
use std::marker::Model;

/// A name of a block, given by its place from 0, or the inverse of the name.
#[derive(Clone, Copy, Debug, PartialEq, Eq)]
pub struct Factor {
    pub name: u16,
    pub inverse: bool,
}

// One number is hashed, since words of many members are.
impl Hash for Factor {
    ghost use Rattle.std.specs.Prelude.{◌+◌, ◌*◌, if◌then◌else◌};
    ghost use Rattle.std.specs.Hash as fed;
    ghost use Rattle.std.specs.Cmp.Rules.{hashing};
    ghost use Rattle.std.proofs.Common.{rules};

    ghost hash_input = { λ f. fed.u32 (2 * f.name + (if f.inverse then 1 else 0)) };

    ghost respects_eq = { Prim.search (hashing, rules) };

    fn hash<H: Hasher>(&self, state: &mut H) {
        state.write_u32(2 * self.name as u32 + self.inverse as u32);
    }
}

impl Factor {
    /// The inverse.
    pub fn inverted(self) -> Factor
        ensures { result ≡ record { name = self.name; inverse = not self.inverse } }
    {
        Factor {
            name: self.name,
            inverse: !self.inverse,
        }
    }

    /// Whether this and another are a name and the inverse of that name.
    pub fn cancels(self, other: Factor) -> bool
        ensures { result ≡ cancel (factor_of self) (factor_of other) }
    {
        self.name == other.name && self.inverse != other.inverse
    }
}

/// The wreath recursion of a name: its permutation, and for each letter the product that is the section at it
/// (Nekrashevych, *Self-Similar Groups*, 1.3; the functional recursions of the GAP package FR). The empty product is 1.
#[derive(Debug, Drop)]
pub struct Wreath {
    pub perm: Perm,
    pub sections: Vec<Vec<Factor>>,
}

// The most names of a block.
const NAME_LIMIT: usize = 4095;

/// A block: at most 4,095 names with their wreath recursions, over one alphabet.
#[derive(Debug, Drop)]
pub struct Block {
    alphabet: Alphabet,
    wreaths: Vec<Wreath>,
}

// Clauses see the alphabet, and the recursions as a table.
impl Model for Block {
    ghost use Rattle.fr_block.specs.Blocks.{BlockView, system_of, IsBlock};

    ghost Value = { BlockView };

    ghost view = { λ b. record { alphabet = b.alphabet; system = system_of b.wreaths.items } };

    ghost invariant = { λ b. IsBlock b.alphabet (system_of b.wreaths.items) };
}

impl Block {
    /// The block of wreath recursions over an alphabet.
    ///
    /// The answer is `None` exactly where they are no block: there are at most 4,095, each permutes the letters of the
    /// alphabet, and has a section for each of them, whose members are names of the block.
    pub fn new(a: Alphabet, wreaths: Vec<Wreath>) -> Option<Block>
        ensures accepts { IsSome result ↔ IsBlock a (system_of wreaths.items) }
        ensures value { IfSome result (λ b. b ≡ record { alphabet = a; system = system_of wreaths.items }) }
    {
        if are_recursions(a.letters(), &wreaths) {
            Some(Block {
                alphabet: a,
                wreaths,
            })
        } else {
            None
        }
    }

    /// The block of wreath recursions that are known to be one, so that they are not looked through. The condition is
    /// that of `new`.
    pub fn from_wreaths(a: Alphabet, wreaths: Vec<Wreath>) -> Block
        requires { IsBlock a (system_of wreaths.items) }
        ensures { result ≡ record { alphabet = a; system = system_of wreaths.items } }
    {
        Block {
            alphabet: a,
            wreaths,
        }
    }

    /// The alphabet, of 2 to 8 letters.
    pub fn alphabet(&self) -> Alphabet
        ensures value { result ≡ self.now.alphabet }
        ensures valid { IsBlock self.now.alphabet self.now.system }
    {
        self.alphabet
    }

    /// How many names it has, at most 4,095.
    pub fn names(&self) -> u16
        ensures value { result ≡ length self.now.system }
        ensures most { result ≤ 4095 }
    {
        self.wreaths.len() as u16
    }

    /// The letter that a name or its inverse puts out for a letter.
    pub fn image(&self, f: Factor, x: u8) -> u8
        requires name { f.name < length self.now.system }
        requires letter { IsLetter self.now.alphabet x }
        ensures value { result ≡ factor_output self.now.system (factor_of f) x }
        ensures letter { IsLetter self.now.alphabet result }
    {
        // The permutation is read where it lies, since a copy for each member of a long word takes longer than the rest.
        let perm = &self.wreaths[f.name as usize].perm;
        if f.inverse {
            image_back(perm, x)
        } else {
            perm.apply(x)
        }
    }

    /// The section of a name at a letter.
    pub fn section(&self, name: u16, x: u8) -> &[Factor]
        requires name { name < length self.now.system }
        requires letter { IsLetter self.now.alphabet x }
        ensures value { product_of result.now ≡ section_at (wreath_at self.now.system name).sections x }
        ensures known { AreNames self.now.system (product_of result.now) }
    {
        &self.wreaths[name as usize].sections[x as usize - 1]
    }
}

// The letter that a permutation sends to a letter. It stands apart, so that a loop over members stays small.
#[inline(never)]
fn image_back(perm: &Perm, x: u8) -> u8
    requires { IsLetter (length perm.now) x }
    ensures value { result ≡ preimage perm.now x }
    ensures letter { IsLetter (length perm.now) result }
{
    // For the proof: it permutes its letters.
    let _count = perm.letters();
    perm.inverse().apply(x)
}

// Whether there are at most 4,095 recursions, each over so many letters and as many names.
fn are_recursions(d: u8, wreaths: &[Wreath]) -> bool
    ensures { IsTrue result ↔ ((length wreaths.now ≤ 4095) × All (IsRecursion d (length wreaths.now)) wreaths.now) }
{
    let names = wreaths.len();
    names <= NAME_LIMIT && wreaths.iter().all(|wreath| is_wreath(d, names, wreath))
}

// Whether a recursion is one over so many letters and names.
fn is_wreath(d: u8, names: usize, wreath: &Wreath) -> bool
    ensures { IsTrue result ↔ IsRecursion d names wreath.now }
{
    wreath.perm.letters() == d
        && wreath.sections.len() == d as usize
        && wreath
            .sections
            .iter()
            .all(|section| are_names(names, section))
}

// Whether the members of a product are names of a block of so many.
fn are_names(names: usize, product: &[Factor]) -> bool
    ensures { IsTrue result ↔ All (λ f. f.name < names) product.now }
{
    product.iter().all(|f| (f.name as usize) < names)
}
