//! Sections of products at letters.

ghost use Rattle.std.specs.Prelude.{◌≡◌, ◌+◌, ◌<◌, ◌≤◌, ◌++◌, [], ◌∷◌, IfOk, IsTrue, OnOk, length, take};
ghost use Rattle.fr_model.specs.Words.{IsLetter};
ghost use Rattle.fr_model.specs.Systems.{inverse_product, factor_output, factor_section, product_output, product_section};
ghost use Rattle.fr_model.specs.FreeWords.{reduced, IsReduced};
ghost use Rattle.fr_block.specs.Blocks.{factor_of, product_of, ends_against, AreNames};

use crate::block::{Block, Factor};
use fr_alphabet::NoMemory;

// What stands in places of a buffer that no member has.
const FILLER: Factor = Factor {
    name: 0,
    inverse: false,
};

/// The section of a product at a letter: how many members it has, and the letter that the product puts out.
#[derive(Clone, Copy)]
pub struct LetterSection {
    pub count: usize,
    pub image: u8,
}

/// Writes the section of a product at a letter, freely reduced, to the front of a buffer, which grows where it has to: the
/// sections of its members, each at the letter to which the members before it send the letter (Nekrashevych,
/// *Self-Similar Groups*, 1.3). The section of an inverse at a letter is the inverse of the section of the name at the
/// letter that the name sends there. The only error is want of memory.
pub fn section(
    block: &Block,
    product: &[Factor],
    x: u8,
    word: &mut Vec<Factor>,
) -> Result<LetterSection, NoMemory>
    requires known { AreNames block.now.system (product_of product.now) }
    requires letter { IsLetter block.now.alphabet x }
    ensures within { IfOk result (λ w. w.count ≤ length word.new.items) }
    ensures word { IfOk result (λ w. product_of (take w.count word.new.items) ≡ reduced (product_section block.now.system (product_of product.now) x)) }
    ensures image { IfOk result (λ w. w.image ≡ product_output block.now.system (product_of product.now) x) }
{
    let mut count = 0;
    let mut letter = x;
    for factor in product {
        let image = block.image(*factor, letter);
        count = append_section(word, count, block, *factor, letter, image)?;
        letter = image;
    }
    Ok(LetterSection {
        count,
        image: letter,
    })
}

// Appends the section of a name or of an inverse at a letter, whose image is given, to a reduced product, and reduces.
fn append_section(
    word: &mut Vec<Factor>,
    count: usize,
    block: &Block,
    factor: Factor,
    letter: u8,
    image: u8,
) -> Result<usize, NoMemory>
    requires within { count ≤ length word.old.items }
    requires reduced { IsReduced (product_of (take count word.old.items)) }
    requires name { factor.name < length block.now.system }
    requires letter { IsLetter block.now.alphabet letter }
    requires image { image ≡ factor_output block.now.system (factor_of factor) letter }
    requires valid { IsLetter block.now.alphabet image }
    ensures within { IfOk result (λ k. k ≤ length word.new.items) }
    ensures value { IfOk result (λ k. product_of (take k word.new.items) ≡ reduced (product_of (take count word.old.items) ++ factor_section block.now.system (factor_of factor) letter)) }
{
    let at = if factor.inverse { image } else { letter };
    let part = block.section(factor.name, at);
    if word.len() - count < part.len() {
        make_room(word, count, part.len())?;
    }
    if factor.inverse {
        Ok(append_inverse(word, count, part))
    } else {
        Ok(append(word, count, part))
    }
}

// Makes room for so many members behind the first ones. It stands apart, as it seldom has anything to do.
#[cold]
#[inline(never)]
fn make_room(word: &mut Vec<Factor>, count: usize, more: usize) -> Result<(), NoMemory>
    requires { count ≤ length word.old.items }
    ensures room { OnOk result (count + more ≤ length word.new.items) }
    ensures keeps { OnOk result (take count word.new.items ≡ take count word.old.items) }
{
    while word.len() - count < more {
        word.push(FILLER)?;
    }
    Ok(())
}

// Appends a product to a reduced one, and reduces.
fn append(word: &mut [Factor], count: usize, product: &[Factor]) -> usize
    requires room { count + length product.now ≤ length word.old }
    requires reduced { IsReduced (product_of (take count word.old)) }
    ensures length { length word.new ≡ length word.old }
    ensures most { result ≤ count + length product.now }
    ensures value { product_of (take result word.new) ≡ reduced (product_of (take count word.old) ++ product_of product.now) }
{
    let mut end = count;
    for factor in product {
        end = push(word, end, *factor);
    }
    end
}

// Appends the inverse of a product to a reduced one, and reduces.
#[inline(never)]
fn append_inverse(word: &mut [Factor], count: usize, product: &[Factor]) -> usize
    requires room { count + length product.now ≤ length word.old }
    requires reduced { IsReduced (product_of (take count word.old)) }
    ensures length { length word.new ≡ length word.old }
    ensures most { result ≤ count + length product.now }
    ensures value { product_of (take result word.new) ≡ reduced (product_of (take count word.old) ++ inverse_product (product_of product.now)) }
{
    let mut end = count;
    for i in 0..product.len() {
        end = push(word, end, product[product.len() - 1 - i].inverted());
    }
    end
}

// Appends a name or an inverse to a reduced product, and reduces: two that are inverse to each other go.
fn push(word: &mut [Factor], count: usize, factor: Factor) -> usize
    requires room { count < length word.old }
    requires reduced { IsReduced (product_of (take count word.old)) }
    ensures length { length word.new ≡ length word.old }
    ensures most { result ≤ count + 1 }
    ensures value { product_of (take result word.new) ≡ reduced (product_of (take count word.old) ++ factor_of factor ∷ []) }
{
    if ends_against(word, count, factor) {
        return count - 1;
    }
    word[count] = factor;
    count + 1
}

// Whether the last of so many members is inverse to this one.
fn ends_against(word: &[Factor], count: usize, factor: Factor) -> bool
    requires { count ≤ length word.now }
    ensures value { result ≡ ends_against (product_of (take count word.now)) (factor_of factor) }
    ensures some { IsTrue result → 0 < count }
{
    if count == 0 {
        return false;
    }
    word[count - 1].cancels(factor)
}
