//! The values of number tokens.

ghost use Rattle.std.specs.Prelude.{◌≡◌, IfOk, not, true, []};
ghost use Rattle.fr_syntax.specs.Recursions.{letter_of, is_letter_number};
ghost use Rattle.fr_syntax.specs.Values.{digits_value, capped_value, passes_limit, letters_of, has_bad_letter};
ghost use Rattle.fr_syntax.specs.Steps.{is_one};

use fr_alphabet::{Alphabet, NoMemory, Word, WordFault};
use std::alloc::Global;

/// The greatest exponent, and the greatest bound of an order.
pub const POWER_LIMIT: u32 = 1_000_000;

/// The value of digits, or one more than the limit where it is greater than the limit.
pub fn exponent(digits: &[u8]) -> u32
    ensures { result ≡ capped_value digits.now }
{
    let mut value: u32 = 0;
    for digit in digits {
        value = (10 * value + digit.saturating_sub(b'0') as u32).min(POWER_LIMIT + 1);
    }
    value
}

/// Whether the value of digits is greater than the limit.
#[tactic(auto, using(crate::proofs::NumberLaws::capped_passes), unfolding(crate::specs::Values::capped_value, crate::specs::Values::passes_limit))]
pub fn passes(digits: &[u8]) -> bool
    ensures { result ≡ passes_limit digits.now }
{
    exponent(digits) > POWER_LIMIT
}

/// Whether this is the text `1`.
#[tactic(auto, unfolding(crate::specs::Steps::is_one))]
pub fn is_one_text(text: &[u8]) -> bool
    ensures { result ≡ is_one text.now }
{
    text.len() == 1 && text[0] == b'1'
}

/// A word, and whether it was refused, which leaves it empty.
#[derive(Drop)]
pub struct ReadWord {
    pub word: Word,
    pub refused: bool,
}

/// The word of these digits, which is refused where one is no letter.
pub fn word(alloc: Global, a: Alphabet, digits: &[u8]) -> Result<ReadWord, NoMemory>
    ensures word { IfOk result (λ r. r.word ≡ letters_of a digits.now) }
    ensures refused { IfOk result (λ r. r.refused ≡ has_bad_letter a digits.now) }
{
    match Word::read(alloc, a, digits) {
        Ok(word) => Ok(ReadWord {
            word,
            refused: false,
        }),
        Err(WordFault::NoMemory) => Err(NoMemory),
        Err(WordFault::WordTooLong) => Ok(refused_word(alloc)),
        Err(WordFault::NotALetter(_)) => Ok(refused_word(alloc)),
    }
}

fn refused_word(alloc: Global) -> ReadWord
    ensures word { result.word ≡ [] }
    ensures refused { result.refused ≡ true }
{
    ReadWord {
        word: empty_word(alloc),
        refused: true,
    }
}

/// The word without letters.
pub fn empty_word(alloc: Global) -> Word
    ensures { result ≡ [] }
{
    Word::of_letters(Vec::new(alloc))
}

/// A letter, and whether it was refused, which leaves 0.
#[derive(Clone, Copy, Debug)]
pub struct ReadLetter {
    pub letter: u8,
    pub refused: bool,
}

/// The letter that digits write, which is refused where it is no letter.
#[tactic(auto, unfolding(crate::specs::Recursions::letter_of, crate::specs::Recursions::is_letter_number))]
pub fn letter(a: Alphabet, digits: &[u8]) -> ReadLetter
    ensures letter { result.letter ≡ letter_of a digits.now }
    ensures refused { result.refused ≡ not (is_letter_number a digits.now) }
{
    let value = exponent(digits);
    let d = a.letters();
    if 1 <= value && value <= d as u32 {
        ReadLetter {
            letter: value as u8,
            refused: false,
        }
    } else {
        ReadLetter {
            letter: 0,
            refused: true,
        }
    }
}
