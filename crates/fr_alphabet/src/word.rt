//! Words, and how they are read and printed.

ghost use Rattle.std.specs.Prelude.{◌≡◌, ℕ, ◌≤◌, ◌⊎◌, ◌++◌, All, IfOk, IfErr, OnOk, OnErr, Ok, Err, length, vec_len};
ghost use Rattle.fr_model.specs.Words.{IsLetter, IsWord};
ghost use Rattle.fr_alphabet.specs.Reading.{word_reading};
ghost use Rattle.fr_alphabet.specs.Writing.{word_text};

use crate::alphabet::Alphabet;
use crate::memory::NoMemory;
use std::alloc::{AllocError, AllocFailed, Global};
use std::marker::Model;
use thiserror::Error;

/// The most letters that a word has; also the most bytes of a text that is read as one.
pub const WORD_LIMIT: usize = 4096;

/// A word: at most 4,096 letters, each in 1..=8. The empty word has none.
#[derive(Debug, Drop)]
pub struct Word {
    letters: Vec<u8>,
}

// Clauses see the list of the letters.
impl Model for Word {
    ghost use Rattle.std.specs.Prelude.{ℕ, List};
    ghost use Rattle.fr_alphabet.specs.Bounded.{IsBoundedWord};

    ghost Value = { List ℕ };

    ghost view = { λ w. w.letters.items };

    ghost invariant = { λ w. IsBoundedWord w.letters.items };
}

/// Why a text is no word.
#[derive(Clone, Copy, Debug, PartialEq, Eq, Error)]
pub enum WordFault {
    /// It has more than 4,096 bytes.
    #[error("word too long")]
    WordTooLong,
    /// The byte at this place, counted from 1, is no letter.
    #[error("no letter at {0}")]
    NotALetter(u32),
    /// There is no memory.
    #[error("out of memory")]
    NoMemory,
}

impl<T: Drop> From<AllocFailed<T>> for WordFault {
    ghost use Rattle.std.specs.Prelude.{◌≡◌};
    ghost use Rattle.fr_alphabet.specs.declared.word.WordFault.TheVariants.{NoMemory};

    ghost from_gives = { λ _ e. e ≡ NoMemory };

    fn from(_failed: AllocFailed<T>) -> WordFault {
        WordFault::NoMemory
    }
}

impl From<AllocError> for WordFault {
    ghost use Rattle.std.specs.Prelude.{◌≡◌};
    ghost use Rattle.fr_alphabet.specs.declared.word.WordFault.TheVariants.{NoMemory};

    ghost from_gives = { λ _ e. e ≡ NoMemory };

    fn from(_failed: AllocError) -> WordFault {
        WordFault::NoMemory
    }
}

impl Word {
    /// Reads a word over the alphabet: a digit for each letter, or a lone `-` for the empty word.
    /// This notation is the project's own.
    ///
    /// Errors, the first that holds: `WordTooLong` where the text has more than 4,096 bytes;
    /// `NotALetter(place)` where it is not `-` and has a byte that is no letter's digit, with the
    /// first such place, or 1 for the empty text. `NoMemory` may come before `NotALetter`.
    pub fn read(alloc: Global, a: Alphabet, text: &[u8]) -> Result<Word, WordFault>
        ensures ok { IfOk result (λ w. word_reading a text.now ≡ Ok w) }
        ensures err { IfErr result (λ e. (e ≡ WordFault.NoMemory) ⊎ (word_reading a text.now ≡ Err e)) }
        ensures letters { IfOk result (λ w. IsWord a w) }

        // A word has one text.
        ensures text { IfOk result (λ w. word_text w ≡ text.now) }
    {
        if text.len() > WORD_LIMIT {
            return Err(WordFault::WordTooLong);
        }
        if text.is_empty() {
            return Err(WordFault::NotALetter(1));
        }
        if text.len() == 1 && text[0] == b'-' {
            return Ok(Word {
                letters: Vec::new(alloc),
            });
        }
        let d = a.letters();
        let mut letters = Vec::with_capacity(alloc, text.len())?;
        for (i, digit) in text.iter().enumerate() {
            if *digit < b'1' || *digit > b'0' + d {
                return Err(WordFault::NotALetter(i as u32 + 1));
            }
            letters.push_reserved(*digit - b'0');
        }
        Ok(Word { letters })
    }

    /// The word of these letters, at most 4,096. Each is a letter of some alphabet, so in 1..=8.
    pub fn of_letters(letters: Vec<u8>) -> Word
        requires valid { IsWord 8 letters.items }
        requires most { vec_len letters ≤ 4096 }
        ensures { result ≡ letters.items }
    {
        Word { letters }
    }

    /// The letters in order, at most 4,096.
    pub fn letters(&self) -> &[u8]
        ensures value { result.now ≡ self.now }
        ensures most { length result.now ≤ 4096 }
        ensures valid { IsWord 8 result.now }
        ensures each { All (λ x. IsLetter 8 x) result.now }
    {
        &self.letters
    }

    /// The same word in memory of its own. The only error is want of memory.
    pub fn copy(&self, alloc: Global) -> Result<Word, NoMemory>
        ensures { IfOk result (λ w. w ≡ self.now) }
    {
        let mut letters = Vec::with_capacity(alloc, self.letters.len())?;
        letters.extend_from_slice(&self.letters)?;
        Ok(Word { letters })
    }
}

/// Appends the word as `Word::read` reads it: the digits of its letters, or `-` for the empty word.
///
/// The only error is want of memory; `out` is then as before.
pub fn print_word(w: &Word, out: &mut Vec<u8>) -> Result<(), NoMemory>
    ensures ok { OnOk result (out.new.items ≡ out.old.items ++ word_text w.now) }
    ensures err { OnErr result (out.new.items ≡ out.old.items) }

    // The text reads as the word, over each alphabet that has its letters.
    ensures reads_back { (d : ℕ) → IsWord d w.now → word_reading d (word_text w.now) ≡ Ok w.now }
{
    let letters = w.letters();
    if letters.is_empty() {
        out.push(b'-')?;
        return Ok(());
    }
    let start = out.len();
    out.extend_from_slice(letters)?;
    for byte in out[start..].iter_mut() {
        *byte += b'0';
    }
    Ok(())
}
