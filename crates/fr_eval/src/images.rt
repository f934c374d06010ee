//! The digits of images of words.

ghost use Rattle.std.specs.Prelude.{ℕ, ◌≡◌, ◌<◌, ◌++◌, OnOk, length, map};
ghost use Rattle.fr_model.specs.Words.{IsWord};
ghost use Rattle.fr_model.specs.Terms.{Term, act};
ghost use Rattle.fr_alphabet.specs.Writing.{letter_digit};
ghost use Rattle.fr_store.specs.Store.{IsKnown, Stands, Reads};

use crate::transitions::{Transition, Transitions};
use fr_alphabet::NoMemory;
use fr_store::{Handle, Store};

// A word of so many letters is long: a table of what was looked up is worth its making.
const LONG: usize = 64;

/// Appends the digits of letters. Where memory runs out, some of them may stand there.
pub fn push_digits(letters: &[u8], out: &mut Vec<u8>) -> Result<(), NoMemory>
    requires { IsWord 8 letters.now }
    ensures { OnOk result (out.new.items ≡ out.old.items ++ map letter_digit letters.now) }
{
    for x in letters {
        out.push(b'0' + *x)?;
    }
    Ok(())
}

/// Appends the digits of the image of a word. Where memory runs out, some of them may stand there.
pub fn push_image<S: Store>(
    store: &mut S,
    h: Handle,
    word: &[u8],
    out: &mut Vec<u8>,
) -> Result<(), NoMemory>
    requires known { IsKnown (S.view.known store.old) h }
    requires word { IsWord (S.view.alphabet store.old) word.now }
    ensures image { OnOk result ((t : Term) → Stands S.view store.old h t → out.new.items ≡ out.old.items ++ map letter_digit (act t word.now)) }
    ensures reads { Reads S.view store.old store.new }
{
    if word.len() < LONG {
        push_short_image(store, h, word, out)
    } else {
        push_long_image(store, h, word, out)
    }
}

// Letter by letter: each element puts one out and goes on as its section.
fn push_short_image<S: Store>(
    store: &mut S,
    h: Handle,
    word: &[u8],
    out: &mut Vec<u8>,
) -> Result<(), NoMemory>
    requires known { IsKnown (S.view.known store.old) h }
    requires word { IsWord (S.view.alphabet store.old) word.now }
    ensures image { OnOk result ((t : Term) → Stands S.view store.old h t → out.new.items ≡ out.old.items ++ map letter_digit (act t word.now)) }
    ensures reads { Reads S.view store.old store.new }
{
    // For the proof: the store's letters are at most 8.
    let _most = store.alphabet().letters();
    let mut at = h;
    for x in word {
        let put = store.output(at).apply(*x);
        out.push(b'0' + put)?;
        at = store.section(at, *x);
    }
    Ok(())
}

// The same by a table of what was looked up in the store, since few sections are met again and again.
fn push_long_image<S: Store>(
    store: &mut S,
    h: Handle,
    word: &[u8],
    out: &mut Vec<u8>,
) -> Result<(), NoMemory>
    requires known { IsKnown (S.view.known store.old) h }
    requires word { IsWord (S.view.alphabet store.old) word.now }
    requires some { 0 < length word.now }
    ensures image { OnOk result ((t : Term) → Stands S.view store.old h t → out.new.items ≡ out.old.items ++ map letter_digit (act t word.now)) }
    ensures reads { Reads S.view store.old store.new }
{
    // For the proof: the store's letters are at most 8.
    let _most = store.alphabet().letters();
    let first = Transition::of(store, h, word[0]);
    let mut table = Transitions::new(first);
    let mut at = h;
    for x in word {
        let step = table.get(store, at, *x);
        out.push(b'0' + step.output)?;
        at = step.to;
    }
    Ok(())
}
