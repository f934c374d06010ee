//! A line inside a block: what it says, or its first fault.

ghost use Rattle.std.specs.Prelude.{◌≡◌, IfOk, false, map, length, replicate, []};
ghost use Rattle.fr_syntax.specs.Lines as lines;
ghost use Rattle.fr_model.specs.Words.{IsWord};
ghost use Rattle.fr_script.specs.Cycles as cycles;
ghost use Rattle.fr_script.specs.Inner as spec;

use crate::fault::LineFault;
use crate::outcome::{LINE_LIMIT, syntax_fault};
use crate::permutation::{cycles_letters, cycles_permutation, has_repeat};
use fr_alphabet::{Alphabet, NoMemory};
use fr_syntax::{
    Placed, Recursion, RecursionLine, RecursionReading, SecWord, bad_place, code, passes_nesting,
    read_recursion, tokens,
};
use sqlite_items::Items;
use std::alloc::Global;

/// What a line inside a block is.
#[derive(Drop)]
pub enum InnerOutcome {
    Says(Recursion),
    Faulty(LineFault),
}

fn has_arity(a: Alphabet, line: &RecursionLine) -> bool
    ensures { result ≡ spec.has_arity a line.now }
{
    match &line.sections {
        Some(sections) => sections.len() == a.letters() as usize,
        None => true,
    }
}

fn trivial(alloc: Global, a: Alphabet) -> Result<Items<SecWord>, NoMemory>
    ensures { IfOk result (λ r. r ≡ replicate a []) }
{
    let mut sections = Items::new(alloc);
    for _ in 0..a.letters() {
        sections.push(SecWord::of_names(Items::new(alloc)))?;
    }
    Ok(sections)
}

fn sections_or(
    alloc: Global,
    a: Alphabet,
    sections: Option<Items<SecWord>>,
) -> Result<Items<SecWord>, NoMemory>
    ensures { IfOk result (λ r. r ≡ spec.sections_or a sections) }
{
    match sections {
        Some(sections) => Ok(sections),
        None => Ok(trivial(alloc, a)?),
    }
}

/// A line of the grammar: what it says, or the first fault of its numbers and sections.
fn checked(
    alloc: Global,
    a: Alphabet,
    n: u32,
    line: RecursionLine,
) -> Result<InnerOutcome, NoMemory>
    requires { spec.HasLetters a line }
    ensures { IfOk result (λ r. r ≡ spec.checked a n line) }
{
    if line.not_a_letter {
        return Ok(InnerOutcome::Faulty(LineFault::NotALetter));
    }
    if !has_arity(a, &line) {
        return Ok(InnerOutcome::Faulty(LineFault::WrongArity));
    }
    let letters = cycles_letters(alloc, line.cycles.as_slice())?;
    if has_repeat(&letters) {
        return Ok(InnerOutcome::Faulty(LineFault::NotPermutation));
    }
    Ok(InnerOutcome::Says(recursion(alloc, a, n, line)?))
}

fn recursion(alloc: Global, a: Alphabet, n: u32, line: RecursionLine) -> Result<Recursion, NoMemory>
    requires letters { IsWord a (cycles.cycles_letters line.cycles) }
    requires once { cycles.has_repeat (cycles.cycles_letters line.cycles) ≡ false }
    ensures { IfOk result (λ r. r ≡ spec.recursion a n line) }
{
    let RecursionLine {
        name,
        sections,
        cycles,
        not_a_letter: _,
    } = line;
    let perm = cycles_permutation(a, cycles.as_slice());
    Ok(Recursion {
        line: n,
        name,
        perm,
        sections: sections_or(alloc, a, sections)?,
    })
}

fn read_located(
    alloc: Global,
    a: Alphabet,
    n: u32,
    tokens: &[Placed<'_>],
) -> Result<InnerOutcome, NoMemory>
    ensures { IfOk result (λ r. spec.ReadsText a n (map lines.located tokens.entry.now) r) }
{
    if passes_nesting(tokens) {
        return Ok(InnerOutcome::Faulty(LineFault::NestingPassed));
    }
    match read_recursion(alloc, a, tokens)? {
        RecursionReading::Whole(line) => Ok(checked(alloc, a, n, line)?),
        RecursionReading::Syntax(k) => Ok(InnerOutcome::Faulty(syntax_fault(tokens, k))),
    }
}

fn read_text(alloc: Global, a: Alphabet, n: u32, text: &[u8]) -> Result<InnerOutcome, NoMemory>
    ensures { IfOk result (λ r. spec.ReadsText a n (lines.tokens_of text.now) r) }
{
    let tokens = tokens(alloc, text)?;
    Ok(read_located(alloc, a, n, &tokens)?)
}

/// Reads the line n, which stands inside a block and is neither blank nor its end.
pub fn read_inner(alloc: Global, a: Alphabet, n: u32, line: &[u8]) -> Result<InnerOutcome, NoMemory>
    ensures { IfOk result (λ r. spec.ReadsInner a n line.now r) }
{
    let text = code(line);
    match bad_place(text) {
        Some(place) => Ok(InnerOutcome::Faulty(LineFault::BadByte(place))),
        None if line.len() > LINE_LIMIT => Ok(InnerOutcome::Faulty(LineFault::LineTooLong)),
        None => Ok(read_text(alloc, a, n, text)?),
    }
}
