//! A line outside a block: what it says, or its first fault.

ghost use Rattle.std.specs.Prelude.{◌≡◌, IfOk, map};
ghost use Rattle.fr_syntax.specs.Tokens.{seen};
ghost use Rattle.fr_syntax.specs.Lines as lines;
ghost use Rattle.fr_script.specs.Reading as reading;

use crate::fault::LineFault;
use fr_alphabet::{Alphabet, NoMemory};
use fr_syntax::{
    Keyword, Line, LineReading, Notes, Placed, ReadLine, Statement, Token, bad_place, code,
    passes_nesting, place_of, read_tokens, tokens,
};
use std::alloc::Global;

/// The most bytes of a line.
pub const LINE_LIMIT: usize = 4096;

/// What a line outside a block is.
#[derive(Drop)]
pub enum LineOutcome {
    /// The first line of a block.
    Group,
    Says(Statement),
    Faulty(LineFault),
}

fn is_statement(token: Token<'_>) -> bool
    ensures { result ≡ reading.is_statement (seen token.entry) }
{
    match token {
        Token::Name(text) => Keyword::of(text).is_some(),
        _ => false,
    }
}

fn begins_statement(tokens: &[Placed<'_>]) -> bool
    ensures { result ≡ reading.begins_statement (map lines.lexeme tokens.entry.now) }
{
    match tokens {
        [] => false,
        [first, ..] => is_statement(first.token),
    }
}

/// A line of the grammar: what it says, or the first fault of its numbers.
fn checked(is_first: bool, read: ReadLine) -> LineOutcome
    ensures { result ≡ reading.checked is_first read }
{
    let ReadLine { line, notes } = read;
    let Notes {
        not_a_letter,
        power_passed,
    } = notes;
    if not_a_letter {
        return LineOutcome::Faulty(LineFault::NotALetter);
    }
    if power_passed {
        return LineOutcome::Faulty(LineFault::PowerPassed);
    }
    match line {
        Line::Group => LineOutcome::Group,
        Line::Says(statement) => LineOutcome::Says(statement),
        Line::Alphabet(letters) => alphabet(is_first, letters),
    }
}

fn alphabet(is_first: bool, letters: u32) -> LineOutcome
    ensures { result ≡ reading.alphabet is_first letters }
{
    if !is_first {
        return LineOutcome::Faulty(LineFault::AlphabetPlace);
    }
    if letters < 2 || letters > 8 {
        return LineOutcome::Faulty(LineFault::AlphabetRange);
    }
    match Alphabet::new(letters as u8) {
        Some(a) => LineOutcome::Says(Statement::Alphabet(a)),
        None => unreachable!(),
    }
}

/// The fault of tokens that begin no line from the one with the index k on, whatever else is wrong with them.
pub fn syntax_fault(tokens: &[Placed<'_>], k: usize) -> LineFault
    ensures { result ≡ LineFault.Syntax (lines.place_of (map lines.located tokens.entry.now) k) }
{
    LineFault::Syntax(place_of(tokens, k))
}

fn read_located(
    alloc: Global,
    a: Alphabet,
    is_first: bool,
    tokens: &[Placed<'_>],
) -> Result<LineOutcome, NoMemory>
    ensures { IfOk result (λ r. reading.ReadsText a is_first (map lines.located tokens.entry.now) r) }
{
    if !begins_statement(tokens) {
        return Ok(LineOutcome::Faulty(LineFault::UnknownStatement));
    }
    if passes_nesting(tokens) {
        return Ok(LineOutcome::Faulty(LineFault::NestingPassed));
    }
    match read_tokens(alloc, a, tokens)? {
        LineReading::Whole(read) => Ok(checked(is_first, read)),
        LineReading::Syntax(k) => Ok(LineOutcome::Faulty(syntax_fault(tokens, k))),
    }
}

fn read_text(
    alloc: Global,
    a: Alphabet,
    is_first: bool,
    text: &[u8],
) -> Result<LineOutcome, NoMemory>
    ensures { IfOk result (λ r. reading.ReadsText a is_first (lines.tokens_of text.now) r) }
{
    let tokens = tokens(alloc, text)?;
    Ok(read_located(alloc, a, is_first, &tokens)?)
}

/// Reads a line outside a block that is not blank.
pub fn read_line(
    alloc: Global,
    a: Alphabet,
    is_first: bool,
    line: &[u8],
) -> Result<LineOutcome, NoMemory>
    ensures { IfOk result (λ r. reading.ReadsLine a is_first line.now r) }
{
    let text = code(line);
    match bad_place(text) {
        Some(place) => Ok(LineOutcome::Faulty(LineFault::BadByte(place))),
        None if line.len() > LINE_LIMIT => Ok(LineOutcome::Faulty(LineFault::LineTooLong)),
        None => Ok(read_text(alloc, a, is_first, text)?),
    }
}
