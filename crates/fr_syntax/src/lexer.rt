//! The text of a line, and its tokens.

ghost use Rattle.std.specs.Prelude.{◌≡◌, ◌==◌, ◌<◌, ◌≤◌, ◌+◌, ◌-◌, ◌∷◌, ℕ, false, not, IfOk, map, length, drop, take_while, slice_index};
ghost use Rattle.fr_syntax.specs.Tokens.{seen};
ghost use Rattle.fr_syntax.specs.Lines as spec;
ghost use Rattle.fr_syntax.specs.Fronts.{IsFront};

use crate::token::{Mark, Placed, Token};
use fr_alphabet::NoMemory;
use memchr::memchr;
use std::alloc::Global;

fn without_return(line: &[u8]) -> &[u8]
    ensures { result.now ≡ spec.without_return line.now }
{
    if !line.is_empty() && line[line.len() - 1] == b'\r' {
        &line[..line.len() - 1]
    } else {
        line
    }
}

/// How many bytes stand before the first that is `byte`: all of them, where there is none.
pub fn length_before(byte: u8, text: &[u8]) -> usize
    ensures { result ≡ length (take_while (λ c. not (c == byte)) text.now) }
{
    memchr(byte, text).unwrap_or(text.len())
}

#[tactic(auto, using(crate::proofs::LexerLaws::fronts))]
fn before_comment(line: &[u8]) -> &[u8]
    ensures { result.now ≡ spec.before_comment line.now }
{
    let length = length_before(b'#', line);
    &line[..length]
}

/// The text of a line: without one closing byte 13, and up to the first `#`.
pub fn code(line: &[u8]) -> &[u8]
    ensures { result.now ≡ spec.code_of line.now }
{
    before_comment(without_return(line))
}

fn is_blank(c: u8) -> bool
    ensures { result ≡ spec.is_blank c }
{
    c == b' ' || c == b'\t'
}

/// Whether a byte may stand before the comment.
pub fn is_allowed(c: u8) -> bool
    ensures { result ≡ spec.is_allowed c }
{
    (b' ' <= c && c <= b'~') || c == b'\t'
}

fn is_letter(c: u8) -> bool
    ensures { result ≡ spec.is_letter c }
{
    (b'A'..=b'Z').contains(&c) || (b'a'..=b'z').contains(&c)
}

fn is_digit(c: u8) -> bool
    ensures { result ≡ spec.is_digit c }
{
    b'0' <= c && c <= b'9'
}

fn is_name_byte(c: u8) -> bool
    ensures { result ≡ spec.is_name_byte c }
{
    is_letter(c) || is_digit(c) || c == b'_'
}

fn mark(c: u8) -> Mark
    ensures { result ≡ spec.mark_of c }
{
    match c {
        b'(' => Mark::LeftParen,
        b')' => Mark::RightParen,
        b'[' => Mark::LeftBracket,
        b']' => Mark::RightBracket,
        b',' => Mark::Comma,
        b'*' => Mark::Star,
        b'^' => Mark::Caret,
        b'-' => Mark::Minus,
        b'@' => Mark::At,
        b'=' => Mark::Equals,
        b'<' => Mark::Less,
        b'>' => Mark::Greater,
        other => Mark::Other(other),
    }
}

fn name_length(bytes: &[u8]) -> usize
    ensures { result ≡ length (take_while spec.is_name_byte bytes.now) }
{
    bytes.iter().take_while(|c| is_name_byte(**c)).count()
}

fn number_length(bytes: &[u8]) -> usize
    ensures { result ≡ length (take_while spec.is_digit bytes.now) }
{
    bytes.iter().take_while(|c| is_digit(**c)).count()
}

/// A token at the front of a text, and its length.
#[derive(Clone, Copy)]
struct Front<'a> {
    token: Token<'a>,
    length: usize,
}

fn first_token(text: &[u8]) -> Front<'_>
    requires some { 0 < length text.now }
    requires solid { spec.is_blank (slice_index text.now 0) ≡ false }
    ensures first { (p : ℕ) → spec.tokens_at p 0 text.now
        ≡ record { lexeme = seen result.token; place = p; after = p + result.length }
        ∷ spec.tokens_at (p + result.length) 0 (drop result.length text.now) }
    ensures some { 0 < result.length }
    ensures within { result.length ≤ length text.now }
{
    let first = text[0];
    if is_letter(first) {
        let length = name_length(&text[1..]) + 1;
        let token = Token::Name(&text[..length]);
        Front { token, length }
    } else if is_digit(first) {
        let length = number_length(&text[1..]) + 1;
        let token = Token::Number(&text[..length]);
        Front { token, length }
    } else {
        let token = Token::Mark(mark(first));
        Front { token, length: 1 }
    }
}

fn skip_blanks(text: &[u8]) -> &[u8]
    ensures same { (p : ℕ) → spec.tokens_at p 0 text.now ≡ spec.tokens_at (p + (length text.now - length result.now)) 0 result.now }
    ensures solid { 0 < length result.now → spec.is_blank (slice_index result.now 0) ≡ false }
{
    for (i, c) in text.iter().enumerate() {
        if !is_blank(*c) {
            return &text[i..];
        }
    }
    &[]
}

/// The first token of a text, and whether no other follows it.
#[derive(Clone, Copy, Debug)]
pub struct LineFront<'a> {
    pub token: Token<'a>,
    pub is_only: bool,
}

/// The first token of a text; `None` where it has none.
pub fn line_front(text: &[u8]) -> Option<LineFront<'_>>
    ensures { IsFront (spec.lexemes (spec.tokens_of text.now)) result }
{
    let text = skip_blanks(text);
    if text.is_empty() {
        return None;
    }
    let first = first_token(text);
    let rest = skip_blanks(&text[first.length..]);
    Some(LineFront {
        token: first.token,
        is_only: rest.is_empty(),
    })
}

/// The tokens of a text, from left to right, with their places from 1.
///
/// A name and a number are as long as possible, a blank only parts tokens, and any other byte is
/// a token by itself. The only error is want of memory.
pub fn tokens<'a>(alloc: Global, text: &'a [u8]) -> Result<Vec<Placed<'a>>, NoMemory>
    ensures { IfOk result (λ found. map spec.located found.items ≡ spec.tokens_of text.now) }
{
    let mut found = Vec::with_capacity(alloc, text.len())?;
    let mut i = 0;
    while i < text.len() {
        if is_blank(text[i]) {
            i += 1;
        } else {
            let front = first_token(&text[i..]);
            found.push_reserved(Placed {
                token: front.token,
                place: i + 1,
                after: i + 1 + front.length,
            });
            i += front.length;
        }
    }
    Ok(found)
}
