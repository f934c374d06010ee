//! The lines of the text of a machine, read piece by piece.

ghost use Rattle.std.specs.Prelude.{◌≡◌, ◌≢◌, ℕ, suc, ◌<◌, ◌≤◌, ◌+◌, ◌⊎◌, ◌++◌, ◌∷◌, List, [], All, IfOk, MatchOption, if◌then◌else◌, ◌==◌, length, map, take, drop, codes};
ghost use Rattle.std.specs.List.{position};
ghost use Rattle.std.specs.Fmt.{decimal};
ghost use Rattle.fr_model.specs.Automata.{State, IsState};
ghost use Rattle.fr_machine.specs.Rows.{IsRow, state_of};
ghost use Rattle.fr_canon.specs.Texts.{numbers_text, count_line, state_line};
ghost use Rattle.fr_canon.specs.Readings.{Free, IsNextTable};

use crate::cycles::written_perm;
use fr_alphabet::{Alphabet, NoMemory};
use fr_machine::Row;

// The first place of a byte.
fn place_of(text: &[u8], byte: u8) -> Option<usize>
    ensures { result ≡ position (λ b. b == byte) text.now }
{
    text.iter().position(|b| *b == byte)
}

// The number from 1 to 9,999 that these digits write without leading zeros.
fn number_of(digits: &[u8]) -> Option<u16>
    ensures { MatchOption result ((n : ℕ) → 1 ≤ n → n < 10000 → digits.now ≢ decimal n) (λ n. (1 ≤ n) × (n < 10000) × (digits.now ≡ decimal n)) }
{
    if digits.is_empty() || digits.len() > 4 || digits[0] == b'0' {
        return None;
    }
    let mut number = 0u16;
    for digit in digits {
        if *digit < b'0' || *digit > b'9' {
            return None;
        }
        number = number * 10 + (*digit - b'0') as u16;
    }
    Some(number)
}

// Reads a number from 1 to `most`, and the byte behind it, which is no digit: the number and the text after that byte.
fn read_number(text: &[u8], end: u8, most: u16) -> Option<(u16, &[u8])>
    requires end { (end < 48) ⊎ (57 < end) }
    requires most { most < 10000 }
    ensures { MatchOption result ((n : ℕ) (rest : List ℕ) → 1 ≤ n → n ≤ most → text.now ≢ decimal n ++ end ∷ rest) (λ r. (1 ≤ r.0) × (r.0 ≤ most) × (text.now ≡ decimal r.0 ++ end ∷ r.1.now)) }
{
    let Some(length) = place_of(text, end) else {
        return None;
    };
    let Some(number) = number_of(&text[..length]) else {
        return None;
    };
    if number > most {
        return None;
    }
    Some((number, &text[length + 1..]))
}

// Reads the number of a state, as `2 = <`: the text after it.
fn read_head(number: u16, text: &[u8]) -> Option<&[u8]>
    requires some { 1 ≤ number }
    requires few { number ≤ 1024 }
    ensures { MatchOption result ((rest : List ℕ) → text.now ≢ decimal number ++ (codes " = <" ++ rest)) (λ r. text.now ≡ decimal number ++ (codes " = <" ++ r.now)) }
{
    let Some((found, rest)) = read_number(text, b' ', 1024) else {
        return None;
    };
    if found != number {
        return None;
    }
    rest.strip_prefix(b"= <")
}

// The byte behind the x-th of the next states, counted from 0.
fn end_of(d: u8, x: u8) -> u8
    requires { x < d }
    ensures value { result ≡ (if x + 1 == d then 62 else 44) }
    ensures no_digit { (result < 48) ⊎ (57 < result) }
{
    if x + 1 == d { b'>' } else { b',' }
}

// Reads the numbers of the next states of one of `count` states, as `2,3>`, into a table of zeros, where states are
// counted from 0: the text after the numbers.
fn read_next<'a>(d: u8, count: u16, text: &'a [u8], next: &mut [u16; 8]) -> Option<&'a [u8]>
    requires least { 1 ≤ d }
    requires letters { d ≤ 8 }
    requires zeros { IsNextTable 0 count next.old }
    requires few { count ≤ 1024 }
    ensures { MatchOption result ((ns : List ℕ) (rest : List ℕ) → length ns ≡ d → All (λ n. n < count) ns → text.now ≢ numbers_text (map suc ns) ++ 62 ∷ rest) (λ r. IsNextTable d count next.new × (text.now ≡ numbers_text (map suc (take d next.new)) ++ 62 ∷ r.now)) }
{
    let mut rest = text;
    for x in 0..d {
        let Some((number, more)) = read_number(rest, end_of(d, x), count) else {
            return None;
        };
        next[x as usize] = number - 1;
        rest = more;
    }
    Some(rest)
}

// The first line, without its newline, and the text after the newline.
pub(crate) fn split_line(text: &[u8]) -> Option<(&[u8], &[u8])>
    ensures { MatchOption result ((line : List ℕ) (rest : List ℕ) → text.now ≢ line ++ 10 ∷ rest) (λ r. Free 10 r.0.now × (text.now ≡ r.0.now ++ 10 ∷ r.1.now)) }
{
    let Some(length) = place_of(text, b'\n') else {
        return None;
    };
    Some((&text[..length], &text[length + 1..]))
}

// Reads the number of states, 1 to 1,024, from the line `states n`.
pub(crate) fn read_count(line: &[u8]) -> Option<u16>
    ensures { MatchOption result ((n : ℕ) → 1 ≤ n → n ≤ 1024 → line.now ≢ count_line n) (λ n. (1 ≤ n) × (n ≤ 1024) × (line.now ≡ count_line n)) }
{
    let Some(digits) = line.strip_prefix(b"states ") else {
        return None;
    };
    let Some(count) = number_of(digits) else {
        return None;
    };
    if count > 1024 { None } else { Some(count) }
}

// Reads one of `count` states from its line, as `2 = <2,3>(1,2)`. The buffer is for cycles.
pub(crate) fn read_state(
    a: Alphabet,
    count: u16,
    number: u16,
    line: &[u8],
    buffer: &mut Vec<u8>,
) -> Result<Option<Row>, NoMemory>
    requires count { count ≤ 1024 }
    requires some { 1 ≤ number }
    requires within { number ≤ count }
    ensures { IfOk result (λ o. MatchOption o ((q : State) → IsState a count q → line.now ≢ state_line number q) (λ r. IsRow a count r × (line.now ≡ state_line number (state_of r)))) }
{
    let Some(states) = read_head(number, line) else {
        return Ok(None);
    };
    let mut next = [0; 8];
    let Some(cycles) = read_next(a.letters(), count, states, &mut next) else {
        return Ok(None);
    };
    match written_perm(a, cycles, buffer)? {
        Some(perm) => Ok(Some(Row { perm, next })),
        None => Ok(None),
    }
}
