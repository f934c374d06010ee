//! The places of faults in a line.

ghost use Rattle.std.specs.Prelude.{◌≡◌, ◌<◌, IfSome, map, length, not, position};
ghost use Rattle.fr_syntax.specs.Lines as lines;

use crate::lexer::is_allowed;
use crate::token::Placed;

/// The place, from 1, of the first byte that is not allowed before a comment: of one that is
/// neither 9 nor in 32..=126.
#[tactic(auto, unfolding(crate::specs::Lines::bad_place))]
pub fn bad_place(text: &[u8]) -> Option<usize>
    ensures { result ≡ lines.bad_place text.now }
{
    match first_bad(text) {
        Some(k) => Some(k + 1),
        None => None,
    }
}

fn first_bad(text: &[u8]) -> Option<usize>
    ensures found { result ≡ position (λ c. not (lines.is_allowed c)) text.now }
    ensures within { IfSome result (λ k. k < length text.now) }
{
    text.iter().position(|c| !is_allowed(*c))
}

/// The place of the token with the index k, or one past the last byte of the last token.
pub fn place_of(tokens: &[Placed<'_>], k: usize) -> usize
    ensures { result ≡ lines.place_of (map lines.located tokens.entry.now) k }
{
    if k < tokens.len() {
        tokens[k].place
    } else if tokens.is_empty() {
        1
    } else {
        tokens[tokens.len() - 1].after
    }
}
