//! How many brackets are open at once.

ghost use Rattle.std.specs.Prelude.{◌≡◌, ◌<◌, ◌^◌, map};
ghost use Rattle.fr_syntax.specs.Tokens.{seen};
ghost use Rattle.fr_syntax.specs.Lines as lines;

use crate::token::{Mark, Placed, Token};

/// The most brackets that are open at once.
pub const NESTING_LIMIT: usize = 64;

// How many `(` are open after a token.
fn round_after(count: usize, token: Token<'_>) -> usize
    requires { count < 2 ^ 63 }
    ensures { result ≡ lines.round_after count (seen token.entry) }
{
    match token {
        Token::Mark(Mark::LeftParen) => count + 1,
        Token::Mark(Mark::RightParen) => count.saturating_sub(1),
        _ => count,
    }
}

// How many `[` are open after a token.
fn square_after(count: usize, token: Token<'_>) -> usize
    requires { count < 2 ^ 63 }
    ensures { result ≡ lines.square_after count (seen token.entry) }
{
    match token {
        Token::Mark(Mark::LeftBracket) => count + 1,
        Token::Mark(Mark::RightBracket) => count.saturating_sub(1),
        _ => count,
    }
}

/// Whether more than 64 of `(` and `[` are open at once somewhere.
///
/// A closing bracket closes one of its kind, whatever stands between, and counts for nothing where
/// none is open.
pub fn passes_nesting(tokens: &[Placed<'_>]) -> bool
    ensures { result ≡ lines.passes_nesting 0 0 (map lines.lexeme tokens.entry.now) }
{
    let mut round = 0;
    let mut square = 0;
    for token in tokens {
        round = round_after(round, token.token);
        square = square_after(square, token.token);
        if round + square > NESTING_LIMIT {
            return true;
        }
    }
    false
}
