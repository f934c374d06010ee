//! Laws of the grammar, which no call needs.

ghost use Rattle.std.specs.Prelude.{◌≡◌, ◌≤◌, ℕ, List, false, length};
ghost use Rattle.fr_syntax.specs.Grammar.{LineTree, line_tokens};
ghost use Rattle.fr_syntax.specs.Fits.{FitsLine};
ghost use Rattle.fr_syntax.specs.LineValues.{line_notes, line_value};
ghost use Rattle.fr_syntax.specs.Lines.{lexemes, tokens_of};
ghost use Rattle.fr_syntax.specs.Sizes.{line_size};
ghost use Rattle.fr_syntax.specs.Recursions.{RecursionTree, recursion_tokens};

/// No tokens are two lines of the grammar.
pub fn lines_are_unambiguous()
    ensures { (a b : LineTree) → line_tokens a ≡ line_tokens b → a ≡ b }
{}

/// No tokens are two lines of a block.
pub fn recursions_are_unambiguous()
    ensures { (a b : RecursionTree) → recursion_tokens a ≡ recursion_tokens b → a ≡ b }
{}

/// What a line of at most 4,096 bytes says fits the alphabet over which it is read, where each digit of its words is a letter.
pub fn lines_fit()
    ensures { (d : ℕ) (text : List ℕ) (line : LineTree) → lexemes (tokens_of text) ≡ line_tokens line → length text ≤ 4096 →
        (line_notes d line).not_a_letter ≡ false → FitsLine d (line_value d line) }
{}

/// What a line says has no more atoms and operations than the line has tokens.
pub fn lines_are_small()
    ensures { (d : ℕ) (line : LineTree) → line_size (line_value d line) ≤ length (line_tokens line) }
{}
