//! What is refused in a line of the grammar.

ghost use Rattle.std.specs.Prelude.{◌≡◌};
ghost use Rattle.fr_syntax.specs.Values.{no_notes};

/// What is refused in a line though it is in the grammar.
#[derive(Clone, Copy, Debug)]
pub struct Notes {
    /// A digit of a word or a ray is no letter.
    pub not_a_letter: bool,
    /// An exponent, or the bound of an order, is above the limit.
    pub power_passed: bool,
}

impl Notes {
    /// Nothing is refused.
    pub fn none() -> Notes
        ensures { result ≡ no_notes }
    {
        Notes {
            not_a_letter: false,
            power_passed: false,
        }
    }
}
