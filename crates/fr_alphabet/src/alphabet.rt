//! Alphabets.

ghost use Rattle.std.specs.Prelude.{◌≡◌, ◌≤◌, ◌↔◌, IsSome, IfSome};

use std::marker::Model;

/// An alphabet of 2 to 8 letters, which are numbered from 1.
#[derive(Clone, Copy, Debug, PartialEq, Eq)]
pub struct Alphabet {
    count: u8,
}

// Clauses see the number of letters.
impl Model for Alphabet {
    ghost use Rattle.std.specs.Prelude.{ℕ, ◌≤◌};

    ghost Value = { ℕ };

    ghost view = { λ a. a.count };

    ghost invariant = { λ a. (2 ≤ a.count) × (a.count ≤ 8) };

    ghost inverse = { λ d. record { count = d } };
}

impl Alphabet {
    /// The alphabet of `d` letters; `None` exactly where `d` is not in 2..=8.
    pub fn new(d: u8) -> Option<Alphabet>
        ensures accepts { IsSome result ↔ ((2 ≤ d) × (d ≤ 8)) }
        ensures value { IfSome result (λ a. a ≡ d) }
    {
        if d < 2 || d > 8 {
            None
        } else {
            Some(Alphabet { count: d })
        }
    }

    /// How many letters it has, 2 to 8.
    pub fn letters(&self) -> u8
        ensures value { result ≡ self.now }
        ensures least { 2 ≤ result }
        ensures most { result ≤ 8 }
    {
        self.count
    }
}
