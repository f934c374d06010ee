//! What the lines of a script say.

ghost use Rattle.std.specs.Prelude.{◌≡◌};

use crate::name::Name;
use crate::tree::Expr;
use fr_alphabet::{Alphabet, Perm, Word};
use sqlite_items::Items;
use std::marker::Model;

/// An infinite word that is periodic from some letter on: letters, and a period after them.
#[derive(Drop)]
pub struct Ray {
    pub before: Word,
    pub period: Word,
}

/// A name in a section, or its inverse.
#[derive(Drop)]
pub struct SecName {
    pub name: Name,
    pub inverse: bool,
}

/// A section: a product of names and inverses of names, from left to right. It has none for 1.
#[derive(Drop)]
pub struct SecWord {
    names: Items<SecName>,
}

// Clauses see the list of its names.
impl Model for SecWord {
    ghost use Rattle.std.specs.Prelude.{List};
    ghost use Rattle.fr_syntax.specs.declared.statement.SecName.{SecName};

    ghost Value = { List SecName };

    ghost view = { λ w. w.names };
}

impl SecWord {
    /// The product of these names.
    pub fn of_names(names: Items<SecName>) -> SecWord
        ensures { result ≡ names }
    {
        SecWord { names }
    }

    /// Its names, from left to right.
    pub fn names(&self) -> &[SecName]
        ensures { result.now ≡ self.now }
    {
        self.names.as_slice()
    }
}

/// A line of a block, which defines a name by its wreath recursion: a permutation of the letters, and
/// a section for each letter. Sections in the sense of Nekrashevych, "Self-Similar Groups", 1.3.
#[derive(Drop)]
pub struct Recursion {
    pub line: u32,
    pub name: Name,
    pub perm: Perm,
    /// A section for each letter.
    pub sections: Items<SecWord>,
}

/// What an item of a script says. `Alphabet`, `Group` and `Let` are definitions, the others ask.
#[derive(Drop)]
pub enum Statement {
    /// The alphabet of the script.
    Alphabet(Alphabet),
    /// A block, whose names may stand in one another's sections.
    Group(Items<Recursion>),
    /// A name for an element.
    Let(Name, Expr),
    /// The least automaton of an element.
    Show(Expr),
    /// How many states it has.
    States(Expr),
    /// The wreath recursion of an element.
    Wreath(Expr),
    /// The activity of an element.
    ClassOf(Expr),
    /// Whether two elements are equal.
    Eq(Expr, Expr),
    /// The image of a word.
    Act(Expr, Word),
    /// The image of an infinite word.
    RayOf(Expr, Ray),
    /// The order of an element, up to a bound of at most 1,000,000.
    Order(Expr, u32),
    /// The nucleus of the group of some elements.
    NucleusOf(Items<Expr>),
}
