//! The first words of lines.

ghost use Rattle.std.specs.Prelude.{◌≡◌};
ghost use Rattle.std.specs.Str.{bytes_eq};
ghost use Rattle.fr_syntax.specs.Keywords.{keyword_of};

/// The first word of a line outside a block.
#[derive(Clone, Copy, Debug, PartialEq, Eq)]
pub enum Keyword {
    Alphabet,
    Group,
    Let,
    Show,
    States,
    Wreath,
    Class,
    Eq,
    Act,
    Ray,
    Order,
    Nucleus,
}

fn is(text: &[u8], word: &[u8]) -> bool
    ensures { result ≡ bytes_eq text.now word.now }
{
    text == word
}

impl Keyword {
    /// The first word that is this text, if it is one.
    #[tactic(auto, unfolding(crate::specs::Keywords::keyword_of))]
    pub fn of(text: &[u8]) -> Option<Keyword>
        ensures { result ≡ keyword_of text.now }
    {
        if is(text, b"alphabet") {
            Some(Keyword::Alphabet)
        } else if is(text, b"group") {
            Some(Keyword::Group)
        } else if is(text, b"let") {
            Some(Keyword::Let)
        } else if is(text, b"show") {
            Some(Keyword::Show)
        } else if is(text, b"states") {
            Some(Keyword::States)
        } else if is(text, b"wreath") {
            Some(Keyword::Wreath)
        } else if is(text, b"class") {
            Some(Keyword::Class)
        } else if is(text, b"eq") {
            Some(Keyword::Eq)
        } else if is(text, b"act") {
            Some(Keyword::Act)
        } else if is(text, b"ray") {
            Some(Keyword::Ray)
        } else if is(text, b"order") {
            Some(Keyword::Order)
        } else if is(text, b"nucleus") {
            Some(Keyword::Nucleus)
        } else {
            None
        }
    }
}
