//! Why a line or a block says nothing.

/// What is wrong with a line. Places count bytes from 1.
///
/// Reading gives those up to `NoEnd`, `AlphabetRange` and `AlphabetPlace`. The others are for those who
/// evaluate what was read.
#[derive(Clone, Copy, Debug, PartialEq, Eq)]
pub enum LineFault {
    /// The byte at this place is not allowed before a comment.
    BadByte(usize),
    /// The line has more than 4,096 bytes.
    LineTooLong,
    /// The first token is no keyword.
    UnknownStatement,
    /// The tokens are no line of the grammar: those up to this place begin none, or the line is not whole there.
    Syntax(usize),
    /// A digit of a word or a ray, or a number in a cycle, is no letter.
    NotALetter,
    /// A list of sections has not one for each letter.
    WrongArity,
    /// A letter stands twice in the cycles.
    NotPermutation,
    /// More than 64 brackets are open somewhere.
    NestingPassed,
    /// An exponent or the bound of an order is above 1,000,000.
    PowerPassed,
    /// A block has no end.
    NoEnd,
    /// A name stands twice in a block.
    NameTaken,
    /// A name is not bound above, or not by the block.
    UnknownName,
    /// A product has too many pairs.
    PairsPassed,
    /// An element has too many states.
    StatesPassed,
    /// There is no small enough nucleus.
    NucleusPassed,
    /// The generators have too many sections.
    TooManySections,
    /// An alphabet has fewer than 2 or more than 8 letters.
    AlphabetRange,
    /// An alphabet stands behind another item.
    AlphabetPlace,
    /// The image of a ray has too many letters.
    RayPassed,
    /// A block has too many section words, or one that is too long.
    ClosurePassed,
}

/// A fault, and the line where it is, counted from 1.
#[derive(Clone, Copy, Debug, PartialEq, Eq)]
pub struct Fault {
    pub line: u32,
    pub kind: LineFault,
}
