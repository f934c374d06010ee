//! An expression, token by token.

ghost use Rattle.std.specs.Prelude.{◌≡◌, [], ◌∷◌, ◌++◌, ◌||◌, IfOk, true, false};
ghost use Rattle.fr_syntax.specs.Tokens.{seen};
ghost use Rattle.fr_syntax.specs.Values as values;
ghost use Rattle.fr_syntax.specs.Steps as spec;

use crate::lists::push;
use crate::name::Name;
use crate::notes::Notes;
use crate::numbers::{empty_word, exponent, is_one_text, passes, word};
use crate::token::{Mark, Token};
use crate::tree::{Atom, Expr, Factor, Op};
use crate::unfinished::{Frame, Open, Place, add_op, close, plain, product};
use fr_alphabet::{Alphabet, NoMemory};
use sqlite_items::{Boxed, Items};
use std::alloc::Global;
use std::mem::replace;

/// What was read of an expression: the open brackets, the innermost last, and the rest.
#[derive(Drop)]
pub struct Reader {
    pub frames: Items<Frame>,
    /// The factors of the innermost expression.
    pub factors: Items<Factor>,
    pub place: Place,
    pub notes: Notes,
}

/// A whole expression, and what is refused in its line up to its end.
#[derive(Drop)]
pub struct ReadExpr {
    pub expr: Expr,
    pub notes: Notes,
}

/// What a token does to an expression.
#[derive(Drop)]
pub enum Step {
    /// It belongs to it.
    Next,
    /// It stands after it.
    Ends(Expr),
    /// It can stand neither in nor after it.
    Stuck,
}

/// Notes whether the value of an exponent's digits is above the limit.
pub fn note_power(notes: Notes, digits: &[u8]) -> Notes
    ensures { result ≡ values.note_power digits.now notes }
{
    let power_passed = passes(digits);
    Notes {
        power_passed: notes.power_passed || power_passed,
        ..notes
    }
}

/// Notes whether a word was refused.
pub fn note_digits(notes: Notes, refused: bool) -> Notes
    ensures { result ≡ record notes { not_a_letter = notes.not_a_letter || refused } }
{
    Notes {
        not_a_letter: notes.not_a_letter || refused,
        ..notes
    }
}

impl Reader {
    /// Before the first token of an expression.
    pub fn new(alloc: Global, notes: Notes) -> Reader
        ensures { result ≡ spec.begun notes }
    {
        Reader {
            frames: Items::new(alloc),
            factors: Items::new(alloc),
            place: Place::Atom,
            notes,
        }
    }

    /// Begins a further expression of the line.
    pub fn restart(&mut self, alloc: Global)
        ensures { self.new ≡ spec.begun self.old.notes }
    {
        *self = Reader::new(alloc, self.notes);
    }

    /// Takes a token. After `Ends` and `Stuck` the reader is done, and only its notes tell something.
    pub fn step(&mut self, alloc: Global, a: Alphabet, token: Token<'_>) -> Result<Step, NoMemory>
        ensures { IfOk result (λ s. spec.stepped s self.new ≡ spec.step a self.old (seen token.entry)) }
    {
        match self.place {
            Place::Atom | Place::Power => self.atom_step(alloc, token),
            Place::Negative => self.negative_step(alloc, token),
            Place::Word => self.word_step(alloc, a, token),
            Place::After => self.after_step(alloc, token),
        }
    }

    /// The expression, where it is whole.
    pub fn finish(self, alloc: Global) -> Result<Option<ReadExpr>, NoMemory>
        ensures { IfOk result (λ r. r ≡ spec.finish self) }
    {
        let Reader {
            frames,
            factors,
            place,
            notes,
        } = self;
        match place {
            Place::After if frames.is_empty() => {
                let expr = product(alloc, factors)?;
                Ok(Some(ReadExpr { expr, notes }))
            }
            _ => Ok(None),
        }
    }

    fn go(&mut self, place: Place) -> Step
        ensures { spec.stepped result self.new ≡ spec.next self.old.frames self.old.factors place self.old.notes }
    {
        self.place = place;
        Step::Next
    }

    // A factor without operations comes next.
    fn add_atom(&mut self, alloc: Global, atom: Atom) -> Result<Step, NoMemory>
        ensures { IfOk result (λ s. spec.stepped s self.new ≡ spec.next self.old.frames (self.old.factors ++ values.plain atom ∷ []) Place.After self.old.notes) }
    {
        push(alloc, &mut self.factors, plain(alloc, atom))?;
        Ok(self.go(Place::After))
    }

    // An operation on the last factor comes next.
    fn add_op(&mut self, alloc: Global, op: Op) -> Result<Step, NoMemory>
        ensures { IfOk result (λ s. spec.stepped s self.new ≡ spec.next self.old.frames (spec.add_op self.old.factors op) Place.After self.old.notes) }
    {
        add_op(alloc, &mut self.factors, op)?;
        Ok(self.go(Place::After))
    }

    fn fill(&mut self, alloc: Global, place: Place, atom: Atom) -> Result<Step, NoMemory>
        ensures { IfOk result (λ s. spec.stepped s self.new ≡ spec.next self.old.frames (spec.fill self.old.factors place atom) Place.After self.old.notes) }
    {
        match place {
            Place::Power => self.add_op(alloc, Op::Conj(atom)),
            _ => self.add_atom(alloc, atom),
        }
    }

    fn power(&mut self, alloc: Global, negative: bool, digits: &[u8]) -> Result<Step, NoMemory>
        ensures { IfOk result (λ s. spec.stepped s self.new
            ≡ spec.next self.old.frames (spec.add_op self.old.factors (Op.Power negative (values.capped_value digits.now))) Place.After (values.note_power digits.now self.old.notes)) }
    {
        self.notes = note_power(self.notes, digits);
        let k = exponent(digits);
        self.add_op(alloc, Op::Power { negative, k })
    }

    fn open(
        &mut self,
        alloc: Global,
        open: Open,
        factors: Items<Factor>,
        place: Place,
    ) -> Result<Step, NoMemory>
        ensures { IfOk result (λ s. spec.stepped s self.new ≡ spec.opened self.old.frames «open» factors place self.old.notes) }
    {
        self.frames.push(Frame {
            open,
            factors,
            place,
        })?;
        self.factors = Items::new(alloc);
        Ok(self.go(Place::Atom))
    }

    fn open_here(&mut self, alloc: Global, open: Open) -> Result<Step, NoMemory>
        ensures { IfOk result (λ s. spec.stepped s self.new ≡ spec.opened self.old.frames «open» self.old.factors self.old.place self.old.notes) }
    {
        let factors = replace(&mut self.factors, Items::new(alloc));
        self.open(alloc, open, factors, self.place)
    }

    fn atom_step(&mut self, alloc: Global, token: Token<'_>) -> Result<Step, NoMemory>
        ensures { IfOk result (λ s. spec.stepped s self.new ≡ spec.atom_step self.old.frames self.old.factors self.old.place self.old.notes (seen token.entry)) }
    {
        match token {
            Token::Name(name) => {
                let atom = Atom::Named(Name::from_bytes(alloc, name)?);
                self.fill(alloc, self.place, atom)
            }
            Token::Number(digits) => self.number_step(alloc, digits),
            Token::Mark(Mark::LeftParen) => self.open_here(alloc, Open::Paren),
            Token::Mark(Mark::LeftBracket) => self.open_here(alloc, Open::First),
            Token::Mark(Mark::Minus) => Ok(self.minus_step()),
            _ => Ok(Step::Stuck),
        }
    }

    fn number_step(&mut self, alloc: Global, digits: &[u8]) -> Result<Step, NoMemory>
        ensures { IfOk result (λ s. spec.stepped s self.new ≡ spec.number_step self.old.frames self.old.factors self.old.place self.old.notes digits.now) }
    {
        match self.place {
            Place::Power => self.power(alloc, false, digits),
            _ if is_one_text(digits) => self.add_atom(alloc, Atom::One),
            _ => Ok(Step::Stuck),
        }
    }

    fn minus_step(&mut self) -> Step
        ensures { spec.stepped result self.new ≡ spec.minus_step self.old.frames self.old.factors self.old.place self.old.notes }
    {
        match self.place {
            Place::Power => self.go(Place::Negative),
            _ => Step::Stuck,
        }
    }

    fn negative_step(&mut self, alloc: Global, token: Token<'_>) -> Result<Step, NoMemory>
        ensures { IfOk result (λ s. spec.stepped s self.new ≡ spec.negative_step self.old.frames self.old.factors self.old.notes (seen token.entry)) }
    {
        match token {
            Token::Number(digits) => self.power(alloc, true, digits),
            _ => Ok(Step::Stuck),
        }
    }

    fn word_step(&mut self, alloc: Global, a: Alphabet, token: Token<'_>) -> Result<Step, NoMemory>
        ensures { IfOk result (λ s. spec.stepped s self.new ≡ spec.word_step a self.old.frames self.old.factors self.old.notes (seen token.entry)) }
    {
        match token {
            Token::Number(digits) => {
                let read = word(alloc, a, digits)?;
                self.notes = note_digits(self.notes, read.refused);
                self.add_op(alloc, Op::At(read.word))
            }
            Token::Mark(Mark::Minus) => self.add_op(alloc, Op::At(empty_word(alloc))),
            _ => Ok(Step::Stuck),
        }
    }

    fn after_step(&mut self, alloc: Global, token: Token<'_>) -> Result<Step, NoMemory>
        ensures { IfOk result (λ s. spec.stepped s self.new ≡ spec.after_step self.old.frames self.old.factors self.old.notes (seen token.entry)) }
    {
        match token {
            Token::Mark(Mark::Star) => {
                close(alloc, &mut self.factors)?;
                Ok(self.go(Place::Atom))
            }
            Token::Mark(Mark::Caret) => Ok(self.go(Place::Power)),
            Token::Mark(Mark::At) => Ok(self.go(Place::Word)),
            _ => {
                let factors = replace(&mut self.factors, Items::new(alloc));
                let expr = product(alloc, factors)?;
                self.end_step(alloc, expr, token)
            }
        }
    }

    fn end_step(&mut self, alloc: Global, expr: Expr, token: Token<'_>) -> Result<Step, NoMemory>
        ensures { IfOk result (λ s. spec.stepped s self.new ≡ spec.end_step [] self.old.frames expr self.old.notes (seen token.entry)) }
    {
        match self.frames.pop() {
            Some(frame) => self.close_step(alloc, frame, expr, token),
            None => Ok(Step::Ends(expr)),
        }
    }

    fn close_step(
        &mut self,
        alloc: Global,
        frame: Frame,
        expr: Expr,
        token: Token<'_>,
    ) -> Result<Step, NoMemory>
        ensures { IfOk result (λ s. spec.stepped s self.new ≡ spec.close_step self.old.frames frame.«open» frame.factors frame.place expr self.old.notes (seen token.entry)) }
    {
        let Frame {
            open,
            factors,
            place,
        } = frame;
        match (open, token) {
            (Open::Paren, Token::Mark(Mark::RightParen)) => {
                self.factors = factors;
                self.fill(alloc, place, Atom::Paren(expr))
            }
            (Open::First, Token::Mark(Mark::Comma)) => {
                self.open(alloc, Open::Second(expr), factors, place)
            }
            (Open::Second(left), Token::Mark(Mark::RightBracket)) => {
                self.factors = factors;
                let atom = Atom::Comm(Boxed::new(alloc, left)?, Boxed::new(alloc, expr)?);
                self.fill(alloc, place, atom)
            }
            _ => Ok(Step::Stuck),
        }
    }
}
