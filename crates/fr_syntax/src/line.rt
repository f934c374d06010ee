//! A line outside a block, token by token.

ghost use Rattle.std.specs.Prelude.{◌≡◌, IfOk, map};
ghost use Rattle.fr_syntax.specs.Tokens.{seen};
ghost use Rattle.fr_syntax.specs.Lines.{lexeme};
ghost use Rattle.fr_syntax.specs.LineSteps as spec;
ghost use Rattle.fr_syntax.specs.LineValues.{Reads};

use crate::follow::{After, follow};
use crate::keyword::Keyword;
use crate::lists::{exact, push};
use crate::name::Name;
use crate::notes::Notes;
use crate::numbers::{exponent, word};
use crate::reader::{ReadExpr, Reader, Step, note_digits};
use crate::statement::{Ray, Statement};
use crate::token::{Mark, Placed, Token};
use crate::tree::Expr;
use fr_alphabet::{Alphabet, NoMemory, Word};
use sqlite_items::Items;
use std::alloc::Global;
use std::mem::replace;

/// What a line outside a block says by itself.
#[derive(Drop)]
pub enum Line {
    /// The number of an `alphabet` line, which need not be in range, up to one more than the greatest exponent.
    Alphabet(u32),
    /// The first line of a block.
    Group,
    Says(Statement),
}

/// What an expression is read for.
#[derive(Drop)]
pub enum Goal {
    Let(Name),
    Show,
    States,
    Wreath,
    ClassOf,
    /// The first of two that are compared.
    First,
    /// The second, after the first.
    Second(Expr),
    Act,
    Ray,
    Order,
    /// One more of a list.
    Nucleus(Items<Expr>),
}

/// What may come next in a line, with what was read of it.
#[derive(Drop)]
pub enum Spot {
    Keyword,
    AlphabetNumber,
    LetName,
    LetEquals(Name),
    Expr(Goal, Reader),
    /// The `(` of a ray.
    RayOpen(Expr, Word, Notes),
    /// Its period.
    RayPeriod(Expr, Word, Notes),
    /// Its `)`.
    RayClose(Expr, Word, Word, Notes),
    /// Nothing.
    Whole(Line, Notes),
}

/// A whole line, and what is refused in it.
#[derive(Drop)]
pub struct ReadLine {
    pub line: Line,
    pub notes: Notes,
}

/// What the tokens of a line are.
#[derive(Drop)]
pub enum LineReading {
    Whole(ReadLine),
    /// The token with this index, or the end of the line, is where they begin no line.
    Syntax(usize),
}

/// The line is whole, and says this.
pub fn says(statement: Statement, notes: Notes) -> Option<Spot>
    ensures { result ≡ spec.says statement notes }
{
    Some(Spot::Whole(Line::Says(statement), notes))
}

fn begin(alloc: Global, goal: Goal) -> Option<Spot>
    ensures { result ≡ spec.begin goal }
{
    Some(Spot::Expr(goal, Reader::new(alloc, Notes::none())))
}

fn keyword_step(alloc: Global, keyword: Option<Keyword>) -> Option<Spot>
    ensures { result ≡ spec.keyword_step keyword }
{
    match keyword? {
        Keyword::Alphabet => Some(Spot::AlphabetNumber),
        Keyword::Group => Some(Spot::Whole(Line::Group, Notes::none())),
        Keyword::Let => Some(Spot::LetName),
        Keyword::Show => begin(alloc, Goal::Show),
        Keyword::States => begin(alloc, Goal::States),
        Keyword::Wreath => begin(alloc, Goal::Wreath),
        Keyword::Class => begin(alloc, Goal::ClassOf),
        Keyword::Eq => begin(alloc, Goal::First),
        Keyword::Act => begin(alloc, Goal::Act),
        Keyword::Ray => begin(alloc, Goal::Ray),
        Keyword::Order => begin(alloc, Goal::Order),
        Keyword::Nucleus => begin(alloc, Goal::Nucleus(Items::new(alloc))),
    }
}

fn period_step(
    alloc: Global,
    a: Alphabet,
    expr: Expr,
    before: Word,
    notes: Notes,
    token: Token<'_>,
) -> Result<Option<Spot>, NoMemory>
    ensures { IfOk result (λ s. s ≡ spec.period_step a expr before notes (seen token.entry)) }
{
    match token {
        Token::Number(digits) => {
            let read = word(alloc, a, digits)?;
            let notes = note_digits(notes, read.refused);
            Ok(Some(Spot::RayClose(expr, before, read.word, notes)))
        }
        _ => Ok(None),
    }
}

fn close_ray(expr: Expr, before: Word, period: Word, notes: Notes, token: Token<'_>) -> Option<Spot>
    ensures { result ≡ spec.close_ray expr before period notes (seen token.entry) }
{
    match token {
        Token::Mark(Mark::RightParen) => {
            says(Statement::RayOf(expr, Ray { before, period }), notes)
        }
        _ => None,
    }
}

impl Spot {
    /// Goes on by a token; false where no line goes on so, and then the spot tells nothing.
    pub fn take(&mut self, alloc: Global, a: Alphabet, token: Token<'_>) -> Result<bool, NoMemory>
        ensures { IfOk result (λ goes. spec.moved goes self.new ≡ spec.take a self.old (seen token.entry)) }
    {
        match self {
            // An expression is read in place, since a line may have many tokens in it.
            Spot::Expr(_, reader) => match reader.step(alloc, a, token)? {
                Step::Next => Ok(true),
                Step::Ends(expr) => self.end_expr(alloc, a, expr, token),
                Step::Stuck => Ok(false),
            },
            _ => self.take_outside(alloc, a, token),
        }
    }

    fn end_expr(
        &mut self,
        alloc: Global,
        a: Alphabet,
        expr: Expr,
        token: Token<'_>,
    ) -> Result<bool, NoMemory>
        ensures { IfOk result (λ goes. spec.moved goes self.new ≡ spec.follow_expr a self.old expr (seen token.entry)) }
    {
        match self {
            Spot::Expr(goal, reader) => match follow(alloc, a, goal, reader, expr, token)? {
                After::Expr => Ok(true),
                After::Moves(next) => {
                    *self = next;
                    Ok(true)
                }
                After::Stuck => Ok(false),
            },
            _ => Ok(false),
        }
    }

    fn take_outside(
        &mut self,
        alloc: Global,
        a: Alphabet,
        token: Token<'_>,
    ) -> Result<bool, NoMemory>
        ensures { IfOk result (λ goes. spec.moved goes self.new ≡ spec.take_outside a self.old (seen token.entry)) }
    {
        match replace(self, Spot::Keyword).after(alloc, a, token)? {
            Some(next) => {
                *self = next;
                Ok(true)
            }
            None => Ok(false),
        }
    }

    /// What comes after a token outside an expression; `None` where no line goes on so.
    fn after(self, alloc: Global, a: Alphabet, token: Token<'_>) -> Result<Option<Spot>, NoMemory>
        ensures { IfOk result (λ s. s ≡ spec.take_outside a self (seen token.entry)) }
    {
        match (self, token) {
            (Spot::Keyword, Token::Name(text)) => Ok(keyword_step(alloc, Keyword::of(text))),
            (Spot::AlphabetNumber, Token::Number(digits)) => {
                let line = Line::Alphabet(exponent(digits));
                Ok(Some(Spot::Whole(line, Notes::none())))
            }
            (Spot::LetName, Token::Name(name)) => {
                Ok(Some(Spot::LetEquals(Name::from_bytes(alloc, name)?)))
            }
            (Spot::LetEquals(name), Token::Mark(Mark::Equals)) => {
                Ok(begin(alloc, Goal::Let(name)))
            }
            (Spot::RayOpen(expr, before, notes), Token::Mark(Mark::LeftParen)) => {
                Ok(Some(Spot::RayPeriod(expr, before, notes)))
            }
            (Spot::RayPeriod(expr, before, notes), token) => {
                period_step(alloc, a, expr, before, notes, token)
            }
            (Spot::RayClose(expr, before, period, notes), token) => {
                Ok(close_ray(expr, before, period, notes, token))
            }
            _ => Ok(None),
        }
    }

    /// The line, where it is whole.
    pub fn finish(self, alloc: Global) -> Result<Option<ReadLine>, NoMemory>
        ensures { IfOk result (λ s. s ≡ spec.finish self) }
    {
        match self {
            Spot::Whole(line, notes) => Ok(Some(ReadLine { line, notes })),
            Spot::Expr(goal, reader) => match reader.finish(alloc)? {
                Some(found) => ended(alloc, goal, found),
                None => Ok(None),
            },
            _ => Ok(None),
        }
    }
}

fn told(statement: Statement, notes: Notes) -> Option<ReadLine>
    ensures { result ≡ spec.told statement notes }
{
    Some(ReadLine {
        line: Line::Says(statement),
        notes,
    })
}

fn ended(alloc: Global, goal: Goal, found: ReadExpr) -> Result<Option<ReadLine>, NoMemory>
    ensures { IfOk result (λ s. s ≡ spec.ended goal found) }
{
    let ReadExpr { expr, notes } = found;
    match goal {
        Goal::Let(name) => Ok(told(Statement::Let(name, expr), notes)),
        Goal::Show => Ok(told(Statement::Show(expr), notes)),
        Goal::States => Ok(told(Statement::States(expr), notes)),
        Goal::Wreath => Ok(told(Statement::Wreath(expr), notes)),
        Goal::ClassOf => Ok(told(Statement::ClassOf(expr), notes)),
        Goal::Second(left) => Ok(told(Statement::Eq(left, expr), notes)),
        Goal::Nucleus(mut exprs) => {
            push(alloc, &mut exprs, expr)?;
            Ok(told(Statement::NucleusOf(exact(alloc, exprs)?), notes))
        }
        _ => Ok(None),
    }
}

/// Reads the tokens of a line outside a block over the alphabet: what the line says, or the index of
/// the first token such that those up to it begin no line. The only error is want of memory.
#[tactic(auto, using(crate::proofs::LineValueLaws::reads))]
pub fn read_tokens(
    alloc: Global,
    a: Alphabet,
    tokens: &[Placed<'_>],
) -> Result<LineReading, NoMemory>
    ensures { IfOk result (λ r. Reads a (map lexeme tokens.entry.now) r) }
{
    step_through(alloc, a, tokens)
}

fn step_through(alloc: Global, a: Alphabet, tokens: &[Placed<'_>]) -> Result<LineReading, NoMemory>
    ensures { IfOk result (λ r. r ≡ spec.reading a (map lexeme tokens.entry.now)) }
{
    let mut spot = Spot::Keyword;
    for (k, token) in tokens.iter().enumerate() {
        if !spot.take(alloc, a, token.token)? {
            return Ok(LineReading::Syntax(k));
        }
    }
    match spot.finish(alloc)? {
        Some(read) => Ok(LineReading::Whole(read)),
        None => Ok(LineReading::Syntax(tokens.len())),
    }
}
