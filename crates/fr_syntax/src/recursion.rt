//! A line inside a block, token by token.

ghost use Rattle.std.specs.Prelude.{◌≡◌, IfOk, map, false, true};
ghost use Rattle.fr_syntax.specs.Tokens.{seen};
ghost use Rattle.fr_syntax.specs.Lines.{lexeme};
ghost use Rattle.fr_syntax.specs.RecursionSteps as spec;
ghost use Rattle.fr_syntax.specs.RecursionFaults.{ReadsRecursion};

use crate::cycles::{CyclePlace, Cycles, fresh};
use crate::name::Name;
use crate::sections::{Head, SectionStep, Sections, bare, headed, opened};
use crate::statement::SecWord;
use crate::token::{Mark, Placed, Token};
use fr_alphabet::{Alphabet, NoMemory};
use sqlite_items::Items;
use std::alloc::Global;
use std::mem::replace;

/// A line inside a block, as it is written. A number that is no letter stands as 0 in its cycle.
#[derive(Drop)]
pub struct RecursionLine {
    pub name: Name,
    pub sections: Option<Items<SecWord>>,
    pub cycles: Items<Items<u8>>,
    pub not_a_letter: bool,
}

/// What may come next in a line, with what was read of it.
#[derive(Drop)]
pub enum Spot {
    Name,
    Equals(Name),
    /// A `<` or a `(`.
    Body(Name),
    /// A token of the sections.
    Sections(Sections),
    /// The `(` of the cycles, if any.
    AfterSections(Head),
    /// A number, or the `)` of no cycles.
    First(Head),
    /// A token of the cycles.
    Cycles(Cycles),
    /// Nothing.
    AfterEmpty(Head),
}

/// What the tokens of a line are.
#[derive(Drop)]
pub enum RecursionReading {
    Whole(RecursionLine),
    /// The token with this index, or the end of the line, is where they begin no line.
    Syntax(usize),
}

fn name_step(alloc: Global, token: Token<'_>) -> Result<Option<Spot>, NoMemory>
    ensures { IfOk result (λ r. r ≡ spec.name_step (seen token.entry)) }
{
    match token {
        Token::Name(name) => Ok(Some(Spot::Equals(Name::from_bytes(alloc, name)?))),
        _ => Ok(None),
    }
}

fn equals_step(name: Name, token: Token<'_>) -> Option<Spot>
    ensures { result ≡ spec.equals_step name (seen token.entry) }
{
    match token {
        Token::Mark(Mark::Equals) => Some(Spot::Body(name)),
        _ => None,
    }
}

fn open_first(head: Head, token: Token<'_>) -> Option<Spot>
    ensures { result ≡ spec.open_first head (seen token.entry) }
{
    match token {
        Token::Mark(Mark::LeftParen) => Some(Spot::First(head)),
        _ => None,
    }
}

fn body_step(alloc: Global, name: Name, token: Token<'_>) -> Option<Spot>
    ensures { result ≡ spec.body_step name (seen token.entry) }
{
    match token {
        Token::Mark(Mark::Less) => Some(Spot::Sections(opened(alloc, name))),
        Token::Mark(Mark::LeftParen) => Some(Spot::First(bare(name))),
        _ => None,
    }
}

fn first_step(
    alloc: Global,
    a: Alphabet,
    head: Head,
    token: Token<'_>,
) -> Result<Option<Spot>, NoMemory>
    ensures { IfOk result (λ r. r ≡ spec.first_step a head (seen token.entry)) }
{
    match token {
        Token::Number(digits) => {
            let mut cycles = fresh(alloc, head);
            cycles.add_number(a, digits)?;
            Ok(Some(Spot::Cycles(cycles)))
        }
        Token::Mark(Mark::RightParen) => Ok(Some(Spot::AfterEmpty(head))),
        _ => Ok(None),
    }
}

impl Spot {
    /// Goes on by a token; false where no line goes on so, and then the spot tells nothing.
    pub fn take(&mut self, alloc: Global, a: Alphabet, token: Token<'_>) -> Result<bool, NoMemory>
        ensures { IfOk result (λ goes. spec.moved goes self.new ≡ spec.take a self.old (seen token.entry)) }
    {
        match self {
            // Sections and cycles are read in place, since a line may have many tokens in them.
            Spot::Sections(sections) => match sections.take(alloc, token)? {
                SectionStep::Next => Ok(true),
                SectionStep::Ends => {
                    self.end_sections();
                    Ok(true)
                }
                SectionStep::Stuck => Ok(false),
            },
            Spot::Cycles(cycles) => cycles.take(alloc, a, token),
            _ => self.take_outside(alloc, a, token),
        }
    }

    fn end_sections(&mut self)
        ensures { self.new ≡ spec.end_sections self.old }
    {
        *self = match replace(self, Spot::Name) {
            Spot::Sections(sections) => Spot::AfterSections(headed(sections)),
            other => other,
        };
    }

    fn take_outside(
        &mut self,
        alloc: Global,
        a: Alphabet,
        token: Token<'_>,
    ) -> Result<bool, NoMemory>
        ensures { IfOk result (λ goes. spec.moved goes self.new ≡ spec.take_outside a self.old (seen token.entry)) }
    {
        match replace(self, Spot::Name).after(alloc, a, token)? {
            Some(next) => {
                *self = next;
                Ok(true)
            }
            None => Ok(false),
        }
    }

    // What comes after a token outside sections and cycles; `None` where no line goes on so.
    fn after(self, alloc: Global, a: Alphabet, token: Token<'_>) -> Result<Option<Spot>, NoMemory>
        ensures { IfOk result (λ r. r ≡ spec.take_outside a self (seen token.entry)) }
    {
        match self {
            Spot::Name => name_step(alloc, token),
            Spot::Equals(name) => Ok(equals_step(name, token)),
            Spot::Body(name) => Ok(body_step(alloc, name, token)),
            Spot::AfterSections(head) => Ok(open_first(head, token)),
            Spot::First(head) => first_step(alloc, a, head, token),
            _ => Ok(None),
        }
    }

    /// The line, where it is whole.
    pub fn finish(self, alloc: Global) -> Option<RecursionLine>
        ensures { result ≡ spec.finish self }
    {
        match self {
            Spot::AfterSections(head) => told(head, Items::new(alloc), false),
            Spot::AfterEmpty(head) => told(head, Items::new(alloc), false),
            Spot::Cycles(cycles) => finish_cycles(cycles),
            _ => None,
        }
    }
}

fn finish_cycles(cycles: Cycles) -> Option<RecursionLine>
    ensures { result ≡ spec.finish_cycles cycles.place cycles }
{
    match cycles.place {
        CyclePlace::AfterCycle => told(cycles.head, cycles.done, cycles.refused),
        _ => None,
    }
}

fn told(head: Head, cycles: Items<Items<u8>>, not_a_letter: bool) -> Option<RecursionLine>
    ensures { result ≡ spec.told head cycles not_a_letter }
{
    let Head { name, sections } = head;
    Some(RecursionLine {
        name,
        sections,
        cycles,
        not_a_letter,
    })
}

/// Reads the tokens of a line inside a block over the alphabet: what the line says, or the index of
/// the first token such that those up to it begin no line. The only error is want of memory.
#[tactic(auto, using(crate::proofs::RecursionValueLaws::reads))]
pub fn read_recursion(
    alloc: Global,
    a: Alphabet,
    tokens: &[Placed<'_>],
) -> Result<RecursionReading, NoMemory>
    ensures { IfOk result (λ r. ReadsRecursion a (map lexeme tokens.entry.now) r) }
{
    step_through(alloc, a, tokens)
}

fn step_through(
    alloc: Global,
    a: Alphabet,
    tokens: &[Placed<'_>],
) -> Result<RecursionReading, NoMemory>
    ensures { IfOk result (λ r. r ≡ spec.reading a (map lexeme tokens.entry.now)) }
{
    let mut spot = Spot::Name;
    for (k, token) in tokens.iter().enumerate() {
        if !spot.take(alloc, a, token.token)? {
            return Ok(RecursionReading::Syntax(k));
        }
    }
    match spot.finish(alloc) {
        Some(line) => Ok(RecursionReading::Whole(line)),
        None => Ok(RecursionReading::Syntax(tokens.len())),
    }
}
