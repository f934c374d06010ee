//! The cycles of a line inside a block, as they are read.

ghost use Rattle.std.specs.Prelude.{◌≡◌, IfOk, OnOk, false};
ghost use Rattle.fr_syntax.specs.Tokens.{seen};
ghost use Rattle.fr_syntax.specs.RecursionSteps as spec;

use crate::numbers::letter;
use crate::sections::Head;
use crate::token::{Mark, Token};
use fr_alphabet::{Alphabet, NoMemory};
use sqlite_items::Items;
use std::alloc::Global;
use std::mem::replace;

/// What may come next in cycles.
#[derive(Clone, Copy, Debug)]
pub enum CyclePlace {
    /// A number.
    Number,
    /// What follows a number.
    AfterNumber,
    /// The `(` of a further cycle.
    AfterCycle,
}

/// The cycles that were read, with the letters of the one that is open.
#[derive(Drop)]
pub struct Cycles {
    pub head: Head,
    pub done: Items<Items<u8>>,
    pub current: Items<u8>,
    /// Whether a number was no letter.
    pub refused: bool,
    pub place: CyclePlace,
}

/// No cycles yet.
pub fn fresh(alloc: Global, head: Head) -> Cycles
    ensures { result ≡ spec.fresh head }
{
    Cycles {
        head,
        done: Items::new(alloc),
        current: Items::new(alloc),
        refused: false,
        place: CyclePlace::Number,
    }
}

impl Cycles {
    /// Goes on by a token; false where no line goes on so, and then the cycles tell nothing.
    pub fn take(&mut self, alloc: Global, a: Alphabet, token: Token<'_>) -> Result<bool, NoMemory>
        ensures { IfOk result (λ goes. spec.moved goes self.new ≡ spec.cycles_step a self.old.place self.old (seen token.entry)) }
    {
        match self.place {
            CyclePlace::Number => self.number_step(a, token),
            CyclePlace::AfterNumber => self.after_number(alloc, token),
            CyclePlace::AfterCycle => Ok(self.open_next(token)),
        }
    }

    /// A further letter in the cycle that is open.
    pub fn add_number(&mut self, a: Alphabet, digits: &[u8]) -> Result<(), NoMemory>
        ensures { OnOk result (self.new ≡ spec.with_number a self.old digits.now) }
    {
        let read = letter(a, digits);
        self.current.push(read.letter)?;
        self.refused = self.refused || read.refused;
        self.place = CyclePlace::AfterNumber;
        Ok(())
    }

    fn close(&mut self, alloc: Global) -> Result<(), NoMemory>
        ensures { OnOk result (self.new ≡ spec.with_cycle self.old) }
    {
        let current = replace(&mut self.current, Items::new(alloc));
        self.done.push(current)?;
        self.place = CyclePlace::AfterCycle;
        Ok(())
    }

    fn number_step(&mut self, a: Alphabet, token: Token<'_>) -> Result<bool, NoMemory>
        ensures { IfOk result (λ goes. spec.moved goes self.new ≡ spec.number_step a self.old (seen token.entry)) }
    {
        match token {
            Token::Number(digits) => {
                self.add_number(a, digits)?;
                Ok(true)
            }
            _ => Ok(false),
        }
    }

    fn after_number(&mut self, alloc: Global, token: Token<'_>) -> Result<bool, NoMemory>
        ensures { IfOk result (λ goes. spec.moved goes self.new ≡ spec.after_number self.old (seen token.entry)) }
    {
        match token {
            Token::Mark(Mark::Comma) => {
                self.place = CyclePlace::Number;
                Ok(true)
            }
            Token::Mark(Mark::RightParen) => {
                self.close(alloc)?;
                Ok(true)
            }
            _ => Ok(false),
        }
    }

    fn open_next(&mut self, token: Token<'_>) -> bool
        ensures { spec.moved result self.new ≡ spec.open_next self.old (seen token.entry) }
    {
        match token {
            Token::Mark(Mark::LeftParen) => {
                self.place = CyclePlace::Number;
                true
            }
            _ => false,
        }
    }
}
