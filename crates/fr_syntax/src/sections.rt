//! The sections of a line inside a block, as they are read.

ghost use Rattle.std.specs.Prelude.{◌≡◌, IfOk, OnOk};
ghost use Rattle.fr_syntax.specs.Tokens.{seen};
ghost use Rattle.fr_syntax.specs.RecursionSteps as spec;

use crate::lists::{exact, push};
use crate::name::Name;
use crate::numbers::is_one_text;
use crate::statement::{SecName, SecWord};
use crate::token::{Mark, Token};
use fr_alphabet::NoMemory;
use sqlite_items::Items;
use std::alloc::Global;
use std::mem::replace;

/// What may come next in a list of sections.
#[derive(Clone, Copy, Debug)]
pub enum SectionPlace {
    /// A section.
    Section,
    /// What follows the section 1.
    AfterOne,
    /// What follows a name.
    AfterName,
    /// The `-` of an inverse.
    Minus,
    /// Its `1`.
    InverseOne,
    /// What follows an inverse.
    AfterInverse,
    /// The name after a `*`.
    NextName,
}

/// A name, the sections that were read for it, and the names of the one that is open.
#[derive(Drop)]
pub struct Sections {
    pub name: Name,
    pub done: Items<SecWord>,
    pub word: Items<SecName>,
    pub place: SectionPlace,
}

/// A name, and its sections where they are written.
#[derive(Drop)]
pub struct Head {
    pub name: Name,
    pub sections: Option<Items<SecWord>>,
}

/// What a token does to a list of sections.
#[derive(Clone, Copy, Debug)]
pub enum SectionStep {
    /// It belongs to it.
    Next,
    /// It is the `>` that ends it.
    Ends,
    /// It can stand neither in it nor at its end.
    Stuck,
}

/// No sections yet.
pub fn opened(alloc: Global, name: Name) -> Sections
    ensures { result ≡ spec.opened name }
{
    Sections {
        name,
        done: Items::new(alloc),
        word: Items::new(alloc),
        place: SectionPlace::Section,
    }
}

/// The name with its sections, which are whole.
pub fn headed(s: Sections) -> Head
    ensures { result ≡ spec.headed s }
{
    Head {
        name: s.name,
        sections: Some(s.done),
    }
}

/// A name for which no sections are written.
pub fn bare(name: Name) -> Head
    ensures { result ≡ spec.bare name }
{
    Head {
        name,
        sections: None,
    }
}

// The last name becomes its inverse.
fn invert_last(word: &mut Items<SecName>) -> Result<(), NoMemory>
    ensures { OnOk result (word.new ≡ spec.invert_last word.old) }
{
    if let Some(last) = word.pop() {
        word.push(SecName {
            name: last.name,
            inverse: true,
        })?;
    }
    Ok(())
}

impl Sections {
    /// Takes a token. After `Stuck` the list tells nothing.
    pub fn take(&mut self, alloc: Global, token: Token<'_>) -> Result<SectionStep, NoMemory>
        ensures { IfOk result (λ s. spec.sectioned s self.new ≡ spec.sections_step self.old.place self.old (seen token.entry)) }
    {
        match self.place {
            SectionPlace::Section => self.section_step(alloc, token),
            SectionPlace::AfterOne => self.end_section(alloc, token),
            SectionPlace::AfterName => self.after_name(alloc, token),
            SectionPlace::Minus => Ok(self.minus_step(token)),
            SectionPlace::InverseOne => self.inverse_step(token),
            SectionPlace::AfterInverse => self.after_word(alloc, token),
            SectionPlace::NextName => self.next_name_step(alloc, token),
        }
    }

    fn go(&mut self, place: SectionPlace) -> SectionStep
        ensures { spec.sectioned result self.new ≡ spec.go self.old place }
    {
        self.place = place;
        SectionStep::Next
    }

    fn add_name(&mut self, alloc: Global, name: &[u8]) -> Result<SectionStep, NoMemory>
        ensures { IfOk result (λ s. spec.sectioned s self.new ≡ spec.add_name self.old name.now) }
    {
        let name = Name::from_bytes(alloc, name)?;
        let inverse = false;
        push(alloc, &mut self.word, SecName { name, inverse })?;
        Ok(self.go(SectionPlace::AfterName))
    }

    fn close(&mut self, alloc: Global) -> Result<(), NoMemory>
        ensures { OnOk result (self.new ≡ spec.with_section self.old) }
    {
        let word = replace(&mut self.word, Items::new(alloc));
        self.done.push(SecWord::of_names(exact(alloc, word)?))?;
        Ok(())
    }

    fn section_step(&mut self, alloc: Global, token: Token<'_>) -> Result<SectionStep, NoMemory>
        ensures { IfOk result (λ s. spec.sectioned s self.new ≡ spec.section_step self.old (seen token.entry)) }
    {
        match token {
            Token::Name(name) => self.add_name(alloc, name),
            Token::Number(digits) => {
                if is_one_text(digits) {
                    Ok(self.go(SectionPlace::AfterOne))
                } else {
                    Ok(SectionStep::Stuck)
                }
            }
            _ => Ok(SectionStep::Stuck),
        }
    }

    fn end_section(&mut self, alloc: Global, token: Token<'_>) -> Result<SectionStep, NoMemory>
        ensures { IfOk result (λ s. spec.sectioned s self.new ≡ spec.end_section self.old (seen token.entry)) }
    {
        match token {
            Token::Mark(Mark::Comma) => {
                self.close(alloc)?;
                Ok(self.go(SectionPlace::Section))
            }
            Token::Mark(Mark::Greater) => {
                self.close(alloc)?;
                Ok(SectionStep::Ends)
            }
            _ => Ok(SectionStep::Stuck),
        }
    }

    fn after_word(&mut self, alloc: Global, token: Token<'_>) -> Result<SectionStep, NoMemory>
        ensures { IfOk result (λ s. spec.sectioned s self.new ≡ spec.after_word self.old (seen token.entry)) }
    {
        match token {
            Token::Mark(Mark::Star) => Ok(self.go(SectionPlace::NextName)),
            _ => self.end_section(alloc, token),
        }
    }

    fn after_name(&mut self, alloc: Global, token: Token<'_>) -> Result<SectionStep, NoMemory>
        ensures { IfOk result (λ s. spec.sectioned s self.new ≡ spec.after_name self.old (seen token.entry)) }
    {
        match token {
            Token::Mark(Mark::Caret) => Ok(self.go(SectionPlace::Minus)),
            _ => self.after_word(alloc, token),
        }
    }

    fn minus_step(&mut self, token: Token<'_>) -> SectionStep
        ensures { spec.sectioned result self.new ≡ spec.minus_step self.old (seen token.entry) }
    {
        match token {
            Token::Mark(Mark::Minus) => self.go(SectionPlace::InverseOne),
            _ => SectionStep::Stuck,
        }
    }

    fn inverse_step(&mut self, token: Token<'_>) -> Result<SectionStep, NoMemory>
        ensures { IfOk result (λ s. spec.sectioned s self.new ≡ spec.inverse_step self.old (seen token.entry)) }
    {
        match token {
            Token::Number(digits) => {
                if is_one_text(digits) {
                    invert_last(&mut self.word)?;
                    Ok(self.go(SectionPlace::AfterInverse))
                } else {
                    Ok(SectionStep::Stuck)
                }
            }
            _ => Ok(SectionStep::Stuck),
        }
    }

    fn next_name_step(&mut self, alloc: Global, token: Token<'_>) -> Result<SectionStep, NoMemory>
        ensures { IfOk result (λ s. spec.sectioned s self.new ≡ spec.next_name_step self.old (seen token.entry)) }
    {
        match token {
            Token::Name(name) => self.add_name(alloc, name),
            _ => Ok(SectionStep::Stuck),
        }
    }
}
