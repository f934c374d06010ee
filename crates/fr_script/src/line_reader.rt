//! A reader that is given a script line by line.

ghost use Rattle.std.specs.Prelude.{◌≡◌, ◌<◌, ◌↔◌, IfOk, IsErr, IsNone, IsOk, Err, Some};
ghost use Rattle.fr_script.specs.Fits.{GivesFitting};
ghost use Rattle.fr_script.specs.Pushes as spec;

use crate::fault::{Fault, LineFault};
use crate::item::{Block, Body, Inside, Item, Outside, read_inside, read_outside};
use crate::kept::Kept;
use fr_alphabet::{Alphabet, NoMemory};
use std::alloc::{AllocFailed, Global};
use std::marker::Model;

/// The most lines of a script.
pub const LINES_LIMIT: u32 = 4096;

/// What was read of a script.
#[derive(Drop)]
pub struct State {
    pub alphabet: Alphabet,
    /// How many lines were read.
    pub count: u32,
    /// Whether there was an item.
    pub begun: bool,
    /// The block that has no end yet.
    pub block: Option<Block>,
}

/// What was read with one line more, and the item that it ends.
#[derive(Drop)]
pub struct Advance {
    pub state: State,
    pub item: Option<Item>,
}

/// Why a reader gives no item, and a script is not read.
#[derive(Clone, Copy, Debug, PartialEq, Eq)]
pub enum ScriptFault {
    /// There are more than 4,096 lines.
    LinesPassed,
    /// There is no memory.
    NoMemory,
}

impl<T: Drop> From<AllocFailed<T>> for ScriptFault {
    ghost use Rattle.std.specs.Prelude.{◌≡◌};
    ghost use Rattle.fr_script.specs.declared.line_reader.ScriptFault.TheVariants.{NoMemory};

    ghost from_gives = { λ _ e. e ≡ NoMemory };

    fn from(_failed: AllocFailed<T>) -> ScriptFault {
        ScriptFault::NoMemory
    }
}

impl From<NoMemory> for ScriptFault {
    ghost use Rattle.std.specs.Prelude.{◌≡◌};
    ghost use Rattle.fr_script.specs.declared.line_reader.ScriptFault.TheVariants.{NoMemory};

    ghost from_gives = { λ _ e. e ≡ NoMemory };

    fn from(_failed: NoMemory) -> ScriptFault {
        ScriptFault::NoMemory
    }
}

fn after_outside(alphabet: Alphabet, begun: bool, count: u32, outside: Outside) -> Advance
    ensures { result ≡ spec.after_outside alphabet begun count outside }
{
    match outside {
        Outside::Blank => Advance {
            state: State {
                alphabet,
                count,
                begun,
                block: None,
            },
            item: None,
        },
        Outside::Begins(block) => Advance {
            state: State {
                alphabet,
                count,
                begun,
                block: Some(block),
            },
            item: None,
        },
        Outside::Is(item) => Advance {
            state: State {
                alphabet: item.body.alphabet_after(alphabet),
                count,
                begun: true,
                block: None,
            },
            item: Some(item),
        },
    }
}

fn after_inside(alphabet: Alphabet, begun: bool, count: u32, inside: Inside) -> Advance
    ensures { result ≡ spec.after_inside alphabet begun count inside }
{
    match inside {
        Inside::Goes(block) => Advance {
            state: State {
                alphabet,
                count,
                begun,
                block: Some(block),
            },
            item: None,
        },
        Inside::Ends(item) => Advance {
            state: State {
                alphabet,
                count,
                begun: true,
                block: None,
            },
            item: Some(item),
        },
    }
}

fn advance_outside(
    alloc: Global,
    alphabet: Alphabet,
    begun: bool,
    count: u32,
    line: &[u8],
) -> Result<Advance, NoMemory>
    ensures { IfOk result (λ r. spec.AdvancesOutside alphabet begun count line.now r) }
{
    let outside = read_outside(alloc, alphabet, !begun, count, line)?;
    Ok(after_outside(alphabet, begun, count, outside))
}

fn advance_inside(
    alloc: Global,
    alphabet: Alphabet,
    begun: bool,
    count: u32,
    block: Block,
    line: &[u8],
) -> Result<Advance, NoMemory>
    ensures { IfOk result (λ r. spec.AdvancesInside alphabet begun count block line.now r) }
{
    let inside = read_inside(alloc, alphabet, block, count, line)?;
    Ok(after_inside(alphabet, begun, count, inside))
}

fn advanced(alloc: Global, state: State, line: &[u8]) -> Result<Advance, NoMemory>
    requires { state.count < 4096 }
    ensures { IfOk result (λ r. spec.Advances state line.now r) }
{
    let State {
        alphabet,
        count,
        begun,
        block,
    } = state;
    match block {
        Some(block) => advance_inside(alloc, alphabet, begun, count + 1, block, line),
        None => advance_outside(alloc, alphabet, begun, count + 1, line),
    }
}

/// A reader that is given the lines of a script one after the other, and gives its items.
#[derive(Drop)]
pub struct LineReader {
    alloc: Global,
    // None after there was no memory.
    state: Option<State>,
}

// Clauses see what was read, and None after there was no memory.
impl Model for LineReader {
    ghost use Rattle.std.specs.Prelude.{Option};
    ghost use Rattle.fr_script.specs.declared.line_reader.State.{State};
    ghost use Rattle.fr_script.specs.Fits.{FitsState};

    ghost Value = { Option State };

    ghost view = { λ r. r.state };

    ghost invariant = { λ r. FitsState r.state };
}

fn two_letters() -> Alphabet
    ensures { result ≡ 2 }
{
    match Alphabet::new(2) {
        Some(alphabet) => alphabet,
        None => unreachable!(),
    }
}

impl LineReader {
    /// A reader before the first line. It takes no memory.
    pub fn new(alloc: Global) -> Result<LineReader, NoMemory>
        ensures succeeds { IsOk result }
        ensures begun { IfOk result (λ reader. reader ≡ Some spec.begun) }
    {
        Ok(LineReader {
            alloc,
            state: Some(State {
                alphabet: two_letters(),
                count: 0,
                begun: false,
                block: None,
            }),
        })
    }

    /// The alphabet of the lines so far: two letters, or those of an accepted `alphabet` line.
    /// After want of memory it is not known, and two letters are told.
    pub fn alphabet(&self) -> Alphabet
        ensures { result ≡ spec.told_alphabet self.now }
    {
        match &self.state {
            Some(state) => state.alphabet,
            None => two_letters(),
        }
    }

    /// Takes the next line, without its byte 10, and gives the item that it ends: none for a blank
    /// line, for one that begins a block, and inside a block that it does not end.
    ///
    /// The error `LinesPassed` comes exactly where 4,096 lines were taken before, and changes
    /// nothing. After `NoMemory` each later call answers `NoMemory`.
    pub fn push(&mut self, line: &[u8]) -> Result<Option<Item>, ScriptFault>
        ensures ok { IfOk result (λ item. spec.Pushes self.old line.now item self.new) }
        ensures fits { IfOk result (λ item. GivesFitting self.new item) }
        ensures passed { (result ≡ Err ScriptFault.LinesPassed) ↔ spec.IsFull self.old }
        ensures kept { result ≡ Err ScriptFault.LinesPassed → self.new ≡ self.old }
        ensures memory { result ≡ Err ScriptFault.NoMemory → IsNone self.new }
        ensures broken { IsNone self.old → result ≡ Err ScriptFault.NoMemory }
    {
        let Some(state) = self.state.take() else {
            return Err(ScriptFault::NoMemory);
        };
        if state.count >= LINES_LIMIT {
            self.state = Some(state);
            return Err(ScriptFault::LinesPassed);
        }
        let Advance { state, item } = advanced(self.alloc, state, line)?;
        self.state = Some(state);
        Ok(item)
    }

    /// The item of a block without end, exactly where one is begun.
    ///
    /// The error comes exactly where a call before answered `NoMemory`.
    pub fn finish(self) -> Result<Option<Item>, NoMemory>
        ensures item { IfOk result (λ item. item ≡ spec.last_item self) }
        ensures fits { IfOk result (λ item. GivesFitting self item) }
        ensures memory { IsErr result ↔ IsNone self }
    {
        match self.state {
            Some(state) => Ok(end_of(state.block)),
            None => Err(NoMemory),
        }
    }
}

fn end_of(block: Option<Block>) -> Option<Item>
    ensures { result ≡ spec.end_of block }
{
    let line = block?.line;
    let fault = Fault {
        line,
        kind: LineFault::NoEnd,
    };
    Some(Item {
        line,
        body: Kept::whole(Body::Faulty(fault)),
    })
}
