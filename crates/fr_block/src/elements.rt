//! The elements of the names of a block.

ghost use Rattle.std.specs.Prelude.{◌≡◌, ◌<◌, ◌≤◌, ◌↔◌, IfOk, IfSome, IsErrOf, OnOk, length};
ghost use Rattle.fr_model.specs.Terms.{Name};
ghost use Rattle.fr_model.specs.Classes.{HasMoreStates};
ghost use Rattle.fr_model.specs.FreeWords.{IsClosurePassed};
ghost use Rattle.fr_block.specs.Elements.{IsSmallest, IsCommon};

use crate::block::Block;
use crate::closure::closure;
use fr_alphabet::NoMemory;
use fr_classes::classes;
use fr_machine::{Machine, Minimal};
use fr_minimal::{MinFault, minimize, minimize_with};
use std::alloc::Global;
use std::marker::Model;
use thiserror::Error;

/// Why a name has no element.
#[derive(Clone, Copy, Debug, PartialEq, Eq, Error)]
pub enum NameFault {
    /// The name has more than 8,192 section words, or one of more than 4,096 members.
    #[error("section words pass limit")]
    ClosurePassed,
    /// There are more than 1,024 sections no two of which act alike.
    #[error("more than 1024 states")]
    StatesPassed,
    /// Memory ran out.
    #[error("out of memory")]
    NoMemory,
}

impl From<NoMemory> for NameFault {
    ghost use Rattle.std.specs.Prelude.{◌≡◌};
    ghost use Rattle.fr_block.specs.declared.elements.NameFault.TheVariants.{NoMemory};

    ghost from_gives = { λ _ e. e ≡ NoMemory };

    fn from(_failed: NoMemory) -> NameFault {
        NameFault::NoMemory
    }
}

impl From<MinFault> for NameFault {
    ghost use Rattle.std.specs.Prelude.{◌≡◌};
    ghost use Rattle.fr_block.specs.Elements.{name_fault_of};

    ghost from_gives = { λ fault e. e ≡ name_fault_of fault };

    fn from(fault: MinFault) -> NameFault {
        match fault {
            MinFault::StatesPassed => NameFault::StatesPassed,
            MinFault::NoMemory => NameFault::NoMemory,
        }
    }
}

// The machine of all names of a block, and the classes of its rows.
#[derive(Debug, Drop)]
struct Common {
    machine: Machine,
    classes: Vec<u16>,
}

/// A block from which the elements of its names are taken. Where the section words of all names together keep within the
/// limits, they are found once, with which of them act alike.
#[derive(Debug, Drop)]
pub struct Elements {
    block: Block,
    common: Option<Common>,
}

// Clauses see the block.
impl Model for Elements {
    ghost use Rattle.std.specs.Prelude.{IfSome};
    ghost use Rattle.fr_block.specs.Blocks.{BlockView};
    ghost use Rattle.fr_block.specs.Elements.{IsCommon};

    ghost Value = { BlockView };

    ghost view = { λ e. e.block };

    ghost invariant = { λ e. IfSome e.common (λ c. IsCommon e.block.alphabet e.block.system c.machine c.classes.items) };
}

impl Elements {
    /// Takes a block. The only error is want of memory.
    pub fn new(alloc: Global, block: Block) -> Result<Elements, NoMemory>
        ensures { IfOk result (λ e. e ≡ block) }
    {
        let common = common_of(alloc, &block)?;
        Ok(Elements { block, common })
    }

    /// The block.
    pub fn block(&self) -> &Block
        ensures { result.now ≡ self.now }
    {
        &self.block
    }

    /// The smallest machine whose row 0 acts like a name, given by its place: the machine of its section words, in the
    /// sense of the functional recursions of the GAP package FR, with one row for all rows that act alike.
    ///
    /// Errors: `ClosurePassed` exactly where the name has more than 8,192 section words or one of more than 4,096 members;
    /// else `StatesPassed` exactly where it has more than 1,024 sections, no two of which act alike; either comes where
    /// memory lasts.
    pub fn element(&self, alloc: Global, name: u16) -> Result<Minimal, NameFault>
        requires { name < length self.now.system }
        ensures alphabet { IfOk result (λ q. q.alphabet ≡ self.now.alphabet) }
        ensures ok { IfOk result (λ q. IsSmallest self.now.alphabet (Name self.now.system name) q.rows) }
        ensures closure { IsErrOf result NameFault.ClosurePassed → IsClosurePassed self.now.alphabet self.now.system name }
        ensures passed { IsErrOf result NameFault.StatesPassed → (¬ IsClosurePassed self.now.alphabet self.now.system name) × HasMoreStates self.now.alphabet (Name self.now.system name) 1024 }
        ensures within { OnOk result ((¬ IsClosurePassed self.now.alphabet self.now.system name) × (¬ HasMoreStates self.now.alphabet (Name self.now.system name) 1024)) }
    {
        if let Some(common) = &self.common {
            return Ok(minimize_with(alloc, &common.machine, &common.classes, name)?);
        }
        match closure(alloc, &self.block, name, 1)? {
            Some(machine) => Ok(minimize(alloc, &machine, 0)?),
            None => Err(NameFault::ClosurePassed),
        }
    }
}

// The machine of all names, where there is a name and they keep within the limits together.
fn common_of(alloc: Global, block: &Block) -> Result<Option<Common>, NoMemory>
    ensures { IfOk result (λ o. IfSome o (λ c. IsCommon block.now.alphabet block.now.system c.machine c.classes.items)) }
{
    if block.names() == 0 {
        return Ok(None);
    }
    match closure(alloc, block, 0, block.names())? {
        Some(machine) => {
            let classes = classes(alloc, &machine)?;
            Ok(Some(Common { machine, classes }))
        }
        None => Ok(None),
    }
}
