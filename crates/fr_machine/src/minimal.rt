//! Machines that are as small as they can be.

ghost use Rattle.std.specs.Prelude.{◌≡◌, IfOk, length};
ghost use Rattle.fr_model.specs.Terms.{One, IsAlike};
ghost use Rattle.fr_machine.specs.Rows.{row_term};
ghost use Rattle.fr_machine.specs.Minimal.{IsMinimal};
ghost use Rattle.fr_machine.specs.Inverses.{AreInverses};

use crate::machine::Machine;
use fr_alphabet::{Alphabet, NoMemory};
use std::alloc::Global;
use std::marker::Model;

/// The most rows of a minimal machine.
pub const STATE_LIMIT: usize = 1024;

/// A machine of 1 to 1,024 rows, which are all reached from row 0 and pairwise unlike. It stands for the element of its
/// row 0, whose sections are its rows. Minimal machines are those of automata theory; the limit is this project's own.
#[derive(Debug, Drop)]
pub struct Minimal {
    machine: Machine,
}

// Clauses see the machine.
impl Model for Minimal {
    ghost use Rattle.fr_machine.specs.Minimal.{IsMinimal};
    ghost use Rattle.fr_machine.specs.Machine.{MachineView};

    ghost Value = { MachineView };

    ghost view = { λ m. m.machine };

    ghost invariant = { λ m. IsMinimal m.machine.alphabet m.machine.rows };
}

impl Minimal {
    /// A machine that is known to be minimal.
    pub fn of(m: Machine) -> Minimal
        requires { IsMinimal m.alphabet m.rows }
        ensures { result ≡ m }
    {
        Minimal { machine: m }
    }

    /// The machine of the identity, which has one row. The only error is want of memory.
    pub fn identity(alloc: Global, a: Alphabet) -> Result<Minimal, NoMemory>
        ensures alphabet { IfOk result (λ m. m.alphabet ≡ a) }
        ensures size { IfOk result (λ m. length m.rows ≡ 1) }
        ensures alike { IfOk result (λ m. IsAlike (row_term m.rows 0) One) }
    {
        let machine = Machine::identity(alloc, a)?;
        let _rows = machine.rows();
        Ok(Minimal { machine })
    }

    /// The machine of the inverse of the element of this one, row by row. The only error is want of memory.
    pub fn inverse(&self, alloc: Global) -> Result<Minimal, NoMemory>
        ensures alphabet { IfOk result (λ m. m.alphabet ≡ self.now.alphabet) }
        ensures size { IfOk result (λ m. length m.rows ≡ length self.now.rows) }
        ensures rows { IfOk result (λ m. AreInverses self.now.rows m.rows) }
    {
        let machine = self.machine.inverse(alloc)?;
        let _rows = machine.rows();
        Ok(Minimal { machine })
    }

    /// The same machine once more. The only error is want of memory.
    pub fn copy(&self, alloc: Global) -> Result<Minimal, NoMemory>
        ensures { IfOk result (λ m. m ≡ self.now) }
    {
        Ok(Minimal {
            machine: self.machine.copy(alloc)?,
        })
    }

    /// The machine.
    pub fn machine(&self) -> &Machine
        ensures value { result.now ≡ self.now }
        ensures valid { IsMinimal self.now.alphabet self.now.rows }
    {
        &self.machine
    }

    /// How many rows it has: 1 to 1,024. So many pairwise unlike sections has its element.
    pub fn size(&self) -> u16
        ensures { result ≡ length self.now.rows }
    {
        self.machine.rows().len() as u16
    }
}
