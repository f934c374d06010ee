//! What is known of the products so far.

ghost use Rattle.std.specs.Prelude.{ℕ, ◌≡◌, List, [], IfOk, OnOk};
ghost use Rattle.fr_machine.specs.declared.row.Row.{Row};
ghost use Rattle.fr_classes.specs.Classes.{AreClasses};
ghost use Rattle.fr_machine.specs.Rows.{IsLonger};
ghost use Rattle.fr_nucleus.specs.Surveys.{IsSurvey, classes_of};

use fr_alphabet::NoMemory;
use fr_classes::GrowingClasses;
use fr_machine::Machine;
use fr_product::GrowingLimits;
use std::alloc::Global;

/// The classes of the products so far, and which of them are reached from cycles. Each round adds its new products alone.
#[derive(Drop)]
pub struct Survey {
    /// The classes, or a guess of them.
    pub classes: GrowingClasses,
    /// The products that are reached from cycles.
    pub limits: GrowingLimits,
    // The classes, where the guess is not stable.
    refined: Vec<u16>,
}

impl Survey {
    /// That of no products. The only error is want of memory.
    pub fn new(alloc: Global) -> Result<Survey, NoMemory>
        ensures { IfOk result (λ s. (d : ℕ) → IsSurvey d [] s) }
    {
        Ok(Survey {
            classes: GrowingClasses::new(alloc)?,
            limits: GrowingLimits::new(alloc),
            refined: Vec::new(alloc),
        })
    }

    /// Takes the rows of a machine whose first rows are those so far. The only error is want of memory, after which the
    /// survey is of no further use.
    pub fn extend(&mut self, alloc: Global, m: &Machine) -> Result<(), NoMemory>
        requires { (old : List Row) × IsSurvey m.now.alphabet old self.old × IsLonger old m.now.rows }
        ensures { OnOk result (IsSurvey m.now.alphabet m.now.rows self.new) }
    {
        self.classes.extend(alloc, m)?;
        self.limits.extend(alloc, m)?;
        Ok(())
    }

    /// Finds the classes of the rows of the machine that was taken last, where the guess is not stable. The only error is want
    /// of memory.
    pub fn refine(&mut self, alloc: Global, m: &Machine) -> Result<(), NoMemory>
        requires { IsSurvey m.now.alphabet m.now.rows self.old }
        ensures survey { OnOk result (IsSurvey m.now.alphabet m.now.rows self.new) }
        ensures classes { OnOk result (AreClasses m.now.rows (classes_of self.new)) }
    {
        if let Some(_) = self.classes.stable_classes(m) {
            return Ok(());
        }
        self.refined = self.classes.classes(alloc, m)?;
        Ok(())
    }

    /// The class of each row of the machine that was taken last, once they are refined.
    pub fn of(&self, m: &Machine) -> &[u16]
        requires { IsSurvey m.now.alphabet m.now.rows self.now }
        ensures { result.now ≡ classes_of self.now }
    {
        match self.classes.stable_classes(m) {
            Some(of) => of,
            None => &self.refined,
        }
    }
}
