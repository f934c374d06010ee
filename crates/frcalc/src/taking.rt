//! The script that a run evaluates.

ghost use Rattle.std.specs.Prelude.{IfOk, IfErr};
ghost use Rattle.fr_script.specs.Fits.{FitsScript};
ghost use Rattle.frcalc.specs.Taking.{IsTaken, IsNotTaken};

use fr_alphabet::NoMemory;
use fr_demo::demo_script;
use fr_io::{ReadStop, Source, get_all};
use fr_script::{Script, ScriptFault, read_script};
use std::alloc::Global;

/// The most bytes of a script.
pub const SCRIPT_LIMIT: u32 = 1_048_576;

/// Why there is no script.
#[derive(Clone, Copy, Debug, PartialEq, Eq)]
pub enum TakeFault {
    /// A read failed.
    ReadFailed,
    /// The source told too many bytes or lines.
    TooLong,
    /// Memory ran out.
    NoMemory,
}

impl From<NoMemory> for TakeFault {
    ghost use Rattle.std.specs.Prelude.{◌≡◌};
    ghost use Rattle.frcalc.specs.declared.taking.TakeFault.TheVariants as fault;

    ghost from_gives = { λ _ e. e ≡ fault.NoMemory };

    fn from(_failed: NoMemory) -> TakeFault {
        TakeFault::NoMemory
    }
}

impl From<ReadStop> for TakeFault {
    ghost use Rattle.std.specs.Prelude.{◌≡◌};
    ghost use Rattle.frcalc.specs.Taking.{of_stop};

    ghost from_gives = { λ stop e. e ≡ of_stop stop };

    fn from(stop: ReadStop) -> TakeFault {
        match stop {
            ReadStop::Failed => TakeFault::ReadFailed,
            ReadStop::TooLong => TakeFault::TooLong,
            ReadStop::NoMemory => TakeFault::NoMemory,
        }
    }
}

impl From<ScriptFault> for TakeFault {
    ghost use Rattle.std.specs.Prelude.{◌≡◌};
    ghost use Rattle.frcalc.specs.Taking.{of_script};

    ghost from_gives = { λ fault e. e ≡ of_script fault };

    fn from(fault: ScriptFault) -> TakeFault {
        match fault {
            ScriptFault::LinesPassed => TakeFault::TooLong,
            ScriptFault::NoMemory => TakeFault::NoMemory,
        }
    }
}

/// Takes the script that is to be evaluated: with a seed its demonstration, and then the source is not touched; else all
/// that the source tells.
///
/// Errors: those of the source, and `TooLong` where it told more than 1,048,576 bytes or 4,096 lines; `NoMemory`.
pub fn take_script<S: Source>(
    alloc: Global,
    demo: Option<u32>,
    input: &mut S,
) -> Result<Script, TakeFault>
    ensures taken { IfOk result (IsTaken demo (S.left input.old) (S.left input.new) (S.faults input.old) (S.faults input.new)) }
    ensures fits { IfOk result FitsScript }
    ensures not_taken { IfErr result (IsNotTaken demo (S.left input.old) (S.left input.new) (S.faults input.old) (S.faults input.new)) }
{
    match demo {
        Some(seed) => Ok(read_script(alloc, &demo_script(alloc, seed)?)?),
        None => Ok(read_script(alloc, &get_all(alloc, input, SCRIPT_LIMIT)?)?),
    }
}
