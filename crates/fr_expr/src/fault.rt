//! Why an evaluation ends without a value.

use fr_alphabet::NoMemory;
use fr_minimal::MinFault;
use fr_product::ProductFault;
use fr_script::LineFault;
use fr_store::Full;
use std::alloc::{AllocError, AllocFailed};

/// Why an expression has no value.
#[derive(Clone, Copy, Debug, PartialEq, Eq)]
pub enum EvalFault {
    /// A step is refused, with the fault of its line.
    Refused(LineFault),
    /// The store has no room: so many rows were claimed before, and the step asked for so many more.
    Full { before: u64, asked: u64 },
    /// Memory ran out.
    NoMemory,
}

impl From<NoMemory> for EvalFault {
    ghost use Rattle.std.specs.Prelude.{◌≡◌};
    ghost use Rattle.fr_expr.specs.declared.fault.EvalFault.TheVariants as fault;

    ghost from_gives = { λ _ e. e ≡ fault.NoMemory };

    fn from(_failed: NoMemory) -> EvalFault {
        EvalFault::NoMemory
    }
}

impl<T: Drop> From<AllocFailed<T>> for EvalFault {
    ghost use Rattle.std.specs.Prelude.{◌≡◌};
    ghost use Rattle.fr_expr.specs.declared.fault.EvalFault.TheVariants as fault;

    ghost from_gives = { λ _ e. e ≡ fault.NoMemory };

    fn from(_failed: AllocFailed<T>) -> EvalFault {
        EvalFault::NoMemory
    }
}

impl From<AllocError> for EvalFault {
    ghost use Rattle.std.specs.Prelude.{◌≡◌};
    ghost use Rattle.fr_expr.specs.declared.fault.EvalFault.TheVariants as fault;

    ghost from_gives = { λ _ e. e ≡ fault.NoMemory };

    fn from(_failed: AllocError) -> EvalFault {
        EvalFault::NoMemory
    }
}

impl From<Full> for EvalFault {
    ghost use Rattle.std.specs.Prelude.{◌≡◌};
    ghost use Rattle.fr_expr.specs.declared.fault.EvalFault.TheVariants as fault;

    ghost from_gives = { λ full e. e ≡ fault.Full full.before full.asked };

    fn from(full: Full) -> EvalFault {
        EvalFault::Full {
            before: full.before,
            asked: full.asked,
        }
    }
}

impl From<ProductFault> for EvalFault {
    ghost use Rattle.std.specs.Prelude.{◌≡◌};
    ghost use Rattle.fr_expr.specs.Faults.{of_product};

    ghost from_gives = { λ fault e. e ≡ of_product fault };

    fn from(fault: ProductFault) -> EvalFault {
        match fault {
            ProductFault::PairsPassed => EvalFault::Refused(LineFault::PairsPassed),
            ProductFault::NoMemory => EvalFault::NoMemory,
        }
    }
}

impl From<MinFault> for EvalFault {
    ghost use Rattle.std.specs.Prelude.{◌≡◌};
    ghost use Rattle.fr_expr.specs.Faults.{of_minimal};

    ghost from_gives = { λ fault e. e ≡ of_minimal fault };

    fn from(fault: MinFault) -> EvalFault {
        match fault {
            MinFault::StatesPassed => EvalFault::Refused(LineFault::StatesPassed),
            MinFault::NoMemory => EvalFault::NoMemory,
        }
    }
}
