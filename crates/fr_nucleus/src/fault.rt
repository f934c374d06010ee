//! Why there is no nucleus.

use fr_alphabet::NoMemory;
use std::alloc::{AllocError, AllocFailed};
use thiserror::Error;

/// Why there is no nucleus.
#[derive(Clone, Copy, Debug, PartialEq, Eq, Error)]
pub enum NucleusFault {
    /// The identity and the sections of the generators and of their inverses are more than 64 elements.
    #[error("more than 64 sections")]
    TooManySections,
    /// The self-similar group of the generators has no nucleus of at most so many elements.
    #[error("no nucleus of at most {0} elements")]
    Passes(u16),
    /// Memory ran out.
    #[error("out of memory")]
    NoMemory,
}

impl<T: Drop> From<AllocFailed<T>> for NucleusFault {
    ghost use Rattle.std.specs.Prelude.{◌≡◌};
    ghost use Rattle.fr_nucleus.specs.declared.fault.NucleusFault.TheVariants.{NoMemory};

    ghost from_gives = { λ _ e. e ≡ NoMemory };

    fn from(_failed: AllocFailed<T>) -> NucleusFault {
        NucleusFault::NoMemory
    }
}

impl From<AllocError> for NucleusFault {
    ghost use Rattle.std.specs.Prelude.{◌≡◌};
    ghost use Rattle.fr_nucleus.specs.declared.fault.NucleusFault.TheVariants.{NoMemory};

    ghost from_gives = { λ _ e. e ≡ NoMemory };

    fn from(_failed: AllocError) -> NucleusFault {
        NucleusFault::NoMemory
    }
}

impl From<NoMemory> for NucleusFault {
    ghost use Rattle.std.specs.Prelude.{◌≡◌};
    ghost use Rattle.fr_nucleus.specs.declared.fault.NucleusFault.TheVariants.{NoMemory};

    ghost from_gives = { λ _ e. e ≡ NoMemory };

    fn from(_failed: NoMemory) -> NucleusFault {
        NucleusFault::NoMemory
    }
}
