//! Why a text is no ray, and why a ray has no image that is one.

use fr_alphabet::NoMemory;
use std::alloc::{AllocError, AllocFailed};
use thiserror::Error;

/// Why a text is no ray. Places are counted from 1, in bytes.
#[derive(Clone, Copy, Debug, PartialEq, Eq, Error)]
pub enum RayText {
    /// It has more than 4,098 bytes.
    #[error("word too long")]
    WordTooLong,
    /// It is digits followed by `()`.
    #[error("empty period")]
    EmptyPeriod,
    /// This place is the first where it cannot go on as a ray.
    #[error("syntax at {0}")]
    Syntax(u32),
    /// The digit at this place is no letter.
    #[error("no letter at {0}")]
    NotALetter(u32),
    /// Memory ran out.
    #[error("out of memory")]
    NoMemory,
}

impl From<NoMemory> for RayText {
    ghost use Rattle.std.specs.Prelude.{◌≡◌};
    ghost use Rattle.fr_ray.specs.declared.fault.RayText.TheVariants.{NoMemory};

    ghost from_gives = { λ _ e. e ≡ NoMemory };

    fn from(_failed: NoMemory) -> RayText {
        RayText::NoMemory
    }
}

impl<T: Drop> From<AllocFailed<T>> for RayText {
    ghost use Rattle.std.specs.Prelude.{◌≡◌};
    ghost use Rattle.fr_ray.specs.declared.fault.RayText.TheVariants.{NoMemory};

    ghost from_gives = { λ _ e. e ≡ NoMemory };

    fn from(_failed: AllocFailed<T>) -> RayText {
        RayText::NoMemory
    }
}

impl From<AllocError> for RayText {
    ghost use Rattle.std.specs.Prelude.{◌≡◌};
    ghost use Rattle.fr_ray.specs.declared.fault.RayText.TheVariants.{NoMemory};

    ghost from_gives = { λ _ e. e ≡ NoMemory };

    fn from(_failed: AllocError) -> RayText {
        RayText::NoMemory
    }
}

/// Why a ray is not made.
#[derive(Clone, Copy, Debug, PartialEq, Eq, Error)]
pub enum RayFault {
    /// Its canonical form has more than 4,096 letters.
    #[error("ray passes 4096")]
    RayPassed,
    /// Memory ran out.
    #[error("out of memory")]
    NoMemory,
}

impl From<NoMemory> for RayFault {
    ghost use Rattle.std.specs.Prelude.{◌≡◌};
    ghost use Rattle.fr_ray.specs.declared.fault.RayFault.TheVariants.{NoMemory};

    ghost from_gives = { λ _ e. e ≡ NoMemory };

    fn from(_failed: NoMemory) -> RayFault {
        RayFault::NoMemory
    }
}

impl From<AllocError> for RayFault {
    ghost use Rattle.std.specs.Prelude.{◌≡◌};
    ghost use Rattle.fr_ray.specs.declared.fault.RayFault.TheVariants.{NoMemory};

    ghost from_gives = { λ _ e. e ≡ NoMemory };

    fn from(_failed: AllocError) -> RayFault {
        RayFault::NoMemory
    }
}
