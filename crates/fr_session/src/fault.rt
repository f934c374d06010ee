//! Why an item gives no reply.

use fr_alphabet::NoMemory;
use fr_eval::Stop;

/// Why an item gives no reply.
#[derive(Clone, Copy, Debug, PartialEq, Eq)]
pub enum SessionFault {
    /// The store has no room: so many rows were claimed before, and a step asked for so many more.
    Full { before: u64, asked: u64 },
    /// Memory ran out.
    NoMemory,
}

impl From<NoMemory> for SessionFault {
    ghost use Rattle.std.specs.Prelude.{◌≡◌};
    ghost use Rattle.fr_session.specs.declared.fault.SessionFault.TheVariants as fault;

    ghost from_gives = { λ _ e. e ≡ fault.NoMemory };

    fn from(_failed: NoMemory) -> SessionFault {
        SessionFault::NoMemory
    }
}

impl From<Stop> for SessionFault {
    ghost use Rattle.std.specs.Prelude.{◌≡◌};
    ghost use Rattle.fr_session.specs.Faults.{of_stop};

    ghost from_gives = { λ stop e. e ≡ of_stop stop };

    fn from(stop: Stop) -> SessionFault {
        match stop {
            Stop::Full { before, asked } => SessionFault::Full { before, asked },
            Stop::NoMemory => SessionFault::NoMemory,
        }
    }
}
