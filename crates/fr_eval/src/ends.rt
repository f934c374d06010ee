//! How the evaluation of a line ends.

use fr_alphabet::NoMemory;
use fr_script::LineFault;

/// How a line ends that is evaluated.
#[derive(Clone, Copy, Debug, PartialEq, Eq)]
pub enum LineEnd {
    /// It has no fault.
    Fine,
    /// It has this fault, and its text says so.
    Refused(LineFault),
}

impl LineEnd {
    ghost use Rattle.std.specs.Prelude.{◌≡◌};
    ghost use Rattle.fr_eval.specs.LineEnds as spec;

    /// Whether the line has a fault.
    pub fn is_refused(self) -> bool
        ensures { result ≡ spec.is_refused self }
    {
        match self {
            LineEnd::Fine => false,
            LineEnd::Refused(_) => true,
        }
    }
}

/// Why the evaluation of a line stops.
#[derive(Clone, Copy, Debug, PartialEq, Eq)]
pub enum Stop {
    /// The store has no room: so many rows were claimed before, and a step asked for so many more.
    Full { before: u64, asked: u64 },
    /// Memory ran out.
    NoMemory,
}

impl From<NoMemory> for Stop {
    ghost use Rattle.std.specs.Prelude.{◌≡◌};
    ghost use Rattle.fr_eval.specs.declared.ends.Stop.TheVariants as stop;

    ghost from_gives = { λ _ e. e ≡ stop.NoMemory };

    fn from(_failed: NoMemory) -> Stop {
        Stop::NoMemory
    }
}
