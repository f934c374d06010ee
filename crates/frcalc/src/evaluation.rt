//! The evaluation of whole scripts over one store: a session is fed the definitions, and then the questions are answered.

ghost use Rattle.std.specs.Prelude.{◌≡◌, ◌≤◌, IfOk, IsErrOf};
ghost use Rattle.fr_script.specs.Fits.{FitsScript};
ghost use Rattle.frcalc.specs.Evaluations.{IsEvaluation, IsDearer};

use crate::answering::answer_all;
use crate::feeding::feed_all;
use fr_alphabet::NoMemory;
use fr_eval::Stop;
use fr_script::Script;
use fr_session::{Session, SessionFault};
use fr_store::VecStore;
use std::alloc::{AllocFailed, Global};

/// What a script gives.
#[derive(Debug, Drop)]
pub struct Evaluation {
    /// The texts of its items, in order of lines.
    pub text: Vec<u8>,
    /// Whether a line has a fault.
    pub refused: bool,
    /// What is charged for them together.
    pub charge: u64,
    /// How many classes the sections of all evaluated elements fall into, up to acting alike.
    pub census: u64,
}

/// Why a script gives nothing.
#[derive(Clone, Copy, Debug, PartialEq, Eq)]
pub enum EvaluationFault {
    /// Its charge is more than the limit.
    StatesPassed,
    /// Memory ran out.
    NoMemory,
}

impl From<NoMemory> for EvaluationFault {
    ghost use Rattle.std.specs.Prelude.{◌≡◌};
    ghost use Rattle.frcalc.specs.declared.evaluation.EvaluationFault.TheVariants as fault;

    ghost from_gives = { λ _ e. e ≡ fault.NoMemory };

    fn from(_failed: NoMemory) -> EvaluationFault {
        EvaluationFault::NoMemory
    }
}

impl<T: Drop> From<AllocFailed<T>> for EvaluationFault {
    ghost use Rattle.std.specs.Prelude.{◌≡◌};
    ghost use Rattle.frcalc.specs.declared.evaluation.EvaluationFault.TheVariants as fault;

    ghost from_gives = { λ _ e. e ≡ fault.NoMemory };

    fn from(_failed: AllocFailed<T>) -> EvaluationFault {
        EvaluationFault::NoMemory
    }
}

impl From<SessionFault> for EvaluationFault {
    ghost use Rattle.std.specs.Prelude.{◌≡◌};
    ghost use Rattle.frcalc.specs.Faults.{of_session};

    ghost from_gives = { λ fault e. e ≡ of_session fault };

    fn from(fault: SessionFault) -> EvaluationFault {
        match fault {
            SessionFault::Full { .. } => EvaluationFault::StatesPassed,
            SessionFault::NoMemory => EvaluationFault::NoMemory,
        }
    }
}

impl From<Stop> for EvaluationFault {
    ghost use Rattle.std.specs.Prelude.{◌≡◌};
    ghost use Rattle.frcalc.specs.Faults.{of_stop};

    ghost from_gives = { λ stop e. e ≡ of_stop stop };

    fn from(stop: Stop) -> EvaluationFault {
        match stop {
            Stop::Full { .. } => EvaluationFault::StatesPassed,
            Stop::NoMemory => EvaluationFault::NoMemory,
        }
    }
}

/// Evaluates the items of a script over a store of as many rows as the limit of its charge says, which is from 1 to
/// 1,048,576: first the definitions, then the questions. The texts stand in order of lines.
///
/// Errors: `StatesPassed` exactly where the charge is more than the limit; `NoMemory`.
pub fn evaluate(alloc: Global, script: &Script, limit: u32) -> Result<Evaluation, EvaluationFault>
    requires fits { FitsScript script.now }
    requires least { 1 ≤ limit }
    requires most { limit ≤ 1048576 }
    ensures ok { IfOk result (IsEvaluation script.now limit) }
    ensures passed { IsErrOf result EvaluationFault.StatesPassed → IsDearer script.now limit }
{
    let store = VecStore::new(alloc, script.alphabet, limit)?;
    let mut session = Session::new(alloc, store)?;
    let fed = feed_all(alloc, &mut session, script, limit)?;
    let (mut store, env) = session.into_parts();
    answer_all(alloc, &mut store, &env, script, &fed, limit)
}
