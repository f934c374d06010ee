//! How a line is finished: its text is appended whole, or not at all.

ghost use Rattle.std.specs.Prelude.{◌≡◌, ◌++◌, OnOk, OnErr, IfOk, IfErr};
ghost use Rattle.fr_script.specs.FaultTexts.{fault_text};
ghost use Rattle.fr_eval.specs.Entering.{EndsWith};
ghost use Rattle.fr_eval.specs.declared.ends.LineEnd.TheVariants as end;
ghost use Rattle.fr_eval.specs.declared.ends.Stop.TheVariants as stop;

use crate::ends::{LineEnd, Stop};
use fr_alphabet::NoMemory;
use fr_expr::EvalFault;
use fr_script::{Fault, print_fault};

/// Appends a text that was made apart. The only error is want of memory; then `out` is as before.
pub fn append(text: Vec<u8>, out: &mut Vec<u8>) -> Result<(), NoMemory>
    ensures appended { OnOk result (out.new.items ≡ out.old.items ++ text.items) }
    ensures kept { OnErr result (out.new.items ≡ out.old.items) }
{
    if out.is_empty() {
        // Nothing stands before it, so no byte is copied.
        *out = text;
    } else {
        out.extend_from_slice(&text)?;
    }
    Ok(())
}

/// Ends a line with a fault of its evaluation, which stands at a line: the fault of a step is appended.
pub fn end_with(line: u32, fault: EvalFault, out: &mut Vec<u8>) -> Result<LineEnd, Stop>
    ensures { EndsWith line fault out.old.items out.new.items result }
{
    match fault {
        EvalFault::Refused(kind) => refuse(Fault { line, kind }, out),
        EvalFault::Full { before, asked } => Err(Stop::Full { before, asked }),
        EvalFault::NoMemory => Err(Stop::NoMemory),
    }
}

/// Appends a fault, which ends its line. The only error is want of memory; then nothing is appended.
pub fn refuse(fault: Fault, out: &mut Vec<u8>) -> Result<LineEnd, Stop>
    ensures text { OnOk result (out.new.items ≡ out.old.items ++ fault_text fault) }
    ensures kept { OnErr result (out.new.items ≡ out.old.items) }
    ensures ends { IfOk result (λ e. e ≡ end.Refused fault.kind) }
    ensures stops { IfErr result (λ s. s ≡ stop.NoMemory) }
{
    print_fault(&fault, out)?;
    Ok(LineEnd::Refused(fault.kind))
}
