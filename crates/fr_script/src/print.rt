//! The texts of faults.

ghost use Rattle.std.specs.Prelude.{◌≡◌, ◌++◌, OnOk, OnErr};
ghost use Rattle.fr_script.specs.FaultTexts.{fault_text};

use crate::fault::{Fault, LineFault};
use fr_alphabet::NoMemory;
use std::fmt;

impl fmt::Display for LineFault {
    ghost use Rattle.std.specs.Prelude.{Some};
    ghost use Rattle.fr_script.specs.FaultTexts.{kind_text};

    ghost output = { λ kind. Some (kind_text kind) };

    fn fmt<W: fmt::Write>(&self, f: &mut fmt::Formatter<W>) -> fmt::Result {
        match self {
            LineFault::BadByte(place) => write!(f, "bad byte at {place}"),
            LineFault::LineTooLong => write!(f, "line too long"),
            LineFault::UnknownStatement => write!(f, "unknown statement"),
            LineFault::Syntax(place) => write!(f, "syntax at {place}"),
            LineFault::NotALetter => write!(f, "letter out of range"),
            LineFault::WrongArity => write!(f, "wrong number of sections"),
            LineFault::NotPermutation => write!(f, "not a permutation"),
            LineFault::NestingPassed => write!(f, "nesting passes 64"),
            LineFault::PowerPassed => write!(f, "number passes 1000000"),
            LineFault::NoEnd => write!(f, "no end"),
            LineFault::NameTaken => write!(f, "name taken"),
            LineFault::UnknownName => write!(f, "unknown name"),
            LineFault::PairsPassed => write!(f, "pairs pass 65536"),
            LineFault::StatesPassed => write!(f, "states pass 1024"),
            LineFault::NucleusPassed => write!(f, "nucleus passes 256"),
            LineFault::TooManySections => write!(f, "sections pass 64"),
            LineFault::AlphabetRange => write!(f, "alphabet out of range"),
            LineFault::AlphabetPlace => write!(f, "alphabet must be first"),
            LineFault::RayPassed => write!(f, "ray passes 4096"),
            LineFault::ClosurePassed => write!(f, "section words pass limit"),
        }
    }
}

impl fmt::Display for Fault {
    ghost use Rattle.std.specs.Prelude.{Some};
    ghost use Rattle.fr_script.specs.FaultTexts.{located_text};

    ghost output = { λ fault. Some (located_text fault) };

    fn fmt<W: fmt::Write>(&self, f: &mut fmt::Formatter<W>) -> fmt::Result {
        let line = self.line;
        let kind = self.kind;
        write!(f, "line {line}: {kind}")
    }
}

/// Appends the line of the fault, its text and a newline.
///
/// The only error is want of memory; `out` is then as before.
pub fn print_fault(f: &Fault, out: &mut Vec<u8>) -> Result<(), NoMemory>
    ensures ok { OnOk result (out.new.items ≡ out.old.items ++ fault_text f.now) }
    ensures err { OnErr result (out.new.items ≡ out.old.items) }
{
    let alloc = *out.allocator();
    let text = format!(in alloc; "{f}\n")?;
    out.extend_from_slice(text.as_bytes())?;
    Ok(())
}
