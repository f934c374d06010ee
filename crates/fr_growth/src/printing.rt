//! The text of a class of growth.

ghost use Rattle.std.specs.Prelude.{◌≡◌, ◌++◌, OnOk, OnErr, length, take};
ghost use Rattle.std.specs.Fmt.{decimal};
ghost use Rattle.fr_growth.specs.Texts.{degree_text, class_text};

use crate::growth_class::Class;
use fr_alphabet::{NoMemory, print_word};

/// Appends the text of a class: `finitary D` with the depth, `bounded` for degree 0, `polynomial K` with a degree of at
/// least 1, or `exponential at W by U V` with the words of the triple.
///
/// The only error is want of memory; `out` is then as before.
pub fn print_class(c: &Class, out: &mut Vec<u8>) -> Result<(), NoMemory>
    ensures ok { OnOk result (out.new.items ≡ out.old.items ++ class_text c.now) }
    ensures err { OnErr result (out.new.items ≡ out.old.items) }
{
    let before = out.len();
    let printed = push_class(c, out);
    if printed.is_err() {
        out.truncate(before);
    }
    printed
}

// Appends the text. Where memory runs out, a part of it may stand there.
fn push_class(c: &Class, out: &mut Vec<u8>) -> Result<(), NoMemory>
    ensures ok { OnOk result (out.new.items ≡ out.old.items ++ class_text c.now) }
    ensures kept { take (length out.old.items) out.new.items ≡ out.old.items }
{
    match c {
        Class::Finitary { depth } => {
            out.extend_from_slice(b"finitary ")?;
            push_decimal(*depth, out)
        }
        Class::Polynomial { degree, .. } => push_degree(*degree, out),
        Class::Exponential { at, u, v } => {
            out.extend_from_slice(b"exponential at ")?;
            print_word(at, out)?;
            out.extend_from_slice(b" by ")?;
            print_word(u, out)?;
            out.push(b' ')?;
            print_word(v, out)
        }
    }
}

// Appends the text of a degree. Where memory runs out, a part of it may stand there.
fn push_degree(degree: u16, out: &mut Vec<u8>) -> Result<(), NoMemory>
    ensures ok { OnOk result (out.new.items ≡ out.old.items ++ degree_text degree) }
    ensures kept { take (length out.old.items) out.new.items ≡ out.old.items }
{
    if degree == 0 {
        return Ok(out.extend_from_slice(b"bounded")?);
    }
    out.extend_from_slice(b"polynomial ")?;
    push_decimal(degree, out)
}

// Appends a number in decimal. Where memory runs out, a part of it may stand there.
fn push_decimal(n: u16, out: &mut Vec<u8>) -> Result<(), NoMemory>
    ensures ok { OnOk result (out.new.items ≡ out.old.items ++ decimal n) }
    ensures kept { take (length out.old.items) out.new.items ≡ out.old.items }
{
    out.extend_from_slice(itoa::Buffer::new().format(n).as_bytes())?;
    Ok(())
}
