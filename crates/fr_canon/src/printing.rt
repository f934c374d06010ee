//! The text of a machine, which lists its states in order.

ghost use Rattle.std.specs.Prelude.{◌≡◌, ℕ, ◌≤◌, ◌+◌, ◌*◌, ◌++◌, List, drop, length, take, OnOk, OnErr};
ghost use Rattle.std.specs.Fmt.{decimal};
ghost use Rattle.fr_model.specs.Terms.{Term};
ghost use Rattle.fr_model.specs.Automata.{State, IsAutomaton};
ghost use Rattle.fr_model.specs.Canonical.{IsCode, code_of};
ghost use Rattle.fr_canon.specs.Texts.{IsStateCode, numbers_text, state_text, states_text, machine_text};

use crate::code::Code;
use fr_alphabet::{Alphabet, NoMemory, Perm};

/// Appends the text of the machine with this code: a line `states n`, then for each state k in order the line
/// `k = <n1,..,nd>` with the numbers of its next states, and the cycles of its permutation behind. States are
/// numbered from 1. The code is that of an element over the alphabet.
///
/// The only error is want of memory; `out` is then as before.
pub fn print_machine(a: Alphabet, code: &Code, out: &mut Vec<u8>) -> Result<(), NoMemory>
    requires { (t : Term) × IsCode a t code.now }
    ensures ok { OnOk result ((qs : List State) → IsAutomaton a qs → code.now ≡ code_of qs → out.new.items ≡ out.old.items ++ machine_text qs) }
    ensures err { OnErr result (out.new.items ≡ out.old.items) }
{
    let before = out.len();
    let printed = push_machine(a, code.numbers(), out);
    if printed.is_err() {
        out.truncate(before);
    }
    printed
}

// Appends the text. Where memory runs out, a part of it may stand there.
fn push_machine(a: Alphabet, numbers: &[u32], out: &mut Vec<u8>) -> Result<(), NoMemory>
    requires few { length numbers.now ≤ 9216 }
    requires code { (qs : List State) × IsAutomaton a qs × (numbers.now ≡ code_of qs) }
    ensures ok { OnOk result ((qs : List State) → IsAutomaton a qs → numbers.now ≡ code_of qs → out.new.items ≡ out.old.items ++ machine_text qs) }
    ensures kept { take (length out.old.items) out.new.items ≡ out.old.items }
{
    let width = a.letters() as usize + 1;
    out.extend_from_slice(b"states ")?;
    push_decimal((numbers.len() / width) as u32, out)?;
    out.push(b'\n')?;
    push_states(a, numbers, out)
}

// Appends the lines of the states. Where memory runs out, a part of them may stand there.
fn push_states(a: Alphabet, numbers: &[u32], out: &mut Vec<u8>) -> Result<(), NoMemory>
    requires few { length numbers.now ≤ 9216 }
    requires code { (qs : List State) × IsAutomaton a qs × (numbers.now ≡ code_of qs) }
    ensures ok { OnOk result ((qs : List State) → IsAutomaton a qs → numbers.now ≡ code_of qs → out.new.items ≡ out.old.items ++ states_text 1 qs) }
    ensures kept { take (length out.old.items) out.new.items ≡ out.old.items }
{
    let width = a.letters() as usize + 1;
    for k in 0..numbers.len() / width {
        push_state(a, k as u32 + 1, state_part(numbers, width, k), out)?;
    }
    Ok(())
}

// The part of a code that stands for state k, counted from 0.
pub(crate) fn state_part(numbers: &[u32], width: usize, k: usize) -> &[u32]
    requires { k * width + width ≤ length numbers.now }
    ensures { result.now ≡ take width (drop (k * width) numbers.now) }
{
    let start = k * width;
    &numbers[start..start + width]
}

// Appends the line of a state. Where memory runs out, a part of it may stand there.
fn push_state(a: Alphabet, number: u32, numbers: &[u32], out: &mut Vec<u8>) -> Result<(), NoMemory>
    requires { (q : State) × IsStateCode a numbers.now q }
    ensures ok { OnOk result ((q : State) → IsStateCode a numbers.now q → out.new.items ≡ out.old.items ++ state_text number q) }
    ensures kept { take (length out.old.items) out.new.items ≡ out.old.items }
{
    let perm = Perm::of_rank(a, numbers[0]).unwrap();
    push_decimal(number, out)?;
    out.extend_from_slice(b" = <")?;
    push_numbers(&numbers[1..], out)?;
    out.push(b'>')?;
    perm.print_cycles(out)?;
    out.push(b'\n')?;
    Ok(())
}

// Appends the numbers, with commas between them. Where memory runs out, a part of them may stand there.
fn push_numbers(numbers: &[u32], out: &mut Vec<u8>) -> Result<(), NoMemory>
    ensures ok { OnOk result (out.new.items ≡ out.old.items ++ numbers_text numbers.now) }
    ensures kept { take (length out.old.items) out.new.items ≡ out.old.items }
{
    for (i, number) in numbers.iter().enumerate() {
        if i > 0 {
            out.push(b',')?;
        }
        push_decimal(*number, out)?;
    }
    Ok(())
}

// Appends a number in decimal. Where memory runs out, a part of it may stand there.
fn push_decimal(n: u32, out: &mut Vec<u8>) -> Result<(), NoMemory>
    ensures ok { OnOk result (out.new.items ≡ out.old.items ++ decimal n) }
    ensures kept { take (length out.old.items) out.new.items ≡ out.old.items }
{
    out.extend_from_slice(itoa::Buffer::new().format(n).as_bytes())?;
    Ok(())
}
