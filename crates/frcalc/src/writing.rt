//! What a run writes of an evaluation.

ghost use Rattle.std.specs.Prelude.{◌≡◌, ◌++◌, IfOk, OnOk, codes};
ghost use Rattle.fr_script.specs.Scripts.{lines_of};
ghost use Rattle.frcalc.specs.Program as spec;

use crate::evaluation::Evaluation;
use fr_alphabet::NoMemory;
use fr_options::Options;
use fr_script::{Cut, cut_line};
use itoa::Buffer;
use std::alloc::Global;

/// What is due of an evaluation by these options: its text, with a census one line more, and of a demonstration four lines in
/// its place. The only error is want of memory.
pub fn due(alloc: Global, options: &Options, evaluation: Evaluation) -> Result<Vec<u8>, NoMemory>
    ensures { IfOk result (λ t. t.items ≡ spec.written_of options.now.demo options.now.census evaluation.text.items evaluation.charge evaluation.census) }
{
    let Evaluation {
        mut text,
        charge,
        census,
        ..
    } = evaluation;
    if options.demo.is_some() {
        return demonstration(alloc, &text, charge, census);
    }
    if options.census {
        push_number(&mut text, b"store ", census)?;
    }
    Ok(text)
}

// The four lines of a demonstration.
fn demonstration(alloc: Global, text: &[u8], charge: u64, census: u64) -> Result<Vec<u8>, NoMemory>
    ensures { IfOk result (λ t. t.items ≡ spec.demonstration_lines text.now charge census) }
{
    let mut lines = Vec::from_slice(alloc, b"lines 2000\n")?;
    push_number(&mut lines, b"equal ", count_equal(text))?;
    push_number(&mut lines, b"charge ", charge)?;
    push_number(&mut lines, b"store ", census)?;
    Ok(lines)
}

// How many lines of a text are `equal`.
fn count_equal(text: &[u8]) -> u64
    ensures { result ≡ spec.count_equal (lines_of text.now) }
{
    let mut count = 0;
    let mut rest = text;
    while !rest.is_empty() {
        let Cut { line, rest: after } = cut_line(rest);
        count += u64::from(line == b"equal".as_slice());
        rest = after;
    }
    count
}

// Appends a line with a name and a number.
fn push_number(text: &mut Vec<u8>, name: &[u8], number: u64) -> Result<(), NoMemory>
    ensures { OnOk result (text.new.items ≡ text.old.items ++ spec.number_line name.now number) }
{
    text.extend_from_slice(name)?;
    text.extend_from_slice(Buffer::new().format(number).as_bytes())?;
    text.push(b'\n')?;
    Ok(())
}
