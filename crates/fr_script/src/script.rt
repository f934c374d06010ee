//! Whole scripts.

ghost use Rattle.std.specs.Prelude.{◌≡◌, ◌<◌, ◌≤◌, ◌⊎◌, ◌++◌, ◌∷◌, IfOk, Err, OnOk, length};
ghost use Rattle.fr_script.specs.Fits.{FitsScript};
ghost use Rattle.fr_script.specs.Items.{listed};
ghost use Rattle.fr_script.specs.Scripts as spec;

use crate::item::Item;
use crate::line_reader::{LineReader, ScriptFault};
use fr_alphabet::{Alphabet, NoMemory};
use fr_syntax::length_before;
use sqlite_items::Items;
use std::alloc::Global;

/// A line at the front of a text, and what follows it.
#[derive(Clone, Copy, Debug)]
pub struct Cut<'a> {
    /// The line, without its newline.
    pub line: &'a [u8],
    /// What follows the newline.
    pub rest: &'a [u8],
}

/// Cuts the first line off a text that is not empty.
pub fn cut_line(text: &[u8]) -> Cut<'_>
    requires { 0 < length text.now }
    ensures lines { spec.lines_of text.now ≡ result.line.now ∷ spec.lines_of result.rest.now }
    ensures shorter { length result.rest.now < length text.now }
{
    let n = length_before(b'\n', text);
    let line = &text[..n];
    if n < text.len() {
        Cut {
            line,
            rest: &text[n + 1..],
        }
    } else {
        Cut {
            line,
            rest: &text[n..],
        }
    }
}

fn add(items: &mut Items<Item>, item: Option<Item>) -> Result<(), NoMemory>
    ensures { OnOk result (items.new ≡ items.old ++ listed item) }
{
    if let Some(item) = item {
        items.push(item)?;
    }
    Ok(())
}

/// A script: its alphabet and its items in order of lines.
#[derive(Drop)]
pub struct Script {
    pub alphabet: Alphabet,
    pub items: Items<Item>,
}

/// Reads a script. It is cut into lines at each byte 10, and a last piece that is not empty is a line.
///
/// The error `LinesPassed` comes exactly where it has more than 4,096 lines. Each other fault is
/// that of an item.
pub fn read_script(alloc: Global, bytes: &[u8]) -> Result<Script, ScriptFault>
    ensures ok { IfOk result (λ script. spec.IsScript bytes.now script) }
    ensures fits { IfOk result FitsScript }
    ensures by_lines { IfOk result (λ script. spec.IsReadByLines bytes.now script) }
    ensures passed { result ≡ Err ScriptFault.LinesPassed → 4096 < length (spec.lines_of bytes.now) }
    ensures over { 4096 < length (spec.lines_of bytes.now) → (result ≡ Err ScriptFault.LinesPassed) ⊎ (result ≡ Err ScriptFault.NoMemory) }
{
    let mut reader = LineReader::new(alloc)?;
    let mut items = Items::new(alloc);
    let mut rest = bytes;
    while !rest.is_empty() {
        let Cut { line, rest: after } = cut_line(rest);
        let item = reader.push(line)?;
        add(&mut items, item)?;
        rest = after;
    }
    let alphabet = reader.alphabet();
    add(&mut items, reader.finish()?)?;
    Ok(Script { alphabet, items })
}
