//! The text of a machine, read back.

ghost use Rattle.std.specs.Prelude.{◌≡◌, ◌≢◌, ℕ, suc, ◌<◌, ◌≤◌, ◌+◌, ◌⊎◌, List, IfOk, IfErr, MatchOption, MatchResult, fold, max, length, slice_index, take};
ghost use Rattle.fr_model.specs.Terms.{Term, IsTerm};
ghost use Rattle.fr_model.specs.Automata.{State};
ghost use Rattle.fr_model.specs.Canonical.{IsCanonical};
ghost use Rattle.fr_machine.specs.Rows.{IsMachine, IsRow, row_term, states_of};
ghost use Rattle.fr_classes.specs.Numberings.{IsNumberedFrom};
ghost use Rattle.fr_canon.specs.Texts.{machine_text};
ghost use Rattle.fr_canon.specs.Readings.{IsSyntaxFault, IsInOrder, IsFirstOutOfOrder, IsFirstRepeated, IsReadFault};

use crate::fault::ReadFault;
use crate::lines::{read_count, read_state, split_line};
use fr_alphabet::Alphabet;
use fr_classes::classes;
use fr_machine::{Machine, Minimal, Row};
use std::alloc::Global;

// Reads the rows of a machine from its lines.
fn read_rows(alloc: Global, a: Alphabet, text: &[u8]) -> Result<Vec<Row>, ReadFault>
    requires least { 2 ≤ a }
    requires letters { a ≤ 8 }
    ensures rows { IfOk result (λ rows. IsMachine a rows.items) }
    ensures few { IfOk result (λ rows. length rows.items ≤ 1024) }
    ensures written { IfOk result (λ rows. text.now ≡ machine_text (states_of rows.items)) }
    ensures err { IfErr result (λ e. (e ≡ ReadFault.NoMemory) ⊎ ((line : ℕ) × (e ≡ ReadFault.Syntax line) × IsSyntaxFault a text.now line)) }
{
    let Some((first, lines)) = split_line(text) else {
        return Err(ReadFault::Syntax(1));
    };
    let Some(count) = read_count(first) else {
        return Err(ReadFault::Syntax(1));
    };
    let mut rows = Vec::with_capacity(alloc, count as usize)?;
    let mut buffer = Vec::new(alloc);
    let mut rest = lines;
    for k in 0..count {
        let Some((line, more)) = split_line(rest) else {
            return Err(ReadFault::Syntax(k as u32 + 2));
        };
        let Some(row) = read_state(a, count, k + 1, line, &mut buffer)? else {
            return Err(ReadFault::Syntax(k as u32 + 2));
        };
        rows.push(row)?;
        rest = more;
    }
    if rest.is_empty() {
        Ok(rows)
    } else {
        Err(ReadFault::Syntax(count as u32 + 2))
    }
}

// How many states are met after a row before which so many were met, where none of its next states is more than one
// above the greatest met so far.
fn met_after(d: u8, row: &Row, before: u16) -> Option<u16>
    requires letters { d ≤ 8 }
    requires row { (n : ℕ) × (n ≤ 1024) × IsRow d n row.now }
    requires before { before ≤ 1024 }
    ensures { MatchOption result (¬ IsNumberedFrom before (take d row.now.next)) (λ after. IsNumberedFrom before (take d row.now.next) × (after ≡ fold (λ c x. max c (suc x)) before (take d row.now.next))) }
{
    let mut met = before;
    for next in row.next[..d as usize].iter() {
        if *next > met {
            return None;
        }
        met = met.max(*next + 1);
    }
    Some(met)
}

// The first row that was not met before, or has a next state that is more than one above the greatest met so far.
fn first_out_of_order(d: u8, rows: &[Row]) -> Option<u16>
    requires rows { IsMachine d rows.now }
    requires few { length rows.now ≤ 1024 }
    ensures { MatchOption result ((j : ℕ) → j < length rows.now → IsInOrder (states_of rows.now) j) (λ k. IsFirstOutOfOrder (states_of rows.now) k) }
{
    let mut met = 1;
    for (k, row) in rows.iter().enumerate() {
        if k >= met as usize {
            return Some(k as u16);
        }
        let Some(after) = met_after(d, row, met) else {
            return Some(k as u16);
        };
        met = after;
    }
    None
}

// The first row whose class is not its own place.
fn first_repeated(of: &[u16]) -> Option<u16>
    requires { length of.now ≤ 1024 }
    ensures { MatchOption result ((i : ℕ) → i < length of.now → slice_index of.now i ≡ i) (λ k. (k < length of.now) × (slice_index of.now k ≢ k) × ((i : ℕ) → i < k → slice_index of.now i ≡ i)) }
{
    for (k, class) in of.iter().enumerate() {
        if *class as usize != k {
            return Some(k as u16);
        }
    }
    None
}

// The minimal machine of rows in order that are pairwise unlike.
fn minimal_of(alloc: Global, a: Alphabet, rows: Vec<Row>) -> Result<Minimal, ReadFault>
    requires rows { IsMachine a rows.items }
    requires few { length rows.items ≤ 1024 }
    ensures value { IfOk result (λ m. m ≡ record { alphabet = a; rows = rows.items }) }
    ensures canonical { IfOk result (λ m. IsCanonical a (row_term rows.items 0) (states_of rows.items)) }
    ensures err { IfErr result (λ e. (e ≡ ReadFault.NoMemory) ⊎ ((k : ℕ) × (e ≡ ReadFault.NotCanonical (k + 2)) × (IsFirstOutOfOrder (states_of rows.items) k ⊎ IsFirstRepeated (states_of rows.items) k))) }
{
    if let Some(k) = first_out_of_order(a.letters(), &rows) {
        return Err(ReadFault::NotCanonical(k as u32 + 2));
    }
    let machine = Machine::from_rows(a, rows);
    let of = classes(alloc, &machine)?;
    if let Some(k) = first_repeated(&of) {
        return Err(ReadFault::NotCanonical(k as u32 + 2));
    }
    Ok(Minimal::of(machine))
}

/// Reads the machine of an element over the alphabet from its text, as `print_machine` writes it: exactly the texts of
/// elements of at most 1,024 states are accepted. The rows of the machine are the states in order, and it stands for
/// the first.
///
/// Errors, the first that holds: `Syntax(line)` with the first line that is not of its form; a line without its
/// newline is not, a line that is missing has the number that it would have, and what stands behind the last state is a
/// line that is left over. `NotCanonical(line)` with the line of the first state that is no next state of an earlier
/// one, or has a next state that is more than one above the greatest so far; then, with that of the first state that
/// acts like an earlier one. `NoMemory` may come before any of them.
pub fn read_machine(alloc: Global, a: Alphabet, text: &[u8]) -> Result<Minimal, ReadFault>
    ensures alphabet { IfOk result (λ m. m.alphabet ≡ a) }
    ensures written { IfOk result (λ m. text.now ≡ machine_text (states_of m.rows)) }
    ensures canonical { IfOk result (λ m. IsCanonical a (row_term m.rows 0) (states_of m.rows)) }
    ensures err { IfErr result (λ e. (e ≡ ReadFault.NoMemory) ⊎ IsReadFault a text.now e) }

    // Each text of an element is accepted, and gives the automaton with its code.
    ensures accepts { (t : Term) (qs : List State) → IsTerm a t → IsCanonical a t qs → length qs ≤ 1024 → text.now ≡ machine_text qs → MatchResult result (λ m. states_of m.rows ≡ qs) (λ e. e ≡ ReadFault.NoMemory) }
{
    // For the proof: an alphabet has 2 to 8 letters.
    let _letters = a.letters();
    match read_rows(alloc, a, text) {
        Ok(rows) => minimal_of(alloc, a, rows),
        Err(fault) => Err(fault),
    }
}
