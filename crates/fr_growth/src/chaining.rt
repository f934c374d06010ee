//! Chains of cycles.

ghost use Rattle.std.specs.Prelude.{◌≡◌, ◌≢◌, ℕ, ◌+◌, ◌*◌, ◌<◌, ◌≤◌, IfOk, OnOk, length, slice_index};
ghost use Rattle.fr_model.specs.Words.{IsLetter};
ghost use Rattle.fr_machine.specs.Rows.{states_of};
ghost use Rattle.fr_growth.specs.Walks.{IsStateChain, unmarked};
ghost use Rattle.fr_growth.specs.Components.{AreComponents};
ghost use Rattle.fr_growth.specs.Levels.{AreMoving, AreReturns, AreLevels, IsTame, next_component};
ghost use Rattle.fr_growth.specs.Chains.{IsAppended, IsRoundTrip, IsStayingLetter, IsLeavingLetter};

use crate::growth_class::Link;
use crate::leveling::Levels;
use fr_alphabet::{NoMemory, Word};
use fr_machine::Minimal;
use std::alloc::Global;

/// A chain of as many cycles as the level of the component of row 0, where no row that moves stays in its component at
/// two letters. The only error is want of memory.
pub fn find_chain(
    alloc: Global,
    m: &Minimal,
    moving: &[u8],
    numbers: &[u16],
    returns: &[u8],
    levels: &Levels,
) -> Result<Vec<Link>, NoMemory>
    requires moving { AreMoving m.now.rows moving.now }
    requires numbers { AreComponents m.now.alphabet m.now.rows numbers.now }
    requires returns { AreReturns m.now.alphabet m.now.rows moving.now numbers.now returns.now }
    requires few { (s : ℕ) → slice_index returns.now s ≤ 1 }
    requires levels { AreLevels m.now.alphabet m.now.rows numbers.now returns.now levels.now.values.items levels.now.heads.items }
    ensures count { IfOk result (λ links. length links.items ≡ slice_index levels.now.values.items (slice_index numbers.now 0)) }
    ensures chain { IfOk result (λ links. IsStateChain m.now.alphabet (states_of m.now.rows) (unmarked moving.now) 0 links.items) }
{
    let machine = m.machine();
    let mut level = levels.value_of(numbers[0]);
    let mut links = Vec::with_capacity(alloc, level as usize)?;
    let mut word = Vec::new(alloc);
    let mut at = 0;
    while level > 0 {
        let head = levels.head_of(numbers[at as usize]);
        walk(m, numbers, at, head, &mut word)?;
        if returns[head as usize] != 0 {
            let back = round_trip(alloc, m, numbers, head)?;
            links.push(Link {
                at: Word::of_letters(word),
                back: Word::of_letters(back),
            })?;
            word = Vec::new(alloc);
            level -= 1;
            if level == 0 {
                break;
            }
        }
        let x = leaving_letter(m, numbers, &levels.values, head, level);
        word.push(x)?;
        at = machine.next(head, x);
    }
    Ok(links)
}

// Appends a word that leads from a row to another of its component.
fn walk(
    m: &Minimal,
    numbers: &[u16],
    from: u16,
    to: u16,
    word: &mut Vec<u8>,
) -> Result<(), NoMemory>
    requires from { from < length m.now.rows }
    requires to { to < length m.now.rows }
    requires numbers { AreComponents m.now.alphabet m.now.rows numbers.now }
    requires tame { IsTame m.now.alphabet m.now.rows numbers.now }
    requires inside { slice_index numbers.now to ≡ slice_index numbers.now from }
    ensures { OnOk result (IsAppended m.now.alphabet m.now.rows from to word.old.items word.new.items) }
{
    let machine = m.machine();
    let mut at = from;
    while at != to {
        let x = staying_letter(m, numbers, at);
        word.push(x)?;
        at = machine.next(at, x);
    }
    Ok(())
}

// A word that leads from a row back to it.
fn round_trip(alloc: Global, m: &Minimal, numbers: &[u16], row: u16) -> Result<Vec<u8>, NoMemory>
    requires row { row < length m.now.rows }
    requires numbers { AreComponents m.now.alphabet m.now.rows numbers.now }
    requires some { (t : IsTame m.now.alphabet m.now.rows numbers.now) × (slice_index t.returns row ≢ 0) }
    ensures { IfOk result (λ w. IsRoundTrip m.now.alphabet m.now.rows row w.items) }
{
    let machine = m.machine();
    let x = staying_letter(m, numbers, row);
    let mut word = Vec::new(alloc);
    word.push(x)?;
    walk(m, numbers, machine.next(row, x), row, &mut word)?;
    Ok(word)
}

// The first letter at which a row stays in its component.
fn staying_letter(m: &Minimal, numbers: &[u16], s: u16) -> u8
    requires row { s < length m.now.rows }
    requires numbers { AreComponents m.now.alphabet m.now.rows numbers.now }
    requires some { (x : ℕ) × IsStayingLetter m.now.alphabet m.now.rows numbers.now s x }
    ensures { IsStayingLetter m.now.alphabet m.now.rows numbers.now s result }
{
    let machine = m.machine();
    for x in 0..machine.alphabet().letters() {
        if numbers[machine.next(s, x + 1) as usize] == numbers[s as usize] {
            return x + 1;
        }
    }
    unreachable!()
}

// The first letter at which a row leaves its component for one of this level.
fn leaving_letter(m: &Minimal, numbers: &[u16], levels: &[u16], s: u16, level: u16) -> u8
    requires row { s < length m.now.rows }
    requires numbers { AreComponents m.now.alphabet m.now.rows numbers.now }
    requires levels { length levels.now ≡ length m.now.rows }
    requires some { (x : ℕ) × IsLeavingLetter m.now.alphabet m.now.rows numbers.now levels.now s level x }
    ensures { IsLeavingLetter m.now.alphabet m.now.rows numbers.now levels.now s level result }
{
    let machine = m.machine();
    for x in 0..machine.alphabet().letters() {
        let number = numbers[machine.next(s, x + 1) as usize];
        if number != numbers[s as usize] && levels[number as usize] == level {
            return x + 1;
        }
    }
    unreachable!()
}
