//! Which rows act as 1, and at how many letters a row stays in its component.

ghost use Rattle.std.specs.Prelude.{◌≡◌, ◌<◌, ◌↔◌, IsTrue, IfOk, length};
ghost use Rattle.fr_model.specs.Terms.{One, IsAlike};
ghost use Rattle.fr_machine.specs.Rows.{row_term};
ghost use Rattle.fr_growth.specs.Components.{AreComponents};
ghost use Rattle.fr_growth.specs.Levels.{AreMoving, AreReturns, returns_of};

use fr_alphabet::NoMemory;
use fr_machine::Minimal;
use std::alloc::Global;

// Whether a row acts as 1: no two rows act alike, so it is the one that puts out each letter and stays.
fn is_still(m: &Minimal, s: u16) -> bool
    requires { s < length m.now.rows }
    ensures { IsTrue result ↔ IsAlike (row_term m.now.rows s) One }
{
    let machine = m.machine();
    for x in 0..machine.alphabet().letters() {
        if machine.output(s, x + 1) != x + 1 || machine.next(s, x + 1) != s {
            return false;
        }
    }
    true
}

/// For each row 0 where it acts as 1, and 1 where it does not. The only error is want of memory.
pub fn moving_rows(alloc: Global, m: &Minimal) -> Result<Vec<u8>, NoMemory>
    ensures { IfOk result (λ moving. AreMoving m.now.rows moving.items) }
{
    let _known = m.machine();
    let mut moving = Vec::with_capacity(alloc, m.size() as usize)?;
    for s in 0..m.size() {
        moving.push(if is_still(m, s) { 0 } else { 1 })?;
    }
    Ok(moving)
}

// At how many letters a row stays in its component.
fn returns_at(m: &Minimal, numbers: &[u16], s: u16) -> u8
    requires row { s < length m.now.rows }
    requires numbers { AreComponents m.now.alphabet m.now.rows numbers.now }
    ensures value { result ≡ returns_of m.now.alphabet m.now.rows numbers.now s }
{
    let machine = m.machine();
    let mut count = 0;
    for x in 0..machine.alphabet().letters() {
        if numbers[machine.next(s, x + 1) as usize] == numbers[s as usize] {
            count += 1;
        }
    }
    count
}

/// For each row at how many letters it stays in its component; 0 for a row that acts as 1. The only error is want of
/// memory.
pub fn returns(
    alloc: Global,
    m: &Minimal,
    moving: &[u8],
    numbers: &[u16],
) -> Result<Vec<u8>, NoMemory>
    requires moving { AreMoving m.now.rows moving.now }
    requires numbers { AreComponents m.now.alphabet m.now.rows numbers.now }
    ensures { IfOk result (λ returns. AreReturns m.now.alphabet m.now.rows moving.now numbers.now returns.items) }
{
    let _known = m.machine();
    let mut returns = Vec::with_capacity(alloc, m.size() as usize)?;
    for s in 0..m.size() {
        returns.push(if moving[s as usize] == 0 {
            0
        } else {
            returns_at(m, numbers, s)
        })?;
    }
    Ok(returns)
}
