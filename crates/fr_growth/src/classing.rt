//! The class of growth of an element.

ghost use Rattle.std.specs.Prelude.{◌≡◌, ℕ, ◌<◌, ◌≤◌, IfOk, IfSome, length, slice_index};
ghost use Rattle.fr_machine.specs.Rows.{row_term};
ghost use Rattle.fr_growth.specs.Components.{AreComponents, AreInOrder};
ghost use Rattle.fr_growth.specs.Levels.{AreMoving, AreReturns};
ghost use Rattle.fr_growth.specs.Classes.{IsClass};
ghost use Rattle.fr_growth.specs.Growth.{HasNumbers};

use crate::chaining::find_chain;
use crate::growth_class::Class;
use crate::knots::{Components, find_components};
use crate::least::{least_pair, least_word, short_pair};
use crate::leveling::find_levels;
use crate::marking::{doubling_rows, one_row};
use crate::rows::{moving_rows, returns};
use fr_alphabet::{NoMemory, Word};
use fr_machine::Minimal;
use std::alloc::Global;

/// The class of growth of the element of a minimal machine, with its certificate. The only error is want of memory.
///
/// The classes and their reading from the cycles of an automaton are Sidki's (*Automorphisms of one-rooted trees:
/// growth, circuit structure, and acyclicity*). The time is linear in the size
/// of the machine, but for the search of the two words of an exponential element.
pub fn class(alloc: Global, m: &Minimal) -> Result<Class, NoMemory>
    // The depth is the least, the degree exact with a chain of degree + 1 links, the triple the least.
    ensures class { IfOk result (λ c. IsClass m.now.alphabet (row_term m.now.rows 0) c) }

    // Bounds on how many words of each length the element is active at.
    ensures numbers { IfOk result (λ c. HasNumbers m.now.alphabet (length m.now.rows) (row_term m.now.rows 0) c) }
{
    let _known = m.machine();
    let moving = moving_rows(alloc, m)?;
    if let Some(class) = short_triple(alloc, m, &moving)? {
        return Ok(class);
    }
    let components = find_components(alloc, m)?;
    let returns = returns(alloc, m, &moving, &components.numbers)?;
    if returns.iter().any(|count| *count > 1) {
        return triple(alloc, m, &moving, &components.numbers, &returns);
    }
    tame(alloc, m, &moving, &components, &returns)
}

// The least triple, where the first row has it and it is soon found, which takes no components. The answer `None` says only
// that the search was given up.
fn short_triple(alloc: Global, m: &Minimal, moving: &[u8]) -> Result<Option<Class>, NoMemory>
    requires moving { AreMoving m.now.rows moving.now }
    ensures class { IfOk result (λ o. IfSome o (λ c. IsClass m.now.alphabet (row_term m.now.rows 0) c)) }
    ensures numbers { IfOk result (λ o. IfSome o (λ c. HasNumbers m.now.alphabet (length m.now.rows) (row_term m.now.rows 0) c)) }
{
    let _known = m.machine();
    if moving[0] == 0 {
        return Ok(None);
    }
    let home = one_row(alloc, m.size(), 0)?;
    match short_pair(alloc, m, &home, 0)? {
        Some(backs) => Ok(Some(Class::Exponential {
            at: Word::of_letters(Vec::new(alloc)),
            u: Word::of_letters(backs.first),
            v: Word::of_letters(backs.second),
        })),
        None => Ok(None),
    }
}

// The class of a machine in which no row that moves stays in its component at two letters.
fn tame(
    alloc: Global,
    m: &Minimal,
    moving: &[u8],
    components: &Components,
    returns: &[u8],
) -> Result<Class, NoMemory>
    requires moving { AreMoving m.now.rows moving.now }
    requires numbers { AreComponents m.now.alphabet m.now.rows components.now.numbers.items }
    requires order { AreInOrder (length m.now.rows) components.now.numbers.items components.now.order.items }
    requires returns { AreReturns m.now.alphabet m.now.rows moving.now components.now.numbers.items returns.now }
    requires few { (s : ℕ) → slice_index returns.now s ≤ 1 }
    ensures class { IfOk result (λ c. IsClass m.now.alphabet (row_term m.now.rows 0) c) }
    ensures numbers { IfOk result (λ c. HasNumbers m.now.alphabet (length m.now.rows) (row_term m.now.rows 0) c) }
{
    let _known = m.machine();
    let first = components.number_of(0);
    let levels = find_levels(alloc, m, components, returns)?;
    let level = levels.value_of(first);
    if level == 0 {
        // There is no cycle, so the longest ways through rows that move are counted.
        let heights = find_levels(alloc, m, components, moving)?;
        return Ok(Class::Finitary {
            depth: heights.value_of(first),
        });
    }
    let chain = find_chain(alloc, m, moving, &components.numbers, returns, &levels)?;
    Ok(Class::Polynomial {
        degree: level - 1,
        chain,
    })
}

// The least triple of a machine in which some row that moves stays in its component at two letters.
fn triple(
    alloc: Global,
    m: &Minimal,
    moving: &[u8],
    numbers: &[u16],
    returns: &[u8],
) -> Result<Class, NoMemory>
    requires moving { AreMoving m.now.rows moving.now }
    requires numbers { AreComponents m.now.alphabet m.now.rows numbers.now }
    requires returns { AreReturns m.now.alphabet m.now.rows moving.now numbers.now returns.now }
    requires some { (s : ℕ) × (s < length m.now.rows) × (1 < slice_index returns.now s) }
    ensures class { IfOk result (λ c. IsClass m.now.alphabet (row_term m.now.rows 0) c) }
    ensures numbers { IfOk result (λ c. HasNumbers m.now.alphabet (length m.now.rows) (row_term m.now.rows 0) c) }
{
    let _moving = moving;
    let machine = m.machine();
    let n = m.size();
    let doubling = doubling_rows(alloc, numbers, returns)?;
    let letters = least_word(alloc, m, &doubling, 0)?;
    let at = Word::of_letters(letters);
    let h = machine.section(0, &at);
    let home = one_row(alloc, n, h)?;
    let backs = least_pair(alloc, m, &home, h)?;
    Ok(Class::Exponential {
        at,
        u: Word::of_letters(backs.first),
        v: Word::of_letters(backs.second),
    })
}
