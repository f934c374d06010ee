//! The smallest machine of a row: one row of each class of like rows, as far as they are reached.

ghost use Rattle.std.specs.Prelude.{[], ◌∷◌, ◌≡◌, ◌<◌, ◌≤◌, ◌⊎◌, IfOk, IfErr, IsErrOf, OnOk, length};
ghost use Rattle.std.specs.List.{All};
ghost use Rattle.fr_model.specs.Words.{IsLetter};
ghost use Rattle.fr_classes.specs.Classes.{AreClasses};
ghost use Rattle.fr_machine.specs.Walks.{IsRowMade, IsRowPassed};
ghost use Rattle.fr_machine.specs.Rows.{row_term, states_of};
ghost use Rattle.fr_model.specs.Classes.{HasMoreStates};
ghost use Rattle.fr_minimal.specs.Smallest.{IsSmallest, IsChoice, chosen_of, chosen_step, chosen_output};

use crate::reached::reached;
use fr_alphabet::NoMemory;
use fr_classes::classes_within;
use fr_machine::{Machine, Minimal, Row, STATE_LIMIT, Walk};
use std::alloc::{AllocError, AllocFailed, Global};
use thiserror::Error;

// For how many rows room is taken at first, so that small machines take it once.
const FIRST_ROOM: usize = 64;

/// Why there is no minimal machine.
#[derive(Clone, Copy, Debug, PartialEq, Eq, Error)]
pub enum MinFault {
    /// There are more than 1,024 sections no two of which act alike.
    #[error("more than 1024 states")]
    StatesPassed,
    /// Memory ran out.
    #[error("out of memory")]
    NoMemory,
}

impl<T: Drop> From<AllocFailed<T>> for MinFault {
    ghost use Rattle.std.specs.Prelude.{◌≡◌};
    ghost use Rattle.fr_minimal.specs.declared.smallest.MinFault.TheVariants.{NoMemory};

    ghost from_gives = { λ _ e. e ≡ NoMemory };

    fn from(_failed: AllocFailed<T>) -> MinFault {
        MinFault::NoMemory
    }
}

impl From<AllocError> for MinFault {
    ghost use Rattle.std.specs.Prelude.{◌≡◌};
    ghost use Rattle.fr_minimal.specs.declared.smallest.MinFault.TheVariants.{NoMemory};

    ghost from_gives = { λ _ e. e ≡ NoMemory };

    fn from(_failed: AllocError) -> MinFault {
        MinFault::NoMemory
    }
}

impl From<NoMemory> for MinFault {
    ghost use Rattle.std.specs.Prelude.{◌≡◌};
    ghost use Rattle.fr_minimal.specs.declared.smallest.MinFault.TheVariants.{NoMemory};

    ghost from_gives = { λ _ e. e ≡ NoMemory };

    fn from(_failed: NoMemory) -> MinFault {
        MinFault::NoMemory
    }
}

/// The smallest machine whose row 0 acts like row `s` of `m`: its rows are the sections of row `s`, pairwise unlike, in the
/// order in which they are met. It is the reduced automaton of Grigorchuk, Nekrashevych and Sushchanskii (Automata,
/// dynamical systems, and groups); the limit is this project's own.
///
/// Only the rows that are reached from row `s` are looked at, and where there are too many classes of them, the refinement
/// ends as soon as this is known.
///
/// Errors: `StatesPassed` exactly where there are more than 1,024 sections, no two of which act alike, and memory lasts.
pub fn minimize(alloc: Global, m: &Machine, s: u16) -> Result<Minimal, MinFault>
    requires { s < length m.now.rows }
    ensures alphabet { IfOk result (λ q. q.alphabet ≡ m.now.alphabet) }
    ensures ok { IfOk result (λ q. IsSmallest m.now.alphabet (row_term m.now.rows s) q.rows) }
    ensures passed { IsErrOf result MinFault.StatesPassed → HasMoreStates m.now.alphabet (row_term m.now.rows s) 1024 }
    ensures within { OnOk result (¬ HasMoreStates m.now.alphabet (row_term m.now.rows s) 1024) }
{
    let part = reached(alloc, m, s)?;
    match classes_within(alloc, &part, STATE_LIMIT)? {
        Some(of) => minimize_with(alloc, &part, &of, 0),
        None => Err(MinFault::StatesPassed),
    }
}

/// The smallest machine whose row 0 acts like row `s` of `m`, as [`minimize`], where `of` is what `classes` gives of `m`. It
/// serves where several rows of one machine are wanted, since the classes are found once.
///
/// Errors: as [`minimize`].
pub fn minimize_with(alloc: Global, m: &Machine, of: &[u16], s: u16) -> Result<Minimal, MinFault>
    requires row { s < length m.now.rows }
    requires classes { AreClasses m.now.rows of.now }
    ensures alphabet { IfOk result (λ q. q.alphabet ≡ m.now.alphabet) }
    ensures ok { IfOk result (λ q. IsSmallest m.now.alphabet (row_term m.now.rows s) q.rows) }
    ensures passed { IsErrOf result MinFault.StatesPassed → HasMoreStates m.now.alphabet (row_term m.now.rows s) 1024 }
    ensures within { OnOk result (¬ HasMoreStates m.now.alphabet (row_term m.now.rows s) 1024) }
{
    let count = m.rows().len();
    let chosen = choice(alloc, of)?;
    let mut walk = walk_from(alloc, count, chosen[of[s as usize] as usize] as u32)?;
    let mut rows = Vec::with_capacity(alloc, count.min(FIRST_ROOM))?;
    while rows.len() < walk.keys().len() {
        let key = walk.keys()[rows.len()] as u16;
        let row = row_of(m, of, &chosen, &mut walk, key)?;
        rows.push(row)?;
    }
    let _keys = walk.keys();
    Ok(Minimal::of(Machine::from_rows(m.alphabet(), rows)))
}

// A row of each class, at the place of the class.
fn choice(alloc: Global, of: &[u16]) -> Result<Vec<u16>, NoMemory>
    requires below { All (λ c. c < length of.now) of.now }
    requires few { length of.now ≤ 65536 }
    ensures { IfOk result (λ chosen. IsChoice of.now chosen.items) }
{
    let mut chosen = vec![in alloc; 0u16; of.len()]?;
    for (s, class) in of.iter().enumerate() {
        chosen[*class as usize] = s as u16;
    }
    Ok(chosen)
}

// What a chosen row leads to at a letter, by chosen rows.
fn target_of(m: &Machine, of: &[u16], chosen: &[u16], s: u16, x: u8) -> u16
    requires row { s < length m.now.rows }
    requires letter { IsLetter m.now.alphabet x }
    requires of { length of.now ≡ length m.now.rows }
    requires choice { IsChoice of.now chosen.now }
    ensures value { result ≡ chosen_step (states_of m.now.rows) of.now chosen.now s x }
    ensures below { result < length m.now.rows }
{
    let next = m.next(s, x);
    chosen[of[next as usize] as usize]
}

// The row of a chosen row, whose next rows are numbered.
fn row_of(m: &Machine, of: &[u16], chosen: &[u16], walk: &mut Walk, s: u16) -> Result<Row, MinFault>
    requires row { s < length m.now.rows }
    requires of { length of.now ≡ length m.now.rows }
    requires choice { IsChoice of.now chosen.now }
    requires bound { walk.old.bound ≡ length m.now.rows }
    requires room { length walk.old.keys ≤ 1024 }
    ensures ok { IfOk result (λ r. IsRowMade m.now.alphabet 1024 (chosen_step (states_of m.now.rows) of.now chosen.now) (chosen_output (states_of m.now.rows)) walk.old walk.new s r) }
    ensures passed { IsErrOf result MinFault.StatesPassed → IsRowPassed m.now.alphabet 1024 walk.old.bound (chosen_step (states_of m.now.rows) of.now chosen.now) walk.old.keys s }
{
    let d = m.alphabet().letters();
    let mut next = [0; 8];
    for x in 0..d {
        let target = target_of(m, of, chosen, s, x + 1);
        let _keys = walk.keys();
        match walk.number(target as u32, STATE_LIMIT)? {
            Some(number) => next[x as usize] = number,
            None => return Err(MinFault::StatesPassed),
        }
    }
    Ok(Row {
        perm: m.wreath(s).perm,
        next,
    })
}

/// A walk over keys below `bound` that has met this key alone. The only error is want of memory.
pub fn walk_from(alloc: Global, bound: usize, key: u32) -> Result<Walk, NoMemory>
    requires { key < bound }
    ensures bound { IfOk result (λ w. w.bound ≡ bound) }
    ensures keys { IfOk result (λ w. w.keys ≡ key ∷ []) }
{
    let mut walk = Walk::new(alloc, bound)?;
    walk.number(key, 1)?;
    Ok(walk)
}
