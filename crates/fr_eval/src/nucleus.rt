//! The nucleus of the group of some elements.

ghost use Rattle.std.specs.Prelude.{List, ℕ, map, ◌≡◌, ◌++◌, ◌+◌, ◌*◌, ◌<◌, ◌≤◌, ◌^◌, IfOk, OnOk, length};
ghost use Rattle.std.specs.List.{All};
ghost use Rattle.fr_model.specs.Terms.{Term};
ghost use Rattle.fr_nucleus.specs.Elements.{elements_of, AreOver};
ghost use Rattle.fr_store.specs.Store.{IsKnown, Keeps, Continues, Reads};
ghost use Rattle.fr_plain.specs.Answers.{AnswersNucleus, nucleus_text};
ghost use Rattle.fr_plain.specs.Beginnings.{AreFirstMembers};
ghost use Rattle.fr_plain.specs.Steps.{Listed};
ghost use Rattle.fr_eval.specs.Concluding.{Concludes, MakesAll};
ghost use Rattle.fr_eval.specs.Generators.{StandForAll, AreAlikeTerms, automata_of, of_nucleus};

use crate::rows::{push_machine, push_number};
use fr_alphabet::NoMemory;
use fr_expr::{EvalFault, enter};
use fr_machine::Minimal;
use fr_nucleus::{Nucleus, NucleusFault, nucleus};
use fr_script::LineFault;
use fr_store::{Handle, Store};
use std::alloc::Global;

// The most members of a nucleus.
const MEMBER_LIMIT: u16 = 256;

/// Appends the nucleus of the group that some elements and all their sections generate: how many members it has, its depth,
/// and the members in order. Each member is entered in the store.
pub fn nucleus_of<S: Store>(
    alloc: Global,
    store: &mut S,
    gens: &[Handle],
    out: &mut Vec<u8>,
    charge: &mut u64,
) -> Result<(), EvalFault>
    requires some { 0 < length gens.now }
    requires known { All (IsKnown (S.view.known store.old)) gens.now }
    requires room { charge.old + 2 ^ 20 < 2 ^ 64 }
    ensures concludes { (ts : List Term) → StandForAll (S.view.alphabet store.old) (S.view.known store.old) gens.now ts
        → Concludes S.view (S.view.alphabet store.old) (AnswersNucleus (S.view.alphabet store.old) ts) (AreFirstMembers (S.view.alphabet store.old) ts) store.old store.new charge.old charge.new out.old.items out.new.items result }
    ensures keeps { Keeps (S.view.known store.old) (S.view.known store.new) }
    ensures continues { Continues S.view store.old store.new }
    ensures most { charge.new ≤ charge.old + 2 ^ 18 }
{
    let machines = machines_of(alloc, store, gens)?;
    let found = match nucleus(alloc, &machines, MEMBER_LIMIT) {
        Ok(found) => found,
        Err(fault) => return Err(eval_fault(fault)),
    };
    enter_members(store, &found.members, charge)?;
    push_nucleus(&found, out)?;
    Ok(())
}

// Why there is no nucleus, as a fault of an evaluation.
fn eval_fault(fault: NucleusFault) -> EvalFault
    ensures { result ≡ of_nucleus fault }
{
    match fault {
        NucleusFault::TooManySections => EvalFault::Refused(LineFault::TooManySections),
        NucleusFault::Passes(_) => EvalFault::Refused(LineFault::NucleusPassed),
        NucleusFault::NoMemory => EvalFault::NoMemory,
    }
}

// Enters the elements of machines, in order, and adds their charge.
fn enter_members<S: Store>(
    store: &mut S,
    members: &[Minimal],
    charge: &mut u64,
) -> Result<(), EvalFault>
    requires over { AreOver (S.view.alphabet store.old) members.now }
    requires few { length members.now ≤ 256 }
    requires room { charge.old + 2 ^ 20 < 2 ^ 64 }
    ensures makes { MakesAll S.view (S.view.alphabet store.old) store.old store.new charge.old charge.new (map Listed (elements_of members.now)) result }
    ensures keeps { Keeps (S.view.known store.old) (S.view.known store.new) }
    ensures continues { Continues S.view store.old store.new }
    ensures most { charge.new ≤ charge.old + 1024 * length members.now }
{
    for m in members {
        // For the proof: it is a smallest machine.
        let _machine = m.machine();
        enter(store, m, charge)?;
    }
    Ok(())
}

// The smallest machine of each element.
fn machines_of<S: Store>(
    alloc: Global,
    store: &mut S,
    handles: &[Handle],
) -> Result<Vec<Minimal>, NoMemory>
    requires { All (IsKnown (S.view.known store.old)) handles.now }
    ensures over { IfOk result (λ ms. AreOver (S.view.alphabet store.old) ms.items) }
    ensures machines { IfOk result (λ ms. (ts : List Term) → StandForAll (S.view.alphabet store.old) (S.view.known store.old) handles.now ts → AreAlikeTerms (S.view.alphabet store.old) (elements_of ms.items) ts) }
    ensures count { IfOk result (λ ms. length ms.items ≡ length handles.now) }
    ensures reads { Reads S.view store.old store.new }
{
    let mut machines = Vec::with_capacity(alloc, handles.len())?;
    for h in handles {
        let m = store.machine(alloc, *h)?;
        // For the proof: its rows are those of a machine.
        let _machine = m.machine();
        machines.push(m)?;
    }
    Ok(machines)
}

// Appends the text of a nucleus. Where memory runs out, a part of it may stand there.
fn push_nucleus(found: &Nucleus, out: &mut Vec<u8>) -> Result<(), NoMemory>
    ensures { OnOk result (out.new.items ≡ out.old.items ++ nucleus_text (automata_of found.now.members) found.now.depth) }
{
    out.extend_from_slice(b"nucleus ")?;
    push_number(found.members.len() as u64, out)?;
    out.extend_from_slice(b" depth ")?;
    push_number(found.depth as u64, out)?;
    out.push(b'\n')?;
    for (i, m) in found.members.iter().enumerate() {
        out.extend_from_slice(b"element ")?;
        push_number(i as u64 + 1, out)?;
        out.push(b'\n')?;
        push_machine(m, out)?;
    }
    Ok(())
}
