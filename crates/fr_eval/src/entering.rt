//! The elements of the names of a block in a store.

ghost use Rattle.std.specs.Prelude.{ℕ, [], ◌∷◌, ◌++◌, OnOk, OnErr, ◌≡◌, ◌+◌, ◌<◌, ◌≤◌, ◌^◌, IfErr, length};
ghost use Rattle.fr_model.specs.Systems.{IsSystem};
ghost use Rattle.fr_store.specs.Store.{Keeps, Continues};
ghost use Rattle.fr_plain.specs.Steps.{Defined};
ghost use Rattle.fr_plain.specs.Expansions.{step};
ghost use Rattle.fr_expr.specs.Evaluation.{Evaluates};
ghost use Rattle.fr_eval.specs.Entering.{of_name, EntersNames};

use fr_alphabet::NoMemory;
use fr_block::{Elements, NameFault};
use fr_expr::{EvalFault, enter};
use fr_script::LineFault;
use fr_store::{Handle, Store};
use std::alloc::Global;

/// Enters the elements of the names of a block in a store, in the order of its lines, and appends their handles to an empty
/// list. The charge of each is added to `charge`.
///
/// Errors: `Refused` exactly with the fault of the first name that is refused; so many handles stand for the names before
/// it. `Full` where the first name that was not finished has an element that the store does not know and has no room for;
/// `NoMemory`.
pub fn enter_names<S: Store>(
    alloc: Global,
    store: &mut S,
    elements: &Elements,
    handles: &mut Vec<Handle>,
    charge: &mut u64,
) -> Result<(), EvalFault>
    requires alphabet { elements.now.alphabet ≡ S.view.alphabet store.old }
    requires system { IsSystem (S.view.alphabet store.old) elements.now.system }
    requires most { length elements.now.system ≤ 4095 }
    requires none { handles.old.items ≡ [] }
    requires charge { charge.old ≤ 2 ^ 62 }
    ensures enters { EntersNames S.view (S.view.alphabet store.old) elements.now.system store.old store.new charge.old charge.new handles.new.items result }
    ensures fewer { IfErr result (λ fault. length handles.new.items < length elements.now.system) }
    ensures keeps { Keeps (S.view.known store.old) (S.view.known store.new) }
    ensures continues { Continues S.view store.old store.new }
    ensures most { charge.new ≤ charge.old + 2 ^ 22 }
{
    for name in 0..elements.block().names() {
        let handle = enter_name(alloc, store, elements, name, charge)?;
        push_handle(handles, handle)?;
    }
    Ok(())
}

// Enters the element of a name.
fn enter_name<S: Store>(
    alloc: Global,
    store: &mut S,
    elements: &Elements,
    name: u16,
    charge: &mut u64,
) -> Result<Handle, EvalFault>
    requires alphabet { elements.now.alphabet ≡ S.view.alphabet store.old }
    requires system { IsSystem (S.view.alphabet store.old) elements.now.system }
    requires name { name < length elements.now.system }
    requires room { charge.old + 1024 < 2 ^ 64 }
    ensures evaluates { Evaluates S.view (S.view.alphabet store.old) store.old store.new charge.old charge.new (step (Defined elements.now.system name)) result }
    ensures keeps { Keeps (S.view.known store.old) (S.view.known store.new) }
    ensures continues { Continues S.view store.old store.new }
    ensures most { charge.new ≤ charge.old + 1024 }
{
    match elements.element(alloc, name) {
        Ok(machine) => enter(store, &machine, charge),
        Err(fault) => Err(eval_fault(fault)),
    }
}

// The fault of a name as that of an evaluation.
fn eval_fault(fault: NameFault) -> EvalFault
    ensures { result ≡ of_name fault }
{
    match fault {
        NameFault::ClosurePassed => EvalFault::Refused(LineFault::ClosurePassed),
        NameFault::StatesPassed => EvalFault::Refused(LineFault::StatesPassed),
        NameFault::NoMemory => EvalFault::NoMemory,
    }
}

// Appends a handle. The only error is want of memory; then all is as before.
fn push_handle(handles: &mut Vec<Handle>, handle: Handle) -> Result<(), NoMemory>
    ensures pushed { OnOk result (handles.new.items ≡ handles.old.items ++ handle ∷ []) }
    ensures kept { OnErr result (handles.new.items ≡ handles.old.items) }
{
    handles.push(handle)?;
    Ok(())
}
