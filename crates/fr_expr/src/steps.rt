//! The steps of an evaluation. Each makes one element, enters it in the store and adds its charge.

ghost use Rattle.std.specs.Prelude.{ℕ, ◌≡◌, ◌+◌, ◌<◌, ◌≤◌, ◌^◌, [], ◌∷◌, IfOk, length, take};
ghost use Rattle.fr_model.specs.Words.{IsWord};
ghost use Rattle.fr_model.specs.Terms.{Term, Section, IsTerm, IsAlike};
ghost use Rattle.fr_machine.specs.Rows.{row_term};
ghost use Rattle.fr_store.specs.Store.{IsKnown, Stands, AreHandles, Keeps, Continues, Reads};
ghost use Rattle.fr_plain.specs.Steps.{Step, Identity, value_of, IsCharged};
ghost use Rattle.fr_plain.specs.Expansions.{step, inverse_of, product_of};
ghost use Rattle.fr_plain.specs.Steps.{Restricted};
ghost use Rattle.fr_expr.specs.Evaluation.{Evaluates, Multiplies};

use crate::fault::EvalFault;
use fr_alphabet::Word;
use fr_machine::Minimal;
use fr_minimal::minimize;
use fr_product::product;
use fr_store::{Handle, Store};
use std::alloc::Global;

/// The handle of the element of a smallest machine, by whatever step it is made. It is entered in the store, and its states
/// are charged.
///
/// Errors: `Full` as the store says.
pub fn enter<S: Store>(store: &mut S, m: &Minimal, charge: &mut u64) -> Result<Handle, EvalFault>
    requires alphabet { m.now.alphabet ≡ S.view.alphabet store.old }
    requires room { charge.old + 1024 < 2 ^ 64 }
    ensures evaluates { (s : Step) → IsTerm (S.view.alphabet store.old) (value_of s) → IsAlike (row_term m.now.rows 0) (value_of s) → IsCharged (S.view.alphabet store.old) s (length m.now.rows)
        → Evaluates S.view (S.view.alphabet store.old) store.old store.new charge.old charge.new (step s) result }
    ensures known { IfOk result (λ h. IsKnown (S.view.known store.new) h) }
    ensures keeps { Keeps (S.view.known store.old) (S.view.known store.new) }
    ensures handles { AreHandles (S.view.alphabet store.old) (S.view.known store.new) }
    ensures continues { Continues S.view store.old store.new }
    ensures most { charge.new ≤ charge.old + 1024 }
{
    let states = m.machine().rows().len();
    let h = store.intern(m)?;
    *charge += states as u64;
    Ok(h)
}

// The machine of the product of two elements, first the one and then the other.
fn product_machine<S: Store>(
    alloc: Global,
    store: &mut S,
    a: Handle,
    b: Handle,
) -> Result<Minimal, EvalFault>
    requires a_known { IsKnown (S.view.known store.old) a }
    requires b_known { IsKnown (S.view.known store.old) b }
    ensures multiplies { (t u : Term) → Stands S.view store.old a t → Stands S.view store.old b u → Multiplies (S.view.alphabet store.old) t u result }
    ensures alphabet { IfOk result (λ q. q.alphabet ≡ S.view.alphabet store.old) }
    ensures handles { AreHandles (S.view.alphabet store.old) (S.view.known store.new) }
    ensures reads { Reads S.view store.old store.new }
{
    let m = store.machine(alloc, a)?;
    let n = store.machine(alloc, b)?;
    let pairs = product(alloc, &m, 0, &n, 0)?;
    // For the proof: the machine of the pairs is one.
    let _rows = pairs.rows();
    let q = minimize(alloc, &pairs, 0)?;
    Ok(q)
}

/// The product of two elements, first the one and then the other. It is looked for among the products that the store
/// remembers, and made where it is not there.
pub fn multiply<S: Store>(
    alloc: Global,
    store: &mut S,
    a: Handle,
    b: Handle,
    charge: &mut u64,
) -> Result<Handle, EvalFault>
    requires a_known { IsKnown (S.view.known store.old) a }
    requires b_known { IsKnown (S.view.known store.old) b }
    requires room { charge.old + 1024 < 2 ^ 64 }
    ensures evaluates { (t u : Term) → Stands S.view store.old a t → Stands S.view store.old b u
        → Evaluates S.view (S.view.alphabet store.old) store.old store.new charge.old charge.new (product_of t u) result }
    ensures known { IfOk result (λ h. IsKnown (S.view.known store.new) h) }
    ensures keeps { Keeps (S.view.known store.old) (S.view.known store.new) }
    ensures continues { Continues S.view store.old store.new }
    ensures most { charge.new ≤ charge.old + 1024 }
{
    if let Some(h) = store.recall(a, b) {
        *charge += store.states(h) as u64;
        return Ok(h);
    }
    let m = product_machine(alloc, store, a, b)?;
    let h = enter(store, &m, charge)?;
    store.remember(a, b, h);
    Ok(h)
}

// The inverse of an element, as its machine gives it.
fn made_inverse<S: Store>(
    alloc: Global,
    store: &mut S,
    a: Handle,
    charge: &mut u64,
) -> Result<Handle, EvalFault>
    requires known { IsKnown (S.view.known store.old) a }
    requires room { charge.old + 1024 < 2 ^ 64 }
    ensures evaluates { (t : Term) → Stands S.view store.old a t
        → Evaluates S.view (S.view.alphabet store.old) store.old store.new charge.old charge.new (inverse_of t) result }
    ensures known { IfOk result (λ h. IsKnown (S.view.known store.new) h) }
    ensures keeps { Keeps (S.view.known store.old) (S.view.known store.new) }
    ensures continues { Continues S.view store.old store.new }
    ensures most { charge.new ≤ charge.old + 1024 }
{
    let m = store.machine(alloc, a)?;
    let inverses = m.inverse(alloc)?;
    // For the proof: both machines are minimal.
    let _first = m.machine();
    let _second = inverses.machine();
    enter(store, &inverses, charge)
}

/// The inverse of an element. It is looked for among the inverses that the store remembers, and made where it is not there.
pub fn invert<S: Store>(
    alloc: Global,
    store: &mut S,
    a: Handle,
    charge: &mut u64,
) -> Result<Handle, EvalFault>
    requires known { IsKnown (S.view.known store.old) a }
    requires room { charge.old + 1024 < 2 ^ 64 }
    ensures evaluates { (t : Term) → Stands S.view store.old a t
        → Evaluates S.view (S.view.alphabet store.old) store.old store.new charge.old charge.new (inverse_of t) result }
    ensures known { IfOk result (λ h. IsKnown (S.view.known store.new) h) }
    ensures keeps { Keeps (S.view.known store.old) (S.view.known store.new) }
    ensures continues { Continues S.view store.old store.new }
    ensures most { charge.new ≤ charge.old + 1024 }
{
    if let Some(h) = store.recall_inverse(a) {
        *charge += store.states(h) as u64;
        return Ok(h);
    }
    let h = made_inverse(alloc, store, a, charge)?;
    store.remember_inverse(a, h);
    Ok(h)
}

// The identity, as its machine gives it.
fn made_identity<S: Store>(
    alloc: Global,
    store: &mut S,
    charge: &mut u64,
) -> Result<Handle, EvalFault>
    requires room { charge.old + 1024 < 2 ^ 64 }
    ensures evaluates { Evaluates S.view (S.view.alphabet store.old) store.old store.new charge.old charge.new (step Identity) result }
    ensures known { IfOk result (λ h. IsKnown (S.view.known store.new) h) }
    ensures keeps { Keeps (S.view.known store.old) (S.view.known store.new) }
    ensures continues { Continues S.view store.old store.new }
    ensures most { charge.new ≤ charge.old + 1024 }
{
    let m = Minimal::identity(alloc, store.alphabet())?;
    enter(store, &m, charge)
}

/// The identity. It is made where the store does not remember it.
pub fn identity<S: Store>(
    alloc: Global,
    store: &mut S,
    charge: &mut u64,
) -> Result<Handle, EvalFault>
    requires room { charge.old + 1024 < 2 ^ 64 }
    ensures evaluates { Evaluates S.view (S.view.alphabet store.old) store.old store.new charge.old charge.new (step Identity) result }
    ensures known { IfOk result (λ h. IsKnown (S.view.known store.new) h) }
    ensures keeps { Keeps (S.view.known store.old) (S.view.known store.new) }
    ensures continues { Continues S.view store.old store.new }
    ensures most { charge.new ≤ charge.old + 1024 }
{
    if let Some(h) = store.recall_identity() {
        // It has one state.
        *charge += 1;
        return Ok(h);
    }
    let h = made_identity(alloc, store, charge)?;
    store.remember_identity(h);
    Ok(h)
}

/// The section of an element at a word over the store's alphabet. Nothing is claimed for it.
pub fn restrict<S: Store>(store: &mut S, a: Handle, w: &Word) -> Handle
    requires known { IsKnown (S.view.known store.old) a }
    requires word { IsWord (S.view.alphabet store.old) w.now }
    ensures section { (t : Term) → Stands S.view store.old a t → Stands S.view store.new result (Section t w.now) }
    ensures known { IsKnown (S.view.known store.new) result }
    ensures reads { Reads S.view store.old store.new }
{
    let mut h = a;
    for x in w.letters() {
        h = store.section(h, *x);
    }
    h
}
