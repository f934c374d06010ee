//! Powers, conjugates and commutators, as steps of an evaluation.

ghost use Rattle.std.specs.Prelude.{◌≡◌, ◌+◌, ◌*◌, ◌<◌, ◌≤◌, ◌^◌, IfOk};
ghost use Rattle.fr_model.specs.Terms.{Term};
ghost use Rattle.fr_store.specs.Store.{IsKnown, Stands, Keeps, Continues};
ghost use Rattle.fr_plain.specs.Expansions.{power_of, signed_power, conjugate_of, commutator_of};
ghost use Rattle.fr_expr.specs.Evaluation.{Evaluates};

use crate::fault::EvalFault;
use crate::steps::{identity, invert, multiply};
use fr_store::{Handle, Store};
use std::alloc::Global;

// The power of an element with an exponent k > 0, by squaring: that of k / 2 is made once.
fn power<S: Store>(
    alloc: Global,
    store: &mut S,
    a: Handle,
    k: u32,
    charge: &mut u64,
) -> Result<Handle, EvalFault>
    requires known { IsKnown (S.view.known store.old) a }
    requires least { 1 ≤ k }
    requires room { charge.old + 2048 * k < 2 ^ 64 }
    ensures evaluates { (t : Term) → Stands S.view store.old a t
        → Evaluates S.view (S.view.alphabet store.old) store.old store.new charge.old charge.new (power_of t k) result }
    ensures known { IfOk result (λ h. IsKnown (S.view.known store.new) h) }
    ensures keeps { Keeps (S.view.known store.old) (S.view.known store.new) }
    ensures continues { Continues S.view store.old store.new }
    ensures most { charge.new ≤ charge.old + 2048 * k }
{
    if k == 1 {
        return Ok(a);
    }
    let half = power(alloc, store, a, k / 2, charge)?;
    let square = multiply(alloc, store, half, half, charge)?;
    if k % 2 == 0 {
        return Ok(square);
    }
    multiply(alloc, store, square, a, charge)
}

/// The power of an element with the exponent k, or -k where that is asked for. With the exponent 0 it is the identity.
pub fn signed_power<S: Store>(
    alloc: Global,
    store: &mut S,
    a: Handle,
    negative: bool,
    k: u32,
    charge: &mut u64,
) -> Result<Handle, EvalFault>
    requires known { IsKnown (S.view.known store.old) a }
    requires room { charge.old + 2 ^ 44 < 2 ^ 64 }
    ensures evaluates { (t : Term) → Stands S.view store.old a t
        → Evaluates S.view (S.view.alphabet store.old) store.old store.new charge.old charge.new (signed_power negative k t) result }
    ensures known { IfOk result (λ h. IsKnown (S.view.known store.new) h) }
    ensures keeps { Keeps (S.view.known store.old) (S.view.known store.new) }
    ensures continues { Continues S.view store.old store.new }
    ensures most { charge.new ≤ charge.old + 2 ^ 44 }
{
    if k == 0 {
        return identity(alloc, store, charge);
    }
    if negative {
        let inverse = invert(alloc, store, a, charge)?;
        return power(alloc, store, inverse, k, charge);
    }
    power(alloc, store, a, k, charge)
}

/// The conjugate of an element `a` by `b`, which is the inverse of `b`, then `a`, then `b`.
pub fn conjugate<S: Store>(
    alloc: Global,
    store: &mut S,
    a: Handle,
    b: Handle,
    charge: &mut u64,
) -> Result<Handle, EvalFault>
    requires a_known { IsKnown (S.view.known store.old) a }
    requires b_known { IsKnown (S.view.known store.old) b }
    requires room { charge.old + 4096 < 2 ^ 64 }
    ensures evaluates { (t u : Term) → Stands S.view store.old a t → Stands S.view store.old b u
        → Evaluates S.view (S.view.alphabet store.old) store.old store.new charge.old charge.new (conjugate_of t u) result }
    ensures known { IfOk result (λ h. IsKnown (S.view.known store.new) h) }
    ensures keeps { Keeps (S.view.known store.old) (S.view.known store.new) }
    ensures continues { Continues S.view store.old store.new }
    ensures most { charge.new ≤ charge.old + 4096 }
{
    let inverse = invert(alloc, store, b, charge)?;
    let first = multiply(alloc, store, inverse, a, charge)?;
    multiply(alloc, store, first, b, charge)
}

/// The commutator of two elements: the inverse of `a`, that of `b`, then `a`, then `b`.
pub fn commutator<S: Store>(
    alloc: Global,
    store: &mut S,
    a: Handle,
    b: Handle,
    charge: &mut u64,
) -> Result<Handle, EvalFault>
    requires a_known { IsKnown (S.view.known store.old) a }
    requires b_known { IsKnown (S.view.known store.old) b }
    requires room { charge.old + 8192 < 2 ^ 64 }
    ensures evaluates { (t u : Term) → Stands S.view store.old a t → Stands S.view store.old b u
        → Evaluates S.view (S.view.alphabet store.old) store.old store.new charge.old charge.new (commutator_of t u) result }
    ensures known { IfOk result (λ h. IsKnown (S.view.known store.new) h) }
    ensures keeps { Keeps (S.view.known store.old) (S.view.known store.new) }
    ensures continues { Continues S.view store.old store.new }
    ensures most { charge.new ≤ charge.old + 8192 }
{
    let left = invert(alloc, store, a, charge)?;
    let right = invert(alloc, store, b, charge)?;
    let both = multiply(alloc, store, left, right, charge)?;
    let first = multiply(alloc, store, both, a, charge)?;
    multiply(alloc, store, first, b, charge)
}
