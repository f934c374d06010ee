//! The evaluation of expressions.

ghost use Rattle.std.specs.Prelude.{ℕ, [], ◌∷◌, ◌≡◌, ◌+◌, ◌*◌, ◌<◌, ◌≤◌, ◌^◌, IfOk};
ghost use Rattle.fr_syntax.specs.Fits.{FitsExpr, FitsFactors, FitsAtom, FitsOp};
ghost use Rattle.fr_syntax.specs.Sizes.{expr_size, factor_size, atom_size, op_size};
ghost use Rattle.fr_model.specs.Terms.{Term};
ghost use Rattle.fr_store.specs.Store.{IsKnown, Stands, Keeps, Continues};
ghost use Rattle.fr_plain.specs.Scopes.{Scope};
ghost use Rattle.fr_plain.specs.Expansions.{expansion, factor_expansion, atom_expansion, op_expansion};
ghost use Rattle.fr_expr.specs.Evaluation.{Evaluates};
ghost use Rattle.fr_expr.specs.Names.{AreNames, AreBound};
ghost use Rattle.fr_expr.specs.Tables.{names_in};

use crate::env::Env;
use crate::fault::EvalFault;
use crate::power::{commutator, conjugate, signed_power};
use crate::steps::{identity, multiply, restrict};
use fr_script::LineFault;
use fr_store::{Handle, Store};
use fr_syntax::{Atom, Expr, Factor, Op};
use sqlite_items::{Boxed, Items};
use std::alloc::Global;

/// The handle of the element of an expression that stands at a line.
///
/// Each value is entered in the store, operands before their operation and factors from left to right, and the charge of
/// each step is added to `charge`. The first step that is refused ends the evaluation, with its fault.
///
/// Errors: `Refused` exactly with the fault of the first step that is refused; `Full` where the first step that was not
/// finished has an element that the store does not know and has no room for; `NoMemory`.
pub fn eval<S: Store>(
    alloc: Global,
    store: &mut S,
    env: &Env,
    line: u32,
    e: &Expr,
    charge: &mut u64,
) -> Result<Handle, EvalFault>
    requires fits { FitsExpr (S.view.alphabet store.old) e.now }
    requires bound { AreBound (S.view.known store.old) (names_in env.now) line }
    requires room { charge.old + 2 ^ 44 * expr_size e.now < 2 ^ 64 }
    ensures evaluates { (scope : Scope) → AreNames (S.view.alphabet store.old) (S.view.known store.old) (names_in env.now) line scope
        → Evaluates S.view (S.view.alphabet store.old) store.old store.new charge.old charge.new (expansion scope e.now) result }
    ensures known { IfOk result (λ h. IsKnown (S.view.known store.new) h) }
    ensures keeps { Keeps (S.view.known store.old) (S.view.known store.new) }
    ensures continues { Continues S.view store.old store.new }
    ensures most { charge.new ≤ charge.old + 2 ^ 44 * expr_size e.now }
{
    eval_expr(alloc, store, env, line, e, charge)
}

// What eval does, with room for the charge of this expression alone.
#[cycle(expression)]
fn eval_expr<S: Store>(
    alloc: Global,
    store: &mut S,
    env: &Env,
    line: u32,
    e: &Expr,
    charge: &mut u64,
) -> Result<Handle, EvalFault>
    requires fits { FitsExpr (S.view.alphabet store.old) e.now }
    requires bound { AreBound (S.view.known store.old) (names_in env.now) line }
    requires room { charge.old + 2 ^ 44 * expr_size e.now < 2 ^ 64 }
    ensures evaluates { (scope : Scope) → AreNames (S.view.alphabet store.old) (S.view.known store.old) (names_in env.now) line scope
        → Evaluates S.view (S.view.alphabet store.old) store.old store.new charge.old charge.new (expansion scope e.now) result }
    ensures known { IfOk result (λ h. IsKnown (S.view.known store.new) h) }
    ensures keeps { Keeps (S.view.known store.old) (S.view.known store.new) }
    ensures continues { Continues S.view store.old store.new }
    ensures most { charge.new ≤ charge.old + 2 ^ 44 * expr_size e.now }
{
    let factors = e.factors.as_slice();
    let mut value = eval_factor(alloc, store, env, line, &factors[0], charge)?;
    for i in 1..factors.len() {
        let next = eval_factor(alloc, store, env, line, &factors[i], charge)?;
        value = multiply(alloc, store, value, next, charge)?;
    }
    Ok(value)
}

// A factor: its atom, and the operations after it from left to right. Its charge leaves room for one product.
#[cycle(expression)]
fn eval_factor<S: Store>(
    alloc: Global,
    store: &mut S,
    env: &Env,
    line: u32,
    f: &Factor,
    charge: &mut u64,
) -> Result<Handle, EvalFault>
    requires fits { FitsFactors (S.view.alphabet store.old) (f.now ∷ []) }
    requires bound { AreBound (S.view.known store.old) (names_in env.now) line }
    requires room { charge.old + 2 ^ 44 * factor_size f.now < 2 ^ 64 }
    ensures evaluates { (scope : Scope) → AreNames (S.view.alphabet store.old) (S.view.known store.old) (names_in env.now) line scope
        → Evaluates S.view (S.view.alphabet store.old) store.old store.new charge.old charge.new (factor_expansion scope f.now) result }
    ensures known { IfOk result (λ h. IsKnown (S.view.known store.new) h) }
    ensures keeps { Keeps (S.view.known store.old) (S.view.known store.new) }
    ensures continues { Continues S.view store.old store.new }
    ensures most { charge.new + 1024 ≤ charge.old + 2 ^ 44 * factor_size f.now }
{
    let mut value = eval_atom(alloc, store, env, line, &f.atom, charge)?;
    for op in f.ops.as_slice() {
        value = apply(alloc, store, env, line, value, op, charge)?;
    }
    Ok(value)
}

// An atom. Its charge leaves room for one product.
#[cycle(expression)]
fn eval_atom<S: Store>(
    alloc: Global,
    store: &mut S,
    env: &Env,
    line: u32,
    a: &Atom,
    charge: &mut u64,
) -> Result<Handle, EvalFault>
    requires fits { FitsAtom (S.view.alphabet store.old) a.now }
    requires bound { AreBound (S.view.known store.old) (names_in env.now) line }
    requires room { charge.old + 2 ^ 44 * atom_size a.now < 2 ^ 64 }
    ensures evaluates { (scope : Scope) → AreNames (S.view.alphabet store.old) (S.view.known store.old) (names_in env.now) line scope
        → Evaluates S.view (S.view.alphabet store.old) store.old store.new charge.old charge.new (atom_expansion scope a.now) result }
    ensures known { IfOk result (λ h. IsKnown (S.view.known store.new) h) }
    ensures keeps { Keeps (S.view.known store.old) (S.view.known store.new) }
    ensures continues { Continues S.view store.old store.new }
    ensures most { charge.new + 1024 ≤ charge.old + 2 ^ 44 * atom_size a.now }
{
    match a {
        Atom::One => identity(alloc, store, charge),
        Atom::Named(name) => match env.bound(name.bytes(), line) {
            Some(h) => Ok(h),
            None => Err(EvalFault::Refused(LineFault::UnknownName)),
        },
        Atom::Paren(e) => eval_expr(alloc, store, env, line, e, charge),
        Atom::Comm(left, right) => {
            let a = eval_expr(alloc, store, env, line, left.get(), charge)?;
            let b = eval_expr(alloc, store, env, line, right.get(), charge)?;
            commutator(alloc, store, a, b, charge)
        }
    }
}

// An operation on an element that is there.
#[cycle(expression)]
fn apply<S: Store>(
    alloc: Global,
    store: &mut S,
    env: &Env,
    line: u32,
    value: Handle,
    op: &Op,
    charge: &mut u64,
) -> Result<Handle, EvalFault>
    requires fits { FitsOp (S.view.alphabet store.old) op.now }
    requires known { IsKnown (S.view.known store.old) value }
    requires bound { AreBound (S.view.known store.old) (names_in env.now) line }
    requires room { charge.old + 2 ^ 44 * op_size op.now < 2 ^ 64 }
    ensures evaluates { (scope : Scope) (t : Term) → AreNames (S.view.alphabet store.old) (S.view.known store.old) (names_in env.now) line scope → Stands S.view store.old value t
        → Evaluates S.view (S.view.alphabet store.old) store.old store.new charge.old charge.new (op_expansion scope op.now t) result }
    ensures known { IfOk result (λ h. IsKnown (S.view.known store.new) h) }
    ensures keeps { Keeps (S.view.known store.old) (S.view.known store.new) }
    ensures continues { Continues S.view store.old store.new }
    ensures most { charge.new ≤ charge.old + 2 ^ 44 * op_size op.now }
{
    match op {
        Op::Power { negative, k } => signed_power(alloc, store, value, *negative, *k, charge),
        Op::Conj(a) => {
            let by = eval_atom(alloc, store, env, line, a, charge)?;
            conjugate(alloc, store, value, by, charge)
        }
        Op::At(w) => Ok(restrict(store, value, w)),
    }
}
