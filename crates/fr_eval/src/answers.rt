//! The answers of statements that ask.

ghost use Rattle.std.specs.Prelude.{ℕ, ◌≡◌, ◌+◌, ◌*◌, ◌≤◌, ◌^◌, IfOk, length};
ghost use Rattle.std.specs.List.{All};
ghost use Rattle.fr_syntax.specs.Fits.{FitsStatement, FitsExprs};
ghost use Rattle.fr_syntax.specs.Sizes.{statement_size, exprs_size};
ghost use Rattle.fr_store.specs.Store.{IsKnown, Keeps, Continues};
ghost use Rattle.fr_plain.specs.Scopes.{Scope};
ghost use Rattle.fr_plain.specs.Expansions.{expansions};
ghost use Rattle.fr_plain.specs.Beginnings.{IsAsk};
ghost use Rattle.fr_expr.specs.Names.{AreNames};
ghost use Rattle.fr_expr.specs.Tables.{names_in};
ghost use Rattle.fr_eval.specs.Bindings.{AreAllKnown};
ghost use Rattle.fr_eval.specs.Telling.{Answers};
ghost use Rattle.fr_eval.specs.Concluding.{Answered, IsOfMore, EvaluatesAll};

use crate::differences::compare;
use crate::ends::{LineEnd, Stop};
use crate::finish::{append, end_with};
use crate::nucleus::nucleus_of;
use crate::order::order;
use crate::texts::{growth, image, ray_image, show, states, wreath};
use fr_expr::{Env, EvalFault, eval};
use fr_store::{Handle, Store};
use fr_syntax::{Expr, Statement};
use std::alloc::Global;

/// Answers a statement that asks and stands at a line: what it asks is appended to `out`, or the fault of the line.
///
/// Its expressions see the bindings of `env` above the line. Each element that is made is entered in the store, and its
/// charge is added to `charge`.
///
/// Errors: `Full` where the first step that was not finished has an element that the store does not know and has no room
/// for; `NoMemory`. After either nothing is appended.
pub fn ask<S: Store>(
    alloc: Global,
    store: &mut S,
    env: &Env,
    line: u32,
    statement: &Statement,
    out: &mut Vec<u8>,
    charge: &mut u64,
) -> Result<LineEnd, Stop>
    requires asks { IsAsk statement.now }
    requires fits { FitsStatement (S.view.alphabet store.old) line 4096 statement.now }
    requires size { statement_size statement.now ≤ 4096 }
    requires known { AreAllKnown (S.view.known store.old) (names_in env.now) }
    requires charge { charge.old ≤ 2 ^ 62 }
    ensures answers { (scope : Scope) → AreNames (S.view.alphabet store.old) (S.view.known store.old) (names_in env.now) line scope
        → Answers S.view (S.view.alphabet store.old) line scope statement.now store.old store.new charge.old charge.new out.old.items out.new.items result }
    ensures keeps { Keeps (S.view.known store.old) (S.view.known store.new) }
    ensures continues { Continues S.view store.old store.new }
    ensures most { charge.new ≤ charge.old + 2 ^ 57 }
{
    let mut text = Vec::new(alloc);
    match answer(alloc, store, env, line, statement, &mut text, charge) {
        Ok(()) => {
            append(text, out)?;
            Ok(LineEnd::Fine)
        }
        Err(fault) => end_with(line, fault, out),
    }
}

// The answer of a statement, whose fault is not printed yet. Where memory runs out, a part of it may stand there.
fn answer<S: Store>(
    alloc: Global,
    store: &mut S,
    env: &Env,
    line: u32,
    statement: &Statement,
    out: &mut Vec<u8>,
    charge: &mut u64,
) -> Result<(), EvalFault>
    requires asks { IsAsk statement.now }
    requires fits { FitsStatement (S.view.alphabet store.old) line 4096 statement.now }
    requires size { statement_size statement.now ≤ 4096 }
    requires known { AreAllKnown (S.view.known store.old) (names_in env.now) }
    requires charge { charge.old ≤ 2 ^ 62 }
    ensures answered { (scope : Scope) → AreNames (S.view.alphabet store.old) (S.view.known store.old) (names_in env.now) line scope
        → Answered S.view (S.view.alphabet store.old) line scope statement.now store.old store.new charge.old charge.new out.old.items out.new.items result }
    ensures keeps { Keeps (S.view.known store.old) (S.view.known store.new) }
    ensures continues { Continues S.view store.old store.new }
    ensures most { charge.new ≤ charge.old + 2 ^ 57 }
{
    match statement {
        Statement::Show(e) => {
            let h = eval(alloc, store, env, line, e, charge)?;
            show(alloc, store, h, out)?;
        }
        Statement::States(e) => {
            let h = eval(alloc, store, env, line, e, charge)?;
            states(store, h, out)?;
        }
        Statement::Wreath(e) => {
            let h = eval(alloc, store, env, line, e, charge)?;
            wreath(alloc, store, h, out)?;
        }
        Statement::ClassOf(e) => {
            let h = eval(alloc, store, env, line, e, charge)?;
            growth(alloc, store, h, out)?;
        }
        Statement::Act(e, w) => {
            let h = eval(alloc, store, env, line, e, charge)?;
            image(store, h, w, out)?;
        }
        _ => return answer_more(alloc, store, env, line, statement, out, charge),
    }
    Ok(())
}

// The same of the statements whose answers may be refused, or that ask of more than one element.
fn answer_more<S: Store>(
    alloc: Global,
    store: &mut S,
    env: &Env,
    line: u32,
    statement: &Statement,
    out: &mut Vec<u8>,
    charge: &mut u64,
) -> Result<(), EvalFault>
    requires asks { IsAsk statement.now }
    requires fits { FitsStatement (S.view.alphabet store.old) line 4096 statement.now }
    requires size { statement_size statement.now ≤ 4096 }
    requires known { AreAllKnown (S.view.known store.old) (names_in env.now) }
    requires charge { charge.old ≤ 2 ^ 62 }
    ensures answered { (scope : Scope) → AreNames (S.view.alphabet store.old) (S.view.known store.old) (names_in env.now) line scope → IsOfMore statement.now
        → Answered S.view (S.view.alphabet store.old) line scope statement.now store.old store.new charge.old charge.new out.old.items out.new.items result }
    ensures keeps { Keeps (S.view.known store.old) (S.view.known store.new) }
    ensures continues { Continues S.view store.old store.new }
    ensures most { charge.new ≤ charge.old + 2 ^ 57 }
{
    match statement {
        Statement::Eq(left, right) => {
            let a = eval(alloc, store, env, line, left, charge)?;
            let b = eval(alloc, store, env, line, right, charge)?;
            compare(alloc, store, a, b, out)?;
            Ok(())
        }
        Statement::RayOf(e, ray) => {
            let h = eval(alloc, store, env, line, e, charge)?;
            ray_image(alloc, store, h, ray, out)
        }
        Statement::Order(e, most) => {
            let h = eval(alloc, store, env, line, e, charge)?;
            order(alloc, store, h, *most, out, charge)
        }
        Statement::NucleusOf(es) => {
            let gens = eval_all(alloc, store, env, line, es.as_slice(), charge)?;
            nucleus_of(alloc, store, &gens, out, charge)
        }
        _ => Ok(()),
    }
}

// The handles of the elements of expressions, one after the other.
fn eval_all<S: Store>(
    alloc: Global,
    store: &mut S,
    env: &Env,
    line: u32,
    es: &[Expr],
    charge: &mut u64,
) -> Result<Vec<Handle>, EvalFault>
    requires fits { FitsExprs (S.view.alphabet store.old) es.now }
    requires size { exprs_size es.now ≤ 4096 }
    requires known { AreAllKnown (S.view.known store.old) (names_in env.now) }
    requires charge { charge.old ≤ 2 ^ 62 }
    ensures evaluates { (scope : Scope) → AreNames (S.view.alphabet store.old) (S.view.known store.old) (names_in env.now) line scope
        → EvaluatesAll S.view (S.view.alphabet store.old) store.old store.new charge.old charge.new (expansions scope es.now) result }
    ensures known { IfOk result (λ hs. All (IsKnown (S.view.known store.new)) hs.items) }
    ensures count { IfOk result (λ hs. length hs.items ≡ length es.now) }
    ensures keeps { Keeps (S.view.known store.old) (S.view.known store.new) }
    ensures continues { Continues S.view store.old store.new }
    ensures most { charge.new ≤ charge.old + 2 ^ 56 }
{
    let mut handles = Vec::with_capacity(alloc, es.len())?;
    for e in es {
        handles.push(eval(alloc, store, env, line, e, charge)?)?;
    }
    Ok(handles)
}
