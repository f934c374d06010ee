//! Definitions: names for elements.

ghost use Rattle.std.specs.Prelude.{◌+◌, ◌⊎◌, ◌≤◌, ◌^◌};
ghost use Rattle.fr_syntax.specs.Fits.{FitsExpr, FitsRecursions, FitsStatement};
ghost use Rattle.fr_syntax.specs.Sizes.{expr_size, statement_size};
ghost use Rattle.fr_syntax.specs.declared.statement.Statement.TheVariants as st;
ghost use Rattle.fr_store.specs.Store.{Keeps, Continues};
ghost use Rattle.fr_plain.specs.Scopes.{Scope};
ghost use Rattle.fr_plain.specs.Beginnings.{IsAsk};
ghost use Rattle.fr_expr.specs.Names.{AreNames};
ghost use Rattle.fr_expr.specs.Tables.{names_in};
ghost use Rattle.fr_eval.specs.Bindings.{AreAllKnown, AreAbove, AddsAt, Binds, SameNames};
ghost use Rattle.fr_eval.specs.Telling.{Defines, IsFine};

use crate::block::block_of;
use crate::ends::{LineEnd, Stop};
use crate::entering::enter_names;
use crate::finish::{end_with, refuse};
use crate::names::checked_places;
use fr_block::Elements;
use fr_expr::{Env, eval};
use fr_store::Store;
use fr_syntax::{Expr, Recursion, Statement};
use std::alloc::Global;

/// Evaluates a definition that stands at a line, from 1, below all that is bound: `alphabet`, `group` or `let`. Each name
/// that it defines is bound once, at the line, or the fault of the line is appended to `out` and nothing is bound.
///
/// Each element that is made is entered in the store, and its charge is added to `charge`.
///
/// Errors: `Full` where the first step that was not finished has an element that the store does not know and has no room
/// for; `NoMemory`. After either nothing is bound, and nothing appended.
pub fn define<S: Store>(
    alloc: Global,
    store: &mut S,
    env: &mut Env,
    line: u32,
    statement: &Statement,
    out: &mut Vec<u8>,
    charge: &mut u64,
) -> Result<LineEnd, Stop>
    requires defines { ¬ IsAsk statement.now }
    requires fits { FitsStatement (S.view.alphabet store.old) line 4096 statement.now }
    requires size { statement_size statement.now ≤ 4096 }
    requires line { 1 ≤ line }
    requires above { AreAbove line (names_in env.old) }
    requires known { AreAllKnown (S.view.known store.old) (names_in env.old) }
    requires charge { charge.old ≤ 2 ^ 62 }
    ensures defines { (scope : Scope) → AreNames (S.view.alphabet store.old) (S.view.known store.old) (names_in env.old) line scope
        → Defines S.view (S.view.alphabet store.old) line scope statement.now store.old store.new charge.old charge.new (names_in env.new) out.old.items out.new.items result }
    ensures binds { (scope : Scope) → AreNames (S.view.alphabet store.old) (S.view.known store.old) (names_in env.old) line scope → IsFine result
        → Binds (S.view.alphabet store.old) (S.view.known store.new) line scope statement.now (names_in env.old) (names_in env.new) }
    ensures adds { AddsAt line (names_in env.old) (names_in env.new) }
    ensures bound { IsFine result ⊎ SameNames (names_in env.old) (names_in env.new) }
    ensures known { AreAllKnown (S.view.known store.new) (names_in env.new) }
    ensures keeps { Keeps (S.view.known store.old) (S.view.known store.new) }
    ensures continues { Continues S.view store.old store.new }
    ensures most { charge.new ≤ charge.old + 2 ^ 57 }
{
    match statement {
        Statement::Alphabet(_) => Ok(LineEnd::Fine),
        Statement::Group(block) => {
            define_group(alloc, store, env, line, block.as_slice(), out, charge)
        }
        Statement::Let(name, e) => {
            define_name(alloc, store, env, line, name.bytes(), e, out, charge)
        }
        _ => unreachable!(),
    }
}

// Binds a name at a line to the element of an expression.
fn define_name<S: Store>(
    alloc: Global,
    store: &mut S,
    env: &mut Env,
    line: u32,
    name: &[u8],
    e: &Expr,
    out: &mut Vec<u8>,
    charge: &mut u64,
) -> Result<LineEnd, Stop>
    requires fits { FitsExpr (S.view.alphabet store.old) e.now }
    requires size { expr_size e.now ≤ 4096 }
    requires above { AreAbove line (names_in env.old) }
    requires known { AreAllKnown (S.view.known store.old) (names_in env.old) }
    requires charge { charge.old ≤ 2 ^ 62 }
    ensures defines { (scope : Scope) → AreNames (S.view.alphabet store.old) (S.view.known store.old) (names_in env.old) line scope
        → Defines S.view (S.view.alphabet store.old) line scope (st.Let name.now e.now) store.old store.new charge.old charge.new (names_in env.new) out.old.items out.new.items result }
    ensures binds { (scope : Scope) → AreNames (S.view.alphabet store.old) (S.view.known store.old) (names_in env.old) line scope → IsFine result
        → Binds (S.view.alphabet store.old) (S.view.known store.new) line scope (st.Let name.now e.now) (names_in env.old) (names_in env.new) }
    ensures adds { AddsAt line (names_in env.old) (names_in env.new) }
    ensures bound { IsFine result ⊎ SameNames (names_in env.old) (names_in env.new) }
    ensures known { AreAllKnown (S.view.known store.new) (names_in env.new) }
    ensures keeps { Keeps (S.view.known store.old) (S.view.known store.new) }
    ensures continues { Continues S.view store.old store.new }
    ensures most { charge.new ≤ charge.old + 2 ^ 57 }
{
    match eval(alloc, store, env, line, e, charge) {
        Ok(handle) => {
            env.bind(alloc, line, name, handle)?;
            Ok(LineEnd::Fine)
        }
        Err(fault) => end_with(line, fault, out),
    }
}

// Binds the names of a block at a line to their elements.
fn define_group<S: Store>(
    alloc: Global,
    store: &mut S,
    env: &mut Env,
    line: u32,
    block: &[Recursion],
    out: &mut Vec<u8>,
    charge: &mut u64,
) -> Result<LineEnd, Stop>
    requires fits { FitsRecursions (S.view.alphabet store.old) line 4096 block.now }
    requires line { 1 ≤ line }
    requires above { AreAbove line (names_in env.old) }
    requires known { AreAllKnown (S.view.known store.old) (names_in env.old) }
    requires charge { charge.old ≤ 2 ^ 62 }
    ensures defines { (scope : Scope) → AreNames (S.view.alphabet store.old) (S.view.known store.old) (names_in env.old) line scope
        → Defines S.view (S.view.alphabet store.old) line scope (st.Group block.now) store.old store.new charge.old charge.new (names_in env.new) out.old.items out.new.items result }
    ensures binds { (scope : Scope) → AreNames (S.view.alphabet store.old) (S.view.known store.old) (names_in env.old) line scope → IsFine result
        → Binds (S.view.alphabet store.old) (S.view.known store.new) line scope (st.Group block.now) (names_in env.old) (names_in env.new) }
    ensures adds { AddsAt line (names_in env.old) (names_in env.new) }
    ensures bound { IsFine result ⊎ SameNames (names_in env.old) (names_in env.new) }
    ensures known { AreAllKnown (S.view.known store.new) (names_in env.new) }
    ensures keeps { Keeps (S.view.known store.old) (S.view.known store.new) }
    ensures continues { Continues S.view store.old store.new }
    ensures most { charge.new ≤ charge.old + 2 ^ 57 }
{
    let places = match checked_places(alloc, block)? {
        Ok(places) => places,
        Err(fault) => return refuse(fault, out),
    };
    let elements = Elements::new(alloc, block_of(alloc, store.alphabet(), &places, block)?)?;
    let mut handles = Vec::new(alloc);
    match enter_names(alloc, store, &elements, &mut handles, charge) {
        Ok(()) => {
            env.bind_block(alloc, line, block, &handles)?;
            Ok(LineEnd::Fine)
        }
        Err(fault) => end_with(block[handles.len()].line, fault, out),
    }
}
