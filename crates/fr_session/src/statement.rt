//! Statements of every kind, over a store and names that are lent.

ghost use Rattle.std.specs.Prelude.{◌≡◌, ◌⊎◌, ◌≤◌, ◌+◌, ◌^◌};
ghost use Rattle.fr_syntax.specs.Fits.{FitsStatement};
ghost use Rattle.fr_syntax.specs.Sizes.{statement_size};
ghost use Rattle.fr_store.specs.Store.{Keeps, Continues};
ghost use Rattle.fr_plain.specs.Scopes.{Scope};
ghost use Rattle.fr_plain.specs.Beginnings.{IsAsk};
ghost use Rattle.fr_expr.specs.Names.{AreNames};
ghost use Rattle.fr_expr.specs.Tables.{names_in};
ghost use Rattle.fr_eval.specs.Bindings.{AreAllKnown, AreAbove, AddsAt, SameNames};
ghost use Rattle.fr_eval.specs.Telling.{Defines, IsFine};

use fr_eval::{LineEnd, Stop, ask, define};
use fr_expr::Env;
use fr_store::Store;
use fr_syntax::Statement;
use std::alloc::Global;

/// Evaluates a statement that stands at a line, from 1, below all that is bound.
///
/// Errors are those of `ask` and `define`; after them the names are as before.
pub fn evaluate<S: Store>(
    alloc: Global,
    store: &mut S,
    env: &mut Env,
    line: u32,
    statement: &Statement,
    text: &mut Vec<u8>,
    charge: &mut u64,
) -> Result<LineEnd, Stop>
    requires fits { FitsStatement (S.view.alphabet store.old) line 4096 statement.now }
    requires size { statement_size statement.now ≤ 4096 }
    requires line { 1 ≤ line }
    requires above { AreAbove line (names_in env.old) }
    requires known { AreAllKnown (S.view.known store.old) (names_in env.old) }
    requires charge { charge.old ≤ 2 ^ 62 }
    ensures defines { (scope : Scope) → AreNames (S.view.alphabet store.old) (S.view.known store.old) (names_in env.old) line scope
        → Defines S.view (S.view.alphabet store.old) line scope statement.now store.old store.new charge.old charge.new (names_in env.new) text.old.items text.new.items result }
    ensures adds { AddsAt line (names_in env.old) (names_in env.new) }
    ensures bound { IsFine result ⊎ SameNames (names_in env.old) (names_in env.new) }
    ensures asks { IsAsk statement.now → SameNames (names_in env.old) (names_in env.new) }
    ensures known { AreAllKnown (S.view.known store.new) (names_in env.new) }
    ensures keeps { Keeps (S.view.known store.old) (S.view.known store.new) }
    ensures continues { Continues S.view store.old store.new }
    ensures most { charge.new ≤ charge.old + 2 ^ 57 }
{
    match statement {
        Statement::Alphabet(_) | Statement::Group(_) | Statement::Let(_, _) => {
            define(alloc, store, env, line, statement, text, charge)
        }
        _ => ask(alloc, store, env, line, statement, text, charge),
    }
}
