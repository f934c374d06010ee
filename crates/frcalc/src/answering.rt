//! The questions of a script, and the texts of all its items.

ghost use Rattle.std.specs.Prelude.{◌≡◌, ◌≤◌, ◌^◌, IfOk, IsErrOf};
ghost use Rattle.fr_script.specs.Fits.{FitsItem, FitsScript};
ghost use Rattle.fr_store.specs.Store.{Keeps, Continues};
ghost use Rattle.fr_store.specs.VecView.{vec_view};
ghost use Rattle.fr_plain.specs.Scopes.{Scope};
ghost use Rattle.fr_expr.specs.Names.{AreNames};
ghost use Rattle.fr_expr.specs.Tables.{names_in};
ghost use Rattle.fr_eval.specs.Bindings.{AreAllKnown};
ghost use Rattle.frcalc.specs.Evaluations.{IsEvaluation, IsDearer};
ghost use Rattle.frcalc.specs.Feeding.{IsFed, BindsUnlessReplied, TellsItem};
ghost use Rattle.fr_session.specs.Feeding.{BindsNothing};
ghost use Rattle.frcalc.specs.Items.{AnswersItem};
ghost use Rattle.frcalc.specs.declared.evaluation.EvaluationFault.TheVariants as fault;

use crate::evaluation::{Evaluation, EvaluationFault};
use crate::feeding::Fed;
use fr_eval::{Stop, ask};
use fr_expr::Env;
use fr_script::{Body, Item, Script, print_fault};
use fr_session::Reply;
use fr_store::{Store, VecStore};
use std::alloc::Global;

/// Answers the items of a script that were left out, and puts the texts of all its items in order of lines. `fed` are the
/// replies to the others, and `env` the names that they bound over the store.
///
/// Errors: `StatesPassed` only where the charge of the script is more than the limit; `NoMemory`.
pub fn answer_all(
    alloc: Global,
    store: &mut VecStore,
    env: &Env,
    script: &Script,
    fed: &Fed,
    limit: u32,
) -> Result<Evaluation, EvaluationFault>
    requires fits { FitsScript script.now }
    requires most { limit ≤ 1048576 }
    requires fed { IsFed script.now limit store.old (names_in env.now) fed.now }
    requires known { AreAllKnown (vec_view.known store.old) (names_in env.now) }
    ensures ok { IfOk result (IsEvaluation script.now limit) }
    ensures passed { IsErrOf result fault.StatesPassed → IsDearer script.now limit }
{
    let mut text = Vec::new(alloc);
    let mut refused = false;
    let mut charge = fed.charge;
    let items = script.items.as_slice();
    for k in 0..items.len() {
        let (item, reply) = (&items[k], &fed.replies[k]);
        refused |= answer_item(alloc, store, env, item, reply, &mut text, &mut charge)?;
        if charge > limit as u64 {
            return Err(EvaluationFault::StatesPassed);
        }
    }
    Ok(Evaluation {
        text,
        refused,
        charge,
        census: store.census(),
    })
}

// Appends the text of an item: its reply, or where there is none, its answer. Answers whether it has a fault.
fn answer_item<S: Store>(
    alloc: Global,
    store: &mut S,
    env: &Env,
    item: &Item,
    reply: &Option<Reply>,
    text: &mut Vec<u8>,
    charge: &mut u64,
) -> Result<bool, Stop>
    requires fits { FitsItem (S.view.alphabet store.old) 4096 item.now }
    requires binds { BindsUnlessReplied item.now.body reply.now }
    requires known { AreAllKnown (S.view.known store.old) (names_in env.now) }
    requires charge { charge.old ≤ 2 ^ 62 }
    ensures tells { TellsItem S.view item.now (names_in env.now) reply.now store.old store.new charge.old charge.new text.old.items text.new.items result }
    ensures keeps { Keeps (S.view.known store.old) (S.view.known store.new) }
    ensures continues { Continues S.view store.old store.new }
{
    match reply {
        Some(reply) => {
            text.extend_from_slice(&reply.text)
                .map_err(|_| Stop::NoMemory)?;
            Ok(reply.refused)
        }
        None => answer(alloc, store, env, item, text, charge),
    }
}

// Appends the answer to an item that was left out, or its fault. Answers whether it has one.
fn answer<S: Store>(
    alloc: Global,
    store: &mut S,
    env: &Env,
    item: &Item,
    text: &mut Vec<u8>,
    charge: &mut u64,
) -> Result<bool, Stop>
    requires fits { FitsItem (S.view.alphabet store.old) 4096 item.now }
    requires binds { BindsNothing item.now.body }
    requires known { AreAllKnown (S.view.known store.old) (names_in env.now) }
    requires charge { charge.old ≤ 2 ^ 62 }
    ensures answers { (scope : Scope) → AreNames (S.view.alphabet store.old) (S.view.known store.old) (names_in env.now) item.now.line scope
        → AnswersItem S.view (S.view.alphabet store.old) scope item.now store.old store.new charge.old charge.new text.old.items text.new.items result }
    ensures keeps { Keeps (S.view.known store.old) (S.view.known store.new) }
    ensures continues { Continues S.view store.old store.new }
{
    let told = item.body.read(alloc)?;
    match told.body() {
        Body::Says(statement) => {
            let end = ask(alloc, store, env, item.line, statement, text, charge)?;
            Ok(end.is_refused())
        }
        Body::Faulty(fault) => {
            print_fault(fault, text)?;
            Ok(true)
        }
    }
}
