//! The definitions of a script, which are fed to a session.

ghost use Rattle.std.specs.Prelude.{ℕ, List, ◌≡◌, ◌≤◌, ◌^◌, [], None, IfOk, IsErrOf};
ghost use Rattle.fr_script.specs.Fits.{FitsScript};
ghost use Rattle.fr_store.specs.Store.{Keeps, Continues};
ghost use Rattle.fr_store.specs.VecView.{vec_view};
ghost use Rattle.fr_plain.specs.Scopes.{Scope};
ghost use Rattle.fr_expr.specs.Names.{AreNames};
ghost use Rattle.fr_expr.specs.Tables.{names_in};
ghost use Rattle.fr_eval.specs.Bindings.{AreAbove, AddsAt};
ghost use Rattle.fr_session.specs.Feeding.{FitsFed};
ghost use Rattle.frcalc.specs.Evaluations.{IsDearer};
ghost use Rattle.frcalc.specs.Feeding.{FeedsItem, IsFed, charge_at};
ghost use Rattle.frcalc.specs.declared.evaluation.EvaluationFault.TheVariants as fault;

use crate::evaluation::EvaluationFault;
use fr_script::{Item, Script};
use fr_session::{Reply, Session, SessionFault};
use fr_store::{Store, VecStore};
use std::alloc::Global;

/// What a session replied to the items of a script.
#[derive(Drop)]
pub struct Fed {
    /// The reply to each item, in order of lines, and none where it was left out.
    pub replies: Vec<Option<Reply>>,
    /// What is charged for them together.
    pub charge: u64,
}

/// Feeds the items of a script to a new session, in order of lines, and leaves out those that ask. Its store has as many
/// rows as the limit of the charge says.
///
/// Errors: `StatesPassed` only where the charge of the script is more than the limit; `NoMemory`.
pub fn feed_all(
    alloc: Global,
    session: &mut Session<VecStore>,
    script: &Script,
    limit: u32,
) -> Result<Fed, EvaluationFault>
    requires fits { FitsScript script.now }
    requires most { limit ≤ 1048576 }
    requires alphabet { vec_view.alphabet session.old.store ≡ script.now.alphabet }
    requires capacity { vec_view.capacity session.old.store ≡ limit }
    requires unclaimed { vec_view.own session.old.store ≡ 0 }
    requires unknown { (n : ℕ) → vec_view.known session.old.store n ≡ None }
    requires unbound { (name : List ℕ) → names_in session.old.env name ≡ [] }
    ensures ok { IfOk result (λ fed. IsFed script.now limit session.new.store (names_in session.new.env) fed) }
    ensures passed { IsErrOf result fault.StatesPassed → IsDearer script.now limit }
{
    let mut replies = Vec::new(alloc);
    let mut charge = 0;
    for item in script.items.as_slice() {
        let reply = feed_item(session, item)?;
        charge += charge_of(&reply);
        if charge > limit as u64 {
            return Err(EvaluationFault::StatesPassed);
        }
        replies.push(reply)?;
    }
    Ok(Fed { replies, charge })
}

// Feeds an item to a session, and leaves it out where it asks.
fn feed_item<S: Store>(session: &mut Session<S>, item: &Item) -> Result<Option<Reply>, SessionFault>
    requires fits { FitsFed (S.view.alphabet session.old.store) item.now }
    requires line { 1 ≤ item.now.line }
    requires above { AreAbove item.now.line (names_in session.old.env) }
    ensures feeds { (scope : Scope) → AreNames (S.view.alphabet session.old.store) (S.view.known session.old.store) (names_in session.old.env) item.now.line scope
        → FeedsItem S.view (S.view.alphabet session.old.store) scope item.now session.old.store session.new.store (names_in session.new.env) result }
    ensures adds { AddsAt item.now.line (names_in session.old.env) (names_in session.new.env) }
    ensures keeps { Keeps (S.view.known session.old.store) (S.view.known session.new.store) }
    ensures continues { Continues S.view session.old.store session.new.store }
    ensures most { IfOk result (λ reply. charge_at reply ≤ 2 ^ 57) }
{
    if item.body.asks() {
        return Ok(None);
    }
    Ok(Some(session.feed(item)?))
}

// What is charged for a reply, and nothing where there is none.
fn charge_of(reply: &Option<Reply>) -> u64
    ensures { result ≡ charge_at reply.now }
{
    reply.as_ref().map_or(0, |reply| reply.charge)
}
