//! Sessions.

ghost use Rattle.std.specs.Prelude.{ℕ, List, ◌≡◌, ◌≤◌, ◌^◌, [], IfOk, IfErr, true};
ghost use Rattle.fr_store.specs.Store.{Keeps, Continues};
ghost use Rattle.fr_plain.specs.Scopes.{Scope};
ghost use Rattle.fr_expr.specs.Names.{AreNames};
ghost use Rattle.fr_expr.specs.Tables.{names_in};
ghost use Rattle.fr_eval.specs.Bindings.{AreAllKnown, AreAbove, AddsAt, SameNames};

use crate::fault::SessionFault;
use crate::statement::evaluate;
use fr_alphabet::NoMemory;
use fr_expr::Env;
use fr_script::{Body, Item, print_fault};
use fr_store::Store;
use std::alloc::Global;

/// What an item gives.
#[derive(Debug, Drop)]
pub struct Reply {
    /// Its answer, which is empty for a definition, or the fault of its line.
    pub text: Vec<u8>,
    /// What is charged for the steps that it evaluated.
    pub charge: u64,
    /// Whether its line has a fault.
    pub refused: bool,
}

/// A store, and the names that are bound over it. Items are fed to it in order of lines. This project's own.
#[derive(Drop)]
pub struct Session<S: Store> {
    alloc: Global,
    store: S,
    env: Env,
    ghost known: { AreAllKnown (S.view.known store) (names_in env) },
}

impl<S: Store> Session<S> {
    ghost use Rattle.fr_session.specs.Feeding.{FitsFed, BindsNothing, Feeds};

    /// A session over a store, in which no name is bound. The only error is want of memory; then the store is given up.
    pub fn new(alloc: Global, store: S) -> Result<Session<S>, NoMemory>
        ensures store { IfOk result (λ s. s.store ≡ store) }
        ensures unbound { IfOk result (λ s. (name : List ℕ) → names_in s.env name ≡ []) }
    {
        Ok(Session {
            alloc,
            store,
            env: Env::new(alloc),
        })
    }

    /// Evaluates an item that stands at a line, from 1, below all that is bound: a definition binds its names at the line,
    /// and all else leaves the names as they are. The reply is that of the plain evaluation of the item.
    ///
    /// Errors: `Full` where the first step that was not finished has an element that the store does not know and has no
    /// room for; `NoMemory`. After either the names are as before.
    pub fn feed(&mut self, item: &Item) -> Result<Reply, SessionFault>
        requires fits { FitsFed (S.view.alphabet self.old.store) item.now }
        requires line { 1 ≤ item.now.line }
        requires above { AreAbove item.now.line (names_in self.old.env) }
        ensures feeds { (scope : Scope) → AreNames (S.view.alphabet self.old.store) (S.view.known self.old.store) (names_in self.old.env) item.now.line scope
            → Feeds S.view (S.view.alphabet self.old.store) scope item.now self.old.store self.new.store (names_in self.new.env) result }
        ensures adds { AddsAt item.now.line (names_in self.old.env) (names_in self.new.env) }
        ensures refused { IfOk result (λ r. r.refused ≡ true → SameNames (names_in self.old.env) (names_in self.new.env)) }
        ensures stopped { IfErr result (λ e. SameNames (names_in self.old.env) (names_in self.new.env)) }
        ensures binds { BindsNothing item.now.body → SameNames (names_in self.old.env) (names_in self.new.env) }
        ensures keeps { Keeps (S.view.known self.old.store) (S.view.known self.new.store) }
        ensures continues { Continues S.view self.old.store self.new.store }
        ensures most { IfOk result (λ r. r.charge ≤ 2 ^ 57) }
    {
        let told = item.body.read(self.alloc)?;
        let mut text = Vec::new(self.alloc);
        match told.body() {
            Body::Faulty(fault) => {
                print_fault(fault, &mut text)?;
                Ok(Reply {
                    text,
                    charge: 0,
                    refused: true,
                })
            }
            Body::Says(statement) => {
                let mut charge = 0;
                let end = evaluate(
                    self.alloc,
                    &mut self.store,
                    &mut self.env,
                    item.line,
                    statement,
                    &mut text,
                    &mut charge,
                )?;
                Ok(Reply {
                    text,
                    charge,
                    refused: end.is_refused(),
                })
            }
        }
    }

    /// The names that are bound.
    pub fn env(&self) -> &Env
        ensures { result.now ≡ self.now.env }
    {
        &self.env
    }

    /// The store.
    pub fn store(&self) -> &S
        ensures { result.now ≡ self.now.store }
    {
        &self.store
    }

    /// The store, which knows the handles of all names, and the names.
    pub fn into_parts(self) -> (S, Env)
        ensures store { result.0 ≡ self.store }
        ensures env { result.1 ≡ self.env }
        ensures known { AreAllKnown (S.view.known result.0) (names_in result.1) }
    {
        (self.store, self.env)
    }
}
