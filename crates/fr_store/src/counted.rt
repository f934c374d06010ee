//! A store that counts how often machines are made again from it.

ghost use Rattle.std.specs.Prelude.{◌≡◌, ◌+◌, ◌-◌, ◌^◌, min, IfOk};
ghost use Rattle.fr_model.specs.Terms.{Term, IsAlike};
ghost use Rattle.fr_model.specs.Canonical.{IsCanonical};
ghost use Rattle.fr_machine.specs.Rows.{row_term, states_of};
ghost use Rattle.fr_store.specs.Store.{IsKnown, Stands, AreHandles, Reads};

use crate::handle::{Full, Handle};
use crate::store::Store;
use fr_alphabet::{Alphabet, NoMemory, Perm};
use fr_machine::Minimal;
use std::alloc::Global;

/// A store that is another in all that contracts see, and counts the calls of `machine`, for tests that a caller makes no
/// machine twice. This project's own.
#[derive(Debug, Drop)]
pub struct Counted<S> {
    inner: S,
    built: u64,
}

impl<S> Counted<S> {
    /// The store, of which no machine was asked for.
    pub fn new(inner: S) -> Counted<S>
        ensures inner { result.inner ≡ inner }
        ensures built { result.built ≡ 0 }
    {
        Counted { inner, built: 0 }
    }

    /// How many calls of `machine` there were, at most 2^64 - 1.
    pub fn built(&self) -> u64
        ensures { result ≡ self.now.built }
    {
        self.built
    }

    /// The store inside.
    pub fn into_inner(self) -> S
        ensures { result ≡ self.inner }
    {
        self.inner
    }
}

impl<S: Store> Store for Counted<S> {
    ghost use Rattle.fr_store.specs.Through.{through};

    ghost view = { through (λ w. w.inner) S.view };

    ghost kin_to_self = { λ s. S.kin_to_self s.inner };

    ghost kin_onward = { λ s t u. S.kin_onward s.inner t.inner u.inner };

    fn alphabet(&self) -> Alphabet {
        self.inner.alphabet()
    }

    fn capacity(&self) -> u64 {
        self.inner.capacity()
    }

    fn intern(&mut self, m: &Minimal) -> Result<Handle, Full> {
        self.inner.intern(m)
    }

    fn equal(&self, a: Handle, b: Handle) -> bool {
        self.inner.equal(a, b)
    }

    fn output(&mut self, h: Handle) -> Perm {
        self.inner.output(h)
    }

    fn section(&mut self, h: Handle, x: u8) -> Handle {
        self.inner.section(h, x)
    }

    fn states(&mut self, h: Handle) -> u16 {
        self.inner.states(h)
    }

    /// The machine of the element, as `Store` has it; the call is counted.
    fn machine(&mut self, alloc: Global, h: Handle) -> Result<Minimal, NoMemory>
        requires { IsKnown (S.view.known self.old.inner) h }
        ensures built { self.new.built ≡ min (self.old.built + 1) (2 ^ 64 - 1) }
        ensures alphabet { IfOk result (λ m. m.alphabet ≡ S.view.alphabet self.old.inner) }
        ensures canonical { IfOk result (λ m. (t : Term) → Stands S.view self.old.inner h t → IsCanonical (S.view.alphabet self.old.inner) t (states_of m.rows)) }
        ensures alike { IfOk result (λ m. (t : Term) → Stands S.view self.old.inner h t → IsAlike (row_term m.rows 0) t) }
        ensures handles { AreHandles (S.view.alphabet self.old.inner) (S.view.known self.new.inner) }
        ensures reads { Reads (through (λ w. w.inner) S.view) self.old self.new }
    {
        self.built = self.built.saturating_add(1);
        self.inner.machine(alloc, h)
    }

    fn recall(&mut self, a: Handle, b: Handle) -> Option<Handle> {
        self.inner.recall(a, b)
    }

    fn remember(&mut self, a: Handle, b: Handle, c: Handle) {
        self.inner.remember(a, b, c);
    }

    fn recall_inverse(&mut self, a: Handle) -> Option<Handle> {
        self.inner.recall_inverse(a)
    }

    fn remember_inverse(&mut self, a: Handle, b: Handle) {
        self.inner.remember_inverse(a, b);
    }

    fn recall_identity(&mut self) -> Option<Handle> {
        self.inner.recall_identity()
    }

    fn remember_identity(&mut self, h: Handle) {
        self.inner.remember_identity(h);
    }
}
