//! What a store does. A contract sees a store through one record of functions of its value.

ghost use Rattle.std.specs.Prelude.{ℕ, ◌≡◌, ◌≤◌, ◌+◌, ◌*◌, ◌↔◌, [], ◌∷◌, IsTrue, IfOk, IfErr, IfSome, IfNone, length};
ghost use Rattle.fr_model.specs.Words.{IsLetter};
ghost use Rattle.fr_model.specs.Permutations.{IsPermutation, image};
ghost use Rattle.fr_model.specs.Terms.{Term, One, Inverse, Section, IsTerm, IsAlike, act};
ghost use Rattle.fr_model.specs.Classes.{IsSize};
ghost use Rattle.fr_model.specs.Canonical.{IsCanonical};
ghost use Rattle.fr_machine.specs.Rows.{row_term, states_of};
ghost use Rattle.fr_store.specs.Store.{View, IsKnown, Stands, StandsForTerm, AreHandles, Keeps, SameKnown, Continues, Interns, Reads, IsProductOf, IsRecalled, IsInverseOf, known_code};

use crate::handle::{Full, Handle};
use fr_alphabet::{Alphabet, NoMemory, Perm};
use fr_machine::Minimal;
use std::alloc::Global;

/// A store of elements over one alphabet. It gives a handle to each element that is interned, and to each of its sections,
/// and keeps it for good. How many rows may be claimed for them in all is fixed. Handles that are lent to a call have to be
/// known. Every call but `machine` takes no memory. This project's own, on the pattern of hash-consing.
pub trait Store {
    /// What contracts see of the store.
    ghost view: { View Self };

    /// The alphabet of its elements.
    fn alphabet(&self) -> Alphabet
        ensures { result ≡ view.alphabet self.now };

    /// How many rows may be claimed in all.
    fn capacity(&self) -> u64
        ensures { result ≡ view.capacity self.now };

    /// The handle of the element of `m`, which is over the store's alphabet; it is known from now on with its sections.
    ///
    /// Where a look-up meets the element, nothing is claimed; it meets each that is known. Else as many rows are claimed
    /// as `m` has. The error is `Full` exactly where they would pass the capacity; then nothing became known and nothing
    /// is claimed.
    fn intern(&mut self, m: &Minimal) -> Result<Handle, Full>
        requires { m.now.alphabet ≡ view.alphabet self.old }
        ensures outcome { (t : Term) → IsTerm (view.alphabet self.old) t → IsAlike (row_term m.now.rows 0) t → Interns view t (length m.now.rows) self.old self.new result }
        ensures known { IfOk result (λ h. IsKnown (view.known self.new) h) }
        ensures keeps { Keeps (view.known self.old) (view.known self.new) }
        ensures full { IfErr result (λ f. (f.asked ≡ length m.now.rows) × SameKnown (view.known self.old) (view.known self.new) × (view.own self.new ≡ view.own self.old)) }
        ensures handles { AreHandles (view.alphabet self.old) (view.known self.new) }
        ensures continues { Continues view self.old self.new };

    /// Whether the elements of two handles act alike.
    fn equal(&self, a: Handle, b: Handle) -> bool
        requires a_known { IsKnown (view.known self.now) a }
        requires b_known { IsKnown (view.known self.now) b }
        ensures codes { IsTrue result ↔ (known_code (view.known self.now) a ≡ known_code (view.known self.now) b) }
        ensures alike { (t u : Term) → Stands view self.now a t → Stands view self.now b u → IsTrue result ↔ IsAlike t u };

    /// The permutation of the letters that the element puts out (Nekrashevych, *Self-Similar Groups*, 1.3).
    fn output(&mut self, h: Handle) -> Perm
        requires { IsKnown (view.known self.old) h }
        ensures permutes { IsPermutation (view.alphabet self.old) result }
        ensures images { (t : Term) (x : ℕ) → Stands view self.old h t → IsLetter (view.alphabet self.old) x → act t (x ∷ []) ≡ image result x ∷ [] }
        ensures handles { AreHandles (view.alphabet self.old) (view.known self.new) }
        ensures reads { Reads view self.old self.new };

    /// The handle of the section at a letter (Nekrashevych, 1.3). Nothing is claimed for it.
    fn section(&mut self, h: Handle, x: u8) -> Handle
        requires known { IsKnown (view.known self.old) h }
        requires letter { IsLetter (view.alphabet self.old) x }
        ensures section { (t : Term) → Stands view self.old h t → StandsForTerm (view.alphabet self.old) (view.known self.new) result (Section t (x ∷ [])) }
        ensures known { IsKnown (view.known self.new) result }
        ensures handles { AreHandles (view.alphabet self.old) (view.known self.new) }
        ensures reads { Reads view self.old self.new };

    /// How many sections the element has, up to acting alike, itself among them: 1 to 1,024.
    fn states(&mut self, h: Handle) -> u16
        requires { IsKnown (view.known self.old) h }
        ensures size { (t : Term) → Stands view self.old h t → IsSize (view.alphabet self.old) t result }
        ensures most { result ≤ 1024 }
        ensures handles { AreHandles (view.alphabet self.old) (view.known self.new) }
        ensures reads { Reads view self.old self.new };

    /// The machine of the element, with its rows in the order of the canonical numbering. The only error is want of
    /// memory.
    fn machine(&mut self, alloc: Global, h: Handle) -> Result<Minimal, NoMemory>
        requires { IsKnown (view.known self.old) h }
        ensures alphabet { IfOk result (λ m. m.alphabet ≡ view.alphabet self.old) }
        ensures canonical { IfOk result (λ m. (t : Term) → Stands view self.old h t → IsCanonical (view.alphabet self.old) t (states_of m.rows)) }
        ensures alike { IfOk result (λ m. (t : Term) → Stands view self.old h t → IsAlike (row_term m.rows 0) t) }
        ensures handles { AreHandles (view.alphabet self.old) (view.known self.new) }
        ensures reads { Reads view self.old self.new };

    /// The handle of the product, first `a` and then `b`, where it is at hand; the product has at most 65,536 pairs.
    fn recall(&mut self, a: Handle, b: Handle) -> Option<Handle>
        requires a_known { IsKnown (view.known self.old) a }
        requires b_known { IsKnown (view.known self.old) b }
        ensures product { IfSome result (λ h. (t u : Term) → Stands view self.old a t → Stands view self.old b u → IsRecalled (view.alphabet self.old) t u (view.known self.old) (view.known self.new) h) }
        ensures handles { IfSome result (λ h. AreHandles (view.alphabet self.old) (view.known self.new)) }
        ensures known { IfSome result (λ h. IsKnown (view.known self.new) h) }
        ensures none { IfNone result (Reads view self.old self.new) }
        ensures keeps { Keeps (view.known self.old) (view.known self.new) }
        ensures own { view.own self.new ≡ view.own self.old }
        ensures continues { Continues view self.old self.new };

    /// Offers `c` as the handle of the product, first `a` and then `b`, which has at most 65,536 pairs; a store may keep
    /// it for a later `recall`.
    fn remember(&mut self, a: Handle, b: Handle, c: Handle)
        requires { IsProductOf (view.alphabet self.old) (view.known self.old) a b c }
        ensures { Reads view self.old self.new };

    /// The handle of the inverse of the element of `a`, where it is at hand, and None else. Nothing becomes known.
    fn recall_inverse(&mut self, a: Handle) -> Option<Handle>
        requires { IsKnown (view.known self.old) a }
        ensures inverse { IfSome result (λ h. (t : Term) → Stands view self.old a t → StandsForTerm (view.alphabet self.old) (view.known self.new) h (Inverse t)) }
        ensures known { IfSome result (λ h. IsKnown (view.known self.new) h) }
        ensures handles { AreHandles (view.alphabet self.old) (view.known self.new) }
        ensures reads { Reads view self.old self.new };

    /// Offers `b` as the handle of the inverse of `a`; a store may keep it for a later `recall_inverse`.
    fn remember_inverse(&mut self, a: Handle, b: Handle)
        requires { IsInverseOf (view.alphabet self.old) (view.known self.old) a b }
        ensures { Reads view self.old self.new };

    /// The handle of the identity, where it is at hand, and None else. Nothing becomes known.
    fn recall_identity(&mut self) -> Option<Handle>
        ensures identity { IfSome result (λ h. StandsForTerm (view.alphabet self.old) (view.known self.new) h One) }
        ensures reads { Reads view self.old self.new };

    /// Offers `h` as the handle of the identity; a store may keep it for a later `recall_identity`.
    fn remember_identity(&mut self, h: Handle)
        requires { StandsForTerm (view.alphabet self.old) (view.known self.old) h One }
        ensures { Reads view self.old self.new };

    ghost kin_to_self: { (s : Self) → view.kin s s };

    ghost kin_onward: { (s t u : Self) → view.kin s t → view.kin t u → view.kin s u };
}
