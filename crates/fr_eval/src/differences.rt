//! Whether two elements are equal, and the least word that tells them apart.

ghost use Rattle.std.specs.Prelude.{ℕ, ◌≡◌, ◌<◌, ◌++◌, [], ◌∷◌, Some, IfNone, IfSome, OnOk, length};
ghost use Rattle.fr_model.specs.Words.{IsLetter, IsWord};
ghost use Rattle.fr_model.specs.Terms.{Term};
ghost use Rattle.fr_model.specs.Permutations.{image};
ghost use Rattle.fr_model.specs.Separation.{IsSeparatingWord};
ghost use Rattle.fr_machine.specs.Rows.{row_term};
ghost use Rattle.fr_minimal.specs.Searches.{IsLeastDifference};
ghost use Rattle.fr_store.specs.Store.{IsKnown, Stands, Reads};
ghost use Rattle.fr_plain.specs.Answers.{AnswersEq, comparison_text, line_of};
ghost use Rattle.fr_eval.specs.Concluding.{Prints};
ghost use Rattle.fr_eval.specs.Differences.{AgreeOn};

use crate::images::{push_digits, push_image};
use fr_alphabet::{NoMemory, Perm, Word, print_word};
use fr_machine::Minimal;
use fr_minimal::separate;
use fr_store::{Handle, Store};
use std::alloc::Global;

/// Appends whether two elements are equal, or else the shortlex least word at which their images differ, with both images.
pub fn compare<S: Store>(
    alloc: Global,
    store: &mut S,
    a: Handle,
    b: Handle,
    out: &mut Vec<u8>,
) -> Result<(), NoMemory>
    requires a_known { IsKnown (S.view.known store.old) a }
    requires b_known { IsKnown (S.view.known store.old) b }
    ensures text { OnOk result ((t u : Term) → Stands S.view store.old a t → Stands S.view store.old b u → Prints (AnswersEq (S.view.alphabet store.old) t u) out.old.items out.new.items) }
    ensures reads { Reads S.view store.old store.new }
{
    if store.equal(a, b) {
        out.extend_from_slice(b"equal\n")?;
        return Ok(());
    }
    match different_letter(store, a, b) {
        Some(x) => push_difference(store, a, b, &[x], out),
        None => compare_behind(alloc, store, a, b, out),
    }
}

// The same of elements that no letter tells apart.
fn compare_behind<S: Store>(
    alloc: Global,
    store: &mut S,
    a: Handle,
    b: Handle,
    out: &mut Vec<u8>,
) -> Result<(), NoMemory>
    requires a_known { IsKnown (S.view.known store.old) a }
    requires b_known { IsKnown (S.view.known store.old) b }
    ensures text { OnOk result ((t u : Term) → Stands S.view store.old a t → Stands S.view store.old b u → AgreeOn (S.view.alphabet store.old) t u 1 → Prints (AnswersEq (S.view.alphabet store.old) t u) out.old.items out.new.items) }
    ensures reads { Reads S.view store.old store.new }
{
    match different_pair(store, a, b) {
        Some(word) => push_difference(store, a, b, &word, out),
        // A longer word may tell them apart, and is found in their machines.
        None => compare_machines(alloc, store, a, b, out),
    }
}

// The least letter at which the images differ.
fn different_letter<S: Store>(store: &mut S, a: Handle, b: Handle) -> Option<u8>
    requires a_known { IsKnown (S.view.known store.old) a }
    requires b_known { IsKnown (S.view.known store.old) b }
    ensures letter { IfSome result (IsLetter (S.view.alphabet store.old)) }
    ensures separates { IfSome result (λ x. (t u : Term) → Stands S.view store.old a t → Stands S.view store.old b u → IsSeparatingWord (S.view.alphabet store.old) t u (x ∷ [])) }
    ensures none { IfNone result ((t u : Term) → Stands S.view store.old a t → Stands S.view store.old b u → AgreeOn (S.view.alphabet store.old) t u 1) }
    ensures reads { Reads S.view store.old store.new }
{
    let left = store.output(a);
    let right = store.output(b);
    different_image(left, right)
}

// The least letter that two permutations send to different letters.
fn different_image(p: Perm, q: Perm) -> Option<u8>
    requires { length p ≡ length q }
    ensures found { IfSome result (λ x. IsLeastDifference (length p) p q x) }
    ensures none { IfNone result ((x : ℕ) → IsLetter (length p) x → image p x ≡ image q x) }
{
    for x in 0..p.letters() {
        if p.apply(x + 1) != q.apply(x + 1) {
            return Some(x + 1);
        }
    }
    None
}

// The least word of two letters at which the images differ, of elements that no letter tells apart: its first letter is the
// least at which the sections differ so early. There is none where no word of two letters tells the elements apart.
fn different_pair<S: Store>(store: &mut S, a: Handle, b: Handle) -> Option<[u8; 2]>
    requires a_known { IsKnown (S.view.known store.old) a }
    requires b_known { IsKnown (S.view.known store.old) b }
    ensures word { IfSome result (IsWord (S.view.alphabet store.old)) }
    ensures separates { IfSome result (λ w. (t u : Term) → Stands S.view store.old a t → Stands S.view store.old b u → AgreeOn (S.view.alphabet store.old) t u 1 → IsSeparatingWord (S.view.alphabet store.old) t u w) }
    ensures none { IfNone result ((t u : Term) → Stands S.view store.old a t → Stands S.view store.old b u → AgreeOn (S.view.alphabet store.old) t u 1 → AgreeOn (S.view.alphabet store.old) t u 2) }
    ensures reads { Reads S.view store.old store.new }
{
    let letters = store.alphabet().letters();
    for x in 1..letters + 1 {
        let p = store.section(a, x);
        let q = store.section(b, x);
        if let Some(y) = different_letter(store, p, q) {
            return Some([x, y]);
        }
    }
    None
}

// Appends a word at which the images differ, with both images. Where memory runs out, a part of it may stand there.
fn push_difference<S: Store>(
    store: &mut S,
    a: Handle,
    b: Handle,
    word: &[u8],
    out: &mut Vec<u8>,
) -> Result<(), NoMemory>
    requires a_known { IsKnown (S.view.known store.old) a }
    requires b_known { IsKnown (S.view.known store.old) b }
    requires word { IsWord (S.view.alphabet store.old) word.now }
    requires some { 0 < length word.now }
    ensures text { OnOk result ((t u : Term) → Stands S.view store.old a t → Stands S.view store.old b u → out.new.items ≡ out.old.items ++ line_of (comparison_text t u (Some word.now))) }
    ensures reads { Reads S.view store.old store.new }
{
    // For the proof: the store's letters are at most 8.
    let _most = store.alphabet().letters();
    out.extend_from_slice(b"differ at ")?;
    push_digits(word, out)?;
    out.extend_from_slice(b": ")?;
    push_image(store, a, word, out)?;
    out.extend_from_slice(b" / ")?;
    push_image(store, b, word, out)?;
    out.push(b'\n')?;
    Ok(())
}

// Appends whether the machines of two elements tell them apart.
fn compare_machines<S: Store>(
    alloc: Global,
    store: &mut S,
    a: Handle,
    b: Handle,
    out: &mut Vec<u8>,
) -> Result<(), NoMemory>
    requires a_known { IsKnown (S.view.known store.old) a }
    requires b_known { IsKnown (S.view.known store.old) b }
    ensures text { OnOk result ((t u : Term) → Stands S.view store.old a t → Stands S.view store.old b u → Prints (AnswersEq (S.view.alphabet store.old) t u) out.old.items out.new.items) }
    ensures reads { Reads S.view store.old store.new }
{
    let m = store.machine(alloc, a)?;
    let n = store.machine(alloc, b)?;
    match separate(alloc, &m, 0, &n, 0)? {
        None => out.extend_from_slice(b"equal\n")?,
        Some(w) => push_difference_of_machines(alloc, &m, &n, &w, out)?,
    }
    Ok(())
}

// Appends a word at which the images under two machines differ, with both images. Where memory runs out, a part of it may
// stand there.
fn push_difference_of_machines(
    alloc: Global,
    m: &Minimal,
    n: &Minimal,
    w: &Word,
    out: &mut Vec<u8>,
) -> Result<(), NoMemory>
    requires left { IsWord m.now.alphabet w.now }
    requires right { IsWord n.now.alphabet w.now }
    ensures { OnOk result (out.new.items ≡ out.old.items ++ line_of (comparison_text (row_term m.now.rows 0) (row_term n.now.rows 0) (Some w.now))) }
{
    out.extend_from_slice(b"differ at ")?;
    print_word(w, out)?;
    out.extend_from_slice(b": ")?;
    print_word(&m.machine().act(alloc, 0, w)?, out)?;
    out.extend_from_slice(b" / ")?;
    print_word(&n.machine().act(alloc, 0, w)?, out)?;
    out.push(b'\n')?;
    Ok(())
}
