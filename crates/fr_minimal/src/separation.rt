//! The least word that tells two rows apart, by a search by breadth among the pairs of rows.

ghost use Rattle.std.specs.Prelude.{◌≡◌, ◌<◌, ◌≤◌, ◌+◌, ℕ, suc, IfOk, IfSome, MatchOption, length};
ghost use Rattle.fr_model.specs.Automata.{state_at};
ghost use Rattle.fr_model.specs.Separation.{IsSeparation};
ghost use Rattle.fr_machine.specs.Rows.{row_term, states_of};
ghost use Rattle.fr_minimal.specs.Searches.{IsLeastDifference, AgreeBelow, IsSearched, StayMet, met_at};

use crate::met::Met;
use crate::search::Search;
use fr_alphabet::{NoMemory, Word};
use fr_machine::{Machine, Minimal};
use std::alloc::Global;

/// The shortlex least word whose images under row `s` of `a` and row `t` of `b` differ, or None where the two rows act
/// alike. It is shorter than the rows of both are many, so it has at most 2,047 letters. The search meets fewer pairs of rows
/// than that (Hopcroft and Karp, A linear algorithm for testing the equivalence of finite automata).
///
/// Both machines are over one alphabet. The only error is that memory runs out.
pub fn separate(
    alloc: Global,
    a: &Minimal,
    s: u16,
    b: &Minimal,
    t: u16,
) -> Result<Option<Word>, NoMemory>
    requires alphabets { a.now.alphabet ≡ b.now.alphabet }
    requires left { s < length a.now.rows }
    requires right { t < length b.now.rows }
    ensures answer { IfOk result (λ found. IsSeparation a.now.alphabet (row_term a.now.rows s) (row_term b.now.rows t) found) }
    ensures shorter { IfOk result (λ found. IfSome found (λ w. length w < length a.now.rows + length b.now.rows)) }
    ensures most { IfOk result (λ found. IfSome found (λ w. length w ≤ 2047)) }
{
    separate_rows(alloc, a.machine(), s, b.machine(), t)
}

// The search by breadth, which ends at the first pair of rows that put out different letters.
fn separate_rows(
    alloc: Global,
    m: &Machine,
    s: u16,
    n: &Machine,
    t: u16,
) -> Result<Option<Word>, NoMemory>
    requires alphabets { m.now.alphabet ≡ n.now.alphabet }
    requires few { length m.now.rows ≤ 1024 }
    requires few_too { length n.now.rows ≤ 1024 }
    requires left { s < length m.now.rows }
    requires right { t < length n.now.rows }
    ensures answer { IfOk result (λ found. IsSeparation m.now.alphabet (row_term m.now.rows s) (row_term n.now.rows t) found) }
    ensures shorter { IfOk result (λ found. IfSome found (λ w. length w < length m.now.rows + length n.now.rows)) }
{
    let first = Met {
        left: s,
        right: t,
        before: 0,
        letter: 0,
    };
    let mut search = Search::new(alloc, m.rows().len() as u16, n.rows().len() as u16, first)?;
    let mut place = 0;
    while place < search.count() {
        let met = search.met[place as usize];
        if let Some(x) = difference(m, met.left, n, met.right) {
            let letters = search.word_to(alloc, place, x)?;
            return Ok(Some(Word::of_letters(letters)));
        }
        visit(&mut search, m, n, place);
        place += 1;
    }
    Ok(None)
}

// Meets the pairs behind the pair at a place, in the order of the letters: so the search goes in shortlex order.
fn visit(search: &mut Search, m: &Machine, n: &Machine, place: u16)
    requires alphabets { m.now.alphabet ≡ n.now.alphabet }
    requires place { place < length search.old.met.items }
    requires left_rows { search.old.left_rows ≡ length m.now.rows }
    requires rows { length search.old.groups.parents.items ≡ length m.now.rows + length n.now.rows }
    ensures left_rows { search.new.left_rows ≡ search.old.left_rows }
    ensures rows { length search.new.groups.parents.items ≡ length search.old.groups.parents.items }
    ensures stay { StayMet search.old.met.items search.new.met.items }
    ensures searched { (s t : ℕ) → IsSearched m.now.alphabet (states_of m.now.rows) (states_of n.now.rows) s t search.old.met.items place 1 → IsSearched m.now.alphabet (states_of m.now.rows) (states_of n.now.rows) s t search.new.met.items (place + 1) 1 }
{
    let met = search.met[place as usize];
    for x in 0..m.alphabet().letters() {
        search.meet(Met {
            left: m.next(met.left, x + 1),
            right: n.next(met.right, x + 1),
            before: place,
            letter: x + 1,
        });
    }
}

// The least letter that the two rows of a pair send to different letters.
fn difference(m: &Machine, left: u16, n: &Machine, right: u16) -> Option<u8>
    requires alphabets { m.now.alphabet ≡ n.now.alphabet }
    requires left { left < length m.now.rows }
    requires right { right < length n.now.rows }
    ensures { MatchOption result (AgreeBelow m.now.alphabet (state_at (states_of m.now.rows) left).perm (state_at (states_of n.now.rows) right).perm (suc m.now.alphabet)) (λ x. IsLeastDifference m.now.alphabet (state_at (states_of m.now.rows) left).perm (state_at (states_of n.now.rows) right).perm x) }
{
    for x in 0..m.alphabet().letters() {
        if m.output(left, x + 1) != n.output(right, x + 1) {
            return Some(x + 1);
        }
    }
    None
}
