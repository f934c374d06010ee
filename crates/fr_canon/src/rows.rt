//! The rows that the code of an element tells.

ghost use Rattle.std.specs.Prelude.{◌≡◌, ℕ, ◌<◌, ◌≤◌, ◌+◌, ◌*◌, All, length, vec_capacity};
ghost use Rattle.fr_model.specs.Terms.{Term, IsTerm};
ghost use Rattle.fr_model.specs.Automata.{State};
ghost use Rattle.fr_model.specs.Canonical.{IsCanonical, IsCode};
ghost use Rattle.fr_machine.specs.Rows.{state_of, states_of};
ghost use Rattle.fr_machine.specs.Minimal.{IsMinimal};
ghost use Rattle.fr_canon.specs.Listings.{IsFilled};
ghost use Rattle.fr_canon.specs.Texts.{IsStateCode};

use crate::code::Code;
use crate::printing::state_part;
use fr_alphabet::{Alphabet, Perm};
use fr_machine::Row;

/// Makes `out` the rows of the canonical numbering whose code this is. The code is that of an element over the alphabet that
/// has at most 1,024 sections, up to acting alike, and `out` has room for as many rows. This takes no memory.
pub fn rows_of_code(a: Alphabet, code: &Code, out: &mut Vec<Row>)
    requires code { (t : Term) × IsTerm a t × IsCode a t code.now }
    requires few { length code.now ≤ (a + 1) * 1024 }
    requires room { 1024 ≤ vec_capacity out.old }
    ensures canonical { (t : Term) → IsCode a t code.now → IsCanonical a t (states_of out.new.items) }
    ensures minimal { IsMinimal a out.new.items }
    ensures room { vec_capacity out.new ≡ vec_capacity out.old }
{
    let numbers = code.numbers();
    let width = a.letters() as usize + 1;
    out.clear();
    for k in 0..numbers.len() / width {
        out.push_reserved(row_of_part(a, state_part(numbers, width, k)));
    }
}

// The row of the part of a code that stands for a state.
fn row_of_part(a: Alphabet, numbers: &[u32]) -> Row
    requires { (q : State) × IsStateCode a numbers.now q × All (λ n. n < 1024) q.next }
    ensures state { (q : State) → IsStateCode a numbers.now q → state_of result ≡ q }
    ensures filled { IsFilled a result }
{
    let perm = Perm::of_rank(a, numbers[0]).unwrap();
    let mut next = [0; 8];
    for x in 0..a.letters() as usize {
        next[x] = (numbers[x + 1] - 1) as u16;
    }
    Row { perm, next }
}
