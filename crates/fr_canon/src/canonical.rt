//! The canonical numbering of an element, as a breadth-first walk with letters in order meets its sections, its machine
//! and its code, on the pattern of the standard numbering of a minimal automaton.

ghost use Rattle.std.specs.Prelude.{◌≡◌, ℕ, ◌<◌, ◌≤◌, ◌+◌, ◌*◌, ◌↔◌, ◌++◌, List, [], ◌∷◌, IsTrue, IfOk, length, take, drop};
ghost use Rattle.fr_machine.specs.Rows.{IsMachine, state_of, states_of, row_term};
ghost use Rattle.fr_machine.specs.Minimal.{AreUnlike, IsMinimal};
ghost use Rattle.fr_model.specs.Terms.{Term, IsAlike};
ghost use Rattle.fr_model.specs.Automata.{next_state};
ghost use Rattle.fr_model.specs.Classes.{IsSize};
ghost use Rattle.fr_model.specs.Canonical.{IsCanonical, IsCode, code_of};
ghost use Rattle.fr_canon.specs.Listings.{IsRowListed, row_output};

use crate::code::Code;
use fr_alphabet::{Alphabet, NoMemory};
use fr_machine::{FixedWalk, Machine, Minimal, Row};
use std::alloc::Global;

/// Room for walks over 1,024 rows, and for a code. It is taken once; what a call leaves in it has no effect on later
/// calls.
#[derive(Debug, Drop)]
pub struct Scratch {
    walk: FixedWalk,
    code: Code,
}

impl Scratch {
    /// Takes the room. The only error is want of memory.
    pub fn new(alloc: Global) -> Result<Scratch, NoMemory> {
        Ok(Scratch {
            walk: FixedWalk::new(alloc)?,
            code: Code::new(alloc)?,
        })
    }
}

// The row of a key with its next rows by their numbers, which they have from now on.
fn list_row(walk: &mut FixedWalk, a: Alphabet, rows: &[Row], key: u16) -> Row
    requires machine { IsMachine a rows.now }
    requires row { key < length rows.now }
    requires few { length rows.now ≤ 1024 }
    ensures { IsRowListed a (length rows.now) (next_state (states_of rows.now)) (row_output (states_of rows.now)) walk.old walk.new key result }
{
    let row = &rows[key as usize];
    let mut next = [0; 8];
    for x in 0..a.letters() {
        let target = row.next[x as usize];
        let number = walk.number(target);

        // For the proof: no two keys are equal.
        let _met = walk.count();
        next[x as usize] = number;
    }
    Row {
        perm: row.perm,
        next,
    }
}

// Writes the state of a row behind the code.
fn push_state(out: &mut Code, a: Alphabet, row: &Row)
    requires degree { length row.now.perm ≡ a }
    requires width { length row.now.next ≡ 8 }
    requires room { length out.old + a + 1 ≤ 9216 }
    ensures { out.new ≡ out.old ++ code_of (state_of row.now ∷ []) }
{
    out.push(row.perm.rank());
    for x in 0..a.letters() {
        out.push(row.next[x as usize] as u32 + 1);
    }
}

// Whether the state of a row is what stands in a code at a place.
fn has_state(code: &Code, start: usize, a: Alphabet, row: &Row) -> bool
    requires degree { length row.now.perm ≡ a }
    requires width { length row.now.next ≡ 8 }
    requires start { start ≤ 9216 }
    ensures { IsTrue result ↔ (take (a + 1) (drop start code.now) ≡ code_of (state_of row.now ∷ [])) }
{
    let numbers = code.numbers();
    let letters = a.letters() as usize;
    if start + letters >= numbers.len() || numbers[start] != row.perm.rank() {
        return false;
    }
    for x in 0..letters {
        if numbers[start + x + 1] != row.next[x] as u32 + 1 {
            return false;
        }
    }
    true
}

// A walk of which nothing is known but a first key.
fn begin(walk: &mut FixedWalk, key: u16)
    requires { key < 1024 }
    ensures { walk.new.keys ≡ key ∷ [] }
{
    walk.clear();
    walk.number(key);
}

// The code of a row, by a breadth-first walk from it.
fn list_code(walk: &mut FixedWalk, a: Alphabet, rows: &[Row], s: u16, out: &mut Code)
    requires machine { IsMachine a rows.now }
    requires few { length rows.now ≤ 1024 }
    requires unlike { AreUnlike rows.now }
    requires row { s < length rows.now }
    ensures { IsCode a (row_term rows.now s) out.new }
{
    begin(walk, s);
    out.clear();
    let mut done = 0;
    while done < walk.count() {
        let key = walk.key(done);
        let row = list_row(walk, a, rows, key);
        push_state(out, a, &row);
        done += 1;
    }
}

// Whether a code is that of a row, by a breadth-first walk from it that ends where the two differ.
fn check_code(walk: &mut FixedWalk, a: Alphabet, rows: &[Row], s: u16, code: &Code) -> bool
    requires machine { IsMachine a rows.now }
    requires few { length rows.now ≤ 1024 }
    requires unlike { AreUnlike rows.now }
    requires row { s < length rows.now }
    ensures { IsTrue result ↔ IsCode a (row_term rows.now s) code.now }
{
    begin(walk, s);
    let width = a.letters() as usize + 1;
    let mut done = 0;
    while done < walk.count() {
        let key = walk.key(done);
        let row = list_row(walk, a, rows, key);

        // For the proof: no two keys are equal.
        let _met = walk.count();
        if !has_state(code, done as usize * width, a, &row) {
            return false;
        }
        done += 1;
    }
    code.numbers().len() == done as usize * width
}

// The rows of the canonical numbering of a row, by a breadth-first walk from it.
fn list_rows(
    alloc: Global,
    walk: &mut FixedWalk,
    a: Alphabet,
    rows: &[Row],
    s: u16,
) -> Result<Vec<Row>, NoMemory>
    requires machine { IsMachine a rows.now }
    requires few { length rows.now ≤ 1024 }
    requires unlike { AreUnlike rows.now }
    requires row { s < length rows.now }
    ensures canonical { IfOk result (λ found. IsCanonical a (row_term rows.now s) (states_of found.items)) }
    ensures minimal { IfOk result (λ found. IsMinimal a found.items) }
{
    begin(walk, s);
    let mut found = Vec::with_capacity(alloc, rows.len())?;
    let mut done = 0;
    while done < walk.count() {
        let key = walk.key(done);
        found.push(list_row(walk, a, rows, key))?;
        done += 1;
    }
    Ok(found)
}

/// How many sections row `s` has, up to acting alike: as many as its canonical numbering has states, 1 to 1,024. The rows
/// meet what `canon_rows` asks. This takes no memory.
pub fn count_states(scratch: &mut Scratch, a: Alphabet, rows: &[Row], s: u16) -> u16
    requires machine { IsMachine a rows.now }
    requires few { length rows.now ≤ 1024 }
    requires unlike { AreUnlike rows.now }
    requires row { s < length rows.now }
    ensures size { (t : Term) → IsAlike (row_term rows.now s) t → IsSize a t result }
    ensures most { result ≤ 1024 }
{
    let walk = &mut scratch.walk;
    begin(walk, s);
    let mut done = 0;
    while done < walk.count() {
        let key = walk.key(done);
        list_row(walk, a, rows, key);
        done += 1;
    }
    done
}

/// The machine of row `s`, with its rows in the order of the canonical numbering. The rows meet what `canon_rows` asks. The
/// only error is want of memory.
pub fn canonical_machine(
    alloc: Global,
    scratch: &mut Scratch,
    a: Alphabet,
    rows: &[Row],
    s: u16,
) -> Result<Minimal, NoMemory>
    requires machine { IsMachine a rows.now }
    requires few { length rows.now ≤ 1024 }
    requires unlike { AreUnlike rows.now }
    requires row { s < length rows.now }
    ensures alphabet { IfOk result (λ m. m.alphabet ≡ a) }
    ensures canonical { IfOk result (λ m. IsCanonical a (row_term rows.now s) (states_of m.rows)) }

    // It is the machine of each term that acts alike.
    ensures alike { IfOk result (λ m. (t : Term) → IsAlike (row_term rows.now s) t → IsCanonical a t (states_of m.rows)) }
{
    let found = list_rows(alloc, &mut scratch.walk, a, rows, s)?;
    Ok(Minimal::of(Machine::from_rows(a, found)))
}

/// Whether the code is that of row `s` of rows that meet what `canon_rows` asks. The code is compared state by state, up to
/// the first that differs. This takes no memory.
pub fn has_code(scratch: &mut Scratch, a: Alphabet, rows: &[Row], s: u16, code: &Code) -> bool
    requires machine { IsMachine a rows.now }
    requires few { length rows.now ≤ 1024 }
    requires unlike { AreUnlike rows.now }
    requires row { s < length rows.now }
    ensures { IsTrue result ↔ IsCode a (row_term rows.now s) code.now }
{
    check_code(&mut scratch.walk, a, rows, s, code)
}

/// Makes `out` the code of row `s` of rows that lie in no `Minimal`: the code of the canonical numbering of its
/// sections. There are 1 to 1,024 rows, which meet the rules of a machine over the alphabet and are pairwise unlike. The
/// code has at most `d + 1` numbers a row, where the alphabet has d letters. This takes no memory.
pub fn canon_rows(scratch: &mut Scratch, a: Alphabet, rows: &[Row], s: u16, out: &mut Code)
    requires machine { IsMachine a rows.now }
    requires few { length rows.now ≤ 1024 }
    requires unlike { AreUnlike rows.now }
    requires row { s < length rows.now }
    ensures code { IsCode a (row_term rows.now s) out.new }
    ensures short { length out.new ≤ (a + 1) * 1024 }

    // It is the code of each term that acts alike, and such a term has no other.
    ensures alike { (t : Term) → IsAlike (row_term rows.now s) t → IsCode a t out.new }
    ensures only { (t : Term) (code : List ℕ) → IsAlike (row_term rows.now s) t → IsCode a t code → code ≡ out.new }
{
    list_code(&mut scratch.walk, a, rows, s, out)
}

/// Makes `out` the code of row `s` of `m`, as `canon_rows` does. Two elements act alike exactly where their codes are
/// equal. This takes no memory.
pub fn canon(scratch: &mut Scratch, m: &Minimal, s: u16, out: &mut Code)
    requires { s < length m.now.rows }
    ensures code { IsCode m.now.alphabet (row_term m.now.rows s) out.new }
    ensures short { length out.new ≤ (m.now.alphabet + 1) * 1024 }

    // It is the code of each term that acts alike, and such a term has no other.
    ensures alike { (t : Term) → IsAlike (row_term m.now.rows s) t → IsCode m.now.alphabet t out.new }
    ensures only { (t : Term) (code : List ℕ) → IsAlike (row_term m.now.rows s) t → IsCode m.now.alphabet t code → code ≡ out.new }
{
    let machine = m.machine();
    canon_rows(scratch, machine.alphabet(), machine.rows(), s, out)
}

/// Whether row `s` of `a` and row `t` of `b` act alike: whether their codes are equal. Both machines are over one
/// alphabet. This takes no memory.
pub fn alike(scratch: &mut Scratch, a: &Minimal, s: u16, b: &Minimal, t: u16) -> bool
    requires alphabet { a.now.alphabet ≡ b.now.alphabet }
    requires first { s < length a.now.rows }
    requires second { t < length b.now.rows }
    ensures { IsTrue result ↔ IsAlike (row_term a.now.rows s) (row_term b.now.rows t) }
{
    let a = a.machine();
    let b = b.machine();
    list_code(
        &mut scratch.walk,
        a.alphabet(),
        a.rows(),
        s,
        &mut scratch.code,
    );
    check_code(&mut scratch.walk, b.alphabet(), b.rows(), t, &scratch.code)
}
