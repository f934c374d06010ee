//! Machines, and the maps on words for which their rows stand.

ghost use Rattle.std.specs.Prelude.{ℕ, ◌≡◌, ◌<◌, ◌≤◌, ◌↔◌, IsTrue, IsSome, IfSome, IfOk, length};
ghost use Rattle.fr_model.specs.Words.{IsLetter, IsWord};
ghost use Rattle.fr_model.specs.Permutations.{image, preimage};
ghost use Rattle.fr_model.specs.Terms.{One, act, back, Section, IsAlike};
ghost use Rattle.fr_model.specs.Automata.{state_at, next_state, state_after};
ghost use Rattle.fr_machine.specs.Rows.{IsRow, IsMachine, row_term, states_of, row_at};
ghost use Rattle.fr_machine.specs.Inverses.{IsInverseRow, AreInverses};

use crate::row::Row;
use fr_alphabet::{Alphabet, NoMemory, Perm, Word};
use std::alloc::Global;
use std::marker::Model;

// The most rows that a machine has.
const ROW_LIMIT: usize = 65536;

/// An invertible Mealy machine over 2 to 8 letters, with 1 to 65,536 rows that are numbered from 0. Each row stands for
/// a map on words: it sends the word `x w` to the image of `x` under its permutation, followed by the image of `w` under
/// its next row at `x`. Sources: Nekrashevych, *Self-Similar Groups*, 1.3; the Mealy machines of the GAP package FR.
#[derive(Debug, Drop)]
pub struct Machine {
    alphabet: Alphabet,
    rows: Vec<Row>,
}

// Clauses see the alphabet and the rows.
impl Model for Machine {
    ghost use Rattle.fr_machine.specs.Rows.{IsMachine};
    ghost use Rattle.fr_machine.specs.Machine.{MachineView};

    ghost Value = { MachineView };

    ghost view = { λ m. record { alphabet = m.alphabet; rows = m.rows.items } };

    ghost invariant = { λ m. IsMachine m.alphabet m.rows.items };
}

impl Machine {
    /// Makes a machine of rows over an alphabet.
    ///
    /// The answer is `None` exactly where the rows are no machine: there are 1 to 65,536 rows, each permutation is one
    /// of the alphabet, each next row is one of the rows, and each entry past the letters is 0.
    pub fn new(a: Alphabet, rows: Vec<Row>) -> Option<Machine>
        ensures accepts { IsSome result ↔ IsMachine a rows.items }
        ensures value { IfSome result (λ m. m ≡ record { alphabet = a; rows = rows.items }) }
    {
        let d = a.letters();
        let count = rows.len();
        if count < 1 || count > ROW_LIMIT || !rows.iter().all(|row| is_row(d, count, row)) {
            return None;
        }
        Some(Machine { alphabet: a, rows })
    }

    /// The machine of rows that are known to be one, so that they are not looked through. The condition is that of
    /// `new`.
    pub fn from_rows(a: Alphabet, rows: Vec<Row>) -> Machine
        requires { IsMachine a rows.items }
        ensures { result ≡ record { alphabet = a; rows = rows.items } }
    {
        Machine { alphabet: a, rows }
    }

    /// The machine of the identity: one row, which leaves each letter where it is and leads to itself. The only error is
    /// want of memory.
    pub fn identity(alloc: Global, a: Alphabet) -> Result<Machine, NoMemory>
        ensures alphabet { IfOk result (λ m. m.alphabet ≡ a) }
        ensures size { IfOk result (λ m. length m.rows ≡ 1) }
        ensures alike { IfOk result (λ m. IsAlike (row_term m.rows 0) One) }
    {
        // For the proof: an alphabet has 2 to 8 letters.
        let _letters = a.letters();
        let mut rows = Vec::new(alloc);
        rows.push(Row {
            perm: Perm::identity(a),
            next: [0; 8],
        })?;
        Ok(Machine { alphabet: a, rows })
    }

    /// The same machine once more. The only error is want of memory.
    pub fn copy(&self, alloc: Global) -> Result<Machine, NoMemory>
        ensures { IfOk result (λ m. m ≡ self.now) }
    {
        Ok(Machine {
            alphabet: self.alphabet,
            rows: Vec::from_slice(alloc, &self.rows)?,
        })
    }

    /// The machine whose row `s` is the inverse of row `s` of this one. The only error is want of memory.
    ///
    /// If `g` sends the letter `x` to `y`, the section of the inverse of `g` at `y` is the inverse of the section of `g`
    /// at `x` (Nekrashevych, 1.3).
    pub fn inverse(&self, alloc: Global) -> Result<Machine, NoMemory>
        ensures alphabet { IfOk result (λ m. m.alphabet ≡ self.now.alphabet) }
        ensures size { IfOk result (λ m. length m.rows ≡ length self.now.rows) }
        ensures rows { IfOk result (λ m. AreInverses self.now.rows m.rows) }
    {
        let mut rows = Vec::with_capacity(alloc, self.rows.len())?;
        for row in &self.rows {
            rows.push(inverse_row(row))?;
        }
        Ok(Machine {
            alphabet: self.alphabet,
            rows,
        })
    }

    /// The alphabet, of 2 to 8 letters.
    pub fn alphabet(&self) -> Alphabet
        ensures value { result ≡ self.now.alphabet }
        ensures valid { IsMachine self.now.alphabet self.now.rows }
    {
        self.alphabet
    }

    /// The rows, of which there are 1 to 65,536.
    pub fn rows(&self) -> &[Row]
        ensures value { result.now ≡ self.now.rows }
        ensures valid { IsMachine self.now.alphabet self.now.rows }
    {
        &self.rows
    }

    /// The rows, taken out of the machine.
    pub fn into_rows(self) -> Vec<Row>
        ensures value { result.items ≡ self.rows }
        ensures valid { IsMachine self.alphabet self.rows }
    {
        self.rows
    }

    /// The wreath recursion of a row `s`: its permutation, and for each letter the row of the section at it
    /// (Nekrashevych, 1.3).
    pub fn wreath(&self, s: u16) -> Row
        requires { s < length self.now.rows }
        ensures value { result ≡ row_at self.now.rows s }
        ensures valid { IsRow self.now.alphabet (length self.now.rows) result }
    {
        self.rows[s as usize]
    }

    /// The letter that a row `s` puts out when it reads a letter `x`.
    pub fn output(&self, s: u16, x: u8) -> u8
        requires row { s < length self.now.rows }
        requires letter { IsLetter self.now.alphabet x }
        ensures value { result ≡ image (state_at (states_of self.now.rows) s).perm x }
        ensures letter { IsLetter self.now.alphabet result }
    {
        self.rows[s as usize].perm.apply(x)
    }

    /// The next row of a row `s` at a letter `x`, which is the row of the section of `s` at `x`.
    pub fn next(&self, s: u16, x: u8) -> u16
        requires row { s < length self.now.rows }
        requires letter { IsLetter self.now.alphabet x }
        ensures row { result < length self.now.rows }
        ensures value { result ≡ next_state (states_of self.now.rows) s x }
    {
        self.rows[s as usize].next[x as usize - 1]
    }

    /// The row of the section of a row `s` at a word `w` over the alphabet: the row that acts on `v` as `s` acts on the
    /// part `v` of the word `w v`. Sections, or restrictions, are those of Nekrashevych, 1.3.
    pub fn section(&self, s: u16, w: &Word) -> u16
        requires row { s < length self.now.rows }
        requires word { IsWord self.now.alphabet w.now }
        ensures row { result < length self.now.rows }
        ensures place { result ≡ state_after (states_of self.now.rows) s w.now }
        ensures section { IsAlike (row_term self.now.rows result) (Section (row_term self.now.rows s) w.now) }
    {
        let _alphabet = self.alphabet;
        let mut at = s;
        for letter in w.letters() {
            at = self.next(at, *letter);
        }
        at
    }

    /// The image of a word `w` over the alphabet under a row `s`. It has as many letters as `w`. The only error is want
    /// of memory.
    pub fn act(&self, alloc: Global, s: u16, w: &Word) -> Result<Word, NoMemory>
        requires row { s < length self.now.rows }
        requires word { IsWord self.now.alphabet w.now }
        ensures image { IfOk result (λ v. v ≡ act (row_term self.now.rows s) w.now) }
    {
        let _alphabet = self.alphabet;
        let mut letters = Vec::with_capacity(alloc, w.letters().len())?;
        let mut at = s;
        for x in w.letters() {
            letters.push(self.output(at, *x))?;
            at = self.next(at, *x);
        }
        Ok(Word::of_letters(letters))
    }

    /// The image of a word `w` over the alphabet under the inverse of a row `s`: the word that `s` sends to `w`. The only
    /// error is want of memory.
    pub fn act_back(&self, alloc: Global, s: u16, w: &Word) -> Result<Word, NoMemory>
        requires row { s < length self.now.rows }
        requires word { IsWord self.now.alphabet w.now }
        ensures image { IfOk result (λ v. v ≡ back (row_term self.now.rows s) w.now) }
    {
        let _alphabet = self.alphabet;
        let mut letters = Vec::with_capacity(alloc, w.letters().len())?;
        let mut at = s;
        for y in w.letters() {
            let x = self.output_back(at, *y);
            letters.push(x)?;
            at = self.next(at, x);
        }
        Ok(Word::of_letters(letters))
    }

    // The letter that a row sends to this one.
    fn output_back(&self, s: u16, y: u8) -> u8
        requires row { s < length self.now.rows }
        requires letter { IsLetter self.now.alphabet y }
        ensures value { result ≡ preimage (state_at (states_of self.now.rows) s).perm y }
        ensures letter { IsLetter self.now.alphabet result }
    {
        self.rows[s as usize].perm.apply_back(y)
    }
}

// Whether a row is one of a machine with so many letters and rows.
fn is_row(d: u8, count: usize, row: &Row) -> bool
    requires { d ≤ 8 }
    ensures { IsTrue result ↔ IsRow d count row.now }
{
    row.perm.letters() == d
        && row.next.iter().all(|n| (*n as usize) < count)
        && row.next[d as usize..].iter().all(|n| *n == 0)
}

// The row of the inverse, where each next row stands for its inverse.
fn inverse_row(row: &Row) -> Row
    requires { (n : ℕ) × IsRow (length row.now.perm) n row.now }
    ensures { IsInverseRow row.now result }
{
    let perm = row.perm.inverse();
    let mut next = [0; 8];
    for y in 0..perm.letters() {
        next[y as usize] = row.next[perm.apply(y + 1) as usize - 1];
    }
    Row { perm, next }
}
