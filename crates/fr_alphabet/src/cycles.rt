//! Permutations in cycle notation.

ghost use Rattle.std.specs.Prelude.{◌≡◌, ℕ, ◌≤◌, ◌++◌, OnErr, OnOk, List, length, take};
ghost use Rattle.fr_alphabet.specs.Cycles.{begins_cycle, cycle_of, cycle_text, cycles_image, cycles_of, cycles_text};
ghost use Rattle.fr_model.specs.Permutations.{IsPermutation, image};
ghost use Rattle.fr_model.specs.Words.{IsLetter};

use crate::memory::NoMemory;
use crate::perm::Perm;

impl Perm {
    /// Appends the cycles in the usual notation, as `(1,3)(2,5,4)`: each begins with its least
    /// letter, they stand in order of these, and letters that stay are left out. The identity
    /// appends nothing.
    ///
    /// The only error is want of memory; `out` is then as before.
    pub fn print_cycles(&self, out: &mut Vec<u8>) -> Result<(), NoMemory>
        ensures ok { OnOk result (out.new.items ≡ out.old.items ++ cycles_text self.now) }
        ensures err { OnErr result (out.new.items ≡ out.old.items) }

        // The product of the cycles is the permutation, and no other has this text.
        ensures product { (x : ℕ) → cycles_image (cycles_of self.now) x ≡ image self.now x }
        ensures only { (q : List ℕ) → IsPermutation (length self.now) q → cycles_text q ≡ cycles_text self.now → q ≡ self.now }
    {
        let before = out.len();
        let printed = self.push_cycles(out);
        if printed.is_err() {
            out.truncate(before);
        }
        printed
    }

    // Appends the cycles. Where memory runs out, a part of them may stand there.
    fn push_cycles(&self, out: &mut Vec<u8>) -> Result<(), NoMemory>
        ensures ok { OnOk result (out.new.items ≡ out.old.items ++ cycles_text self.now) }
        ensures kept { take (length out.old.items) out.new.items ≡ out.old.items }
        ensures product { (x : ℕ) → cycles_image (cycles_of self.now) x ≡ image self.now x }
        ensures only { (q : List ℕ) → IsPermutation (length self.now) q → cycles_text q ≡ cycles_text self.now → q ≡ self.now }
    {
        for i in 0..self.letters() {
            if self.begins_cycle(i + 1) {
                self.push_cycle(i + 1, out)?;
            }
        }
        Ok(())
    }

    // Whether x is moved, and is the least letter of its cycle.
    fn begins_cycle(&self, x: u8) -> bool
        requires permutes { IsPermutation (length self.now) self.now }
        requires letter { IsLetter (length self.now) x }
        ensures { result ≡ begins_cycle self.now x }
    {
        let mut y = self.apply(x);
        if y == x {
            return false;
        }
        while y > x {
            y = self.apply(y);
        }
        y == x
    }

    // Appends the cycle of x, from x on. Where memory runs out, a part of it may stand there.
    fn push_cycle(&self, x: u8, out: &mut Vec<u8>) -> Result<(), NoMemory>
        requires permutes { IsPermutation (length self.now) self.now }
        requires most { length self.now ≤ 8 }
        requires letter { IsLetter (length self.now) x }
        ensures ok { OnOk result (out.new.items ≡ out.old.items ++ cycle_text (cycle_of self.now x)) }
        ensures kept { take (length out.old.items) out.new.items ≡ out.old.items }
    {
        out.push(b'(')?;
        out.push(b'0' + x)?;
        let mut y = self.apply(x);
        while y != x {
            out.push(b',')?;
            out.push(b'0' + y)?;
            y = self.apply(y);
        }
        out.push(b')')?;
        Ok(())
    }
}
