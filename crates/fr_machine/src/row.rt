//! Rows of machines.

use fr_alphabet::Perm;

/// One state of a machine, as a wreath recursion whose sections are rows (Nekrashevych, *Self-Similar Groups*, 1.3).
#[derive(Clone, Copy, Debug, PartialEq, Eq)]
pub struct Row {
    /// The permutation of the letters that the state puts out.
    pub perm: Perm,
    /// For each letter in order the row of the section at it; 0 past the letters of the alphabet.
    pub next: [u16; 8],
}
