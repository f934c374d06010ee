//! Permutations of letters, in a fixed array.

ghost use Rattle.std.specs.Prelude.{◌≡◌, ℕ, ◌<◌, ◌≤◌, ◌↔◌, IsSome, IfSome, IsTrue, List, Some, length};
ghost use Rattle.fr_alphabet.specs.Padded.{padded};
ghost use Rattle.fr_model.specs.Ranks.{rank, factorial};
ghost use Rattle.fr_model.specs.Words.{IsLetter};
ghost use Rattle.fr_model.specs.Permutations.{IsPermutation, image, preimage, identity_permutation, composite, inverse_permutation};

use crate::alphabet::Alphabet;
use crate::rank::{images_of_rank, rank_of};
use std::marker::Model;

/// A permutation of the letters of an alphabet.
///
/// It acts from the right, as in the literature on automata groups: `p.then(&q)` is first `p`, then
/// `q`.
#[derive(Clone, Copy, Debug, PartialEq, Eq)]
pub struct Perm {
    count: u8,
    images: [u8; 8],
}

// Clauses see the list of the images of 1, 2, ..
impl Model for Perm {
    ghost use Rattle.std.specs.Prelude.{ℕ, List, length, take};
    ghost use Rattle.fr_alphabet.specs.Padded.{IsPadded, padded};

    ghost Value = { List ℕ };

    ghost view = { λ p. take p.count p.images };

    ghost invariant = { λ p. IsPadded p.count p.images };

    ghost inverse = { λ p. record { count = length p; images = padded p } };

    ghost use Rattle.fr_alphabet.specs.Padded.{padded_back};

    ghost inverse_ok = { λ a h. Prim.rw (h.permutes.degree, padded_back a.count a.images h) };
}

// Whether these are d images, each a letter, with none twice.
fn is_permutation(d: u8, images: &[u8]) -> bool
    ensures { IsTrue result ↔ IsPermutation d images.now }
{
    if images.len() != d as usize {
        return false;
    }
    for (i, image) in images.iter().enumerate() {
        if *image < 1 || *image > d || images[..i].contains(image) {
            return false;
        }
    }
    true
}

// The images in an array, with zeros after them.
fn padded_images(images: &[u8]) -> [u8; 8]
    requires { length images.now ≤ 8 }
    ensures { result ≡ padded images.now }
{
    let mut array = [0; 8];
    array[..images.len()].copy_from_slice(images);
    array
}

// The letter whose image is y; y itself where there is none.
fn place_of(images: &[u8], y: u8) -> u8
    requires { length images.now ≤ 8 }
    ensures { result ≡ preimage images.now y }
{
    for (i, image) in images.iter().enumerate() {
        if *image == y {
            return i as u8 + 1;
        }
    }
    y
}

impl Perm {
    /// The permutation that leaves each letter.
    pub fn identity(a: Alphabet) -> Perm
        ensures { result ≡ identity_permutation a }
    {
        let d = a.letters();
        let mut images = [0; 8];
        for i in 0..d {
            images[i as usize] = i + 1;
        }
        Perm { count: d, images }
    }

    /// The permutation that has these images of 1, 2, ..; `None` exactly where there are not as many
    /// as letters, or one of them is no letter or stands twice.
    pub fn of_images(a: Alphabet, images: &[u8]) -> Option<Perm>
        ensures accepts { IsSome result ↔ IsPermutation a images.now }
        ensures value { IfSome result (λ p. p ≡ images.now) }
    {
        let d = a.letters();
        if is_permutation(d, images) {
            Some(Perm {
                count: d,
                images: padded_images(images),
            })
        } else {
            None
        }
    }

    /// How many letters it permutes, 2 to 8.
    pub fn letters(&self) -> u8
        ensures value { result ≡ length self.now }
        ensures permutes { IsPermutation result self.now }
        ensures most { result ≤ 8 }
    {
        self.count
    }

    /// The image of the letter `x`.
    pub fn apply(&self, x: u8) -> u8
        requires { IsLetter (length self.now) x }
        ensures value { result ≡ image self.now x }
        ensures letter { IsLetter (length self.now) result }
    {
        self.images[x as usize - 1]
    }

    /// The letter that the permutation sends to the letter `y`.
    pub fn apply_back(&self, y: u8) -> u8
        requires { IsLetter (length self.now) y }
        ensures value { result ≡ preimage self.now y }
        ensures letter { IsLetter (length self.now) result }
    {
        place_of(&self.images[..self.count as usize], y)
    }

    /// First this permutation, then `q`, which permutes the same letters.
    pub fn then(&self, q: &Perm) -> Perm
        requires { length self.now ≡ length q.now }
        ensures { result ≡ composite self.now q.now }
    {
        // The check knows what q keeps once it has met one of its fields.
        let _count = q.count;
        let mut images = [0; 8];
        for i in 0..self.count as usize {
            images[i] = q.apply(self.images[i]);
        }
        Perm {
            count: self.count,
            images,
        }
    }

    /// The permutation that undoes this one.
    pub fn inverse(&self) -> Perm
        ensures { result ≡ inverse_permutation self.now }
    {
        let mut images = [0; 8];
        for i in 0..self.count {
            images[i as usize] = place_of(&self.images[..self.count as usize], i + 1);
        }
        Perm {
            count: self.count,
            images,
        }
    }

    /// How many permutations of its letters come before it, where they stand in the lexicographic
    /// order of their lists of images: 0 for the identity, below 8! = 40,320 for any. It is computed
    /// by the code of Lehmer.
    pub fn rank(&self) -> u32
        ensures value { result ≡ rank self.now }
        ensures below { result < factorial (length self.now) }
        ensures most { result < 40320 }
    {
        rank_of(&self.images[..self.count as usize])
    }

    /// The permutation with the rank `r` among those of the alphabet's letters, as `rank` counts;
    /// `None` exactly where `r` is not below the number of these permutations, d! for d letters.
    pub fn of_rank(a: Alphabet, r: u32) -> Option<Perm>
        ensures accepts { IsSome result ↔ (r < factorial a) }
        ensures value { IfSome result (λ p. IsPermutation a p × (rank p ≡ r)) }

        // There is no other.
        ensures only { (p : List ℕ) → IsPermutation a p → rank p ≡ r → result ≡ Some p }
    {
        let count = a.letters();
        let images = images_of_rank(count, r)?;
        Some(Perm { count, images })
    }
}
