//! Rays in their canonical form.

ghost use Rattle.std.specs.Prelude.{ℕ, ◌≡◌, ◌+◌, ◌<◌, ◌≤◌, ◌↔◌, ◌++◌, Err, IsTrue, IfOk, drop, length, take};
ghost use Rattle.fr_model.specs.Words.{IsWord};
ghost use Rattle.fr_model.specs.Rays.{IsCanonicalRay, IsSameRay};
ghost use Rattle.fr_ray.specs.Forms.{IsLongRay};

use crate::fault::RayFault;
use crate::form::Form;
use fr_alphabet::NoMemory;
use std::alloc::Global;
use std::marker::Model;

// The most letters that a ray has before its period and in it together.
pub(crate) const LETTER_LIMIT: usize = 4096;

/// An eventually periodic infinite word, `u v v v ..` for words `u` and `v`, where `v` is not empty. It is an end of the tree
/// of words (Nekrashevych, *Self-Similar Groups*, chapter 1).
///
/// It is kept in its one canonical form, in which `v` and then `u` are as short as can be, with at most 4,096 letters in
/// both together.
#[derive(Debug, Drop)]
pub struct Ray {
    before: Vec<u8>,
    period: Vec<u8>,
}

// Clauses see both words.
impl Model for Ray {
    ghost use Rattle.fr_ray.specs.Rays.{RayView, IsBoundedRay};

    ghost Value = { RayView };

    ghost view = { λ r. record { before = r.before.items; period = r.period.items } };

    ghost invariant = { λ r. IsBoundedRay (record { before = r.before.items; period = r.period.items }) };
}

impl Ray {
    /// The ray that begins with the letters of `before` and goes on with those of `period` for ever. There are at most 4,096
    /// of them, each a letter of some alphabet, so in 1..=8, and the period is not empty. The only error is want of memory.
    pub fn of_words(alloc: Global, before: &[u8], period: &[u8]) -> Result<Ray, NoMemory>
        requires before_valid { IsWord 8 before.now }
        requires period_valid { IsWord 8 period.now }
        requires some { 0 < length period.now }
        requires most { length before.now + length period.now ≤ 4096 }
        ensures same { IfOk result (λ r. IsSameRay before.now period.now r.before r.period) }
        ensures canonical { IfOk result (λ r. (d : ℕ) → IsWord d before.now → IsWord d period.now → IsCanonicalRay d r.before r.period) }
    {
        let mut letters = Vec::with_capacity(alloc, before.len() + period.len())?;
        letters.extend_from_slice(before)?;
        letters.extend_from_slice(period)?;
        Ray::of_few(alloc, &letters, before.len())
    }

    /// The letters before the period; none where the ray is periodic from its first letter on.
    pub fn before(&self) -> &[u8]
        ensures value { result.now ≡ self.now.before }
        ensures canonical { IsCanonicalRay 8 self.now.before self.now.period }
        ensures most { length self.now.before + length self.now.period ≤ 4096 }
    {
        &self.before
    }

    /// The letters of the period, at least one.
    pub fn period(&self) -> &[u8]
        ensures value { result.now ≡ self.now.period }
        ensures canonical { IsCanonicalRay 8 self.now.before self.now.period }
        ensures most { length self.now.before + length self.now.period ≤ 4096 }
    {
        &self.period
    }

    /// The same ray in memory of its own. The only error is want of memory.
    pub fn copy(&self, alloc: Global) -> Result<Ray, NoMemory>
        ensures { IfOk result (λ r. r ≡ self.now) }
    {
        Ok(Ray {
            before: Vec::from_slice(alloc, &self.before)?,
            period: Vec::from_slice(alloc, &self.period)?,
        })
    }

    /// Whether both are the same infinite word.
    pub fn equal(&self, other: &Ray) -> bool
        ensures { IsTrue result ↔ IsSameRay self.now.before self.now.period other.now.before other.now.period }
    {
        self.before() == other.before() && self.period() == other.period()
    }

    // The ray that the letters begin, of which those from the start on are its period.
    pub(crate) fn of_letters(alloc: Global, letters: &[u8], start: usize) -> Result<Ray, RayFault>
        requires inside { start < length letters.now }
        requires valid { IsWord 8 letters.now }
        ensures same { IfOk result (λ r. IsSameRay (take start letters.now) (drop start letters.now) r.before r.period) }
        ensures canonical { IfOk result (λ r. (d : ℕ) → IsWord d letters.now → IsCanonicalRay d r.before r.period) }
        ensures few { IfOk result (λ r. length r.before + length r.period ≤ 4096) }
        ensures passed { result ≡ Err RayFault.RayPassed → (d : ℕ) → IsWord d letters.now → IsLongRay d (take start letters.now) (drop start letters.now) }
    {
        let Some(form) = Form::new(letters, start) else {
            return Err(RayFault::RayPassed);
        };
        Ok(Ray {
            before: Vec::from_slice(alloc, &letters[..form.before])?,
            period: Vec::from_slice(alloc, &letters[form.before..form.before + form.period])?,
        })
    }

    // The same for so few letters that the canonical form has not too many.
    pub(crate) fn of_few(alloc: Global, letters: &[u8], start: usize) -> Result<Ray, NoMemory>
        requires inside { start < length letters.now }
        requires valid { IsWord 8 letters.now }
        requires most { length letters.now ≤ 4096 }
        ensures same { IfOk result (λ r. IsSameRay (take start letters.now) (drop start letters.now) r.before r.period) }
        ensures canonical { IfOk result (λ r. (d : ℕ) → IsWord d letters.now → IsCanonicalRay d r.before r.period) }
    {
        match Ray::of_letters(alloc, letters, start) {
            Ok(ray) => Ok(ray),
            Err(RayFault::NoMemory) => Err(NoMemory),
            Err(RayFault::RayPassed) => unreachable!(),
        }
    }
}
