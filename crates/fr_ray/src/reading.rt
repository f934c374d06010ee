//! How rays are read.

ghost use Rattle.std.specs.Prelude.{ℕ, ◌≡◌, ◌+◌, ◌<◌, ◌≤◌, ◌⊎◌, ◌++◌, IfOk, IfErr, None, Ok, OnOk, Err, Some, length, map};
ghost use Rattle.fr_alphabet.specs.Reading.{bad_place, letter_of_digit};
ghost use Rattle.fr_model.specs.Rays.{IsCanonicalRay};
ghost use Rattle.fr_ray.specs.Reading.{IsReading, behind_digits, digits_of, period_shape, ray_reading, ray_shape};

use crate::fault::RayText;
use crate::ray::Ray;
use fr_alphabet::Alphabet;
use std::alloc::Global;

// The most bytes of the text of a ray.
const TEXT_LIMIT: usize = 4098;

/// The digits before the period of a ray, and those of the period.
#[derive(Clone, Copy)]
struct Parts<'a> {
    before: &'a [u8],
    period: &'a [u8],
}

impl Ray {
    /// Reads a ray over the alphabet: digits for the letters before the period, of which there may be none, and in
    /// parentheses the digits of the period, as `12(21)`. Any way to write the ray is taken.
    ///
    /// Errors, the first that holds: `WordTooLong` where the text has more than 4,098 bytes; `EmptyPeriod` where it is digits
    /// followed by `()`; `Syntax(place)` where it is not of that form, with the first place where it cannot go on, which is
    /// one past the end where it ends too early; `NotALetter(place)` where a digit is no letter, with the first such place.
    /// `NoMemory` may come before `NotALetter`.
    pub fn read(alloc: Global, a: Alphabet, text: &[u8]) -> Result<Ray, RayText>
        ensures ok { IfOk result (IsReading a text.now) }
        ensures err { IfErr result (λ e. (e ≡ RayText.NoMemory) ⊎ (ray_reading a text.now ≡ Err e)) }
        ensures canonical { IfOk result (λ r. IsCanonicalRay a r.before r.period) }
    {
        if text.len() > TEXT_LIMIT {
            return Err(RayText::WordTooLong);
        }
        let parts = Parts::of(text)?;
        let start = parts.before.len();
        let mut letters = Vec::with_capacity(alloc, text.len())?;
        push_letters(a, parts.before, 1, &mut letters)?;
        push_letters(a, parts.period, start + 2, &mut letters)?;
        let ray = Ray::of_few(alloc, &letters, start)?;
        Ok(ray)
    }
}

impl<'a> Parts<'a> {
    fn of(text: &'a [u8]) -> Result<Parts<'a>, RayText>
        requires { length text.now ≤ 4098 }
        ensures ok { IfOk result (λ p. ray_shape text.now ≡ Ok (record { before = p.before.now; period = p.period.now })) }
        ensures err { IfErr result (λ e. ray_shape text.now ≡ Err e) }
    {
        let before = digits(text);
        let rest = &text[before.len()..];
        if rest.is_empty() || rest[0] != b'(' {
            return Err(RayText::Syntax(before.len() as u32 + 1));
        }
        Parts::of_period(before, &rest[1..])
    }

    // With what follows the opening parenthesis.
    fn of_period(before: &'a [u8], text: &'a [u8]) -> Result<Parts<'a>, RayText>
        requires { length before.now + length text.now ≤ 4098 }
        ensures ok { IfOk result (λ p. period_shape before.now (digits_of text.now) (behind_digits text.now) ≡ Ok (record { before = p.before.now; period = p.period.now })) }
        ensures err { IfErr result (λ e. period_shape before.now (digits_of text.now) (behind_digits text.now) ≡ Err e) }
    {
        let period = digits(text);
        let rest = &text[period.len()..];
        let place = (before.len() + period.len()) as u32 + 2;
        let closed = !rest.is_empty() && rest[0] == b')';
        if closed && rest.len() == 1 {
            if period.is_empty() {
                Err(RayText::EmptyPeriod)
            } else {
                Ok(Parts { before, period })
            }
        } else if closed && !period.is_empty() {
            Err(RayText::Syntax(place + 1))
        } else {
            Err(RayText::Syntax(place))
        }
    }
}

// The digits that the text begins with.
fn digits(text: &[u8]) -> &[u8]
    ensures { result.now ≡ digits_of text.now }
{
    for (i, c) in text.iter().enumerate() {
        if *c < b'0' || *c > b'9' {
            return &text[..i];
        }
    }
    text
}

// Appends the letters of digits, of which the first stands at this place of the text.
fn push_letters(
    a: Alphabet,
    digits: &[u8],
    place: usize,
    letters: &mut Vec<u8>,
) -> Result<(), RayText>
    requires { place + length digits.now ≤ 8192 }
    ensures most { a ≤ 8 }
    ensures good { OnOk result (bad_place a place digits.now ≡ None) }
    ensures letters { OnOk result (letters.new.items ≡ letters.old.items ++ map letter_of_digit digits.now) }
    ensures err { IfErr result (λ e. (e ≡ RayText.NoMemory) ⊎ ((k : ℕ) × (bad_place a place digits.now ≡ Some k) × (e ≡ RayText.NotALetter k))) }
{
    let d = a.letters();
    letters.reserve(digits.len())?;
    for (i, digit) in digits.iter().enumerate() {
        if *digit < b'1' || *digit > b'0' + d {
            return Err(RayText::NotALetter((place + i) as u32));
        }
        letters.push_reserved(*digit - b'0');
    }
    Ok(())
}
