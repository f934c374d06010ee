//! Where the canonical form of a ray stands in letters that it begins with, of which those from a place on are its period.

ghost use Rattle.std.specs.Prelude.{ℕ, ◌≡◌, ◌+◌, ◌<◌, ◌≤◌, ◌⊎◌, ◌↔◌, IsNone, IsTrue, IfSome, drop, length, take};
ghost use Rattle.fr_model.specs.Words.{IsWord};
ghost use Rattle.fr_ray.specs.Forms.{IsForm, IsLongRay, IsPeriod, IsPrimitive, IsRolled};

use crate::ray::LETTER_LIMIT;

/// So many of the letters stand before the period, and so many behind them are the period.
#[derive(Clone, Copy)]
pub(crate) struct Form {
    pub(crate) before: usize,
    pub(crate) period: usize,
}

impl Form {
    /// The form with the least period, and with that the least beginning; `None` exactly where it has more than 4,096
    /// letters.
    pub(crate) fn new(letters: &[u8], start: usize) -> Option<Form>
        requires { start < length letters.now }
        ensures found { IfSome result (λ f. IsForm letters.now start f.before f.period) }
        ensures passed { IsNone result → (d : ℕ) → IsWord d letters.now → IsLongRay d (take start letters.now) (drop start letters.now) }
    {
        let period = primitive_period(&letters[start..])?;
        let before = least_beginning(letters, start, period);
        if before + period > LETTER_LIMIT {
            None
        } else {
            Some(Form { before, period })
        }
    }
}

// The least divisor of the length after which the letters come again, unless it is above the limit. Each divisor up to the
// root is tried together with its cofactor.
fn primitive_period(letters: &[u8]) -> Option<usize>
    requires { 0 < length letters.now }
    ensures found { IfSome result (IsPrimitive letters.now) }
    ensures passed { IsNone result → (p : ℕ) → IsPrimitive letters.now p → 4096 < p }
{
    let count = letters.len();
    let mut best = count;
    let mut p = 1;
    while p <= count / p {
        if is_period(letters, p) {
            return Some(p);
        }
        best = better_period(letters, count / p, best);
        p += 1;
    }
    if best > LETTER_LIMIT {
        None
    } else {
        Some(best)
    }
}

// The first number where it is a period within the limit, and else the second.
fn better_period(letters: &[u8], p: usize, best: usize) -> usize
    requires some { 0 < p }
    requires within { p ≤ length letters.now }
    ensures better { IsPeriod letters.now p → p ≤ 4096 → result ≡ p }
    ensures only { (result ≡ best) ⊎ ((result ≡ p) × IsPeriod letters.now p) }
{
    if p <= LETTER_LIMIT && is_period(letters, p) {
        p
    } else {
        best
    }
}

// Whether p divides the length, and the letters come again after p.
fn is_period(letters: &[u8], p: usize) -> bool
    requires some { 0 < p }
    requires within { p ≤ length letters.now }
    ensures { IsTrue result ↔ IsPeriod letters.now p }
{
    letters.len() % p == 0 && letters[p..] == letters[..letters.len() - p]
}

// How far the letters before the start are those that stand a period behind them.
fn least_beginning(letters: &[u8], start: usize, period: usize) -> usize
    requires { start + period ≤ length letters.now }
    ensures { IsRolled letters.now start period result }
{
    let mut begin = start;
    while begin > 0 && letters[begin - 1 + period] == letters[begin - 1] {
        begin -= 1;
    }
    begin
}
