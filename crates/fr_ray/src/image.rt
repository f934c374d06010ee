//! The image of a ray under the element of a minimal machine.

ghost use Rattle.std.specs.Prelude.{ℕ, ◌≡◌, ◌+◌, ◌<◌, ◌≤◌, ◌++◌, Err, IfOk, OnOk, drop, length, take};
ghost use Rattle.fr_model.specs.Words.{IsWord};
ghost use Rattle.fr_model.specs.Terms.{act};
ghost use Rattle.fr_model.specs.Automata.{state_after};
ghost use Rattle.fr_model.specs.Rays.{IsCanonicalRay, IsRayImage};
ghost use Rattle.fr_machine.specs.Rows.{row_term, states_of};
ghost use Rattle.fr_ray.specs.Rays.{IsLongImage};

use crate::fault::RayFault;
use crate::ray::Ray;
use fr_alphabet::NoMemory;
use fr_machine::{FixedWalk, Machine, Minimal};
use std::alloc::Global;

/// Letters that an image begins with. Those from the start on come again for ever.
#[derive(Drop)]
struct Rounds {
    letters: Vec<u8>,
    start: usize,
}

/// The image of a ray under the element of a minimal machine over its alphabet, which is the action on the boundary of the
/// tree of words (Nekrashevych, *Self-Similar Groups*, chapter 1). It is eventually periodic, since a machine has finitely
/// many rows.
///
/// Errors: `RayPassed` exactly where the canonical form of the image has more than 4,096 letters; `NoMemory`.
pub fn act(alloc: Global, m: &Minimal, r: &Ray) -> Result<Ray, RayFault>
    requires before { IsWord m.now.alphabet r.now.before }
    requires period { IsWord m.now.alphabet r.now.period }
    ensures image { IfOk result (λ s. IsRayImage (row_term m.now.rows 0) r.now.before r.now.period s.before s.period) }
    ensures canonical { IfOk result (λ s. IsCanonicalRay m.now.alphabet s.before s.period) }
    ensures few { IfOk result (λ s. length s.before + length s.period ≤ 4096) }
    ensures only { IfOk result (λ _. ¬ IsLongImage m.now.alphabet (row_term m.now.rows 0) r.now) }
    ensures passed { result ≡ Err RayFault.RayPassed → IsLongImage m.now.alphabet (row_term m.now.rows 0) r.now }
{
    let rounds = image_rounds(alloc, m, r)?;
    Ray::of_letters(alloc, &rounds.letters, rounds.start)
}

// The image of the letters before the period, and of so many rounds of the period that a row comes again.
fn image_rounds(alloc: Global, m: &Minimal, r: &Ray) -> Result<Rounds, NoMemory>
    requires before { IsWord m.now.alphabet r.now.before }
    requires period { IsWord m.now.alphabet r.now.period }
    ensures inside { IfOk result (λ i. i.start < length i.letters.items) }
    ensures valid { IfOk result (λ i. IsWord m.now.alphabet i.letters.items) }
    ensures valid_of_8 { IfOk result (λ i. IsWord 8 i.letters.items) }
    ensures image { IfOk result (λ i. IsRayImage (row_term m.now.rows 0) r.now.before r.now.period (take i.start i.letters.items) (drop i.start i.letters.items)) }
{
    let machine = m.machine();
    let mut walk = FixedWalk::new(alloc)?;
    let mut letters = Vec::new(alloc);
    let mut row = run(machine, 0, r.before(), &mut letters)?;
    loop {
        let rounds = walk.count();
        let round = walk.number(row);
        if round < rounds {
            let start = r.before().len() + round as usize * r.period().len();
            return Ok(Rounds { letters, start });
        }
        row = run(machine, row, r.period(), &mut letters)?;
    }
}

// Appends the image of a word under a row, and gives the row behind the word.
fn run(machine: &Machine, row: u16, word: &[u8], letters: &mut Vec<u8>) -> Result<u16, NoMemory>
    requires row { row < length machine.now.rows }
    requires word { IsWord machine.now.alphabet word.now }
    ensures image { OnOk result (letters.new.items ≡ letters.old.items ++ act (row_term machine.now.rows row) word.now) }
    ensures behind { IfOk result (λ n. n ≡ state_after (states_of machine.now.rows) row word.now) }
    ensures below { IfOk result (λ n. n < length machine.now.rows) }
{
    let _alphabet = machine.alphabet();
    letters.reserve(word.len())?;
    let mut at = row;
    for x in word {
        letters.push_reserved(machine.output(at, *x));
        at = machine.next(at, *x);
    }
    Ok(at)
}
