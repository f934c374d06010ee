//! The least word that tells two elements apart.

use crate::answer::{Answer, Stop};
use fr_machine::Minimal;
use fr_minimal::separate;
use std::alloc::Global;

/// Tells the elements of two machines over one alphabet apart, so many times.
pub fn tell_apart(alloc: Global, a: &Minimal, b: &Minimal, times: u32) -> Result<Answer, Stop> {
    let left = a.machine().alphabet();
    let right = b.machine().alphabet();
    if left != right {
        return Err(Stop::Usage);
    }
    let mut answer = Answer::Alike;
    for _ in 0..times {
        if let Some(word) = separate(alloc, a, 0, b, 0)? {
            answer = Answer::Word(word.letters().len());
        }
    }
    Ok(answer)
}
