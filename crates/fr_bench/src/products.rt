//! The product of two elements, and its smallest machine.

use crate::answer::{Answer, Stop};
use fr_machine::{Machine, Minimal};
use fr_minimal::{MinFault, minimize};
use fr_product::{ProductFault, product};
use std::alloc::Global;

/// Multiplies the elements of two machines over one alphabet, so many times.
pub fn multiply(alloc: Global, a: &Minimal, b: &Minimal, times: u32) -> Result<Answer, Stop> {
    let mut answer = Answer::PairsPassed;
    for _ in 0..times {
        answer = multiply_once(alloc, a, b)?;
    }
    Ok(answer)
}

// The product and its smallest machine.
fn multiply_once(alloc: Global, a: &Minimal, b: &Minimal) -> Result<Answer, Stop> {
    let left = a.machine().alphabet();
    let right = b.machine().alphabet();
    if left != right {
        return Err(Stop::Usage);
    }
    match product(alloc, a, 0, b, 0) {
        Ok(pairs) => reduce(alloc, &pairs),
        Err(ProductFault::PairsPassed) => Ok(Answer::PairsPassed),
        Err(ProductFault::NoMemory) => Err(Stop::NoMemory),
    }
}

// The smallest machine of a product.
fn reduce(alloc: Global, pairs: &Machine) -> Result<Answer, Stop> {
    let count = pairs.rows().len();
    match minimize(alloc, pairs, 0) {
        Ok(least) => Ok(Answer::Product(count, least.size())),
        Err(MinFault::StatesPassed) => Ok(Answer::StatesPassed(count)),
        Err(MinFault::NoMemory) => Err(Stop::NoMemory),
    }
}
