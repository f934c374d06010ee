//! Images of rays.

use crate::answer::{Answer, Stop};
use fr_machine::Minimal;
use fr_ray::{Ray, RayFault, RayText, act};
use std::alloc::Global;

/// Finds the image under an element of the ray whose period has `count` letters, all 1 but the last, which is 2, so many
/// times.
pub fn find_image(
    alloc: Global,
    element: &Minimal,
    count: u32,
    times: u32,
) -> Result<Answer, Stop> {
    let a = element.machine().alphabet();
    let text = periodic(alloc, count)?;
    let ray = match Ray::read(alloc, a, &text) {
        Ok(ray) => ray,
        Err(RayText::NoMemory) => return Err(Stop::NoMemory),
        Err(_) => return Err(Stop::Usage),
    };
    let mut answer = Answer::RayPassed;
    for _ in 0..times {
        answer = match act(alloc, element, &ray) {
            Ok(image) => Answer::Ray(image.before().len(), image.period().len()),
            Err(RayFault::RayPassed) => Answer::RayPassed,
            Err(RayFault::NoMemory) => return Err(Stop::NoMemory),
        };
    }
    Ok(answer)
}

// The text of the ray.
fn periodic(alloc: Global, count: u32) -> Result<Vec<u8>, Stop> {
    let mut text = Vec::new(alloc);
    text.push(b'(')?;
    for _ in 1..count {
        text.push(b'1')?;
    }
    text.push(b'2')?;
    text.push(b')')?;
    Ok(text)
}
