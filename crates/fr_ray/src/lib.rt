//! Rays, which are eventually periodic infinite words: their one canonical form, their texts, and their images under the
//! elements of automata groups.
#![tactic(auto)]

mod fault;
mod form;
mod image;
mod laws;
mod printing;
mod ray;
mod reading;
#[cfg(test)]
mod tests;

pub use fault::{RayFault, RayText};
pub use image::act;
pub use laws::rays_have_forms;
pub use ray::Ray;
