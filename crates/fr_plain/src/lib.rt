//! The plain evaluation of scripts: its definitions, and the laws that they determine what is written.
#![tactic(auto)]

mod laws;

pub use laws::{held_is_determined, outcomes_are_determined, plain_is_determined};
