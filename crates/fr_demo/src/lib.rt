//! The script of the demonstration.
#![tactic(auto)]

mod draws;
mod script;
#[cfg(test)]
mod tests;

pub use script::demo_script;
