//! The rule Recursion: chains of own calls from exported functions.
//!
//! [`recursion`] refuses a module at its first call that leads back to the function it stands in, or that is the 33rd
//! of a chain.
#![tactic(auto)]

mod graph;
mod layers;
mod marks;
mod ranks;
mod reach;
mod rule;
#[cfg(test)]
mod tests;

pub use graph::{OwnCall, own_calls};
pub use reach::reached;
pub use rule::recursion;
