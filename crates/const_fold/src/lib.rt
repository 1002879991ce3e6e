//! Constant folding: a name that always holds one literal is replaced by it, and an `If` on a literal by its part.
#![tactic(auto)]

mod copies;
mod laws;
mod learning;
mod literals;
mod program;
mod round;
mod tallies;
#[cfg(test)]
mod tests;

pub use program::fold;
