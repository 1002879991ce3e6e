//! Loop programs that may run: those that the check takes, with their parallel loops placed.
#![tactic(auto)]

mod placing;
mod seek;
#[cfg(test)]
mod tests;
mod valid;

pub use placing::{place_loops, validate};
pub use valid::ValidProgram;
