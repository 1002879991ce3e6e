//! What calls of a program's instances may do: which parameters they may write, and whether they may fault.
#![tactic(auto)]

mod answers;
mod faulting;
mod learning;
mod listing;
mod marks;
mod reach;
mod rows;
mod summary;
#[cfg(test)]
mod tests;
mod uses;

pub use answers::Effects;
pub use learning::effects;
