//! How the places of a target and of a leaf that is read into it overlap. No call takes memory.
#![tactic(auto)]

mod apart_row;
mod divisor;
mod span;
mod table;
#[cfg(test)]
mod tests;
mod verdicts;

pub use table::Verdict;
pub use verdicts::{apart, verdict, verdict_law, walk_law};
