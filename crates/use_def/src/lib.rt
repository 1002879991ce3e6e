//! The rule Unassigned: reads of names that some path leaves unassigned.
//!
//! [`assigned`] refuses a module at the first read in the text of a name that some path through its function doesn't
//! bind before.
#![tactic(auto)]

mod names;
mod reads;
mod rule;
#[cfg(test)]
mod tests;
mod walk;

pub use rule::assigned;
