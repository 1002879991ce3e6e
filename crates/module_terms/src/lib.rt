//! A module's tree with its operations resolved: what is called, which attribute is meant, and which loop a directive
//! stands before.
//!
//! [`resolve`] gives a term for each expression of the tree and a line for each of its statements.
#![tactic(auto)]

mod block;
mod build;
mod calls;
mod expression;
mod functions;
mod makers;
mod numpy;
mod reached;
mod rows;
mod statement;
mod targets;
mod term;
#[cfg(test)]
mod tests;

pub use functions::resolve;
pub use term::{Line, Loop, Operation, Part, Routine, Step, Term};
