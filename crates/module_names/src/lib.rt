//! The rules Profile and Name: tests over the tree of a module alone, before any value has a type.
#![tactic(auto)]

mod forms;
mod least;
mod listing;
mod naming;
mod node;
mod set;
#[cfg(test)]
mod tests;
mod words;

pub use forms::{begins_with_call, profile};
pub use least::{answer_first, is_before, sooner};
pub use listing::{Listing, list_expression, list_function};
pub use naming::{is_assigned, is_taken, names};
pub use node::{Maker, Node, Role, name_in};
pub use words::{Words, words_of};
