//! Types of a module's terms, and its core: each kernel, and each function that one calls, once for each list of
//! argument types.
#![tactic(auto)]

mod body;
mod checked;
mod cores;
mod fitting;
mod instances;
mod keys;
mod known;
mod modules;
mod numbering;
mod rows;
mod settle;
mod shape;
mod state;
mod steps;
#[cfg(test)]
mod tests;
mod walk;

pub use keys::Keys;
pub use known::Known;
pub use modules::typed_terms;
pub use state::{Key, Range, Signature, State, Target, Ty, Value};
