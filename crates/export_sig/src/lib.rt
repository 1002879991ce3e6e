//! What the notes of a module say: which functions it exports with which types, and which loops are parallel.
//!
//! [`exports`] reads the notes whose first word is `pythran`, [`directives`] those whose first word is `omp`.
#![tactic(auto)]

mod clause;
mod directive;
mod directive_list;
mod directive_note;
mod export_list;
mod export_note;
mod failure;
mod found;
mod functions;
mod loops;
mod names;
mod param_type;
mod signature;
#[cfg(test)]
mod tests;
mod words;

pub use directive::Directive;
pub use directive_list::directives;
pub use export_list::exports;
pub use signature::Signature;
