//! The plain form of a kernel: its core becomes statements of the loop program, with one nest for each element
//! operation and one fold for each reduction.
#![tactic(auto)]

mod closing;
mod flat;
mod forms;
mod laws;
mod lower;
mod plain_form;
mod registers;
mod template;

pub use flat::{has_flat_kernels, is_flat};
pub use plain_form::{plain, plain_program};

#[cfg(test)]
mod tests;
