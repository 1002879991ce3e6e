//! The text that the command prints of a finished call.
#![tactic(auto)]

mod elements;
mod head;
mod lines;
mod text;

pub use head::BufferHead;
pub use text::report;

#[cfg(test)]
mod tests;
