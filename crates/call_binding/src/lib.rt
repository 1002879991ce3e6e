//! The words behind a module and a kernel, and their binding to a call of that kernel.
#![tactic(auto)]

mod call;
mod files;
mod fitting;
mod head;
mod integer;
mod items;
mod order;
mod read;
mod rows;
#[cfg(test)]
mod tests;
mod text;
mod views;

pub use call::bind;
pub use head::{BindStop, BoundCall, KernelHead, Save};
pub use integer::read_integer;
pub use items::{Item, Subscript};
