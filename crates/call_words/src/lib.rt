//! The words of a command, read by `clap`, and the request that they make.
#![tactic(auto)]

mod command_line;
mod request;
#[cfg(test)]
mod tests;

pub use request::{Command, Request, read_request};
