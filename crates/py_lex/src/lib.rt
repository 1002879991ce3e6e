//! The tokens of a kernel module.
//!
//! A module's text is a list of bytes in Python's layout: lines end at LF or CR LF, blocks are indented by spaces,
//! brackets and a `\` at a line's end join lines. [`tokens`] cuts it up in one pass.
#![tactic(auto)]

mod bytes;
mod layout;
mod lexer;
mod number;
mod piece;
mod place;
mod quote;
#[cfg(test)]
mod tests;
mod token;
mod words;

pub use lexer::tokens;
pub use number::number_value;
pub use token::{Token, TokenKind, Tokens};
