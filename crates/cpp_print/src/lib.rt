//! The C++ text of loop programs.
#![tactic(auto)]

mod blocks;
mod front;
mod guards;
mod laws;
mod names;
mod names_fit;
mod output;
mod parts;
mod printable;
mod printing;
mod programs;
mod statements;
mod template;
mod words;

pub use laws::checked_is_printable;
pub use printable::is_printable;
pub use printing::print;

#[cfg(test)]
mod tests;
