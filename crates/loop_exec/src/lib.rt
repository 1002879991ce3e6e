//! Runs of checked loop programs, one statement after another.
#![tactic(auto)]

mod array_work;
mod bank;
mod bank_calls;
mod element;
mod element_calls;
mod evaluation;
mod finding;
#[cfg(test)]
mod fitting;
mod fold;
mod laws;
mod leaf;
mod leaf_calls;
mod nest;
mod nested;
mod numbered;
#[cfg(test)]
mod programs;
mod ran;
mod registers;
mod run;
mod running;
mod shape_work;
mod shapes;
mod stack;
mod statements;
#[cfg(test)]
mod tests;
mod turns;
mod walks;
mod word_work;

pub use bank::Bank;
pub use evaluation::run_program;
pub use numbered::{run_direct, run_nest};
pub use ran::Ran;
