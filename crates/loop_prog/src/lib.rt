//! The loop program of a kernel: registers, buffers, nests of one element after another, and what a run of it gives.
#![tactic(auto)]

mod checking;
mod flows;
mod guard;
mod heads;
mod inspect;
mod invalid;
mod joins;
mod kept;
mod kinds;
mod known;
mod marks;
mod paths;
mod program;
mod ranks;
mod registers;
mod template_kinds;
mod templates;

pub use array_ops::Fill;
pub use checking::check;
pub use eager_rules::{CoreSub, Counts, Oper, WordOp};
pub use guard::{Axis, Dims, Form, Guard, GuardPart, Symbol};
pub use invalid::{CheckStop, InvalidRule};
pub use program::{Back, Kernel, LoopProgram, Reg, Statement, Template, TemplateStep, Test};

#[cfg(test)]
mod tests;
