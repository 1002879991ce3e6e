//! The core of a module, and what evaluating it one whole-array operation after another gives.
#![tactic(auto)]

mod array_work;
mod assigned;
mod call;
mod eval;
mod evaluation;
mod frame;
mod fresh_work;
mod heap;
mod laws;
mod map_work;
mod outcome;
mod program;
mod small;
mod state;
mod statement;
mod subscripts;
#[cfg(test)]
mod tests;
mod turns;
mod work;

pub use array_ops::{Fill, MapOp, RedOp};
pub use assigned::all_assigned;
pub use call::{Arg, Call};
pub use evaluation::eager;
pub use laws::{
    calls_end, laws_of_all_programs, operations_leave_buffers, sound_is_never_stuck,
    stores_are_read, typed_has_small_powers, typed_runs_keep_types, unread_names_change_nothing,
};
pub use outcome::{Counts, Outcome, Value};
pub use program::{Core, CoreSub, Instance, Oper, Program, WordOp};
pub use small::has_small_powers;
