//! The numbers, places and plain data that every other crate stands on.
#![tactic(auto)]

mod boxed;
mod element;
mod fault;
mod kind;
mod laws;
mod list;
mod operation;
mod place;
mod reduction;
mod refusal;
mod words;

pub use boxed::Boxed;
pub use element::{elem_op, scalar_op, un_op};
pub use fault::Fault;
pub use kind::{Kind, ParamType};
pub use laws::{
    bit_laws, division_laws, join_laws, power_laws, range_laws, reduce_laws, shift_laws, wrap_laws,
};
pub use list::{Seq, Text};
pub use operation::{BinOp, Join, UnOp};
pub use place::Loc;
pub use reduction::{AndAll, MaxOf, MinOf, OrAll, Prod, Reduce, Sum, XorAll, join, unit};
pub use refusal::{NoMemory, Refusal, Rule, Stop};

#[cfg(test)]
mod tests;
