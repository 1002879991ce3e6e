// What a walk through a module has made so far.
use crate::keys::Keys;
use crate::known::Known;
use eager_rules::{Core, Instance, Oper};
use krn_base::{Kind, Loc, ParamType, Seq, Text};

/// A type: a kind and a rank; rank 0 means a scalar.
pub type Ty = (Kind, u8);

/// An operand with its type.
#[derive(Clone, Copy, Debug, PartialEq, Eq, Drop)]
pub struct Value {
    pub oper: Oper,
    pub ty: Ty,
}

/// What the value of an expression is bound to.
#[derive(Debug, PartialEq, Eq, Drop)]
pub enum Target {
    /// A new name without a text.
    Own,
    /// The name of a text, the place of the statement's first token, and that of its `=`.
    Into(Text, Loc, Loc),
}

/// What an instance is made for.
#[derive(Debug, PartialEq, Eq, Drop)]
pub enum Key {
    /// A signature. Calls have instances of their own.
    Kernel,
    /// The calls of a function, by its number, with arguments of these types.
    Called(u32, Seq<Ty>),
}

/// Instances in the order in which they are met, and the body that is being walked.
#[derive(Drop)]
pub struct State {
    pub keys: Keys,
    /// One for each key, once its body has been walked.
    pub instances: Seq<Option<Instance>>,
    /// The types of the body's names, by their numbers.
    pub types: Seq<Ty>,
    /// The numbers of the names that have a text.
    pub known: Known,
    /// Names of reductions, each with its place in this list: they wait for their numbers. One without a type must be
    /// a scalar int as soon as it has one.
    pub awaited: Known,
    /// The places of the `range` of their loops, in the same order.
    pub places: Seq<Loc>,
    /// The statements of the block so far.
    pub out: Seq<Core>,
    /// The types of the values of the first `return`.
    pub rets: Option<Seq<Ty>>,
}

/// The arguments of a `range`.
#[derive(Clone, Copy, Debug, PartialEq, Eq, Drop)]
pub struct Range {
    pub lo: Oper,
    pub hi: Oper,
    pub step: Oper,
}

/// A signature: the number of the exported function, the types of its parameters, and the place of its note.
#[derive(Debug, PartialEq, Eq, Drop)]
pub struct Signature {
    pub function: u32,
    pub params: Seq<ParamType>,
    pub loc: Loc,
}
