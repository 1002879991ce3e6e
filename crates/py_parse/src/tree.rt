//! The trees of a module.

use krn_base::{BinOp, Boxed, Loc, Seq, Text};
use py_lex::Token;

/// A name and the place where it stands.
#[derive(Debug, PartialEq, Eq, Drop)]
pub struct Name {
    pub text: Text,
    pub loc: Loc,
}

/// A module: its imports, its functions and its notes, each in the order of the source.
#[derive(Debug, PartialEq, Eq, Drop)]
pub struct Module {
    pub imports: Seq<Import>,
    pub functions: Seq<Function>,
    pub notes: Seq<Note>,
}

/// `import module as alias`.
#[derive(Debug, PartialEq, Eq, Drop)]
pub struct Import {
    pub module: Name,
    /// The module's own name where the import gives no other.
    pub alias: Name,
}

/// A function.
#[derive(Debug, PartialEq, Eq, Drop)]
pub struct Function {
    pub name: Name,
    pub params: Seq<Name>,
    pub body: Seq<Stmt>,
    /// How many tokens it has, from its `def` to the Dedent or, where its body stands on the same line, the Newline
    /// that ends it.
    pub weight: u32,
}

/// A comment for the compiler.
#[derive(Debug, PartialEq, Eq, Drop)]
pub struct Note {
    /// The whole comment, from its `#`.
    pub text: Text,
    pub loc: Loc,
    /// The first token behind it that is neither an Indent nor a Dedent.
    pub next: Token,
}

/// A statement.
#[derive(Debug, PartialEq, Eq, Drop)]
pub enum Stmt {
    /// A text that stands alone.
    Doc,
    Pass,
    /// The place of `return`, and the values.
    Return(Loc, Seq<Expr>),
    /// An expression that stands alone.
    Alone(Expr),
    /// The target, the place of `=`, and the value.
    Assign(Expr, Loc, Expr),
    /// The target, the operation and the place of its operator, and the value.
    Augment(Expr, BinOp, Loc, Expr),
    /// The places of `if` and of each `elif` with their conditions and blocks, and the block of `else`.
    If(Seq<(Loc, Expr, Seq<Stmt>)>, Seq<Stmt>),
    /// The place of `for`, the variable, what it runs through, and the block.
    For(Loc, Name, Expr, Seq<Stmt>),
}

/// An expression. Parentheses leave no node.
#[cycle(expressions)]
#[derive(Debug, PartialEq, Eq, Drop)]
pub enum Expr {
    Name(Name),
    Int(i64, Loc),
    /// `True` or `False`.
    Truth(bool, Loc),
    /// The place of its `(`, and the elements.
    Tuple(Loc, Seq<Expr>),
    /// Operands joined by operators of one level, from the left. A comparison has one operator.
    Chain(Boxed<Expr>, Seq<(BinOp, Loc, Expr)>),
    /// Operands joined by `and` where the first field is true, else by `or`, from the left.
    Logic(bool, Boxed<Expr>, Seq<(Loc, Expr)>),
    Not(Loc, Boxed<Expr>),
    /// The operator's byte, `-`, `+` or `~`, its place, and the operand.
    Prefix(u8, Loc, Boxed<Expr>),
    /// The base, the place of `**`, and the exponent.
    Power(Boxed<Expr>, Loc, i64),
    /// What is called, picked from or asked for an attribute, which is no `Primary` itself, and the trailers in order,
    /// at least one.
    Primary(Boxed<Expr>, Seq<Trailer>),
}

/// What stands behind an expression and belongs to it.
#[cycle(expressions)]
#[derive(Debug, PartialEq, Eq, Drop)]
pub enum Trailer {
    /// The place of the `(`, and the arguments.
    Call(Loc, Seq<Arg>),
    /// The place of the `[`, and the subscripts, at least one.
    Pick(Loc, Seq<Sub>),
    Attr(Name),
}

/// An argument of a call.
#[cycle(expressions)]
#[derive(Debug, PartialEq, Eq, Drop)]
pub struct Arg {
    /// What stands before its `=`.
    pub key: Option<Expr>,
    pub value: Expr,
}

/// A subscript.
#[cycle(expressions)]
#[derive(Debug, PartialEq, Eq, Drop)]
pub enum Sub {
    At(Expr),
    /// A slice by start, stop and step.
    Cut(Option<Expr>, Option<Expr>, Option<Expr>),
}
