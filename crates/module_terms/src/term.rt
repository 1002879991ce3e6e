//! The terms of a module: its tree with every operation resolved.

use array_ops::{Fill, RedOp};
use krn_base::{BinOp, Boxed, Join, Kind, Loc, Seq};
use py_parse::Name;

/// What an expression does with the values of its operands, whatever its spelling.
#[derive(Clone, Copy, Debug, PartialEq, Eq)]
pub enum Operation {
    /// An operator between two operands, `numpy.minimum` or `numpy.maximum`.
    Binary(BinOp),
    /// The built-in `min` or `max` of two int scalars: `Min` or `Max`.
    Least(BinOp),
    /// `-x`.
    Minus,
    /// `+x`.
    Plus,
    /// `~x`.
    Invert,
    /// `not x`.
    Not,
    /// `x ** k`, with an exponent from 0 to 62.
    Power(u8),
    /// `abs(x)` or `numpy.abs(x)`.
    Abs,
    /// `int(x)`.
    ToInt,
    /// `len(a)`.
    Length,
    /// `a.size`.
    Size,
    /// `a.shape[k]`: the literal k as it is written; a negative one counts from the last dimension.
    Extent(i64),
    /// `a.T`.
    Transpose,
    /// `numpy.copy(a)` or `a.copy()`.
    Copy,
    /// `numpy.where(c, x, y)`.
    Where,
    /// A reduction, as a function of `numpy` or as a method.
    Reduce(RedOp),
    /// `numpy.zeros`, `numpy.ones` or `numpy.empty` of this kind, by an operand for each dimension.
    Fresh(Fill, Kind),
    /// The same of the shape of its one operand, an array, asked for by `shape` at this place.
    FreshLike(Fill, Kind, Loc),
    /// `numpy.arange(n)`.
    Arange,
    /// A call that no row of the tables has: with another number of arguments, or with a kind that it doesn't take. It
    /// is refused once its operands are walked.
    None,
}

/// An expression.
#[cycle(terms)]
#[derive(Debug, PartialEq, Eq, Drop)]
pub enum Term {
    /// The value of a name.
    Name(Name),
    Int(i64),
    Truth(bool),
    /// An operation at its place, on its operands from left to right.
    Apply(Operation, Loc, Seq<Term>),
    /// Operands joined by `and` where the first field is true, else by `or`, from the left. Each place is that of the
    /// operator before its operand. There is at least one operator.
    Logic(bool, Boxed<Term>, Seq<(Loc, Term)>),
    /// A value, and what is done with it, one step after another, with the last step apart: a chain of operators, of
    /// attributes, of methods and of subscripts, however long it is, is one term.
    Steps(Boxed<Term>, Seq<Step>, Step),
    /// A call of an own function.
    Call(Name, Seq<Term>),
}

/// What is done with the value of all that stands before it.
#[cycle(terms)]
#[derive(Debug, PartialEq, Eq, Drop)]
pub enum Step {
    /// An operation at its place on that value and the operands behind it.
    Operate(Operation, Loc, Seq<Term>),
    /// The place of the `[`, and the subscripts.
    Pick(Loc, Seq<Part>),
}

/// A subscript.
#[cycle(terms)]
#[derive(Debug, PartialEq, Eq, Drop)]
pub enum Part {
    At(Term),
    /// A slice by start, stop and step.
    Cut(Option<Term>, Option<Term>, Option<Term>),
}

/// A statement. Texts and `pass` leave none; an `elif` is an `if` in the `else` of the one before it.
#[derive(Debug, PartialEq, Eq, Drop)]
pub enum Line {
    /// The place of `return`, and the values.
    Return(Loc, Seq<Term>),
    /// A call of an own function, alone.
    Alone(Name, Seq<Term>),
    /// `name = value`, with the place of `=`.
    Assign(Name, Loc, Term),
    /// `array[subscripts] = value`: the array, the place of `[`, the subscripts, the place of `=`, the value.
    Store(Term, Loc, Seq<Part>, Loc, Term),
    /// `name op= value`, with the place of the operator.
    AugmentName(Name, BinOp, Loc, Term),
    /// `array[subscripts] op= value`: the array, the place of `[`, the subscripts, the operation, the place of its
    /// operator, the value.
    AugmentPick(Term, Loc, Seq<Part>, BinOp, Loc, Term),
    /// The place of `if` or `elif`, the condition, and the two blocks.
    If(Loc, Term, Seq<Line>, Seq<Line>),
    /// A loop over a range.
    For(Loop, Seq<Line>),
}

/// The head of a loop: `for name in range(lo, hi, step)`.
#[derive(Debug, PartialEq, Eq, Drop)]
pub struct Loop {
    pub var: Name,
    /// The place of `range`.
    pub at: Loc,
    /// The arguments of `range`, one to three: the end; start and end; start, end and step.
    pub args: Seq<Term>,
    /// The reductions of the directive that stands before the loop, if one does.
    pub omp: Option<Seq<(Join, Name)>>,
}

/// A function.
#[derive(Debug, PartialEq, Eq, Drop)]
pub struct Routine {
    pub name: Name,
    pub params: Seq<Name>,
    /// How many tokens the function has.
    pub weight: u32,
    pub body: Seq<Line>,
}
