use array_ops::{Fill, MapOp, RedOp};
use krn_base::{BinOp, Join, Kind, Loc, ParamType, Seq, Text, UnOp};

/// An operand: a literal, or the number of a name of its instance.
#[derive(Clone, Copy, Debug, PartialEq, Eq)]
pub enum Oper {
    Int(i64),
    Truth(bool),
    Name(u32),
}

/// An operation on scalars.
#[derive(Clone, Copy, Debug, PartialEq, Eq)]
pub enum WordOp {
    /// An operation on two words, with its faults.
    Bin(BinOp),
    /// An operation on one word.
    Un(UnOp),
    /// The word itself.
    Move,
}

/// A subscript: one index, or a slice by its start, stop and step.
#[derive(Clone, Copy, Debug, PartialEq, Eq)]
pub enum CoreSub {
    At(Oper),
    Cut(Option<Oper>, Option<Oper>, Option<Oper>),
}

/// A statement of the core. Each operation of an expression is a statement with a name of its own. `to`, `of` and
/// `var` are the numbers of names, and `at` is the place in the text at which the statement may fault.
#[derive(Debug, PartialEq, Eq, Drop)]
pub enum Core {
    /// An operation on scalars.
    Word {
        to: u32,
        op: WordOp,
        args: Seq<Oper>,
        at: Loc,
    },
    /// The extent of a dimension, numbered from 0, or the number of elements of the array.
    Extent {
        to: u32,
        of: u32,
        axis: Option<u8>,
    },
    /// One element read: as many subscripts as the array has dimensions.
    Get {
        to: u32,
        of: u32,
        index: Seq<Oper>,
        at: Loc,
    },
    /// One element written.
    Put {
        of: u32,
        index: Seq<Oper>,
        value: Oper,
        at: Loc,
    },
    /// A view by subscripts, which are applied from the first dimension on.
    Pick {
        to: u32,
        of: u32,
        subs: Seq<CoreSub>,
        at: Loc,
    },
    /// A view with the dimensions reversed: `a.T`.
    Flip {
        to: u32,
        of: u32,
    },
    /// The same array under another name.
    Alias {
        to: u32,
        of: u32,
    },
    /// A new array with these extents.
    Fresh {
        to: u32,
        dims: Seq<Oper>,
        fill: Fill,
        at: Loc,
    },
    /// An element operation into a new array, to which `to` is bound.
    Map {
        to: u32,
        op: MapOp,
        args: Seq<Oper>,
        at: Loc,
    },
    /// A reduction of all elements to a scalar.
    Reduce {
        to: u32,
        op: RedOp,
        of: u32,
        at: Loc,
    },
    /// An array store: the right side is read whole, then the elements are replaced.
    Store {
        of: u32,
        value: Oper,
        at: Loc,
    },
    /// A call of an own function. `to` has the names that the returned values are bound to; if it is empty they are
    /// dropped.
    Call {
        to: Seq<u32>,
        instance: u32,
        args: Seq<Oper>,
    },
    If {
        cond: Oper,
        yes: Seq<Core>,
        no: Seq<Core>,
    },
    /// A loop over Python's `range(lo, hi, step)`. `omp` has the reductions of the directive before it, if there is
    /// one.
    For {
        var: u32,
        lo: Oper,
        hi: Oper,
        step: Oper,
        at: Loc,
        omp: Option<Seq<(Join, u32)>>,
        body: Seq<Core>,
    },
    /// The end of the instance, with its values.
    Return {
        values: Seq<Oper>,
    },
}

/// A function for one list of parameter types. Its names are numbered from 0, the parameters first; a rank of 0 means
/// a scalar.
#[derive(Debug, PartialEq, Eq, Drop)]
pub struct Instance {
    pub name: Text,
    /// How many tokens the function has.
    pub weight: u32,
    pub params: Seq<(Text, ParamType)>,
    pub rets: Seq<(Kind, u8)>,
    pub names: Seq<(Kind, u8)>,
    pub body: Seq<Core>,
}

/// A module: its instances, and the numbers of those that are kernels, one for each signature in the order of the
/// notes.
#[derive(Debug, PartialEq, Eq, Drop)]
pub struct Program {
    pub instances: Seq<Instance>,
    pub kernels: Seq<u32>,
}
