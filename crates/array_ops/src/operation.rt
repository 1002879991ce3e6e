use krn_base::{BinOp, UnOp};

/// An operation that works on whole arrays, element by element.
#[derive(Clone, Copy, Debug, PartialEq, Eq)]
pub enum MapOp {
    Bin(BinOp),
    Un(UnOp),
    /// `numpy.where`: the second operand where the first is true, else the third.
    Select,
}

/// A reduction of an array to a scalar, named after NumPy's function.
#[derive(Clone, Copy, Debug, PartialEq, Eq)]
pub enum RedOp {
    Sum,
    Prod,
    Min,
    Max,
    Any,
    All,
}

/// What a new array is filled with.
#[derive(Clone, Copy, Debug, PartialEq, Eq)]
pub enum Fill {
    Zero,
    One,
    /// 0, 1, 2 and on: `numpy.arange`.
    Count,
}
