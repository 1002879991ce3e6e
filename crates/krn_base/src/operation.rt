/// An operation on two words, named after Python's operator or NumPy's function.
#[derive(Clone, Copy, Debug, PartialEq, Eq)]
pub enum BinOp {
    Add,
    Sub,
    Mul,
    FloorDiv,
    Mod,
    Shl,
    Shr,
    And,
    Or,
    Xor,
    Min,
    Max,
    Eq,
    Ne,
    Lt,
    Le,
    Gt,
    Ge,
}

/// An operation on one word.
#[derive(Clone, Copy, Debug, PartialEq, Eq)]
pub enum UnOp {
    Neg,
    /// `~` on an int.
    Inv,
    /// `not`, and `~` on a bool.
    Flip,
    Abs,
    /// 1 for a word other than 0.
    Test,
    Copy,
    /// A power by an exponent from 0 to 62.
    Pow(u8),
}

/// A reduction of a list of words to one, from its unit.
#[derive(Clone, Copy, Debug, PartialEq, Eq)]
pub enum Join {
    Sum,
    Prod,
    And,
    Or,
    Xor,
    Max,
    Min,
}
