use crate::bank::Bank;
use array_ops::{Operand, Subscript};
use eager_rules::Counts;
use krn_base::{Fault, Loc, Seq};
use view_places::{Shape, View};

/// A run of a kernel: what it holds, and what it has counted.
#[derive(Debug, Drop)]
pub struct Running {
    pub bank: Bank,
    pub counts: Counts,
    /// Room in which a statement lists shapes, kept for the next one.
    pub shapes: Vec<Shape>,
    /// Room in which a statement lists subscripts, kept for the next one.
    pub subscripts: Vec<Subscript>,
}

/// How a statement ends.
#[derive(Debug, Drop)]
pub enum Ending {
    /// The next statement follows.
    GoesOn,
    Returned(Seq<Operand>),
    Faulted(Fault, Loc),
    /// It has no meaning on what it was given. In a checked program none ends so.
    Stuck,
}

/// Why a statement makes nothing.
#[derive(Clone, Copy, Debug, PartialEq, Eq)]
pub enum Trouble {
    Failed(Fault, Loc),
    /// It can't be done. In a checked program it always can.
    Blocked,
}

/// What a statement makes for a scalar register.
pub type WordMade = Result<Option<i64>, Trouble>;

/// What a statement makes for a view register.
pub type ViewMade = Result<Option<View>, Trouble>;

/// What a statement that binds no register comes to.
pub type NothingMade = Result<(), Trouble>;
