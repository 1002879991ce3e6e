use krn_base::{Fault, Kind, Loc, Seq};
use view_places::Array;

/// A value that a kernel returns.
#[derive(Debug, PartialEq, Eq, Drop)]
pub enum Value {
    Word(Kind, i64),
    Array(Array),
}

/// What a call of a kernel leaves: its values, the final words of each buffer of the call, and the fault with its
/// place if there was one. A call with a fault has no values.
#[derive(Debug, PartialEq, Eq, Drop)]
pub struct Outcome {
    pub ret: Seq<Value>,
    pub buffers: Seq<Seq<i64>>,
    pub fault: Option<(Fault, Loc)>,
}

/// What a run of a loop program did. Each count stays at 2^64-1 once it is there.
#[derive(Clone, Copy, Debug, PartialEq, Eq)]
pub struct Counts {
    /// Nests and folds that ran to their end.
    pub nests: u64,
    /// Nests among them that went through a temporary.
    pub temps: u64,
    /// Parallel loops whose guard held.
    pub parallel: u64,
    /// The other parallel loops that were reached.
    pub serial: u64,
}
