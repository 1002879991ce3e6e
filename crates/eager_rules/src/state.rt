use array_ops::Operand;
use krn_base::{Fault, Loc, Seq};

/// The buffers, and for each how many values refer to it: names of running instances, arguments and returned values on
/// their way, and one more for each buffer of the call. A buffer to which none refers any more holds no words.
#[derive(Debug, Drop)]
pub struct Heap {
    pub buffers: Seq<Seq<i64>>,
    pub counts: Seq<u32>,
}

/// The state of an evaluation: the buffers, and what each name of the running instance stands for.
#[derive(Debug, Drop)]
pub struct State {
    pub heap: Heap,
    pub names: Seq<Operand>,
}

/// How a statement ends.
#[derive(Debug, Drop)]
pub enum Ending {
    /// The next statement follows.
    GoesOn,
    Returned(Seq<Operand>),
    Faulted(Fault, Loc),
    /// It reads what is unbound. A sound program never does.
    Stuck,
}

/// What the work of a statement comes to.
#[derive(Debug, Drop)]
pub enum Worked {
    Value(Operand),
    Nothing,
    Values(Seq<Operand>),
    Failed(Fault, Loc),
    /// It can't be done. In a sound program it always can.
    Blocked,
}
