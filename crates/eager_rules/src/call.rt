use krn_base::Seq;
use view_places::{Array, View};

/// An argument: a word, or a view of one of the call's buffers.
#[derive(Clone, Copy, Debug, PartialEq, Eq)]
pub enum Arg {
    Word(i64),
    Array(View),
}

/// A call: its buffers, numbered from 0, and its arguments in the order of the parameters.
#[derive(Debug, PartialEq, Eq, Drop)]
pub struct Call {
    pub buffers: Seq<Array>,
    pub args: Seq<Arg>,
}
