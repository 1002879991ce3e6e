use krn_base::Seq;
use view_places::View;

/// What a run of a kernel holds. A register without a value is unassigned.
#[derive(Debug, Drop)]
pub struct Bank {
    /// The scalar registers.
    pub words: Seq<Option<i64>>,
    /// The view registers.
    pub views: Seq<Option<View>>,
    /// The words of the call's buffers and, behind them, of those that the run made.
    pub buffers: Seq<Seq<i64>>,
    /// How many buffers the call has.
    pub given: usize,
}
