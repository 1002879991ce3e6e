use view_places::View;

/// What a name, a register or an operand stands for.
#[derive(Clone, Copy, Debug, PartialEq, Eq)]
pub enum Operand {
    /// Nothing yet.
    Unbound,
    Word(i64),
    Array(View),
}
