use krn_base::Seq;

/// A number that is fixed while a parallel loop runs, or the variable of a loop.
#[derive(Clone, Copy, Debug, PartialEq, Eq)]
pub enum Symbol {
    /// A scalar register, by its number.
    Reg(u32),
    /// The extent of a view register, by its number, in a dimension.
    Extent(u32, u8),
}

/// An exact sum of a constant and of coefficients times symbols.
#[derive(Debug, PartialEq, Eq, Drop)]
pub struct Form {
    pub constant: i64,
    pub terms: Seq<(i64, Symbol)>,
}

/// How many entries an array has along one of its dimensions.
#[derive(Debug, PartialEq, Eq, Drop)]
pub enum Axis {
    /// The whole dimension of a view register.
    Extent(u32, u8),
    /// A slice of the dimension of a view register, by its start, stop and step.
    Count(u32, u8, Option<Form>, Option<Form>, Option<Form>),
}

/// The shape of an array, dimension by dimension.
#[derive(Debug, PartialEq, Eq, Drop)]
pub struct Dims {
    pub axes: Seq<Axis>,
}

/// One condition of a guard.
#[derive(Debug, PartialEq, Eq, Drop)]
pub enum GuardPart {
    /// A loop with its variable: both ends are within 64 bits, and it has a turn.
    Loop {
        var: u32,
        lo: Form,
        hi: Form,
        step: i64,
    },
    /// Two view registers with no place in common.
    Apart {
        a: u32,
        b: u32,
    },
    /// A subscript that stays inside a dimension of a view register at every turn.
    Inside {
        view: u32,
        axis: u8,
        form: Form,
    },
    /// Shapes that have a broadcast.
    Fits(Seq<Dims>),
    /// Shapes that have a broadcast, which has an element.
    Filled(Seq<Dims>),
    /// Shapes that spread to another one.
    Into {
        to: Dims,
        leaves: Seq<Dims>,
    },
}

/// The test before a parallel loop. Where all of it holds the loop runs in pieces, else as it stands.
#[derive(Debug, PartialEq, Eq, Drop)]
pub struct Guard {
    pub parts: Seq<GuardPart>,
}
