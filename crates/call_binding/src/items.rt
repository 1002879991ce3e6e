use krn_base::{Kind, Seq, Text};
use view_places::{Array, Slice};

/// A subscript of one dimension.
#[derive(Clone, Copy, Debug, PartialEq, Eq)]
pub enum Subscript {
    /// The entry with this number, from 0, or from -1 backwards at the end.
    At(i64),
    /// The entries that a slice counts out.
    Range(Slice),
}

/// An item of a call. Its names and paths are those of its word.
#[derive(Debug, PartialEq, Eq, Drop)]
pub enum Item {
    /// A buffer of this name that holds this array.
    Buffer {
        name: Text,
        array: Array,
    },
    /// A buffer of this name that holds the array of a file.
    Loaded {
        name: Text,
        path: Text,
    },
    /// The buffer of this name is saved to a file.
    Saved {
        name: Text,
        path: Text,
    },
    /// A word of this kind, passed to a parameter.
    Scalar {
        parameter: Text,
        kind: Kind,
        word: i64,
    },
    /// A view of a buffer, passed to a parameter.
    Argument {
        parameter: Text,
        buffer: Text,
        subscripts: Seq<Subscript>,
    },
}
