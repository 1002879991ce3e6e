use krn_base::{Kind, Seq};

/// The most that an extent and a number of elements of an array may be: 2^22, this project's own limit.
pub const MAX_ELEMENTS: u32 = 1 << 22;

/// A shape: its rank, at most 4, and the extents of its dimensions from the first. The entries past the rank are 1.
#[derive(Clone, Copy, Debug, PartialEq, Eq)]
pub struct Shape {
    pub rank: u8,
    pub extent: [u32; 4],
}

/// An array by value: its words in row-major order. A word of kind Bool is 0 or 1.
#[derive(Debug, PartialEq, Eq, Drop)]
pub struct Array {
    pub kind: Kind,
    pub shape: Shape,
    pub words: Seq<i64>,
}

/// An index into an array: a number for each dimension, from the first. The entries past the rank are not looked at.
pub type Index = [u32; 4];
