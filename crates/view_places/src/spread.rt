ghost use Rattle.std.specs.Prelude.{take};
ghost use Rattle.view_places.specs.Strides.{IsArrayShape, IsSettled, LeadsWithin};

/// A view spread to a shape by broadcasting, for reading: its places are below `length` and may repeat.
///
/// The fields are those of a `View`.
#[derive(Clone, Copy, Debug, PartialEq, Eq)]
pub struct Spread {
    /// The number of the buffer.
    pub buffer: u32,
    /// How many elements the buffer has.
    pub length: u32,
    /// The place of the first element.
    pub offset: i64,
    /// How many dimensions there are, at most 4.
    pub rank: u8,
    /// The extents, from the first dimension.
    pub extent: [u32; 4],
    /// How far the next entry of each dimension stands, from the first; 0 where entries repeat.
    pub stride: [i64; 4],
    pub ghost shape: { IsArrayShape rank extent },
    pub ghost settled: { IsSettled (take rank extent) extent offset stride },
    pub ghost within: { LeadsWithin length (take rank extent) offset stride },
}
