ghost use Rattle.std.specs.Prelude.{take};
ghost use Rattle.view_places.specs.Strides.{IsArrayShape, IsSettled, LeadsWithin, LeadsApart};

/// Elements of a buffer, laid out by an offset and strides, which are numbers of elements.
///
/// A view stands for its shape and the list of its places in row-major order. The places are distinct and below
/// `length`; each extent and the number of elements are at most 2^22. The entries past the rank have extent 1 and
/// stride 0. A dimension of extent 1 has stride 0, and a view without elements has offset 0 and strides 0, so that
/// shape and places fix the fields.
#[derive(Clone, Copy, Debug, PartialEq, Eq)]
pub struct View {
    /// The number of the buffer.
    pub buffer: u32,
    /// How many elements the buffer has.
    pub length: u32,
    /// The place of the first element.
    pub offset: i64,
    /// How many dimensions there are, at most 4.
    pub rank: u8,
    /// The extents, from the first dimension.
    pub extent: [u32; 4],
    /// How far the next entry of each dimension stands, from the first.
    pub stride: [i64; 4],
    pub ghost shape: { IsArrayShape rank extent },
    pub ghost settled: { IsSettled (take rank extent) extent offset stride },
    pub ghost within: { LeadsWithin length (take rank extent) offset stride },
    pub ghost apart: { LeadsApart (take rank extent) offset stride },
}
