//! Views as rows of rows: what their offset and strides say of the places, in exact numbers.
use crate::spread::Spread;
use crate::view::View;

impl View {
    ghost use Rattle.std.specs.Prelude.{◌≡◌, ◌<◌, ◌^◌, ℕ, length, map, pos, slice_index, zip};
    ghost use Rattle.view_places.specs.Arrays.{element_count};
    ghost use Rattle.view_places.specs.Rows.{rows};
    ghost use Rattle.view_places.specs.Spread.{extents as extents_of_spread, places as places_of_spread};
    ghost use Rattle.view_places.specs.View.{extents, places};

    /// The places are those of the four dimensions, row after row.
    pub fn by_rows(&self)
        ensures extents { length self.now.extent ≡ 4 }
        ensures strides { length self.now.stride ≡ 4 }
        ensures count { length (places self.now) ≡ element_count self.now.extent }
        ensures fits { self.now.length < 2 ^ 32 }
        ensures within { (i : ℕ) → i < length (places self.now) → slice_index (places self.now) i < self.now.length }
        ensures places { map pos (places self.now) ≡ rows (zip self.now.extent self.now.stride) self.now.offset }
    {
        let _length = self.length;
    }

    /// A spread view of the same shape has the same four extents.
    pub fn same_extents(&self, other: &Spread)
        requires { extents self.now ≡ extents_of_spread other.now }
        ensures { self.now.extent ≡ other.now.extent }
    {
        let _length = self.length;
        let _other = other.length;
    }

    /// The same elements for reading.
    pub fn as_spread(&self) -> Spread
        ensures buffer { result.buffer ≡ self.now.buffer }
        ensures length { result.length ≡ self.now.length }
        ensures offset { result.offset ≡ self.now.offset }
        ensures rank { result.rank ≡ self.now.rank }
        ensures extent { result.extent ≡ self.now.extent }
        ensures stride { result.stride ≡ self.now.stride }
        ensures places { places_of_spread result ≡ places self.now }
    {
        Spread {
            buffer: self.buffer,
            length: self.length,
            offset: self.offset,
            rank: self.rank,
            extent: self.extent,
            stride: self.stride,
        }
    }
}

impl Spread {
    ghost use Rattle.std.specs.Prelude.{◌≡◌, ◌<◌, ◌^◌, ℕ, length, map, pos, slice_index, zip};
    ghost use Rattle.view_places.specs.Arrays.{element_count};
    ghost use Rattle.view_places.specs.Rows.{rows};
    ghost use Rattle.view_places.specs.Spread.{places};

    /// The places are those of the four dimensions, row after row.
    pub fn by_rows(&self)
        ensures extents { length self.now.extent ≡ 4 }
        ensures strides { length self.now.stride ≡ 4 }
        ensures count { length (places self.now) ≡ element_count self.now.extent }
        ensures fits { self.now.length < 2 ^ 32 }
        ensures within { (i : ℕ) → i < length (places self.now) → slice_index (places self.now) i < self.now.length }
        ensures places { map pos (places self.now) ≡ rows (zip self.now.extent self.now.stride) self.now.offset }
    {
        let _length = self.length;
    }
}
