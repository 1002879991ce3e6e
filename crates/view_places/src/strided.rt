//! Shapes laid out by an offset and strides in exact numbers, and the one form that a view gives them.
use crate::axes::element_count_of;
use crate::spread::Spread;
use crate::steps::settled_stride;
use crate::view::View;

/// An offset and strides for the indices of a shape.
#[derive(Clone, Copy)]
pub struct Strided {
    pub rank: u8,
    pub extent: [u32; 4],
    pub offset: i128,
    pub stride: [i128; 4],
}

/// The offset and the strides of a view.
#[derive(Clone, Copy)]
pub struct Settled {
    pub offset: i64,
    pub stride: [i64; 4],
}

impl Strided {
    ghost use Rattle.std.specs.Prelude.{◌≡◌, ◌<◌, ◌^◌, ℕ, List, take};
    ghost use Rattle.view_places.specs.Arrays.{Inside};
    ghost use Rattle.view_places.specs.Strides.{IsArrayShape, IsSettled, LeadsWithin, LeadsApart, led_to, strided};
    ghost use Rattle.view_places.specs.View.{extents, places};
    ghost use Rattle.view_places.specs.Spread.{extents as extents_of_spread, places as places_of_spread};

    /// The one offset and strides that lead from each index of the shape to the same place.
    pub fn settled(&self, length: u32) -> Settled
        requires shape { IsArrayShape self.now.rank self.now.extent }
        requires within { LeadsWithin length (take self.now.rank self.now.extent) self.now.offset self.now.stride }
        ensures settled { IsSettled (take self.now.rank self.now.extent) self.now.extent result.offset result.stride }
        ensures same { (index : List ℕ) → Inside (take self.now.rank self.now.extent) index →
            led_to result.offset result.stride index ≡ led_to self.now.offset self.now.stride index }
    {
        if element_count_of(&self.extent) == 0 {
            return Settled {
                offset: 0,
                stride: [0; 4],
            };
        }
        let offset = self.offset as i64;
        let first = settled_stride(self.extent[0], self.stride[0]);
        let second = settled_stride(self.extent[1], self.stride[1]);
        let third = settled_stride(self.extent[2], self.stride[2]);
        let fourth = settled_stride(self.extent[3], self.stride[3]);
        Settled {
            offset,
            stride: [first, second, third, fourth],
        }
    }

    /// The view of these places.
    pub fn view(&self, buffer: u32, length: u32) -> View
        requires shape { IsArrayShape self.now.rank self.now.extent }
        requires within { LeadsWithin length (take self.now.rank self.now.extent) self.now.offset self.now.stride }
        requires apart { LeadsApart (take self.now.rank self.now.extent) self.now.offset self.now.stride }
        ensures buffer { result.buffer ≡ buffer }
        ensures length { result.length ≡ length }
        ensures extents { extents result ≡ take self.now.rank self.now.extent }
        ensures places { places result ≡ strided self.now.offset self.now.stride (take self.now.rank self.now.extent) }
    {
        let Settled { offset, stride } = self.settled(length);
        let extent = self.extent;
        View {
            buffer,
            length,
            offset,
            rank: self.rank,
            extent,
            stride,
        }
    }

    /// The spread view of these places.
    pub fn spread(&self, buffer: u32, length: u32) -> Spread
        requires shape { IsArrayShape self.now.rank self.now.extent }
        requires within { LeadsWithin length (take self.now.rank self.now.extent) self.now.offset self.now.stride }
        ensures buffer { result.buffer ≡ buffer }
        ensures length { result.length ≡ length }
        ensures extent { result.extent ≡ self.now.extent }
        ensures extents { extents_of_spread result ≡ take self.now.rank self.now.extent }
        ensures places { places_of_spread result ≡
            strided self.now.offset self.now.stride (take self.now.rank self.now.extent) }
    {
        let Settled { offset, stride } = self.settled(length);
        let extent = self.extent;
        Spread {
            buffer,
            length,
            offset,
            rank: self.rank,
            extent,
            stride,
        }
    }
}
