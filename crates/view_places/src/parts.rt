//! Parts of a view and its spreads, where they exist.
use crate::axes::{replaced, shifted, widened, without};
use crate::shape::Shape;
use crate::spread::Spread;
use crate::steps::{led_by, plus};
use crate::strided::Strided;
use crate::view::View;
use crate::walk::Walk;

impl View {
    ghost use Rattle.std.specs.Prelude.{◌≡◌, ◌<◌, ◌≤◌, IsTrue, length, slice_index, slice_set, remove};
    ghost use Rattle.view_places.specs.Arrays.{at_index, sliced, spread, is_small};
    ghost use Rattle.view_places.specs.Alignment.{FitsTo};
    ghost use Rattle.view_places.specs.Shape.{IsShape, extents as extents_of_shape};
    ghost use Rattle.view_places.specs.Spread.{extents as extents_of_spread, places as places_of_spread};
    ghost use Rattle.view_places.specs.View.{extents, places, IsViewOf};
    ghost use Rattle.view_places.specs.Walk.{picks, StaysWithin};

    /// The entries with the number k in a dimension.
    pub(crate) fn at(&self, axis: u8, k: u32) -> View
        requires axis { axis < self.now.rank }
        requires inside { k < slice_index (extents self.now) axis }
        ensures { IsViewOf self.now result (remove (extents self.now) axis)
            (at_index 0 axis k (extents self.now) (places self.now)) }
    {
        let along = led_by(self.stride[usize::from(axis)], i64::from(k));
        let offset = plus(i128::from(self.offset), along);
        let extent = without(&self.extent, axis, 1);
        let stride = without(&self.stride, axis, 0);
        let stride = widened(&stride);
        let raw = Strided {
            rank: self.rank - 1,
            extent,
            offset,
            stride,
        };
        raw.view(self.buffer, self.length)
    }

    /// The entries whose number in a dimension a walk meets.
    pub(crate) fn picked(&self, axis: u8, walk: Walk) -> View
        requires axis { axis < self.now.rank }
        requires within { StaysWithin (slice_index (extents self.now) axis) walk }
        ensures { IsViewOf self.now result (slice_set (extents self.now) axis (length (picks walk)))
            (sliced 0 axis (picks walk) (extents self.now) (places self.now)) }
    {
        let along = self.stride[usize::from(axis)];
        let start = led_by(along, walk.start);
        let step = led_by(along, walk.step);
        let offset = plus(i128::from(self.offset), start);
        let extent = replaced(&self.extent, axis, walk.count);
        let wide = widened(&self.stride);
        let stride = replaced(&wide, axis, step);
        let raw = Strided {
            rank: self.rank,
            extent,
            offset,
            stride,
        };
        raw.view(self.buffer, self.length)
    }

    /// The view spread to a shape that its own fits to.
    pub(crate) fn spread_to(&self, shape: &Shape) -> Spread
        requires shape { IsShape shape.now }
        requires small { IsTrue (is_small (extents_of_shape shape.now)) }
        requires fits { FitsTo (extents self.now) (extents_of_shape shape.now) }
        ensures buffer { result.buffer ≡ self.now.buffer }
        ensures length { result.length ≡ self.now.length }
        ensures extent { result.extent ≡ shape.now.extent }
        ensures extents { extents_of_spread result ≡ extents_of_shape shape.now }
        ensures places { places_of_spread result ≡
            spread 0 (extents self.now) (extents_of_shape shape.now) (places self.now) }
    {
        let strides = self.stride;
        let stride = shifted(&strides, shape.rank - self.rank);
        let stride = widened(&stride);
        let extent = shape.extent;
        let raw = Strided {
            rank: shape.rank,
            extent,
            offset: i128::from(self.offset),
            stride,
        };
        raw.spread(self.buffer, self.length)
    }
}
