use crate::aligned::broadcast;
use crate::axes::{are_same, element_count_of, reversed, row_major, widened};
use crate::counting::slice_walk;
use crate::shape::{Index, Shape};
use crate::slice::Slice;
use crate::spread::Spread;
use crate::steps;
use crate::strided::Strided;
use crate::view::View;
use krn_base::Fault;

impl View {
    ghost use Rattle.std.specs.Prelude.{◌≡◌, ◌↔◌, ℕ, ◌<◌, length, take, reverse, slice_index, remove, IsTrue};
    ghost use Rattle.std.specs.Prelude.{None, Some, IfOk, IfErr, OnErr, IfSome, IsSome};
    ghost use Rattle.std.specs.List.{range_with_len};
    ghost use Rattle.view_places.specs.Arrays.{element_count, entry, spread, is_small, Inside, SpreadsTo};
    ghost use Rattle.view_places.specs.Arrays.{position_of, indexed, transposed};
    ghost use Rattle.view_places.specs.Shape.{IsShape, extents as extents_of_shape};
    ghost use Rattle.view_places.specs.Spread.{extents as extents_of_spread, places as places_of_spread};
    ghost use Rattle.view_places.specs.Slice.{slice_indices, sliced_by, sliced_extents};
    ghost use Rattle.view_places.specs.View.{extents, places, IsConsecutive};

    /// All elements of a buffer that has as many as the shape, in order.
    pub fn whole(buffer: u32, shape: &Shape) -> View
        requires shape { IsShape shape.now }
        requires small { IsTrue (is_small (extents_of_shape shape.now)) }
        ensures buffer { result.buffer ≡ buffer }
        ensures length { result.length ≡ element_count (extents_of_shape shape.now) }
        ensures extents { extents result ≡ extents_of_shape shape.now }
        ensures places { places result ≡ range_with_len 0 (element_count (extents_of_shape shape.now)) }
    {
        let extent = shape.extent;
        let stride = row_major(&extent);
        let raw = Strided {
            rank: shape.rank,
            extent,
            offset: 0,
            stride,
        };
        raw.view(buffer, element_count_of(&extent) as u32)
    }

    /// The entries with the number `i` in a dimension below the rank, without that dimension. A negative number counts
    /// from the end.
    ///
    /// `IndexError` where the number is outside -n to n - 1 for a dimension of n entries.
    pub fn index(&self, axis: u8, i: i64) -> Result<View, Fault>
        requires { axis < self.now.rank }
        ensures buffer { IfOk result (λ v. v.buffer ≡ self.now.buffer) }
        ensures length { IfOk result (λ v. v.length ≡ self.now.length) }
        ensures extents { IfOk result (λ v. extents v ≡ remove (extents self.now) axis) }
        ensures places { IfOk result (λ v. indexed 0 axis i (extents self.now) (places self.now) ≡ Some (places v)) }
        ensures index_error { IfErr result (λ fault. fault ≡ Fault.IndexError) }
        ensures outside { OnErr result (position_of (slice_index (extents self.now) axis) i ≡ None) }
    {
        match steps::position_of(self.extent[usize::from(axis)], i) {
            Some(k) => Ok(self.at(axis, k)),
            None => Err(Fault::IndexError),
        }
    }

    /// The entries whose number in a dimension below the rank is one that the slice counts out, in its order.
    ///
    /// `ValueError` where the step is 0.
    pub fn slice(&self, axis: u8, s: Slice) -> Result<View, Fault>
        requires { axis < self.now.rank }
        ensures buffer { IfOk result (λ v. v.buffer ≡ self.now.buffer) }
        ensures length { IfOk result (λ v. v.length ≡ self.now.length) }
        ensures extents { IfOk result (λ v. sliced_extents axis s (extents self.now) ≡ Some (extents v)) }
        ensures places { IfOk result (λ v. sliced_by 0 axis s (extents self.now) (places self.now) ≡ Some (places v)) }
        ensures value_error { IfErr result (λ fault. fault ≡ Fault.ValueError) }
        ensures zero_step { OnErr result (slice_indices (slice_index (extents self.now) axis) s ≡ None) }
    {
        match slice_walk(self.extent[usize::from(axis)], &s) {
            Some(walk) => Ok(self.picked(axis, walk)),
            None => Err(Fault::ValueError),
        }
    }

    /// The entries by reversed indices.
    pub fn transpose(&self) -> View
        ensures buffer { result.buffer ≡ self.now.buffer }
        ensures length { result.length ≡ self.now.length }
        ensures extents { extents result ≡ reverse (extents self.now) }
        ensures places { places result ≡ transposed 0 (extents self.now) (places self.now) }
    {
        let extent = reversed(&self.extent, self.rank);
        let stride = reversed(&self.stride, self.rank);
        let stride = widened(&stride);
        let raw = Strided {
            rank: self.rank,
            extent,
            offset: i128::from(self.offset),
            stride,
        };
        raw.view(self.buffer, self.length)
    }

    /// Whether the places are consecutive and rising.
    pub fn is_contiguous(&self) -> bool
        ensures { IsTrue result ↔ IsConsecutive (places self.now) }
    {
        let whole = View::whole(self.buffer, &self.shape());
        are_same(&self.stride, &whole.stride)
    }

    /// The places are distinct and below the length; there are as many as the shape has elements.
    pub fn places_are_distinct(&self)
        ensures count { length (places self.now) ≡ element_count (extents self.now) }
        ensures within { (i : ℕ) → i < length (places self.now) → slice_index (places self.now) i < self.now.length }
        ensures distinct { (i j : ℕ) → i < length (places self.now) → j < length (places self.now) →
            slice_index (places self.now) i ≡ slice_index (places self.now) j → i ≡ j }
    {}

    /// Two views of one buffer with one shape and the same places are equal.
    pub fn same_places_make_one_view(&self, other: &View)
        requires buffer { self.now.buffer ≡ other.now.buffer }
        requires length { self.now.length ≡ other.now.length }
        requires extents { extents self.now ≡ extents other.now }
        requires places { places self.now ≡ places other.now }
        ensures { self.now ≡ other.now }
    {}

    /// The shape: the rank and the extents.
    pub fn shape(&self) -> Shape
        ensures rank { result.rank ≡ self.now.rank }
        ensures extent { result.extent ≡ self.now.extent }
        ensures extents { extents_of_shape result ≡ extents self.now }
        ensures shape { IsShape result }
        ensures small { IsTrue (is_small (extents self.now)) }
    {
        Shape {
            rank: self.rank,
            extent: self.extent,
        }
    }

    /// The place of the element at an index, which is inside the extents.
    pub fn place(&self, at: &Index) -> u32
        requires { Inside (extents self.now) (take self.now.rank at.now) }
        ensures entry { result ≡ entry 0 (extents self.now) (places self.now) (take self.now.rank at.now) }
        ensures within { result < self.now.length }
    {
        steps::place_of(
            self.length,
            self.rank,
            &self.extent,
            &self.offset,
            &self.stride,
            at,
        )
    }

    /// The view spread to a shape by broadcasting, or None where the broadcast of the two shapes isn't this shape.
    pub fn spread(&self, shape: &Shape) -> Option<Spread>
        requires { IsShape shape.now }
        ensures fits { IsSome result ↔ SpreadsTo (extents self.now) (extents_of_shape shape.now) }
        ensures buffer { IfSome result (λ s. s.buffer ≡ self.now.buffer) }
        ensures length { IfSome result (λ s. s.length ≡ self.now.length) }
        ensures extent { IfSome result (λ s. s.extent ≡ shape.now.extent) }
        ensures extents { IfSome result (λ s. extents_of_spread s ≡ extents_of_shape shape.now) }
        ensures places { IfSome result (λ s. places_of_spread s ≡
            spread 0 (extents self.now) (extents_of_shape shape.now) (places self.now)) }
    {
        match broadcast(&self.shape(), shape) {
            Ok(joined) => if joined == *shape {
                Some(self.spread_to(shape))
            } else {
                None
            },
            Err(_) => None,
        }
    }
}
