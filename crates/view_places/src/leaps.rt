//! How the places of a spread view follow one another.
ghost use Rattle.std.specs.Prelude.{◌≡◌, ℕ, ◌+◌, ◌-◌, ◌<◌, ◌≤◌, ◌^◌, length, slice_index, slice_index_or, ℤ, pos, ◌+ℤ◌};
ghost use Rattle.std.specs.Prelude.{◌-ℤ◌};
ghost use Rattle.std.specs.Prelude.{◌*ℤ◌, unsigned_abs};
ghost use Rattle.view_places.specs.Stepping.{axis_from, leaps_of as leaps_by};

use crate::axes::element_count_of;
use crate::spread::Spread;
use crate::steps::{led_by, plus};

/// How far a stride leads from the first entry of a dimension to the last.
fn span_of(extent: u32, stride: i64) -> i128
    ensures value { result ≡ stride *ℤ pos (extent - 1) }
    ensures few { unsigned_abs result ≤ 2 ^ 95 }
{
    led_by(stride, i64::from(extent.saturating_sub(1)))
}

/// One entry on, and back over the dimensions behind.
fn leap(stride: i64, behind: i128) -> i128
    requires { unsigned_abs behind ≤ 2 ^ 100 }
    ensures { result ≡ stride -ℤ behind }
{
    i128::from(stride) - behind
}

/// The leaps of four dimensions.
fn leaps_of(extent: &[u32; 4], stride: &[i64; 4]) -> [i128; 4]
    ensures { result ≡ leaps_by extent.now stride.now }
{
    let fourth = span_of(extent[3], stride[3]);
    let along_third = span_of(extent[2], stride[2]);
    let along_second = span_of(extent[1], stride[1]);
    let third = plus(along_third, fourth);
    let second = plus(along_second, third);
    let into_first = leap(stride[0], second);
    let into_second = leap(stride[1], third);
    let into_third = leap(stride[2], fourth);
    let into_fourth = leap(stride[3], 0);
    [into_first, into_second, into_third, into_fourth]
}

/// The place that a leap leads to, where there is one.
pub fn advanced(place: u32, leaps: &[i128; 4], axis: u8) -> u32
    requires axis { axis < 4 }
    requires next { (next : ℕ) × (next < 2 ^ 32) × (pos next ≡ pos place +ℤ slice_index_or leaps.now axis (pos 0)) }
    ensures { pos result ≡ pos place +ℤ slice_index_or leaps.now axis (pos 0) }
{
    (i128::from(place) + leaps[usize::from(axis)]) as u32
}

impl Spread {
    ghost use Rattle.view_places.specs.Arrays.{max_elements};
    ghost use Rattle.view_places.specs.Spread.{places};

    /// How far it is from each place to the next one, by the dimension that moves ([`crate::Odometer::step`]).
    pub fn leaps(&self) -> [i128; 4]
        ensures value { result ≡ leaps_by self.now.extent self.now.stride }
        ensures lead { (k : ℕ) → k + 1 < length (places self.now) →
            pos (slice_index (places self.now) (k + 1)) ≡
            pos (slice_index (places self.now) k) +ℤ slice_index_or result (axis_from self.now.extent k) (pos 0) }
    {
        leaps_of(&self.extent, &self.stride)
    }

    /// The place of the first element.
    pub fn first(&self) -> u32
        requires { 0 < length (places self.now) }
        ensures { result ≡ slice_index (places self.now) 0 }
    {
        let _length = self.length;
        self.offset as u32
    }

    /// How many elements there are, at most 2^22.
    pub fn count(&self) -> u32
        ensures value { result ≡ length (places self.now) }
        ensures few { result ≤ max_elements }
    {
        element_count_of(&self.extent) as u32
    }
}
