//! Numbers of steps along strides, in numbers wide enough for them.
ghost use Rattle.std.specs.Prelude.{◌≢◌, ◌==◌, if◌then◌else◌, ◌≡◌, ◌<◌, ◌≤◌, ◌^◌, ℕ, ◌*ℤ◌, ◌+ℤ◌, pos, unsigned_abs};
ghost use Rattle.std.specs.Prelude.{slice_index_or, take};
ghost use Rattle.view_places.specs.Arrays.{entry, position_of as position, Inside};
ghost use Rattle.view_places.specs.Strides.{led_to, strided, IsArrayShape, LeadsWithin};

use crate::shape::Index;

/// How far a number of steps of a stride leads.
pub fn led_by(stride: i64, steps: i64) -> i128
    ensures { result ≡ stride *ℤ steps }
{
    i128::from(stride) * i128::from(steps)
}

/// A sum of two distances.
pub fn plus(a: i128, b: i128) -> i128
    requires first { unsigned_abs a ≤ 2 ^ 100 }
    requires second { unsigned_abs b ≤ 2 ^ 126 }
    ensures { result ≡ a +ℤ b }
{
    a + b
}

/// A sum of an offset and four distances.
fn sum(offset: i64, first: i128, second: i128, third: i128, fourth: i128) -> i128
    requires first { unsigned_abs first ≤ 2 ^ 95 }
    requires second { unsigned_abs second ≤ 2 ^ 95 }
    requires third { unsigned_abs third ≤ 2 ^ 95 }
    requires fourth { unsigned_abs fourth ≤ 2 ^ 95 }
    ensures { result ≡ offset +ℤ (first +ℤ (second +ℤ (third +ℤ fourth))) }
{
    let inner = plus(third, fourth);
    let middle = plus(second, inner);
    let outer = plus(first, middle);
    plus(i128::from(offset), outer)
}

/// Where an index leads.
pub fn led(offset: i64, stride: &[i64; 4], at: &Index) -> i128
    ensures { result ≡ led_to offset stride.now at.now }
{
    let first = led_by(stride[0], i64::from(at[0]));
    let second = led_by(stride[1], i64::from(at[1]));
    let third = led_by(stride[2], i64::from(at[2]));
    let fourth = led_by(stride[3], i64::from(at[3]));
    sum(offset, first, second, third, fourth)
}

/// The place of the element at an index inside the extents, of a shape that is laid out within a buffer of this length.
pub fn place_of(
    length: u32,
    rank: u8,
    extent: &[u32; 4],
    offset: &i64,
    stride: &[i64; 4],
    at: &Index,
) -> u32
    requires shape { IsArrayShape rank extent.now }
    requires still { (axis : ℕ) → slice_index_or extent.now axis 1 ≡ 1 →
        slice_index_or stride.now axis (pos 0) ≡ pos 0 }
    requires within { LeadsWithin length (take rank extent.now) offset.now stride.now }
    requires inside { Inside (take rank extent.now) (take rank at.now) }
    ensures entry { result ≡ entry 0 (take rank extent.now) (strided offset.now stride.now (take rank extent.now))
        (take rank at.now) }
    ensures within { result < length }
{
    led(*offset, stride, at) as u32
}

/// Which entry of a dimension a subscript names.
pub fn position_of(n: u32, i: i64) -> Option<u32>
    ensures { result ≡ position n i }
{
    if i >= 0 {
        if i < i64::from(n) {
            Some(i as u32)
        } else {
            None
        }
    } else if -(i64::from(n)) <= i {
        Some((i + i64::from(n)) as u32)
    } else {
        None
    }
}

/// The stride of a dimension, 0 along extent 1.
pub fn settled_stride(extent: u32, stride: i128) -> i64
    requires { extent ≢ 1 → unsigned_abs stride < 2 ^ 32 }
    ensures { result ≡ (if extent == 1 then pos 0 else stride) }
{
    if extent == 1 { 0 } else { stride as i64 }
}
