//! Lists of four entries, one for each dimension that an array may have.
ghost use Rattle.std.specs.Prelude.{◌≡◌, ◌↔◌, IsTrue, ◌<◌, ◌≤◌, ◌*◌, ◌^◌, ◌++◌, ◌∷◌, [], take, drop, replicate, remove};
ghost use Rattle.std.specs.Prelude.{reverse, slice_set, pos, nat_le};
ghost use Rattle.std.specs.List.{list_all};
ghost use Rattle.view_places.specs.Arrays.{element_count, max_elements, is_small as is_small_shape};
ghost use Rattle.view_places.specs.Strides.{weights};

use crate::shape::MAX_ELEMENTS;

/// The entries without the one of a dimension, and `last` behind them.
pub fn without<T: Copy>(xs: &[T; 4], axis: u8, last: T) -> [T; 4]
    requires { axis < 4 }
    ensures { result ≡ remove xs.now axis ++ last ∷ [] }
{
    match axis {
        0 => [xs[1], xs[2], xs[3], last],
        1 => [xs[0], xs[2], xs[3], last],
        2 => [xs[0], xs[1], xs[3], last],
        _ => [xs[0], xs[1], xs[2], last],
    }
}

/// The entries with another one for a dimension.
pub fn replaced<T: Copy>(xs: &[T; 4], axis: u8, x: T) -> [T; 4]
    requires { axis < 4 }
    ensures { result ≡ slice_set xs.now axis x }
{
    let mut changed = *xs;
    changed[usize::from(axis)] = x;
    changed
}

/// The entries with the first `rank` of them in reverse order.
pub fn reversed<T: Copy>(xs: &[T; 4], rank: u8) -> [T; 4]
    requires { rank ≤ 4 }
    ensures { result ≡ reverse (take rank xs.now) ++ drop rank xs.now }
{
    match rank {
        0 | 1 => *xs,
        2 => [xs[1], xs[0], xs[2], xs[3]],
        3 => [xs[2], xs[1], xs[0], xs[3]],
        _ => [xs[3], xs[2], xs[1], xs[0]],
    }
}

/// The strides behind as many zeros as dimensions are missing.
pub fn shifted(stride: &[i64; 4], missing: u8) -> [i64; 4]
    requires { missing ≤ 4 }
    ensures { result ≡ take 4 (replicate missing (pos 0) ++ stride.now) }
{
    match missing {
        0 => *stride,
        1 => [0, stride[0], stride[1], stride[2]],
        2 => [0, 0, stride[0], stride[1]],
        3 => [0, 0, 0, stride[0]],
        _ => [0; 4],
    }
}

/// The same numbers, wide enough for products.
pub fn widened(stride: &[i64; 4]) -> [i128; 4]
    ensures { result ≡ stride.now }
{
    let [first, second, third, fourth] = *stride;
    [
        i128::from(first),
        i128::from(second),
        i128::from(third),
        i128::from(fourth),
    ]
}

/// Whether strides are the same.
pub fn are_same(first: &[i64; 4], second: &[i64; 4]) -> bool
    ensures { IsTrue result ↔ (first.now ≡ second.now) }
{
    *first == *second
}

/// The product of three extents.
fn product(a: u32, b: u32, c: u32) -> u128
    ensures value { result ≡ a * b * c }
    ensures bound { result < 2 ^ 96 }
{
    u128::from(a) * u128::from(b) * u128::from(c)
}

/// How many elements an array of these extents has.
pub fn element_count_of(extent: &[u32; 4]) -> u128
    ensures { result ≡ element_count extent.now }
{
    u128::from(extent[0]) * product(extent[1], extent[2], extent[3])
}

/// The strides of a whole buffer: how many elements an index of the dimensions behind may have.
pub fn row_major(extent: &[u32; 4]) -> [i128; 4]
    ensures { result ≡ weights extent.now }
{
    let second = product(extent[1], extent[2], extent[3]) as i128;
    let third = product(1, extent[2], extent[3]) as i128;
    let fourth = product(1, 1, extent[3]) as i128;
    [second, third, fourth, 1]
}

/// Whether each extent is at most 2^22.
fn are_limited(extent: &[u32; 4]) -> bool
    ensures { result ≡ list_all (λ n. nat_le n max_elements) extent.now }
{
    extent.iter().all(|n| *n <= MAX_ELEMENTS)
}

/// Whether each extent and the number of elements are at most 2^22.
pub fn is_small(extent: &[u32; 4]) -> bool
    ensures { result ≡ is_small_shape extent.now }
{
    are_limited(extent) && element_count_of(extent) <= u128::from(MAX_ELEMENTS)
}
