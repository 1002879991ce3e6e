// New arrays: their shapes and what they are filled with.
ghost use Rattle.std.specs.Prelude.{◌≡◌, ◌<◌, ◌≤◌, ◌-◌, ◌^◌, ◌++◌, IfOk, IfSome, IfNone, IsTrue, false, length, map};
ghost use Rattle.std.specs.Prelude.{pos, replicate};
ghost use Rattle.std.specs.Prelude.{int_lt, nat_le};
ghost use Rattle.std.specs.List.{list_all, list_any, range_with_len};
ghost use Rattle.array_ops.specs.Elements.{checked_shape, filled, fresh_shape, from_zero};
ghost use Rattle.array_ops.specs.Operands.{extents_result};
ghost use Rattle.view_places.specs.Arrays.{is_small};
ghost use Rattle.view_places.specs.Shape.{IsShape, extents};

use crate::operation::Fill;
use krn_base::{Fault, NoMemory, Seq};
use std::alloc::Global;
use view_places::{MAX_ELEMENTS, Shape};

/// The words of a new array of `count` elements: zeros, ones, or 0, 1, 2 and on.
pub fn fill(alloc: Global, fill: Fill, count: u32) -> Result<Seq<i64>, NoMemory>
    ensures { IfOk result (λ words. words ≡ filled fill count) }
{
    match fill {
        Fill::Zero => constant(alloc, 0, count),
        Fill::One => constant(alloc, 1, count),
        Fill::Count => counting(alloc, count),
    }
}

/// `count` times one word.
pub fn constant(alloc: Global, word: i64, count: u32) -> Result<Seq<i64>, NoMemory>
    ensures { IfOk result (λ words. words ≡ replicate count word) }
{
    Ok(Seq::from_vec(vec![in alloc; word; count as usize]?))
}

/// The numbers from 0 up to `count`.
fn counting(alloc: Global, count: u32) -> Result<Seq<i64>, NoMemory>
    ensures { IfOk result (λ words. words ≡ map pos (range_with_len 0 count)) }
{
    let mut words = Seq::from_vec(Vec::with_capacity(alloc, count as usize)?);
    for k in 0..count {
        words.push(i64::from(k))?;
    }
    Ok(words)
}

/// Whether a dimension is below 0.
fn any_negative(dims: &[i64]) -> bool
    ensures { result ≡ list_any (λ z. int_lt z (pos 0)) dims.now }
{
    dims.iter().any(|z| *z < 0)
}

/// A dimension as an extent, or None above the limit. A number below 0 gives 0.
fn extent_of(dim: i64) -> Option<u32>
    ensures value { IfSome result (λ n. n ≡ from_zero dim) }
    ensures within { IfSome result (λ n. n ≤ 2 ^ 22) }
    ensures above { IfNone result (2 ^ 22 < from_zero dim) }
{
    if dim < 0 {
        Some(0)
    } else if dim <= i64::from(MAX_ELEMENTS) {
        Some(dim as u32)
    } else {
        None
    }
}

/// The extents in `extent` from the entry `axis` on, by dimensions that are at most as many.
fn extents_of(dims: &[i64]) -> Option<[u32; 4]>
    requires { length dims.now ≤ 4 }
    ensures value { IfSome result (λ e. e ≡ map from_zero dims.now ++ replicate (4 - length dims.now) 1) }
    ensures above { IfNone result (list_all (λ n. nat_le n (2 ^ 22)) (map from_zero dims.now) ≡ false) }
{
    match dims {
        [] => Some([1, 1, 1, 1]),
        [a] => Some([extent_of(*a)?, 1, 1, 1]),
        [a, b] => Some([extent_of(*a)?, extent_of(*b)?, 1, 1]),
        [a, b, c] => Some([extent_of(*a)?, extent_of(*b)?, extent_of(*c)?, 1]),
        [a, b, c, d, ..] => Some([
            extent_of(*a)?,
            extent_of(*b)?,
            extent_of(*c)?,
            extent_of(*d)?,
        ]),
    }
}

/// The shape with these dimensions, where it is within the limits.
fn checked_shape(dims: &[i64]) -> Result<Shape, Fault>
    ensures value { extents_result result ≡ checked_shape (map from_zero dims.now) }
    ensures shape { IfOk result IsShape }
    ensures small { IfOk result (λ s. IsTrue (is_small (extents s))) }
{
    if dims.len() > 4 {
        return Err(Fault::SizeLimit);
    }
    let Some(extent) = extents_of(dims) else {
        return Err(Fault::SizeLimit);
    };
    let shape = Shape {
        rank: dims.len() as u8,
        extent,
    };
    if shape.is_small() {
        Ok(shape)
    } else {
        Err(Fault::SizeLimit)
    }
}

/// The shape of a new array by its dimensions: at most four of them, each from 0 on.
///
/// `ValueError` for a negative dimension, but for counting numbers, of which there are none below 0; then `SizeLimit`
/// where a dimension or the number of elements is above 2^22.
pub fn fresh_shape(fill: Fill, dims: &[i64]) -> Result<Shape, Fault>
    ensures value { extents_result result ≡ fresh_shape fill dims.now }
    ensures shape { IfOk result IsShape }
    ensures small { IfOk result (λ s. IsTrue (is_small (extents s))) }
{
    match fill {
        Fill::Count => checked_shape(dims),
        Fill::Zero | Fill::One => {
            if any_negative(dims) {
                Err(Fault::ValueError)
            } else {
                checked_shape(dims)
            }
        }
    }
}
