//! The broadcast of shapes, dimension by dimension.
ghost use Rattle.std.specs.Prelude.{◌≡◌, ◌≤◌, map, length, ◌∷◌, [], true, false, max, Ok, Err, IfOk, IfErr, IfSome};
ghost use Rattle.std.specs.Prelude.{IfNone};
ghost use Rattle.std.specs.List.{All};
ghost use Rattle.view_places.specs.Alignment.{all_fit, joined_step, one_extent};
ghost use Rattle.view_places.specs.Arrays.{broadcast_of, dimensions, extent_back as back_extent};
ghost use Rattle.view_places.specs.Arrays.{greatest_rank as most_dimensions, joined_shape as joined, SpreadsTo};
ghost use Rattle.view_places.specs.Shape.{extents, IsShape};

use crate::axes::is_small;
use crate::shape::Shape;
use krn_base::Fault;

/// The extent of the dimension that stands `back` before the last one; 1 where it is missing.
fn extent_back(shape: &Shape, back: u8) -> u32
    requires { IsShape shape.now }
    ensures { result ≡ back_extent back (extents shape.now) }
{
    if back < shape.rank {
        shape.extent[usize::from(shape.rank - 1 - back)]
    } else {
        1
    }
}

/// The one extent other than 1 of two, or 1; None where both are other than 1 and differ.
fn joined_extent(one: u32, extent: u32) -> Option<u32>
    ensures { result ≡ joined_step one extent }
{
    if extent == 1 {
        Some(one)
    } else if one == 1 {
        Some(extent)
    } else if extent == one {
        Some(one)
    } else {
        None
    }
}

/// The one extent other than 1 that shapes have in the dimension that stands `back` before the last one, or 1; None
/// where two of them differ.
fn extent_of_all(shapes: &[Shape], back: u8) -> Option<u32>
    requires { All IsShape shapes.now }
    ensures { result ≡ one_extent (map (back_extent back) (map extents shapes.now)) }
{
    let mut one = 1;
    for shape in shapes {
        one = joined_extent(one, extent_back(shape, back))?;
    }
    Some(one)
}

/// The rank of a shape, at most 4.
fn rank_of(shape: &Shape) -> u8
    requires { IsShape shape.now }
    ensures value { result ≡ length (extents shape.now) }
    ensures few { result ≤ 4 }
{
    shape.rank
}

/// The greater of two ranks.
fn greater(a: u8, b: u8) -> u8
    ensures { result ≡ max a b }
{
    if a < b { b } else { a }
}

/// The greatest rank of shapes, 0 where there is none.
fn greatest_rank(shapes: &[Shape]) -> u8
    requires { All IsShape shapes.now }
    ensures value { result ≡ most_dimensions (map extents shapes.now) }
    ensures few { result ≤ 4 }
{
    let mut rank = 0;
    for shape in shapes {
        rank = greater(rank, rank_of(shape));
    }
    rank
}

/// The one extent other than 1 of each aligned dimension, or 1; None where two such extents of one dimension differ.
fn joined_shape(shapes: &[Shape]) -> Option<Shape>
    requires { All IsShape shapes.now }
    ensures apart { IfNone result (all_fit (map extents shapes.now) (dimensions (map extents shapes.now)) ≡ false) }
    ensures fits { IfSome result (λ s. all_fit (map extents shapes.now) (dimensions (map extents shapes.now)) ≡ true) }
    ensures extents { IfSome result (λ s. extents s ≡ joined (map extents shapes.now)) }
    ensures shape { IfSome result IsShape }
{
    let rank = greatest_rank(shapes);
    let mut extent = [1; 4];
    for axis in 0..rank {
        extent[usize::from(axis)] = extent_of_all(shapes, rank - 1 - axis)?;
    }
    Some(Shape { rank, extent })
}

/// The broadcast of shapes: in each aligned dimension the one extent other than 1, or 1 (NumPy's rule). That of no
/// shape has rank 0, and one element.
///
/// `ValueError` where two extents other than 1 differ in some dimension, else `SizeLimit` where an extent or the number
/// of elements is above 2^22. Each of the shapes spreads to the result. The broadcasts of two at a time may fail where
/// that of all doesn't, and the other way round: (2^22, 1) and (1, 2) are too large together, and with (3,) a
/// ValueError.
pub fn broadcast_all(shapes: &[Shape]) -> Result<Shape, Fault>
    requires { All IsShape shapes.now }
    ensures value { IfOk result (λ s. broadcast_of (map extents shapes.now) ≡ Ok (extents s)) }
    ensures fault { IfErr result (λ fault. broadcast_of (map extents shapes.now) ≡ Err fault) }
    ensures shape { IfOk result IsShape }
    ensures spreads { IfOk result (λ s. All (λ shape. SpreadsTo (extents shape) (extents s)) shapes.now) }
{
    match joined_shape(shapes) {
        None => Err(Fault::ValueError),
        Some(shape) => {
            let extent = shape.extent;
            if is_small(&extent) {
                Ok(shape)
            } else {
                Err(Fault::SizeLimit)
            }
        }
    }
}

/// The broadcast of two shapes, as [`broadcast_all`] has it.
pub fn broadcast(a: &Shape, b: &Shape) -> Result<Shape, Fault>
    requires first { IsShape a.now }
    requires second { IsShape b.now }
    ensures value { IfOk result (λ s. broadcast_of (extents a.now ∷ extents b.now ∷ []) ≡ Ok (extents s)) }
    ensures fault { IfErr result (λ fault. broadcast_of (extents a.now ∷ extents b.now ∷ []) ≡ Err fault) }
    ensures shape { IfOk result IsShape }
{
    broadcast_all(&[*a, *b])
}
