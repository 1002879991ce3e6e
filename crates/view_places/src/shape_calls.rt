ghost use Rattle.std.specs.Prelude.{◌≡◌, ◌==◌, ◌&&◌, if◌then◌else◌, Some, None};
ghost use Rattle.view_places.specs.Arrays.{element_count, is_small as is_small_shape};

use crate::axes::{element_count_of, is_small};
use crate::shape::Shape;

/// A shape of this rank with four entries, where it is within the limits and has so many elements.
fn checked(rank: u8, extent: [u32; 4], count: usize) -> Option<Shape>
    ensures { result ≡ (if is_small_shape extent && (element_count extent == count)
        then Some (record { rank = rank; extent = extent }) else None) }
{
    if is_small(&extent) && element_count_of(&extent) == count as u128 {
        Some(Shape { rank, extent })
    } else {
        None
    }
}

impl Shape {
    ghost use Rattle.view_places.specs.Shape.{shape_for};

    /// The shape of these extents, from the first dimension. None where they are not one to four, where one of them
    /// or the number
    /// of elements is above 2^22, and where that number isn't `count`.
    pub fn of(extents: &[u32], count: usize) -> Option<Shape>
        ensures { result ≡ shape_for extents.now count }
    {
        match extents {
            [a] => checked(1, [*a, 1, 1, 1], count),
            [a, b] => checked(2, [*a, *b, 1, 1], count),
            [a, b, c] => checked(3, [*a, *b, *c, 1], count),
            [a, b, c, d] => checked(4, [*a, *b, *c, *d], count),
            _ => None,
        }
    }
}
