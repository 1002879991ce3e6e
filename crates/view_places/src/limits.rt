ghost use Rattle.std.specs.Prelude.{◌≡◌, ◌↔◌, IsTrue};
ghost use Rattle.view_places.specs.Arrays.{is_small as is_small_shape};
ghost use Rattle.view_places.specs.Shape.{IsShape, extents};

use crate::axes::{element_count_of, is_small};
use crate::shape::Shape;
use crate::view::View;

impl Shape {
    /// Whether each extent and the number of elements are at most [`MAX_ELEMENTS`](crate::MAX_ELEMENTS).
    pub fn is_small(&self) -> bool
        requires { IsShape self.now }
        ensures { result ≡ is_small_shape (extents self.now) }
    {
        is_small(&self.extent)
    }
}

impl View {
    ghost use Rattle.view_places.specs.Arrays.{element_count};
    ghost use Rattle.view_places.specs.View.{extents as extents_of_view};

    /// How many elements there are, at most [`MAX_ELEMENTS`](crate::MAX_ELEMENTS).
    pub fn element_count(&self) -> u32
        ensures { result ≡ element_count (extents_of_view self.now) }
    {
        element_count_of(&self.extent) as u32
    }
}
