//! Stepping from index to index.
ghost use Rattle.std.specs.Prelude.{◌≡◌, ◌+◌, ◌<◌, ◌≤◌, ◌∷◌, [], slice_index, false};
ghost use Rattle.view_places.specs.Arrays.{element_count, max_elements};
ghost use Rattle.view_places.specs.Stepping.{axis_from, first_index, is_last, moving, next_index};

use crate::odometer::Odometer;
use crate::shape::Index;

/// The index behind one, and the dimension whose number went up.
#[derive(Clone, Copy)]
struct Stepped {
    axis: u8,
    at: Index,
}

/// The index behind `at`, which isn't the last one.
fn index_behind(extent: &[u32; 4], at: &Index) -> Stepped
    requires first { slice_index at.now 0 < slice_index extent.now 0 }
    requires second { slice_index at.now 1 < slice_index extent.now 1 }
    requires third { slice_index at.now 2 < slice_index extent.now 2 }
    requires fourth { slice_index at.now 3 < slice_index extent.now 3 }
    requires more { is_last extent.now at.now ≡ false }
    ensures axis { result.axis ≡ moving extent.now at.now }
    ensures at { result.at ≡ next_index extent.now at.now }
    ensures below { result.axis < 4 }
{
    let [first, second, third, fourth] = *at;
    let [_, of_second, of_third, of_fourth] = *extent;
    if fourth + 1 < of_fourth {
        let at = [first, second, third, fourth + 1];
        Stepped { axis: 3, at }
    } else if third + 1 < of_third {
        let at = [first, second, third + 1, 0];
        Stepped { axis: 2, at }
    } else if second + 1 < of_second {
        let at = [first, second + 1, 0, 0];
        Stepped { axis: 1, at }
    } else {
        let at = [first + 1, 0, 0, 0];
        Stepped { axis: 0, at }
    }
}

impl Odometer {
    /// The odometer of a shape with an element, at its first index. The extents are all four, those past the rank 1.
    pub fn start(extent: &[u32; 4]) -> Odometer
        requires some { 0 < element_count extent.now }
        requires few { element_count extent.now ≤ max_elements }
        ensures extent { result.extent ≡ extent.now }
        ensures number { result.number ≡ 0 }
    {
        Odometer {
            extent: *extent,
            at: [0; 4],
            number: 0,
        }
    }

    /// Goes on to the next index, which there is, and tells the dimension whose number goes up; those behind it begin
    /// anew.
    pub fn step(&mut self) -> u8
        requires { self.old.number + 1 < element_count self.old.extent }
        ensures extent { self.new.extent ≡ self.old.extent }
        ensures number { self.new.number ≡ self.old.number + 1 }
        ensures axis { result ≡ axis_from self.old.extent self.old.number }
        ensures below { result < 4 }
    {
        let extent = self.extent;
        let from = self.at;
        let Stepped { axis, at } = index_behind(&extent, &from);
        *self = Odometer {
            extent,
            at,
            number: self.number + 1,
        };
        axis
    }
}
