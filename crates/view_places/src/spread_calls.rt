use crate::shape::Index;
use crate::spread::Spread;
use crate::steps;

impl Spread {
    ghost use Rattle.std.specs.Prelude.{◌≡◌, ◌<◌, take};
    ghost use Rattle.view_places.specs.Arrays.{entry, Inside};
    ghost use Rattle.view_places.specs.Spread.{extents, places};

    /// The place of the element at an index, which is inside the extents.
    pub fn place(&self, at: &Index) -> u32
        requires { Inside (extents self.now) (take self.now.rank at.now) }
        ensures entry { result ≡ entry 0 (extents self.now) (places self.now) (take self.now.rank at.now) }
        ensures within { result < self.now.length }
    {
        steps::place_of(
            self.length,
            self.rank,
            &self.extent,
            &self.offset,
            &self.stride,
            at,
        )
    }
}
