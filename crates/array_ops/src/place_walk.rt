ghost use Rattle.std.specs.Prelude.{◌≡◌, ℕ, ◌+◌, ◌<◌, length, slice_index, slice_index_or, pos, ◌+ℤ◌};
ghost use Rattle.view_places.specs.Spread.{places};
ghost use Rattle.view_places.specs.Stepping.{axis_from};

use view_places::{Odometer, Spread};

/// A place of a spread view, which goes from each to the next in row-major order without a division.
#[derive(Clone, Copy)]
pub struct PlaceWalk {
    pub spread: Spread,
    pub leaps: [i128; 4],
    pub odometer: Odometer,
    /// The place.
    pub place: u32,
    /// How many stand before it.
    pub number: u32,
    pub ghost inside: { number < length (places spread) },
    pub ghost at: { place ≡ slice_index (places spread) number },
    pub ghost extent: { odometer.extent ≡ spread.extent },
    pub ghost same: { odometer.number ≡ number },
    pub ghost lead: { (k : ℕ) → k + 1 < length (places spread) → pos (slice_index (places spread) (k + 1)) ≡
        pos (slice_index (places spread) k) +ℤ slice_index_or leaps (axis_from spread.extent k) (pos 0) },
}
