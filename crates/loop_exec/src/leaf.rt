ghost use Rattle.std.specs.Prelude.{◌≡◌, ℕ, ◌+◌, ◌<◌, length, slice_index, slice_index_or, pos, ◌+ℤ◌};
ghost use Rattle.view_places.specs.Spread.{places};
ghost use Rattle.view_places.specs.Stepping.{axis_from};

use view_places::Spread;

/// A leaf of a template, spread to the shape of its nest, and how far it is from each of its places to the next one.
#[derive(Clone, Copy)]
pub struct Leaf {
    pub spread: Spread,
    /// By the dimension that moves.
    pub leaps: [i128; 4],
    pub ghost lead: { (k : ℕ) → k + 1 < length (places spread) → pos (slice_index (places spread) (k + 1)) ≡
        pos (slice_index (places spread) k) +ℤ slice_index_or leaps (axis_from spread.extent k) (pos 0) },
}
