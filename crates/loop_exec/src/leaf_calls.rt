//! Going from place to place of a leaf.
ghost use Rattle.std.specs.Prelude.{◌≡◌, ℕ, ◌+◌, ◌<◌, length};
ghost use Rattle.view_places.specs.Arrays.{element_count};
ghost use Rattle.view_places.specs.Stepping.{axis_from};
ghost use Rattle.loop_exec.specs.Leaves.{HasExtent, place_at, places_of, read_at};

use crate::leaf::Leaf;
use array_ops::word_at;
use krn_base::Seq;
use view_places::{Spread, advanced};

/// A spread view as a leaf.
pub fn leaf_of(spread: &Spread) -> Leaf
    ensures { result.spread ≡ spread.now }
{
    Leaf {
        spread: *spread,
        leaps: spread.leaps(),
    }
}

/// The first place of a leaf, of a shape that has an element.
pub fn first_place(leaf: &Option<Leaf>, extent: &[u32; 4]) -> u32
    requires extent { HasExtent extent.now leaf.now }
    requires some { 0 < element_count extent.now }
    ensures { result ≡ place_at 0 leaf.now }
{
    match leaf {
        Some(leaf) => {
            leaf.spread.by_rows();
            leaf.spread.first()
        }
        None => 0,
    }
}

/// The place behind the one with a number, where dimension `axis` moves.
pub fn next_place(leaf: &Option<Leaf>, place: u32, axis: u8, number: u32, extent: &[u32; 4]) -> u32
    requires extent { HasExtent extent.now leaf.now }
    requires more { number + 1 < element_count extent.now }
    requires axis { axis ≡ axis_from extent.now number }
    requires below { axis < 4 }
    requires place { place ≡ place_at number leaf.now }
    ensures { result ≡ place_at (number + 1) leaf.now }
{
    match leaf {
        Some(leaf) => {
            leaf.spread.by_rows();
            advanced(place, &leaf.leaps, axis)
        }
        None => 0,
    }
}

/// The word at a place of a leaf; 0 where nothing is read.
pub fn read(leaf: &Option<Leaf>, place: u32, buffers: &[Seq<i64>]) -> i64
    ensures { (k : ℕ) → place ≡ place_at k leaf.now → result ≡ read_at buffers.now k (places_of leaf.now) }
{
    match leaf {
        Some(leaf) => word_at(buffers, leaf.spread.buffer, place),
        None => 0,
    }
}
