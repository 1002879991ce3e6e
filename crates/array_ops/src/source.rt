ghost use Rattle.std.specs.Prelude.{◌≡◌, ℕ, ◌+◌, ◌<◌, pos, slice_index_or};

use crate::place_walk::PlaceWalk;

/// The elements of an operand that is spread to a shape, one after another.
#[derive(Clone, Copy)]
pub enum Source<'a> {
    /// The same word again and again.
    Word(i64),
    /// The words of a buffer at the places of a view.
    Array(&'a [i64], PlaceWalk),
}
