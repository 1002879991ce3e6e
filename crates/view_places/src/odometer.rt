ghost use Rattle.view_places.specs.Stepping.{StandsAt};

use crate::shape::Index;

/// An index that goes over a shape in row-major order, the last dimension fastest.
///
/// One odometer serves all views of a shape: it tells which dimension moves, and each view adds the leap of this
/// dimension to its place ([`crate::Spread::leaps`]).
#[derive(Clone, Copy, Debug, PartialEq, Eq)]
pub struct Odometer {
    /// The extents; those past the rank are 1.
    pub extent: [u32; 4],
    /// The index.
    pub at: Index,
    /// How many indices stand before it.
    pub number: u32,
    pub ghost stands: { StandsAt extent at number },
}
