//! Shapes, and strided views of one buffer as lists of places. No call takes memory.
#![tactic(auto)]

mod aligned;
mod axes;
mod counting;
mod laws;
mod leaps;
mod limits;
mod odometer;
mod odometer_calls;
mod parts;
mod rows;
mod shape;
mod shape_calls;
mod slice;
mod spread;
mod spread_calls;
mod steps;
mod strided;
#[cfg(test)]
mod tests;
mod threads;
mod view;
mod view_calls;
mod walk;

pub use aligned::{broadcast, broadcast_all};
pub use laws::broadcast_law;
pub use leaps::advanced;
pub use odometer::Odometer;
pub use shape::{Array, Index, MAX_ELEMENTS, Shape};
pub use slice::Slice;
pub use spread::Spread;
pub use view::View;
