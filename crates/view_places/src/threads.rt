//! What may be sent to threads and shared by them.
use crate::shape::{Array, Shape};
use crate::spread::Spread;
use crate::view::View;

fn cross<T: Send + Sync>(_value: &T) {}

// Shapes, arrays, views and spread views may be sent to and shared by threads.
fn arrays_cross_threads(shape: &Shape, array: &Array, view: &View, spread: &Spread) {
    cross(shape);
    cross(array);
    cross(view);
    cross(spread);
}
