//! The numbers that a slice counts out of a dimension.
use crate::slice::Slice;

/// A number of steps from a start.
#[derive(Clone, Copy)]
pub struct Walk {
    pub start: i64,
    pub step: i64,
    pub count: u32,
}
