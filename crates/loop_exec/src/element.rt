use crate::leaf::Leaf;
use loop_prog::TemplateStep;
use view_places::{Odometer, View};

/// How one element of a nest or a fold is made.
#[derive(Clone, Copy)]
pub struct Element<'a> {
    /// The steps of the template, at most 64.
    pub steps: &'a [TemplateStep],
    /// The scalar registers.
    pub words: &'a [Option<i64>],
    /// The view registers.
    pub views: &'a [Option<View>],
    /// A view of the shape that is gone over.
    pub frame: &'a View,
    /// What each step reads by itself.
    pub leaves: &'a [Option<Leaf>; 64],
}

/// Where a walk over all elements stands: the index, and each step's place.
#[derive(Clone, Copy)]
pub struct Walk {
    pub odometer: Odometer,
    pub places: [u32; 64],
}
