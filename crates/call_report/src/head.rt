use krn_base::{Kind, Text};
use view_places::Shape;

/// The name, the kind and the shape of a buffer as the call gave it.
#[derive(Debug, PartialEq, Eq, Drop)]
pub struct BufferHead {
    pub name: Text,
    pub kind: Kind,
    pub shape: Shape,
}
