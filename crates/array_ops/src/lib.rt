//! Operations on arrays that lie in numbered buffers, as NumPy has them: subscripts, element operations, reductions,
//! stores.
//!
//! An array is a view of a buffer. The definitions speak of its buffer, its extents and the list of its places alone.
#![tactic(auto)]

mod fresh;
mod lists;
mod mapping;
mod operand;
mod operation;
mod place_walk;
mod place_walk_calls;
mod reduction;
mod shapes;
mod source;
mod source_calls;
mod storing;
mod subscript;
#[cfg(test)]
mod tests;
mod words;

pub use fresh::{constant, fill, fresh_shape};
pub use lists::{elements, map_elements, operand_elements};
pub use operand::Operand;
pub use operation::{Fill, MapOp, RedOp};
pub use reduction::{Reduced, reduce};
pub use shapes::{Shaped, shape_of};
pub use storing::put_words;
pub use subscript::{Subscript, element_place, flip, pick};
pub use words::{set_word, word_at};
