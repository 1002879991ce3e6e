// The shapes of element operations.
ghost use Rattle.std.specs.Prelude.{◌≡◌, IfOk, IfErr, IsTrue, length, map};
ghost use Rattle.std.specs.List.{All, flat_map};
ghost use Rattle.array_ops.specs.Elements.{extents_of, shape_of, spreads_to};
ghost use Rattle.array_ops.specs.Operands.{Spreads, extents_result, meaning_of};
ghost use Rattle.view_places.specs.Arrays.{is_small, broadcast_of};
ghost use Rattle.view_places.specs.Shape.{IsShape, extents};
ghost use Rattle.view_places.specs.View.{extents as extents_of_view};

use crate::operand::Operand;
use krn_base::{Fault, NoMemory, Seq};
use std::alloc::Global;
use view_places::{Shape, View, broadcast_all};

/// The shapes of those operands that are arrays.
fn array_shapes(alloc: Global, operands: &[Operand]) -> Result<Seq<Shape>, NoMemory>
    ensures extents { IfOk result (λ shapes. map extents shapes ≡
        flat_map (λ x. extents_of (meaning_of x)) operands.now) }
    ensures shapes { IfOk result (λ shapes. All IsShape shapes) }
{
    let mut shapes = Seq::new(alloc);
    for operand in operands {
        if let Operand::Array(view) = operand {
            shapes.push(view.shape())?;
        }
    }
    Ok(shapes)
}

/// What `shape_of` answers: the shape, or the fault of the broadcast.
pub type Shaped = Result<Shape, Fault>;

/// The shape of an element operation: the broadcast of its arrays' shapes, of which a scalar has none.
///
/// `ValueError` where two extents other than 1 differ in a dimension, else `SizeLimit` above 2^22.
pub fn shape_of(alloc: Global, operands: &[Operand]) -> Result<Shaped, NoMemory>
    ensures value { IfOk result (λ s. extents_result s ≡ shape_of (map meaning_of operands.now)) }
    ensures shape { IfOk result (λ s. IfOk s IsShape) }
    ensures small { IfOk result (λ s. IfOk s (λ shape. IsTrue (is_small (extents shape)))) }
    ensures spreads { IfOk result (λ s. IfOk s (λ shape. All (Spreads (extents shape)) operands.now)) }
{
    let shapes = array_shapes(alloc, operands)?;
    Ok(broadcast_all(shapes.as_slice()))
}
