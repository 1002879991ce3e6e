// The work of statements that make a new array.
ghost use Rattle.std.specs.Prelude.{◌≡◌, ◌∷◌, [], ◌++◌, List, ℤ, IfOk, IsTrue, length, map};
ghost use Rattle.array_ops.specs.Arrays.{whole_of};
ghost use Rattle.array_ops.specs.Elements.{ArrayOf};
ghost use Rattle.eager_rules.specs.Running.{done_by, meanings};
ghost use Rattle.eager_rules.specs.Works.{Made, fresh_work};
ghost use Rattle.view_places.specs.Arrays.{is_small};
ghost use Rattle.view_places.specs.Shape.{IsShape, extents};

use crate::frame::words;
use crate::state::Worked;
use array_ops::{Fill, Operand, fill, fresh_shape};
use krn_base::{Loc, NoMemory, Seq};
use std::alloc::Global;
use view_places::{Shape, View};

/// A new buffer of these words behind the others, and the whole of it as an array of this shape.
pub fn new_array(
    shape: &Shape,
    words: Seq<i64>,
    buffers: &mut Seq<Seq<i64>>,
) -> Result<Worked, NoMemory>
    requires shape { IsShape shape.now }
    requires small { IsTrue (is_small (extents shape.now)) }
    ensures { IfOk result (λ w. done_by buffers.new w ≡
        Made (buffers.old ++ words ∷ []) (ArrayOf (whole_of (length buffers.old) (extents shape.now)) ∷ [])) }
{
    let number = buffers.len();
    if number >= u32::MAX as usize {
        return Err(NoMemory);
    }
    buffers.push(words)?;
    Ok(Worked::Value(Operand::Array(View::whole(number as u32, shape))))
}

/// A new array by its dimensions.
pub fn fresh(
    alloc: Global,
    filling: Fill,
    at: Loc,
    dims: &[Operand],
    buffers: &mut Seq<Seq<i64>>,
) -> Result<Worked, NoMemory>
    ensures { IfOk result (λ w. done_by buffers.new w ≡ fresh_work filling at (meanings dims.now) buffers.old) }
{
    let dims = words(alloc, dims)?;
    match fresh_shape(filling, dims.as_slice()) {
        Ok(shape) => {
            let words = fill(alloc, filling, View::whole(0, &shape).element_count())?;
            new_array(&shape, words, buffers)
        }
        Err(fault) => Ok(Worked::Failed(fault, at)),
    }
}
