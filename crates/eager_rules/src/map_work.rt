// The work of element operations, reductions and stores.
ghost use Rattle.std.specs.Prelude.{◌≡◌, IfOk, IsTrue, Ok, true};
ghost use Rattle.std.specs.List.{list_all};
ghost use Rattle.array_ops.specs.Arrays.{array_of, with_words};
ghost use Rattle.array_ops.specs.Subscripts.{and_then};
ghost use Rattle.array_ops.specs.Elements.{extents_of, operand_elements, spreads_to, stored_shape};
ghost use Rattle.array_ops.specs.Operands.{Spreads, meaning_of};
ghost use Rattle.eager_rules.specs.Running.{done_by, meanings};
ghost use Rattle.eager_rules.specs.Small.{is_small_map};
ghost use Rattle.eager_rules.specs.Works.{changed, map_work, reduce_work, store_work};
ghost use Rattle.view_places.specs.Shape.{IsShape, extents};

use crate::frame::array;
use crate::fresh_work::new_array;
use crate::state::Worked;
use array_ops::{MapOp, Operand, RedOp, map_elements, operand_elements, put_words, shape_of};
use krn_base::{Fault, Loc, NoMemory, Seq};
use std::alloc::Global;
use view_places::{Shape, View};

/// An element operation into a new array.
pub fn map(
    alloc: Global,
    op: MapOp,
    at: Loc,
    args: &[Operand],
    buffers: &mut Seq<Seq<i64>>,
) -> Result<Worked, NoMemory>
    requires { is_small_map op ≡ true }
    ensures { IfOk result (λ w. done_by buffers.new w ≡ map_work op at (meanings args.now) buffers.old) }
{
    match shape_of(alloc, args)? {
        Ok(shape) => {
            let words = map_elements(alloc, op, &shape, args, buffers.as_slice())?;
            new_array(&shape, words, buffers)
        }
        Err(fault) => Ok(Worked::Failed(fault, at)),
    }
}

/// A reduction of an array to a scalar.
pub fn reduce(
    alloc: Global,
    op: RedOp,
    at: Loc,
    values: &[Operand],
    buffers: &[Seq<i64>],
) -> Result<Worked, NoMemory>
    ensures { IfOk result (λ w. done_by buffers.now w ≡ reduce_work op at (meanings values.now) buffers.now) }
{
    match values {
        [value] => match array_ops::reduce(alloc, op, &array(value), buffers)? {
            Ok(z) => Ok(Worked::Value(Operand::Word(z))),
            Err(fault) => Ok(Worked::Failed(fault, at)),
        },
        _ => Ok(Worked::Blocked),
    }
}

/// Whether an operand spreads to a shape.
fn spreads(value: &Operand, shape: &Shape) -> bool
    requires { IsShape shape.now }
    ensures value { result ≡
        list_all (λ from. spreads_to from (extents shape.now)) (extents_of (meaning_of value.now)) }
    ensures spreads { IsTrue result → Spreads (extents shape.now) value.now }
{
    match value {
        Operand::Array(view) => view.spread(shape).is_some(),
        Operand::Unbound | Operand::Word(_) => true,
    }
}

/// An array store: an array, then the value.
pub fn store(
    alloc: Global,
    at: Loc,
    values: &[Operand],
    buffers: &mut Seq<Seq<i64>>,
) -> Result<Worked, NoMemory>
    ensures { IfOk result (λ w. done_by buffers.new w ≡ store_work at (meanings values.now) buffers.old) }
{
    match values {
        [target, value] => store_into(alloc, at, &array(target), value, buffers),
        _ => Ok(Worked::Blocked),
    }
}

/// The right side is read whole, and then the elements of the target are replaced.
fn store_into(
    alloc: Global,
    at: Loc,
    target: &View,
    value: &Operand,
    buffers: &mut Seq<Seq<i64>>,
) -> Result<Worked, NoMemory>
    ensures { IfOk result (λ w. done_by buffers.new w ≡
        changed buffers.old at (and_then (stored_shape (array_of target.now).extents (meaning_of value.now))
        (λ ns. Ok (with_words buffers.old (array_of target.now).buffer (array_of target.now).places
        (operand_elements buffers.old ns (meaning_of value.now)))))) }
{
    let shape = target.shape();
    if !spreads(value, &shape) {
        return Ok(Worked::Failed(Fault::ValueError, at));
    }
    let words = operand_elements(alloc, &shape, value, buffers.as_slice())?;
    target.places_are_distinct();
    put_words(buffers, target, words.as_slice());
    Ok(Worked::Nothing)
}
