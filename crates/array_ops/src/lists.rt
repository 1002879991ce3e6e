// Whole lists of elements: of operands that are spread to a shape, of element operations, of arrays.
ghost use Rattle.std.specs.Prelude.{◌≡◌, ◌∷◌, [], IfOk, IsTrue, map, length};
ghost use Rattle.std.specs.List.{All};
ghost use Rattle.array_ops.specs.Arrays.{array_of, elements_of};
ghost use Rattle.array_ops.specs.Elements.{map_elements, operand_elements};
ghost use Rattle.array_ops.specs.Operands.{HasSmallPower, Spreads, meaning_of};
ghost use Rattle.array_ops.specs.Sources.{IsFresh, list_of};
ghost use Rattle.view_places.specs.Arrays.{element_count, is_small};
ghost use Rattle.view_places.specs.Shape.{IsShape, extents};
ghost use Rattle.view_places.specs.Spread.{extents as extents_of_spread, places};

use crate::mapping::{copy_all, map_one, map_select, map_two};
use crate::operand::Operand;
use crate::operation::MapOp;
use crate::source::Source;
use crate::source_calls::spread_source;
use krn_base::{NoMemory, Seq};
use std::alloc::Global;
use view_places::{Shape, Spread, View};

/// How many elements a shape has.
fn count_of(shape: &Shape) -> u32
    requires shape { IsShape shape.now }
    requires small { IsTrue (is_small (extents shape.now)) }
    ensures { result ≡ element_count (extents shape.now) }
{
    View::whole(0, shape).element_count()
}

/// A spread view has as many places as its shape has elements.
fn spread_count(spread: &Spread, shape: &Shape)
    requires shape { IsShape shape.now }
    requires small { IsTrue (is_small (extents shape.now)) }
    requires same { extents_of_spread spread.now ≡ extents shape.now }
    ensures { length (places spread.now) ≡ element_count (extents shape.now) }
{
    let whole = View::whole(0, shape);
    whole.same_extents(spread);
    whole.by_rows();
    spread.by_rows();
}

/// The elements of an operand that spreads to a shape, one after another.
fn source_of<'a>(operand: &Operand, shape: &Shape, buffers: &'a [Seq<i64>]) -> Source<'a>
    requires shape { IsShape shape.now }
    requires small { IsTrue (is_small (extents shape.now)) }
    requires spreads { Spreads (extents shape.now) operand.now }
    ensures list { list_of (element_count (extents shape.now)) result ≡
        operand_elements buffers.now (extents shape.now) (meaning_of operand.now) }
    ensures fresh { IsFresh (element_count (extents shape.now)) result }
{
    match operand {
        Operand::Unbound => Source::Word(0),
        Operand::Word(z) => Source::Word(*z),
        Operand::Array(view) => match view.spread(shape) {
            Some(spread) => {
                spread_count(&spread, shape);
                spread_source(buffers, &spread)
            }
            None => Source::Word(0),
        },
    }
}

/// The elements that an element operation makes, of the shape of its operands: one list, and no other beside it.
///
/// With another number of operands than the operation takes there are none. An exponent is at most 62.
pub fn map_elements(
    alloc: Global,
    op: MapOp,
    shape: &Shape,
    operands: &[Operand],
    buffers: &[Seq<i64>],
) -> Result<Seq<i64>, NoMemory>
    requires shape { IsShape shape.now }
    requires small { IsTrue (is_small (extents shape.now)) }
    requires spreads { All (Spreads (extents shape.now)) operands.now }
    requires exponent { HasSmallPower op }
    ensures { IfOk result (λ words. words ≡
        map_elements buffers.now (extents shape.now) op (map meaning_of operands.now)) }
{
    let count = count_of(shape);
    match (op, operands) {
        (MapOp::Un(un), [a]) => map_one(alloc, un, source_of(a, shape, buffers), count),
        (MapOp::Bin(bin), [a, b]) => {
            map_two(
                alloc,
                bin,
                source_of(a, shape, buffers),
                source_of(b, shape, buffers),
                count,
            )
        }
        (MapOp::Select, [mask, a, b]) => map_select(
            alloc,
            source_of(mask, shape, buffers),
            source_of(a, shape, buffers),
            source_of(b, shape, buffers),
            count,
        ),
        _ => Ok(Seq::new(alloc)),
    }
}

/// The elements of an operand that spreads to a shape, as a list.
pub fn operand_elements(
    alloc: Global,
    shape: &Shape,
    operand: &Operand,
    buffers: &[Seq<i64>],
) -> Result<Seq<i64>, NoMemory>
    requires shape { IsShape shape.now }
    requires small { IsTrue (is_small (extents shape.now)) }
    requires spreads { Spreads (extents shape.now) operand.now }
    ensures value { IfOk result (λ words. words ≡
        operand_elements buffers.now (extents shape.now) (meaning_of operand.now)) }
    ensures size { IfOk result (λ words. length words ≡ element_count (extents shape.now)) }
{
    let words = copy_all(alloc, source_of(operand, shape, buffers), count_of(shape))?;
    Ok(words)
}

/// The elements of an array in row-major order, as a list.
pub fn elements(alloc: Global, view: &View, buffers: &[Seq<i64>]) -> Result<Seq<i64>, NoMemory>
    ensures { IfOk result (λ words. words ≡ elements_of buffers.now (array_of view.now)) }
{
    let spread = view.as_spread();
    let words = copy_all(alloc, spread_source(buffers, &spread), spread.count())?;
    Ok(words)
}
