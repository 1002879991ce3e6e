//! The work of statements that make views. Each function's clause is its line of the definition.
ghost use Rattle.std.specs.Prelude.{◌≡◌, ◌∷◌, [], ◌++◌, ℤ, List, IfOk, IsTrue, OnOk, length, map};
ghost use Rattle.std.specs.List.{flat_map};
ghost use Rattle.array_ops.specs.Arrays.{array_of, whole_of};
ghost use Rattle.array_ops.specs.Elements.{ArrayOf};
ghost use Rattle.array_ops.specs.Subscripts.{picked};
ghost use Rattle.eager_rules.specs.Works.{as_array, fresh_work, sub_operands, subscripts_of, valued};
ghost use Rattle.eager_rules.specs.Works.{Made as MadeOf};
ghost use Rattle.view_places.specs.Arrays.{is_small};
ghost use Rattle.view_places.specs.Shape.{IsShape, extents};
ghost use Rattle.loop_exec.specs.Banks.{words_bound};
ghost use Rattle.loop_exec.specs.Running.{view_done};
ghost use Rattle.loop_exec.specs.Subscripts.{part_at, subscript_at};
ghost use Rattle.loop_prog.specs.State.{operand_in};

use crate::registers::word;
use crate::running::{Trouble, ViewMade};
use crate::word_work::words_of;
use array_ops::{Fill, Subscript, fill, fresh_shape, pick};
use krn_base::{Loc, NoMemory, Seq};
use loop_prog::{CoreSub, Oper};
use std::alloc::Global;
use view_places::{Shape, Slice, View};

/// A part of a slice, if it is given.
fn part(words: &[Option<i64>], part: &Option<Oper>) -> Option<i64>
    ensures { result ≡ part_at (words_bound words.now) part.now }
{
    match part {
        Some(x) => Some(word(words, *x)),
        None => None,
    }
}

/// A subscript by the values of its operands.
fn subscript(words: &[Option<i64>], sub: &CoreSub) -> Subscript
    ensures { result ≡ subscript_at (words_bound words.now) sub.now }
{
    match sub {
        CoreSub::At(x) => Subscript::At(word(words, *x)),
        CoreSub::Cut(start, stop, step) => Subscript::Cut(Slice {
            start: part(words, start),
            stop: part(words, stop),
            step: part(words, step),
        }),
    }
}

/// Puts subscripts by the values of their operands, in order, into the room for them.
fn subscripts(
    words: &[Option<i64>],
    subs: &[CoreSub],
    found: &mut Vec<Subscript>,
) -> Result<(), NoMemory>
    ensures { OnOk result (found.new.items ≡ map (subscript_at (words_bound words.now)) subs.now) }
{
    found.clear();
    for sub in subs {
        if found.push(subscript(words, sub)).is_err() {
            return Err(NoMemory);
        }
    }
    Ok(())
}

/// A view by subscripts, or a fault.
fn view_or_fault(at: Loc, view: &View, subscripts: &[Subscript]) -> ViewMade
    ensures { (buffers : List (List ℤ)) → view_done buffers result ≡
        valued buffers at (as_array (picked subscripts.now (array_of view.now))) }
{
    match pick(view, subscripts) {
        Ok(part) => Ok(Some(part)),
        Err(fault) => Err(Trouble::Failed(fault, at)),
    }
}

/// A view by subscripts with operands. `found` is the room in which these are listed.
pub fn picked(
    at: Loc,
    words: &[Option<i64>],
    view: &View,
    subs: &[CoreSub],
    found: &mut Vec<Subscript>,
) -> Result<ViewMade, NoMemory>
    ensures { IfOk result (λ w. (buffers : List (List ℤ)) → view_done buffers w ≡
        valued buffers at (as_array (picked (subscripts_of subs.now
        (map (operand_in (words_bound words.now)) (flat_map sub_operands subs.now))) (array_of view.now)))) }
{
    subscripts(words, subs, found)?;
    Ok(view_or_fault(at, view, found.as_slice()))
}

/// A new buffer of these words behind the others, and the whole of it as an array of this shape.
pub fn new_array(
    shape: &Shape,
    words: Seq<i64>,
    buffers: &mut Seq<Seq<i64>>,
) -> Result<ViewMade, NoMemory>
    requires shape { IsShape shape.now }
    requires small { IsTrue (is_small (extents shape.now)) }
    ensures { IfOk result (λ w. view_done buffers.new w ≡
        MadeOf (buffers.old ++ words ∷ []) (ArrayOf (whole_of (length buffers.old) (extents shape.now)) ∷ [])) }
{
    let number = buffers.len();
    if number >= u32::MAX as usize {
        return Err(NoMemory);
    }
    buffers.push(words)?;
    Ok(Ok(Some(View::whole(number as u32, shape))))
}

/// A new array by its dimensions.
pub fn fresh(
    alloc: Global,
    filling: Fill,
    at: Loc,
    words: &[Option<i64>],
    dims: &[Oper],
    buffers: &mut Seq<Seq<i64>>,
) -> Result<ViewMade, NoMemory>
    ensures { IfOk result (λ w. view_done buffers.new w ≡
        fresh_work filling at (map (operand_in (words_bound words.now)) dims.now) buffers.old) }
{
    let dims = words_of(alloc, words, dims)?;
    match fresh_shape(filling, dims.as_slice()) {
        Ok(shape) => {
            let words = fill(alloc, filling, View::whole(0, &shape).element_count())?;
            new_array(&shape, words, buffers)
        }
        Err(fault) => Ok(Err(Trouble::Failed(fault, at))),
    }
}
