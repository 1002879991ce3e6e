// The work of statements on arrays. Each function's clause is its line of the definition.
ghost use Rattle.std.specs.Prelude.{◌≡◌, ◌∷◌, [], ℤ, List, Ok, IfOk};
ghost use Rattle.array_ops.specs.Arrays.{array_of, with_word, word_at};
ghost use Rattle.array_ops.specs.Elements.{WordOf};
ghost use Rattle.array_ops.specs.Operands.{meaning_of};
ghost use Rattle.array_ops.specs.Subscripts.{and_then, element_place, picked};
ghost use Rattle.eager_rules.specs.Running.{done_by, meanings};
ghost use Rattle.eager_rules.specs.Works.{as_array, changed, flip_work, get_work, put_work, valued, word_of};

use crate::frame::{array, word, words};
use crate::state::Worked;
use array_ops::{Operand, Subscript, element_place, flip, pick, set_word, word_at};
use krn_base::{Fault, Loc, NoMemory, Seq};
use std::alloc::Global;
use view_places::View;

/// One element read: an array, then its subscripts.
pub fn get(
    alloc: Global,
    at: Loc,
    values: &[Operand],
    buffers: &[Seq<i64>],
) -> Result<Worked, NoMemory>
    ensures { IfOk result (λ w. done_by buffers.now w ≡ get_work at (meanings values.now) buffers.now) }
{
    match values {
        [] => Ok(Worked::Blocked),
        [value, index @ ..] => {
            let index = words(alloc, index)?;
            Ok(element(at, &array(value), index.as_slice(), buffers))
        }
    }
}

/// One element read by one subscript.
pub fn get_one(at: Loc, value: &Operand, index: &Operand, buffers: &[Seq<i64>]) -> Worked
    ensures { done_by buffers.now result ≡
        get_work at (meaning_of value.now ∷ meaning_of index.now ∷ []) buffers.now }
{
    element(at, &array(value), &[word(index)], buffers)
}

/// The element of an array at an index for each dimension, or a fault.
fn element(at: Loc, view: &View, index: &[i64], buffers: &[Seq<i64>]) -> Worked
    ensures { done_by buffers.now result ≡ valued buffers.now at (and_then (element_place (array_of view.now) index.now)
        (λ place. Ok (WordOf (word_at buffers.now view.now.buffer place)))) }
{
    match element_place(view, index) {
        Ok(place) => Worked::Value(Operand::Word(word_at(buffers, view.buffer, place))),
        Err(fault) => Worked::Failed(fault, at),
    }
}

/// One element written: an array, the word, then the subscripts.
pub fn put(
    alloc: Global,
    at: Loc,
    values: &[Operand],
    buffers: &mut Seq<Seq<i64>>,
) -> Result<Worked, NoMemory>
    ensures { IfOk result (λ w. done_by buffers.new w ≡ put_work at (meanings values.now) buffers.old) }
{
    match values {
        [] => Ok(Worked::Blocked),
        [target, rest @ ..] => put_value(alloc, at, target, rest, buffers),
    }
}

/// The word and the subscripts of an element written into an array.
fn put_value(
    alloc: Global,
    at: Loc,
    target: &Operand,
    rest: &[Operand],
    buffers: &mut Seq<Seq<i64>>,
) -> Result<Worked, NoMemory>
    ensures { IfOk result (λ w. done_by buffers.new w ≡
        put_work at (meaning_of target.now ∷ meanings rest.now) buffers.old) }
{
    match rest {
        [] => Ok(Worked::Blocked),
        [value, index @ ..] => {
            let index = words(alloc, index)?;
            Ok(put_element(at, &array(target), value, index.as_slice(), buffers))
        }
    }
}

/// Puts a word at an index of an array, unless there is a fault.
fn put_element(
    at: Loc,
    view: &View,
    value: &Operand,
    index: &[i64],
    buffers: &mut Seq<Seq<i64>>,
) -> Worked
    ensures { done_by buffers.new result ≡
        changed buffers.old at (and_then (element_place (array_of view.now) index.now)
        (λ place. Ok (with_word buffers.old view.now.buffer place (word_of (meaning_of value.now))))) }
{
    match element_place(view, index) {
        Ok(place) => {
            put_word(buffers, view.buffer, place, value);
            Worked::Nothing
        }
        Err(fault) => Worked::Failed(fault, at),
    }
}

/// Puts a value's word at a place of a buffer.
#[tactic(auto, using(crate::proofs::Words::word_kept))]
fn put_word(buffers: &mut Seq<Seq<i64>>, buffer: u32, place: u32, value: &Operand)
    ensures { buffers.new ≡ with_word buffers.old buffer place (word_of (meaning_of value.now)) }
{
    match value {
        Operand::Word(z) => set_word(buffers, buffer, place, *z),
        Operand::Unbound | Operand::Array(_) => set_word(buffers, buffer, place, 0),
    }
}

/// A view by subscripts.
pub fn view(at: Loc, view: &View, subscripts: &[Subscript]) -> Worked
    ensures { (buffers : List (List ℤ)) → done_by buffers result ≡
        valued buffers at (as_array (picked subscripts.now (array_of view.now))) }
{
    match pick(view, subscripts) {
        Ok(part) => Worked::Value(Operand::Array(part)),
        Err(fault) => Worked::Failed(fault, at),
    }
}

/// An array with its dimensions reversed.
pub fn flipped(values: &[Operand]) -> Worked
    ensures { (buffers : List (List ℤ)) → done_by buffers result ≡ flip_work (meanings values.now) buffers }
{
    match values {
        [value] => Worked::Value(Operand::Array(flip(&array(value)))),
        _ => Worked::Blocked,
    }
}
