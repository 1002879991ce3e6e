//! The work of statements on words and elements. Each function's clause is its line of the definition.
ghost use Rattle.std.specs.Prelude.{◌≡◌, ◌∷◌, [], ℤ, List, IfOk, Ok, map, pos, true};
ghost use Rattle.array_ops.specs.Arrays.{array_of, with_word, word_at};
ghost use Rattle.array_ops.specs.Elements.{WordOf};
ghost use Rattle.array_ops.specs.Subscripts.{and_then, element_place};
ghost use Rattle.eager_rules.specs.Works.{as_word, changed, extent_of, move_work, valued, word_of, word_result};
ghost use Rattle.eager_rules.specs.Works.{word_work};
ghost use Rattle.eager_rules.specs.Works.{Made as MadeOf};
ghost use Rattle.loop_exec.specs.Banks.{words_bound};
ghost use Rattle.loop_exec.specs.Running.{nothing_done, word_done};
ghost use Rattle.loop_prog.specs.Conditions.{small_word};
ghost use Rattle.loop_prog.specs.State.{operand_in};

use crate::registers::{operand, word};
use crate::running::{NothingMade, Trouble, WordMade};
use array_ops::{element_place, set_word, word_at};
use krn_base::{Fault, Loc, NoMemory, Seq, scalar_op, un_op};
use loop_prog::{Oper, WordOp};
use smallvec::SmallVec;
use std::alloc::Global;
use view_places::View;

/// Operands as words; those of an index are at most four, and take no memory.
pub fn words_of(
    alloc: Global,
    words: &[Option<i64>],
    opers: &[Oper],
) -> Result<SmallVec<i64, 4>, NoMemory>
    ensures { IfOk result (λ zs. zs.items ≡ map word_of (map (operand_in (words_bound words.now)) opers.now)) }
{
    let mut zs = SmallVec::new(alloc);
    for x in opers {
        if zs.push(word(words, *x)).is_err() {
            return Err(NoMemory);
        }
    }
    Ok(zs)
}

/// The result of a scalar operation; 0 where there are more or fewer operands than it takes.
fn scalar(op: WordOp, words: &[Option<i64>], args: &[Oper]) -> Result<i64, Fault>
    requires { small_word op ≡ true }
    ensures { result ≡ word_result op (map word_of (map (operand_in (words_bound words.now)) args.now)) }
{
    match (op, args) {
        (WordOp::Bin(bin), [a, b]) => scalar_op(bin, word(words, *a), word(words, *b)),
        (WordOp::Un(un), [a]) => Ok(un_op(un, word(words, *a))),
        _ => Ok(0),
    }
}

/// A word, or a fault at its place.
fn word_or_fault(outcome: Result<i64, Fault>, at: Loc) -> WordMade
    ensures { (buffers : List (List ℤ)) → word_done buffers result ≡ valued buffers at (as_word outcome) }
{
    match outcome {
        Ok(z) => Ok(Some(z)),
        Err(fault) => Err(Trouble::Failed(fault, at)),
    }
}

/// A value as it is.
fn moved(words: &[Option<i64>], args: &[Oper]) -> WordMade
    ensures { (buffers : List (List ℤ)) → word_done buffers result ≡
        move_work (map (operand_in (words_bound words.now)) args.now) buffers }
{
    match args {
        [x] => Ok(operand(words, *x)),
        _ => Err(Trouble::Blocked),
    }
}

/// A scalar operation, or a move.
pub fn word_op(op: WordOp, at: Loc, words: &[Option<i64>], args: &[Oper]) -> WordMade
    requires { small_word op ≡ true }
    ensures { (buffers : List (List ℤ)) → word_done buffers result ≡
        word_work op at (map (operand_in (words_bound words.now)) args.now) buffers }
{
    match op {
        WordOp::Move => moved(words, args),
        WordOp::Bin(_) | WordOp::Un(_) => word_or_fault(scalar(op, words, args), at),
    }
}

/// The extent of a dimension of a view, or the number of its elements; 0 for a dimension that it hasn't.
fn extent_of(axis: Option<u8>, view: &View) -> u32
    ensures { result ≡ extent_of axis (array_of view.now) }
{
    match axis {
        None => view.element_count(),
        Some(axis) if axis < view.rank => view.extent[usize::from(axis)],
        Some(_) => 0,
    }
}

/// The extent of a dimension, or the number of elements.
pub fn extent(axis: Option<u8>, view: &View) -> WordMade
    ensures { (buffers : List (List ℤ)) → word_done buffers result ≡
        MadeOf buffers (WordOf (pos (extent_of axis (array_of view.now))) ∷ []) }
{
    Ok(Some(i64::from(extent_of(axis, view))))
}

/// The element of an array at an index for each dimension, or a fault.
pub fn element(at: Loc, view: &View, index: &[i64], buffers: &[Seq<i64>]) -> WordMade
    ensures { word_done buffers.now result ≡ valued buffers.now at (and_then (element_place (array_of view.now)
        index.now)
        (λ place. Ok (WordOf (word_at buffers.now view.now.buffer place)))) }
{
    match element_place(view, index) {
        Ok(place) => Ok(Some(word_at(buffers, view.buffer, place))),
        Err(fault) => Err(Trouble::Failed(fault, at)),
    }
}

/// Puts a word at an index of an array, unless there is a fault.
pub fn put_element(
    at: Loc,
    view: &View,
    value: i64,
    index: &[i64],
    buffers: &mut Seq<Seq<i64>>,
) -> NothingMade
    ensures { nothing_done buffers.new result ≡
        changed buffers.old at (and_then (element_place (array_of view.now) index.now)
        (λ place. Ok (with_word buffers.old view.now.buffer place value))) }
{
    match element_place(view, index) {
        Ok(place) => {
            set_word(buffers, view.buffer, place, value);
            Ok(())
        }
        Err(fault) => Err(Trouble::Failed(fault, at)),
    }
}
