// The work of statements on the values of their operands. Each function's clause is its line of the definition.
ghost use Rattle.std.specs.Prelude.{◌≡◌, ◌∷◌, [], ℤ, List, IfOk, true};
ghost use Rattle.array_ops.specs.Arrays.{array_of};
ghost use Rattle.array_ops.specs.Operands.{meaning_of};
ghost use Rattle.eager_rules.specs.Running.{done_by, meanings};
ghost use Rattle.eager_rules.specs.Small.{is_small_word};
ghost use Rattle.eager_rules.specs.Works.{as_word, extent_of, extent_work, move_work, valued, word_work};
ghost use Rattle.eager_rules.specs.Works.{word_result};
ghost use Rattle.eager_rules.specs.declared.program.WordOp.TheVariants.{Bin};

use crate::frame::{array, word, words};
use crate::program::WordOp;
use crate::state::Worked;
use array_ops::Operand;
use krn_base::{BinOp, Fault, Loc, NoMemory, scalar_op, un_op};
use std::alloc::Global;
use view_places::View;

/// A value as it is.
pub fn moved(values: &[Operand]) -> Worked
    ensures { (buffers : List (List ℤ)) → done_by buffers result ≡ move_work (meanings values.now) buffers }
{
    match values {
        [value] => Worked::Value(*value),
        _ => Worked::Blocked,
    }
}

/// A word, or a fault at its place.
fn word_or_fault(outcome: Result<i64, Fault>, at: Loc) -> Worked
    ensures { (buffers : List (List ℤ)) → done_by buffers result ≡ valued buffers at (as_word outcome) }
{
    match outcome {
        Ok(z) => Worked::Value(Operand::Word(z)),
        Err(fault) => Worked::Failed(fault, at),
    }
}

/// The result of a scalar operation on words; 0 where there are more or fewer than it takes.
fn scalar(op: WordOp, args: &[i64]) -> Result<i64, Fault>
    requires { is_small_word op ≡ true }
    ensures { result ≡ word_result op args.now }
{
    match (op, args) {
        (WordOp::Bin(bin), [a, b]) => scalar_op(bin, *a, *b),
        (WordOp::Un(un), [a]) => Ok(un_op(un, *a)),
        _ => Ok(0),
    }
}

/// A scalar operation on two words.
pub fn two_words(op: BinOp, at: Loc, a: &Operand, b: &Operand) -> Worked
    ensures { (buffers : List (List ℤ)) → done_by buffers result ≡
        word_work (Bin op) at (meaning_of a.now ∷ meaning_of b.now ∷ []) buffers }
{
    word_or_fault(scalar_op(op, word(a), word(b)), at)
}

/// A scalar operation, or a move.
pub fn word_op(alloc: Global, op: WordOp, at: Loc, values: &[Operand]) -> Result<Worked, NoMemory>
    requires { is_small_word op ≡ true }
    ensures { IfOk result (λ w. (buffers : List (List ℤ)) → done_by buffers w ≡
        word_work op at (meanings values.now) buffers) }
{
    match op {
        WordOp::Move => Ok(moved(values)),
        WordOp::Bin(_) | WordOp::Un(_) => {
            let args = words(alloc, values)?;
            Ok(word_or_fault(scalar(op, args.as_slice()), at))
        }
    }
}

/// The extent of a dimension, or the number of elements.
pub fn extent(axis: Option<u8>, values: &[Operand]) -> Worked
    ensures { (buffers : List (List ℤ)) → done_by buffers result ≡ extent_work axis (meanings values.now) buffers }
{
    match values {
        [value] => {
            let extent = extent_of(axis, &array(value));
            Worked::Value(Operand::Word(i64::from(extent)))
        }
        _ => Worked::Blocked,
    }
}

/// The extent of a dimension of a view, or the number of its elements; 0 for a dimension that it hasn't.
fn extent_of(axis: Option<u8>, view: &View) -> u32
    ensures { result ≡ extent_of axis (array_of view.now) }
{
    match axis {
        None => view.element_count(),
        Some(axis) if axis < view.rank => view.extent[usize::from(axis)],
        Some(_) => 0,
    }
}
