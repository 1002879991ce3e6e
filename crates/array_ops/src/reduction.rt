// Reductions of lists of words.
ghost use Rattle.std.specs.Prelude.{◌≡◌, IfOk};
ghost use Rattle.std.specs.List.{list_all, list_any};
ghost use Rattle.array_ops.specs.Arrays.{array_of, elements_of};
ghost use Rattle.array_ops.specs.Elements.{is_set, joined, reduced, unless_empty};

use crate::lists::elements;
use crate::operation::RedOp;
use krn_base::{Fault, Join, NoMemory, Seq, join, unit};
use std::alloc::Global;
use view_places::View;

/// All words joined, from the unit.
fn join_all(op: Join, words: &[i64]) -> i64
    ensures { result ≡ joined op words.now }
{
    let mut total = unit(op);
    for word in words {
        total = join(op, total, *word);
    }
    total
}

/// Whether a word is other than 0.
fn is_set(word: i64) -> bool
    ensures { result ≡ is_set word }
{
    word != 0
}

/// Whether any word is other than 0.
fn any_set(words: &[i64]) -> bool
    ensures { result ≡ list_any is_set words.now }
{
    words.iter().any(|word| is_set(*word))
}

/// Whether all words are other than 0.
fn all_set(words: &[i64]) -> bool
    ensures { result ≡ list_all is_set words.now }
{
    words.iter().all(|word| is_set(*word))
}

/// The least or the greatest of words, of which there is one.
fn unless_empty(op: Join, words: &[i64]) -> Result<i64, Fault>
    ensures { result ≡ unless_empty words.now (joined op words.now) }
{
    match words {
        [] => Err(Fault::ValueError),
        [_, ..] => Ok(join_all(op, words)),
    }
}

/// A reduction of a list of words.
fn reduced(op: RedOp, words: &[i64]) -> Result<i64, Fault>
    ensures { result ≡ reduced op words.now }
{
    match op {
        RedOp::Sum => Ok(join_all(Join::Sum, words)),
        RedOp::Prod => Ok(join_all(Join::Prod, words)),
        RedOp::Min => unless_empty(Join::Min, words),
        RedOp::Max => unless_empty(Join::Max, words),
        RedOp::Any => Ok(i64::from(any_set(words))),
        RedOp::All => Ok(i64::from(all_set(words))),
    }
}

/// What `reduce` answers: the word, or the fault.
pub type Reduced = Result<i64, Fault>;

/// A reduction of all elements of an array, as NumPy has it: the sum and the product wrap at 64 bits, `Any` and `All`
/// give 0 or 1.
///
/// `ValueError` for the least or the greatest of no element.
pub fn reduce(
    alloc: Global,
    op: RedOp,
    view: &View,
    buffers: &[Seq<i64>],
) -> Result<Reduced, NoMemory>
    ensures { IfOk result (λ r. r ≡ reduced op (elements_of buffers.now (array_of view.now))) }
{
    let words = elements(alloc, view, buffers)?;
    Ok(reduced(op, words.as_slice()))
}
