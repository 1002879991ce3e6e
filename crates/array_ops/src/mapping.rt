// Element operations over sources, one element after another.
ghost use Rattle.std.specs.Prelude.{◌≡◌, ◌+◌, ◌<◌, ◌++◌, ◌∷◌, [], IfOk, OnOk, length, map};
ghost use Rattle.std.specs.List.{zip};
ghost use Rattle.krn_base.specs.Numbers.{HasSmallExponent, element_result, unary_result};
ghost use Rattle.array_ops.specs.Elements.{choose};
ghost use Rattle.array_ops.specs.Sources.{IsFresh, StandsAt, item_of, list_of};

use crate::source::Source;
use crate::source_calls::next;
use krn_base::{BinOp, NoMemory, Seq, UnOp, elem_op, un_op};
use std::alloc::Global;

/// One operand's elements, each by an operation.
pub fn map_one(alloc: Global, op: UnOp, a: Source<'_>, count: u32) -> Result<Seq<i64>, NoMemory>
    requires small { HasSmallExponent op }
    requires fresh { IsFresh count a }
    ensures { IfOk result (λ words. words ≡ map (unary_result op) (list_of count a.entry)) }
{
    let mut a = a;
    let mut words = Seq::from_vec(Vec::with_capacity(alloc, count as usize)?);
    for k in 0..count {
        push_one(&mut words, op, &mut a, count, k)?;
    }
    Ok(words)
}

/// One more result of an operation on one operand.
fn push_one(
    words: &mut Seq<i64>,
    op: UnOp,
    a: &mut Source<'_>,
    count: u32,
    k: u32,
) -> Result<(), NoMemory>
    requires small { HasSmallExponent op }
    requires stands { StandsAt count k a.old }
    requires below { k < count }
    ensures pushed { OnOk result (words.new ≡ words.old ++ unary_result op (item_of count a.old k) ∷ []) }
    ensures list { list_of count a.new ≡ list_of count a.old }
    ensures stands { k + 1 < count → StandsAt count (k + 1) a.new }
{
    words.push(un_op(op, next(a, count, k)))?;
    Ok(())
}

/// The elements of one operand.
pub fn copy_all(alloc: Global, a: Source<'_>, count: u32) -> Result<Seq<i64>, NoMemory>
    requires fresh { IsFresh count a }
    ensures list { IfOk result (λ words. words ≡ list_of count a.entry) }
    ensures size { IfOk result (λ words. length words ≡ count) }
{
    let words = map_one(alloc, UnOp::Copy, a, count)?;
    Ok(words)
}

/// Two operands' elements, pair by pair.
pub fn map_two(
    alloc: Global,
    op: BinOp,
    a: Source<'_>,
    b: Source<'_>,
    count: u32,
) -> Result<Seq<i64>, NoMemory>
    requires first { IsFresh count a }
    requires second { IsFresh count b }
    ensures { IfOk result (λ words. words ≡ map (λ p. element_result op p.0 p.1)
        (zip (list_of count a.entry) (list_of count b.entry))) }
{
    let mut a = a;
    let mut b = b;
    let mut words = Seq::from_vec(Vec::with_capacity(alloc, count as usize)?);
    for k in 0..count {
        push_two(&mut words, op, &mut a, &mut b, count, k)?;
    }
    Ok(words)
}

/// One more result of an operation on two operands.
fn push_two(
    words: &mut Seq<i64>,
    op: BinOp,
    a: &mut Source<'_>,
    b: &mut Source<'_>,
    count: u32,
    k: u32,
) -> Result<(), NoMemory>
    requires first { StandsAt count k a.old }
    requires second { StandsAt count k b.old }
    requires below { k < count }
    ensures pushed { OnOk result (words.new ≡
        words.old ++ element_result op (item_of count a.old k) (item_of count b.old k) ∷ []) }
    ensures first { list_of count a.new ≡ list_of count a.old }
    ensures first_stands { k + 1 < count → StandsAt count (k + 1) a.new }
    ensures second { list_of count b.new ≡ list_of count b.old }
    ensures second_stands { k + 1 < count → StandsAt count (k + 1) b.new }
{
    let x = next(a, count, k);
    let y = next(b, count, k);
    words.push(elem_op(op, x, y))?;
    Ok(())
}

/// The choice between two operands by a mask.
fn chosen(mask: i64, x: i64, y: i64) -> i64
    ensures { result ≡ choose (mask, (x, y)) }
{
    if mask == 0 { y } else { x }
}

/// Elements of one operand where the mask is true, and of the other else.
pub fn map_select(
    alloc: Global,
    mask: Source<'_>,
    a: Source<'_>,
    b: Source<'_>,
    count: u32,
) -> Result<Seq<i64>, NoMemory>
    requires mask { IsFresh count mask }
    requires first { IsFresh count a }
    requires second { IsFresh count b }
    ensures { IfOk result (λ words. words ≡
        map choose (zip (list_of count mask.entry) (zip (list_of count a.entry) (list_of count b.entry)))) }
{
    let mut mask = mask;
    let mut a = a;
    let mut b = b;
    let mut words = Seq::from_vec(Vec::with_capacity(alloc, count as usize)?);
    for k in 0..count {
        push_choice(&mut words, &mut mask, &mut a, &mut b, count, k)?;
    }
    Ok(words)
}

/// One more choice.
fn push_choice(
    words: &mut Seq<i64>,
    mask: &mut Source<'_>,
    a: &mut Source<'_>,
    b: &mut Source<'_>,
    count: u32,
    k: u32,
) -> Result<(), NoMemory>
    requires mask { StandsAt count k mask.old }
    requires first { StandsAt count k a.old }
    requires second { StandsAt count k b.old }
    requires below { k < count }
    ensures pushed { OnOk result (words.new ≡ words.old ++
        choose (item_of count mask.old k, (item_of count a.old k, item_of count b.old k)) ∷ []) }
    ensures mask { list_of count mask.new ≡ list_of count mask.old }
    ensures mask_stands { k + 1 < count → StandsAt count (k + 1) mask.new }
    ensures first { list_of count a.new ≡ list_of count a.old }
    ensures first_stands { k + 1 < count → StandsAt count (k + 1) a.new }
    ensures second { list_of count b.new ≡ list_of count b.old }
    ensures second_stands { k + 1 < count → StandsAt count (k + 1) b.new }
{
    let test = next(mask, count, k);
    let x = next(a, count, k);
    let y = next(b, count, k);
    words.push(chosen(test, x, y))?;
    Ok(())
}
