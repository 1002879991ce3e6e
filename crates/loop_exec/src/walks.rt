//! All elements of a nest or a fold: stored, made or joined.
ghost use Rattle.std.specs.Prelude.{◌≡◌, ◌<◌, [], IfOk, OnOk, length, map};
ghost use Rattle.std.specs.List.{range_with_len};
ghost use Rattle.array_ops.specs.Elements.{joined};
ghost use Rattle.overlap.specs.Walks.{in_place};
ghost use Rattle.view_places.specs.View.{places};
ghost use Rattle.loop_exec.specs.Elements.{IsReady, each_of};

use crate::element::Element;
use crate::element_calls::{advance, start, value};
use crate::leaf_calls::{first_place, leaf_of, next_place};
use crate::stack::Stack;
use array_ops::set_word;
use krn_base::{Join, NoMemory, Seq, join, unit};
use std::alloc::Global;

/// Stores each element as soon as it is made, where there is one.
fn store_some(e: &Element<'_>, count: u32, buffers: &mut Seq<Seq<i64>>)
    requires ready { IsReady e.now }
    requires some { 0 < count }
    requires count { count ≡ length (places e.now.frame.now) }
    ensures { buffers.new ≡
        in_place (each_of e.now) e.now.frame.now.buffer 0 (places e.now.frame.now) buffers.old }
{
    e.frame.by_rows();
    let own = Some(leaf_of(&e.frame.as_spread()));
    let mut stack = Stack::new();
    let mut walk = start(e);
    let mut place = first_place(&own, &e.frame.extent);
    let first = value(e, &walk, buffers.as_slice(), &mut stack);
    set_word(buffers, e.frame.buffer, place, first);
    for _done in 1..count {
        let number = walk.odometer.number;
        let axis = advance(e, &mut walk);
        place = next_place(&own, place, axis, number, &e.frame.extent);
        let z = value(e, &walk, buffers.as_slice(), &mut stack);
        set_word(buffers, e.frame.buffer, place, z);
    }
}

/// Stores each element into the frame as soon as it is made, one after another.
pub fn store_each(e: &Element<'_>, buffers: &mut Seq<Seq<i64>>)
    requires { IsReady e.now }
    ensures { buffers.new ≡
        in_place (each_of e.now) e.now.frame.now.buffer 0 (places e.now.frame.now) buffers.old }
{
    e.frame.places_are_distinct();
    let count = e.frame.element_count();
    if count > 0 {
        store_some(e, count, buffers);
    }
}

/// All elements, where there is one, behind a list with room for them.
fn make_some(
    e: &Element<'_>,
    count: u32,
    buffers: &[Seq<i64>],
    words: &mut Seq<i64>,
) -> Result<(), NoMemory>
    requires ready { IsReady e.now }
    requires some { 0 < count }
    requires count { count ≡ length (places e.now.frame.now) }
    requires fresh { words.old ≡ [] }
    ensures { OnOk result (words.new ≡ map (each_of e.now buffers.now) (range_with_len 0 count)) }
{
    let mut stack = Stack::new();
    let mut walk = start(e);
    words.push(value(e, &walk, buffers, &mut stack))?;
    for _done in 1..count {
        advance(e, &mut walk);
        words.push(value(e, &walk, buffers, &mut stack))?;
    }
    Ok(())
}

/// All elements as a list.
pub fn make_each(alloc: Global, e: &Element<'_>, buffers: &[Seq<i64>]) -> Result<Seq<i64>, NoMemory>
    requires { IsReady e.now }
    ensures { IfOk result (λ words. words ≡
        map (each_of e.now buffers.now) (range_with_len 0 (length (places e.now.frame.now)))) }
{
    e.frame.places_are_distinct();
    let count = e.frame.element_count();
    let mut words = Seq::from_vec(Vec::with_capacity(alloc, count as usize)?);
    if count > 0 {
        make_some(e, count, buffers, &mut words)?;
    }
    Ok(words)
}

/// The join of all elements, where there is one.
fn join_some(op: Join, e: &Element<'_>, count: u32, buffers: &[Seq<i64>]) -> i64
    requires ready { IsReady e.now }
    requires some { 0 < count }
    requires count { count ≡ length (places e.now.frame.now) }
    ensures { result ≡ joined op (map (each_of e.now buffers.now) (range_with_len 0 count)) }
{
    let mut stack = Stack::new();
    let mut walk = start(e);
    let mut total = join(op, unit(op), value(e, &walk, buffers, &mut stack));
    for _done in 1..count {
        advance(e, &mut walk);
        total = join(op, total, value(e, &walk, buffers, &mut stack));
    }
    total
}

/// The join of all elements, from the unit.
pub fn join_each(op: Join, e: &Element<'_>, buffers: &[Seq<i64>]) -> i64
    requires { IsReady e.now }
    ensures { result ≡ joined op
        (map (each_of e.now buffers.now) (range_with_len 0 (length (places e.now.frame.now)))) }
{
    e.frame.places_are_distinct();
    let count = e.frame.element_count();
    if count > 0 {
        join_some(op, e, count, buffers)
    } else {
        unit(op)
    }
}
