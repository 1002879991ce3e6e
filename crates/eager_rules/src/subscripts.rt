// Subscripts by the values of their operands.
ghost use Rattle.std.specs.Prelude.{◌≡◌, ℤ, List, IfOk};
ghost use Rattle.eager_rules.specs.Running.{done_by, meanings};
ghost use Rattle.eager_rules.specs.Works.{cut_of, next_subscript, part_from, pick_work, subscripts_of};

use crate::array_work::view;
use crate::frame::{array, word};
use crate::program::{CoreSub, Oper};
use crate::state::Worked;
use array_ops::{Operand, Subscript};
use krn_base::{Loc, NoMemory, Seq};
use std::alloc::Global;
use view_places::Slice;

/// The value of a part of a slice, if it is given, and the values that are left behind it.
fn take_part<'a>(part: &Option<Oper>, values: &'a [Operand]) -> (Option<i64>, &'a [Operand])
    ensures { part_from part.now (meanings values.now) ≡ (result.0, meanings result.1.now) }
{
    match part {
        None => (None, values),
        Some(_) => match values {
            [] => (None, values),
            [value, rest @ ..] => (Some(word(value)), rest),
        },
    }
}

/// A slice, and the values that are left behind its parts.
fn take_slice<'a>(
    start: &Option<Oper>,
    stop: &Option<Oper>,
    step: &Option<Oper>,
    values: &'a [Operand],
) -> (Slice, &'a [Operand])
    ensures { cut_of start.now stop.now step.now (meanings values.now) ≡ (result.0, meanings result.1.now) }
{
    let (start, values) = take_part(start, values);
    let (stop, values) = take_part(stop, values);
    let (step, values) = take_part(step, values);
    (Slice { start, stop, step }, values)
}

/// A subscript, and the values that are left behind its operands.
fn take_subscript<'a>(sub: &CoreSub, values: &'a [Operand]) -> (Subscript, &'a [Operand])
    ensures { next_subscript sub.now (meanings values.now) ≡ (result.0, meanings result.1.now) }
{
    match sub {
        CoreSub::At(_) => match values {
            [] => (Subscript::At(0), values),
            [value, rest @ ..] => (Subscript::At(word(value)), rest),
        },
        CoreSub::Cut(start, stop, step) => {
            let (slice, rest) = take_slice(start, stop, step, values);
            (Subscript::Cut(slice), rest)
        }
    }
}

/// Subscripts by the values of their operands, in order.
fn subscripts(
    alloc: Global,
    subs: &[CoreSub],
    values: &[Operand],
) -> Result<Seq<Subscript>, NoMemory>
    ensures { IfOk result (λ found. found ≡ subscripts_of subs.now (meanings values.now)) }
{
    let mut found = Seq::new(alloc);
    let mut left = values;
    for sub in subs {
        let (subscript, rest) = take_subscript(sub, left);
        found.push(subscript)?;
        left = rest;
    }
    Ok(found)
}

/// A view by subscripts: an array, then their operands.
pub fn picked(
    alloc: Global,
    subs: &[CoreSub],
    at: Loc,
    values: &[Operand],
) -> Result<Worked, NoMemory>
    ensures { IfOk result (λ w. (buffers : List (List ℤ)) → done_by buffers w ≡
        pick_work subs.now at (meanings values.now) buffers) }
{
    match values {
        [] => Ok(Worked::Blocked),
        [value, rest @ ..] => {
            let subscripts = subscripts(alloc, subs, rest)?;
            Ok(view(at, &array(value), subscripts.as_slice()))
        }
    }
}
