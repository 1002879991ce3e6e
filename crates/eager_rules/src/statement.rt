// One function for each kind of statement without blocks. The clause of each is its line of the definition.
ghost use Rattle.std.specs.Prelude.{◌≡◌, ◌∷◌, [], ◌++◌, IfOk, OnOk, map, true};
ghost use Rattle.std.specs.List.{flat_map};
ghost use Rattle.eager_rules.specs.Eager.{ready};
ghost use Rattle.eager_rules.specs.Holding.{lifted, return_held, step_held, where_held};
ghost use Rattle.eager_rules.specs.State.{operand};
ghost use Rattle.eager_rules.specs.Running.{end_of, held_of, state_of};
ghost use Rattle.eager_rules.specs.Small.{is_small_map, is_small_word};
ghost use Rattle.eager_rules.specs.Works.{extent_work, flip_work, fresh_work, get_work, given_part, map_work};
ghost use Rattle.eager_rules.specs.Works.{move_work, pick_work, put_work};
ghost use Rattle.eager_rules.specs.Works.{reduce_work, store_work, sub_operands, word_work};
ghost use Rattle.eager_rules.specs.declared.program.Oper.TheVariants.{Name};
ghost use Rattle.eager_rules.specs.declared.program.WordOp.TheVariants.{Bin};

use crate::frame::{finish, is_ready, read, read_all};
use crate::heap::hold_all;
use crate::program::{CoreSub, Oper, WordOp};
use crate::state::{Ending, State};
use crate::{array_work, fresh_work, map_work, subscripts, work};
use array_ops::{Fill, MapOp, RedOp};
use krn_base::{BinOp, Loc, NoMemory, Seq};
use std::alloc::Global;

/// A scalar operation, or a move.
pub fn word(
    alloc: Global,
    to: u32,
    op: WordOp,
    args: &[Oper],
    at: Loc,
    state: &mut State,
) -> Result<Ending, NoMemory>
    requires { is_small_word op ≡ true }
    ensures { IfOk result (λ e. (held_of state.new, end_of e) ≡
        step_held args.now (to ∷ []) (lifted (word_work op at)) (held_of state.old)) }
{
    match (op, args) {
        (WordOp::Bin(op), [a, b]) => word_of_two(alloc, to, op, *a, *b, at, state),
        _ => word_of_all(alloc, to, op, args, at, state),
    }
}

/// A scalar operation on two words. It makes no list.
fn word_of_two(
    alloc: Global,
    to: u32,
    op: BinOp,
    a: Oper,
    b: Oper,
    at: Loc,
    state: &mut State,
) -> Result<Ending, NoMemory>
    ensures { IfOk result (λ e. (held_of state.new, end_of e) ≡
        step_held (a ∷ b ∷ []) (to ∷ []) (lifted (word_work (Bin op) at)) (held_of state.old)) }
{
    if !is_ready(state, &[a, b], &[to]) {
        return Ok(Ending::Stuck);
    }
    let worked = work::two_words(op, at, &read(state, &a), &read(state, &b));
    finish(alloc, state, &[to], worked)
}

/// A scalar operation on a list of words, or a move.
fn word_of_all(
    alloc: Global,
    to: u32,
    op: WordOp,
    args: &[Oper],
    at: Loc,
    state: &mut State,
) -> Result<Ending, NoMemory>
    requires { is_small_word op ≡ true }
    ensures { IfOk result (λ e. (held_of state.new, end_of e) ≡
        step_held args.now (to ∷ []) (lifted (word_work op at)) (held_of state.old)) }
{
    if !is_ready(state, args, &[to]) {
        return Ok(Ending::Stuck);
    }
    let values = read_all(alloc, state, args)?;
    let worked = work::word_op(alloc, op, at, values.as_slice())?;
    finish(alloc, state, &[to], worked)
}

/// Puts operands behind others.
fn push_all(opers: &mut Seq<Oper>, others: &[Oper]) -> Result<(), NoMemory>
    ensures { OnOk result (opers.new ≡ opers.old ++ others.now) }
{
    for oper in others {
        opers.push(*oper)?;
    }
    Ok(())
}

/// The array of a statement as the operand before others.
pub fn with_array(alloc: Global, of: u32, others: &[Oper]) -> Result<Seq<Oper>, NoMemory>
    ensures { IfOk result (λ opers. opers ≡ Name of ∷ others.now) }
{
    let mut opers = Seq::new(alloc);
    opers.push(Oper::Name(of))?;
    push_all(&mut opers, others)?;
    Ok(opers)
}

/// The extent of a dimension, or the number of elements.
pub fn extent(
    to: u32,
    of: u32,
    axis: Option<u8>,
    state: &mut State,
    alloc: Global,
) -> Result<Ending, NoMemory>
    ensures { IfOk result (λ e. (held_of state.new, end_of e) ≡
        step_held (Name of ∷ []) (to ∷ []) (lifted (extent_work axis)) (held_of state.old)) }
{
    let reads = [Oper::Name(of)];
    if !is_ready(state, &reads, &[to]) {
        return Ok(Ending::Stuck);
    }
    let values = read_all(alloc, state, &reads)?;
    let worked = work::extent(axis, values.as_slice());
    finish(alloc, state, &[to], worked)
}

/// One element read.
pub fn get(
    alloc: Global,
    to: u32,
    of: u32,
    index: &[Oper],
    at: Loc,
    state: &mut State,
) -> Result<Ending, NoMemory>
    ensures { IfOk result (λ e. (held_of state.new, end_of e) ≡
        step_held (Name of ∷ index.now) (to ∷ []) (lifted (get_work at)) (held_of state.old)) }
{
    match index {
        [i] => get_by_one(alloc, to, of, *i, at, state),
        _ => get_by_all(alloc, to, of, index, at, state),
    }
}

/// One element read by one subscript. It makes no list.
fn get_by_one(
    alloc: Global,
    to: u32,
    of: u32,
    i: Oper,
    at: Loc,
    state: &mut State,
) -> Result<Ending, NoMemory>
    ensures { IfOk result (λ e. (held_of state.new, end_of e) ≡
        step_held (Name of ∷ i ∷ []) (to ∷ []) (lifted (get_work at)) (held_of state.old)) }
{
    let reads = [Oper::Name(of), i];
    if !is_ready(state, &reads, &[to]) {
        return Ok(Ending::Stuck);
    }
    let worked = array_work::get_one(
        at,
        &read(state, &Oper::Name(of)),
        &read(state, &i),
        state.heap.buffers.as_slice(),
    );
    finish(alloc, state, &[to], worked)
}

/// One element read by any number of subscripts.
fn get_by_all(
    alloc: Global,
    to: u32,
    of: u32,
    index: &[Oper],
    at: Loc,
    state: &mut State,
) -> Result<Ending, NoMemory>
    ensures { IfOk result (λ e. (held_of state.new, end_of e) ≡
        step_held (Name of ∷ index.now) (to ∷ []) (lifted (get_work at)) (held_of state.old)) }
{
    let reads = with_array(alloc, of, index)?;
    if !is_ready(state, reads.as_slice(), &[to]) {
        return Ok(Ending::Stuck);
    }
    let values = read_all(alloc, state, reads.as_slice())?;
    let worked = array_work::get(alloc, at, values.as_slice(), state.heap.buffers.as_slice())?;
    finish(alloc, state, &[to], worked)
}

/// An element's array, its word and its subscripts as operands.
pub fn with_value(
    alloc: Global,
    of: u32,
    value: Oper,
    index: &[Oper],
) -> Result<Seq<Oper>, NoMemory>
    ensures { IfOk result (λ opers. opers ≡ Name of ∷ value ∷ index.now) }
{
    let mut opers = Seq::new(alloc);
    opers.push(Oper::Name(of))?;
    opers.push(value)?;
    push_all(&mut opers, index)?;
    Ok(opers)
}

/// One element written.
pub fn put(
    alloc: Global,
    of: u32,
    index: &[Oper],
    value: Oper,
    at: Loc,
    state: &mut State,
) -> Result<Ending, NoMemory>
    ensures { IfOk result (λ e. (held_of state.new, end_of e) ≡
        step_held (Name of ∷ value ∷ index.now) [] (lifted (put_work at)) (held_of state.old)) }
{
    let reads = with_value(alloc, of, value, index)?;
    if !is_ready(state, reads.as_slice(), &[]) {
        return Ok(Ending::Stuck);
    }
    let values = read_all(alloc, state, reads.as_slice())?;
    let worked = array_work::put(alloc, at, values.as_slice(), &mut state.heap.buffers)?;
    finish(alloc, state, &[], worked)
}

/// The operands of subscripts behind their array.
pub fn with_subscripts(alloc: Global, of: u32, subs: &[CoreSub]) -> Result<Seq<Oper>, NoMemory>
    ensures { IfOk result (λ opers. opers ≡ Name of ∷ flat_map sub_operands subs.now) }
{
    let mut opers = Seq::new(alloc);
    opers.push(Oper::Name(of))?;
    for sub in subs {
        match sub {
            CoreSub::At(x) => opers.push(*x)?,
            CoreSub::Cut(start, stop, step) => {
                push_part(&mut opers, start)?;
                push_part(&mut opers, stop)?;
                push_part(&mut opers, step)?;
            }
        }
    }
    Ok(opers)
}

/// Puts a part of a slice, if it is given, behind operands.
fn push_part(opers: &mut Seq<Oper>, part: &Option<Oper>) -> Result<(), NoMemory>
    ensures { OnOk result (opers.new ≡ opers.old ++ given_part part.now) }
{
    if let Some(x) = part {
        opers.push(*x)?;
    }
    Ok(())
}

/// A view by subscripts.
pub fn pick(
    alloc: Global,
    to: u32,
    of: u32,
    subs: &[CoreSub],
    at: Loc,
    state: &mut State,
) -> Result<Ending, NoMemory>
    ensures { IfOk result (λ e. (held_of state.new, end_of e) ≡
        step_held (Name of ∷ flat_map sub_operands subs.now) (to ∷ []) (lifted (pick_work subs.now at))
        (held_of state.old)) }
{
    let reads = with_subscripts(alloc, of, subs)?;
    if !is_ready(state, reads.as_slice(), &[to]) {
        return Ok(Ending::Stuck);
    }
    let values = read_all(alloc, state, reads.as_slice())?;
    let worked = subscripts::picked(alloc, subs, at, values.as_slice())?;
    finish(alloc, state, &[to], worked)
}

/// A view with the dimensions reversed.
pub fn flip(alloc: Global, to: u32, of: u32, state: &mut State) -> Result<Ending, NoMemory>
    ensures { IfOk result (λ e. (held_of state.new, end_of e) ≡
        step_held (Name of ∷ []) (to ∷ []) (lifted flip_work) (held_of state.old)) }
{
    let reads = [Oper::Name(of)];
    if !is_ready(state, &reads, &[to]) {
        return Ok(Ending::Stuck);
    }
    let values = read_all(alloc, state, &reads)?;
    let worked = array_work::flipped(values.as_slice());
    finish(alloc, state, &[to], worked)
}

/// The same array under another name.
pub fn alias(alloc: Global, to: u32, of: u32, state: &mut State) -> Result<Ending, NoMemory>
    ensures { IfOk result (λ e. (held_of state.new, end_of e) ≡
        step_held (Name of ∷ []) (to ∷ []) (lifted move_work) (held_of state.old)) }
{
    let reads = [Oper::Name(of)];
    if !is_ready(state, &reads, &[to]) {
        return Ok(Ending::Stuck);
    }
    let values = read_all(alloc, state, &reads)?;
    let worked = work::moved(values.as_slice());
    finish(alloc, state, &[to], worked)
}

/// A new array by its dimensions.
pub fn fresh(
    alloc: Global,
    to: u32,
    dims: &[Oper],
    filling: Fill,
    at: Loc,
    state: &mut State,
) -> Result<Ending, NoMemory>
    ensures { IfOk result (λ e. (held_of state.new, end_of e) ≡
        step_held dims.now (to ∷ []) (lifted (fresh_work filling at)) (held_of state.old)) }
{
    if !is_ready(state, dims, &[to]) {
        return Ok(Ending::Stuck);
    }
    let values = read_all(alloc, state, dims)?;
    let worked = fresh_work::fresh(
        alloc,
        filling,
        at,
        values.as_slice(),
        &mut state.heap.buffers,
    )?;
    finish(alloc, state, &[to], worked)
}

/// An element operation into a new array.
pub fn map(
    alloc: Global,
    to: u32,
    op: MapOp,
    args: &[Oper],
    at: Loc,
    state: &mut State,
) -> Result<Ending, NoMemory>
    requires { is_small_map op ≡ true }
    ensures { IfOk result (λ e. (held_of state.new, end_of e) ≡
        step_held args.now (to ∷ []) (lifted (map_work op at)) (held_of state.old)) }
{
    if !is_ready(state, args, &[to]) {
        return Ok(Ending::Stuck);
    }
    let values = read_all(alloc, state, args)?;
    let worked = map_work::map(alloc, op, at, values.as_slice(), &mut state.heap.buffers)?;
    finish(alloc, state, &[to], worked)
}

/// A reduction of an array to a scalar.
pub fn reduce(
    alloc: Global,
    to: u32,
    op: RedOp,
    of: u32,
    at: Loc,
    state: &mut State,
) -> Result<Ending, NoMemory>
    ensures { IfOk result (λ e. (held_of state.new, end_of e) ≡
        step_held (Name of ∷ []) (to ∷ []) (lifted (reduce_work op at)) (held_of state.old)) }
{
    let reads = [Oper::Name(of)];
    if !is_ready(state, &reads, &[to]) {
        return Ok(Ending::Stuck);
    }
    let values = read_all(alloc, state, &reads)?;
    let worked = map_work::reduce(
        alloc,
        op,
        at,
        values.as_slice(),
        state.heap.buffers.as_slice(),
    )?;
    finish(alloc, state, &[to], worked)
}

/// An array store.
pub fn store(
    alloc: Global,
    of: u32,
    value: Oper,
    at: Loc,
    state: &mut State,
) -> Result<Ending, NoMemory>
    ensures { IfOk result (λ e. (held_of state.new, end_of e) ≡
        step_held (Name of ∷ value ∷ []) [] (lifted (store_work at)) (held_of state.old)) }
{
    let reads = [Oper::Name(of), value];
    if !is_ready(state, &reads, &[]) {
        return Ok(Ending::Stuck);
    }
    let values = read_all(alloc, state, &reads)?;
    let worked = map_work::store(alloc, at, values.as_slice(), &mut state.heap.buffers)?;
    finish(alloc, state, &[], worked)
}

/// The values that an instance returns.
pub fn returned(alloc: Global, values: &[Oper], state: &mut State) -> Result<Ending, NoMemory>
    ensures { IfOk result (λ e. (held_of state.new, end_of e) ≡
        where_held (ready (state_of state.old) values.now [])
        (return_held (map (operand (state_of state.old)) values.now) (held_of state.old)) (held_of state.old)) }
{
    if !is_ready(state, values, &[]) {
        return Ok(Ending::Stuck);
    }
    let values = read_all(alloc, state, values)?;
    hold_all(&mut state.heap.counts, values.as_slice())?;
    Ok(Ending::Returned(values))
}
