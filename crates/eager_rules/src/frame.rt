// Reading operands, and binding names.
ghost use Rattle.std.specs.Prelude.{◌≡◌, ℤ, List, IfOk, OnOk, length, map, nat_lt, slice_index_or, slice_set};
ghost use Rattle.std.specs.List.{list_all};
ghost use Rattle.array_ops.specs.Elements.{Bound};
ghost use Rattle.array_ops.specs.Operands.{meaning_of};
ghost use Rattle.eager_rules.specs.Blocks.{Faulted};
ghost use Rattle.eager_rules.specs.Eager.{ready};
ghost use Rattle.eager_rules.specs.Holding.{bind_all_held, bind_held, finish_held, held_done};
ghost use Rattle.eager_rules.specs.Running.{done_by, end_of, held_of, meanings, state_of};
ghost use Rattle.eager_rules.specs.State.{is_bound, operand};
ghost use Rattle.array_ops.specs.Arrays.{array_of};
ghost use Rattle.eager_rules.specs.Works.{array_in, no_array, word_of};

use crate::heap::{hold, hold_all, release};
use crate::program::Oper;
use crate::state::{Ending, State, Worked};
use array_ops::Operand;
use krn_base::{NoMemory, Seq};
use std::alloc::Global;
use view_places::{Shape, View};

/// What an operand stands for.
pub fn read(state: &State, oper: &Oper) -> Operand
    ensures { meaning_of result ≡ operand (state_of state.now) oper.now }
{
    match oper {
        Oper::Int(z) => Operand::Word(*z),
        Oper::Truth(true) => Operand::Word(1),
        Oper::Truth(false) => Operand::Word(0),
        Oper::Name(name) => name_in(state.names.as_slice(), *name),
    }
}

/// What a name stands for; nothing where there is no such name.
fn name_in(names: &[Operand], name: u32) -> Operand
    ensures { meaning_of result ≡ slice_index_or (meanings names.now) name Bound.Unbound }
{
    match names.get(name as usize) {
        Some(value) => *value,
        None => Operand::Unbound,
    }
}

/// What operands stand for.
pub fn read_all(alloc: Global, state: &State, opers: &[Oper]) -> Result<Seq<Operand>, NoMemory>
    ensures { IfOk result (λ values. meanings values ≡ map (operand (state_of state.now)) opers.now) }
{
    let mut values = Seq::from_vec(Vec::with_capacity(alloc, opers.len())?);
    for oper in opers {
        values.push(read(state, oper))?;
    }
    Ok(values)
}

/// Whether a value stands for something.
fn is_bound(value: &Operand) -> bool
    ensures { result ≡ is_bound (meaning_of value.now) }
{
    !matches!(value, Operand::Unbound)
}

/// Whether an operand stands for something.
fn is_operand_bound(state: &State, oper: &Oper) -> bool
    ensures { result ≡ is_bound (operand (state_of state.now) oper.now) }
{
    is_bound(&read(state, oper))
}

/// Whether what is read is bound, and what is to be bound is a name of the instance.
pub fn is_ready(state: &State, reads: &[Oper], to: &[u32]) -> bool
    ensures { result ≡ ready (state_of state.now) reads.now to.now }
{
    are_bound(state, reads) && are_names(state, to)
}

/// Whether all operands stand for something.
fn are_bound(state: &State, reads: &[Oper]) -> bool
    ensures { result ≡ list_all (λ x. is_bound (operand (state_of state.now) x)) reads.now }
{
    reads.iter().all(|oper| is_operand_bound(state, oper))
}

/// Whether the instance has names of these numbers.
fn are_names(state: &State, to: &[u32]) -> bool
    ensures { result ≡ list_all (λ name. nat_lt name (length (state_of state.now).names)) to.now }
{
    to.iter().all(|name| is_name(state, *name))
}

/// Whether the instance has a name of this number.
fn is_name(state: &State, name: u32) -> bool
    ensures { result ≡ nat_lt name (length (state_of state.now).names) }
{
    (name as usize) < state.names.len()
}

/// A value as a word; 0 where it is none.
pub fn word(value: &Operand) -> i64
    ensures { result ≡ word_of (meaning_of value.now) }
{
    match value {
        Operand::Word(z) => *z,
        Operand::Unbound | Operand::Array(_) => 0,
    }
}

/// A value as an array; one without elements where it is none.
pub fn array(value: &Operand) -> View
    ensures { array_of result ≡ array_in (meaning_of value.now) }
{
    match value {
        Operand::Array(view) => *view,
        Operand::Unbound | Operand::Word(_) => no_array(),
    }
}

/// An array without elements.
fn no_array() -> View
    ensures { array_of result ≡ no_array }
{
    let shape = Shape {
        rank: 1,
        extent: [0, 1, 1, 1],
    };
    View::whole(0, &shape)
}

/// Values as words.
pub fn words(alloc: Global, values: &[Operand]) -> Result<Seq<i64>, NoMemory>
    ensures { IfOk result (λ zs. zs ≡ map word_of (meanings values.now)) }
{
    let mut zs = Seq::from_vec(Vec::with_capacity(alloc, values.len())?);
    for value in values {
        zs.push(word(value))?;
    }
    Ok(zs)
}

/// What a name stood for that now stands for a value; the value itself where there is no such name.
fn replaced(names: &mut Seq<Operand>, name: u32, value: Operand) -> Operand
    ensures names { meanings names.new ≡ slice_set (meanings names.old) name (meaning_of value) }
    ensures old { meaning_of result ≡ slice_index_or (meanings names.old) name (meaning_of value) }
{
    let number = name as usize;
    if number >= names.len() {
        return value;
    }
    let old = names.as_slice()[number];
    names.set(number, value);
    old
}

/// Binds a name to a value that is held, and gives back what it stood for; a number that is no name's gives the value
/// back.
pub fn bind(alloc: Global, state: &mut State, name: u32, value: Operand)
    ensures { held_of state.new ≡ bind_held name (meaning_of value) (held_of state.old) }
{
    let old = replaced(&mut state.names, name, value);
    release(alloc, &mut state.heap, &old);
}

/// Binds names to values that are held, one after another, as far as there are both, and gives back the values that are
/// left.
pub fn bind_all(alloc: Global, state: &mut State, to: &[u32], values: &[Operand])
    ensures { held_of state.new ≡ bind_all_held to.now (meanings values.now) (held_of state.old) }
{
    for i in 0..values.len() {
        if i < to.len() {
            bind(alloc, state, to[i], values[i]);
        } else {
            release(alloc, &mut state.heap, &values[i]);
        }
    }
}

/// The end of a statement, by what its work came to in the buffers that now stand.
pub fn finish(
    alloc: Global,
    state: &mut State,
    to: &[u32],
    worked: Worked,
) -> Result<Ending, NoMemory>
    ensures { IfOk result (λ e. (held_of state.new, end_of e) ≡ finish_held to.now
        (held_done (done_by state.old.heap.buffers worked) state.old.heap.counts) (held_of state.old)) }
{
    hold_worked(&mut state.heap.counts, &worked)?;
    Ok(settle(alloc, state, to, worked))
}

/// The values that work gave are held.
fn hold_worked(counts: &mut Seq<u32>, worked: &Worked) -> Result<(), NoMemory>
    ensures { (buffers : List (List ℤ)) → OnOk result
        ((done_by buffers worked.now, counts.new) ≡ held_done (done_by buffers worked.now) counts.old) }
{
    match worked {
        Worked::Value(value) => hold(counts, value),
        Worked::Values(values) => hold_all(counts, values.as_slice()),
        Worked::Nothing | Worked::Failed(_, _) | Worked::Blocked => Ok(()),
    }
}

/// The end of a statement, by what its work came to, where the values that it gave are held.
pub fn settle(alloc: Global, state: &mut State, to: &[u32], worked: Worked) -> Ending
    ensures { (held_of state.new, end_of result) ≡ finish_held to.now
        (done_by state.old.heap.buffers worked, state.old.heap.counts) (held_of state.old) }
{
    match worked {
        Worked::Value(value) => {
            bind_all(alloc, state, to, &[value]);
            Ending::GoesOn
        }
        Worked::Nothing => Ending::GoesOn,
        Worked::Values(values) => {
            bind_all(alloc, state, to, values.as_slice());
            Ending::GoesOn
        }
        Worked::Failed(fault, at) => Ending::Faulted(fault, at),
        Worked::Blocked => Ending::Stuck,
    }
}
