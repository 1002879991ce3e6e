// Steps that make a statement, and that have no operand left to walk.
ghost use Rattle.std.specs.Prelude.{◌≡◌, ◌∷◌, [], map, IfOk, slice_get};
ghost use Rattle.std.specs.List.{list_all};
ghost use Rattle.eager_rules.specs.Types as core_types;
ghost use Rattle.array_types.specs.Forms as spec;
ghost use Rattle.array_types.specs.Rows as row_spec;
ghost use Rattle.array_types.specs.Walk.{Walks, need};

use crate::state::{Range, State, Target, Ty, Value};
use crate::walk::{NOWHERE, bind, emit, name_of, need, test, wait};
use crate::{cores, rows};
use eager_rules::{Core, CoreSub, Oper};
use krn_base::{BinOp, Join, Kind, Loc, NoMemory, Seq, Stop};
use module_terms::Operation;
use py_parse::Name;
use std::alloc::Global;
use std::mem;

/// The place of a statement that can't fault.

/// The type of a scalar int.
const INT: Ty = (Kind::Int64, 0);

/// An operand itself, or moved to the target where there is one.
pub fn into(target: Target, v: Value, alloc: Global, state: &mut State) -> Result<Value, Stop>
    ensures { Walks (spec.into target v state.old) result state.new }
{
    match target {
        Target::Own => Ok(v),
        Target::Into(text, first, eq) => {
            let n = bind(Target::Into(text, first, eq), v.ty, state)?;
            emit(cores::move_core(alloc, v.ty.1, n, v.oper, eq)?, state)?;
            Ok(Value {
                oper: Oper::Name(n),
                ty: v.ty,
            })
        }
    }
}

/// The extents of an array, each with a name.
#[tactic(auto, using(crate::proofs::Lists::turn))]
fn extents(alloc: Global, of: u32, rank: u8, state: &mut State) -> Result<Seq<Value>, Stop>
    ensures { Walks (spec.extents_from [] of 0 rank state.old) result state.new }
{
    let mut found = Seq::new(alloc);
    for axis in 0..rank {
        let n = bind(Target::Own, INT, state)?;
        emit(
            Core::Extent {
                to: n,
                of,
                axis: Some(axis),
            },
            state,
        )?;
        found.push(Value {
            oper: Oper::Name(n),
            ty: INT,
        })?;
    }
    Ok(found)
}

/// The operands of an operation's own statement.
fn prepared(
    op: Operation,
    values: Seq<Value>,
    r: Ty,
    alloc: Global,
    state: &mut State,
) -> Result<Seq<Value>, Stop>
    ensures { Walks (spec.prepared op values r state.old) result state.new }
{
    match op {
        Operation::FreshLike(_, _, _) => extents(
            alloc,
            cores::array_of(values.as_slice()),
            r.1,
            state,
        ),
        _ => Ok(values),
    }
}

/// The place of an operation whose operands have no row: that of `shape` where a new array has one.
fn tested_at(op: Operation, at: Loc) -> Loc
    ensures { result ≡ spec.tested_at op at }
{
    match op {
        Operation::FreshLike(_, _, shape) => shape,
        _ => at,
    }
}

/// An operation on operands.
pub fn applied(
    op: Operation,
    at: Loc,
    values: Seq<Value>,
    target: Target,
    alloc: Global,
    state: &mut State,
) -> Result<Value, Stop>
    ensures { Walks (spec.applied op at values target state.old) result state.new }
{
    let r = need(rows::row(op, values.as_slice()), tested_at(op, at), state)?;
    let args = prepared(op, values, r, alloc, state)?;
    let n = bind(target, r, state)?;
    emit(
        cores::operation_core(alloc, op, n, args.as_slice(), r, at)?,
        state,
    )?;
    Ok(Value {
        oper: Oper::Name(n),
        ty: r,
    })
}

/// The type of an array with subscripts, or a refusal at the `[`.
#[tactic(auto, unfolding(crate::specs::Forms::row_at))]
fn row_at(a: Value, subs: &[CoreSub], at: Loc, state: &State) -> Result<Ty, Stop>
    ensures { Walks (spec.row_at a subs.now at state.now) result state.now }
{
    need(rows::pick(state.types.as_slice(), a.ty, subs), at, state)
}

/// Subscripts of an array.
pub fn picked(
    target: Target,
    a: Value,
    subs: &[CoreSub],
    at: Loc,
    alloc: Global,
    state: &mut State,
) -> Result<Value, Stop>
    ensures { Walks (spec.picked target a subs.now at state.old) result state.new }
{
    let r = row_at(a, subs, at, state)?;
    picked_as(r, target, a, subs, at, alloc, state)
}

/// Subscripts of an array that give this type.
fn picked_as(
    r: Ty,
    target: Target,
    a: Value,
    subs: &[CoreSub],
    at: Loc,
    alloc: Global,
    state: &mut State,
) -> Result<Value, Stop>
    ensures { Walks (spec.made target r (λ n. spec.pick_core n a subs.now at) state.old) result state.new }
{
    let n = bind(target, r, state)?;
    emit(
        cores::pick_core(alloc, n, a, subs, rows::is_element(a.ty, subs), at)?,
        state,
    )?;
    Ok(Value {
        oper: Oper::Name(n),
        ty: r,
    })
}

/// The type of a call's value.
fn only_type(rets: &[Ty]) -> Option<Ty>
    ensures { result ≡ spec.only_type rets.now }
{
    match rets {
        [r] => Some(*r),
        _ => None,
    }
}

/// The value of a call whose instance and values' types are known.
pub fn call_value(
    given: (u32, Seq<Ty>),
    target: Target,
    at: Loc,
    values: &[Value],
    alloc: Global,
    state: &mut State,
) -> Result<Value, Stop>
    ensures { Walks (spec.call_value given target at values.now state.old) result state.new }
{
    let (instance, rets) = given;
    let r = need(only_type(rets.as_slice()), at, state)?;
    let n = bind(target, r, state)?;
    let mut to = Seq::new(alloc);
    to.push(n)?;
    emit(
        Core::Call {
            to,
            instance,
            args: cores::opers_of(alloc, values)?,
        },
        state,
    )?;
    Ok(Value {
        oper: Oper::Name(n),
        ty: r,
    })
}

/// A store into an element.
fn put(
    a: Value,
    subs: &[CoreSub],
    bracket: Loc,
    v: Value,
    eq: Loc,
    alloc: Global,
    state: &mut State,
) -> Result<(), Stop>
    ensures { Walks (spec.put_core a subs.now bracket v eq state.old) result state.new }
{
    test(rows::put_fits(a.ty, v.ty), eq, state)?;
    let index = cores::indices(alloc, subs)?;
    emit(
        Core::Put {
            of: cores::number_of(a.oper),
            index,
            value: v.oper,
            at: bracket,
        },
        state,
    )
}

/// A store into an array.
fn store(a: Value, v: Value, eq: Loc, state: &mut State) -> Result<(), Stop>
    ensures { Walks (spec.store_core a v eq state.old) result state.new }
{
    test(rows::store_fits(a.ty, v.ty), eq, state)?;
    emit(
        Core::Store {
            of: cores::number_of(a.oper),
            value: v.oper,
            at: eq,
        },
        state,
    )
}

/// `array[subscripts] = value`, once all of them were walked.
pub fn stored(
    a: Value,
    subs: &[CoreSub],
    bracket: Loc,
    v: Value,
    eq: Loc,
    alloc: Global,
    state: &mut State,
) -> Result<(), Stop>
    ensures { Walks (spec.stored_by (row_spec.is_element a.ty subs.now) a subs.now bracket v eq state.old) result
        state.new }
{
    if rows::is_element(a.ty, subs) {
        row_at(a, subs, bracket, state)?;
        put(a, subs, bracket, v, eq, alloc, state)
    } else {
        let view = picked(Target::Own, a, subs, bracket, alloc, state)?;
        store(view, v, eq, state)
    }
}

/// The store of an augmented assignment to subscripts: `old` is what was read there.
pub fn updated(
    a: Value,
    subs: &[CoreSub],
    bracket: Loc,
    old: Value,
    v: Value,
    at: Loc,
    alloc: Global,
    state: &mut State,
) -> Result<(), Stop>
    ensures { Walks (spec.updated_by (row_spec.is_element a.ty subs.now) a subs.now bracket old v at state.old)
        result state.new }
{
    if rows::is_element(a.ty, subs) {
        put(a, subs, bracket, v, at, alloc, state)
    } else {
        store(old, v, at, state)
    }
}

/// An operator between two operands.
pub fn binary(
    target: Target,
    op: BinOp,
    a: Value,
    b: Value,
    at: Loc,
    alloc: Global,
    state: &mut State,
) -> Result<Value, Stop>
    ensures { Walks (spec.binary target op a b at state.old) result state.new }
{
    let r = need(rows::binary(op, a.ty, b.ty), at, state)?;
    let n = bind(target, r, state)?;
    let args = cores::both(alloc, a.oper, b.oper)?;
    emit(cores::binary_core(r.1, n, op, args, at), state)?;
    Ok(Value {
        oper: Oper::Name(n),
        ty: r,
    })
}

/// `name op= value`: a store into an array, or a new value of a scalar.
pub fn augmented(
    name: &Name,
    op: BinOp,
    at: Loc,
    a: Value,
    v: Value,
    alloc: Global,
    state: &mut State,
) -> Result<(), Stop>
    ensures { Walks (spec.augmented_by (core_types.is_array a.ty) name.now op at a v state.old) result state.new }
{
    if rows::is_array(a.ty) {
        let u = binary(Target::Own, op, a, v, at, alloc, state)?;
        store(a, u, at, state)
    } else {
        let target = Target::Into(name.text.try_copy()?, name.loc, at);
        binary(target, op, a, v, at, alloc, state)?;
        Ok(())
    }
}

/// The values of a `return`, whose types are those of the first one.
#[tactic(auto, unfolding(crate::specs::Forms::returned))]
pub fn returned(values: &[Value], at: Loc, alloc: Global, state: &mut State) -> Result<(), Stop>
    ensures { Walks (spec.returned values.now at state.old) result state.new }
{
    let types = cores::types_of(alloc, values)?;
    match &state.rets {
        Some(first) => test(
            rows::same_types(types.as_slice(), first.as_slice()),
            at,
            state,
        )?,
        None => state.rets = Some(types),
    }
    emit(
        Core::Return {
            values: cores::opers_of(alloc, values)?,
        },
        state,
    )
}

/// The arguments of a range.
pub fn range_of(values: &[Value]) -> Option<Range>
    ensures { result ≡ spec.range_of values.now }
{
    if rows::all_numbers(values) {
        cores::range_by(values)
    } else {
        None
    }
}

/// A reduction's name, which has to be a scalar int.
fn int_name(n: u32, at: Loc, state: &State) -> Result<(), Stop>
    ensures { Walks (spec.int_name (slice_get state.now.types n) at state.now) result state.now }
{
    match state.types.as_slice().get(n as usize) {
        None => test(false, at, state),
        Some(ty) => test(rows::same_type(*ty, INT), at, state),
    }
}

/// One reduction's name before its loop: tested where it has a type. It waits for its number.
fn expected_one(name: &Name, at: Loc, state: &mut State) -> Result<u32, Stop>
    ensures { Walks (spec.expected_one name.now at state.old) result state.new }
{
    if let Some(n) = name_of(name, state) {
        int_name(n, at, state)?;
    }
    wait(name, at, state)
}

fn expected(
    pairs: &[(Join, Name)],
    at: Loc,
    alloc: Global,
    state: &mut State,
) -> Result<Seq<(Join, u32)>, Stop>
    ensures { Walks (spec.expected at [] pairs.now state.old) result state.new }
{
    let mut found = Seq::new(alloc);
    for pair in pairs {
        let i = expected_one(&pair.1, at, state)?;
        found.push((pair.0, i))?;
    }
    Ok(found)
}

/// The reductions of a loop's directive before the loop, each by the place of its name among those that wait.
pub fn before_loop(
    omp: &Option<Seq<(Join, Name)>>,
    at: Loc,
    alloc: Global,
    state: &mut State,
) -> Result<Option<Seq<(Join, u32)>>, Stop>
    ensures { Walks (spec.before_loop omp.now at state.old) result state.new }
{
    match omp {
        None => Ok(None),
        Some(pairs) => Ok(Some(expected(pairs.as_slice(), at, alloc, state)?)),
    }
}

/// Puts the statements so far aside.
pub fn put_aside(alloc: Global, state: &mut State) -> Seq<Core>
    ensures outer { result ≡ state.old.out }
    ensures state { state.new ≡ record state.old { out = [] } }
{
    mem::replace(&mut state.out, Seq::new(alloc))
}

/// The statements of a block; those that were put aside stand again.
pub fn taken(outer: Seq<Core>, state: &mut State) -> Seq<Core>
    ensures inner { result ≡ state.old.out }
    ensures state { state.new ≡ record state.old { out = outer } }
{
    mem::replace(&mut state.out, outer)
}

/// The name that an `and` or an `or` gives, with the left operand.
pub fn left_operand(a: Value, at: Loc, alloc: Global, state: &mut State) -> Result<u32, Stop>
    ensures { Walks (spec.left_operand a at state.old) result state.new }
{
    let r = need(rows::truth(a.ty), at, state)?;
    let n = bind(Target::Own, r, state)?;
    emit(cores::move_core(alloc, 0, n, a.oper, NOWHERE)?, state)?;
    Ok(n)
}

/// The right operand of an `and` or an `or`, moved to the name of the left one.
pub fn right_operand(
    v: Value,
    at: Loc,
    n: u32,
    alloc: Global,
    state: &mut State,
) -> Result<(), Stop>
    ensures { Walks (spec.right_operand v at n state.old) result state.new }
{
    need(rows::truth(v.ty), at, state)?;
    emit(cores::move_core(alloc, 0, n, v.oper, NOWHERE)?, state)
}
