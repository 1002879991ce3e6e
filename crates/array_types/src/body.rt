// Expressions, statements, blocks and the bodies of called functions.
ghost use Rattle.std.specs.Prelude.{◌≡◌, suc};
ghost use Rattle.array_types.specs.Forms as spec;
ghost use Rattle.array_types.specs.Modules as module_spec;
ghost use Rattle.array_types.specs.Modules.{calls_at};
ghost use Rattle.array_types.specs.Walk.{Walks};

use crate::known::Known;
use crate::state::{Key, State, Target, Ty, Value};
use crate::walk::{bind, emit, need, number_for, read, test};
use crate::{cores, instances, rows, steps};
use eager_rules::{Core, CoreSub, Oper};
use krn_base::{Kind, Loc, ParamType, Refusal, Rule, Seq, Stop};
use module_terms::{Line, Loop, Part, Routine, Step, Term};
use py_parse::Name;
use std::alloc::Global;

/// An expression, for a target. `names` has the numbers of the functions, and calls may go `depth` functions deep.
#[cycle(body)]
fn term(
    x: &Term,
    target: Target,
    depth: u32,
    routines: &[Routine],
    names: &Known,
    alloc: Global,
    state: &mut State,
) -> Result<Value, Stop>
    ensures { Walks (spec.term (calls_at routines.now names.now depth) x.now target state.old) result state.new }
{
    match x {
        Term::Name(name) => {
            let v = read(name, state)?;
            steps::into(target, v, alloc, state)
        }
        Term::Int(z) => steps::into(
            target,
            Value {
                oper: Oper::Int(*z),
                ty: (Kind::Int64, 0),
            },
            alloc,
            state,
        ),
        Term::Truth(b) => steps::into(
            target,
            Value {
                oper: Oper::Truth(*b),
                ty: (Kind::Bool, 0),
            },
            alloc,
            state,
        ),
        Term::Apply(op, at, args) => {
            let values = terms(
                Seq::new(alloc),
                args.as_slice(),
                depth,
                routines,
                names,
                alloc,
                state,
            )?;
            steps::applied(*op, *at, values, target, alloc, state)
        }
        Term::Logic(both, first, rest) => {
            let a = term(
                first.get(),
                Target::Own,
                depth,
                routines,
                names,
                alloc,
                state,
            )?;
            let v = links(
                rest.as_slice(),
                *both,
                a,
                depth,
                routines,
                names,
                alloc,
                state,
            )?;
            steps::into(target, v, alloc, state)
        }
        Term::Steps(first, before, last) => {
            let a = term(
                first.get(),
                Target::Own,
                depth,
                routines,
                names,
                alloc,
                state,
            )?;
            let v = followed(before.as_slice(), a, depth, routines, names, alloc, state)?;
            follow(last, v, target, depth, routines, names, alloc, state)
        }
        Term::Call(name, args) => {
            let values = terms(
                Seq::new(alloc),
                args.as_slice(),
                depth,
                routines,
                names,
                alloc,
                state,
            )?;
            let types = cores::types_of(alloc, values.as_slice())?;
            let given = call(depth, name, types, routines, names, alloc, state)?;
            steps::call_value(given, target, name.loc, values.as_slice(), alloc, state)
        }
    }
}

/// Steps from the left, each value with a name of its own.
#[cycle(body)]
fn followed(
    steps: &[Step],
    first: Value,
    depth: u32,
    routines: &[Routine],
    names: &Known,
    alloc: Global,
    state: &mut State,
) -> Result<Value, Stop>
    ensures { Walks (spec.steps (calls_at routines.now names.now depth) steps.now first state.old) result state.new }
{
    let mut a = first;
    for step in steps {
        a = follow(step, a, Target::Own, depth, routines, names, alloc, state)?;
    }
    Ok(a)
}

/// One step, for a target.
#[cycle(body)]
fn follow(
    step: &Step,
    a: Value,
    target: Target,
    depth: u32,
    routines: &[Routine],
    names: &Known,
    alloc: Global,
    state: &mut State,
) -> Result<Value, Stop>
    ensures { Walks (spec.step (calls_at routines.now names.now depth) step.now a target state.old) result state.new }
{
    match step {
        Step::Operate(op, at, args) => {
            let mut first = Seq::new(alloc);
            first.push(a)?;
            let values = terms(first, args.as_slice(), depth, routines, names, alloc, state)?;
            steps::applied(*op, *at, values, target, alloc, state)
        }
        Step::Pick(at, parts) => {
            let subs = subscripts(parts.as_slice(), depth, routines, names, alloc, state)?;
            steps::picked(target, a, subs.as_slice(), *at, alloc, state)
        }
    }
}

/// Operands from left to right, behind those before them.
#[cycle(body)]
fn terms(
    before: Seq<Value>,
    args: &[Term],
    depth: u32,
    routines: &[Routine],
    names: &Known,
    alloc: Global,
    state: &mut State,
) -> Result<Seq<Value>, Stop>
    ensures { Walks (spec.values_behind (calls_at routines.now names.now depth) before args.now state.old) result
        state.new }
{
    let mut found = before;
    for x in args {
        let v = term(x, Target::Own, depth, routines, names, alloc, state)?;
        found.push(v)?;
    }
    Ok(found)
}

/// The operators of an `and` or an `or`, from the left.
#[cycle(body)]
fn links(
    rest: &[(Loc, Term)],
    both: bool,
    first: Value,
    depth: u32,
    routines: &[Routine],
    names: &Known,
    alloc: Global,
    state: &mut State,
) -> Result<Value, Stop>
    ensures { Walks (spec.links (calls_at routines.now names.now depth) both rest.now first state.old) result
        state.new }
{
    let mut a = first;
    for link in rest {
        a = joined(
            &link.1, both, link.0, a, depth, routines, names, alloc, state,
        )?;
    }
    Ok(a)
}

/// One `and` or `or`.
#[cycle(body)]
fn joined(
    y: &Term,
    both: bool,
    at: Loc,
    a: Value,
    depth: u32,
    routines: &[Routine],
    names: &Known,
    alloc: Global,
    state: &mut State,
) -> Result<Value, Stop>
    ensures { Walks (spec.joined both at (spec.term (calls_at routines.now names.now depth) y.now) a state.old)
        result state.new }
{
    let n = steps::left_operand(a, at, alloc, state)?;
    let outer = steps::put_aside(alloc, state);
    let v = term(y, Target::Own, depth, routines, names, alloc, state)?;
    steps::right_operand(v, at, n, alloc, state)?;
    let part = steps::taken(outer, state);
    emit(cores::branch(alloc, both, n, part), state)?;
    Ok(Value {
        oper: Oper::Name(n),
        ty: (Kind::Bool, 0),
    })
}

/// Subscripts from left to right.
#[cycle(body)]
fn subscripts(
    parts: &[Part],
    depth: u32,
    routines: &[Routine],
    names: &Known,
    alloc: Global,
    state: &mut State,
) -> Result<Seq<CoreSub>, Stop>
    ensures { Walks (spec.subscripts (calls_at routines.now names.now depth) parts.now state.old) result state.new }
{
    let mut found = Seq::new(alloc);
    for x in parts {
        let sub = subscript(x, depth, routines, names, alloc, state)?;
        found.push(sub)?;
    }
    Ok(found)
}

#[cycle(body)]
fn subscript(
    x: &Part,
    depth: u32,
    routines: &[Routine],
    names: &Known,
    alloc: Global,
    state: &mut State,
) -> Result<CoreSub, Stop>
    ensures { Walks (spec.part (calls_at routines.now names.now depth) x.now state.old) result state.new }
{
    match x {
        Part::At(index) => {
            let v = term(index, Target::Own, depth, routines, names, alloc, state)?;
            Ok(CoreSub::At(v.oper))
        }
        Part::Cut(start, stop, step) => {
            let start = bound(start, depth, routines, names, alloc, state)?;
            let stop = bound(stop, depth, routines, names, alloc, state)?;
            let step = bound(step, depth, routines, names, alloc, state)?;
            Ok(CoreSub::Cut(start, stop, step))
        }
    }
}

/// The start, stop or step of a slice, if it is there.
#[cycle(body)]
fn bound(
    x: &Option<Term>,
    depth: u32,
    routines: &[Routine],
    names: &Known,
    alloc: Global,
    state: &mut State,
) -> Result<Option<Oper>, Stop>
    ensures { Walks (spec.bound (calls_at routines.now names.now depth) x.now state.old) result state.new }
{
    match x {
        None => Ok(None),
        Some(x) => {
            let v = term(x, Target::Own, depth, routines, names, alloc, state)?;
            Ok(Some(v.oper))
        }
    }
}

/// One statement.
#[cycle(body)]
#[tactic(auto, unfolding(crate::specs::Forms::line))]
fn line(
    x: &Line,
    depth: u32,
    routines: &[Routine],
    names: &Known,
    alloc: Global,
    state: &mut State,
) -> Result<(), Stop>
    ensures { Walks (spec.line (calls_at routines.now names.now depth) x.now state.old) result state.new }
{
    match x {
        Line::Return(at, args) => {
            let values = terms(
                Seq::new(alloc),
                args.as_slice(),
                depth,
                routines,
                names,
                alloc,
                state,
            )?;
            steps::returned(values.as_slice(), *at, alloc, state)
        }
        Line::Alone(name, args) => {
            let values = terms(
                Seq::new(alloc),
                args.as_slice(),
                depth,
                routines,
                names,
                alloc,
                state,
            )?;
            let types = cores::types_of(alloc, values.as_slice())?;
            let given = call(depth, name, types, routines, names, alloc, state)?;
            let args = cores::opers_of(alloc, values.as_slice())?;
            emit(
                Core::Call {
                    to: Seq::new(alloc),
                    instance: given.0,
                    args,
                },
                state,
            )
        }
        Line::Assign(name, eq, value) => {
            let target = Target::Into(name.text.try_copy()?, name.loc, *eq);
            term(value, target, depth, routines, names, alloc, state)?;
            Ok(())
        }
        Line::Store(array, bracket, parts, eq, value) => {
            let v = term(value, Target::Own, depth, routines, names, alloc, state)?;
            let a = term(array, Target::Own, depth, routines, names, alloc, state)?;
            let subs = subscripts(parts.as_slice(), depth, routines, names, alloc, state)?;
            steps::stored(a, subs.as_slice(), *bracket, v, *eq, alloc, state)
        }
        Line::AugmentName(name, op, at, value) => {
            let a = read(name, state)?;
            let v = term(value, Target::Own, depth, routines, names, alloc, state)?;
            steps::augmented(name, *op, *at, a, v, alloc, state)
        }
        Line::AugmentPick(array, bracket, parts, op, at, value) => {
            let a = term(array, Target::Own, depth, routines, names, alloc, state)?;
            let subs = subscripts(parts.as_slice(), depth, routines, names, alloc, state)?;
            let old = steps::picked(Target::Own, a, subs.as_slice(), *bracket, alloc, state)?;
            let v = term(value, Target::Own, depth, routines, names, alloc, state)?;
            let u = steps::binary(Target::Own, *op, old, v, *at, alloc, state)?;
            steps::updated(a, subs.as_slice(), *bracket, old, u, *at, alloc, state)
        }
        Line::If(at, cond, part, other) => {
            let c = term(cond, Target::Own, depth, routines, names, alloc, state)?;
            need(rows::truth(c.ty), *at, state)?;
            let yes = inner(part.as_slice(), depth, routines, names, alloc, state)?;
            let no = inner(other.as_slice(), depth, routines, names, alloc, state)?;
            emit(
                Core::If {
                    cond: c.oper,
                    yes,
                    no,
                },
                state,
            )
        }
        Line::For(head, body) => over_range(
            body.as_slice(),
            head,
            depth,
            routines,
            names,
            alloc,
            state,
        ),
    }
}

/// A loop over a range.
#[cycle(body)]
fn over_range(
    body: &[Line],
    head: &Loop,
    depth: u32,
    routines: &[Routine],
    names: &Known,
    alloc: Global,
    state: &mut State,
) -> Result<(), Stop>
    ensures { Walks (spec.loop (calls_at routines.now names.now depth) head.now
        (spec.block (calls_at routines.now names.now depth) body.now) state.old) result state.new }
{
    let values = terms(
        Seq::new(alloc),
        head.args.as_slice(),
        depth,
        routines,
        names,
        alloc,
        state,
    )?;
    let range = need(steps::range_of(values.as_slice()), head.at, state)?;
    let omp = steps::before_loop(&head.omp, head.at, alloc, state)?;
    let target = Target::Into(head.var.text.try_copy()?, head.var.loc, head.at);
    let var = bind(target, (Kind::Int64, 0), state)?;
    let body = inner(body, depth, routines, names, alloc, state)?;
    emit(
        Core::For {
            var,
            lo: range.lo,
            hi: range.hi,
            step: range.step,
            at: head.at,
            omp,
            body,
        },
        state,
    )
}

/// The statements of a block.
#[cycle(body)]
fn inner(
    body: &[Line],
    depth: u32,
    routines: &[Routine],
    names: &Known,
    alloc: Global,
    state: &mut State,
) -> Result<Seq<Core>, Stop>
    ensures { Walks (spec.block_of (spec.block (calls_at routines.now names.now depth) body.now) state.old) result
        state.new }
{
    let outer = steps::put_aside(alloc, state);
    block(body, depth, routines, names, alloc, state)?;
    Ok(steps::taken(outer, state))
}

/// Statements, one after another.
#[cycle(body)]
fn block(
    body: &[Line],
    depth: u32,
    routines: &[Routine],
    names: &Known,
    alloc: Global,
    state: &mut State,
) -> Result<(), Stop>
    ensures { Walks (spec.block (calls_at routines.now names.now depth) body.now state.old) result state.new }
{
    for x in body {
        line(x, depth, routines, names, alloc, state)?;
    }
    Ok(())
}

/// What a call of a function with arguments of these types gives: the number of its instance, and the types of its
/// values. The body is walked at the first call with these types.
#[cycle(body)]
fn call(
    depth: u32,
    name: &Name,
    types: Seq<Ty>,
    routines: &[Routine],
    names: &Known,
    alloc: Global,
    state: &mut State,
) -> Result<(u32, Seq<Ty>), Stop>
    ensures { Walks (calls_at routines.now names.now depth name.now types state.old) result state.new }
{
    let at = name.loc;
    match number_for(name.text.as_slice(), names) {
        None => Err(Stop::Refused(Refusal {
            rule: Rule::Name,
            loc: at,
        })),
        Some(function) => match routines.get(function as usize) {
            None => Err(Stop::Refused(Refusal {
                rule: Rule::Name,
                loc: at,
            })),
            Some(routine) => {
                test(types.len() == routine.params.len(), at, state)?;
                match state.keys.get(alloc, function, types.as_slice())? {
                    Some(n) => instances::given(n, at, state),
                    None => {
                        if depth == 0 {
                            return Err(Stop::Refused(Refusal {
                                rule: Rule::Recursion,
                                loc: at,
                            }));
                        }
                        new(
                            depth - 1,
                            function,
                            routine,
                            types,
                            at,
                            routines,
                            names,
                            alloc,
                            state,
                        )
                    }
                }
            }
        },
    }
}

/// The first call of a function with arguments of these types; calls in its body may go `depth` functions deep.
#[cycle(body)]
fn new(
    depth: u32,
    function: u32,
    routine: &Routine,
    types: Seq<Ty>,
    at: Loc,
    routines: &[Routine],
    names: &Known,
    alloc: Global,
    state: &mut State,
) -> Result<(u32, Seq<Ty>), Stop>
    ensures { Walks (module_spec.new_at routines.now names.now
        (suc depth) function routine.now types at state.old) result state.new }
{
    let params = instances::strided(alloc, types.as_slice())?;
    enter(
        routine,
        Key::Called(function, types),
        params,
        depth,
        routines,
        names,
        alloc,
        state,
    )
}

/// A body for an instance of its own.
#[cycle(body)]
pub fn enter(
    routine: &Routine,
    key: Key,
    params: Seq<ParamType>,
    depth: u32,
    routines: &[Routine],
    names: &Known,
    alloc: Global,
    state: &mut State,
) -> Result<(u32, Seq<Ty>), Stop>
    ensures { Walks (module_spec.entered key routine.now params
        (spec.block (calls_at routines.now names.now depth) routine.now.body) state.old) result state.new }
{
    let n = state.instances.len();
    let mut within = instances::begin(alloc, key, routine, params.as_slice(), state)?;
    let walked = block(
        routine.body.as_slice(),
        depth,
        routines,
        names,
        alloc,
        &mut within,
    );
    match walked {
        Ok(()) => instances::finish(n, routine, params, within, alloc, state),
        Err(stop) => Err(stop),
    }
}
