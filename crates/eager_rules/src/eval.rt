// The evaluator: statements by cases, blocks, loops and calls.
ghost use Rattle.std.specs.Prelude.{◌≡◌, ℕ, IfOk, Some, true, replicate, slice_get};
ghost use Rattle.std.specs.List.{All, range_with_len};
ghost use Rattle.array_ops.specs.Elements.{Unbound};
ghost use Rattle.eager_rules.specs.Blocks.{for_each};
ghost use Rattle.eager_rules.specs.Holding.{block_held, called_held, calls_held, done_held, entered_held};
ghost use Rattle.eager_rules.specs.Holding.{meaning_held, release_all, set_held, step_held};
ghost use Rattle.eager_rules.specs.Running.{done_by, end_of, held_of, meanings, numbers_of};
ghost use Rattle.eager_rules.specs.Small.{all_small, bodies_small, is_small};
ghost use Rattle.eager_rules.specs.declared.program.Instance.{Instance as AnyInstance};
ghost use Rattle.eager_rules.specs.declared.state.Heap.{Heap as AnyHeap};

use crate::frame::{bind, bind_all, is_ready, read, read_all, settle, word};
use crate::heap::{hold_all, release_all};
use crate::program::{Core, Instance, Oper};
use crate::state::{Ending, Heap, State, Worked};
use crate::statement;
use crate::turns::{Turns, range_of};
use array_ops::Operand;
use krn_base::{Fault, Loc, NoMemory, Seq};
use std::alloc::Global;
use std::mem;

/// The statements of a block, one after another.
#[cycle(run)]
pub fn run_block(
    body: &[Core],
    depth: u32,
    instances: &[Instance],
    alloc: Global,
    state: &mut State,
) -> Result<Ending, NoMemory>
    requires small { all_small body.now ≡ true }
    requires bodies { bodies_small instances.now ≡ true }
    ensures { IfOk result (λ e. (held_of state.new, end_of e) ≡
        block_held (calls_held instances.now depth) body.now (held_of state.old)) }
{
    each_small(body);
    for core in body {
        match run(core, depth, instances, alloc, state)? {
            Ending::GoesOn => {}
            end => return Ok(end),
        }
    }
    Ok(Ending::GoesOn)
}

/// The test of a block holds of each of its statements.
fn each_small(body: &[Core])
    requires { all_small body.now ≡ true }
    ensures { All (λ core. is_small core ≡ true) body.now }
{}

/// One statement.
#[cycle(run)]
fn run(
    core: &Core,
    depth: u32,
    instances: &[Instance],
    alloc: Global,
    state: &mut State,
) -> Result<Ending, NoMemory>
    requires small { is_small core.now ≡ true }
    requires bodies { bodies_small instances.now ≡ true }
    ensures { IfOk result (λ e. (held_of state.new, end_of e) ≡
        meaning_held (calls_held instances.now depth) core.now (held_of state.old)) }
{
    match core {
        Core::Word { to, op, args, at } => statement::word(
            alloc,
            *to,
            *op,
            args.as_slice(),
            *at,
            state,
        ),
        Core::Extent { to, of, axis } => statement::extent(*to, *of, *axis, state, alloc),
        Core::Get { to, of, index, at } => statement::get(
            alloc,
            *to,
            *of,
            index.as_slice(),
            *at,
            state,
        ),
        Core::Put {
            of,
            index,
            value,
            at,
        } => statement::put(alloc, *of, index.as_slice(), *value, *at, state),
        Core::Pick { to, of, subs, at } => statement::pick(
            alloc,
            *to,
            *of,
            subs.as_slice(),
            *at,
            state,
        ),
        Core::Flip { to, of } => statement::flip(alloc, *to, *of, state),
        Core::Alias { to, of } => statement::alias(alloc, *to, *of, state),
        Core::Fresh { to, dims, fill, at } => statement::fresh(
            alloc,
            *to,
            dims.as_slice(),
            *fill,
            *at,
            state,
        ),
        Core::Map { to, op, args, at } => statement::map(
            alloc,
            *to,
            *op,
            args.as_slice(),
            *at,
            state,
        ),
        Core::Reduce { to, op, of, at } => statement::reduce(alloc, *to, *op, *of, *at, state),
        Core::Store { of, value, at } => statement::store(alloc, *of, *value, *at, state),
        Core::Call { to, instance, args } => {
            run_call(
                depth,
                instances,
                alloc,
                to.as_slice(),
                *instance,
                args.as_slice(),
                state,
            )
        }
        Core::If { cond, yes, no } => {
            if !is_ready(state, &[*cond], &[]) {
                return Ok(Ending::Stuck);
            }
            if word(&read(state, cond)) == 0 {
                run_block(no.as_slice(), depth, instances, alloc, state)
            } else {
                run_block(yes.as_slice(), depth, instances, alloc, state)
            }
        }
        Core::For {
            var,
            lo,
            hi,
            step,
            at,
            omp: _,
            body,
        } => {
            if !is_ready(state, &[*lo, *hi, *step], &[*var]) {
                return Ok(Ending::Stuck);
            }
            match range_of(&read(state, lo), &read(state, hi), &read(state, step)) {
                Some(turns) => run_loop(
                    body.as_slice(),
                    depth,
                    instances,
                    alloc,
                    *var,
                    turns,
                    state,
                ),
                None => Ok(Ending::Faulted(Fault::ValueError, *at)),
            }
        }
        Core::Return { values } => statement::returned(alloc, values.as_slice(), state),
    }
}

/// A body once for each number of a range.
#[cycle(run)]
fn run_loop(
    body: &[Core],
    depth: u32,
    instances: &[Instance],
    alloc: Global,
    var: u32,
    turns: Turns,
    state: &mut State,
) -> Result<Ending, NoMemory>
    requires small { all_small body.now ≡ true }
    requires bodies { bodies_small instances.now ≡ true }
    ensures { IfOk result (λ e. (held_of state.new, end_of e) ≡
        for_each (set_held var) (block_held (calls_held instances.now depth) body.now) (numbers_of turns)
        (held_of state.old)) }
{
    let most = turns.most;
    let mut left = turns;
    for _turn in 0..most {
        let Some(i) = left.take() else {
            return Ok(Ending::GoesOn);
        };
        bind(alloc, state, var, Operand::Word(i));
        match run_block(body, depth, instances, alloc, state)? {
            Ending::GoesOn => {}
            end => return Ok(end),
        }
    }
    Ok(Ending::GoesOn)
}

/// A call of an instance as a statement.
#[cycle(run)]
fn run_call(
    depth: u32,
    instances: &[Instance],
    alloc: Global,
    to: &[u32],
    instance: u32,
    args: &[Oper],
    state: &mut State,
) -> Result<Ending, NoMemory>
    requires bodies { bodies_small instances.now ≡ true }
    ensures { IfOk result (λ e. (held_of state.new, end_of e) ≡
        step_held args.now to.now (calls_held instances.now depth instance) (held_of state.old)) }
{
    if !is_ready(state, args, to) {
        return Ok(Ending::Stuck);
    }
    let values = read_all(alloc, state, args)?;
    let worked = call(
        depth,
        instances,
        alloc,
        instance,
        values.as_slice(),
        &mut state.heap,
    )?;
    Ok(settle(alloc, state, to, worked))
}

/// A call of an instance.
#[cycle(run)]
#[tactic(auto, using(crate::proofs::Depths::calls_below))]
fn call(
    depth: u32,
    instances: &[Instance],
    alloc: Global,
    instance: u32,
    args: &[Operand],
    heap: &mut Heap,
) -> Result<Worked, NoMemory>
    requires bodies { bodies_small instances.now ≡ true }
    ensures { IfOk result (λ w. (done_by heap.new.buffers w, heap.new.counts) ≡
        calls_held instances.now depth instance (meanings args.now) heap.old) }
{
    if depth == 0 {
        return Ok(Worked::Blocked);
    }
    match instances.get(instance as usize) {
        Some(f) => {
            body_small(instances, instance as usize);
            enter(depth - 1, instances, alloc, f, args, heap)
        }
        None => Ok(Worked::Blocked),
    }
}

/// The test of all bodies holds of one of them.
pub fn body_small(instances: &[Instance], number: usize)
    requires { bodies_small instances.now ≡ true }
    ensures { (f : AnyInstance) → slice_get instances.now number ≡ Some f → all_small f.body ≡ true }
{}

/// The body of an instance, on names of its own.
#[cycle(run)]
fn enter(
    depth: u32,
    instances: &[Instance],
    alloc: Global,
    f: &Instance,
    args: &[Operand],
    heap: &mut Heap,
) -> Result<Worked, NoMemory>
    requires small { all_small f.now.body ≡ true }
    requires bodies { bodies_small instances.now ≡ true }
    ensures { IfOk result (λ w. (done_by heap.new.buffers w, heap.new.counts) ≡
        called_held (calls_held instances.now depth) (Some f.now) (meanings args.now) heap.old) }
{
    let mut state = begin(alloc, f, args, mem::replace(heap, no_buffers(alloc)))?;
    let end = run_block(f.body.as_slice(), depth, instances, alloc, &mut state)?;
    *heap = left(alloc, state);
    Ok(worked_by(end))
}

/// No buffers. Takes no memory.
fn no_buffers(alloc: Global) -> Heap {
    Heap {
        buffers: Seq::new(alloc),
        counts: Seq::new(alloc),
    }
}

/// The buffers when an instance has ended: its names give back what they stand for.
fn left(alloc: Global, state: State) -> Heap
    ensures { result ≡ release_all (meanings state.names) state.heap }
{
    let State { mut heap, names } = state;
    release_all(alloc, &mut heap, names.as_slice());
    heap
}

/// What a call comes to, by the end of the called body.
fn worked_by(end: Ending) -> Worked
    ensures { (heap : AnyHeap) → (done_by heap.buffers result, heap.counts) ≡ done_held heap (end_of end) }
{
    match end {
        Ending::GoesOn => Worked::Nothing,
        Ending::Returned(values) => Worked::Values(values),
        Ending::Faulted(fault, at) => Worked::Failed(fault, at),
        Ending::Stuck => Worked::Blocked,
    }
}

/// The state in which an instance begins: its parameters are bound to the arguments.
pub fn begin(alloc: Global, f: &Instance, args: &[Operand], heap: Heap) -> Result<State, NoMemory>
    ensures { IfOk result (λ s. held_of s ≡ entered_held f.now (meanings args.now) heap) }
{
    let names = unbound(alloc, f.names.len())?;
    let mut state = State { heap, names };
    hold_all(&mut state.heap.counts, args)?;
    let params = numbers_below(alloc, f.params.len())?;
    bind_all(alloc, &mut state, params.as_slice(), args);
    Ok(state)
}

/// As many names, none of which stands for anything.
fn unbound(alloc: Global, count: usize) -> Result<Seq<Operand>, NoMemory>
    ensures { IfOk result (λ names. meanings names ≡ replicate count Unbound) }
{
    let mut names = Seq::from_vec(Vec::with_capacity(alloc, count)?);
    for _name in 0..count {
        names.push(Operand::Unbound)?;
    }
    Ok(names)
}

/// The numbers below a count.
#[tactic(auto, using(crate::proofs::ListTests::counting_more))]
fn numbers_below(alloc: Global, count: usize) -> Result<Seq<u32>, NoMemory>
    ensures { IfOk result (λ numbers. numbers ≡ range_with_len 0 count) }
{
    if count > u32::MAX as usize {
        return Err(NoMemory);
    }
    let mut numbers = Seq::from_vec(Vec::with_capacity(alloc, count)?);
    for k in 0..count {
        numbers.push(k as u32)?;
    }
    Ok(numbers)
}
