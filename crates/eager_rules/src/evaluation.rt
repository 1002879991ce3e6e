ghost use Rattle.std.specs.Prelude.{◌≡◌, ◌<◌, ℕ, IfOk, List, map, length, None, replicate, slice_get, take, true};
ghost use Rattle.std.specs.List.{zip};
ghost use Rattle.krn_base.specs.declared.kind.Kind.TheVariants.{Int64};
ghost use Rattle.array_ops.specs.Elements.{Unbound};
ghost use Rattle.array_ops.specs.Operands.{meaning_of};
ghost use Rattle.eager_rules.specs.Kept.{FitsInstance, IsKernel, KeepsBuffers};
ghost use Rattle.eager_rules.specs.Outcome.{by_number, ended, instance_outcome, outcome_by, outcome_of, value_of};
ghost use Rattle.eager_rules.specs.Holding.{run_held};
ghost use Rattle.eager_rules.specs.Running.{end_of, held_of, meanings, state_of};
ghost use Rattle.eager_rules.specs.Small.{all_small, bodies_small};
ghost use Rattle.eager_rules.specs.Sound.{IsTyped};
ghost use Rattle.eager_rules.specs.State.{bound_to};
ghost use Rattle.eager_rules.specs.declared.program.Instance.{Instance as AnyInstance};

use crate::call::{Arg, Call};
use crate::eval::{begin, body_small, run_block};
use crate::outcome::{Outcome, Value};
use crate::program::{Instance, Program};
use crate::state::{Ending, Heap, State};
use array_ops::{Operand, elements};
use krn_base::{Kind, NoMemory, Seq};
use std::alloc::Global;
use view_places::Array;

/// What an argument stands for.
fn operand_of(arg: &Arg) -> Operand
    ensures { meaning_of result ≡ bound_to arg.now }
{
    match arg {
        Arg::Word(z) => Operand::Word(*z),
        Arg::Array(view) => Operand::Array(*view),
    }
}

/// What the arguments of a call stand for.
fn operands_of(alloc: Global, args: &[Arg]) -> Result<Seq<Operand>, NoMemory>
    ensures { IfOk result (λ xs. meanings xs ≡ map bound_to args.now) }
{
    let mut operands = Seq::from_vec(Vec::with_capacity(alloc, args.len())?);
    for arg in args {
        operands.push(operand_of(arg))?;
    }
    Ok(operands)
}

/// A copy of the words of a call's buffers.
fn words_of(alloc: Global, arrays: &[Array]) -> Result<Seq<Seq<i64>>, NoMemory>
    ensures { IfOk result (λ buffers. buffers ≡ map (λ a. a.words) arrays.now) }
{
    let mut buffers = Seq::from_vec(Vec::with_capacity(alloc, arrays.len())?);
    for array in arrays {
        buffers.push(array.words.try_copy()?)?;
    }
    Ok(buffers)
}

/// A returned value of this type, its elements read from the buffers.
fn value(
    alloc: Global,
    kind: Kind,
    operand: &Operand,
    buffers: &[Seq<i64>],
) -> Result<Value, NoMemory>
    ensures { (rank : ℕ) → IfOk result (λ v. v ≡ value_of buffers.now ((kind, rank), meaning_of operand.now)) }
{
    match operand {
        Operand::Unbound => Ok(Value::Word(kind, 0)),
        Operand::Word(z) => Ok(Value::Word(kind, *z)),
        Operand::Array(view) => Ok(Value::Array(Array {
            kind,
            shape: view.shape(),
            words: elements(alloc, view, buffers)?,
        })),
    }
}

/// The returned value with a number, which has a type.
fn value_at(
    alloc: Global,
    rets: &[(Kind, u8)],
    operands: &[Operand],
    buffers: &[Seq<i64>],
    i: usize,
) -> Result<Value, NoMemory>
    requires typed { i < length rets.now }
    requires there { i < length operands.now }
    ensures { IfOk result (λ v. v ≡
        by_number (value_of buffers.now) (Int64, 0) Unbound rets.now (meanings operands.now) i) }
{
    let (kind, _rank) = rets[i];
    value(alloc, kind, &operands[i], buffers)
}

/// The values that a kernel returns, as far as there are types.
fn values(
    alloc: Global,
    rets: &[(Kind, u8)],
    operands: &[Operand],
    buffers: &[Seq<i64>],
) -> Result<Seq<Value>, NoMemory>
    ensures { IfOk result (λ vs. vs ≡ map (value_of buffers.now) (zip rets.now (meanings operands.now))) }
{
    let mut found = Seq::new(alloc);
    let count = rets.len().min(operands.len());
    for i in 0..count {
        let item = value_at(alloc, rets, operands, buffers, i)?;
        found.push(item)?;
    }
    Ok(found)
}

/// The first buffers of a list.
fn first_buffers(buffers: Seq<Seq<i64>>, count: usize) -> Seq<Seq<i64>>
    ensures { result ≡ take count buffers }
{
    let mut all = buffers.into_vec();
    all.truncate(count);
    Seq::from_vec(all)
}

/// The outcome by the end of a kernel's body.
fn outcome(
    alloc: Global,
    rets: &[(Kind, u8)],
    count: usize,
    state: State,
    end: Ending,
) -> Result<Outcome, NoMemory>
    ensures { IfOk result (λ o. o ≡ ended rets.now count (state_of state, end_of end)) }
{
    let State { heap, names: _ } = state;
    let Heap { buffers, counts: _ } = heap;
    let (ret, fault) = match end {
        Ending::GoesOn | Ending::Stuck => (Seq::new(alloc), None),
        Ending::Returned(operands) => {
            let ret = values(alloc, rets, operands.as_slice(), buffers.as_slice())?;
            (ret, None)
        }
        Ending::Faulted(fault, at) => (Seq::new(alloc), Some((fault, at))),
    };
    Ok(Outcome {
        ret,
        buffers: first_buffers(buffers, count),
        fault,
    })
}

/// A count of 1 for each buffer.
fn ones(alloc: Global, count: usize) -> Result<Seq<u32>, NoMemory>
    ensures { IfOk result (λ counts. counts ≡ replicate count 1) }
{
    let mut counts = Seq::from_vec(Vec::with_capacity(alloc, count)?);
    for _buffer in 0..count {
        counts.push(1)?;
    }
    Ok(counts)
}

/// Runs an instance on arguments and buffers, each of which is held to the end.
fn run_instance(
    alloc: Global,
    instances: &[Instance],
    f: &Instance,
    args: &[Operand],
    buffers: Seq<Seq<i64>>,
) -> Result<(State, Ending), NoMemory>
    requires small { all_small f.now.body ≡ true }
    requires bodies { bodies_small instances.now ≡ true }
    ensures { IfOk result (λ q. (held_of q.0, end_of q.1) ≡
        run_held instances.now (length instances.now) f.now (meanings args.now) buffers) }
{
    if instances.len() > u32::MAX as usize {
        return Err(NoMemory);
    }
    let counts = ones(alloc, buffers.len().max(1))?;
    let mut state = begin(alloc, f, args, Heap { buffers, counts })?;
    let end = run_block(
        f.body.as_slice(),
        instances.len() as u32,
        instances,
        alloc,
        &mut state,
    )?;
    Ok((state, end))
}

/// Evaluates an instance on a call, one whole-array operation after another.
fn evaluate(
    alloc: Global,
    instances: &[Instance],
    f: &Instance,
    call: &Call,
) -> Result<Outcome, NoMemory>
    requires small { all_small f.now.body ≡ true }
    requires bodies { bodies_small instances.now ≡ true }
    ensures { IfOk result (λ o. o ≡ instance_outcome instances.now (length instances.now) f.now call.now) }
{
    let args = operands_of(alloc, call.args.as_slice())?;
    let buffers = words_of(alloc, call.buffers.as_slice())?;
    let (state, end) = run_instance(alloc, instances, f, args.as_slice(), buffers)?;
    outcome(alloc, f.rets.as_slice(), call.buffers.len(), state, end)
}

/// What a call leaves where there is no such kernel: its buffers as they were.
fn untouched(alloc: Global, call: &Call) -> Result<Outcome, NoMemory>
    ensures { (instances : List AnyInstance) → IfOk result (λ o. o ≡ outcome_by instances call.now None) }
{
    Ok(Outcome {
        ret: Seq::new(alloc),
        buffers: words_of(alloc, call.buffers.as_slice())?,
        fault: None,
    })
}

/// The outcome of a call of the kernel with this number: what evaluating the program's core gives, one whole-array
/// operation after another. The exponents of its powers are at most 62.
///
/// Takes time linear in the statements that run and in the elements that they read and write. It holds the words of one
/// new buffer for each array that is made while a name of a running instance stands for it, or a value on its way to
/// one, and 28 bytes for each array that was made; of a call without buffers it holds the first one to the end.
pub fn eager(
    alloc: Global,
    program: &Program,
    kernel: u32,
    call: &Call,
) -> Result<Outcome, NoMemory>
    requires small { bodies_small program.now.instances ≡ true }
    ensures outcome { IfOk result (λ o. o ≡ outcome_of program.now kernel call.now) }

    // A well-typed program leaves as many buffers as the call has, each with as many words as before, of its kind.
    ensures buffers { (f : AnyInstance) → IsKernel program.now kernel f → IsTyped program.now →
        FitsInstance f call.now → IfOk result (KeepsBuffers call.now) }
{
    let instances = program.instances.as_slice();
    match program.kernels.as_slice().get(kernel as usize) {
        None => untouched(alloc, call),
        Some(number) => evaluate_number(alloc, instances, *number, call),
    }
}

/// The outcome of a call of the instance with this number.
fn evaluate_number(
    alloc: Global,
    instances: &[Instance],
    number: u32,
    call: &Call,
) -> Result<Outcome, NoMemory>
    requires bodies { bodies_small instances.now ≡ true }
    ensures { IfOk result (λ o. o ≡ outcome_by instances.now call.now (slice_get instances.now number)) }
{
    match instances.get(number as usize) {
        None => untouched(alloc, call),
        Some(f) => {
            body_small(instances, number as usize);
            evaluate(alloc, instances, f, call)
        }
    }
}
