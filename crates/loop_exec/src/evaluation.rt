//! Runs of whole kernels.
ghost use Rattle.std.specs.Prelude.{◌≡◌, ◌<◌, ℕ, IfOk, length, map, slice_get, Some, take, true};
ghost use Rattle.std.specs.List.{list_all, zip};
ghost use Rattle.array_ops.specs.Elements.{Unbound};
ghost use Rattle.array_ops.specs.Operands.{meaning_of};
ghost use Rattle.eager_rules.specs.Fits.{Fits};
ghost use Rattle.eager_rules.specs.Outcome.{by_number, value_of};
ghost use Rattle.eager_rules.specs.Running.{meanings};
ghost use Rattle.krn_base.specs.declared.kind.Kind.TheVariants.{Int64};
ghost use Rattle.loop_exec.specs.Running.{end_of, reached};
ghost use Rattle.loop_exec.specs.Starts.{all_runnable, kernels_runnable, of_run};
ghost use Rattle.loop_prog.specs.Serial.{ended, kernel_outcome, serial, types_of_params};
ghost use Rattle.loop_prog.specs.declared.program.Kernel.{Kernel as AnyKernel};

use crate::bank::Bank;
use crate::bank_calls::words_of;
use crate::laws::checked_is_runnable;
use crate::ran::Ran;
use crate::run::run_block;
use crate::running::{Ending, Running};
use array_ops::{Operand, elements};
use eager_rules::{Call, Counts, Outcome, Value};
use krn_base::{Kind, NoMemory, Seq};
use loop_prog::Kernel;
use omp_loops::ValidProgram;
use std::alloc::Global;
use view_places::Array;

const NO_COUNTS: Counts = Counts {
    nests: 0,
    temps: 0,
    parallel: 0,
    serial: 0,
};

/// A returned value of this type, its elements read from the buffers.
fn value(
    alloc: Global,
    kind: Kind,
    operand: &Operand,
    buffers: &[Seq<i64>],
) -> Result<Value, NoMemory>
    ensures { (rank : ℕ) → IfOk result (λ v. v ≡ value_of buffers.now ((kind, rank), meaning_of operand.now)) }
{
    match operand {
        Operand::Unbound => Ok(Value::Word(kind, 0)),
        Operand::Word(z) => Ok(Value::Word(kind, *z)),
        Operand::Array(view) => Ok(Value::Array(Array {
            kind,
            shape: view.shape(),
            words: elements(alloc, view, buffers)?,
        })),
    }
}

/// The returned value with a number, which has a type.
fn value_at(
    alloc: Global,
    rets: &[(Kind, u8)],
    operands: &[Operand],
    buffers: &[Seq<i64>],
    i: usize,
) -> Result<Value, NoMemory>
    requires typed { i < length rets.now }
    requires there { i < length operands.now }
    ensures { IfOk result (λ v. v ≡
        by_number (value_of buffers.now) (Int64, 0) Unbound rets.now (meanings operands.now) i) }
{
    let (kind, _rank) = rets[i];
    value(alloc, kind, &operands[i], buffers)
}

/// The values that a kernel returns, as far as there are types.
fn values(
    alloc: Global,
    rets: &[(Kind, u8)],
    operands: &[Operand],
    buffers: &[Seq<i64>],
) -> Result<Seq<Value>, NoMemory>
    ensures { IfOk result (λ vs. vs ≡ map (value_of buffers.now) (zip rets.now (meanings operands.now))) }
{
    let mut found = Seq::new(alloc);
    let count = rets.len().min(operands.len());
    for i in 0..count {
        let item = value_at(alloc, rets, operands, buffers, i)?;
        found.push(item)?;
    }
    Ok(found)
}

/// What a run gives, by the end of the kernel's body.
fn ran(
    alloc: Global,
    rets: &[(Kind, u8)],
    count: usize,
    run: Running,
    end: Ending,
) -> Result<Ran, NoMemory>
    ensures { IfOk result (λ r. of_run r ≡ ended rets.now count (reached run, end_of end)) }
{
    let Running { bank, counts, .. } = run;
    let Bank {
        words: _,
        views: _,
        buffers,
        given: _,
    } = bank;
    let (ret, fault) = match end {
        Ending::GoesOn | Ending::Stuck => (Seq::new(alloc), None),
        Ending::Returned(operands) => {
            let ret = values(alloc, rets, operands.as_slice(), buffers.as_slice())?;
            (ret, None)
        }
        Ending::Faulted(fault, at) => (Seq::new(alloc), Some((fault, at))),
    };
    let outcome = Outcome {
        ret,
        buffers: first_buffers(buffers, count),
        fault,
    };
    Ok(Ran { outcome, counts })
}

/// The first buffers of a list.
fn first_buffers(buffers: Seq<Seq<i64>>, count: usize) -> Seq<Seq<i64>>
    ensures { result ≡ take count buffers }
{
    let mut all = buffers.into_vec();
    all.truncate(count);
    Seq::from_vec(all)
}

/// A call of a kernel.
fn run_kernel(alloc: Global, kernel: &Kernel, call: &Call) -> Result<Ran, NoMemory>
    requires runnable { all_runnable kernel.now.body ≡ true }
    requires fits { Fits (types_of_params kernel.now) call.now }
    ensures { IfOk result (λ r. of_run r ≡ kernel_outcome kernel.now call.now) }
{
    let bank = Bank::start(alloc, kernel, call)?;
    let mut run = Running {
        bank,
        counts: NO_COUNTS,
        shapes: Vec::new(alloc),
        subscripts: Vec::new(alloc),
    };
    let end = run_block(
        kernel.body.as_slice(),
        kernel.regs.as_slice(),
        alloc,
        &mut run,
    )?;
    ran(alloc, kernel.rets.as_slice(), call.buffers.len(), run, end)
}

/// What a call of the kernel with this number gives, and what the run counts: the meaning of the loop program. Where
/// there is no such kernel, nothing runs.
///
/// Takes time linear in the statements that run and in the elements that they read and write.
pub fn run_program(
    alloc: Global,
    program: &ValidProgram,
    kernel: u32,
    call: &Call,
) -> Result<Ran, NoMemory>
    requires fits { (k : AnyKernel) → slice_get program.now.kernels kernel ≡ Some k → Fits (types_of_params k)
        call.now }
    ensures { IfOk result (λ r. of_run r ≡ serial program.now kernel call.now) }
{
    let checked = program.program();
    checked_is_runnable(checked);
    match checked.kernels.as_slice().get(kernel as usize) {
        Some(found) => {
            one_runnable(checked.kernels.as_slice(), kernel as usize);
            run_kernel(alloc, found, call)
        }
        None => Ok(Ran {
            outcome: Outcome {
                ret: Seq::new(alloc),
                buffers: words_of(alloc, call.buffers.as_slice())?,
                fault: None,
            },
            counts: NO_COUNTS,
        }),
    }
}

/// The test of all kernels holds of one of them.
fn one_runnable(kernels: &[Kernel], number: usize)
    requires { kernels_runnable kernels.now ≡ true }
    ensures { (k : AnyKernel) → slice_get kernels.now number ≡ Some k → all_runnable k.body ≡ true }
{}
