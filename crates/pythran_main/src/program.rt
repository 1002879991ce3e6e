ghost use Rattle.std.specs.Prelude.{◌≡◌, IfOk, None, Some, map};
ghost use Rattle.eager_rules.specs.Sound.{IsSound, IsTyped};
ghost use Rattle.eager_rules.specs.State.{bound_to};
ghost use Rattle.lazy_expr.specs.Promise.{ProgramKeepsOutcomes};
ghost use Rattle.lazy_expr.specs.Promise.{plain_program as plain_program_of};
ghost use Rattle.loop_prog.specs.Check.{flaw_of};
ghost use Rattle.pythran_main.specs.Answer as answer;
ghost use Rattle.pythran_main.specs.Flattening.{IsKept};
ghost use Rattle.pythran_main.specs.Kernel as spec;
ghost use Rattle.pythran_main.specs.Steps.{IsCall, KeepsBuffers};

use crate::flattening::Flattened;
use call_binding::KernelHead;
use call_words::Command;
use eager_rules::{
    Call, Counts, Instance, Outcome, Program, all_assigned, eager, typed_has_small_powers,
    typed_runs_keep_types,
};
use krn_base::{NoMemory, ParamType, Seq, Text};
use lazy_expr::plain_program;
use loop_exec::run_program;
use omp_loops::{ValidProgram, validate};
use std::alloc::{AllocError, Global};

/// A finished call, with what was counted where a command counts.
#[derive(Debug, PartialEq, Eq, Drop)]
pub struct Finished {
    pub outcome: Outcome,
    pub counts: Option<Counts>,
}

/// The same parameters.
fn copy_params(
    alloc: Global,
    params: &[(Text, ParamType)],
) -> Result<Seq<(Text, ParamType)>, AllocError>
    ensures { IfOk result (λ copies. copies ≡ params.now) }
{
    let mut copies = Seq::new(alloc);
    for param in params {
        copies.push((param.0.try_copy()?, param.1))?;
    }
    Ok(copies)
}

/// What binding needs of the kernel whose instance has this number.
fn head_of(alloc: Global, instances: &[Instance], number: u32) -> Result<KernelHead, AllocError>
    ensures { IfOk result (λ head. head ≡ answer.head_of instances.now number) }
{
    match instances.get(number as usize) {
        Some(instance) => Ok(KernelHead {
            name: instance.name.try_copy()?,
            params: copy_params(alloc, instance.params.as_slice())?,
        }),
        None => Ok(KernelHead {
            name: Seq::new(alloc),
            params: Seq::new(alloc),
        }),
    }
}

/// The names and parameters of a program's kernels, in their order.
pub fn heads_of(alloc: Global, program: &Program) -> Result<Vec<KernelHead>, AllocError>
    ensures { IfOk result (λ heads. heads.items ≡ answer.heads_of program.now) }
{
    let instances = program.instances.as_slice();
    let mut heads = Vec::new(alloc);
    for number in program.kernels.as_slice() {
        heads.push(head_of(alloc, instances, *number)?)?;
    }
    Ok(heads)
}

/// What calling a kernel gives, one whole-array operation after another. Nothing is counted.
fn evaluate(
    alloc: Global,
    program: &Program,
    kernel: u32,
    call: &Call,
) -> Result<Finished, NoMemory>
    requires typed { IsTyped program.now }
    requires fits { IsCall program.now kernel call.now }
    ensures kept { IfOk result (λ done. KeepsBuffers call.now.buffers done.outcome.buffers) }
    ensures outcome { IfOk result (λ done. done.outcome ≡
        spec.outcome_on program.now kernel call.now.buffers (map bound_to call.now.args)) }
    ensures counts { IfOk result (λ done. done.counts ≡ None) }
{
    typed_has_small_powers(program);
    let outcome = eager(alloc, program, kernel, call)?;
    Ok(Finished {
        outcome,
        counts: None,
    })
}

/// The loop program of a module: of its flat form, in which each kernel has the outcome of eager evaluation of the
/// program. Want of memory too where the program reads what it may not have bound or the flat form doesn't meet the
/// loop program's conditions: no module that is served has such a program, but this isn't proved.
pub fn loops_of(alloc: Global, found: &Flattened) -> Result<ValidProgram, NoMemory>
    requires kept { IsKept found.now }
    ensures form { IfOk result (λ loops. loops ≡ plain_program_of found.now.flat) }
    ensures checked { IfOk result (λ loops. flaw_of loops ≡ None) }
    ensures outcomes { IfOk result (λ loops. ProgramKeepsOutcomes found.now.program loops) }
    ensures sound { IfOk result (λ loops. IsSound found.now.program) }
{
    if !all_assigned(alloc, &found.program)? {
        return Err(NoMemory);
    }
    let loops = plain_program(alloc, &found.flat)?;
    match validate(alloc, loops) {
        Ok(valid) => Ok(valid),
        Err(_stop) => Err(NoMemory),
    }
}

/// What the loop program of a kernel gives, and what it counts.
fn run_loops(
    alloc: Global,
    found: &Flattened,
    kernel: u32,
    call: &Call,
) -> Result<Finished, NoMemory>
    requires kept { IsKept found.now }
    requires fits { IsCall found.now.program kernel call.now }
    ensures kept { IfOk result (λ done. KeepsBuffers call.now.buffers done.outcome.buffers) }
    ensures outcome { IfOk result (λ done. done.outcome ≡
        spec.outcome_on found.now.program kernel call.now.buffers (map bound_to call.now.args)) }
    ensures counts { IfOk result (λ done. done.counts ≡
        Some (spec.counts_on (plain_program_of found.now.flat) kernel call.now.buffers (map bound_to call.now.args))) }
{
    typed_runs_keep_types(&found.program);
    let loops = loops_of(alloc, found)?;
    let ran = run_program(alloc, &loops, kernel, call)?;
    Ok(Finished {
        outcome: ran.outcome,
        counts: Some(ran.counts),
    })
}

/// What a command makes of a call: `run` by the kernel's loop program, `eager` by whole-array operations.
pub fn run(
    alloc: Global,
    command: Command,
    found: &Flattened,
    kernel: u32,
    call: &Call,
) -> Result<Finished, NoMemory>
    requires kept { IsKept found.now }
    requires fits { IsCall found.now.program kernel call.now }
    ensures kept { IfOk result (λ done. KeepsBuffers call.now.buffers done.outcome.buffers) }
    ensures outcome { IfOk result (λ done. done.outcome ≡
        spec.outcome_on found.now.program kernel call.now.buffers (map bound_to call.now.args)) }
    ensures counts { IfOk result (λ done. done.counts ≡
        answer.counts_by command found.now.flat kernel call.now.buffers (map bound_to call.now.args)) }
{
    match command {
        Command::Run { .. } => run_loops(alloc, found, kernel, call),
        Command::Eager => evaluate(alloc, &found.program, kernel, call),
    }
}
