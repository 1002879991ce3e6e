// The plain form of an instance and of a program.
ghost use Rattle.std.specs.Prelude.{◌≡◌, ◌++◌, true, IfOk, slice_get};
ghost use Rattle.eager_rules.specs.Sound.{IsSound};
ghost use Rattle.lazy_expr.specs.Plain.{plain_kernel};
ghost use Rattle.lazy_expr.specs.Promise.{KeepsOutcomes, ProgramKeepsOutcomes, has_flat_kernels, is_flat};
ghost use Rattle.lazy_expr.specs.Promise.{kernel_at};
ghost use Rattle.lazy_expr.specs.Promise.{plain_program as plain_program_of};
ghost use Rattle.lazy_expr.specs.Valid.{KeepsConditions, ProgramKeepsConditions};

use crate::closing::close_for;
use crate::laws::{condition_law, plain_law};
use crate::lower::lower_block;
use crate::registers::{table_of, view_types, word_kinds};
use eager_rules::{Instance, Program};
use krn_base::{NoMemory, ParamType, Seq, Text};
use loop_prog::{Kernel, LoopProgram};
use std::alloc::Global;

/// A copy of parameters.
fn copied_params(
    alloc: Global,
    params: &[(Text, ParamType)],
) -> Result<Seq<(Text, ParamType)>, NoMemory>
    ensures { IfOk result (λ copies. copies ≡ params.now) }
{
    let mut copies = Seq::new(alloc);
    for param in params {
        copies.push((param.0.try_copy()?, param.1))?;
    }
    Ok(copies)
}

/// The plain form, by its definition alone.
fn form_of(alloc: Global, instance: &Instance) -> Result<Kernel, NoMemory>
    ensures { IfOk result (λ k. k ≡ plain_kernel instance.now) }
{
    let names = instance.names.as_slice();
    let table = table_of(alloc, names)?;
    let regs = word_kinds(alloc, names)?;
    let mut views = view_types(alloc, names)?;
    let body = lower_block(
        instance.body.as_slice(),
        names,
        table.as_slice(),
        alloc,
        &mut views,
    )?;
    let body = close_for(instance.rets.as_slice(), body, alloc)?;
    Ok(Kernel {
        name: instance.name.try_copy()?,
        params: copied_params(alloc, instance.params.as_slice())?,
        regs,
        views,
        rets: instance.rets.try_copy()?,
        body,
    })
}

/// The plain form of an instance without own calls. Where each of its array parameters has a dimension, it has for
/// every call that fits the outcome of eager evaluation: values, final buffers, and the fault with its place; and where
/// besides no statement with blocks stands in more than 127 others, it meets the conditions of loop programs. Takes
/// time linear in the instance. Want of memory also where there would be more than 2^32 - 1 names or 2^32 view
/// registers.
pub fn plain(alloc: Global, instance: &Instance) -> Result<Kernel, NoMemory>
    requires flat { is_flat instance.now ≡ true }
    ensures form { IfOk result (λ k. k ≡ plain_kernel instance.now) }
    ensures outcomes { IfOk result (λ k. KeepsOutcomes instance.now k) }
    ensures conditions { IfOk result (λ k. KeepsConditions instance.now k) }
{
    plain_law();
    condition_law();
    form_of(alloc, instance)
}

/// The kernel of the instance with a number behind others, where there is one.
fn add_kernel(
    alloc: Global,
    number: u32,
    instances: &[Instance],
    kernels: &mut Seq<Kernel>,
) -> Result<(), NoMemory>
    ensures { IfOk result (λ u. kernels.new ≡ kernels.old ++ kernel_at (slice_get instances.now number)) }
{
    match instances.get(number as usize) {
        None => Ok(()),
        Some(instance) => {
            kernels.push(form_of(alloc, instance)?)?;
            Ok(())
        }
    }
}

/// The kernels of a program, by their definition alone.
fn program_form(alloc: Global, program: &Program) -> Result<LoopProgram, NoMemory>
    ensures { IfOk result (λ p. p ≡ plain_program_of program.now) }
{
    let mut kernels = Seq::new(alloc);
    for number in program.kernels.as_slice() {
        add_kernel(alloc, *number, program.instances.as_slice(), &mut kernels)?;
    }
    Ok(LoopProgram { kernels })
}

/// The plain form of a sound program whose kernels call no own function: one kernel for each of its kernels, in order.
/// Each has the outcomes that `plain` speaks of, and the program meets the conditions of loop programs where each
/// kernel is as `plain` asks and no two have one name and the same parameter types. Takes time linear in the kernels'
/// instances.
pub fn plain_program(alloc: Global, program: &Program) -> Result<LoopProgram, NoMemory>
    requires sound { IsSound program.now }
    requires flat { has_flat_kernels program.now ≡ true }
    ensures form { IfOk result (λ p. p ≡ plain_program_of program.now) }
    ensures outcomes { IfOk result (λ p. ProgramKeepsOutcomes program.now p) }
    ensures conditions { IfOk result (λ p. ProgramKeepsConditions program.now p) }
{
    plain_law();
    condition_law();
    program_form(alloc, program)
}
