//! The flat form of a program.
ghost use Rattle.std.specs.Prelude.{◌≡◌, ◌++◌, IfErr, IfOk, None, OnOk, length, slice_get};
ghost use Rattle.std.specs.List.{range_with_len};
ghost use Rattle.purity.specs.Answers.{AreEffects};
ghost use Rattle.inline.specs.Flat as spec;
ghost use Rattle.inline.specs.Flattened.{HasNoCalls, IsStop};
ghost use Rattle.inline.specs.Heads.{HasKernels};
ghost use Rattle.inline.specs.Idle.{AreCalm, calm_in};
ghost use Rattle.inline.specs.Kept.{RankedOutcomes};
ghost use Rattle.inline.specs.Limits.{refusal};
ghost use Rattle.inline.specs.Places.{home};
ghost use Rattle.eager_rules.specs.Sound.{IsSound};
ghost use Rattle.purity.specs.Soundness.{FaultsNever, WritesNoOthers};

use crate::laws::flat_form_keeps_outcomes;
use crate::limits::refused;
use crate::lower::lower_all;
use crate::moves::Out;
use crate::places::Place;
use crate::soundness::flat_form_is_sound;
use eager_rules::{Instance, Program};
use export_sig::Signature;
use krn_base::{NoMemory, ParamType, Seq, Stop, Text};
use purity::Effects;
use std::alloc::Global;

/// The names of a kernel stand where they are.
fn home() -> Place
    ensures { result ≡ home }
{
    Place {
        first: 0,
        own: None,
    }
}

/// A copy of parameters.
fn copied_params(
    alloc: Global,
    params: &[(Text, ParamType)],
) -> Result<Seq<(Text, ParamType)>, NoMemory>
    ensures { IfOk result (λ copies. copies ≡ params.now) }
{
    let mut copies = Seq::new(alloc);
    for param in params {
        copies.push((param.0.try_copy()?, param.1))?;
    }
    Ok(copies)
}

/// The flat form of a kernel.
fn flat_kernel(
    alloc: Global,
    f: &Instance,
    program: &Program,
    effects: &Effects,
) -> Result<Instance, NoMemory>
    ensures { IfOk result (λ kernel. kernel ≡ spec.kernel_of f.now
        (spec.flat_body program.now.instances (calm_in program.now effects.now) f.now)) }
{
    let mut names = f.names.try_copy()?;
    let mut body = Seq::new(alloc);
    lower_all(
        f.body.as_slice(),
        program.instances.len(),
        program,
        effects,
        &Out::Returns,
        home(),
        alloc,
        &mut names,
        &mut body,
    )?;
    Ok(Instance {
        name: f.name.try_copy()?,
        weight: f.weight,
        params: copied_params(alloc, f.params.as_slice())?,
        rets: f.rets.try_copy()?,
        names,
        body,
    })
}

/// The flat form of the instance with a number behind others, where there is one.
fn add_kernel(
    alloc: Global,
    number: u32,
    program: &Program,
    effects: &Effects,
    kernels: &mut Seq<Instance>,
) -> Result<(), NoMemory>
    ensures { OnOk result (kernels.new ≡ kernels.old ++ spec.kernel_at program.now.instances
        (calm_in program.now effects.now) (slice_get program.now.instances number)) }
{
    match program.instances.as_slice().get(number as usize) {
        None => Ok(()),
        Some(f) => {
            kernels.push(flat_kernel(alloc, f, program, effects)?)?;
            Ok(())
        }
    }
}

/// The flat forms of the kernels, in order.
fn flat_kernels(
    alloc: Global,
    program: &Program,
    effects: &Effects,
) -> Result<Seq<Instance>, NoMemory>
    ensures { IfOk result (λ kernels. kernels ≡
        spec.flat_kernels program.now (calm_in program.now effects.now)) }
{
    let mut kernels = Seq::new(alloc);
    for number in program.kernels.as_slice() {
        add_kernel(alloc, *number, program, effects, &mut kernels)?;
    }
    Ok(kernels)
}

/// The numbers below a count.
#[tactic(auto, using(crate::proofs::FlatLaws::counting_more))]
fn numbers_below(alloc: Global, count: usize) -> Result<Seq<u32>, NoMemory>
    ensures { IfOk result (λ numbers. numbers ≡ range_with_len 0 count) }
{
    if count > u32::MAX as usize {
        return Err(NoMemory);
    }
    let mut numbers = Seq::from_vec(Vec::with_capacity(alloc, count)?);
    for k in 0..count {
        numbers.push(k as u32)?;
    }
    Ok(numbers)
}

/// The flat form, by its definition alone.
fn program_form(alloc: Global, program: &Program, effects: &Effects) -> Result<Program, NoMemory>
    ensures { IfOk result (λ flat. flat ≡ spec.flat_program program.now (calm_in program.now effects.now)) }
{
    let instances = flat_kernels(alloc, program, effects)?;
    let kernels = numbers_below(alloc, instances.len())?;
    Ok(Program { instances, kernels })
}

/// A flat form has no own call.
fn flat_has_no_calls(program: &Program, effects: &Effects)
    ensures { HasNoCalls (spec.flat_program program.now (calm_in program.now effects.now)) }
{}

/// The kernels of a flat form have the heads of the program's.
fn flat_has_kernels(program: &Program, effects: &Effects)
    ensures { HasKernels program.now (spec.flat_program program.now (calm_in program.now effects.now)) }
{}

/// The flat form of a sound program has its outcomes, where the effects hold of evaluation.
fn flat_keeps_outcomes(program: &Program, effects: &Effects)
    ensures { IsSound program.now → WritesNoOthers program.now effects.now → FaultsNever program.now effects.now →
        RankedOutcomes program.now (spec.flat_program program.now (calm_in program.now effects.now)) }
{
    flat_form_keeps_outcomes();
}

/// The calls that are left out are those of instances that write no parameter and can't fault.
fn calm_are_calm(program: &Program, effects: &Effects)
    requires { AreEffects program.now effects.now }
    ensures { AreCalm program.now.instances (calm_in program.now effects.now) }
{}

/// The flat form of a program: its kernels without own calls, in order. The body of a called instance stands in place
/// of each call of it, with names of its own behind those that there are: moves of the arguments to its parameters, its
/// statements, and a move of each value to its name where it returns. A call for no value is left out exactly where
/// its instance writes no parameter and can't fault.
///
/// `signatures` are those of the kernels, in order, and `effects` those of the program. Refuses at an export note by
/// `Rule::TooLarge` the first kernel with which the kernels are too heavy, else by `Rule::TooDeep` the first that is
/// too deep; both before any copy is made. Takes time linear in the program for each level of calls, and in the flat
/// form.
/// Want of memory also where a kernel would have 2^32 names or more.
pub fn flatten(
    alloc: Global,
    program: &Program,
    signatures: &[Signature],
    effects: &Effects,
) -> Result<Program, Stop>
    requires effects { AreEffects program.now effects.now }
    ensures form { IfOk result (λ flat. flat ≡ spec.flat_program program.now (calm_in program.now effects.now)) }
    ensures flat { IfOk result HasNoCalls }
    ensures sound { IfOk result (λ flat. IsSound program.now → IsSound flat) }
    ensures kernels { IfOk result (λ flat. HasKernels program.now flat) }

    // Of a sound program whose effects hold of eager evaluation, each kernel of the flat form has the kernel's outcome
    // on each call that fits: the values, the final buffers, and the fault with its place in the called function.
    ensures outcomes { IfOk result (λ flat. IsSound program.now → WritesNoOthers program.now effects.now →
        FaultsNever program.now effects.now → RankedOutcomes program.now flat) }
    ensures left_out { AreCalm program.now.instances (calm_in program.now effects.now) }
    ensures accepted { IfOk result (λ flat. refusal program.now signatures.now ≡ None) }
    ensures refused { IfErr result (IsStop (refusal program.now signatures.now)) }
{
    calm_are_calm(program, effects);
    match refused(alloc, program, signatures)? {
        Some(refusal) => Err(Stop::Refused(refusal)),
        None => {
            flat_has_no_calls(program, effects);
            flat_has_kernels(program, effects);
            flat_form_is_sound();
            flat_keeps_outcomes(program, effects);
            let flat = program_form(alloc, program, effects)?;
            Ok(flat)
        }
    }
}
