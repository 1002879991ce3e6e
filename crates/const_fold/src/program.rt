//! The folded form of a program.
ghost use Rattle.std.specs.Prelude.{◌≡◌, IfOk, map};
ghost use Rattle.const_fold.specs.Folded as spec;
ghost use Rattle.const_fold.specs.Promise.{IsSettled, KeepsKernels};
ghost use Rattle.eager_rules.specs.Sound.{IsSound};
ghost use Rattle.inline.specs.Flattened.{HasNoCalls};
ghost use Rattle.inline.specs.Kept.{HasOutcomes};

use crate::laws::{
    folded_calls_nothing, folded_is_settled, folded_is_sound, folded_keeps_kernels,
    folding_keeps_outcomes,
};
use crate::round::round;
use crate::tallies::bound_names;
use eager_rules::{Instance, Program};
use krn_base::{NoMemory, Seq};
use std::alloc::Global;

/// How many bindings an instance has.
fn bindings(alloc: Global, f: &Instance) -> Result<usize, NoMemory>
    ensures { IfOk result (λ count. count ≡ spec.bindings f.now) }
{
    let names = bound_names(alloc, f.body.as_slice())?;
    Ok(names.len())
}

/// The folded form of an instance.
fn folded_instance(alloc: Global, f: &Instance) -> Result<Instance, NoMemory>
    ensures { IfOk result (λ g. g ≡ spec.folded_instance f.now) }
{
    let mut before = bindings(alloc, f)?;
    let mut folded = round(alloc, f)?;
    let mut after = bindings(alloc, &folded)?;
    while after < before {
        before = after;
        folded = round(alloc, &folded)?;
        after = bindings(alloc, &folded)?;
    }
    Ok(folded)
}

/// The folded forms of instances, in order.
fn folded_instances(alloc: Global, instances: &[Instance]) -> Result<Seq<Instance>, NoMemory>
    ensures { IfOk result (λ list. list ≡ map spec.folded_instance instances.now) }
{
    let mut list = Seq::new(alloc);
    for f in instances {
        list.push(folded_instance(alloc, f)?)?;
    }
    Ok(list)
}

/// The folded form, by its definition alone.
fn program_form(alloc: Global, program: &Program) -> Result<Program, NoMemory>
    ensures { IfOk result (λ folded. folded ≡ spec.folded_program program.now) }
{
    let instances = folded_instances(alloc, program.instances.as_slice())?;
    let kernels = program.kernels.try_copy()?;
    Ok(Program { instances, kernels })
}

/// The folded form of a program: a name that always holds one literal is replaced by it, and an `If` on a literal by
/// its part. A name is folded that is no parameter, that one statement on scalars binds, which is no move, and that
/// stands in no loop's reductions; its literal is what the statement makes of literals, where that is no fault.
///
/// Takes rounds over each instance. A round is linear in it; another comes where the round took a binding away, as
/// another name may then be bound once. A body without such chains takes two; at the worst, where the part that each
/// `If` drops frees the name of the next one, there are as many as bindings, and the time is the square of the body.
pub fn fold(alloc: Global, program: &Program) -> Result<Program, NoMemory>
    ensures form { IfOk result (λ folded. folded ≡ spec.folded_program program.now) }
    ensures settled { IfOk result IsSettled }
    ensures kernels { IfOk result (λ folded. KeepsKernels program.now folded) }
    ensures sound { IfOk result (λ folded. IsSound program.now → IsSound folded) }
    ensures flat { IfOk result (λ folded. HasNoCalls program.now → HasNoCalls folded) }

    // Of a sound program without own calls each kernel has the same outcome on each call that fits: the values, the
    // final buffers, and the fault with its place.
    ensures outcomes { IfOk result (λ folded. IsSound program.now → HasNoCalls program.now →
        HasOutcomes program.now folded) }
{
    folded_is_settled();
    folded_is_sound();
    folded_keeps_kernels();
    folded_calls_nothing();
    folding_keeps_outcomes();
    let folded = program_form(alloc, program)?;
    Ok(folded)
}
