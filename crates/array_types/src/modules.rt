// The walk through a module.
ghost use Rattle.std.specs.Prelude.{◌≡◌, ◌++◌, [], IfOk, OnOk, option_to_list};
ghost use Rattle.std.specs.List.{list_all};
ghost use Rattle.array_types.specs.Modules as spec;
ghost use Rattle.array_types.specs.Numbering.{AreNumbered};
ghost use Rattle.eager_rules.specs.Sound.{IsTyped};
ghost use Rattle.array_types.specs.Walk.{Walks};

use crate::body::enter;
use crate::checked::is_checked;
use crate::instances::{functions, type_of_param};
use crate::keys::Keys;
use crate::known::Known;
use crate::numbering::are_numbered;
use crate::state::{Key, Signature, State};
use eager_rules::{Instance, Program};
use krn_base::{NoMemory, ParamType, Refusal, Rule, Seq, Stop};
use module_terms::Routine;
use std::alloc::Global;

/// How many own calls may stand within one another.
const DEPTH: u32 = 33;

fn ranks_fit(params: &[ParamType]) -> bool
    ensures { result ≡ list_all spec.has_rank params.now }
{
    for param in params {
        if type_of_param(*param).1 > 4 {
            return false;
        }
    }
    true
}

/// The instance of a kernel.
fn kernel(
    signature: &Signature,
    routines: &[Routine],
    names: &Known,
    alloc: Global,
    state: &mut State,
) -> Result<u32, Stop>
    ensures { Walks (spec.kernel routines.now names.now signature.now state.old) result state.new }
{
    match routines.get(signature.function as usize) {
        None => Err(Stop::Refused(Refusal {
            rule: Rule::Export,
            loc: signature.loc,
        })),
        Some(routine) => {
            if signature.params.len() != routine.params.len()
                || !ranks_fit(signature.params.as_slice())
            {
                return Err(Stop::Refused(Refusal {
                    rule: Rule::Export,
                    loc: signature.loc,
                }));
            }
            let params = signature.params.try_copy()?;
            let given = enter(
                routine,
                Key::Kernel,
                params,
                DEPTH,
                routines,
                names,
                alloc,
                state,
            )?;
            Ok(given.0)
        }
    }
}

/// The instances of all kernels, in order.
fn kernels(
    signatures: &[Signature],
    routines: &[Routine],
    names: &Known,
    alloc: Global,
    state: &mut State,
) -> Result<Seq<u32>, Stop>
    ensures { Walks (spec.kernels_from [] routines.now names.now signatures.now state.old) result state.new }
{
    let mut found = Seq::new(alloc);
    for signature in signatures {
        let n = kernel(signature, routines, names, alloc, state)?;
        found.push(n)?;
    }
    Ok(found)
}

/// Puts an instance behind others where its body was walked.
fn add_made(instance: Option<Instance>, all: &mut Seq<Instance>) -> Result<(), NoMemory>
    ensures { OnOk result (all.new ≡ all.old ++ option_to_list instance) }
{
    if let Some(f) = instance {
        all.push(f)?;
    }
    Ok(())
}

/// The instances whose bodies were walked, which are all.
#[tactic(auto, using(crate::proofs::Lists::complete_more, std::proofs::lemmas::Grind::common_steps))]
fn complete(alloc: Global, instances: Seq<Option<Instance>>) -> Result<Seq<Instance>, NoMemory>
    ensures { IfOk result (λ all. all ≡ spec.complete instances) }
{
    let mut all = Seq::new(alloc);
    for instance in instances.into_vec() {
        add_made(instance, &mut all)?;
    }
    Ok(all)
}

/// The state before the first kernel. Takes no memory.
fn start(alloc: Global) -> State
    ensures { result ≡ spec.start }
{
    State {
        keys: Keys::new(alloc),
        instances: Seq::new(alloc),
        types: Seq::new(alloc),
        known: Known::new(alloc),
        awaited: Known::new(alloc),
        places: Seq::new(alloc),
        out: Seq::new(alloc),
        rets: None,
    }
}

/// The types of a module's terms, and its core: an instance for each signature, in order, and one for each list of
/// argument types with which a kernel, or a function that one calls, calls a function. Instances are numbered as they
/// are met. The walk takes the kernels in order, statements as they are evaluated and the bodies of loops once; after
/// the arguments of a call it goes through the called body, where it wasn't called with these types before. The first
/// operation without a row, and the first binding of another type than the name has, is refused: `Types` or `Retype`,
/// at its place. A signature whose function or number of parameters isn't there is refused as `Export` at its note; a
/// call deeper than 33, or of a function that is still being walked, as `Recursion`; a name without a type as `Name`,
/// each at the name.
///
/// The program is well typed, and no chain of its calls leads from an instance back to it. An instance's parameters are
/// its first names, and each other name has the next number at the statement that first binds it.
///
/// Cost: an instance takes one walk through its function's body, which is linear in the body's terms, and its core is
/// linear in them too. Names, functions and the instance for a call are found by an index. The finished program is
/// tested once, and its calls once for each level of calls.
pub fn typed_terms(
    alloc: Global,
    routines: &[Routine],
    signatures: &[Signature],
) -> Result<Program, Stop>
    ensures program { spec.IsProgramOf routines.now signatures.now result }
    ensures typed { IfOk result IsTyped }
    ensures numbered { IfOk result AreNumbered }
{
    let names = functions(alloc, routines)?;
    let mut state = start(alloc);
    let kernels = kernels(signatures, routines, &names, alloc, &mut state)?;
    let State {
        keys: _,
        instances,
        types: _,
        known: _,
        awaited: _,
        places: _,
        out: _,
        rets: _,
    } = state;
    let instances = complete(alloc, instances)?;
    let program = Program { instances, kernels };
    if is_checked(alloc, &program)? && are_numbered(alloc, &program)? {
        Ok(program)
    } else {
        Err(Stop::Memory)
    }
}
