// Instances: how one begins, ends and is found.
ghost use Rattle.std.specs.Prelude.{◌≡◌, [], IfErr, IfOk, Some, length, map, slice_get, slice_set, unwrap_or};
ghost use Rattle.krn_base.specs.declared.refusal.Stop.TheVariants.{Memory};
ghost use Rattle.eager_rules.specs.Types as core_types;
ghost use Rattle.std.specs.List.{zip};
ghost use Rattle.array_types.specs.Modules as spec;
ghost use Rattle.array_types.specs.Walk.{Walks};

use crate::keys::Keys;
use crate::known::Known;
use crate::settle;
use crate::shape::ends_well;
use crate::state::{Key, State, Ty};
use eager_rules::Instance;
use krn_base::{Loc, NoMemory, ParamType, Refusal, Rule, Seq, Stop, Text};
use module_terms::Routine;
use py_parse::Name;
use std::alloc::Global;
use std::mem;

/// What a call of an instance that was met before gives. One whose body is still being walked has no types yet.
pub fn given(n: u32, at: Loc, state: &State) -> Result<(u32, Seq<Ty>), Stop>
    ensures { Walks (spec.given n (slice_get state.now.instances n) at state.now) result state.now }
{
    match state.instances.as_slice().get(n as usize) {
        Some(Some(f)) => Ok((n, f.rets.try_copy()?)),
        _ => Err(Stop::Refused(Refusal {
            rule: Rule::Recursion,
            loc: at,
        })),
    }
}

fn strided_one(ty: Ty) -> ParamType
    ensures { result ≡ spec.strided ty }
{
    match ty {
        (kind, 0) => ParamType::Scalar(kind),
        (kind, rank) => ParamType::Strided(kind, rank),
    }
}

/// The parameters of a called instance.
pub fn strided(alloc: Global, types: &[Ty]) -> Result<Seq<ParamType>, NoMemory>
    ensures { IfOk result (λ params. params ≡ map spec.strided types.now) }
{
    let mut params = Seq::new(alloc);
    for ty in types {
        params.push(strided_one(*ty))?;
    }
    Ok(params)
}

/// The type of a parameter's values.
pub fn type_of_param(param: ParamType) -> Ty
    ensures { result ≡ core_types.type_of_param param }
{
    match param {
        ParamType::Scalar(kind) => (kind, 0),
        ParamType::Flat(kind, rank) => (kind, rank),
        ParamType::Strided(kind, rank) => (kind, rank),
    }
}

fn types_of_params(alloc: Global, params: &[ParamType]) -> Result<Seq<Ty>, NoMemory>
    ensures { IfOk result (λ types. types ≡ map core_types.type_of_param params.now) }
{
    let mut types = Seq::new(alloc);
    for param in params {
        types.push(type_of_param(*param))?;
    }
    Ok(types)
}

/// Names with their numbers.
#[tactic(auto, using(crate::proofs::Lists::numbered_here, std::proofs::lemmas::Grind::common_steps))]
fn numbered(alloc: Global, names: &[Name]) -> Result<Known, NoMemory>
    ensures { IfOk result (λ known. known ≡ spec.numbered names.now) }
{
    if names.len() > u32::MAX as usize {
        return Err(NoMemory);
    }
    let mut known = Known::new(alloc);
    for k in 0..names.len() {
        known.add(names[k].text.try_copy()?, k as u32)?;
    }
    Ok(known)
}

/// The numbers of the functions by their names.
#[tactic(auto, using(crate::proofs::Lists::numbered_here, std::proofs::lemmas::Grind::common_steps))]
pub fn functions(alloc: Global, routines: &[Routine]) -> Result<Known, NoMemory>
    ensures { IfOk result (λ known. known ≡ spec.functions routines.now) }
{
    if routines.len() > u32::MAX as usize {
        return Err(NoMemory);
    }
    let mut known = Known::new(alloc);
    for k in 0..routines.len() {
        known.add(routines[k].name.text.try_copy()?, k as u32)?;
    }
    Ok(known)
}

/// The state in which a body begins. The instances met so far go there.
pub fn begin(
    alloc: Global,
    key: Key,
    routine: &Routine,
    params: &[ParamType],
    state: &mut State,
) -> Result<State, Stop>
    ensures begun { IfOk result (λ t. t ≡ spec.begun key routine.now params.now state.old) }
    ensures left { IfOk result (λ t. state.new ≡ record state.old { keys = []; instances = [] }) }
    ensures refused { IfErr result (λ e. e ≡ Memory) }
{
    let types = types_of_params(alloc, params)?;
    let known = numbered(alloc, routine.params.as_slice())?;
    let met = mem::replace(&mut state.keys, Keys::new(alloc));
    let keys = met.with(alloc, key)?;
    let mut instances = mem::replace(&mut state.instances, Seq::new(alloc));
    instances.push(None)?;
    Ok(State {
        keys,
        instances,
        types,
        known,
        awaited: Known::new(alloc),
        places: Seq::new(alloc),
        out: Seq::new(alloc),
        rets: None,
    })
}

/// The parameters' texts and types.
#[tactic(auto, using(crate::proofs::Lists::pairs, std::proofs::lemmas::Grind::common_steps))]
fn params_of(
    alloc: Global,
    names: &[Name],
    params: &[ParamType],
) -> Result<Seq<(Text, ParamType)>, NoMemory>
    ensures { IfOk result (λ all. all ≡ zip (spec.texts names.now) params.now) }
{
    let mut all = Seq::new(alloc);
    for k in 0..names.len().min(params.len()) {
        all.push((names[k].text.try_copy()?, params[k]))?;
    }
    Ok(all)
}

/// The types of an instance's values; none where no `return` was met.
fn rets_of(alloc: Global, rets: Option<Seq<Ty>>) -> Seq<Ty>
    ensures { result ≡ unwrap_or rets [] }
{
    match rets {
        Some(rets) => rets,
        None => Seq::new(alloc),
    }
}

/// The instance of a walked body, which is put at its number. It is refused where a reduction's name is bound nowhere,
/// and where a path misses a value.
pub fn finish(
    n: usize,
    routine: &Routine,
    params: Seq<ParamType>,
    within: State,
    alloc: Global,
    state: &mut State,
) -> Result<(u32, Seq<Ty>), Stop>
    ensures { Walks (spec.finished n routine.now params state.old within) result state.new }
{
    let numbers = settle::numbers(alloc, &within)?;
    let State {
        keys,
        mut instances,
        types,
        known: _,
        awaited: _,
        places: _,
        out,
        rets,
    } = within;
    let rets = rets_of(alloc, rets);
    if !ends_well(rets.as_slice(), out.as_slice()) {
        return Err(Stop::Refused(Refusal {
            rule: Rule::Types,
            loc: routine.name.loc,
        }));
    }
    if n > u32::MAX as usize {
        return Err(Stop::Memory);
    }
    let given = rets.try_copy()?;
    let f = Instance {
        name: routine.name.text.try_copy()?,
        weight: routine.weight,
        params: params_of(alloc, routine.params.as_slice(), params.as_slice())?,
        rets,
        names: types,
        body: settle::settled_block(alloc, out, numbers.as_slice())?,
    };
    put(&mut instances, n, f);
    state.keys = keys;
    state.instances = instances;
    Ok((n as u32, given))
}

/// Puts an instance at its number, if there is one.
fn put(instances: &mut Seq<Option<Instance>>, n: usize, f: Instance)
    ensures { instances.new ≡ slice_set instances.old n (Some f) }
{
    if n < instances.len() {
        instances.set(n, Some(f));
    }
}
