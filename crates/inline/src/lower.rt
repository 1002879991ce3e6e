//! Bodies with those of called instances in place of the calls.
ghost use Rattle.std.specs.Prelude.{◌≡◌, ◌++◌, ◌∷◌, [], IfOk, OnOk, length, map, take};
ghost use Rattle.eager_rules.specs.declared.program.Core.TheVariants as core;
ghost use Rattle.inline.specs.Flat as spec;
ghost use Rattle.inline.specs.Flattened.{block_form, core_form, if_form, inline_at};
ghost use Rattle.inline.specs.Idle.{calm_in};
ghost use Rattle.inline.specs.Own.{own_of};
ghost use Rattle.inline.specs.Places as places;
ghost use Rattle.inline.specs.declared.moves.Out.TheVariants.{Moves};

use crate::copies::add_copy;
use crate::idle::is_left_out;
use crate::moves::{Out, Ty, add_given, add_moves, numbered, targets};
use crate::own::own_of;
use crate::places::{Place, place_for, placed, placed_all, renamed, renamed_all, renamed_pairs};
use eager_rules::{Core, Instance, Oper, Program};
use krn_base::{Join, Loc, NoMemory, Seq};
use purity::Effects;
use std::alloc::Global;

/// Puts the types of an instance's names behind others.
fn add_names(types: &[Ty], names: &mut Seq<Ty>) -> Result<(), NoMemory>
    ensures { OnOk result (names.new ≡ names.old ++ types.now) }
{
    for ty in types {
        names.push(*ty)?;
    }
    Ok(())
}

/// The types of an instance's parameters, which are its first names.
fn first_names(names: &[Ty], count: usize) -> &[Ty]
    ensures { result.now ≡ take count names.now }
{
    &names[..count.min(names.len())]
}

/// The number of the next name. Want of memory where that is past the last number of a name.
fn next_name(names: &[Ty]) -> Result<u32, NoMemory>
    ensures { IfOk result (λ next. next ≡ length names.now) }
{
    if names.len() > u32::MAX as usize {
        return Err(NoMemory);
    }
    Ok(names.len() as u32)
}

/// The arguments of a call go to the parameters of a new copy of the instance, whose names are behind the others.
fn begin_body(
    f: &Instance,
    args: &[Oper],
    first: u32,
    alloc: Global,
    names: &mut Seq<Ty>,
    body: &mut Seq<Core>,
) -> Result<(), NoMemory>
    ensures body { OnOk result (body.new ≡ body.old ++
        places.moves (places.numbered first (take (length f.now.params) f.now.names)) args.now) }
    ensures names { OnOk result (names.new ≡ names.old ++ f.now.names) }
{
    let types = f.names.as_slice();
    let params = numbered(alloc, first, first_names(types, f.params.len()))?;
    add_moves(alloc, params.as_slice(), args, body)?;
    add_names(types, names)
}

/// The names to which an instance's values go.
fn out_for(alloc: Global, f: &Instance, to: &[u32]) -> Result<Out, NoMemory>
    ensures { IfOk result (λ out. out ≡ Moves (places.targets f.now.rets to.now)) }
{
    let list = targets(alloc, f.rets.as_slice(), to)?;
    Ok(Out::Moves(list))
}

/// Where the names of a copy of an instance stand.
fn place_of(alloc: Global, f: &Instance, to: &[u32], first: u32) -> Result<Place, NoMemory>
    ensures { IfOk result (λ place. place ≡ places.place_for (own_of f.now) to.now first) }
{
    let own = own_of(alloc, f)?;
    Ok(place_for(own, to, first))
}

/// The head of a loop: its variable, its range and its place.
#[derive(Clone, Copy)]
struct Range {
    var: u32,
    lo: Oper,
    hi: Oper,
    step: Oper,
    at: Loc,
}

/// The head of a loop by the places of names.
fn renamed_range(
    place: Place,
    var: u32,
    lo: Oper,
    hi: Oper,
    step: Oper,
    at: Loc,
) -> Result<Range, NoMemory>
    ensures { IfOk result (λ range. range ≡ record {
      var = places.placed place var;
      lo = places.renamed place lo;
      hi = places.renamed place hi;
      step = places.renamed place step;
      at = at;
    }) }
{
    let var = placed(place, var)?;
    let lo = renamed(place, lo)?;
    let hi = renamed(place, hi)?;
    let step = renamed(place, step)?;
    Ok(Range {
        var,
        lo,
        hi,
        step,
        at,
    })
}

/// A loop by its head.
fn loop_of(range: Range, omp: Option<Seq<(Join, u32)>>, body: Seq<Core>) -> Core
    ensures { result ≡ core.For range.var range.lo range.hi range.step range.at omp body }
{
    let Range {
        var,
        lo,
        hi,
        step,
        at,
    } = range;
    Core::For {
        var,
        lo,
        hi,
        step,
        at,
        omp,
        body,
    }
}

/// The statements of a block behind others, their new names behind those that there are.
#[cycle(lower)]
pub fn lower_all(
    block: &[Core],
    depth: usize,
    program: &Program,
    effects: &Effects,
    out: &Out,
    place: Place,
    alloc: Global,
    names: &mut Seq<Ty>,
    body: &mut Seq<Core>,
) -> Result<(), NoMemory>
    ensures body { OnOk result (body.new ≡ body.old ++
        (block_form program.now effects.now depth out.now place block.now (length names.old)).body) }
    ensures names { OnOk result (names.new ≡ names.old ++
        (block_form program.now effects.now depth out.now place block.now (length names.old)).fresh) }
{
    for core in block {
        lower(
            core, depth, program, effects, out, place, alloc, names, body,
        )?;
    }
    Ok(())
}

/// The statements of a block as a list of their own.
#[cycle(lower)]
fn lower_part(
    block: &[Core],
    depth: usize,
    program: &Program,
    effects: &Effects,
    out: &Out,
    place: Place,
    alloc: Global,
    names: &mut Seq<Ty>,
) -> Result<Seq<Core>, NoMemory>
    ensures body { IfOk result (λ part. part ≡
        (block_form program.now effects.now depth out.now place block.now (length names.old)).body) }
    ensures names { IfOk result (λ part. names.new ≡ names.old ++
        (block_form program.now effects.now depth out.now place block.now (length names.old)).fresh) }
{
    let mut part = Seq::new(alloc);
    lower_all(
        block, depth, program, effects, out, place, alloc, names, &mut part,
    )?;
    Ok(part)
}

/// A statement behind others.
#[cycle(lower)]
fn lower(
    core: &Core,
    depth: usize,
    program: &Program,
    effects: &Effects,
    out: &Out,
    place: Place,
    alloc: Global,
    names: &mut Seq<Ty>,
    body: &mut Seq<Core>,
) -> Result<(), NoMemory>
    ensures body { OnOk result (body.new ≡ body.old ++
        (core_form program.now effects.now depth out.now place core.now (length names.old)).body) }
    ensures names { OnOk result (names.new ≡ names.old ++
        (core_form program.now effects.now depth out.now place core.now (length names.old)).fresh) }
{
    match core {
        Core::Call { to, instance, args } => lower_call(
            to.as_slice(),
            *instance,
            args.as_slice(),
            depth,
            program,
            effects,
            place,
            alloc,
            names,
            body,
        ),
        Core::If { cond, yes, no } => {
            let statement = lower_if(
                *cond,
                yes.as_slice(),
                no.as_slice(),
                depth,
                program,
                effects,
                out,
                place,
                alloc,
                names,
            )?;
            body.push(statement)?;
            Ok(())
        }
        Core::For {
            var,
            lo,
            hi,
            step,
            at,
            omp,
            body: inner,
        } => {
            let range = renamed_range(place, *var, *lo, *hi, *step, *at)?;
            let omp = renamed_pairs(alloc, place, omp)?;
            let inner = lower_part(
                inner.as_slice(),
                depth,
                program,
                effects,
                out,
                place,
                alloc,
                names,
            )?;
            body.push(loop_of(range, omp, inner))?;
            Ok(())
        }
        Core::Return { values } => {
            let values = renamed_all(alloc, place, values.as_slice())?;
            add_given(alloc, out, values, body)
        }
        _ => add_copy(core, place, alloc, body),
    }
}

/// An `If`: the new names of its second part stand behind those of the first.
#[cycle(lower)]
fn lower_if(
    cond: Oper,
    yes: &[Core],
    no: &[Core],
    depth: usize,
    program: &Program,
    effects: &Effects,
    out: &Out,
    place: Place,
    alloc: Global,
    names: &mut Seq<Ty>,
) -> Result<Core, NoMemory>
    ensures statement { IfOk result (λ s. (if_form program.now effects.now depth out.now place cond yes.now no.now
        (length names.old)).body ≡ s ∷ []) }
    ensures names { IfOk result (λ s. names.new ≡ names.old ++
        (if_form program.now effects.now depth out.now place cond yes.now no.now (length names.old)).fresh) }
{
    let cond = renamed(place, cond)?;
    let yes = lower_part(yes, depth, program, effects, out, place, alloc, names)?;
    let no = lower_part(no, depth, program, effects, out, place, alloc, names)?;
    Ok(Core::If { cond, yes, no })
}

/// A call behind other statements, or nothing where it is left out.
#[cycle(lower)]
fn lower_call(
    to: &[u32],
    instance: u32,
    args: &[Oper],
    depth: usize,
    program: &Program,
    effects: &Effects,
    place: Place,
    alloc: Global,
    names: &mut Seq<Ty>,
    body: &mut Seq<Core>,
) -> Result<(), NoMemory>
    ensures body { OnOk result (body.new ≡ body.old ++
        (spec.call_form (calm_in program.now effects.now) (inline_at program.now effects.now depth) place
        to.now instance args.now (length names.old)).body) }
    ensures names { OnOk result (names.new ≡ names.old ++
        (spec.call_form (calm_in program.now effects.now) (inline_at program.now effects.now depth) place
        to.now instance args.now (length names.old)).fresh) }
{
    if is_left_out(program, effects, to, instance)? {
        return Ok(());
    }
    let to = placed_all(alloc, place, to)?;
    let args = renamed_all(alloc, place, args)?;
    in_line(
        instance,
        to.as_slice(),
        args.as_slice(),
        depth,
        program,
        effects,
        alloc,
        names,
        body,
    )
}

/// What stands for a call of the instance with a number, behind other statements.
#[cycle(lower)]
#[tactic(auto, using(crate::proofs::FlatLaws::flat_below))]
fn in_line(
    instance: u32,
    to: &[u32],
    args: &[Oper],
    depth: usize,
    program: &Program,
    effects: &Effects,
    alloc: Global,
    names: &mut Seq<Ty>,
    body: &mut Seq<Core>,
) -> Result<(), NoMemory>
    ensures body { OnOk result (body.new ≡ body.old ++
        (inline_at program.now effects.now depth instance to.now args.now (length names.old)).body) }
    ensures names { OnOk result (names.new ≡ names.old ++
        (inline_at program.now effects.now depth instance to.now args.now (length names.old)).fresh) }
{
    if depth == 0 {
        return Ok(());
    }
    match program.instances.as_slice().get(instance as usize) {
        Some(f) => put_body(f, to, args, depth - 1, program, effects, alloc, names, body),
        None => Ok(()),
    }
}

/// The body of a called instance behind other statements.
#[cycle(lower)]
fn put_body(
    f: &Instance,
    to: &[u32],
    args: &[Oper],
    depth: usize,
    program: &Program,
    effects: &Effects,
    alloc: Global,
    names: &mut Seq<Ty>,
    body: &mut Seq<Core>,
) -> Result<(), NoMemory>
    ensures body { OnOk result (body.new ≡ body.old ++
        (spec.in_place (calm_in program.now effects.now) (inline_at program.now effects.now depth) f.now
        to.now args.now (length names.old)).body) }
    ensures names { OnOk result (names.new ≡ names.old ++
        (spec.in_place (calm_in program.now effects.now) (inline_at program.now effects.now depth) f.now
        to.now args.now (length names.old)).fresh) }
{
    let first = next_name(names.as_slice())?;
    begin_body(f, args, first, alloc, names, body)?;
    let out = out_for(alloc, f, to)?;
    let place = place_of(alloc, f, to, first)?;
    lower_all(
        f.body.as_slice(),
        depth,
        program,
        effects,
        &out,
        place,
        alloc,
        names,
        body,
    )
}
