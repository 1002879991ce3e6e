// What one statement of the core becomes.
ghost use Rattle.std.specs.Prelude.{◌≡◌, ◌∷◌, ◌++◌, [], IfOk, length, map};
ghost use Rattle.std.specs.List.{list_any};
ghost use Rattle.lazy_expr.specs.Lowered.{checked, reduced, type_in};
ghost use Rattle.lazy_expr.specs.Plain as spec;
ghost use Rattle.lazy_expr.specs.Table as tables;
ghost use Rattle.loop_prog.specs.declared.program.Statement.TheVariants as v;

use crate::registers::{Ty, backs_of, number, oper_of, opers_of, subs_of};
use crate::template::{fold_steps, join_of, leaves, store_steps};
use array_ops::{Fill, RedOp};
use eager_rules::{CoreSub, Oper, WordOp};
use krn_base::{Join, Kind, Loc, NoMemory, Seq};
use loop_prog::{Guard, Reg, Statement, Template, TemplateStep, Test};
use std::alloc::Global;

/// An operation on scalars.
pub fn set(
    alloc: Global,
    table: &[Reg],
    to: u32,
    op: WordOp,
    args: &[Oper],
    at: Loc,
) -> Result<Statement, NoMemory>
    ensures { IfOk result (λ s. s ≡ v.Set (tables.number table.now to) op (tables.opers_of table.now args.now) at) }
{
    Ok(Statement::Set {
        to: number(table, to),
        op,
        args: opers_of(alloc, table, args)?,
        at,
    })
}

/// One element read.
pub fn get(
    alloc: Global,
    table: &[Reg],
    to: u32,
    of: u32,
    index: &[Oper],
    at: Loc,
) -> Result<Statement, NoMemory>
    ensures { IfOk result (λ s. s ≡
        v.Get (tables.number table.now to) (tables.number table.now of) (tables.opers_of table.now index.now) at) }
{
    Ok(Statement::Get {
        to: number(table, to),
        of: number(table, of),
        index: opers_of(alloc, table, index)?,
        at,
    })
}

/// One element written.
pub fn put(
    alloc: Global,
    table: &[Reg],
    of: u32,
    index: &[Oper],
    value: Oper,
    at: Loc,
) -> Result<Statement, NoMemory>
    ensures { IfOk result (λ s. s ≡ v.Put (tables.number table.now of) (tables.opers_of table.now index.now)
        (tables.oper_of table.now value) at) }
{
    Ok(Statement::Put {
        of: number(table, of),
        index: opers_of(alloc, table, index)?,
        value: oper_of(table, value),
        at,
    })
}

/// A view by subscripts.
pub fn view_of(
    alloc: Global,
    table: &[Reg],
    to: u32,
    of: u32,
    subs: &[CoreSub],
    at: Loc,
) -> Result<Statement, NoMemory>
    ensures { IfOk result (λ s. s ≡ v.ViewOf (tables.number table.now to) (tables.number table.now of)
        (map (tables.sub_of table.now) subs.now) at) }
{
    Ok(Statement::ViewOf {
        to: number(table, to),
        of: number(table, of),
        subs: subs_of(alloc, table, subs)?,
        at,
    })
}

/// A new array.
pub fn fresh(
    alloc: Global,
    table: &[Reg],
    to: u32,
    dims: &[Oper],
    fill: Fill,
    at: Loc,
) -> Result<Statement, NoMemory>
    ensures { IfOk result (λ s. s ≡
        v.Fresh (tables.number table.now to) (tables.opers_of table.now dims.now) fill at) }
{
    Ok(Statement::Fresh {
        to: number(table, to),
        dims: opers_of(alloc, table, dims)?,
        fill,
        at,
    })
}

/// An array store.
pub fn store(
    alloc: Global,
    table: &[Reg],
    of: u32,
    value: Oper,
    at: Loc,
) -> Result<Statement, NoMemory>
    ensures { IfOk result (λ s. s ≡ v.Nest (tables.number table.now of)
        (spec.template (spec.operand_step table.now value ∷ [])) at) }
{
    let steps = store_steps(alloc, table, value)?;
    Ok(Statement::Nest {
        to: number(table, of),
        template: Template { steps },
        at,
    })
}

/// The end of the kernel, with its values.
pub fn return_of(alloc: Global, table: &[Reg], values: &[Oper]) -> Result<Statement, NoMemory>
    ensures { IfOk result (λ s. s ≡ v.Return (map (tables.back_of table.now) values.now)) }
{
    Ok(Statement::Return {
        values: backs_of(alloc, table, values)?,
    })
}

/// The type of a name.
pub fn type_in(names: &[Ty], name: u32) -> Ty
    ensures { result ≡ type_in names.now name }
{
    match names.get(name as usize) {
        Some(ty) => *ty,
        None => (Kind::Int64, 0),
    }
}

/// A new view register of a type. Want of memory also where it would have a number of 2^32 or more.
fn fresh_view(ty: Ty, views: &mut Seq<Ty>) -> Result<u32, NoMemory>
    ensures number { IfOk result (λ view. view ≡ length views.old) }
    ensures added { IfOk result (λ view. views.new ≡ views.old ++ ty ∷ []) }
{
    if views.len() > u32::MAX as usize {
        return Err(NoMemory);
    }
    let view = views.len() as u32;
    views.push(ty)?;
    Ok(view)
}

/// One view register.
fn single(alloc: Global, view: u32) -> Result<Seq<u32>, NoMemory>
    ensures { IfOk result (λ views. views ≡ view ∷ []) }
{
    let mut views = Seq::new(alloc);
    views.push(view)?;
    Ok(views)
}

/// A test that the shapes of the leaves of steps have a broadcast.
fn check_leaves(
    alloc: Global,
    steps: &[TemplateStep],
    at: Loc,
    body: &mut Seq<Statement>,
) -> Result<(), NoMemory>
    ensures { IfOk result (λ u. body.new ≡ body.old ++ checked steps.now at ∷ []) }
{
    let views = leaves(alloc, steps)?;
    body.push(Statement::Check {
        test: Test::Fits,
        views,
        at,
    })?;
    Ok(())
}

/// A new buffer for a view register, filled by steps.
fn fill_like(
    view: u32,
    steps: Seq<TemplateStep>,
    at: Loc,
    alloc: Global,
    body: &mut Seq<Statement>,
) -> Result<(), NoMemory>
    ensures { IfOk result (λ u. body.new ≡ body.old ++ spec.filled_like view steps at) }
{
    let views = leaves(alloc, steps.as_slice())?;
    body.push(Statement::Like {
        to: view,
        views,
        at,
    })?;
    body.push(Statement::Nest {
        to: view,
        template: Template { steps },
        at,
    })?;
    Ok(())
}

/// Whether an operand is a name.
fn names_it(name: u32, x: Oper) -> bool
    ensures { result ≡ spec.names_it name x }
{
    match x {
        Oper::Name(other) => other == name,
        Oper::Int(_) | Oper::Truth(_) => false,
    }
}

/// Whether a name is one of operands.
pub fn is_among(name: u32, args: &[Oper]) -> bool
    ensures { result ≡ list_any (spec.names_it name) args.now }
{
    for x in args {
        if names_it(name, *x) {
            return true;
        }
    }
    false
}

/// The template of an element operation into a register, or into a new one first.
pub fn map_into(
    own: bool,
    ty: Ty,
    to: u32,
    steps: Seq<TemplateStep>,
    at: Loc,
    alloc: Global,
    views: &mut Seq<Ty>,
    body: &mut Seq<Statement>,
) -> Result<(), NoMemory>
    ensures body { IfOk result (λ u.
        body.new ≡ body.old ++ (spec.map_into own ty to steps at (length views.old)).body) }
    ensures views { IfOk result (λ u.
        views.new ≡ views.old ++ (spec.map_into own ty to steps at (length views.old)).fresh) }
{
    check_leaves(alloc, steps.as_slice(), at, body)?;
    if own {
        let view = fresh_view(ty, views)?;
        fill_like(view, steps, at, alloc, body)?;
        body.push(Statement::Same { to, of: view })?;
        Ok(())
    } else {
        fill_like(to, steps, at, alloc, body)
    }
}

/// A test that an array has an element, before its least or its greatest one is asked for.
fn check_some(
    op: RedOp,
    view: u32,
    at: Loc,
    alloc: Global,
    body: &mut Seq<Statement>,
) -> Result<(), NoMemory>
    ensures { IfOk result (λ u. body.new ≡ body.old ++ spec.some_before op view at) }
{
    match op {
        RedOp::Min | RedOp::Max => {
            let views = single(alloc, view)?;
            body.push(Statement::Check {
                test: Test::Filled,
                views,
                at,
            })?;
        }
        RedOp::Sum | RedOp::Prod | RedOp::Any | RedOp::All => {}
    }
    Ok(())
}

/// A reduction of a view register into a scalar one.
pub fn reduce(
    to: u32,
    op: RedOp,
    view: u32,
    at: Loc,
    alloc: Global,
    body: &mut Seq<Statement>,
) -> Result<(), NoMemory>
    ensures { IfOk result (λ u. body.new ≡ body.old ++ reduced to op view at) }
{
    check_some(op, view, at, alloc, body)?;
    let steps = fold_steps(alloc, op, view)?;
    body.push(Statement::Fold {
        to,
        join: join_of(op),
        template: Template { steps },
        at,
    })?;
    Ok(())
}

/// The reductions of a loop, by registers.
fn reductions_of(
    alloc: Global,
    table: &[Reg],
    pairs: &[(Join, u32)],
) -> Result<Seq<(Join, u32)>, NoMemory>
    ensures { IfOk result (λ list. list ≡ map (spec.reduction_of table.now) pairs.now) }
{
    let mut list = Seq::new(alloc);
    for pair in pairs {
        list.push((pair.0, number(table, pair.1)))?;
    }
    Ok(list)
}

/// The operands of a loop: its range, with its place.
#[derive(Clone, Copy)]
pub struct Range {
    pub lo: Oper,
    pub hi: Oper,
    pub step: Oper,
    pub at: Loc,
}

/// The operands of a loop, by registers.
pub fn range_of(table: &[Reg], lo: Oper, hi: Oper, step: Oper, at: Loc) -> Range
    ensures { result ≡ record {
      lo = tables.oper_of table.now lo;
      hi = tables.oper_of table.now hi;
      step = tables.oper_of table.now step;
      at = at;
    } }
{
    Range {
        lo: oper_of(table, lo),
        hi: oper_of(table, hi),
        step: oper_of(table, step),
        at,
    }
}

/// A loop; under a directive a parallel one, with an empty guard and no privates.
pub fn loop_of(
    var: u32,
    range: Range,
    omp: &Option<Seq<(Join, u32)>>,
    body: Seq<Statement>,
    table: &[Reg],
    alloc: Global,
) -> Result<Statement, NoMemory>
    ensures { IfOk result (λ s.
        s ≡ spec.loop_of table.now var range.lo range.hi range.step range.at omp.now body) }
{
    let Range { lo, hi, step, at } = range;
    match omp {
        None => Ok(Statement::For {
            var,
            lo,
            hi,
            step,
            at,
            body,
        }),
        Some(pairs) => {
            let reductions = reductions_of(alloc, table, pairs.as_slice())?;
            Ok(Statement::ParFor {
                var,
                lo,
                hi,
                step,
                at,
                guard: Guard {
                    parts: Seq::new(alloc),
                },
                reductions,
                privates: Seq::new(alloc),
                body,
            })
        }
    }
}
