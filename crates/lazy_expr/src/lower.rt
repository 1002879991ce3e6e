// Lowering of blocks: one statement of the core after another.
ghost use Rattle.std.specs.Prelude.{◌≡◌, ◌++◌, ◌∷◌, [], IfOk, length, map};
ghost use Rattle.lazy_expr.specs.Plain as spec;
ghost use Rattle.lazy_expr.specs.Table as tables;

use crate::forms;
use crate::registers::{Ty, number, oper_of};
use crate::template::map_steps;
use array_ops::MapOp;
use eager_rules::{Core, Oper};
use krn_base::{Loc, NoMemory, Seq};
use loop_prog::{Reg, Statement};
use std::alloc::Global;

/// An element operation.
fn lower_map(
    to: u32,
    op: MapOp,
    args: &[Oper],
    at: Loc,
    names: &[Ty],
    table: &[Reg],
    alloc: Global,
    views: &mut Seq<Ty>,
    body: &mut Seq<Statement>,
) -> Result<(), NoMemory>
    ensures body { IfOk result (λ u.
        body.new ≡ body.old ++ (spec.lower_map names.now table.now to op args.now at (length views.old)).body) }
    ensures views { IfOk result (λ u.
        views.new ≡ views.old ++ (spec.lower_map names.now table.now to op args.now at (length views.old)).fresh) }
{
    let steps = map_steps(alloc, table, op, args)?;
    let own = forms::is_among(to, args);
    let ty = forms::type_in(names, to);
    forms::map_into(own, ty, number(table, to), steps, at, alloc, views, body)
}

/// A statement behind those of a list.
fn push(statement: Statement, body: &mut Seq<Statement>) -> Result<(), NoMemory>
    ensures { IfOk result (λ u. body.new ≡ body.old ++ statement ∷ []) }
{
    body.push(statement)?;
    Ok(())
}

/// The statements of a block as a list of their own. Their new view registers stand behind those that there are.
#[cycle(lower)]
pub fn lower_block(
    block: &[Core],
    names: &[Ty],
    table: &[Reg],
    alloc: Global,
    views: &mut Seq<Ty>,
) -> Result<Seq<Statement>, NoMemory>
    ensures body { IfOk result (λ body.
        body ≡ (spec.in_turn (map (spec.plain_of names.now table.now) block.now) (length views.old)).body) }
    ensures views { IfOk result (λ body. views.new ≡ views.old ++
        (spec.in_turn (map (spec.plain_of names.now table.now) block.now) (length views.old)).fresh) }
{
    let mut body = Seq::new(alloc);
    for core in block {
        lower(core, names, table, alloc, views, &mut body)?;
    }
    Ok(body)
}

/// An `If`: the new view registers of its second part stand behind those of the first.
#[cycle(lower)]
fn lower_if(
    cond: Oper,
    yes: &[Core],
    no: &[Core],
    names: &[Ty],
    table: &[Reg],
    alloc: Global,
    views: &mut Seq<Ty>,
) -> Result<Statement, NoMemory>
    ensures statement { IfOk result (λ s. (spec.lower_if cond (map (spec.plain_of names.now table.now) yes.now)
        (map (spec.plain_of names.now table.now) no.now) (length views.old)).body ≡ s ∷ []) }
    ensures views { IfOk result (λ s. views.new ≡ views.old ++
        (spec.lower_if cond (map (spec.plain_of names.now table.now) yes.now)
        (map (spec.plain_of names.now table.now) no.now) (length views.old)).fresh) }
{
    let part = lower_block(yes, names, table, alloc, views)?;
    let other = lower_block(no, names, table, alloc, views)?;
    Ok(Statement::If {
        cond,
        yes: part,
        no: other,
    })
}

/// A statement, behind those of a list.
#[cycle(lower)]
fn lower(
    core: &Core,
    names: &[Ty],
    table: &[Reg],
    alloc: Global,
    views: &mut Seq<Ty>,
    body: &mut Seq<Statement>,
) -> Result<(), NoMemory>
    ensures body { IfOk result (λ u.
        body.new ≡ body.old ++ (spec.plain_of names.now table.now core.now (length views.old)).body) }
    ensures views { IfOk result (λ u.
        views.new ≡ views.old ++ (spec.plain_of names.now table.now core.now (length views.old)).fresh) }
{
    match core {
        Core::Word { to, op, args, at } => {
            push(
                forms::set(alloc, table, *to, *op, args.as_slice(), *at)?,
                body,
            )
        }
        Core::Extent { to, of, axis } => {
            let (to, of) = (number(table, *to), number(table, *of));
            push(
                Statement::Extent {
                    to,
                    of,
                    axis: *axis,
                },
                body,
            )
        }
        Core::Get { to, of, index, at } => {
            push(
                forms::get(alloc, table, *to, *of, index.as_slice(), *at)?,
                body,
            )
        }
        Core::Put {
            of,
            index,
            value,
            at,
        } => push(
            forms::put(alloc, table, *of, index.as_slice(), *value, *at)?,
            body,
        ),
        Core::Pick { to, of, subs, at } => {
            push(
                forms::view_of(alloc, table, *to, *of, subs.as_slice(), *at)?,
                body,
            )
        }
        Core::Flip { to, of } => {
            let (to, of) = (number(table, *to), number(table, *of));
            push(Statement::Flip { to, of }, body)
        }
        Core::Alias { to, of } => {
            let (to, of) = (number(table, *to), number(table, *of));
            push(Statement::Same { to, of }, body)
        }
        Core::Fresh { to, dims, fill, at } => {
            push(
                forms::fresh(alloc, table, *to, dims.as_slice(), *fill, *at)?,
                body,
            )
        }
        Core::Map { to, op, args, at } => {
            lower_map(
                *to,
                *op,
                args.as_slice(),
                *at,
                names,
                table,
                alloc,
                views,
                body,
            )
        }
        Core::Reduce { to, op, of, at } => {
            let (to, of) = (number(table, *to), number(table, *of));
            forms::reduce(to, *op, of, *at, alloc, body)
        }
        Core::Store { of, value, at } => {
            push(forms::store(alloc, table, *of, *value, *at)?, body)
        }
        // An instance without own calls has none.
        Core::Call { .. } => Ok(()),
        Core::If { cond, yes, no } => {
            let cond = oper_of(table, *cond);
            push(
                lower_if(
                    cond,
                    yes.as_slice(),
                    no.as_slice(),
                    names,
                    table,
                    alloc,
                    views,
                )?,
                body,
            )
        }
        Core::For {
            var,
            lo,
            hi,
            step,
            at,
            omp,
            body: inner,
        } => {
            let inner = lower_block(inner.as_slice(), names, table, alloc, views)?;
            let var = number(table, *var);
            let range = forms::range_of(table, *lo, *hi, *step, *at);
            push(forms::loop_of(var, range, omp, inner, table, alloc)?, body)
        }
        Core::Return { values } => {
            push(forms::return_of(alloc, table, values.as_slice())?, body)
        }
    }
}
