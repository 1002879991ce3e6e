//! One round of folding: what is known of an instance's names goes into its body.
ghost use Rattle.std.specs.Prelude.{◌≡◌, ◌++◌, IfOk, List, OnOk, map};
ghost use Rattle.eager_rules.specs.declared.program.Core.{Core as AnyCore};
ghost use Rattle.eager_rules.specs.declared.program.Core.TheFolds.{fold-Core};
ghost use Rattle.eager_rules.specs.declared.program.Core.TheVariants as core;
ghost use Rattle.const_fold.specs.Folded as spec;

use crate::copies::add_copy;
use crate::learning::literals;
use crate::literals::{folded, folded_all, known};
use eager_rules::{Core, Instance, Oper, WordOp};
use krn_base::{Join, Loc, NoMemory, ParamType, Seq, Text};
use std::alloc::Global;

/// A statement on scalars; nothing where its literal is known.
fn add_word(
    to: u32,
    op: WordOp,
    args: &[Oper],
    at: Loc,
    table: &[Option<Oper>],
    alloc: Global,
    body: &mut Seq<Core>,
) -> Result<(), NoMemory>
    ensures { OnOk result (body.new ≡ body.old ++ spec.unless_known (spec.known table.now to)
        (core.Word to op (map (spec.folded table.now) args.now) at)) }
{
    if known(table, to).is_none() {
        let args = folded_all(alloc, table, args)?;
        body.push(Core::Word { to, op, args, at })?;
    }
    Ok(())
}

/// A copy of a directive's reductions.
fn copied_pairs(pairs: &Option<Seq<(Join, u32)>>) -> Result<Option<Seq<(Join, u32)>>, NoMemory>
    ensures { IfOk result (λ copy. copy ≡ pairs.now) }
{
    match pairs {
        None => Ok(None),
        Some(pairs) => Ok(Some(pairs.try_copy()?)),
    }
}

/// The statements of a block behind others, with the literals of their operands.
#[cycle(fold)]
fn fold_all(
    block: &[Core],
    table: &[Option<Oper>],
    alloc: Global,
    body: &mut Seq<Core>,
) -> Result<(), NoMemory>
    ensures { OnOk result (body.new ≡ body.old ++ spec.folded_block table.now block.now) }
{
    for core in block {
        fold(core, table, alloc, body)?;
    }
    Ok(())
}

/// The statements of a block as a list of their own.
#[cycle(fold)]
fn folded_block(
    block: &[Core],
    table: &[Option<Oper>],
    alloc: Global,
) -> Result<Seq<Core>, NoMemory>
    ensures { IfOk result (λ part. part ≡ spec.folded_block table.now block.now) }
{
    let mut part = Seq::new(alloc);
    fold_all(block, table, alloc, &mut part)?;
    Ok(part)
}

/// What stands for a statement, behind others.
#[cycle(fold)]
fn fold(
    core: &Core,
    table: &[Option<Oper>],
    alloc: Global,
    body: &mut Seq<Core>,
) -> Result<(), NoMemory>
    ensures { OnOk result (body.new ≡
        body.old ++ fold-Core (List AnyCore) (spec.fold_step table.now) core.now) }
{
    match core {
        Core::Word { to, op, args, at } => {
            add_word(*to, *op, args.as_slice(), *at, table, alloc, body)
        }
        Core::If { cond, yes, no } => {
            fold_if(*cond, yes.as_slice(), no.as_slice(), table, alloc, body)
        }
        Core::For {
            var,
            lo,
            hi,
            step,
            at,
            omp,
            body: inner,
        } => {
            let omp = copied_pairs(omp)?;
            let inner = folded_block(inner.as_slice(), table, alloc)?;
            body.push(Core::For {
                var: *var,
                lo: folded(table, *lo),
                hi: folded(table, *hi),
                step: folded(table, *step),
                at: *at,
                omp,
                body: inner,
            })?;
            Ok(())
        }
        _ => add_copy(core, table, alloc, body),
    }
}

/// An `If`, or its part where its condition is a literal.
#[cycle(fold)]
fn fold_if(
    cond: Oper,
    yes: &[Core],
    no: &[Core],
    table: &[Option<Oper>],
    alloc: Global,
    body: &mut Seq<Core>,
) -> Result<(), NoMemory>
    ensures { OnOk result (body.new ≡ body.old ++ spec.if_or_part (spec.folded table.now cond)
        (spec.folded_block table.now yes.now) (spec.folded_block table.now no.now)) }
{
    match folded(table, cond) {
        Oper::Truth(true) => fold_all(yes, table, alloc, body),
        Oper::Truth(false) => fold_all(no, table, alloc, body),
        cond => {
            let yes = folded_block(yes, table, alloc)?;
            let no = folded_block(no, table, alloc)?;
            body.push(Core::If { cond, yes, no })?;
            Ok(())
        }
    }
}

/// A copy of parameters.
fn copied_params(
    alloc: Global,
    params: &[(Text, ParamType)],
) -> Result<Seq<(Text, ParamType)>, NoMemory>
    ensures { IfOk result (λ copies. copies ≡ params.now) }
{
    let mut copies = Seq::new(alloc);
    for param in params {
        copies.push((param.0.try_copy()?, param.1))?;
    }
    Ok(copies)
}

/// An instance after one round. Takes time linear in it.
pub fn round(alloc: Global, f: &Instance) -> Result<Instance, NoMemory>
    ensures { IfOk result (λ g. g ≡ spec.round f.now) }
{
    let table = literals(alloc, f)?;
    let body = folded_block(f.body.as_slice(), table.as_slice(), alloc)?;
    Ok(Instance {
        name: f.name.try_copy()?,
        weight: f.weight,
        params: copied_params(alloc, f.params.as_slice())?,
        rets: f.rets.try_copy()?,
        names: f.names.try_copy()?,
        body,
    })
}
