//! The walk through the statements of a function.
//!
//! Each statement is met once, with the names that each path to it has bound. A block that may be skipped takes back at
//! its end what it bound, so each takes time in its own size alone.

ghost use Rattle.std.specs.Prelude.{◌≡◌, ◌++◌, IfOk, OnOk};
ghost use Rattle.module_names.specs.Listing.{name_in};
ghost use Rattle.module_names.specs.Nodes as kind;
ghost use Rattle.module_names.specs.Places.{soonest};
ghost use Rattle.use_def.specs.Flows as spec;
ghost use Rattle.use_def.specs.Sets.{assigned, outside, marked, AreBack, common_set};

use crate::names::{
    Common, Names, begin_block, bind, end_block, end_paths, join, meet, no_names, no_parts,
};
use crate::reads::{reads, values_reads};
use krn_base::{Loc, Seq};
use module_names::{Role, Words, name_in};
use py_parse::{Expr, Function, Name, Stmt};
use std::alloc::{AllocError, Global};

/// Binds the name that a target is.
fn bind_target<'a>(target: &'a Expr, names: &mut Names<'a>) -> Result<(), AllocError>
    ensures assigned { OnOk result (assigned names.new ≡ spec.with_target (name_in target.now) (assigned names.old)) }
    ensures outside { OnOk result (outside names.new ≡ outside names.old) }
{
    match name_in(target) {
        Some(name) => bind(names, name.text.as_slice()),
        None => Ok(()),
    }
}

/// The first of the reads so far of unassigned names, with those of an assignment, which binds its name last.
fn assignment<'a>(
    alloc: Global,
    words: &Words<'_>,
    target: &'a Expr,
    value: &'a Expr,
    names: &mut Names<'a>,
    first: Option<Loc>,
) -> Result<Option<Loc>, AllocError>
    ensures first { IfOk result (λ least. least ≡ soonest first (
        spec.reads_marks words.now.tree.now (assigned names.old) kind.Operand value.now
        ++ spec.reads_marks words.now.tree.now (assigned names.old) kind.Assigned target.now)) }
    ensures assigned { OnOk result (assigned names.new ≡ spec.with_target (name_in target.now) (assigned names.old)) }
    ensures outside { OnOk result (outside names.new ≡ outside names.old) }
{
    let first = reads(alloc, words, value, Role::Operand, names, first)?;
    let first = reads(alloc, words, target, Role::Assigned, names, first)?;
    bind_target(target, names)?;
    Ok(first)
}

/// The same with an augmented assignment, which reads its target first.
fn augmented<'a>(
    alloc: Global,
    words: &Words<'_>,
    target: &'a Expr,
    value: &'a Expr,
    names: &mut Names<'a>,
    first: Option<Loc>,
) -> Result<Option<Loc>, AllocError>
    ensures first { IfOk result (λ least. least ≡ soonest first (
        spec.reads_marks words.now.tree.now (assigned names.old) kind.Updated target.now
        ++ spec.reads_marks words.now.tree.now (assigned names.old) kind.Operand value.now)) }
    ensures assigned { OnOk result (assigned names.new ≡ spec.with_target (name_in target.now) (assigned names.old)) }
    ensures outside { OnOk result (outside names.new ≡ outside names.old) }
{
    let first = reads(alloc, words, target, Role::Updated, names, first)?;
    let first = reads(alloc, words, value, Role::Operand, names, first)?;
    bind_target(target, names)?;
    Ok(first)
}

/// The same with a `return`, which ends each path.
fn returned(
    alloc: Global,
    words: &Words<'_>,
    values: &[Expr],
    names: &mut Names<'_>,
    first: Option<Loc>,
) -> Result<Option<Loc>, AllocError>
    ensures first { IfOk result (λ least. least
        ≡ soonest first (spec.values_marks words.now.tree.now (assigned names.old) values.now)) }
    ensures assigned { OnOk result (assigned names.new ≡ spec.everything) }
    ensures outside { OnOk result (outside names.new ≡ outside names.old) }
{
    let first = values_reads(alloc, words, values, names, first)?;
    end_paths(names);
    Ok(first)
}

/// The same with a statement.
#[cycle(statements)]
fn statement<'a>(
    alloc: Global,
    words: &Words<'_>,
    statement: &'a Stmt,
    names: &mut Names<'a>,
    first: Option<Loc>,
) -> Result<Option<Loc>, AllocError>
    ensures first { IfOk result (λ least. least
        ≡ soonest first ((spec.flow words.now.tree.now statement.now (assigned names.old)).1)) }
    ensures assigned { OnOk result (assigned names.new
        ≡ (spec.flow words.now.tree.now statement.now (assigned names.old)).0) }
    ensures outside { OnOk result (outside names.new ≡ outside names.old) }
{
    match statement {
        Stmt::Doc => Ok(first),
        Stmt::Pass => Ok(first),
        Stmt::Return(_, values) => returned(alloc, words, values.as_slice(), names, first),
        Stmt::Alone(x) => reads(alloc, words, x, Role::Operand, names, first),
        Stmt::Assign(target, _, value) => assignment(alloc, words, target, value, names, first),
        Stmt::Augment(target, _, _, value) => augmented(alloc, words, target, value, names, first),
        Stmt::If(arms, otherwise) => {
            branches(
                alloc,
                words,
                arms.as_slice(),
                otherwise.as_slice(),
                names,
                first,
            )
        }
        Stmt::For(_, variable, over, body) => {
            looped(alloc, words, body.as_slice(), variable, over, names, first)
        }
    }
}

/// The same with statements in a row.
#[cycle(statements)]
fn block<'a>(
    alloc: Global,
    words: &Words<'_>,
    block: &'a [Stmt],
    names: &mut Names<'a>,
    first: Option<Loc>,
) -> Result<Option<Loc>, AllocError>
    ensures first { IfOk result (λ least. least
        ≡ soonest first ((spec.block_flow words.now.tree.now block.now (assigned names.old)).1)) }
    ensures assigned { OnOk result (assigned names.new
        ≡ (spec.block_flow words.now.tree.now block.now (assigned names.old)).0) }
    ensures outside { OnOk result (outside names.new ≡ outside names.old) }
{
    let mut first = first;
    for s in block {
        first = statement(alloc, words, s, names, first)?;
    }
    Ok(first)
}

/// The same with a part of an `if`, behind which the names are what they were.
#[cycle(statements)]
fn part<'a>(
    alloc: Global,
    words: &Words<'_>,
    body: &'a [Stmt],
    names: &mut Names<'a>,
    common: &mut Common<'a>,
    first: Option<Loc>,
) -> Result<Option<Loc>, AllocError>
    ensures first { IfOk result (λ least. least
        ≡ soonest first ((spec.block_flow words.now.tree.now body.now (assigned names.old)).1)) }
    ensures common { OnOk result (common_set (marked names.old) common.new
        ≡ spec.both (common_set (marked names.old) common.old)
        (spec.block_flow words.now.tree.now body.now (assigned names.old)).0) }
    ensures back { OnOk result (AreBack names.old names.new) }
{
    let outer = begin_block(alloc, names);
    let first = block(alloc, words, body, names, first)?;
    meet(alloc, names, common)?;
    end_block(names, outer)?;
    Ok(first)
}

/// The same with the parts of an `if`, each behind the conditions before it. None binds a name for another one.
#[cycle(statements)]
fn branches<'a>(
    alloc: Global,
    words: &Words<'_>,
    arms: &'a [(Loc, Expr, Seq<Stmt>)],
    otherwise: &'a [Stmt],
    names: &mut Names<'a>,
    first: Option<Loc>,
) -> Result<Option<Loc>, AllocError>
    ensures first { IfOk result (λ least. least
        ≡ soonest first ((spec.parts_flow words.now.tree.now arms.now otherwise.now (assigned names.old)).1)) }
    ensures assigned { OnOk result (assigned names.new
        ≡ (spec.parts_flow words.now.tree.now arms.now otherwise.now (assigned names.old)).0) }
    ensures outside { OnOk result (outside names.new ≡ outside names.old) }
{
    let mut first = first;
    let mut common = no_parts();
    for arm in arms {
        first = reads(alloc, words, &arm.1, Role::Operand, names, first)?;
        first = part(alloc, words, arm.2.as_slice(), names, &mut common, first)?;
    }
    first = part(alloc, words, otherwise, names, &mut common, first)?;
    join(names, &common)?;
    Ok(first)
}

/// The same with a loop. Its body may be skipped, so that behind it the names are what they were.
#[cycle(statements)]
fn looped<'a>(
    alloc: Global,
    words: &Words<'_>,
    body: &'a [Stmt],
    variable: &'a Name,
    over: &'a Expr,
    names: &mut Names<'a>,
    first: Option<Loc>,
) -> Result<Option<Loc>, AllocError>
    ensures first { IfOk result (λ least. least
        ≡ soonest first (spec.reads_marks words.now.tree.now (assigned names.old) kind.Iterated over.now
        ++ (spec.block_flow words.now.tree.now body.now (spec.with_name variable.now (assigned names.old))).1)) }
    ensures back { OnOk result (AreBack names.old names.new) }
{
    let first = reads(alloc, words, over, Role::Iterated, names, first)?;
    let outer = begin_block(alloc, names);
    bind(names, variable.text.as_slice())?;
    let first = block(alloc, words, body, names, first)?;
    end_block(names, outer)?;
    Ok(first)
}

fn bind_params<'a>(params: &'a [Name], names: &mut Names<'a>) -> Result<(), AllocError>
    ensures { OnOk result (assigned names.new ≡ spec.with_params params.now (assigned names.old)) }
{
    for param in params {
        bind(names, param.text.as_slice())?;
    }
    Ok(())
}

/// The first of the reads so far of names that some path leaves unassigned, with those of a function.
pub fn in_function(
    alloc: Global,
    words: &Words<'_>,
    function: &Function,
    first: Option<Loc>,
) -> Result<Option<Loc>, AllocError>
    ensures { IfOk result (λ least. least ≡ soonest first (spec.function_marks words.now.tree.now function.now)) }
{
    let mut names = no_names(alloc);
    bind_params(function.params.as_slice(), &mut names)?;
    block(alloc, words, function.body.as_slice(), &mut names, first)
}
