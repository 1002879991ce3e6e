// Blocks of statements, and their indentation.
ghost use Rattle.std.specs.Prelude.{◌≡◌, ◌++◌, ◌∷◌, ◌+◌, ◌≤◌, [], true, OnOk};
ghost use Rattle.cpp_print.specs.Statements as spec;
ghost use Rattle.cpp_print.specs.Printable.{block_printable, is_printable_at, templates_are_trees};
ghost use Rattle.std.specs.List.{flat_map};
ghost use Rattle.loop_prog.specs.declared.program.Statement.{out-Statement};

use crate::guards::put_guard;
use crate::names::join_sign;
use crate::output::Output;
use crate::parts::put_call;
use crate::statements::*;
use crate::words::{Part, put_behind, put_listed, put_word_reg};
use eager_rules::Oper;
use krn_base::{Join, Loc, NoMemory};
use loop_prog::{Guard, Reg, Statement};

/// Writes the indentation of a line of a statement that stands in `depth` others.
fn put_indent(out: &mut Output, depth: usize) -> Result<(), NoMemory>
    requires { depth ≤ 130 }
    ensures { OnOk result (out.new ≡ out.old ++ spec.indent depth) }
{
    out.spaces(depth + 1)
}

fn put_reductions(out: &mut Output, reductions: &[(Join, u32)]) -> Result<(), NoMemory>
    ensures { OnOk result (out.new ≡ out.old ++ flat_map spec.reduction_text reductions.now) }
{
    for reduction in reductions {
        put_reduction(out, *reduction)?;
    }
    Ok(())
}

#[tactic(auto, unfolding(crate::specs::Statements::reduction_start))]
fn put_reduction_start(out: &mut Output) -> Result<(), NoMemory>
    ensures { OnOk result (out.new ≡ out.old ++ spec.reduction_start) }
{
    out.put(b" reduction(")
}

fn put_reduction(out: &mut Output, reduction: (Join, u32)) -> Result<(), NoMemory>
    ensures { OnOk result (out.new ≡ out.old ++ spec.reduction_text reduction) }
{
    let (join, r) = reduction;
    put_reduction_start(out)?;
    out.put(join_sign(join))?;
    out.put(b": ")?;
    put_word_reg(out, r)?;
    out.put(b")")
}

#[tactic(auto, unfolding(crate::specs::Statements::pragma_start))]
fn put_pragma_start(out: &mut Output) -> Result<(), NoMemory>
    ensures { OnOk result (out.new ≡ out.old ++ spec.pragma_start) }
{
    out.put(b"#pragma omp parallel for if (")
}

#[tactic(auto, unfolding(crate::specs::Statements::privates_text))]
fn put_privates(out: &mut Output, privates: &[Reg]) -> Result<(), NoMemory>
    ensures { OnOk result (out.new ≡ out.old ++ spec.privates_text privates.now) }
{
    out.put(b" private(")?;
    put_listed(out, privates)?;
    out.put(b")\n")
}

/// Writes the line before a parallel loop.
#[tactic(auto, unfolding(crate::specs::Statements::pragma_text))]
fn put_pragma(
    out: &mut Output,
    guard: &Guard,
    reductions: &[(Join, u32)],
    privates: &[Reg],
) -> Result<(), NoMemory>
    ensures { OnOk result (out.new ≡ out.old ++ spec.pragma_text guard.now reductions.now privates.now) }
{
    put_pragma_start(out)?;
    put_guard(out, guard)?;
    out.put(b")")?;
    put_reductions(out, reductions)?;
    put_privates(out, privates)
}

#[tactic(auto, unfolding(crate::specs::Statements::for_start))]
fn put_for_start(out: &mut Output) -> Result<(), NoMemory>
    ensures { OnOk result (out.new ≡ out.old ++ spec.for_start) }
{
    out.put(b"for (int64_t q : ")
}

/// Writes the line that begins a loop.
#[tactic(auto, unfolding(crate::specs::Statements::range_text))]
fn put_range(out: &mut Output, ends: &[Oper], at: Loc) -> Result<(), NoMemory>
    ensures { OnOk result (out.new ≡ out.old ++ spec.range_text ends.now at) }
{
    put_for_start(out)?;
    put_call(out, b"range", at)?;
    put_behind(out, ends)?;
    out.put(b")) {\n")
}

/// Writes the line that binds the variable of a loop.
#[tactic(auto, unfolding(crate::specs::Statements::turn_text))]
fn put_turn(out: &mut Output, var: u32) -> Result<(), NoMemory>
    ensures { OnOk result (out.new ≡ out.old ++ spec.turn_text var) }
{
    put_word_reg(out, var)?;
    out.put(b" = q;\n")
}

/// Writes the lines of a loop up to its body.
#[tactic(auto, unfolding(crate::specs::Statements::loop_text))]
fn put_loop_start(
    out: &mut Output,
    var: u32,
    ends: &[Oper],
    at: Loc,
    depth: usize,
) -> Result<(), NoMemory>
    requires { depth ≤ 128 }
    ensures { OnOk result (out.new ≡ out.old ++ spec.loop_text var ends.now at depth) }
{
    put_indent(out, depth)?;
    put_range(out, ends, at)?;
    put_indent(out, depth + 1)?;
    put_turn(out, var)
}

/// Writes the line that begins an `If`.
#[tactic(auto, unfolding(crate::specs::Statements::condition_text))]
fn put_condition(out: &mut Output, cond: Oper, depth: usize) -> Result<(), NoMemory>
    requires { depth ≤ 128 }
    ensures { OnOk result (out.new ≡ out.old ++ spec.condition_text cond depth) }
{
    put_indent(out, depth)?;
    out.put(b"if (")?;
    cond.write(out)?;
    out.put(b") {\n")
}

/// Writes the line between the parts of an `If`.
#[tactic(auto, unfolding(crate::specs::Statements::else_text))]
fn put_else(out: &mut Output, depth: usize) -> Result<(), NoMemory>
    requires { depth ≤ 128 }
    ensures { OnOk result (out.new ≡ out.old ++ spec.else_text depth) }
{
    put_indent(out, depth)?;
    out.put(b"} else {\n")
}

/// Writes the line that ends a block.
#[tactic(auto, unfolding(crate::specs::Statements::end_of_block))]
fn put_end(out: &mut Output, depth: usize) -> Result<(), NoMemory>
    requires { depth ≤ 128 }
    ensures { OnOk result (out.new ≡ out.old ++ spec.end_of_block depth) }
{
    put_indent(out, depth)?;
    out.put(b"}\n")
}

/// Writes a statement without blocks, without its indentation.
fn put_simple(out: &mut Output, statement: &Statement) -> Result<(), NoMemory>
    requires { templates_are_trees (out-Statement statement.now) ≡ true }
    ensures { OnOk result (out.new ≡ out.old ++ spec.simple_text (out-Statement statement.now)) }
{
    match statement {
        Statement::Set { to, op, args, at } => put_set(out, *to, *op, args.as_slice(), *at),
        Statement::Extent { to, of, axis } => put_extent_line(out, *to, *of, *axis),
        Statement::Get { to, of, index, at } => put_get(out, *to, *of, index.as_slice(), *at),
        Statement::Put {
            of,
            index,
            value,
            at,
        } => put_put(out, *of, index.as_slice(), *value, *at),
        Statement::ViewOf { to, of, subs, at } => put_view_of(out, *to, *of, subs.as_slice(), *at),
        Statement::Flip { to, of } => put_flip(out, *to, *of),
        Statement::Same { to, of } => put_same(out, *to, *of),
        Statement::Fresh { to, dims, fill, at } => put_fresh(out, *to, dims.as_slice(), *fill, *at),
        Statement::Like { to, views, at } => put_like(out, *to, views.as_slice(), *at),
        Statement::Check { test, views, at } => put_check(out, *test, views.as_slice(), *at),
        Statement::Nest { to, template, at } => put_nest(out, *to, template, *at),
        Statement::Fold {
            to,
            join,
            template,
            at,
        } => put_fold(out, *to, *join, template, *at),
        Statement::Release { view } => put_release(out, *view),
        Statement::Return { values } => put_return(out, values.as_slice()),
        Statement::If { .. } | Statement::For { .. } | Statement::ParFor { .. } => Ok(()),
    }
}

/// Writes the statements of a block, each of which stands in `depth` others.
#[cycle(put)]
pub fn put_block(out: &mut Output, body: &[Statement], depth: usize) -> Result<(), NoMemory>
    requires { block_printable body.now depth ≡ true }
    ensures { OnOk result (out.new ≡ out.old ++ spec.block_text body.now depth) }
{
    for statement in body {
        put_statement(out, statement, depth)?;
    }
    Ok(())
}

#[cycle(put)]
#[tactic(auto, unfolding(crate::specs::Statements::if_text))]
fn put_if(
    out: &mut Output,
    cond: Oper,
    yes: &[Statement],
    no: &[Statement],
    depth: usize,
) -> Result<(), NoMemory>
    requires depth { depth ≤ 128 }
    requires yes { block_printable yes.now (depth + 1) ≡ true }
    requires no { block_printable no.now (depth + 1) ≡ true }
    ensures { OnOk result (out.new ≡ out.old ++
        spec.if_text cond (spec.block_text yes.now (depth + 1)) (spec.block_text no.now (depth + 1)) depth) }
{
    put_condition(out, cond, depth)?;
    put_block(out, yes, depth + 1)?;
    put_else(out, depth)?;
    put_block(out, no, depth + 1)?;
    put_end(out, depth)
}

#[cycle(put)]
#[tactic(auto, unfolding(crate::specs::Statements::for_text))]
fn put_for(
    out: &mut Output,
    var: u32,
    ends: &[Oper],
    at: Loc,
    body: &[Statement],
    depth: usize,
) -> Result<(), NoMemory>
    requires depth { depth ≤ 128 }
    requires body { block_printable body.now (depth + 1) ≡ true }
    ensures { OnOk result (out.new ≡ out.old ++
        spec.for_text var ends.now at (spec.block_text body.now (depth + 1)) depth) }
{
    put_loop_start(out, var, ends, at, depth)?;
    put_block(out, body, depth + 1)?;
    put_end(out, depth)
}

#[cycle(put)]
fn put_statement(out: &mut Output, statement: &Statement, depth: usize) -> Result<(), NoMemory>
    requires { is_printable_at statement.now depth ≡ true }
    ensures { OnOk result (out.new ≡ out.old ++ spec.statement_text statement.now depth) }
{
    match statement {
        Statement::If { cond, yes, no } => {
            put_if(out, *cond, yes.as_slice(), no.as_slice(), depth)
        }
        Statement::For {
            var,
            lo,
            hi,
            step,
            at,
            body,
        } => put_for(out, *var, &[*lo, *hi, *step], *at, body.as_slice(), depth),
        Statement::ParFor {
            var,
            lo,
            hi,
            step,
            at,
            guard,
            reductions,
            privates,
            body,
        } => {
            put_pragma(out, guard, reductions.as_slice(), privates.as_slice())?;
            put_for(out, *var, &[*lo, *hi, *step], *at, body.as_slice(), depth)
        }
        _ => {
            put_indent(out, depth)?;
            put_simple(out, statement)
        }
    }
}
