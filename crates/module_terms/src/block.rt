//! The lines of a block.

ghost use Rattle.std.specs.Prelude.{◌≡◌, ◌∷◌, ◌++◌, [], IfOk, OnOk, map, flat_map, Some};
ghost use Rattle.module_terms.specs.Lines as spec;

use crate::build::{append, copy_name, one};
use crate::expression::{term, terms};
use crate::numpy::Numpy;
use crate::statement::{alone, assign, augment, head};
use crate::targets::{Targets, number_at};
use crate::term::Line;
use krn_base::{BinOp, Join, Loc, Seq};
use py_parse::{Expr, Name, Stmt};
use std::alloc::{AllocError, Global};

fn copy_reductions(alloc: Global, pairs: &[(Join, Name)]) -> Result<Seq<(Join, Name)>, AllocError>
    ensures { IfOk result (λ copies. copies ≡ pairs.now) }
{
    let mut copies = Seq::new(alloc);
    for pair in pairs {
        copies.push((pair.0, copy_name(&pair.1)?))?;
    }
    Ok(copies)
}

/// The reductions of the directive whose target is this place.
fn reductions_at(
    alloc: Global,
    at: Loc,
    targets: &Targets<'_>,
) -> Result<Option<Seq<(Join, Name)>>, AllocError>
    ensures { IfOk result (λ found. found ≡ spec.reductions_at at targets.now.directives.now) }
{
    match number_at(targets, at) {
        None => Ok(None),
        Some(n) => match targets.directives.get(n) {
            None => Ok(None),
            Some(directive) => {
                let copies = copy_reductions(alloc, directive.reductions.as_slice())?;
                Ok(Some(copies))
            }
        },
    }
}

fn give(line: Option<Line>, out: &mut Seq<Line>) -> Result<(), AllocError>
    ensures { OnOk result (out.new ≡ out.old ++ spec.given line) }
{
    match line {
        Some(line) => out.push(line),
        None => Ok(()),
    }
}

/// The values of a `return`: those of a tuple, where that is the one value.
fn values_in(values: &[Expr]) -> &[Expr]
    ensures { result.now ≡ spec.values_in values.now }
{
    match values {
        [Expr::Tuple(_, items)] => items.as_slice(),
        _ => values,
    }
}

fn add_return(
    at: Loc,
    values: &[Expr],
    numpy: &Numpy<'_>,
    out: &mut Seq<Line>,
) -> Result<(), AllocError>
    ensures { OnOk result (out.new ≡ out.old ++ spec.returned numpy.now.imports.now at values.now) }
{
    let values = terms(values_in(values), numpy)?;
    out.push(Line::Return(at, values))
}

fn add_alone(x: &Expr, numpy: &Numpy<'_>, out: &mut Seq<Line>) -> Result<(), AllocError>
    ensures { OnOk result (out.new ≡ out.old ++ spec.alone_line numpy.now.imports.now x.now) }
{
    let line = alone(term(x, numpy)?);
    give(line, out)
}

fn add_assign(
    target: &Expr,
    at: Loc,
    value: &Expr,
    numpy: &Numpy<'_>,
    out: &mut Seq<Line>,
) -> Result<(), AllocError>
    ensures { OnOk result (out.new ≡ out.old ++ spec.assigned numpy.now.imports.now target.now at value.now) }
{
    let target = term(target, numpy)?;
    let value = term(value, numpy)?;
    give(assign(target, at, value), out)
}

fn add_augment(
    target: &Expr,
    op: BinOp,
    at: Loc,
    value: &Expr,
    numpy: &Numpy<'_>,
    out: &mut Seq<Line>,
) -> Result<(), AllocError>
    ensures { OnOk result (out.new ≡ out.old ++ spec.augmented numpy.now.imports.now target.now op at value.now) }
{
    let target = term(target, numpy)?;
    let value = term(value, numpy)?;
    give(augment(target, op, at, value), out)
}

/// The lines of a statement, behind those before it.
#[cycle(statements)]
fn add_lines(
    statement: &Stmt,
    numpy: &Numpy<'_>,
    targets: &Targets<'_>,
    out: &mut Seq<Line>,
) -> Result<(), AllocError>
    ensures { OnOk result (out.new ≡ out.old
        ++ spec.lines numpy.now.imports.now targets.now.directives.now statement.now) }
{
    match statement {
        Stmt::Doc => Ok(()),
        Stmt::Pass => Ok(()),
        Stmt::Return(at, values) => add_return(*at, values.as_slice(), numpy, out),
        Stmt::Alone(x) => add_alone(x, numpy, out),
        Stmt::Assign(target, at, value) => add_assign(target, *at, value, numpy, out),
        Stmt::Augment(target, op, at, value) => add_augment(target, *op, *at, value, numpy, out),
        Stmt::If(arms, otherwise) => add_if(
            arms.as_slice(),
            otherwise.as_slice(),
            numpy,
            targets,
            out,
        ),
        Stmt::For(at, var, over, body) => add_loop(
            body.as_slice(),
            *at,
            var,
            over,
            numpy,
            targets,
            out,
        ),
    }
}

#[cycle(statements)]
fn add_loop(
    body: &[Stmt],
    at: Loc,
    var: &Name,
    over: &Expr,
    numpy: &Numpy<'_>,
    targets: &Targets<'_>,
    out: &mut Seq<Line>,
) -> Result<(), AllocError>
    ensures { OnOk result (out.new ≡ out.old ++ spec.looped numpy.now.imports.now targets.now.directives.now at var.now
        over.now (spec.block numpy.now.imports.now targets.now.directives.now body.now)) }
{
    let over = term(over, numpy)?;
    let omp = reductions_at(numpy.alloc, at, targets)?;
    let head = head(numpy.alloc, at, copy_name(var)?, over, omp);
    let body = block(body, numpy, targets)?;
    out.push(Line::For(head, body))
}

#[cycle(statements)]
fn add_if(
    arms: &[(Loc, Expr, Seq<Stmt>)],
    otherwise: &[Stmt],
    numpy: &Numpy<'_>,
    targets: &Targets<'_>,
    out: &mut Seq<Line>,
) -> Result<(), AllocError>
    ensures { OnOk result (out.new ≡ out.old ++ spec.branches numpy.now.imports.now
        (map (spec.arm numpy.now.imports.now targets.now.directives.now) arms.now)
        (spec.block numpy.now.imports.now targets.now.directives.now otherwise.now)) }
{
    let no = block(otherwise, numpy, targets)?;
    let lines = branches(arms, no, numpy, targets)?;
    append(out, lines)
}

/// An `if` and each `elif`, from the last one to the first, the others being what it does else.
#[cycle(statements)]
fn branches(
    arms: &[(Loc, Expr, Seq<Stmt>)],
    otherwise: Seq<Line>,
    numpy: &Numpy<'_>,
    targets: &Targets<'_>,
) -> Result<Seq<Line>, AllocError>
    ensures { IfOk result (λ lines. lines ≡ spec.branches numpy.now.imports.now
        (map (spec.arm numpy.now.imports.now targets.now.directives.now) arms.now) otherwise) }
{
    let mut no = otherwise;
    for back in 0..arms.len() {
        let at = arms.len() - 1 - back;
        let arm = &arms[at];
        let condition = term(&arm.1, numpy)?;
        let yes = block(arm.2.as_slice(), numpy, targets)?;
        no = one(numpy.alloc, Line::If(arm.0, condition, yes, no))?;
    }
    Ok(no)
}

/// The lines of a block.
#[cycle(statements)]
pub fn block(
    statements: &[Stmt],
    numpy: &Numpy<'_>,
    targets: &Targets<'_>,
) -> Result<Seq<Line>, AllocError>
    ensures { IfOk result (λ lines. lines
        ≡ spec.block numpy.now.imports.now targets.now.directives.now statements.now) }
{
    let mut out = Seq::new(numpy.alloc);
    for statement in statements {
        add_lines(statement, numpy, targets, &mut out)?;
    }
    Ok(out)
}
