//! Expressions: operands joined by operators.
//!
//! `depth` is how many levels may still open where the rule stands, `row` how many more a row of `not` or signs may
//! open that the rule begins with. A later operand begins a row of its own.

ghost use Rattle.std.specs.Prelude.{◌≡◌, ◌<◌, ◌-◌, IfOk};
ghost use Rattle.py_parse.specs.declared.terminal.Terminal.TheVariants as t;
ghost use Rattle.py_parse.specs.Descent as spec;
ghost use Rattle.py_parse.specs.Levels.{links_at};
ghost use Rattle.py_parse.specs.Parser.{Reads};
ghost use Rattle.py_parse.specs.Trees as trees;

use crate::cursor::Cursor;
use crate::failure::Failure;
use crate::operand::unary;
use crate::terminal::{Terminal, comparison, operator_at};
use crate::tree::Expr;
use krn_base::{BinOp, Boxed, Loc, Seq};
use std::alloc::{AllocError, Global};

/// `|` binds least of the operators between operands.
const LEVELS_OF_OPERATORS: u8 = 6;

/// An expression in which `depth` levels may still open.
#[cycle(expr)]
#[tactic(auto, using(crate::proofs::Rows::expr_is), unfolding(crate::specs::Descent::disjunction))]
pub(crate) fn expr(alloc: Global, tokens: &mut Cursor<'_>, depth: u8) -> Result<Expr, Failure>
    ensures { Reads (spec.expr depth tokens.old) result tokens.new }
{
    let first = conjunction(alloc, tokens, depth)?;
    let more = or_operands(alloc, tokens, depth)?;
    Ok(joined(alloc, false, first, more)?)
}

#[cycle(expr)]
#[tactic(auto, using(crate::proofs::Turn::up), unfolding(crate::specs::Descent::joins, crate::specs::Descent::joins_n))]
fn or_operands(
    alloc: Global,
    tokens: &mut Cursor<'_>,
    depth: u8,
) -> Result<Seq<(Loc, Expr)>, Failure>
    ensures { Reads (spec.joins t.Or (spec.conjunction (spec.inside depth) depth) tokens.old) result tokens.new }
{
    let mut found = Vec::new(alloc);
    for _turn in 0..tokens.left() {
        if !tokens.sees(Terminal::Or) {
            return Ok(Seq::from_vec(found));
        }
        let loc = tokens.take();
        let operand = conjunction(alloc, tokens, depth)?;
        found.push((loc, operand))?;
    }
    Ok(Seq::from_vec(found))
}

#[cycle(expr)]
#[tactic(auto, unfolding(crate::specs::Descent::conjunction))]
fn conjunction(alloc: Global, tokens: &mut Cursor<'_>, depth: u8) -> Result<Expr, Failure>
    ensures { Reads (spec.conjunction (spec.inside depth) depth tokens.old) result tokens.new }
{
    let first = inverted(alloc, tokens, depth, depth)?;
    let more = and_operands(alloc, tokens, depth)?;
    Ok(joined(alloc, true, first, more)?)
}

#[cycle(expr)]
#[tactic(auto, using(crate::proofs::Turn::up), unfolding(crate::specs::Descent::joins, crate::specs::Descent::joins_n))]
fn and_operands(
    alloc: Global,
    tokens: &mut Cursor<'_>,
    depth: u8,
) -> Result<Seq<(Loc, Expr)>, Failure>
    ensures { Reads (spec.joins t.And (spec.inverted (spec.inside depth) depth depth) tokens.old) result tokens.new }
{
    let mut found = Vec::new(alloc);
    for _turn in 0..tokens.left() {
        if !tokens.sees(Terminal::And) {
            return Ok(Seq::from_vec(found));
        }
        let loc = tokens.take();
        let operand = inverted(alloc, tokens, depth, depth)?;
        found.push((loc, operand))?;
    }
    Ok(Seq::from_vec(found))
}

// One operand makes no node.
#[tactic(auto, unfolding(crate::specs::Trees::joined))]
fn joined(
    alloc: Global,
    conjunction: bool,
    first: Expr,
    more: Seq<(Loc, Expr)>,
) -> Result<Expr, AllocError>
    ensures { IfOk result (λ x. x ≡ trees.joined conjunction first more) }
{
    if more.as_slice().is_empty() {
        Ok(first)
    } else {
        Ok(Expr::Logic(conjunction, Boxed::new(alloc, first)?, more))
    }
}

#[cycle(expr)]
#[tactic(auto, using(crate::proofs::Rows::inverted_rows))]
fn inverted(alloc: Global, tokens: &mut Cursor<'_>, depth: u8, row: u8) -> Result<Expr, Failure>
    ensures { Reads (spec.inverted (spec.inside depth) depth row tokens.old) result tokens.new }
{
    match tokens.kind() {
        Terminal::Not => {
            if row == 0 {
                return Err(Failure::Refused);
            }
            let loc = tokens.take();
            let operand = inverted(alloc, tokens, depth, row - 1)?;
            Ok(Expr::Not(loc, Boxed::new(alloc, operand)?))
        }
        _ => compared(alloc, tokens, depth, row),
    }
}

/// One comparison at most.
#[cycle(expr)]
#[tactic(auto, unfolding(crate::specs::Descent::compared))]
fn compared(alloc: Global, tokens: &mut Cursor<'_>, depth: u8, row: u8) -> Result<Expr, Failure>
    ensures { Reads (spec.compared (spec.inside depth) depth row tokens.old) result tokens.new }
{
    let first = chain(alloc, tokens, depth, LEVELS_OF_OPERATORS, row)?;
    let Some(op) = comparison(tokens.kind()) else {
        return Ok(first);
    };
    let loc = tokens.take();
    let second = chain(alloc, tokens, depth, LEVELS_OF_OPERATORS, depth)?;
    let mut links = Vec::new(alloc);
    links.push((op, loc, second))?;
    Ok(Expr::Chain(Boxed::new(alloc, first)?, Seq::from_vec(links)))
}

/// Operands joined by the operators of a level and below.
#[cycle(expr)]
#[tactic(auto, using(crate::proofs::Rows::chain_zero, crate::proofs::Rows::chain_suc))]
fn chain(
    alloc: Global,
    tokens: &mut Cursor<'_>,
    depth: u8,
    level: u8,
    row: u8,
) -> Result<Expr, Failure>
    ensures { Reads (spec.chain (spec.inside depth) depth level row tokens.old) result tokens.new }
{
    if level == 0 {
        return unary(alloc, tokens, depth, row);
    }
    let first = chain(alloc, tokens, depth, level - 1, row)?;
    let more = links(alloc, tokens, depth, level)?;
    Ok(chained(alloc, first, more)?)
}

#[cycle(expr)]
#[tactic(auto, using(crate::proofs::Turn::up), unfolding(crate::specs::Descent::links, crate::specs::Descent::links_n))]
fn links(
    alloc: Global,
    tokens: &mut Cursor<'_>,
    depth: u8,
    level: u8,
) -> Result<Seq<(BinOp, Loc, Expr)>, Failure>
    requires { 0 < level }
    ensures { Reads (links_at level depth tokens.old) result tokens.new }
{
    let mut found = Vec::new(alloc);
    for _turn in 0..tokens.left() {
        let Some(op) = operator_at(level, tokens.kind()) else {
            return Ok(Seq::from_vec(found));
        };
        let loc = tokens.take();
        let operand = chain(alloc, tokens, depth, level - 1, depth)?;
        found.push((op, loc, operand))?;
    }
    Ok(Seq::from_vec(found))
}

// One operand makes no node.
#[tactic(auto, unfolding(crate::specs::Trees::chained))]
fn chained(alloc: Global, first: Expr, more: Seq<(BinOp, Loc, Expr)>) -> Result<Expr, AllocError>
    ensures { IfOk result (λ x. x ≡ trees.chained first more) }
{
    if more.as_slice().is_empty() {
        Ok(first)
    } else {
        Ok(Expr::Chain(Boxed::new(alloc, first)?, more))
    }
}
