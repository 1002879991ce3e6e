//! Statements and the blocks that they hold.

ghost use Rattle.std.specs.Prelude.{[], ◌∷◌};
ghost use Rattle.py_parse.specs.declared.terminal.Terminal.TheVariants as t;
ghost use Rattle.py_parse.specs.Blocks as spec;
ghost use Rattle.py_parse.specs.BlockLevels.{Deepens};
ghost use Rattle.py_parse.specs.Parser.{Reads, until};

use crate::cursor::Cursor;
use crate::expr::expr;
use crate::failure::Failure;
use crate::line::line;
use crate::terminal::Terminal;
use crate::tree::{Expr, Stmt};
use krn_base::{Loc, Seq};
use std::alloc::Global;

/// How many levels may still open one level further in.
#[tactic(auto, using(crate::proofs::BlockLevelLaws::inside, crate::proofs::BlockLevelLaws::inmost))]
fn deeper(depth: u8) -> Result<u8, Failure>
    ensures { Deepens depth result }
{
    if depth == 0 {
        Err(Failure::Refused)
    } else {
        Ok(depth - 1)
    }
}

// The statements of a block up to its Dedent, after the first.
#[cycle(blocks)]
#[tactic(auto, using(crate::proofs::Turn::up), unfolding(crate::specs::Parser::until, crate::specs::Parser::until_n))]
fn statements_from(
    alloc: Global,
    tokens: &mut Cursor<'_>,
    first: Stmt,
    depth: u8,
) -> Result<Seq<Stmt>, Failure>
    ensures { Reads (until t.Dedent (spec.stmt depth) (first ∷ []) tokens.old) result tokens.new }
{
    let mut found = Vec::new(alloc);
    found.push(first)?;
    for _turn in 0..tokens.left() + 1 {
        if tokens.sees(Terminal::Dedent) {
            return Ok(Seq::from_vec(found));
        }
        let statement = stmt(alloc, tokens, depth)?;
        found.push(statement)?;
    }
    Err(Failure::Refused)
}

// The statements of an indented block.
#[cycle(blocks)]
#[tactic(auto, unfolding(crate::specs::Blocks::statements))]
fn statements(alloc: Global, tokens: &mut Cursor<'_>, depth: u8) -> Result<Seq<Stmt>, Failure>
    ensures { Reads (spec.statements (spec.stmt depth) tokens.old) result tokens.new }
{
    tokens.expect(Terminal::Indent)?;
    let first = stmt(alloc, tokens, depth)?;
    let found = statements_from(alloc, tokens, first, depth)?;
    tokens.expect(Terminal::Dedent)?;
    Ok(found)
}

/// What stands behind a colon: one line, or an indented block one level further in.
#[cycle(blocks)]
#[tactic(auto, using(crate::proofs::BlockLevelLaws::block_is), unfolding(crate::specs::Blocks::block_with))]
pub fn block(alloc: Global, tokens: &mut Cursor<'_>, depth: u8) -> Result<Seq<Stmt>, Failure>
    ensures { Reads (spec.block depth tokens.old) result tokens.new }
{
    if tokens.kind() == Terminal::Newline {
        tokens.take();
        let inner = deeper(depth)?;
        return statements(alloc, tokens, inner);
    }
    let mut found = Vec::new(alloc);
    let statement = line(alloc, tokens, depth)?;
    found.push(statement)?;
    Ok(Seq::from_vec(found))
}

// The place, the condition and the block of an `if` or `elif`.
#[cycle(blocks)]
#[tactic(auto, unfolding(crate::specs::Blocks::arm))]
fn arm(alloc: Global, tokens: &mut Cursor<'_>, depth: u8) -> Result<(Loc, Expr, Seq<Stmt>), Failure>
    ensures { Reads (spec.arm depth (spec.block depth) tokens.old) result tokens.new }
{
    let loc = tokens.take();
    let condition = expr(alloc, tokens, depth)?;
    tokens.expect(Terminal::Colon)?;
    let body = block(alloc, tokens, depth)?;
    Ok((loc, condition, body))
}

#[cycle(blocks)]
#[tactic(auto, unfolding(crate::specs::Blocks::otherwise))]
fn otherwise(
    alloc: Global,
    tokens: &mut Cursor<'_>,
    arms: Vec<(Loc, Expr, Seq<Stmt>)>,
    depth: u8,
) -> Result<Stmt, Failure>
    ensures { Reads (spec.otherwise (spec.block depth) arms.items tokens.old) result tokens.new }
{
    tokens.take();
    tokens.expect(Terminal::Colon)?;
    let body = block(alloc, tokens, depth)?;
    Ok(Stmt::If(Seq::from_vec(arms), body))
}

// What follows these arms. An `elif` and all that follows it stand one level further in.
#[cycle(blocks)]
#[tactic(auto, unfolding(crate::specs::Blocks::tail_with, crate::specs::Blocks::elif_with))]
fn tail(
    alloc: Global,
    tokens: &mut Cursor<'_>,
    mut arms: Vec<(Loc, Expr, Seq<Stmt>)>,
    depth: u8,
) -> Result<Stmt, Failure>
    ensures { Reads (spec.tail depth arms.items tokens.old) result tokens.new }
{
    match tokens.kind() {
        Terminal::Elif => {
            let inner = deeper(depth)?;
            let next = arm(alloc, tokens, inner)?;
            arms.push(next)?;
            tail(alloc, tokens, arms, inner)
        }
        Terminal::Else => otherwise(alloc, tokens, arms, depth),
        _ => Ok(Stmt::If(Seq::from_vec(arms), Seq::from_vec(Vec::new(alloc)))),
    }
}

#[cycle(blocks)]
#[tactic(auto, unfolding(crate::specs::Blocks::looped))]
fn looped(alloc: Global, tokens: &mut Cursor<'_>, depth: u8) -> Result<Stmt, Failure>
    ensures { Reads (spec.looped depth (spec.block depth) tokens.old) result tokens.new }
{
    let loc = tokens.take();
    let variable = tokens.name(alloc)?;
    tokens.expect(Terminal::In)?;
    let through = expr(alloc, tokens, depth)?;
    tokens.expect(Terminal::Colon)?;
    let body = block(alloc, tokens, depth)?;
    Ok(Stmt::For(loc, variable, through, body))
}

/// A statement in which so many levels may still open.
#[cycle(blocks)]
#[tactic(auto, unfolding(crate::specs::Blocks::stmt, crate::specs::Blocks::stmt_with))]
fn stmt(alloc: Global, tokens: &mut Cursor<'_>, depth: u8) -> Result<Stmt, Failure>
    ensures { Reads (spec.stmt depth tokens.old) result tokens.new }
{
    match tokens.kind() {
        Terminal::If => {
            let first = arm(alloc, tokens, depth)?;
            let mut arms = Vec::new(alloc);
            arms.push(first)?;
            tail(alloc, tokens, arms, depth)
        }
        Terminal::For => looped(alloc, tokens, depth),
        _ => line(alloc, tokens, depth),
    }
}
