//! Statements that stand on one line.

ghost use Rattle.py_parse.specs.Blocks as spec;
ghost use Rattle.py_parse.specs.Descent.{expr};
ghost use Rattle.py_parse.specs.Parser.{Reads, kind};

use crate::cursor::Cursor;
use crate::expr::expr;
use crate::failure::Failure;
use crate::operand::{expressions, trailed, trailers};
use crate::terminal::{Terminal, augmented};
use crate::tree::{Expr, Stmt};
use krn_base::Loc;
use std::alloc::Global;

// What follows a target, which ends before `loc`.
fn stored_by(
    alloc: Global,
    tokens: &mut Cursor<'_>,
    target: Expr,
    loc: Loc,
    depth: u8,
) -> Result<Stmt, Failure>
    ensures { Reads (spec.stored_by (expr depth) target loc (kind tokens.old) tokens.old) result tokens.new }
{
    if tokens.kind() == Terminal::Assign {
        tokens.take();
        let value = expr(alloc, tokens, depth)?;
        return Ok(Stmt::Assign(target, loc, value));
    }
    let Some(op) = augmented(tokens.kind()) else {
        return Ok(Stmt::Alone(target));
    };
    tokens.take();
    let value = expr(alloc, tokens, depth)?;
    Ok(Stmt::Augment(target, op, loc, value))
}

// An expression that begins with a name, alone or the target of an assignment.
#[tactic(auto, unfolding(crate::specs::Blocks::stored))]
fn stored(alloc: Global, tokens: &mut Cursor<'_>, depth: u8) -> Result<Stmt, Failure>
    ensures { Reads (spec.stored depth tokens.old) result tokens.new }
{
    let first = Expr::Name(tokens.take_name(alloc)?);
    let more = trailers(alloc, tokens, depth)?;
    let target = trailed(alloc, first, more)?;
    let loc = tokens.loc();
    stored_by(alloc, tokens, target, loc, depth)
}

#[tactic(auto, unfolding(crate::specs::Blocks::returned))]
fn returned(alloc: Global, tokens: &mut Cursor<'_>, depth: u8) -> Result<Stmt, Failure>
    ensures { Reads (spec.returned depth tokens.old) result tokens.new }
{
    let loc = tokens.take();
    let values = expressions(alloc, tokens, depth, Terminal::Newline, Vec::new(alloc))?;
    Ok(Stmt::Return(loc, values))
}

#[tactic(auto, unfolding(crate::specs::Blocks::simple))]
fn simple(alloc: Global, tokens: &mut Cursor<'_>, depth: u8) -> Result<Stmt, Failure>
    ensures { Reads (spec.simple depth tokens.old) result tokens.new }
{
    match tokens.kind() {
        Terminal::Text => {
            tokens.take();
            Ok(Stmt::Doc)
        }
        Terminal::Pass => {
            tokens.take();
            Ok(Stmt::Pass)
        }
        Terminal::Return => returned(alloc, tokens, depth),
        Terminal::Name => stored(alloc, tokens, depth),
        _ => Err(Failure::Refused),
    }
}

/// A statement and the end of its line.
#[tactic(auto, unfolding(crate::specs::Blocks::line))]
pub fn line(alloc: Global, tokens: &mut Cursor<'_>, depth: u8) -> Result<Stmt, Failure>
    ensures { Reads (spec.line depth tokens.old) result tokens.new }
{
    let statement = simple(alloc, tokens, depth)?;
    tokens.expect(Terminal::Newline)?;
    Ok(statement)
}
