//! Operands: names, numbers and parentheses, and what stands behind them.
//!
//! `depth` is how many levels may still open where the rule stands.

ghost use Rattle.std.specs.Prelude.{◌≡◌, ◌≤◌, [], IfOk};
ghost use Rattle.py_parse.specs.declared.terminal.Terminal.TheVariants as t;
ghost use Rattle.py_parse.specs.Descent as spec;
ghost use Rattle.py_parse.specs.Levels as levels;
ghost use Rattle.py_parse.specs.Parser as parser;
ghost use Rattle.py_parse.specs.Parser.{Reads};
ghost use Rattle.py_parse.specs.Trees as trees;

use crate::cursor::Cursor;
use crate::expr::expr;
use crate::failure::Failure;
use crate::terminal::{Terminal, sign};
use crate::tree::{Arg, Expr, Sub, Trailer};
use krn_base::{Boxed, Seq};
use std::alloc::{AllocError, Global};

/// How many levels may still open one level further in, if one more may open.
#[tactic(auto, using(crate::proofs::Rows::inside_is))]
fn inside(depth: u8) -> Option<u8>
    ensures { levels.Opens depth result }
{
    depth.checked_sub(1)
}

/// An operand with a row of signs before it, which may have `row` more.
#[cycle(expr)]
#[tactic(auto, using(crate::proofs::Rows::unary_zero, crate::proofs::Rows::unary_suc))]
pub(crate) fn unary(
    alloc: Global,
    tokens: &mut Cursor<'_>,
    depth: u8,
    row: u8,
) -> Result<Expr, Failure>
    ensures { Reads (spec.unary (spec.inside depth) row tokens.old) result tokens.new }
{
    let Some(byte) = sign(tokens.kind()) else {
        // Behind a row that has opened its last level no parenthesis may open.
        let front = if row == 0 { 0 } else { depth };
        return power(alloc, tokens, front, depth);
    };
    if row == 0 {
        return Err(Failure::Refused);
    }
    let loc = tokens.take();
    let operand = unary(alloc, tokens, depth, row - 1)?;
    Ok(Expr::Prefix(byte, loc, Boxed::new(alloc, operand)?))
}

#[cycle(expr)]
#[tactic(auto, unfolding(crate::specs::Descent::power))]
fn power(alloc: Global, tokens: &mut Cursor<'_>, front: u8, depth: u8) -> Result<Expr, Failure>
    requires { front ≤ depth }
    ensures { Reads (spec.power (spec.inside front) (spec.inside depth) tokens.old) result tokens.new }
{
    let base = primary(alloc, tokens, front, depth)?;
    match tokens.kind() {
        Terminal::Power => {
            let loc = tokens.take();
            let exponent = tokens.number()?;
            Ok(Expr::Power(Boxed::new(alloc, base)?, loc, exponent))
        }
        _ => Ok(base),
    }
}

/// An operand and its trailers. `front` is for the parentheses that the operand may begin with, `depth` for the
/// trailers' brackets.
#[cycle(expr)]
#[tactic(auto, unfolding(crate::specs::Descent::primary))]
fn primary(alloc: Global, tokens: &mut Cursor<'_>, front: u8, depth: u8) -> Result<Expr, Failure>
    requires { front ≤ depth }
    ensures { Reads (spec.primary (spec.inside front) (spec.inside depth) tokens.old) result tokens.new }
{
    let first = atom(alloc, tokens, front)?;
    let more = trailers(alloc, tokens, depth)?;
    Ok(trailed(alloc, first, more)?)
}

/// The expression with these trailers behind it.
#[tactic(auto, unfolding(crate::specs::Trees::trailed))]
pub(crate) fn trailed(alloc: Global, first: Expr, more: Seq<Trailer>) -> Result<Expr, AllocError>
    ensures { IfOk result (λ x. x ≡ trees.trailed first more) }
{
    if more.as_slice().is_empty() {
        return Ok(first);
    }
    match first {
        Expr::Primary(head, earlier) => {
            let mut all = earlier.into_vec();
            all.append(&mut more.into_vec())?;
            Ok(Expr::Primary(head, Seq::from_vec(all)))
        }
        other => Ok(Expr::Primary(Boxed::new(alloc, other)?, more)),
    }
}

#[cycle(expr)]
#[tactic(auto, unfolding(crate::specs::Descent::atom))]
fn atom(alloc: Global, tokens: &mut Cursor<'_>, front: u8) -> Result<Expr, Failure>
    ensures { Reads (spec.atom (spec.inside front) tokens.old) result tokens.new }
{
    let loc = tokens.loc();
    match tokens.kind() {
        Terminal::Name => Ok(Expr::Name(tokens.take_name(alloc)?)),
        Terminal::Number => Ok(Expr::Int(tokens.take_value(), loc)),
        Terminal::True => {
            tokens.take();
            Ok(Expr::Truth(true, loc))
        }
        Terminal::False => {
            tokens.take();
            Ok(Expr::Truth(false, loc))
        }
        Terminal::OpenParen => parenthesis(alloc, tokens, front),
        _ => Err(Failure::Refused),
    }
}

#[cycle(expr)]
#[tactic(auto, unfolding(crate::specs::Descent::parenthesis))]
fn parenthesis(alloc: Global, tokens: &mut Cursor<'_>, depth: u8) -> Result<Expr, Failure>
    ensures { Reads (parser.deeper (spec.inside depth) spec.parenthesis tokens.old) result tokens.new }
{
    let Some(inner) = inside(depth) else {
        return Err(Failure::Refused);
    };
    let loc = tokens.take();
    let first = expr(alloc, tokens, inner)?;
    match tokens.kind() {
        Terminal::Comma => {
            tokens.take();
            let mut found = Vec::new(alloc);
            found.push(first)?;
            let elements = expressions(alloc, tokens, inner, Terminal::CloseParen, found)?;
            tokens.expect(Terminal::CloseParen)?;
            Ok(Expr::Tuple(loc, elements))
        }
        _ => {
            tokens.expect(Terminal::CloseParen)?;
            Ok(first)
        }
    }
}

/// What stands behind an operand and belongs to it, up to the first token that begins no such thing.
#[cycle(expr)]
#[tactic(auto, using(crate::proofs::Rows::trailers_turn), unfolding(crate::specs::Descent::trailers))]
pub(crate) fn trailers(
    alloc: Global,
    tokens: &mut Cursor<'_>,
    depth: u8,
) -> Result<Seq<Trailer>, Failure>
    ensures { Reads (spec.trailers (spec.inside depth) tokens.old) result tokens.new }
{
    let mut found = Vec::new(alloc);
    for _turn in 0..tokens.left() {
        let Some(trailer) = trailer(alloc, tokens, depth)? else {
            return Ok(Seq::from_vec(found));
        };
        found.push(trailer)?;
    }
    Ok(Seq::from_vec(found))
}

#[cycle(expr)]
#[tactic(auto, unfolding(crate::specs::Levels::trailer))]
fn trailer(alloc: Global, tokens: &mut Cursor<'_>, depth: u8) -> Result<Option<Trailer>, Failure>
    ensures { Reads (levels.trailer (spec.inside depth) tokens.old) result tokens.new }
{
    match tokens.kind() {
        Terminal::OpenParen => Ok(Some(call(alloc, tokens, depth)?)),
        Terminal::OpenBracket => Ok(Some(pick(alloc, tokens, depth)?)),
        Terminal::Dot => Ok(Some(attribute(alloc, tokens)?)),
        _ => Ok(None),
    }
}

#[cycle(expr)]
#[tactic(auto, unfolding(crate::specs::Descent::call))]
fn call(alloc: Global, tokens: &mut Cursor<'_>, depth: u8) -> Result<Trailer, Failure>
    ensures { Reads (parser.deeper (spec.inside depth) spec.call tokens.old) result tokens.new }
{
    let Some(inner) = inside(depth) else {
        return Err(Failure::Refused);
    };
    let loc = tokens.take();
    let args = args(alloc, tokens, inner)?;
    tokens.expect(Terminal::CloseParen)?;
    Ok(Trailer::Call(loc, args))
}

#[cycle(expr)]
#[tactic(auto, unfolding(crate::specs::Descent::pick))]
fn pick(alloc: Global, tokens: &mut Cursor<'_>, depth: u8) -> Result<Trailer, Failure>
    ensures { Reads (parser.deeper (spec.inside depth) spec.pick tokens.old) result tokens.new }
{
    let Some(inner) = inside(depth) else {
        return Err(Failure::Refused);
    };
    let loc = tokens.take();
    let subs = subscripts(alloc, tokens, inner)?;
    tokens.expect(Terminal::CloseBracket)?;
    Ok(Trailer::Pick(loc, subs))
}

#[tactic(auto, unfolding(crate::specs::Descent::attribute))]
fn attribute(alloc: Global, tokens: &mut Cursor<'_>) -> Result<Trailer, Failure>
    ensures { Reads (spec.attribute tokens.old) result tokens.new }
{
    tokens.take();
    Ok(Trailer::Attr(tokens.name(alloc)?))
}

/// Expressions with commas between them and maybe one behind, after those that were found, up to `close`, which isn't
/// taken.
#[cycle(expr)]
#[tactic(auto, unfolding(crate::specs::Parser::more))]
pub(crate) fn expressions(
    alloc: Global,
    tokens: &mut Cursor<'_>,
    depth: u8,
    close: Terminal,
    found: Vec<Expr>,
) -> Result<Seq<Expr>, Failure>
    ensures { Reads (parser.more close (spec.expr depth) found.items tokens.old) result tokens.new }
{
    if tokens.sees(close) {
        Ok(Seq::from_vec(found))
    } else {
        some_expressions(alloc, tokens, depth, close, found)
    }
}

#[cycle(expr)]
#[tactic(auto, using(crate::proofs::Turn::up), unfolding(crate::specs::Parser::some, crate::specs::Parser::some_from))]
fn some_expressions(
    alloc: Global,
    tokens: &mut Cursor<'_>,
    depth: u8,
    close: Terminal,
    mut found: Vec<Expr>,
) -> Result<Seq<Expr>, Failure>
    ensures { Reads (parser.some close (spec.expr depth) found.items tokens.old) result tokens.new }
{
    for _turn in 0..tokens.left() + 1 {
        found.push(expr(alloc, tokens, depth)?)?;
        if !tokens.comma() {
            return Ok(Seq::from_vec(found));
        }
        if tokens.sees(close) {
            return Ok(Seq::from_vec(found));
        }
    }
    Err(Failure::Refused)
}

#[cycle(expr)]
#[tactic(auto, unfolding(crate::specs::Parser::more))]
fn args(alloc: Global, tokens: &mut Cursor<'_>, depth: u8) -> Result<Seq<Arg>, Failure>
    ensures { Reads (parser.more t.CloseParen (spec.arg (spec.expr depth)) [] tokens.old) result tokens.new }
{
    if tokens.sees(Terminal::CloseParen) {
        Ok(Seq::from_vec(Vec::new(alloc)))
    } else {
        some_args(alloc, tokens, depth)
    }
}

#[cycle(expr)]
#[tactic(auto, using(crate::proofs::Turn::up), unfolding(crate::specs::Parser::some, crate::specs::Parser::some_from))]
fn some_args(alloc: Global, tokens: &mut Cursor<'_>, depth: u8) -> Result<Seq<Arg>, Failure>
    ensures { Reads (parser.some t.CloseParen (spec.arg (spec.expr depth)) [] tokens.old) result tokens.new }
{
    let mut found = Vec::new(alloc);
    for _turn in 0..tokens.left() + 1 {
        found.push(arg(alloc, tokens, depth)?)?;
        if !tokens.comma() {
            return Ok(Seq::from_vec(found));
        }
        if tokens.sees(Terminal::CloseParen) {
            return Ok(Seq::from_vec(found));
        }
    }
    Err(Failure::Refused)
}

#[cycle(expr)]
#[tactic(auto, unfolding(crate::specs::Descent::arg))]
fn arg(alloc: Global, tokens: &mut Cursor<'_>, depth: u8) -> Result<Arg, Failure>
    ensures { Reads (spec.arg (spec.expr depth) tokens.old) result tokens.new }
{
    let first = expr(alloc, tokens, depth)?;
    match tokens.kind() {
        Terminal::Assign => {
            tokens.take();
            let value = expr(alloc, tokens, depth)?;
            Ok(Arg {
                key: Some(first),
                value,
            })
        }
        _ => Ok(Arg {
            key: None,
            value: first,
        }),
    }
}

#[cycle(expr)]
#[tactic(auto, using(crate::proofs::Turn::up), unfolding(crate::specs::Parser::some, crate::specs::Parser::some_from))]
fn subscripts(alloc: Global, tokens: &mut Cursor<'_>, depth: u8) -> Result<Seq<Sub>, Failure>
    ensures { Reads (parser.some t.CloseBracket (spec.subscript (spec.expr depth)) [] tokens.old) result tokens.new }
{
    let mut found = Vec::new(alloc);
    for _turn in 0..tokens.left() + 1 {
        found.push(subscript(alloc, tokens, depth)?)?;
        if !tokens.comma() {
            return Ok(Seq::from_vec(found));
        }
        if tokens.sees(Terminal::CloseBracket) {
            return Ok(Seq::from_vec(found));
        }
    }
    Err(Failure::Refused)
}

#[cycle(expr)]
#[tactic(auto, unfolding(crate::specs::Descent::subscript, crate::specs::Descent::subscript_from))]
fn subscript(alloc: Global, tokens: &mut Cursor<'_>, depth: u8) -> Result<Sub, Failure>
    ensures { Reads (spec.subscript (spec.expr depth) tokens.old) result tokens.new }
{
    match tokens.kind() {
        Terminal::Colon => cut(alloc, tokens, depth, None),
        _ => subscript_from(alloc, tokens, depth),
    }
}

/// A subscript that begins with an expression.
#[cycle(expr)]
#[tactic(auto, unfolding(crate::specs::Descent::subscript_from))]
fn subscript_from(alloc: Global, tokens: &mut Cursor<'_>, depth: u8) -> Result<Sub, Failure>
    ensures { Reads (spec.subscript_from (spec.expr depth) tokens.old) result tokens.new }
{
    let first = expr(alloc, tokens, depth)?;
    match tokens.kind() {
        Terminal::Colon => cut(alloc, tokens, depth, Some(first)),
        _ => Ok(Sub::At(first)),
    }
}

/// A slice from its first colon on.
#[cycle(expr)]
#[tactic(auto, unfolding(crate::specs::Descent::cut))]
fn cut(
    alloc: Global,
    tokens: &mut Cursor<'_>,
    depth: u8,
    start: Option<Expr>,
) -> Result<Sub, Failure>
    ensures { Reads (spec.cut (spec.expr depth) start tokens.old) result tokens.new }
{
    tokens.expect(Terminal::Colon)?;
    let stop = bound(alloc, tokens, depth)?;
    let step = step(alloc, tokens, depth)?;
    Ok(Sub::Cut(start, stop, step))
}

/// An expression, or none before what ends a bound.
#[cycle(expr)]
#[tactic(auto, unfolding(crate::specs::Descent::bound))]
fn bound(alloc: Global, tokens: &mut Cursor<'_>, depth: u8) -> Result<Option<Expr>, Failure>
    ensures { Reads (spec.bound (spec.expr depth) tokens.old) result tokens.new }
{
    match tokens.kind() {
        Terminal::Colon | Terminal::Comma | Terminal::CloseBracket => Ok(None),
        _ => Ok(Some(expr(alloc, tokens, depth)?)),
    }
}

#[cycle(expr)]
#[tactic(auto, unfolding(crate::specs::Descent::step))]
fn step(alloc: Global, tokens: &mut Cursor<'_>, depth: u8) -> Result<Option<Expr>, Failure>
    ensures { Reads (spec.step (spec.expr depth) tokens.old) result tokens.new }
{
    match tokens.kind() {
        Terminal::Colon => {
            tokens.take();
            bound(alloc, tokens, depth)
        }
        _ => Ok(None),
    }
}
