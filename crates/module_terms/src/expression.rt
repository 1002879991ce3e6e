//! The term of an expression.

ghost use Rattle.std.specs.Prelude.{◌≡◌, ◌∷◌, ◌++◌, [], IfOk, OnOk, map, flat_map};
ghost use Rattle.module_terms.specs.Calls.{finish};
ghost use Rattle.module_terms.specs.Expressions as spec;

use crate::build::{binary, copy_name, unary};
use crate::calls::{ask, call, pick};
use crate::numpy::Numpy;
use crate::reached::{Argument, Arguments, Reached, finish};
use crate::rows::{power, sign};
use crate::term::{Operation, Part, Term};
use krn_base::{BinOp, Boxed, Loc, Seq};
use py_parse::{Arg, Expr, Sub, Trailer};
use std::alloc::AllocError;

/// The term of an expression.
#[cycle(expressions)]
pub fn term(x: &Expr, numpy: &Numpy<'_>) -> Result<Term, AllocError>
    ensures { IfOk result (λ term. term ≡ spec.term numpy.now.imports.now x.now) }
{
    let reached = reach(x, numpy)?;
    finish(numpy.alloc, reached)
}

/// What an expression is before it has to be a value.
#[cycle(expressions)]
fn reach(x: &Expr, numpy: &Numpy<'_>) -> Result<Reached, AllocError>
    ensures { IfOk result (λ r. r ≡ spec.reached numpy.now.imports.now x.now) }
{
    match x {
        Expr::Name(name) => Ok(Reached::Named(copy_name(name)?)),
        Expr::Int(value, _) => Ok(Reached::Value(Term::Int(*value))),
        Expr::Truth(value, _) => Ok(Reached::Value(Term::Truth(*value))),
        Expr::Tuple(at, items) => Ok(Reached::Tuple(*at, terms(items.as_slice(), numpy)?)),
        Expr::Chain(first, links) => {
            let first = term(first.get(), numpy)?;
            Ok(Reached::Value(chain(links.as_slice(), first, numpy)?))
        }
        Expr::Logic(conjunction, first, links) => {
            let first = term(first.get(), numpy)?;
            let operands = conditions(links.as_slice(), numpy)?;
            let first = Boxed::new(numpy.alloc, first)?;
            Ok(Reached::Value(Term::Logic(*conjunction, first, operands)))
        }
        Expr::Not(at, operand) => {
            let operand = term(operand.get(), numpy)?;
            Ok(Reached::Value(unary(numpy.alloc, Operation::Not, *at, operand)?))
        }
        Expr::Prefix(byte, at, operand) => {
            let operand = term(operand.get(), numpy)?;
            Ok(Reached::Value(unary(numpy.alloc, sign(*byte), *at, operand)?))
        }
        Expr::Power(base, at, exponent) => {
            let base = term(base.get(), numpy)?;
            Ok(Reached::Value(unary(numpy.alloc, power(*exponent), *at, base)?))
        }
        Expr::Primary(head, trailers) => {
            let head = reach(head.get(), numpy)?;
            follow(trailers.as_slice(), head, numpy)
        }
    }
}

/// The terms of expressions.
#[cycle(expressions)]
pub fn terms(items: &[Expr], numpy: &Numpy<'_>) -> Result<Seq<Term>, AllocError>
    ensures { IfOk result (λ list. list ≡ spec.terms numpy.now.imports.now items.now) }
{
    let mut list = Seq::new(numpy.alloc);
    for x in items {
        list.push(term(x, numpy)?)?;
    }
    Ok(list)
}

#[cycle(expressions)]
fn chain(links: &[(BinOp, Loc, Expr)], first: Term, numpy: &Numpy<'_>) -> Result<Term, AllocError>
    ensures { IfOk result (λ whole. whole ≡ spec.chained first (map (spec.link numpy.now.imports.now) links.now)) }
{
    let mut whole = first;
    for link in links {
        let operand = term(&link.2, numpy)?;
        whole = binary(
            numpy.alloc,
            Operation::Binary(link.0),
            link.1,
            whole,
            operand,
        )?;
    }
    Ok(whole)
}

#[cycle(expressions)]
fn conditions(links: &[(Loc, Expr)], numpy: &Numpy<'_>) -> Result<Seq<(Loc, Term)>, AllocError>
    ensures { IfOk result (λ list. list ≡ map spec.condition (map (spec.operand numpy.now.imports.now) links.now)) }
{
    let mut list = Seq::new(numpy.alloc);
    for link in links {
        list.push((link.0, term(&link.1, numpy)?))?;
    }
    Ok(list)
}

#[cycle(expressions)]
fn follow(trailers: &[Trailer], head: Reached, numpy: &Numpy<'_>) -> Result<Reached, AllocError>
    ensures { IfOk result (λ r. r ≡ spec.trailed head (map (spec.walk numpy.now.imports.now) trailers.now)) }
{
    let mut reached = head;
    for trailer in trailers {
        reached = follow_one(trailer, reached, numpy)?;
    }
    Ok(reached)
}

#[cycle(expressions)]
fn follow_one(trailer: &Trailer, reached: Reached, numpy: &Numpy<'_>) -> Result<Reached, AllocError>
    ensures { IfOk result (λ r. r ≡ spec.walk numpy.now.imports.now trailer.now reached) }
{
    match trailer {
        Trailer::Call(at, args) => {
            let arguments = arguments(args.as_slice(), numpy)?;
            Ok(Reached::Value(call(numpy.alloc, *at, arguments, reached)?))
        }
        Trailer::Pick(at, subs) => {
            let parts = parts(subs.as_slice(), numpy)?;
            Ok(Reached::Value(pick(numpy.alloc, *at, parts, reached)?))
        }
        Trailer::Attr(name) => ask(numpy, copy_name(name)?, reached),
    }
}

#[cycle(expressions)]
fn argument(arg: &Arg, numpy: &Numpy<'_>) -> Result<Argument, AllocError>
    ensures { IfOk result (λ a. a ≡ spec.argument numpy.now.imports.now arg.now) }
{
    let value = reach(&arg.value, numpy)?;
    Ok(Argument {
        keyed: arg.key.is_some(),
        value,
    })
}

fn add_argument(arguments: &mut Arguments, argument: Argument) -> Result<(), AllocError>
    ensures plain { OnOk result (arguments.new.plain ≡ arguments.old.plain ++ spec.plain_in argument) }
    ensures keyed { OnOk result (arguments.new.keyed ≡ arguments.old.keyed ++ spec.keyed_in argument) }
{
    let Argument { keyed, value } = argument;
    if keyed {
        arguments.keyed.push(value)
    } else {
        arguments.plain.push(value)
    }
}

#[cycle(expressions)]
fn arguments(args: &[Arg], numpy: &Numpy<'_>) -> Result<Arguments, AllocError>
    ensures plain { IfOk result (λ a. a.plain ≡ flat_map spec.plain_in (map (spec.argument numpy.now.imports.now)
        args.now)) }
    ensures keyed { IfOk result (λ a. a.keyed ≡ flat_map spec.keyed_in (map (spec.argument numpy.now.imports.now)
        args.now)) }
{
    let mut list = Arguments {
        plain: Seq::new(numpy.alloc),
        keyed: Seq::new(numpy.alloc),
    };
    for arg in args {
        add_argument(&mut list, argument(arg, numpy)?)?;
    }
    Ok(list)
}

#[cycle(expressions)]
fn parts(subs: &[Sub], numpy: &Numpy<'_>) -> Result<Seq<Part>, AllocError>
    ensures { IfOk result (λ list. list ≡ map (spec.part numpy.now.imports.now) subs.now) }
{
    let mut list = Seq::new(numpy.alloc);
    for sub in subs {
        list.push(part(sub, numpy)?)?;
    }
    Ok(list)
}

#[cycle(expressions)]
#[tactic(auto, using(crate::proofs::Inside::in_cut))]
fn part(sub: &Sub, numpy: &Numpy<'_>) -> Result<Part, AllocError>
    ensures { IfOk result (λ p. p ≡ spec.part numpy.now.imports.now sub.now) }
{
    match sub {
        Sub::At(x) => Ok(Part::At(term(x, numpy)?)),
        Sub::Cut(start, stop, step) => {
            let start = bound(start, numpy)?;
            let stop = bound(stop, numpy)?;
            let step = bound(step, numpy)?;
            Ok(Part::Cut(start, stop, step))
        }
    }
}

#[cycle(expressions)]
fn bound(x: &Option<Expr>, numpy: &Numpy<'_>) -> Result<Option<Term>, AllocError>
    ensures { IfOk result (λ t. t ≡ spec.bound_term numpy.now.imports.now x.now) }
{
    match x {
        Some(x) => Ok(Some(term(x, numpy)?)),
        None => Ok(None),
    }
}
