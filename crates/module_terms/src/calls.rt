//! Calls, subscripts and attributes: what a trailer makes of what stands before it.

ghost use Rattle.std.specs.Prelude.{◌≡◌, ◌∷◌, [], IfOk, map};
ghost use Rattle.module_terms.specs.Calls as spec;

use crate::build::{follow, with_step};
use crate::makers::{arange, fresh};
use crate::numpy::{Numpy, is_numpy};
use crate::reached::{Arguments, Reached, attribute, finish, finish_all};
use crate::rows::{apply, built_in, fill_of, is_word, method, numpy_function, settled};
use crate::term::{Operation, Part, Step, Term};
use krn_base::{Loc, Seq};
use py_parse::Name;
use std::alloc::{AllocError, Global};

/// A call of a name: of a built-in function, else of an own one.
fn call_name(name: Name, operands: Seq<Term>) -> Term
    ensures { result ≡ spec.call_name name operands }
{
    match built_in(&name) {
        Some(row) => apply(Some(row), &name, operands),
        None => Term::Call(name, operands),
    }
}

fn call_function(
    alloc: Global,
    name: &Name,
    plain: Seq<Reached>,
    keyed: Seq<Reached>,
) -> Result<Term, AllocError>
    ensures { IfOk result (λ term. term ≡ spec.call_function name.now plain keyed) }
{
    if is_word(b"arange", name) {
        arange(alloc, name, plain, keyed)
    } else {
        let operands = finish_all(alloc, plain)?;
        Ok(apply(numpy_function(name), name, operands))
    }
}

/// A call of a function of `numpy`.
fn call_member(
    alloc: Global,
    name: &Name,
    plain: Seq<Reached>,
    keyed: Seq<Reached>,
) -> Result<Term, AllocError>
    ensures { IfOk result (λ term. term ≡ spec.call_member name.now plain keyed) }
{
    match fill_of(name) {
        Some(fill) => fresh(alloc, name, fill, plain, keyed),
        None => call_function(alloc, name, plain, keyed),
    }
}

/// A call of a method, whose first operand is what it is asked of.
fn call_method(alloc: Global, x: Term, name: &Name, operands: Seq<Term>) -> Result<Term, AllocError>
    ensures { IfOk result (λ term. term ≡ spec.call_method x name.now operands) }
{
    let operation = settled(method(name), operands.len().saturating_add(1));
    with_step(alloc, x, Step::Operate(operation, name.loc, operands))
}

/// A call, at the place of its `(`.
pub fn call(
    alloc: Global,
    at: Loc,
    arguments: Arguments,
    reached: Reached,
) -> Result<Term, AllocError>
    ensures { IfOk result (λ term. term ≡ spec.call at arguments.plain arguments.keyed reached) }
{
    let Arguments { plain, keyed } = arguments;
    match reached {
        Reached::Named(name) => Ok(call_name(name, finish_all(alloc, plain)?)),
        Reached::Member(name) => call_member(alloc, &name, plain, keyed),
        Reached::Attribute(x, name) => {
            let operands = finish_all(alloc, plain)?;
            call_method(alloc, x, &name, operands)
        }
        Reached::Value(x) => {
            let operands = finish_all(alloc, plain)?;
            with_step(alloc, x, Step::Operate(Operation::None, at, operands))
        }
        Reached::Tuple(start, items) => {
            let callee = Term::Apply(Operation::None, start, items);
            let operands = finish_all(alloc, plain)?;
            with_step(alloc, callee, Step::Operate(Operation::None, at, operands))
        }
    }
}

fn negative(value: i64) -> Option<i64>
    ensures { result ≡ spec.negative value }
{
    if value >= 0 { Some(0 - value) } else { None }
}

fn negated_in(x: &Term) -> Option<i64>
    ensures { result ≡ spec.negated_in x.now }
{
    match x {
        Term::Int(value) => negative(*value),
        _ => None,
    }
}

fn negated_only(operands: &[Term]) -> Option<i64>
    ensures { result ≡ spec.negated_only operands.now }
{
    match operands {
        [x] => negated_in(x),
        _ => None,
    }
}

fn negated(operation: Operation, operands: &[Term]) -> Option<i64>
    ensures { result ≡ spec.negated operation operands.now }
{
    match operation {
        Operation::Minus => negated_only(operands),
        _ => None,
    }
}

/// The number that a number, or `-` and a number, is.
fn literal_in(x: &Term) -> Option<i64>
    ensures { result ≡ spec.literal_in x.now }
{
    match x {
        Term::Int(value) => Some(*value),
        Term::Apply(operation, _, operands) => negated(*operation, operands.as_slice()),
        _ => None,
    }
}

fn literal_at(part: &Part) -> Option<i64>
    ensures { result ≡ spec.literal_at part.now }
{
    match part {
        Part::At(x) => literal_in(x),
        _ => None,
    }
}

/// The number that the one subscript is.
fn literal(parts: &[Part]) -> Option<i64>
    ensures { result ≡ spec.literal parts.now }
{
    match parts {
        [part] => literal_at(part),
        _ => None,
    }
}

/// The number that subscripts are, behind `shape`.
fn axis(name: &Name, parts: &[Part]) -> Option<i64>
    ensures { result ≡ spec.axis name.now parts.now }
{
    if is_word(b"shape", name) {
        literal(parts)
    } else {
        None
    }
}

fn pick_value(alloc: Global, at: Loc, x: Term, parts: Seq<Part>) -> Result<Term, AllocError>
    ensures { IfOk result (λ term. term ≡ spec.pick_value at x parts) }
{
    with_step(alloc, x, Step::Pick(at, parts))
}

fn pick_attribute(
    alloc: Global,
    at: Loc,
    x: Term,
    name: &Name,
    parts: Seq<Part>,
) -> Result<Term, AllocError>
    ensures { IfOk result (λ term. term ≡ spec.pick_attribute (spec.axis name.now parts) at x name.now parts) }
{
    match axis(name, parts.as_slice()) {
        Some(k) => follow(alloc, x, Operation::Extent(k), name.loc),
        None => pick_value(alloc, at, attribute(alloc, x, name)?, parts),
    }
}

/// Subscripts, at the place of their `[`.
pub fn pick(alloc: Global, at: Loc, parts: Seq<Part>, reached: Reached) -> Result<Term, AllocError>
    ensures { IfOk result (λ term. term ≡ spec.pick at parts reached) }
{
    match reached {
        Reached::Attribute(x, name) => pick_attribute(alloc, at, x, &name, parts),
        Reached::Value(x) => pick_value(alloc, at, x, parts),
        Reached::Named(name) => pick_value(alloc, at, Term::Name(name), parts),
        Reached::Member(name) => {
            let x = finish(alloc, Reached::Member(name))?;
            pick_value(alloc, at, x, parts)
        }
        Reached::Tuple(start, items) => {
            pick_value(alloc, at, Term::Apply(Operation::None, start, items), parts)
        }
    }
}

/// An attribute: of `numpy`, or of a value.
pub fn ask(numpy: &Numpy<'_>, name: Name, reached: Reached) -> Result<Reached, AllocError>
    ensures { IfOk result (λ r. r ≡ spec.ask numpy.now.imports.now name reached) }
{
    match reached {
        Reached::Named(base) => {
            if is_numpy(numpy, &base) {
                Ok(Reached::Member(name))
            } else {
                Ok(Reached::Attribute(Term::Name(base), name))
            }
        }
        Reached::Value(x) => Ok(Reached::Attribute(x, name)),
        Reached::Member(function) => {
            let x = finish(numpy.alloc, Reached::Member(function))?;
            Ok(Reached::Attribute(x, name))
        }
        Reached::Attribute(x, before) => {
            let x = attribute(numpy.alloc, x, &before)?;
            Ok(Reached::Attribute(x, name))
        }
        Reached::Tuple(start, items) => {
            let x = Term::Apply(Operation::None, start, items);
            Ok(Reached::Attribute(x, name))
        }
    }
}
