//! What an expression is before it has to be a value.

ghost use Rattle.std.specs.Prelude.{◌≡◌, ◌++◌, IfOk, map};
ghost use Rattle.module_terms.specs.Calls as spec;

use crate::build::follow;
use crate::rows::field;
use crate::term::{Operation, Term};
use krn_base::{Loc, Seq};
use py_parse::Name;
use std::alloc::{AllocError, Global};

/// What stands before a trailer, or by itself.
#[derive(Drop)]
pub enum Reached {
    Value(Term),
    /// A name, which may be called or be that of `numpy`.
    Named(Name),
    /// A name of `numpy`: a function that isn't called yet, or a kind.
    Member(Name),
    /// A name asked of a value: a method that isn't called yet, or what an array has.
    Attribute(Term, Name),
    /// The elements of a tuple, with the place of its `(`.
    Tuple(Loc, Seq<Term>),
}

/// An argument of a call: whether it has a key, and its value.
#[derive(Drop)]
pub struct Argument {
    pub keyed: bool,
    pub value: Reached,
}

/// The arguments of a call without a key, and those with one.
#[derive(Drop)]
pub struct Arguments {
    pub plain: Seq<Reached>,
    pub keyed: Seq<Reached>,
}

/// What is asked of a value and isn't called.
pub fn attribute(alloc: Global, x: Term, name: &Name) -> Result<Term, AllocError>
    ensures { IfOk result (λ term. term ≡ spec.attribute x name.now) }
{
    follow(alloc, x, field(name), name.loc)
}

/// The value that is reached. A name of `numpy` that isn't called and a tuple are no values: an operation without a
/// row.
pub fn finish(alloc: Global, reached: Reached) -> Result<Term, AllocError>
    ensures { IfOk result (λ term. term ≡ spec.finish reached) }
{
    match reached {
        Reached::Value(x) => Ok(x),
        Reached::Named(name) => Ok(Term::Name(name)),
        Reached::Member(name) => Ok(Term::Apply(Operation::None, name.loc, Seq::new(alloc))),
        Reached::Attribute(x, name) => attribute(alloc, x, &name),
        Reached::Tuple(at, items) => Ok(Term::Apply(Operation::None, at, items)),
    }
}

/// The values that are reached.
pub fn finish_all(alloc: Global, list: Seq<Reached>) -> Result<Seq<Term>, AllocError>
    ensures { IfOk result (λ terms. terms ≡ map spec.finish list) }
{
    let mut terms = Seq::new(alloc);
    for reached in list.into_vec() {
        terms.push(finish(alloc, reached)?)?;
    }
    Ok(terms)
}
