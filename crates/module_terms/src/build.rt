//! Short lists, copies of names, and terms of their parts.

ghost use Rattle.std.specs.Prelude.{◌≡◌, ◌∷◌, ◌++◌, [], IfOk, OnOk};
ghost use Rattle.module_terms.specs.Rows as spec;
ghost use Rattle.module_terms.specs.declared.term.Step.TheVariants as s;

use crate::term::{Operation, Step, Term};
use krn_base::{Boxed, Loc, Seq};
use py_parse::Name;
use std::alloc::{AllocError, Global};

/// The list of one element.
pub fn one<T: Drop>(alloc: Global, item: T) -> Result<Seq<T>, AllocError>
    ensures { IfOk result (λ list. list ≡ item ∷ []) }
{
    let mut list = Seq::new(alloc);
    list.push(item)?;
    Ok(list)
}

/// Puts a list behind another.
pub fn append<T: Drop>(out: &mut Seq<T>, more: Seq<T>) -> Result<(), AllocError>
    ensures { OnOk result (out.new ≡ out.old ++ more) }
{
    for item in more.into_vec() {
        out.push(item)?;
    }
    Ok(())
}

/// The same name at the same place.
pub fn copy_name(name: &Name) -> Result<Name, AllocError>
    ensures { IfOk result (λ copy. copy ≡ name.now) }
{
    Ok(Name {
        text: name.text.try_copy()?,
        loc: name.loc,
    })
}

/// The same names at the same places.
pub fn copy_names(alloc: Global, names: &[Name]) -> Result<Seq<Name>, AllocError>
    ensures { IfOk result (λ copies. copies ≡ names.now) }
{
    let mut copies = Seq::new(alloc);
    for name in names {
        copies.push(copy_name(name)?)?;
    }
    Ok(copies)
}

/// An operation on one operand.
pub fn unary(alloc: Global, operation: Operation, at: Loc, x: Term) -> Result<Term, AllocError>
    ensures { IfOk result (λ term. term ≡ spec.unary operation at x) }
{
    Ok(Term::Apply(operation, at, one(alloc, x)?))
}

/// A value with one more step. Takes time for the step alone, however many stand before it.
pub fn with_step(alloc: Global, x: Term, step: Step) -> Result<Term, AllocError>
    ensures { IfOk result (λ term. term ≡ spec.with_step x step) }
{
    match x {
        Term::Steps(first, before, last) => {
            let mut before = before;
            before.push(last)?;
            Ok(Term::Steps(first, before, step))
        }
        first => Ok(Term::Steps(Boxed::new(alloc, first)?, Seq::new(alloc), step)),
    }
}

/// An operation on a value alone, as a step.
pub fn follow(alloc: Global, x: Term, operation: Operation, at: Loc) -> Result<Term, AllocError>
    ensures { IfOk result (λ term. term ≡ spec.with_step x (s.Operate operation at [])) }
{
    with_step(alloc, x, Step::Operate(operation, at, Seq::new(alloc)))
}

/// An operator between a value and an operand, as a step.
pub fn binary(
    alloc: Global,
    operation: Operation,
    at: Loc,
    x: Term,
    y: Term,
) -> Result<Term, AllocError>
    ensures { IfOk result (λ term. term ≡ spec.binary operation at x y) }
{
    let operands = one(alloc, y)?;
    with_step(alloc, x, Step::Operate(operation, at, operands))
}
