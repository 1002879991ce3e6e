//! The line of a statement that has no block.

ghost use Rattle.std.specs.Prelude.{◌≡◌, ◌∷◌, ◌++◌, [], IfOk, OnOk};
ghost use Rattle.module_terms.specs.Lines as spec;

use crate::term::{Line, Loop, Step, Term};
use krn_base::{BinOp, Boxed, Join, Loc, Seq};
use py_parse::Name;
use std::alloc::{AllocError, Global};

/// A call of an own function, alone; another expression leaves none.
pub fn alone(x: Term) -> Option<Line>
    ensures { result ≡ spec.alone x }
{
    match x {
        Term::Call(name, operands) => Some(Line::Alone(name, operands)),
        _ => None,
    }
}

/// The last of a list, behind the others.
fn split_last(steps: Seq<Step>) -> Option<(Seq<Step>, Step)>
    ensures { result ≡ spec.split_last steps }
{
    let mut items = steps.into_vec();
    match items.pop() {
        None => None,
        Some(last) => Some((Seq::from_vec(items), last)),
    }
}

/// A value after steps, of which there may be none.
fn after(first: Boxed<Term>, steps: Seq<Step>) -> Term
    ensures { result ≡ spec.after first steps }
{
    match split_last(steps) {
        None => first.into_inner(),
        Some((before, last)) => Term::Steps(first, before, last),
    }
}

/// A store by the last step of a target, where that is subscripts.
fn store(array: Term, last: Step, at: Loc, value: Term) -> Option<Line>
    ensures { result ≡ spec.store array last at value }
{
    match last {
        Step::Pick(bracket, parts) => Some(Line::Store(array, bracket, parts, at, value)),
        _ => None,
    }
}

/// An augmented store by the last step of a target, where that is subscripts.
fn update(array: Term, last: Step, op: BinOp, at: Loc, value: Term) -> Option<Line>
    ensures { result ≡ spec.update array last op at value }
{
    match last {
        Step::Pick(bracket, parts) => {
            Some(Line::AugmentPick(array, bracket, parts, op, at, value))
        }
        _ => None,
    }
}

/// An assignment to a name or to subscripts of an array; another target leaves none.
pub fn assign(target: Term, at: Loc, value: Term) -> Option<Line>
    ensures { result ≡ spec.assign target at value }
{
    match target {
        Term::Name(name) => Some(Line::Assign(name, at, value)),
        Term::Steps(first, before, last) => store(after(first, before), last, at, value),
        _ => None,
    }
}

/// An augmented assignment to a name or to subscripts of an array; another target leaves none.
pub fn augment(target: Term, op: BinOp, at: Loc, value: Term) -> Option<Line>
    ensures { result ≡ spec.augment target op at value }
{
    match target {
        Term::Name(name) => Some(Line::AugmentName(name, op, at, value)),
        Term::Steps(first, before, last) => update(after(first, before), last, op, at, value),
        _ => None,
    }
}

/// The head of a loop through a call; through another expression it has no arguments and stands at its `for`.
pub fn head(alloc: Global, at: Loc, var: Name, over: Term, omp: Option<Seq<(Join, Name)>>) -> Loop
    ensures { result ≡ spec.head at var over omp }
{
    match over {
        Term::Call(range, args) => Loop {
            var,
            at: range.loc,
            args,
            omp,
        },
        _ => Loop {
            var,
            at,
            args: Seq::new(alloc),
            omp,
        },
    }
}
