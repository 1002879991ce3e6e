//! The functions of `numpy` that make an array of a shape, and `arange`.

ghost use Rattle.std.specs.Prelude.{◌≡◌, ◌∷◌, ◌++◌, [], IfOk, map, Some, None};
ghost use Rattle.module_terms.specs.Calls as spec;

use crate::build::{append, one};
use crate::reached::{Reached, finish, finish_all};
use crate::rows::{is_word, numpy_kind, own_kind};
use crate::term::{Operation, Term};
use array_ops::Fill;
use krn_base::{Kind, Loc, Seq};
use py_parse::Name;
use std::alloc::{AllocError, Global};

/// The kind that an argument stands for.
fn kind_of(reached: &Reached) -> Option<Kind>
    ensures { result ≡ spec.kind_of reached.now }
{
    match reached {
        Reached::Named(name) => own_kind(name),
        Reached::Member(name) => numpy_kind(name),
        _ => None,
    }
}

/// The kind that the one argument with a key stands for.
fn keyed_kind(keyed: &[Reached]) -> Option<Kind>
    ensures { result ≡ spec.keyed_kind keyed.now }
{
    match keyed {
        [kind] => kind_of(kind),
        _ => None,
    }
}

/// The kind that the second argument stands for, where it is the last one.
fn second_kind(kind: &Reached, rest: &[Reached], keyed: &[Reached]) -> Option<Kind>
    ensures { result ≡ spec.second_kind kind.now rest.now keyed.now }
{
    match rest {
        [] => match keyed {
            [] => kind_of(kind),
            _ => None,
        },
        _ => None,
    }
}

/// What the first argument says of a shape.
#[derive(Drop)]
enum Shape {
    /// That of the one operand, an array, by `shape` at this place.
    Like(Term, Loc),
    /// An operand for each dimension.
    Dims(Seq<Term>),
}

fn shape_of(alloc: Global, reached: Reached) -> Result<Shape, AllocError>
    ensures { IfOk result (λ shape. shape ≡ spec.shape_of reached) }
{
    match reached {
        Reached::Tuple(_, items) => Ok(Shape::Dims(items)),
        Reached::Attribute(x, name) => {
            if is_word(b"shape", &name) {
                Ok(Shape::Like(x, name.loc))
            } else {
                let dim = finish(alloc, Reached::Attribute(x, name))?;
                Ok(Shape::Dims(one(alloc, dim)?))
            }
        }
        Reached::Value(x) => Ok(Shape::Dims(one(alloc, x)?)),
        Reached::Named(name) => Ok(Shape::Dims(one(alloc, Term::Name(name))?)),
        Reached::Member(name) => {
            let dim = finish(alloc, Reached::Member(name))?;
            Ok(Shape::Dims(one(alloc, dim)?))
        }
    }
}

fn by_dims(kind: Option<Kind>, fill: Fill, dims: usize) -> Operation
    ensures { result ≡ spec.by_dims kind fill dims }
{
    match kind {
        Some(kind) => {
            if dims >= 1 && dims <= 4 {
                Operation::Fresh(fill, kind)
            } else {
                Operation::None
            }
        }
        None => Operation::None,
    }
}

fn by_array(kind: Option<Kind>, fill: Fill, at: Loc) -> Operation
    ensures { result ≡ spec.by_array kind fill at }
{
    match kind {
        Some(kind) => Operation::FreshLike(fill, kind, at),
        None => Operation::None,
    }
}

fn shaped(
    alloc: Global,
    name: &Name,
    fill: Fill,
    kind: Option<Kind>,
    shape: Reached,
    more: Seq<Term>,
) -> Result<Term, AllocError>
    ensures { IfOk result (λ term. term ≡ spec.shaped name.now fill kind (spec.shape_of shape) more) }
{
    match shape_of(alloc, shape)? {
        Shape::Like(x, at) => {
            let mut operands = one(alloc, x)?;
            append(&mut operands, more)?;
            Ok(Term::Apply(by_array(kind, fill, at), name.loc, operands))
        }
        Shape::Dims(dims) => {
            let operation = by_dims(kind, fill, dims.len());
            let mut operands = dims;
            append(&mut operands, more)?;
            Ok(Term::Apply(operation, name.loc, operands))
        }
    }
}

/// The first element of a list, and the others.
fn split_first<T: Drop>(list: Seq<T>) -> Option<(T, Seq<T>)>
    ensures { result ≡ spec.split_first list }
{
    let mut items = list.into_vec();
    if items.is_empty() {
        return None;
    }
    let first = items.remove(0);
    Some((first, Seq::from_vec(items)))
}

/// `numpy.zeros` and the like.
pub fn fresh(
    alloc: Global,
    name: &Name,
    fill: Fill,
    plain: Seq<Reached>,
    keyed: Seq<Reached>,
) -> Result<Term, AllocError>
    ensures { IfOk result (λ term. term ≡ spec.fresh name.now fill plain keyed) }
{
    match split_first(plain) {
        None => Ok(Term::Apply(Operation::None, name.loc, Seq::new(alloc))),
        Some((shape, others)) => match split_first(others) {
            None => {
                let kind = keyed_kind(keyed.as_slice());
                shaped(alloc, name, fill, kind, shape, Seq::new(alloc))
            }
            Some((second, rest)) => {
                let kind = second_kind(&second, rest.as_slice(), keyed.as_slice());
                let more = finish_all(alloc, rest)?;
                shaped(alloc, name, fill, kind, shape, more)
            }
        },
    }
}

fn counts(keyed: &[Reached]) -> bool
    ensures { result ≡ spec.counts keyed.now }
{
    match keyed {
        [] => true,
        [kind] => match kind_of(kind) {
            Some(Kind::Int64) => true,
            _ => false,
        },
        _ => false,
    }
}

fn arange_operation(plain: usize, keyed: &[Reached]) -> Operation
    ensures { result ≡ spec.arange_operation plain keyed.now }
{
    if plain == 1 && counts(keyed) {
        Operation::Arange
    } else {
        Operation::None
    }
}

/// `numpy.arange`.
pub fn arange(
    alloc: Global,
    name: &Name,
    plain: Seq<Reached>,
    keyed: Seq<Reached>,
) -> Result<Term, AllocError>
    ensures { IfOk result (λ term. term ≡ spec.arange name.now plain keyed) }
{
    let operation = arange_operation(plain.len(), keyed.as_slice());
    Ok(Term::Apply(operation, name.loc, finish_all(alloc, plain)?))
}
