//! The statements and expressions of a function, with where they stand.

ghost use Rattle.std.specs.Prelude.{◌≡◌, option_map};
ghost use Rattle.module_names.specs.Listing as spec;

use py_parse::{Expr, Name, Stmt, Trailer};

/// A call `base.function(..)` whose arguments may be a shape or a kind.
#[derive(Clone, Copy)]
pub struct Maker<'a> {
    pub base: &'a Name,
    pub function: &'a Name,
    /// Whether it makes an array of a shape: `zeros`, `ones` and `empty`, but not `arange`.
    pub filled: bool,
}

/// Where an expression stands.
#[derive(Clone, Copy)]
pub enum Role<'a> {
    Operand,
    /// The only value of a `return`.
    Whole,
    /// What a `for` runs through.
    Iterated,
    /// The target of `=`.
    Assigned,
    /// The target of an augmented assignment.
    Updated,
    /// The first argument without a key of `zeros`, `ones` and `empty`.
    Shape(Maker<'a>),
    /// The keyed arguments of `zeros`, `ones`, `empty` and `arange`, and the second one without a key of the first
    /// three.
    Kind(Maker<'a>),
}

/// What a listing of a function consists of.
#[derive(Clone, Copy)]
pub enum Node<'a> {
    /// A statement, and whether it is the last of its function or of a branch of an `if` that is.
    Statement(bool, &'a Stmt),
    /// An expression. A name with trailers behind it is listed with them alone.
    Expression(Role<'a>, &'a Expr),
    /// A trailer: where its expression stands, what stands before all trailers, the trailers before it, itself, and
    /// those behind it.
    Trailing(Role<'a>, &'a Expr, &'a [Trailer], &'a Trailer, &'a [Trailer]),
    /// A name that is bound here.
    Bound(&'a Name),
}

/// The name that an expression is.
pub fn name_in(x: &Expr) -> Option<&Name>
    ensures { option_map (λ name. name.now) result ≡ spec.name_in x.now }
{
    match x {
        Expr::Name(name) => Some(name),
        _ => None,
    }
}

/// The name that a trailer asks for.
pub fn attribute_in(trailer: &Trailer) -> Option<&Name>
    ensures { option_map (λ name. name.now) result ≡ spec.attribute_in trailer.now }
{
    match trailer {
        Trailer::Attr(name) => Some(name),
        _ => None,
    }
}

/// The one element of a slice.
pub fn only<T>(items: &[T]) -> Option<&T>
    ensures { option_map (λ x. x.now) result ≡ spec.only items.now }
{
    match items {
        [item] => Some(item),
        _ => None,
    }
}

fn attribute_of(trailer: Option<&Trailer>) -> Option<&Name>
    ensures { option_map (λ name. name.now) result ≡ spec.attribute_of (option_map (λ t. t.now) trailer.entry) }
{
    match trailer {
        Some(trailer) => attribute_in(trailer),
        None => None,
    }
}

fn pair<'a>(base: Option<&'a Name>, attribute: Option<&'a Name>) -> Option<(&'a Name, &'a Name)>
    ensures { option_map (λ p. (p.0.now, p.1.now)) result ≡ spec.picked_by (option_map (λ x. x.now) base.entry)
        (option_map (λ x. x.now) attribute.entry) }
{
    match (base, attribute) {
        (Some(base), Some(attribute)) => Some((base, attribute)),
        _ => None,
    }
}

/// The attribute of a name that these trailers ask for, where they are no more than that.
pub fn picked<'a>(head: &'a Expr, trailers: &'a [Trailer]) -> Option<(&'a Name, &'a Name)>
    ensures { option_map (λ p. (p.0.now, p.1.now)) result ≡ spec.picked head.now trailers.now }
{
    pair(name_in(head), attribute_of(only(trailers)))
}
