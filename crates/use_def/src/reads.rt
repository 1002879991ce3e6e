//! The names that expressions read, and the first of those that aren't bound.

ghost use Rattle.std.specs.Prelude.{◌≡◌, IfOk, option_map, map};
ghost use Rattle.module_names.specs.Nodes as kind;
ghost use Rattle.module_names.specs.Places.{soonest};
ghost use Rattle.module_names.specs.Seen.{node_seen, role_seen};
ghost use Rattle.use_def.specs.Flows.{read_mark, reads_marks, values_marks};
ghost use Rattle.use_def.specs.Reads as spec;
ghost use Rattle.use_def.specs.Sets.{assigned};

use crate::names::{Names, is_bound};
use krn_base::Loc;
use module_names::{
    Node, Role, Words, begins_with_call, is_assigned, is_taken, list_expression, name_in, sooner,
};
use py_parse::{Expr, Name, Trailer};
use std::alloc::{AllocError, Global};

fn trailed<'a>(trailers: &[Trailer], name: Option<&'a Name>) -> Option<&'a Name>
    ensures { option_map (λ x. x.now) result ≡ spec.trailed trailers.now (option_map (λ x. x.now) name.entry) }
{
    if begins_with_call(trailers) {
        None
    } else {
        name
    }
}

/// The name that an expression begins with, unless it is called, or is itself the target of `=`.
fn head<'a>(role: Role<'_>, x: &'a Expr) -> Option<&'a Name>
    ensures { option_map (λ x. x.now) result ≡ spec.head (role_seen role.entry) x.now }
{
    match x {
        Expr::Name(name) => { if is_assigned(role) { None } else { Some(name) } }
        Expr::Primary(head, trailers) => trailed(trailers.as_slice(), name_in(head.get())),
        _ => None,
    }
}

fn valued<'a>(words: &Words<'_>, name: Option<&'a Name>) -> Option<&'a Name>
    ensures { option_map (λ x. x.now) result ≡ spec.valued words.now.tree.now (option_map (λ x. x.now) name.entry) }
{
    match name {
        Some(name) => {
            if is_taken(words, name) {
                None
            } else {
                Some(name)
            }
        }
        None => None,
    }
}

/// The name that a node reads.
fn read_at<'a>(words: &Words<'_>, node: Node<'a>) -> Option<&'a Name>
    ensures { option_map (λ x. x.now) result ≡ spec.read_at words.now.tree.now (node_seen node.entry) }
{
    match node {
        Node::Expression(role, x) => valued(words, head(role, x)),
        _ => None,
    }
}

/// The place of a name that some path so far leaves unassigned.
fn unbound(names: &Names<'_>, name: Option<&Name>) -> Option<Loc>
    ensures { result ≡ read_mark (assigned names.now) (option_map (λ x. x.now) name.entry) }
{
    match name {
        Some(name) => {
            if is_bound(names, name.text.as_slice()) {
                None
            } else {
                Some(name.loc)
            }
        }
        None => None,
    }
}

fn in_nodes(
    words: &Words<'_>,
    names: &Names<'_>,
    nodes: &[Node<'_>],
    first: Option<Loc>,
) -> Option<Loc>
    ensures { result ≡ soonest first (map (λ node. read_mark (assigned names.now)
        (spec.read_at words.now.tree.now node)) (map node_seen nodes.now)) }
{
    let mut first = first;
    for node in nodes {
        first = sooner(first, unbound(names, read_at(words, *node)));
    }
    first
}

/// The first of the reads so far of names that some path leaves unassigned, with those of an expression.
pub fn reads(
    alloc: Global,
    words: &Words<'_>,
    x: &Expr,
    role: Role<'_>,
    names: &Names<'_>,
    first: Option<Loc>,
) -> Result<Option<Loc>, AllocError>
    ensures { IfOk result (λ least. least ≡ soonest first (reads_marks words.now.tree.now (assigned names.now)
        (role_seen role.entry) x.now)) }
{
    let listing = list_expression(alloc, x, role)?;
    Ok(in_nodes(words, names, listing.nodes(), first))
}

/// The same with several expressions.
pub fn values_reads(
    alloc: Global,
    words: &Words<'_>,
    values: &[Expr],
    names: &Names<'_>,
    first: Option<Loc>,
) -> Result<Option<Loc>, AllocError>
    ensures { IfOk result (λ least. least ≡ soonest first (values_marks words.now.tree.now (assigned names.now)
        values.now)) }
{
    let mut first = first;
    for x in values {
        first = reads(alloc, words, x, Role::Operand, names, first)?;
    }
    Ok(first)
}
