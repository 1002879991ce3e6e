//! The rule Profile: forms that no kernel may have, whatever its values are.

ghost use Rattle.std.specs.Prelude.{◌≡◌, [], IfOk, IfErr, OnOk, None, flat_map, map, option_map};
ghost use Rattle.krn_base.specs.declared.place.Loc.{Loc};
ghost use Rattle.module_names.specs.Listing.{is_empty};
ghost use Rattle.module_names.specs.Places.{soonest, IsFirst, RefusesAt, IsOnlyYes, IsOnlyAt, IsAnswer};
ghost use Rattle.module_names.specs.Profile as spec;
ghost use Rattle.module_names.specs.Seen.{maker_seen, role_seen, node_seen};

use crate::least::{answer, mark, sooner};
use crate::listing::{is_keyed, list_function, maker};
use crate::node::{Maker, Node, Role, attribute_in, name_in, only, picked};
use crate::words::{
    Words, is_built_in, is_field, is_function, is_import, is_method, is_numpy, is_numpy_function,
    is_numpy_kind, is_own_kind, is_word, words_of,
};
use krn_base::{Loc, Rule, Stop};
use py_parse::{Arg, Expr, Function, Module, Name, Stmt, Sub, Trailer};
use std::alloc::{AllocError, Global};

/// The greatest exponent.
const GREATEST_EXPONENT: i64 = 62;

// ---- tests on one expression, trailer or argument

fn is_target(role: Role<'_>) -> bool
    ensures { result ≡ spec.is_target (role_seen role.entry) }
{
    match role {
        Role::Assigned => true,
        Role::Updated => true,
        _ => false,
    }
}

fn is_iterated(role: Role<'_>) -> bool
    ensures { result ≡ spec.is_iterated (role_seen role.entry) }
{
    match role {
        Role::Iterated => true,
        _ => false,
    }
}

fn is_named(word: &[u8], x: &Expr) -> bool
    ensures { result ≡ spec.is_named word.now x.now }
{
    match name_in(x) {
        Some(name) => is_word(word, name),
        None => false,
    }
}

/// Whether a trailer is a call.
pub fn is_call(trailer: &Trailer) -> bool
    ensures { result ≡ spec.is_call trailer.now }
{
    match trailer {
        Trailer::Call(_, _) => true,
        _ => false,
    }
}

fn is_pick(trailer: &Trailer) -> bool
    ensures { result ≡ spec.is_pick trailer.now }
{
    match trailer {
        Trailer::Pick(_, _) => true,
        _ => false,
    }
}

fn is_attribute(trailer: &Trailer) -> bool
    ensures { result ≡ spec.is_attribute trailer.now }
{
    attribute_in(trailer).is_some()
}

/// Whether the first of these trailers is a call.
pub fn begins_with_call(trailers: &[Trailer]) -> bool
    ensures { result ≡ spec.begins spec.is_call trailers.now }
{
    match trailers {
        [first, ..] => is_call(first),
        [] => false,
    }
}

fn begins_with_attribute(trailers: &[Trailer]) -> bool
    ensures { result ≡ spec.begins spec.is_attribute trailers.now }
{
    match trailers {
        [first, ..] => is_attribute(first),
        [] => false,
    }
}

fn end_of(trailers: &[Trailer]) -> Option<&Trailer>
    ensures { option_map (λ t. t.now) result ≡ spec.end_of trailers.now }
{
    trailers.last()
}

fn has_key(args: &[Arg]) -> bool
    ensures { result ≡ spec.has_key args.now }
{
    args.iter().any(|arg| is_keyed(arg))
}

/// Whether there is no element.
pub fn is_empty<T>(items: &[T]) -> bool
    ensures { result ≡ is_empty items.now }
{
    match items {
        [] => true,
        _ => false,
    }
}

fn are_bounds(args: &[Arg]) -> bool
    ensures { result ≡ spec.are_bounds args.now }
{
    !has_key(args) && !is_empty(args) && args.len() <= 3
}

fn is_call_of_bounds(trailer: &Trailer) -> bool
    ensures { result ≡ spec.is_call_of_bounds trailer.now }
{
    match trailer {
        Trailer::Call(_, args) => are_bounds(args.as_slice()),
        _ => false,
    }
}

fn is_one_call_of_bounds(trailers: &[Trailer]) -> bool
    ensures { result ≡ spec.some_trailer spec.is_call_of_bounds (spec.only trailers.now) }
{
    match only(trailers) {
        Some(trailer) => is_call_of_bounds(trailer),
        None => false,
    }
}

/// Whether an expression is a call of `range` with one to three arguments without keys.
fn is_range(x: &Expr) -> bool
    ensures { result ≡ spec.is_range x.now }
{
    match x {
        Expr::Primary(head, trailers) => {
            is_named(b"range", head.get()) && is_one_call_of_bounds(trailers.as_slice())
        }
        _ => false,
    }
}

fn is_one_call(trailers: &[Trailer]) -> bool
    ensures { result ≡ spec.some_trailer spec.is_call (spec.only trailers.now) }
{
    match only(trailers) {
        Some(trailer) => is_call(trailer),
        None => false,
    }
}

fn is_function_name(words: &Words<'_>, x: &Expr) -> bool
    ensures { result ≡ spec.some_name (spec.is_function words.now.tree.now) (spec.name_in x.now) }
{
    match name_in(x) {
        Some(name) => is_function(words, name),
        None => false,
    }
}

fn is_own_call(words: &Words<'_>, x: &Expr) -> bool
    ensures { result ≡ spec.is_own_call words.now.tree.now x.now }
{
    match x {
        Expr::Primary(head, trailers) => {
            is_function_name(words, head.get()) && is_one_call(trailers.as_slice())
        }
        _ => false,
    }
}

/// Where an expression begins; a parenthesis that makes no tuple doesn't count.
fn start_of(x: &Expr) -> Loc
    ensures { result ≡ spec.start_of x.now }
{
    match x {
        Expr::Name(name) => name.loc,
        Expr::Int(_, at) => *at,
        Expr::Truth(_, at) => *at,
        Expr::Tuple(at, _) => *at,
        Expr::Chain(first, _) => start_of(first.get()),
        Expr::Logic(_, first, _) => start_of(first.get()),
        Expr::Not(at, _) => *at,
        Expr::Prefix(_, at, _) => *at,
        Expr::Power(base, _, _) => start_of(base.get()),
        Expr::Primary(head, _) => start_of(head.get()),
    }
}

fn is_kind_name(words: &Words<'_>, name: Option<(&Name, &Name)>) -> bool
    ensures { result ≡ spec.is_kind_name words.now.tree.now (option_map (λ p. (p.0.now, p.1.now)) name.entry) }
{
    match name {
        Some((base, attribute)) => is_numpy(words, base) && is_numpy_kind(attribute),
        None => false,
    }
}

fn is_kind(words: &Words<'_>, x: &Expr) -> bool
    ensures { result ≡ spec.is_kind words.now.tree.now x.now }
{
    match x {
        Expr::Name(name) => is_own_kind(name),
        Expr::Primary(head, trailers) => {
            is_kind_name(words, picked(head.get(), trailers.as_slice()))
        }
        _ => false,
    }
}

fn constructor_by(words: &Words<'_>, maker: Option<Maker<'_>>) -> Option<bool>
    ensures { result ≡ spec.constructor_by words.now.tree.now (option_map maker_seen maker.entry) }
{
    match maker {
        Some(maker) => {
            if is_numpy(words, maker.base) {
                Some(maker.filled)
            } else {
                None
            }
        }
        None => None,
    }
}

// What is called is `zeros`, `ones`, `empty` or `arange` of `numpy`; whether it is one of the first three.
fn constructor(words: &Words<'_>, head: &Expr, before: &[Trailer]) -> Option<bool>
    ensures { result ≡ spec.constructor words.now.tree.now head.now before.now }
{
    constructor_by(words, maker(head, before))
}

fn place_of(name: Option<&Name>, at: Loc) -> Loc
    ensures { result ≡ spec.place_of (option_map (λ x. x.now) name.entry) at }
{
    match name {
        Some(name) => name.loc,
        None => at,
    }
}

// The place of the name that is called, else of the call's `(`.
fn called_place(head: &Expr, before: &[Trailer], at: Loc) -> Loc
    ensures { result ≡ spec.called_place head.now before.now at }
{
    match end_of(before) {
        Some(end) => place_of(attribute_in(end), at),
        None => place_of(name_in(head), at),
    }
}

// ---- the rows

fn stray_return(last: bool, statement: &Stmt) -> Option<Loc>
    ensures { result ≡ spec.stray_return last statement.now }
{
    match statement {
        Stmt::Return(at, _) => mark(!last, *at),
        _ => None,
    }
}

fn loop_over_else(statement: &Stmt) -> Option<Loc>
    ensures { result ≡ spec.loop_over_else statement.now }
{
    match statement {
        Stmt::For(at, _, over, _) => mark(!is_range(over), *at),
        _ => None,
    }
}

fn no_own_call(words: &Words<'_>, statement: &Stmt) -> Option<Loc>
    ensures { result ≡ spec.no_own_call words.now.tree.now statement.now }
{
    match statement {
        Stmt::Alone(x) => mark(!is_own_call(words, x), start_of(x)),
        _ => None,
    }
}

fn stray_range_head(role: Role<'_>, x: &Expr, name: Option<&Name>) -> Option<Loc>
    ensures { result ≡ spec.stray_range_head (role_seen role.entry) x.now (option_map (λ x. x.now) name.entry) }
{
    match name {
        Some(name) => mark(
            is_word(b"range", name) && !(is_iterated(role) && is_range(x)),
            name.loc,
        ),
        None => None,
    }
}

fn stray_range(role: Role<'_>, x: &Expr) -> Option<Loc>
    ensures { result ≡ spec.stray_range (role_seen role.entry) x.now }
{
    match x {
        Expr::Name(name) => mark(is_word(b"range", name) && !is_target(role), name.loc),
        Expr::Primary(head, _) => stray_range_head(role, x, name_in(head.get())),
        _ => None,
    }
}

fn may_be_tuple(words: &Words<'_>, role: Role<'_>) -> bool
    ensures { result ≡ spec.may_be_tuple words.now.tree.now (role_seen role.entry) }
{
    match role {
        Role::Whole => true,
        Role::Shape(maker) => is_numpy(words, maker.base),
        _ => false,
    }
}

fn stray_tuple(words: &Words<'_>, role: Role<'_>, x: &Expr) -> Option<Loc>
    ensures { result ≡ spec.stray_tuple words.now.tree.now (role_seen role.entry) x.now }
{
    match x {
        Expr::Tuple(at, _) => mark(!may_be_tuple(words, role), *at),
        _ => None,
    }
}

fn ends_in_pick(trailers: &[Trailer]) -> bool
    ensures { result ≡ spec.some_trailer spec.is_pick (spec.end_of trailers.now) }
{
    match end_of(trailers) {
        Some(end) => is_pick(end),
        None => false,
    }
}

fn may_be_target(x: &Expr) -> bool
    ensures { result ≡ spec.may_be_target x.now }
{
    match x {
        Expr::Name(_) => true,
        Expr::Primary(_, trailers) => ends_in_pick(trailers.as_slice()),
        _ => false,
    }
}

fn no_target(role: Role<'_>, x: &Expr) -> Option<Loc>
    ensures { result ≡ spec.no_target (role_seen role.entry) x.now }
{
    mark(is_target(role) && !may_be_target(x), start_of(x))
}

fn has_other_key(args: &[Arg]) -> bool
    ensures { result ≡ spec.has_other_key args.now }
{
    args.iter().any(|arg| has_key_but_dtype(arg))
}

fn is_other_key(key: &Option<Expr>) -> bool
    ensures { result ≡ spec.is_other_key key.now }
{
    match key {
        Some(x) => !is_named(b"dtype", x),
        None => false,
    }
}

fn has_key_but_dtype(arg: &Arg) -> bool
    ensures { result ≡ spec.has_key_but_dtype arg.now }
{
    is_other_key(&arg.key)
}

fn has_stray_key(constructor: Option<bool>, args: &[Arg]) -> bool
    ensures { result ≡ spec.has_stray_key constructor args.now }
{
    match constructor {
        Some(_) => has_other_key(args),
        None => has_key(args),
    }
}

fn stray_keyword(
    words: &Words<'_>,
    head: &Expr,
    before: &[Trailer],
    trailer: &Trailer,
) -> Option<Loc>
    ensures { result ≡ spec.stray_keyword words.now.tree.now head.now before.now trailer.now }
{
    match trailer {
        Trailer::Call(at, args) => mark(
            has_stray_key(constructor(words, head, before), args.as_slice()),
            called_place(head, before, *at),
        ),
        _ => None,
    }
}

fn lacks_kind(constructor: Option<bool>, args: &[Arg]) -> bool
    ensures { result ≡ spec.lacks_kind constructor args.now }
{
    match constructor {
        Some(filled) => filled && !has_key(args) && args.len() < 2,
        None => false,
    }
}

fn without_kind(
    words: &Words<'_>,
    head: &Expr,
    before: &[Trailer],
    trailer: &Trailer,
) -> Option<Loc>
    ensures { result ≡ spec.without_kind words.now.tree.now head.now before.now trailer.now }
{
    match trailer {
        Trailer::Call(at, args) => mark(
            lacks_kind(constructor(words, head, before), args.as_slice()),
            called_place(head, before, *at),
        ),
        _ => None,
    }
}

fn no_kind(words: &Words<'_>, role: Role<'_>, x: &Expr) -> Option<Loc>
    ensures { result ≡ spec.no_kind words.now.tree.now (role_seen role.entry) x.now }
{
    match role {
        Role::Kind(maker) => mark(
            is_numpy(words, maker.base) && !is_kind(words, x),
            maker.function.loc,
        ),
        _ => None,
    }
}

fn large_exponent(x: &Expr) -> Option<Loc>
    ensures { result ≡ spec.large_exponent x.now }
{
    match x {
        Expr::Power(_, at, exponent) => mark(*exponent > GREATEST_EXPONENT, *at),
        _ => None,
    }
}

fn stands_as_kind(words: &Words<'_>, role: Role<'_>, x: &Expr) -> bool
    ensures { result ≡ spec.stands_as_kind words.now.tree.now (role_seen role.entry) x.now }
{
    match role {
        Role::Kind(maker) => is_numpy(words, maker.base) && is_kind(words, x),
        _ => false,
    }
}

fn is_applied(words: &Words<'_>, name: &Name) -> bool
    ensures { result ≡ spec.is_applied words.now.tree.now name.now }
{
    is_function(words, name) || is_built_in(name)
}

fn bare_name_head(words: &Words<'_>, trailers: &[Trailer], name: Option<&Name>) -> Option<Loc>
    ensures { result ≡ spec.bare_name_head words.now.tree.now trailers.now (option_map (λ x. x.now) name.entry) }
{
    match name {
        Some(name) => mark(
            (is_applied(words, name) && !begins_with_call(trailers))
                || (is_import(words, name) && !begins_with_attribute(trailers)),
            name.loc,
        ),
        None => None,
    }
}

fn bare_name(words: &Words<'_>, role: Role<'_>, x: &Expr) -> Option<Loc>
    ensures { result ≡ spec.bare_name words.now.tree.now (role_seen role.entry) x.now }
{
    match x {
        Expr::Name(name) => mark(
            !is_target(role)
                && !stands_as_kind(words, role, x)
                && (is_applied(words, name) || is_import(words, name)),
            name.loc,
        ),
        Expr::Primary(head, trailers) => {
            bare_name_head(words, trailers.as_slice(), name_in(head.get()))
        }
        _ => None,
    }
}

fn is_numpy_name(words: &Words<'_>, x: &Expr) -> bool
    ensures { result ≡ spec.some_name (spec.is_numpy words.now.tree.now) (spec.name_in x.now) }
{
    match name_in(x) {
        Some(name) => is_numpy(words, name),
        None => false,
    }
}

/// Whether a trailer with these before it picks from a name of `numpy`.
pub fn is_numpy_before(words: &Words<'_>, head: &Expr, before: &[Trailer]) -> bool
    ensures { result ≡ spec.is_numpy_before words.now.tree.now head.now before.now }
{
    is_empty(before) && is_numpy_name(words, head)
}

fn uncalled_method(
    words: &Words<'_>,
    head: &Expr,
    before: &[Trailer],
    trailer: &Trailer,
    after: &[Trailer],
) -> Option<Loc>
    ensures { result ≡ spec.uncalled_method words.now.tree.now head.now before.now trailer.now after.now }
{
    match trailer {
        Trailer::Attr(name) => mark(
            (is_method(name) || (is_numpy_function(name) && is_numpy_before(words, head, before)))
                && !begins_with_call(after),
            name.loc,
        ),
        _ => None,
    }
}

fn called_field(trailer: &Trailer, after: &[Trailer]) -> Option<Loc>
    ensures { result ≡ spec.called_field trailer.now after.now }
{
    match trailer {
        Trailer::Attr(name) => mark(is_field(name) && begins_with_call(after), name.loc),
        _ => None,
    }
}

fn is_number(x: &Expr) -> bool
    ensures { result ≡ spec.is_number x.now }
{
    match x {
        Expr::Int(_, _) => true,
        _ => false,
    }
}

fn is_literal(x: &Expr) -> bool
    ensures { result ≡ spec.is_literal x.now }
{
    match x {
        Expr::Int(_, _) => true,
        Expr::Prefix(sign, _, operand) => *sign == b'-' && is_number(operand.get()),
        _ => false,
    }
}

fn is_literal_sub(sub: &Sub) -> bool
    ensures { result ≡ spec.is_literal_sub sub.now }
{
    match sub {
        Sub::At(x) => is_literal(x),
        _ => false,
    }
}

fn is_literal_pick(trailer: &Trailer) -> bool
    ensures { result ≡ spec.is_literal_pick trailer.now }
{
    match trailer {
        Trailer::Pick(_, subs) => match only(subs.as_slice()) {
            Some(sub) => is_literal_sub(sub),
            None => false,
        },
        _ => false,
    }
}

fn is_shape(words: &Words<'_>, role: Role<'_>) -> bool
    ensures { result ≡ spec.is_shape words.now.tree.now (role_seen role.entry) }
{
    match role {
        Role::Shape(maker) => is_numpy(words, maker.base),
        _ => false,
    }
}

fn is_shape_use(words: &Words<'_>, role: Role<'_>, after: &[Trailer]) -> bool
    ensures { result ≡ spec.is_shape_use words.now.tree.now (role_seen role.entry) after.now }
{
    match after {
        [] => is_shape(words, role),
        [pick, others @ ..] => is_literal_pick(pick) && !(is_empty(others) && is_target(role)),
    }
}

fn stray_shape(
    words: &Words<'_>,
    role: Role<'_>,
    trailer: &Trailer,
    after: &[Trailer],
) -> Option<Loc>
    ensures { result ≡ spec.stray_shape words.now.tree.now (role_seen role.entry) trailer.now after.now }
{
    match trailer {
        Trailer::Attr(name) => mark(
            is_word(b"shape", name) && !is_shape_use(words, role, after),
            name.loc,
        ),
        _ => None,
    }
}

// ---- the rule

fn in_statement(words: &Words<'_>, last: bool, statement: &Stmt, first: Option<Loc>) -> Option<Loc>
    ensures { result ≡ soonest first (spec.statement_marks words.now.tree.now last statement.now) }
{
    let first = sooner(first, stray_return(last, statement));
    let first = sooner(first, loop_over_else(statement));
    sooner(first, no_own_call(words, statement))
}

fn in_expression(words: &Words<'_>, role: Role<'_>, x: &Expr, first: Option<Loc>) -> Option<Loc>
    ensures { result ≡ soonest first (spec.expression_marks words.now.tree.now (role_seen role.entry) x.now) }
{
    let first = sooner(first, stray_range(role, x));
    let first = sooner(first, stray_tuple(words, role, x));
    let first = sooner(first, no_target(role, x));
    let first = sooner(first, no_kind(words, role, x));
    let first = sooner(first, large_exponent(x));
    sooner(first, bare_name(words, role, x))
}

fn in_trailer(
    words: &Words<'_>,
    role: Role<'_>,
    head: &Expr,
    before: &[Trailer],
    trailer: &Trailer,
    after: &[Trailer],
    first: Option<Loc>,
) -> Option<Loc>
    ensures { result ≡ soonest first (spec.trailer_marks words.now.tree.now (role_seen role.entry) head.now
        before.now trailer.now after.now) }
{
    let first = sooner(first, stray_keyword(words, head, before, trailer));
    let first = sooner(first, without_kind(words, head, before, trailer));
    let first = sooner(first, uncalled_method(words, head, before, trailer, after));
    let first = sooner(first, called_field(trailer, after));
    sooner(first, stray_shape(words, role, trailer, after))
}

fn in_node(words: &Words<'_>, node: Node<'_>, first: Option<Loc>) -> Option<Loc>
    ensures { result ≡ soonest first (spec.marks words.now.tree.now (node_seen node.entry)) }
{
    match node {
        Node::Statement(last, statement) => in_statement(words, last, statement, first),
        Node::Expression(role, x) => in_expression(words, role, x, first),
        Node::Trailing(role, head, before, trailer, after) => {
            in_trailer(words, role, head, before, trailer, after, first)
        }
        Node::Bound(_) => first,
    }
}

fn in_nodes(words: &Words<'_>, nodes: &[Node<'_>], first: Option<Loc>) -> Option<Loc>
    ensures { result ≡ soonest first (flat_map (spec.marks words.now.tree.now) (map node_seen nodes.now)) }
{
    let mut first = first;
    for node in nodes {
        first = in_node(words, *node, first);
    }
    first
}

fn in_function(
    alloc: Global,
    words: &Words<'_>,
    function: &Function,
    first: Option<Loc>,
) -> Result<Option<Loc>, AllocError>
    ensures { IfOk result (λ least. least ≡ soonest first (spec.function_marks words.now.tree.now function.now)) }
{
    let listing = list_function(alloc, function)?;
    Ok(in_nodes(words, listing.nodes(), first))
}

fn in_functions(
    alloc: Global,
    words: &Words<'_>,
    functions: &[Function],
) -> Result<Option<Loc>, AllocError>
    ensures { IfOk result (λ least. least ≡ soonest None (flat_map (spec.function_marks words.now.tree.now)
        functions.now)) }
{
    let mut first = None;
    for function in functions {
        first = in_function(alloc, words, function, first)?;
    }
    Ok(first)
}

fn first_of(alloc: Global, tree: &Module) -> Result<Option<Loc>, AllocError>
    ensures { IfOk result (λ least. least ≡ soonest None (spec.module_marks tree.now)) }
{
    let words = words_of(alloc, tree)?;
    in_functions(alloc, &words, tree.functions.as_slice())
}

// The answer by the marks of all functions.
fn judged(alloc: Global, tree: &Module) -> Result<(), Stop>
    ensures { IsAnswer Rule.Profile (spec.module_marks tree.now) result }
{
    let first = first_of(alloc, tree)?;
    answer(Rule::Profile, first)
}

/// Tests the rule Profile alone, over the whole module.
///
/// The answer is yes exactly where no case of the rule's table stands in the module; [`Stop::Refused`] by
/// `Rule::Profile` at the
/// first place in the text at which one does; or [`Stop::Memory`]. It takes time nearly linear in the size of the tree.
pub fn profile(alloc: Global, tree: &Module) -> Result<(), Stop>
    ensures ok { OnOk result (spec.profile_places tree.now ≡ []) }
    ensures refused { IfErr result (RefusesAt Rule.Profile (spec.profile_places tree.now)) }
    ensures only { spec.profile_places tree.now ≡ [] → IsOnlyYes result }
    ensures place { (at : Loc) → IsFirst at (spec.profile_places tree.now) → IsOnlyAt Rule.Profile at result }
{
    judged(alloc, tree)
}
