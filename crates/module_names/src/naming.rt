//! The rule Name: names that nothing gives, and names that are taken.

ghost use Rattle.std.specs.Prelude.{◌≡◌, [], ◌∷◌, ◌++◌, List, IfOk, IfErr, OnOk, None, flat_map, map, option_map};
ghost use Rattle.krn_base.specs.declared.place.Loc.{Loc};
ghost use Rattle.module_names.specs.Names as spec;
ghost use Rattle.module_names.specs.Nodes as kind;
ghost use Rattle.module_names.specs.Places.{soonest, in_turn, IsFirst, RefusesAt, IsOnlyYes, IsOnlyAt, IsAnswer};
ghost use Rattle.module_names.specs.Seen.{role_seen, node_seen};
ghost use Rattle.module_names.specs.Sets.{Holds};
ghost use Rattle.module_names.specs.Words as word;

use crate::forms::{begins_with_call, is_empty, is_numpy_before};
use crate::least::{answer, mark, sooner};
use crate::listing::list_function;
use crate::node::{Node, Role, name_in};
use crate::set::{NameSet, add, is_held, no_names};
use crate::words::{
    Words, is_built_in, is_callable, is_field, is_function, is_import, is_method, is_numpy,
    is_numpy_function, is_numpy_kind, is_word, words_of,
};
use krn_base::{Loc, Rule, Stop};
use py_parse::{Expr, Function, Import, Module, Name, Trailer};
use std::alloc::{AllocError, Global};

// ---- imports, definitions and parameters

fn foreign_module(import: &Import) -> Option<Loc>
    ensures { result ≡ spec.foreign_module import.now }
{
    mark(!is_word(b"numpy", &import.module), import.module.loc)
}

fn built_in_alias(import: &Import) -> Option<Loc>
    ensures { result ≡ spec.built_in_alias import.now }
{
    mark(is_built_in(&import.alias), import.alias.loc)
}

fn in_import(import: &Import, first: Option<Loc>) -> Option<Loc>
    ensures { result ≡ soonest first (spec.import_marks import.now) }
{
    let first = sooner(first, foreign_module(import));
    sooner(first, built_in_alias(import))
}

fn in_imports(imports: &[Import]) -> Option<Loc>
    ensures { result ≡ soonest None (flat_map spec.import_marks imports.now) }
{
    let mut first = None;
    for import in imports {
        first = in_import(import, first);
    }
    first
}

fn taken_definition(words: &Words<'_>, name: &Name) -> Option<Loc>
    ensures { result ≡ spec.taken_definition words.now.tree.now name.now }
{
    mark(is_built_in(name) || is_import(words, name), name.loc)
}

fn in_definition<'a>(
    words: &Words<'_>,
    function: &'a Function,
    met: &mut NameSet<'a>,
    first: Option<Loc>,
) -> Result<Option<Loc>, AllocError>
    ensures least { IfOk result (λ least. (before : List Function) → Holds word.is_called met.old before → least
        ≡ soonest first (spec.definition_marks words.now.tree.now before function.now)) }
    ensures met { OnOk result ((before : List Function) → Holds word.is_called met.old before
        → Holds word.is_called met.new (before ++ function.now ∷ [])) }
{
    let second = add(met, function.name.text.as_slice())?;
    let first = sooner(first, taken_definition(words, &function.name));
    Ok(sooner(first, mark(second, function.name.loc)))
}

fn in_definitions(
    alloc: Global,
    words: &Words<'_>,
    functions: &[Function],
    first: Option<Loc>,
) -> Result<Option<Loc>, AllocError>
    ensures { IfOk result (λ least. least ≡ soonest first (in_turn (spec.definition_marks words.now.tree.now) []
        functions.now)) }
{
    let mut first = first;
    let mut met = no_names(alloc);
    for function in functions {
        first = in_definition(words, function, &mut met, first)?;
    }
    Ok(first)
}

fn in_param<'a>(
    param: &'a Name,
    met: &mut NameSet<'a>,
    first: Option<Loc>,
) -> Result<Option<Loc>, AllocError>
    ensures least { IfOk result (λ least. (before : List Name) → Holds word.is_same met.old before → least
        ≡ soonest first (spec.second_param before param.now)) }
    ensures met { OnOk result ((before : List Name) → Holds word.is_same met.old before → Holds word.is_same met.new
        (before ++ param.now ∷ [])) }
{
    let second = add(met, param.text.as_slice())?;
    Ok(sooner(first, mark(second, param.loc)))
}

fn in_params(alloc: Global, params: &[Name], first: Option<Loc>) -> Result<Option<Loc>, AllocError>
    ensures { IfOk result (λ least. least ≡ soonest first (in_turn spec.second_param [] params.now)) }
{
    let mut first = first;
    let mut met = no_names(alloc);
    for param in params {
        first = in_param(param, &mut met, first)?;
    }
    Ok(first)
}

// ---- bodies

/// Whether a name is a function's, an import's or a built-in name.
pub fn is_taken(words: &Words<'_>, name: &Name) -> bool
    ensures { result ≡ spec.is_taken words.now.tree.now name.now }
{
    is_function(words, name) || is_import(words, name) || is_built_in(name)
}

fn taken_name(words: &Words<'_>, name: &Name) -> Option<Loc>
    ensures { result ≡ spec.taken_name words.now.tree.now name.now }
{
    mark(is_taken(words, name), name.loc)
}

fn unknown(words: &Words<'_>, bound: &NameSet<'_>, name: &Name) -> Option<Loc>
    ensures { (before : List kind.Node) → Holds spec.binds bound.now before → result
        ≡ spec.unknown words.now.tree.now before name.now }
{
    mark(
        !(is_taken(words, name) || is_held(bound, name.text.as_slice())),
        name.loc,
    )
}

fn uncallable(words: &Words<'_>, name: &Name) -> Option<Loc>
    ensures { result ≡ spec.uncallable words.now.tree.now name.now }
{
    mark(!(is_function(words, name) || is_callable(name)), name.loc)
}

/// Whether an expression that stands so is the target of `=`.
pub fn is_assigned(role: Role<'_>) -> bool
    ensures { result ≡ spec.is_assigned (role_seen role.entry) }
{
    match role {
        Role::Assigned => true,
        _ => false,
    }
}

fn trailed_name(
    words: &Words<'_>,
    bound: &NameSet<'_>,
    trailers: &[Trailer],
    name: Option<&Name>,
) -> Option<Loc>
    ensures { (before : List kind.Node) → Holds spec.binds bound.now before → result
        ≡ spec.trailed_name words.now.tree.now before trailers.now (option_map (λ x. x.now) name.entry) }
{
    match name {
        Some(name) => {
            if begins_with_call(trailers) {
                uncallable(words, name)
            } else {
                unknown(words, bound, name)
            }
        }
        None => None,
    }
}

fn read(words: &Words<'_>, bound: &NameSet<'_>, role: Role<'_>, x: &Expr) -> Option<Loc>
    ensures { (before : List kind.Node) → Holds spec.binds bound.now before → result ≡ spec.read words.now.tree.now
        before (role_seen role.entry) x.now }
{
    match x {
        Expr::Name(name) => {
            if is_assigned(role) {
                None
            } else {
                unknown(words, bound, name)
            }
        }
        Expr::Primary(head, trailers) => {
            trailed_name(words, bound, trailers.as_slice(), name_in(head.get()))
        }
        _ => None,
    }
}

fn stands_as_kind(words: &Words<'_>, role: Role<'_>, after: &[Trailer]) -> bool
    ensures { result ≡ spec.stands_as_kind words.now.tree.now (role_seen role.entry) after.now }
{
    match role {
        Role::Kind(maker) => is_numpy(words, maker.base) && is_empty(after),
        _ => false,
    }
}

fn is_known(
    words: &Words<'_>,
    role: Role<'_>,
    of_numpy: bool,
    name: &Name,
    after: &[Trailer],
) -> bool
    ensures { result ≡ spec.is_known words.now.tree.now (role_seen role.entry) of_numpy name.now after.now }
{
    if of_numpy {
        is_numpy_function(name) || (is_numpy_kind(name) && stands_as_kind(words, role, after))
    } else {
        is_method(name) || is_field(name)
    }
}

fn unknown_attribute(
    words: &Words<'_>,
    role: Role<'_>,
    head: &Expr,
    before: &[Trailer],
    trailer: &Trailer,
    after: &[Trailer],
) -> Option<Loc>
    ensures { result ≡ spec.unknown_attribute words.now.tree.now (role_seen role.entry) head.now before.now
        trailer.now after.now }
{
    match trailer {
        Trailer::Attr(name) => mark(
            !is_known(
                words,
                role,
                is_numpy_before(words, head, before),
                name,
                after,
            ),
            name.loc,
        ),
        _ => None,
    }
}

fn in_node(words: &Words<'_>, bound: &NameSet<'_>, node: Node<'_>) -> Option<Loc>
    ensures { (before : List kind.Node) → Holds spec.binds bound.now before → result
        ≡ spec.node_mark words.now.tree.now before (node_seen node.entry) }
{
    match node {
        Node::Statement(_, _) => None,
        Node::Expression(role, x) => read(words, bound, role, x),
        Node::Trailing(role, head, before, trailer, after) => {
            unknown_attribute(words, role, head, before, trailer, after)
        }
        Node::Bound(name) => taken_name(words, name),
    }
}

fn bind<'a>(node: Node<'a>, bound: &mut NameSet<'a>) -> Result<(), AllocError>
    ensures { OnOk result ((before : List kind.Node) → Holds spec.binds bound.old before → Holds spec.binds bound.new
        (before ++ node_seen node.entry ∷ [])) }
{
    match node {
        Node::Statement(_, _) => Ok(()),
        Node::Expression(_, _) => Ok(()),
        Node::Trailing(_, _, _, _, _) => Ok(()),
        Node::Bound(name) => {
            add(bound, name.text.as_slice())?;
            Ok(())
        }
    }
}

fn in_nodes(
    alloc: Global,
    words: &Words<'_>,
    nodes: &[Node<'_>],
    first: Option<Loc>,
) -> Result<Option<Loc>, AllocError>
    ensures { IfOk result (λ least. least ≡ soonest first (in_turn (spec.node_marks words.now.tree.now) []
        (map node_seen nodes.now))) }
{
    let mut first = first;
    let mut bound = no_names(alloc);
    for node in nodes {
        first = sooner(first, in_node(words, &bound, *node));
        bind(*node, &mut bound)?;
    }
    Ok(first)
}

#[tactic(auto, using(crate::proofs::Loops::soonest_append))]
fn in_function(
    alloc: Global,
    words: &Words<'_>,
    function: &Function,
    first: Option<Loc>,
) -> Result<Option<Loc>, AllocError>
    ensures { IfOk result (λ least. least ≡ soonest first (spec.function_marks words.now.tree.now function.now)) }
{
    let first = in_params(alloc, function.params.as_slice(), first)?;
    let listing = list_function(alloc, function)?;
    in_nodes(alloc, words, listing.nodes(), first)
}

fn in_functions(
    alloc: Global,
    words: &Words<'_>,
    functions: &[Function],
    first: Option<Loc>,
) -> Result<Option<Loc>, AllocError>
    ensures { IfOk result (λ least. least ≡ soonest first (flat_map (spec.function_marks words.now.tree.now)
        functions.now)) }
{
    let mut first = first;
    for function in functions {
        first = in_function(alloc, words, function, first)?;
    }
    Ok(first)
}

#[tactic(auto, using(crate::proofs::Loops::soonest_append))]
fn first_of(alloc: Global, tree: &Module) -> Result<Option<Loc>, AllocError>
    ensures { IfOk result (λ least. least ≡ soonest None (spec.module_marks tree.now)) }
{
    let words = words_of(alloc, tree)?;
    let first = in_imports(tree.imports.as_slice());
    let first = in_definitions(alloc, &words, tree.functions.as_slice(), first)?;
    in_functions(alloc, &words, tree.functions.as_slice(), first)
}

// The answer by the marks of the whole module.
fn judged(alloc: Global, tree: &Module) -> Result<(), Stop>
    ensures { IsAnswer Rule.Name (spec.module_marks tree.now) result }
{
    let first = first_of(alloc, tree)?;
    answer(Rule::Name, first)
}

/// Tests the rule Name alone, over the whole module.
///
/// The answer is yes exactly where each name is given and none is taken twice; [`Stop::Refused`] by `Rule::Name` at
/// the first place in
/// the text at which one isn't given or is taken already; or [`Stop::Memory`]. Names are looked up in maps, so it
/// takes time nearly
/// linear in the size of the tree.
pub fn names(alloc: Global, tree: &Module) -> Result<(), Stop>
    ensures ok { OnOk result (spec.name_places tree.now ≡ []) }
    ensures refused { IfErr result (RefusesAt Rule.Name (spec.name_places tree.now)) }
    ensures only { spec.name_places tree.now ≡ [] → IsOnlyYes result }
    ensures place { (at : Loc) → IsFirst at (spec.name_places tree.now) → IsOnlyAt Rule.Name at result }
{
    judged(alloc, tree)
}
