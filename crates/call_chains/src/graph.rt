//! Which function calls which, and where.

ghost use Rattle.std.specs.Prelude.{◌≡◌, ◌<◌, ◌^◌, ◌++◌, ◌∷◌, [], None, length, map, flat_map, option_map, IfOk, OnOk};
ghost use Rattle.std.specs.Prelude.{List};
ghost use Rattle.module_names.specs.Seen.{node_seen};
ghost use Rattle.module_names.specs.Words.{Bytes};
ghost use Rattle.py_parse.specs.declared.tree.Function.{Function as FunctionTree};
ghost use Rattle.call_chains.specs.Calls as spec;
ghost use Rattle.call_chains.specs.Numbers.{found, AreOf};

use indexmap::IndexMap;
use krn_base::{Loc, Seq};
use module_names::{Node, begins_with_call, list_function, name_in};
use py_parse::{Expr, Function, Module, Name, Trailer};
use std::alloc::{AllocError, Global};

/// A call of a function of the same module: the number of that function in the order of the text, and the place of its
/// name in the call.
#[derive(Clone, Copy, Debug, PartialEq, Eq, Drop)]
pub struct OwnCall {
    pub callee: usize,
    pub at: Loc,
}

/// The numbers of a module's functions by their names; of two functions with one name the first counts.
#[derive(Drop)]
pub struct Numbers<'a> {
    map: IndexMap<&'a [u8], usize>,
}

/// No numbers. Takes no memory.
fn no_numbers<'a>(alloc: Global) -> Numbers<'a>
    ensures { (text : Bytes) → found result text ≡ None }
{
    Numbers {
        map: IndexMap::new(alloc),
    }
}

fn number_of(numbers: &Numbers<'_>, text: &[u8]) -> Option<usize>
    ensures { result ≡ found numbers.now text.now }
{
    numbers.map.get(&text).copied()
}

/// Gives a function the next number, where its name has none.
fn add_function<'a>(
    numbers: &mut Numbers<'a>,
    function: &'a Function,
    number: usize,
) -> Result<(), AllocError>
    ensures { OnOk result ((before : List FunctionTree) → length before ≡ number → AreOf numbers.old before
        → AreOf numbers.new (before ++ function.now ∷ [])) }
{
    let name = function.name.text.as_slice();
    match number_of(numbers, name) {
        Some(_known) => Ok(()),
        None => {
            numbers.map.insert(name, number)?;
            Ok(())
        }
    }
}

/// The numbers of functions in their order.
fn numbers_of(alloc: Global, functions: &[Function]) -> Result<Numbers<'_>, AllocError>
    ensures { IfOk result (λ numbers. AreOf numbers functions.now) }
{
    let mut numbers = no_numbers(alloc);
    for at in 0..functions.len() {
        add_function(&mut numbers, &functions[at], at)?;
    }
    Ok(numbers)
}

/// The name, where a call stands behind it.
fn called_with<'a>(trailers: &[Trailer], name: Option<&'a Name>) -> Option<&'a Name>
    ensures { option_map (λ x. x.now) result ≡ spec.called_with trailers.now (option_map (λ x. x.now) name.entry) }
{
    if begins_with_call(trailers) {
        name
    } else {
        None
    }
}

/// The name that an expression calls.
fn called_in(x: &Expr) -> Option<&Name>
    ensures { option_map (λ x. x.now) result ≡ spec.called_in x.now }
{
    match x {
        Expr::Primary(head, trailers) => called_with(trailers.as_slice(), name_in(head.get())),
        _ => None,
    }
}

/// Adds the call of a name, where it is a function's.
fn add_named(numbers: &Numbers<'_>, name: &Name, calls: &mut Seq<OwnCall>) -> Result<(), AllocError>
    ensures { OnOk result ((functions : List FunctionTree) → AreOf numbers.now functions
        → calls.new ≡ calls.old ++ spec.numbered name.now.loc (spec.number_of functions name.now.text)) }
{
    match number_of(numbers, name.text.as_slice()) {
        Some(callee) => calls.push(OwnCall {
            callee,
            at: name.loc,
        }),
        None => Ok(()),
    }
}

/// Adds the own call that a node is.
fn add_node(
    numbers: &Numbers<'_>,
    node: Node<'_>,
    calls: &mut Seq<OwnCall>,
) -> Result<(), AllocError>
    ensures { OnOk result ((functions : List FunctionTree) → AreOf numbers.now functions
        → calls.new ≡ calls.old ++ spec.node_calls functions (node_seen node.entry)) }
{
    match node {
        Node::Expression(_, x) => match called_in(x) {
            Some(name) => add_named(numbers, name, calls),
            None => Ok(()),
        },
        _ => Ok(()),
    }
}

fn calls_of(
    alloc: Global,
    numbers: &Numbers<'_>,
    nodes: &[Node<'_>],
) -> Result<Seq<OwnCall>, AllocError>
    ensures { IfOk result (λ calls. (functions : List FunctionTree) → AreOf numbers.now functions
        → calls ≡ flat_map (spec.node_calls functions) (map node_seen nodes.now)) }
{
    let mut calls = Seq::new(alloc);
    for node in nodes {
        add_node(numbers, *node, &mut calls)?;
    }
    Ok(calls)
}

/// The own calls of a function.
fn calls_in(
    alloc: Global,
    numbers: &Numbers<'_>,
    function: &Function,
) -> Result<Seq<OwnCall>, AllocError>
    ensures { IfOk result (λ calls. (functions : List FunctionTree) → AreOf numbers.now functions
        → calls ≡ spec.calls_in functions function.now) }
{
    let listing = list_function(alloc, function)?;
    calls_of(alloc, numbers, listing.nodes())
}

/// The own calls of each function of a module. Takes time linear in the tree, but for the map of names.
pub fn own_calls(alloc: Global, tree: &Module) -> Result<Seq<Seq<OwnCall>>, AllocError>
    ensures { IfOk result (λ rows. rows ≡ spec.own_calls tree.now) }
{
    let functions = tree.functions.as_slice();
    let numbers = numbers_of(alloc, functions)?;
    let mut rows = Seq::new(alloc);
    for function in functions {
        rows.push(calls_in(alloc, &numbers, function)?)?;
    }
    Ok(rows)
}
