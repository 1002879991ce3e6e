//! The listing of a function, in the order of its text, but that in a statement the reads come before the binding.

ghost use Rattle.std.specs.Prelude.{◌≡◌, ◌++◌, ◌∷◌, [], ◌+◌, ◌<◌, ◌&&◌, drop, take, length, ◌^◌, IfOk, OnOk, false};
ghost use Rattle.std.specs.Prelude.{map, flat_map, option_map, Some};
ghost use Rattle.module_names.specs.Listing as spec;
ghost use Rattle.module_names.specs.Nodes as kind;
ghost use Rattle.module_names.specs.Seen.{maker_seen, role_seen, node_seen, listed};

use crate::node::{Maker, Node, Role, name_in, only, picked};
use crate::words::{is_filled, is_word};
use krn_base::{BinOp, Loc, Seq};
use py_parse::{Arg, Expr, Function, Name, Stmt, Sub, Trailer};
use std::alloc::{AllocError, Global};

/// A listing that grows.
#[derive(Drop)]
pub struct Listing<'a> {
    nodes: Vec<Node<'a>>,
}

impl<'a> Listing<'a> {
    fn new(alloc: Global) -> Listing<'a>
        ensures { listed result ≡ [] }
    {
        Listing {
            nodes: Vec::new(alloc),
        }
    }

    /// The nodes in order.
    pub fn nodes(&self) -> &[Node<'a>]
        ensures { map node_seen result.now ≡ listed self.now }
    {
        self.nodes.as_slice()
    }

    fn push(&mut self, node: Node<'a>) -> Result<(), AllocError>
        ensures { OnOk result (listed self.new ≡ listed self.old ++ node_seen node.entry ∷ []) }
    {
        self.nodes.push(node)?;
        Ok(())
    }
}

fn made<'a>(base: &'a Name, function: &'a Name) -> Option<Maker<'a>>
    ensures { option_map maker_seen result ≡ spec.maker_by (Some (base.now, function.now)) }
{
    if is_filled(function) {
        Some(Maker {
            base,
            function,
            filled: true,
        })
    } else if is_word(b"arange", function) {
        Some(Maker {
            base,
            function,
            filled: false,
        })
    } else {
        None
    }
}

/// The constructor by name that these trailers call, if a call follows.
pub fn maker<'a>(head: &'a Expr, before: &'a [Trailer]) -> Option<Maker<'a>>
    ensures { option_map maker_seen result ≡ spec.maker head.now before.now }
{
    match picked(head, before) {
        Some((base, function)) => made(base, function),
        None => None,
    }
}

fn maker_role<'a>(maker: Maker<'a>, keyed: bool, plain: usize) -> Role<'a>
    ensures { role_seen result ≡ spec.argument_role (Some (maker_seen maker.entry)) keyed plain }
{
    if keyed {
        Role::Kind(maker)
    } else if maker.filled && plain == 0 {
        Role::Shape(maker)
    } else if maker.filled && plain == 1 {
        Role::Kind(maker)
    } else {
        Role::Operand
    }
}

/// Where an argument stands: whether it has a key, and how many without one stand before it.
fn argument_role<'a>(maker: Option<Maker<'a>>, keyed: bool, plain: usize) -> Role<'a>
    ensures { role_seen result ≡ spec.argument_role (option_map maker_seen maker.entry) keyed plain }
{
    match maker {
        None => Role::Operand,
        Some(maker) => maker_role(maker, keyed, plain),
    }
}

/// Whether an argument has a key.
pub fn is_keyed(arg: &Arg) -> bool
    ensures { result ≡ spec.is_keyed arg.now }
{
    arg.key.is_some()
}

/// How many arguments without a key there are with one more.
fn counted(keyed: bool, plain: usize) -> usize
    requires { plain + 1 < 2 ^ 64 }
    ensures { result ≡ spec.counted keyed plain }
{
    if keyed { plain } else { plain + 1 }
}

// An expression, and what stands inside it.
#[cycle(expressions)]
fn list_expr<'a>(x: &'a Expr, role: Role<'a>, out: &mut Listing<'a>) -> Result<(), AllocError>
    ensures { OnOk result (listed out.new ≡ listed out.old ++ spec.expr_nodes (role_seen role.entry) x.now) }
{
    out.push(Node::Expression(role, x))?;
    list_inside(x, role, out)
}

#[cycle(expressions)]
#[tactic(auto, using(crate::proofs::Inside::inside))]
fn list_inside<'a>(x: &'a Expr, role: Role<'a>, out: &mut Listing<'a>) -> Result<(), AllocError>
    ensures { OnOk result (listed out.new ≡ listed out.old ++ spec.inner_nodes x.now (role_seen role.entry)) }
{
    match x {
        Expr::Name(_) => Ok(()),
        Expr::Int(_, _) => Ok(()),
        Expr::Truth(_, _) => Ok(()),
        Expr::Tuple(_, items) => list_exprs(items.as_slice(), out),
        Expr::Chain(first, links) => {
            list_expr(first.get(), Role::Operand, out)?;
            list_links(links.as_slice(), out)
        }
        Expr::Logic(_, first, links) => {
            list_expr(first.get(), Role::Operand, out)?;
            list_conditions(links.as_slice(), out)
        }
        Expr::Not(_, operand) => list_expr(operand.get(), Role::Operand, out),
        Expr::Prefix(_, _, operand) => list_expr(operand.get(), Role::Operand, out),
        Expr::Power(base, _, _) => list_expr(base.get(), Role::Operand, out),
        Expr::Primary(head, trailers) => {
            list_head(head.get(), out)?;
            list_trailers(trailers.as_slice(), role, head.get(), out)
        }
    }
}

#[cycle(expressions)]
fn list_exprs<'a>(items: &'a [Expr], out: &mut Listing<'a>) -> Result<(), AllocError>
    ensures { OnOk result (listed out.new ≡ listed out.old ++ flat_map (spec.expr_nodes kind.Operand) items.now) }
{
    for x in items {
        list_expr(x, Role::Operand, out)?;
    }
    Ok(())
}

#[cycle(expressions)]
fn list_links<'a>(links: &'a [(BinOp, Loc, Expr)], out: &mut Listing<'a>) -> Result<(), AllocError>
    ensures { OnOk result (listed out.new ≡ listed out.old ++ flat_map (λ link. spec.expr_nodes kind.Operand link.2)
        links.now) }
{
    for link in links {
        list_expr(&link.2, Role::Operand, out)?;
    }
    Ok(())
}

#[cycle(expressions)]
fn list_conditions<'a>(links: &'a [(Loc, Expr)], out: &mut Listing<'a>) -> Result<(), AllocError>
    ensures { OnOk result (listed out.new ≡ listed out.old ++ flat_map (λ link. spec.expr_nodes kind.Operand link.1)
        links.now) }
{
    for link in links {
        list_expr(&link.1, Role::Operand, out)?;
    }
    Ok(())
}

// What stands before trailers, where it is no name.
#[cycle(expressions)]
fn list_head<'a>(head: &'a Expr, out: &mut Listing<'a>) -> Result<(), AllocError>
    ensures { OnOk result (listed out.new ≡ listed out.old ++ spec.head_by (spec.name_in head.now)
        (spec.expr_nodes kind.Operand head.now)) }
{
    match head {
        Expr::Name(_) => Ok(()),
        _ => list_expr(head, Role::Operand, out),
    }
}

fn front(trailers: &[Trailer], at: usize) -> &[Trailer]
    requires { at < length trailers.now }
    ensures { result.now ≡ take at trailers.now }
{
    &trailers[..at]
}

fn back(trailers: &[Trailer], at: usize) -> &[Trailer]
    requires { at < length trailers.now }
    ensures { result.now ≡ drop (at + 1) trailers.now }
{
    &trailers[at + 1..]
}

#[cycle(expressions)]
fn list_trailers<'a>(
    trailers: &'a [Trailer],
    role: Role<'a>,
    head: &'a Expr,
    out: &mut Listing<'a>,
) -> Result<(), AllocError>
    ensures { OnOk result (listed out.new ≡ listed out.old ++ spec.trailers_nodes (role_seen role.entry) head.now []
        (map spec.paired_trailer trailers.now)) }
{
    for at in 0..trailers.len() {
        let before = front(trailers, at);
        let trailer = &trailers[at];
        let after = back(trailers, at);
        out.push(Node::Trailing(role, head, before, trailer, after))?;
        list_trailer(trailer, maker(head, before), out)?;
    }
    Ok(())
}

#[cycle(expressions)]
#[tactic(auto, using(crate::proofs::Inside::inside))]
fn list_trailer<'a>(
    trailer: &'a Trailer,
    maker: Option<Maker<'a>>,
    out: &mut Listing<'a>,
) -> Result<(), AllocError>
    ensures { OnOk result (listed out.new ≡ listed out.old ++ spec.trailer_nodes trailer.now (option_map maker_seen
        maker.entry)) }
{
    match trailer {
        Trailer::Call(_, args) => list_args(args.as_slice(), maker, out),
        Trailer::Pick(_, subs) => list_subs(subs.as_slice(), out),
        Trailer::Attr(_) => Ok(()),
    }
}

// An argument, behind so many without a key; how many there are with it.
#[cycle(expressions)]
#[tactic(auto, using(crate::proofs::Inside::inside))]
fn list_arg<'a>(
    arg: &'a Arg,
    maker: Option<Maker<'a>>,
    plain: usize,
    out: &mut Listing<'a>,
) -> Result<usize, AllocError>
    requires { plain + 1 < 2 ^ 64 }
    ensures nodes { OnOk result (listed out.new ≡ listed out.old ++ spec.arg_nodes arg.now (spec.argument_role
        (option_map maker_seen maker.entry) (spec.is_keyed arg.now) plain)) }
    ensures plain { IfOk result (λ n. n ≡ spec.counted (spec.is_keyed arg.now) plain) }
{
    let role = argument_role(maker, is_keyed(arg), plain);
    list_expr(&arg.value, role, out)?;
    Ok(counted(is_keyed(arg), plain))
}

#[cycle(expressions)]
fn list_args<'a>(
    args: &'a [Arg],
    maker: Option<Maker<'a>>,
    out: &mut Listing<'a>,
) -> Result<(), AllocError>
    ensures { OnOk result (listed out.new ≡ listed out.old ++ spec.args_nodes (option_map maker_seen maker.entry) 0
        (map spec.paired_arg args.now)) }
{
    let mut plain = 0usize;
    for arg in args {
        plain = list_arg(arg, maker, plain, out)?;
    }
    Ok(())
}

#[cycle(expressions)]
fn list_subs<'a>(subs: &'a [Sub], out: &mut Listing<'a>) -> Result<(), AllocError>
    ensures { OnOk result (listed out.new ≡ listed out.old ++ flat_map spec.sub_nodes subs.now) }
{
    for sub in subs {
        list_sub(sub, out)?;
    }
    Ok(())
}

#[cycle(expressions)]
#[tactic(auto, using(crate::proofs::Inside::inside))]
fn list_sub<'a>(sub: &'a Sub, out: &mut Listing<'a>) -> Result<(), AllocError>
    ensures { OnOk result (listed out.new ≡ listed out.old ++ spec.sub_nodes sub.now) }
{
    match sub {
        Sub::At(x) => list_expr(x, Role::Operand, out),
        Sub::Cut(start, stop, step) => {
            list_bound(start, out)?;
            list_bound(stop, out)?;
            list_bound(step, out)
        }
    }
}

#[cycle(expressions)]
fn list_bound<'a>(bound: &'a Option<Expr>, out: &mut Listing<'a>) -> Result<(), AllocError>
    ensures { OnOk result (listed out.new ≡ listed out.old ++ spec.bound_nodes bound.now) }
{
    match bound {
        Some(x) => list_expr(x, Role::Operand, out),
        None => Ok(()),
    }
}

// The name that a target is.
fn list_binding<'a>(target: &'a Expr, out: &mut Listing<'a>) -> Result<(), AllocError>
    ensures { OnOk result (listed out.new ≡ listed out.old ++ spec.binding (spec.name_in target.now)) }
{
    match name_in(target) {
        Some(name) => out.push(Node::Bound(name)),
        None => Ok(()),
    }
}

fn list_values<'a>(values: &'a [Expr], out: &mut Listing<'a>) -> Result<(), AllocError>
    ensures { OnOk result (listed out.new ≡ listed out.old ++ spec.values_by values.now (spec.only values.now)) }
{
    match only(values) {
        Some(value) => list_expr(value, Role::Whole, out),
        None => list_exprs(values, out),
    }
}

// A statement, and what stands inside it.
#[cycle(statements)]
fn list_stmt<'a>(statement: &'a Stmt, last: bool, out: &mut Listing<'a>) -> Result<(), AllocError>
    ensures { OnOk result (listed out.new ≡ listed out.old ++ spec.stmt_nodes last statement.now) }
{
    out.push(Node::Statement(last, statement))?;
    list_parts(statement, last, out)
}

fn list_assignment<'a>(
    target: &'a Expr,
    role: Role<'a>,
    value: &'a Expr,
    out: &mut Listing<'a>,
) -> Result<(), AllocError>
    ensures { OnOk result (listed out.new ≡ listed out.old ++ (spec.expr_nodes (role_seen role.entry) target.now
        ++ (spec.expr_nodes kind.Operand value.now ++ spec.binding (spec.name_in target.now)))) }
{
    list_expr(target, role, out)?;
    list_expr(value, Role::Operand, out)?;
    list_binding(target, out)
}

#[cycle(statements)]
#[tactic(auto, using(crate::proofs::Inside::parts))]
fn list_parts<'a>(statement: &'a Stmt, last: bool, out: &mut Listing<'a>) -> Result<(), AllocError>
    ensures { OnOk result (listed out.new ≡ listed out.old ++ spec.inside_stmt statement.now last) }
{
    match statement {
        Stmt::Doc => Ok(()),
        Stmt::Pass => Ok(()),
        Stmt::Return(_, values) => list_values(values.as_slice(), out),
        Stmt::Alone(x) => list_expr(x, Role::Operand, out),
        Stmt::Assign(target, _, value) => list_assignment(target, Role::Assigned, value, out),
        Stmt::Augment(target, _, _, value) => list_assignment(target, Role::Updated, value, out),
        Stmt::If(arms, otherwise) => list_if(arms.as_slice(), otherwise.as_slice(), last, out),
        Stmt::For(_, variable, over, body) => list_loop(body.as_slice(), variable, over, out),
    }
}

#[cycle(statements)]
fn list_if<'a>(
    arms: &'a [(Loc, Expr, Seq<Stmt>)],
    otherwise: &'a [Stmt],
    last: bool,
    out: &mut Listing<'a>,
) -> Result<(), AllocError>
    ensures { OnOk result (listed out.new ≡ listed out.old ++ (flat_map (spec.arm_nodes last) arms.now
        ++ spec.block_nodes last otherwise.now)) }
{
    list_arms(arms, last, out)?;
    list_block(otherwise, last, out)
}

// What a `for` runs through stands before the variable is bound.
#[cycle(statements)]
fn list_loop<'a>(
    body: &'a [Stmt],
    variable: &'a Name,
    over: &'a Expr,
    out: &mut Listing<'a>,
) -> Result<(), AllocError>
    ensures { OnOk result (listed out.new ≡ listed out.old
        ++ (spec.expr_nodes kind.Iterated over.now ++ (kind.Bound variable.now ∷ spec.block_nodes false body.now))) }
{
    list_expr(over, Role::Iterated, out)?;
    out.push(Node::Bound(variable))?;
    list_block(body, false, out)
}

#[cycle(statements)]
fn list_arms<'a>(
    arms: &'a [(Loc, Expr, Seq<Stmt>)],
    last: bool,
    out: &mut Listing<'a>,
) -> Result<(), AllocError>
    ensures { OnOk result (listed out.new ≡ listed out.old ++ flat_map (spec.arm_nodes last) arms.now) }
{
    for arm in arms {
        list_expr(&arm.1, Role::Operand, out)?;
        list_block(arm.2.as_slice(), last, out)?;
    }
    Ok(())
}

/// Whether a statement is as last as its block.
#[tactic(auto, using(crate::proofs::Steps::empty_drop))]
fn is_last(last: bool, at: usize, block: &[Stmt]) -> bool
    requires { at < length block.now }
    ensures { result ≡ (last && spec.is_empty (drop (at + 1) block.now)) }
{
    last && at + 1 == block.len()
}

#[cycle(statements)]
fn list_block<'a>(block: &'a [Stmt], last: bool, out: &mut Listing<'a>) -> Result<(), AllocError>
    ensures { OnOk result (listed out.new ≡ listed out.old ++ spec.block_nodes last block.now) }
{
    for at in 0..block.len() {
        list_stmt(&block[at], is_last(last, at, block), out)?;
    }
    Ok(())
}

fn list_params<'a>(params: &'a [Name], out: &mut Listing<'a>) -> Result<(), AllocError>
    ensures { OnOk result (listed out.new ≡ listed out.old ++ map kind.Bound params.now) }
{
    for param in params {
        out.push(Node::Bound(param))?;
    }
    Ok(())
}

/// The listing of a function: its parameters, and its body.
pub fn list_function(alloc: Global, function: &Function) -> Result<Listing<'_>, AllocError>
    ensures { IfOk result (λ listing. listed listing ≡ spec.function_nodes function.now) }
{
    let mut out = Listing::new(alloc);
    list_params(function.params.as_slice(), &mut out)?;
    list_block(function.body.as_slice(), true, &mut out)?;
    Ok(out)
}

/// The listing of an expression that stands so, with what stands inside it.
pub fn list_expression<'a>(
    alloc: Global,
    x: &'a Expr,
    role: Role<'a>,
) -> Result<Listing<'a>, AllocError>
    ensures { IfOk result (λ listing. listed listing ≡ spec.expr_nodes (role_seen role.entry) x.now) }
{
    let mut out = Listing::new(alloc);
    list_expr(x, role, &mut out)?;
    Ok(out)
}
