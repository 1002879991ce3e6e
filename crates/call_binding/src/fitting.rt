//! What items pass to parameters, and test 9.
ghost use Rattle.std.specs.Prelude.{◌≡◌, ◌==◌, ◌<◌, ◌^◌, ◌++◌, ◌∷◌, [], IfOk, IfSome, OnOk, bytes_eq, length, map};
ghost use Rattle.std.specs.Prelude.{option_map};
ghost use Rattle.std.specs.List.{filter_map, find, list_any, position};
ghost use Rattle.call_binding.specs.Binding as spec;
ghost use Rattle.call_binding.specs.Seen as seen;
ghost use Rattle.eager_rules.specs.State.{bound_to};
ghost use Rattle.view_places.specs.View.{extents, places};

use crate::head::KernelHead;
use crate::items::Item;
use crate::order::{is_named, same_bytes};
use crate::views::{NamedArray, view_of};
use eager_rules::Arg;
use krn_base::{Kind, ParamType, Seq, Text};
use std::alloc::{AllocError, Global};
use view_places::View;

/// What an item passes to a parameter.
#[derive(Clone, Copy)]
pub struct Passed<'a> {
    pub parameter: &'a [u8],
    pub kind: Kind,
    pub arg: Arg,
}

fn passed_by<'a>(buffers: &[NamedArray<'_>], item: &'a Item) -> Option<Passed<'a>>
    requires few { length buffers.now < 2 ^ 32 }
    requires arrays { seen.AreArrays (map seen.named buffers.now) }
    ensures { option_map seen.passed result ≡ spec.passed_by (map seen.named buffers.now) item.now }
{
    match item {
        Item::Scalar {
            parameter,
            kind,
            word,
        } => Some(Passed {
            parameter: parameter.as_slice(),
            kind: *kind,
            arg: Arg::Word(*word),
        }),
        Item::Argument {
            parameter,
            buffer,
            subscripts,
        } => match view_of(buffers, buffer.as_slice(), subscripts.as_slice()) {
            Some(v) => Some(Passed {
                parameter: parameter.as_slice(),
                kind: v.array.kind,
                arg: Arg::Array(v.view),
            }),
            None => None,
        },
        _ => None,
    }
}

/// Adds what an item passes.
fn push_passed<'a>(
    given: &mut Vec<Passed<'a>>,
    buffers: &[NamedArray<'_>],
    item: &'a Item,
) -> Result<(), AllocError>
    requires few { length buffers.now < 2 ^ 32 }
    requires arrays { seen.AreArrays (map seen.named buffers.now) }
    ensures { OnOk result (map seen.passed given.new.items ≡ map seen.passed given.old.items
        ++ filter_map (spec.passed_by (map seen.named buffers.now)) (item.now ∷ [])) }
{
    if let Some(passed) = passed_by(buffers, item) {
        given.push(passed)?;
    }
    Ok(())
}

/// What the items pass, in word order.
pub fn all_passed<'a>(
    alloc: Global,
    buffers: &[NamedArray<'_>],
    items: &'a [Item],
) -> Result<Vec<Passed<'a>>, AllocError>
    requires few { length buffers.now < 2 ^ 32 }
    requires arrays { seen.AreArrays (map seen.named buffers.now) }
    ensures { IfOk result (λ given. map seen.passed given.items
        ≡ filter_map (spec.passed_by (map seen.named buffers.now)) items.now) }
{
    let mut given = Vec::new(alloc);
    for item in items {
        push_passed(&mut given, buffers, item)?;
    }
    Ok(given)
}

fn find_passed<'a, 'b>(given: &'b [Passed<'a>], parameter: &[u8]) -> Option<&'b Passed<'a>>
    ensures { option_map (λ passed. passed.now) result
        ≡ find (λ passed. bytes_eq passed.parameter.now parameter.now) given.now }
{
    given
        .iter()
        .find(|passed| same_bytes(passed.parameter, parameter))
}

/// What is passed to a parameter.
fn passed_to<'a>(given: &[Passed<'a>], parameter: &[u8]) -> Option<Passed<'a>>
    ensures { option_map seen.passed result ≡ spec.passed_to (map seen.passed given.now) parameter.now }
{
    match find_passed(given, parameter) {
        Some(passed) => Some(*passed),
        None => None,
    }
}

fn same_kind(left: Kind, right: Kind) -> bool
    ensures { result ≡ spec.same_kind left right }
{
    left == right
}

fn is_scalar(arg: &Arg) -> bool
    ensures { result ≡ spec.is_scalar (bound_to arg.now) }
{
    match arg {
        Arg::Word(_) => true,
        Arg::Array(_) => false,
    }
}

/// Whether a view has this rank.
fn is_of_rank(view: &View, rank: u8) -> bool
    ensures { result ≡ (length (extents view.now) == rank) }
{
    view.rank == rank
}

fn has_rank(rank: u8, arg: &Arg) -> bool
    ensures { result ≡ spec.has_rank rank (bound_to arg.now) }
{
    match arg {
        Arg::Word(_) => false,
        Arg::Array(view) => is_of_rank(view, rank),
    }
}

/// Whether a view's places are consecutive and rising.
fn is_flat_view(view: &View) -> bool
    ensures { result ≡ spec.is_consecutive (places view.now) }
{
    view.is_contiguous()
}

fn is_flat(arg: &Arg) -> bool
    ensures { result ≡ spec.is_flat (bound_to arg.now) }
{
    match arg {
        Arg::Word(_) => false,
        Arg::Array(view) => is_flat_view(view),
    }
}

/// Whether a parameter of this type takes what is passed to it.
fn takes(param: ParamType, passed: &Passed<'_>) -> bool
    ensures { result ≡ spec.takes param (seen.passed passed.now) }
{
    match param {
        ParamType::Scalar(kind) => same_kind(kind, passed.kind) && is_scalar(&passed.arg),
        ParamType::Flat(kind, rank) => {
            same_kind(kind, passed.kind) && has_rank(rank, &passed.arg) && is_flat(&passed.arg)
        }
        ParamType::Strided(kind, rank) => {
            same_kind(kind, passed.kind) && has_rank(rank, &passed.arg)
        }
    }
}

fn is_unfit(given: &[Passed<'_>], param: &(Text, ParamType)) -> bool
    ensures { result ≡ spec.is_unfit (map seen.passed given.now) param.now }
{
    match passed_to(given, param.0.as_slice()) {
        Some(passed) => !takes(param.1, &passed),
        None => true,
    }
}

fn any_unfit(given: &[Passed<'_>], params: &[(Text, ParamType)]) -> bool
    ensures { result ≡ list_any (spec.is_unfit (map seen.passed given.now)) params.now }
{
    params.iter().any(|param| is_unfit(given, param))
}

fn fits(name: &[u8], given: &[Passed<'_>], kernel: &KernelHead) -> bool
    ensures { result ≡ spec.fits name.now (map seen.passed given.now) kernel.now }
{
    is_named(name, kernel) && !any_unfit(given, kernel.params.as_slice())
}

/// The place of the first kernel of the name that fits.
pub fn fitting(kernels: &[KernelHead], name: &[u8], given: &[Passed<'_>]) -> Option<usize>
    ensures place { result ≡ position (spec.fits name.now (map seen.passed given.now)) kernels.now }
    ensures within { IfSome result (λ at. at < length kernels.now) }
{
    kernels.iter().position(|kernel| fits(name, given, kernel))
}

/// What a parameter stands for; the word 0 where nothing is passed to it.
fn arg_for(given: &[Passed<'_>], param: &(Text, ParamType)) -> Arg
    ensures value { bound_to result ≡ spec.value_of (spec.passed_to (map seen.passed given.now) param.now.0) }
    ensures length { spec.words_of result ≡ spec.length_of (spec.passed_to (map seen.passed given.now) param.now.0) }
{
    match passed_to(given, param.0.as_slice()) {
        Some(passed) => passed.arg,
        None => Arg::Word(0),
    }
}

/// What the parameters stand for.
pub fn args_for(
    alloc: Global,
    given: &[Passed<'_>],
    params: &[(Text, ParamType)],
) -> Result<Seq<Arg>, AllocError>
    ensures values { IfOk result (λ args. map bound_to args
        ≡ map (λ param. spec.value_of (spec.passed_to (map seen.passed given.now) param.0)) params.now) }
    ensures lengths { IfOk result (λ args. map spec.words_of args
        ≡ map (λ param. spec.length_of (spec.passed_to (map seen.passed given.now) param.0)) params.now) }
{
    let mut args = Vec::new(alloc);
    for param in params {
        args.push(arg_for(given, param))?;
    }
    Ok(Seq::from_vec(args))
}
