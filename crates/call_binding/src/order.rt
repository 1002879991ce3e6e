//! The tests 2 to 6, a function each.
ghost use Rattle.std.specs.Prelude.{◌≡◌, ◌<◌, ◌+◌, ◌^◌, ◌++◌, ◌∷◌, [], ◌||◌, IfOk, OnOk, IfSome, List, ℕ, length};
ghost use Rattle.std.specs.Prelude.{map, nat_le, bytes_eq, option_map};
ghost use Rattle.std.specs.List.{list_any, count_by, position};
ghost use Rattle.call_binding.specs.Parameters.{HasNames, has, has_name};
ghost use Rattle.call_binding.specs.Tests as spec;

use crate::head::KernelHead;
use crate::items::Item;
use krn_base::{ParamType, Text};
use std::alloc::{AllocError, Global};
use std::collections::BTreeMap;

/// How many buffers a call may have.
const MOST_BUFFERS: usize = 16;

/// Whether two texts are the same.
pub fn same_bytes(left: &[u8], right: &[u8]) -> bool
    ensures { result ≡ bytes_eq left.now right.now }
{
    left == right
}

/// The buffer that an item gives.
fn buffer_name(item: &Item) -> Option<&[u8]>
    ensures { option_map (λ name. name.now) result ≡ spec.buffer_name item.now }
{
    match item {
        Item::Buffer { name, .. } | Item::Loaded { name, .. } => Some(name.as_slice()),
        Item::Saved { .. } | Item::Scalar { .. } | Item::Argument { .. } => None,
    }
}

/// The parameter that an item is for.
fn parameter_name(item: &Item) -> Option<&[u8]>
    ensures { option_map (λ name. name.now) result ≡ spec.parameter_name item.now }
{
    match item {
        Item::Scalar { parameter, .. } | Item::Argument { parameter, .. } => {
            Some(parameter.as_slice())
        }
        Item::Buffer { .. } | Item::Loaded { .. } | Item::Saved { .. } => None,
    }
}

/// The buffer that an item saves.
fn saved_name(item: &Item) -> Option<&[u8]>
    ensures { option_map (λ name. name.now) result ≡ spec.saved_name item.now }
{
    match item {
        Item::Saved { name, .. } => Some(name.as_slice()),
        _ => None,
    }
}

/// The buffer that an item speaks of, where it is to be there already.
fn meant_name(item: &Item) -> Option<&[u8]>
    ensures { option_map (λ name. name.now) result ≡ spec.meant_name item.now }
{
    match item {
        Item::Saved { name, .. } | Item::Argument { buffer: name, .. } => Some(name.as_slice()),
        Item::Buffer { .. } | Item::Loaded { .. } | Item::Scalar { .. } => None,
    }
}

/// Whether there is a name, and it is this one.
fn is_same(own: Option<&[u8]>, name: &[u8]) -> bool
    ensures { result ≡ spec.is_same (option_map (λ own. own.now) own.entry) name.now }
{
    match own {
        Some(own) => same_bytes(own, name),
        None => false,
    }
}

fn gives_buffer(name: &[u8], item: &Item) -> bool
    ensures { result ≡ spec.is_same (spec.buffer_name item.now) name.now }
{
    is_same(buffer_name(item), name)
}

fn any_gives_buffer(name: &[u8], items: &[Item]) -> bool
    ensures { result ≡ list_any (λ x. spec.is_same (spec.buffer_name x) name.now) items.now }
{
    items.iter().any(|item| gives_buffer(name, item))
}

fn is_buffer(item: &Item) -> bool
    ensures { result ≡ spec.is_buffer item.now }
{
    buffer_name(item).is_some()
}

fn count_buffers(items: &[Item]) -> usize
    ensures { result ≡ count_by spec.is_buffer items.now }
{
    items.iter().filter(|item| is_buffer(*item)).count()
}

fn has_most_buffers(items: &[Item]) -> bool
    ensures { result ≡ nat_le 16 (count_by spec.is_buffer items.now) }
{
    count_buffers(items) >= MOST_BUFFERS
}

/// Whether an item gives a buffer that is the second of its name, or the 17th of all.
fn is_surplus_buffer(item: &Item, before: &[Item]) -> bool
    ensures { result ≡ spec.is_surplus_buffer before.now item.now }
{
    match buffer_name(item) {
        Some(name) => any_gives_buffer(name, before) || has_most_buffers(before),
        None => false,
    }
}

/// Whether a name is among the keys already; it is then.
fn is_met<'a>(name: &'a [u8], met: &mut BTreeMap<&'a [u8], ()>) -> Result<bool, AllocError>
    ensures answer { IfOk result (λ again. again ≡ has met.old name.now) }
    ensures others { OnOk result ((q : List ℕ) → has met.new q ≡ (has met.old q || bytes_eq name.now q)) }
{
    Ok(met.insert(name, ())?.is_some())
}

/// The same of the name that an item may have.
fn is_again<'a>(
    name: Option<&'a [u8]>,
    met: &mut BTreeMap<&'a [u8], ()>,
) -> Result<bool, AllocError>
    ensures answer { IfOk result (λ again. again ≡ has_name met.old (option_map (λ name. name.now) name.entry)) }
    ensures others { OnOk result ((q : List ℕ)
        → has met.new q ≡ (has met.old q || spec.is_same (option_map (λ name. name.now) name.entry) q)) }
{
    match name {
        Some(name) => is_met(name, met),
        None => Ok(false),
    }
}

/// Whether an item is for a parameter of one before it, which are the keys; its own is then one too.
fn is_parameter_again<'a>(
    item: &'a Item,
    before: &[Item],
    met: &mut BTreeMap<&'a [u8], ()>,
) -> Result<bool, AllocError>
    requires { HasNames spec.parameter_name met.old before.now }
    ensures answer { IfOk result (λ again. again ≡ spec.is_again spec.parameter_name before.now item.now) }
    ensures met { OnOk result (HasNames spec.parameter_name met.new (before.now ++ item.now ∷ [])) }
{
    is_again(parameter_name(item), met)
}

/// Whether an item saves the buffer of one before it, which are the keys; its own is then one too.
fn is_saved_again<'a>(
    item: &'a Item,
    before: &[Item],
    met: &mut BTreeMap<&'a [u8], ()>,
) -> Result<bool, AllocError>
    requires { HasNames spec.saved_name met.old before.now }
    ensures answer { IfOk result (λ again. again ≡ spec.is_again spec.saved_name before.now item.now) }
    ensures met { OnOk result (HasNames spec.saved_name met.new (before.now ++ item.now ∷ [])) }
{
    is_again(saved_name(item), met)
}

/// The number of the first item that is the second for its buffer, parameter or saved buffer, or gives the 17th
/// buffer. At most
/// 17 buffers are looked up among the items before them, and the other names in maps, so it takes time nearly linear
/// in the
/// items.
fn surplus(alloc: Global, items: &[Item]) -> Result<Option<u32>, AllocError>
    requires { length items.now < 2 ^ 32 }
    ensures { IfOk result (λ number. number ≡ spec.surplus items.now) }
{
    let mut parameters = BTreeMap::new(alloc);
    let mut saved = BTreeMap::new(alloc);
    for (at, item) in items.iter().enumerate() {
        let before = &items[..at];
        let parameter_again = is_parameter_again(item, before, &mut parameters)?;
        let saved_again = is_saved_again(item, before, &mut saved)?;
        if parameter_again || saved_again || is_surplus_buffer(item, before) {
            return Ok(Some(at as u32 + 1));
        }
    }
    Ok(None)
}

/// The number of an item at a place.
pub fn numbered(at: Option<usize>) -> Option<u32>
    requires { IfSome at (λ i. i + 1 < 2 ^ 32) }
    ensures { result ≡ spec.numbered at }
{
    match at {
        Some(at) => Some(at as u32 + 1),
        None => None,
    }
}

/// Adds an item's name where it is a buffer.
fn push_name<'a>(names: &mut Vec<&'a [u8]>, item: &'a Item) -> Result<(), AllocError>
    ensures { OnOk result (map (λ name. name.now) names.new.items ≡ map (λ name. name.now) names.old.items
        ++ spec.buffer_names (item.now ∷ [])) }
{
    if let Some(name) = buffer_name(item) {
        names.push(name)?;
    }
    Ok(())
}

/// The names of the buffers, in their order.
fn buffer_names(alloc: Global, items: &[Item]) -> Result<Vec<&[u8]>, AllocError>
    ensures { IfOk result (λ names. map (λ name. name.now) names.items ≡ spec.buffer_names items.now) }
{
    let mut names = Vec::new(alloc);
    for item in items {
        push_name(&mut names, item)?;
    }
    Ok(names)
}

fn is_among(name: &[u8], names: &[&[u8]]) -> bool
    ensures { result ≡ list_any (λ own. bytes_eq name.now own.now) names.now }
{
    names.iter().any(|own| same_bytes(name, *own))
}

#[tactic(auto, using(crate::proofs::Lists::any_in_map))]
fn is_unbound(names: &[&[u8]], item: &Item) -> bool
    ensures { result ≡ spec.is_unbound (map (λ own. own.now) names.now) item.now }
{
    match meant_name(item) {
        Some(name) => !is_among(name, names),
        None => false,
    }
}

fn find_unbound(names: &[&[u8]], items: &[Item]) -> Option<usize>
    ensures { result ≡ position (spec.is_unbound (map (λ own. own.now) names.now)) items.now }
{
    items.iter().position(|item| is_unbound(names, item))
}

/// The number of the first item that speaks of a buffer which isn't there. It looks a name up among the buffers, of
/// which there
/// are at most 16 once no item is one too many.
fn unbound(alloc: Global, items: &[Item]) -> Result<Option<u32>, AllocError>
    requires { length items.now < 2 ^ 32 }
    ensures { IfOk result (λ number. number ≡ spec.unbound items.now) }
{
    let names = buffer_names(alloc, items)?;
    Ok(numbered(find_unbound(names.as_slice(), items)))
}

/// Whether a kernel has this name.
pub fn is_named(name: &[u8], kernel: &KernelHead) -> bool
    ensures { result ≡ spec.is_named name.now kernel.now }
{
    same_bytes(name, kernel.name.as_slice())
}

fn first_named<'a>(kernels: &'a [KernelHead], name: &[u8]) -> Option<&'a KernelHead>
    ensures { option_map (λ kernel. kernel.now) result ≡ spec.first_named kernels.now name.now }
{
    kernels.iter().find(|kernel| is_named(name, *kernel))
}

fn is_param(parameter: &[u8], param: &(Text, ParamType)) -> bool
    ensures { result ≡ bytes_eq parameter.now param.now.0 }
{
    same_bytes(parameter, param.0.as_slice())
}

fn any_param(parameter: &[u8], params: &[(Text, ParamType)]) -> bool
    ensures { result ≡ list_any (λ param. bytes_eq parameter.now param.0) params.now }
{
    params.iter().any(|param| is_param(parameter, param))
}

fn is_stray(params: &[(Text, ParamType)], item: &Item) -> bool
    ensures { result ≡ spec.is_stray params.now item.now }
{
    match parameter_name(item) {
        Some(parameter) => !any_param(parameter, params),
        None => false,
    }
}

fn find_stray(params: &[(Text, ParamType)], items: &[Item]) -> Option<usize>
    ensures { result ≡ position (spec.is_stray params.now) items.now }
{
    items.iter().position(|item| is_stray(params, item))
}

/// The number of the first item for a parameter that isn't among these, which it looks through for each item.
fn stray(params: &[(Text, ParamType)], items: &[Item]) -> Option<u32>
    requires { length items.now < 2 ^ 32 }
    ensures { result ≡ spec.stray params.now items.now }
{
    numbered(find_stray(params, items))
}

fn is_for(parameter: &[u8], item: &Item) -> bool
    ensures { result ≡ spec.is_for parameter.now item.now }
{
    is_same(parameter_name(item), parameter)
}

fn any_for(parameter: &[u8], items: &[Item]) -> bool
    ensures { result ≡ list_any (spec.is_for parameter.now) items.now }
{
    items.iter().any(|item| is_for(parameter, item))
}

fn is_missing(items: &[Item], param: &(Text, ParamType)) -> bool
    ensures { result ≡ spec.is_missing items.now param.now }
{
    !any_for(param.0.as_slice(), items)
}

fn any_missing(params: &[(Text, ParamType)], items: &[Item]) -> bool
    ensures { result ≡ list_any (spec.is_missing items.now) params.now }
{
    params.iter().any(|param| is_missing(items, param))
}

fn missing(params: &[(Text, ParamType)], items: &[Item]) -> Option<u32>
    ensures { result ≡ spec.missing params.now items.now }
{
    if any_missing(params, items) {
        Some(0)
    } else {
        None
    }
}

/// The tests 4 to 6.
fn kernel_refusal(kernels: &[KernelHead], name: &[u8], items: &[Item]) -> Option<u32>
    requires { length items.now < 2 ^ 32 }
    ensures { result ≡ spec.kernel_refusal kernels.now name.now items.now }
{
    let Some(first) = first_named(kernels, name) else {
        return Some(0);
    };
    let params = first.params.as_slice();
    if let Some(number) = stray(params, items) {
        return Some(number);
    }
    missing(params, items)
}

/// The number of the item that the tests 2 to 6 refuse, 0 for the kernel, or None where they refuse none.
pub fn early_refusal(
    alloc: Global,
    kernels: &[KernelHead],
    name: &[u8],
    items: &[Item],
) -> Result<Option<u32>, AllocError>
    requires { length items.now < 2 ^ 32 }
    ensures { IfOk result (λ number. number ≡ spec.early kernels.now name.now items.now) }
{
    if let Some(number) = surplus(alloc, items)? {
        return Ok(Some(number));
    }
    if let Some(number) = unbound(alloc, items)? {
        return Ok(Some(number));
    }
    Ok(kernel_refusal(kernels, name, items))
}
