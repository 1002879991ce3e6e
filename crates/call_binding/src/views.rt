//! The buffers of a call, views of them by subscripts, and test 8.
ghost use Rattle.std.specs.Prelude.{◌≡◌, ◌<◌, ◌≤◌, ◌+◌, ◌^◌, IfOk, IfSome, OnOk, bytes_eq, ◌++◌, ◌∷◌, [], length};
ghost use Rattle.std.specs.Prelude.{map, option_map, ℕ};
ghost use Rattle.std.specs.List.{All, position};
ghost use Rattle.call_binding.specs.Seen as seen;
ghost use Rattle.call_binding.specs.Sound.{IsArray, IsSound};
ghost use Rattle.call_binding.specs.Tests as tests;
ghost use Rattle.call_binding.specs.Views as spec;
ghost use Rattle.view_places.specs.Shape.{extents};

use crate::items::{Item, Subscript};
use crate::order::{numbered, same_bytes};
use std::alloc::{AllocError, Global};
use view_places::{Array, View};

/// A buffer of a call.
#[derive(Clone, Copy)]
pub struct NamedArray<'a> {
    pub name: &'a [u8],
    pub array: &'a Array,
}

/// A view of a buffer whose first dimensions were under subscripts.
#[derive(Clone, Copy)]
pub struct Cut {
    /// The dimension that the next subscript is for.
    pub axis: u8,
    pub view: View,
}

/// The view of an argument.
#[derive(Clone, Copy)]
pub struct Viewed<'a> {
    pub array: &'a Array,
    pub view: View,
}

fn named_array(item: &Item) -> Option<NamedArray<'_>>
    ensures { option_map seen.named result ≡ spec.buffer_of item.now }
{
    match item {
        Item::Buffer { name, array } => Some(NamedArray {
            name: name.as_slice(),
            array,
        }),
        _ => None,
    }
}

/// Adds an item's array where it is a buffer.
fn push_array<'a>(arrays: &mut Vec<NamedArray<'a>>, item: &'a Item) -> Result<(), AllocError>
    ensures { OnOk result (map seen.named arrays.new.items ≡ map seen.named arrays.old.items
        ++ spec.buffers (item.now ∷ [])) }
{
    if let Some(array) = named_array(item) {
        arrays.push(array)?;
    }
    Ok(())
}

/// The buffers among items, in word order.
pub fn buffers(alloc: Global, items: &[Item]) -> Result<Vec<NamedArray<'_>>, AllocError>
    ensures { IfOk result (λ arrays. map seen.named arrays.items ≡ spec.buffers items.now) }
{
    let mut arrays = Vec::new(alloc);
    for item in items {
        push_array(&mut arrays, item)?;
    }
    Ok(arrays)
}

fn find_place(buffers: &[NamedArray<'_>], name: &[u8]) -> Option<usize>
    ensures place { result ≡ position (λ buffer. bytes_eq name.now buffer.name.now) buffers.now }
    ensures within { IfSome result (λ k. k < length buffers.now) }
{
    buffers
        .iter()
        .position(|buffer| same_bytes(name, buffer.name))
}

/// The number of the buffer of a name.
pub fn place_of_name(buffers: &[NamedArray<'_>], name: &[u8]) -> Option<usize>
    ensures place { result ≡ spec.place_of (map seen.named buffers.now) name.now }
    ensures within { IfSome result (λ k. k < length buffers.now) }
{
    find_place(buffers, name)
}

/// The buffer of a name, with its number.
fn find_array<'a>(buffers: &[NamedArray<'a>], name: &[u8]) -> Option<(u32, &'a Array)>
    requires few { length buffers.now < 2 ^ 32 }
    requires arrays { seen.AreArrays (map seen.named buffers.now) }
    ensures found { option_map seen.found result ≡ spec.array_named (map seen.named buffers.now) name.now }
    ensures array { IfSome result (λ found. IsArray found.1.now) }
{
    match place_of_name(buffers, name) {
        Some(number) => Some((number as u32, buffers[number].array)),
        None => None,
    }
}

/// A view under a subscript of one of its dimensions. None where there is no such dimension, an integer is outside
/// it, or a step
/// is 0.
fn next_cut(axis: u8, view: &View, subscript: &Subscript) -> Option<Cut>
    ensures cut { option_map seen.cut result
        ≡ spec.next_cut subscript.now (spec.cut_of axis (seen.view view.now).0 (seen.view view.now).1) }
    ensures buffer { IfSome result (λ next. next.view.buffer ≡ view.now.buffer) }
    ensures length { IfSome result (λ next. next.view.length ≡ view.now.length) }
{
    if axis >= view.rank {
        return None;
    }
    match subscript {
        Subscript::At(number) => match view.index(axis, *number) {
            Ok(view) => Some(Cut { axis, view }),
            Err(_) => None,
        },
        Subscript::Range(slice) => match view.slice(axis, *slice) {
            Ok(view) => Some(Cut {
                axis: axis + 1,
                view,
            }),
            Err(_) => None,
        },
    }
}

/// A view under subscripts, from its first dimension on.
fn cut_by(view: View, subscripts: &[Subscript]) -> Option<Cut>
    ensures cut { option_map seen.cut result
        ≡ spec.cut_by subscripts.now (spec.cut_of 0 (seen.view view).0 (seen.view view).1) }
    ensures buffer { IfSome result (λ cut. cut.view.buffer ≡ view.buffer) }
    ensures length { IfSome result (λ cut. cut.view.length ≡ view.length) }
{
    let mut cut = Cut { axis: 0, view };
    for subscript in subscripts {
        match next_cut(cut.axis, &cut.view, subscript) {
            Some(next) => cut = next,
            None => return None,
        }
    }
    Some(cut)
}

/// An array under subscripts. None at a fault, and where no dimension is left.
fn view_by(buffer: u32, array: &Array, subscripts: &[Subscript]) -> Option<View>
    requires { IsArray array.now }
    ensures view { option_map seen.view result ≡ spec.view_by subscripts.now (extents array.now.shape) }
    ensures buffer { IfSome result (λ v. v.buffer ≡ buffer) }
    ensures length { IfSome result (λ v. v.length ≡ length array.now.words) }
{
    match cut_by(View::whole(buffer, &array.shape), subscripts) {
        Some(cut) => {
            if cut.view.rank == 0 {
                None
            } else {
                Some(cut.view)
            }
        }
        None => None,
    }
}

fn viewed_by<'a>(buffer: u32, array: &'a Array, subscripts: &[Subscript]) -> Option<Viewed<'a>>
    requires { IsArray array.now }
    ensures viewed { option_map seen.viewed result ≡ spec.viewed_by subscripts.now (buffer, array.now) }
    ensures length { IfSome result (λ v. v.view.length ≡ length v.array.now.words) }
{
    match view_by(buffer, array, subscripts) {
        Some(view) => Some(Viewed { array, view }),
        None => None,
    }
}

/// The view that an argument passes: of the buffer of this name under these subscripts.
pub fn view_of<'a>(
    buffers: &[NamedArray<'a>],
    name: &[u8],
    subscripts: &[Subscript],
) -> Option<Viewed<'a>>
    requires few { length buffers.now < 2 ^ 32 }
    requires arrays { seen.AreArrays (map seen.named buffers.now) }
    ensures viewed { option_map seen.viewed result ≡ spec.viewed (map seen.named buffers.now) name.now subscripts.now }
    ensures length { IfSome result (λ v. v.view.length ≡ length v.array.now.words) }
{
    match find_array(buffers, name) {
        Some((buffer, array)) => viewed_by(buffer, array, subscripts),
        None => None,
    }
}

fn is_faulty(buffers: &[NamedArray<'_>], item: &Item) -> bool
    requires few { length buffers.now < 2 ^ 32 }
    requires arrays { seen.AreArrays (map seen.named buffers.now) }
    ensures { result ≡ spec.is_faulty (map seen.named buffers.now) item.now }
{
    match item {
        Item::Argument {
            buffer,
            subscripts,
            ..
        } => view_of(buffers, buffer.as_slice(), subscripts.as_slice()).is_none(),
        _ => false,
    }
}

fn find_faulty(buffers: &[NamedArray<'_>], items: &[Item]) -> Option<usize>
    requires few { length buffers.now < 2 ^ 32 }
    requires arrays { seen.AreArrays (map seen.named buffers.now) }
    ensures { result ≡ position (spec.is_faulty (map seen.named buffers.now)) items.now }
{
    items.iter().position(|item| is_faulty(buffers, item))
}

/// The number of the first item whose view has a fault.
pub fn faulty(buffers: &[NamedArray<'_>], items: &[Item]) -> Option<u32>
    requires few { length buffers.now < 2 ^ 32 }
    requires items { length items.now < 2 ^ 32 }
    requires arrays { seen.AreArrays (map seen.named buffers.now) }
    ensures { result ≡ tests.numbered (position (spec.is_faulty (map seen.named buffers.now)) items.now) }
{
    numbered(find_faulty(buffers, items))
}
