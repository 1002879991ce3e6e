//! One item, and all of them.
ghost use Rattle.std.specs.Prelude.{◌≡◌, ◌<◌, ◌≤◌, ◌^◌, IfOk, IfSome, option_map, length, map, codes};
ghost use Rattle.std.specs.List.{All};
ghost use Rattle.call_binding.specs.Integers.{each, scalar};
ghost use Rattle.call_binding.specs.Reading as Reading;
ghost use Rattle.call_binding.specs.Reading.{item, cut, after, read_from, texts_of};
ghost use Rattle.call_binding.specs.Sound.{IsSound};

use crate::integer::read_integer;
use crate::items::{Item, Subscript};
use crate::rows::{read_array, read_scalar};
use crate::text::{
    Bracketed, after_at, after_buf, after_npy, after_out, cut_colon, cut_equals, in_brackets,
    in_parentheses, is_a_name, pieces, to_text,
};
use krn_base::{Kind, Seq};
use std::alloc::{AllocError, Global};
use view_places::{Array, Slice};

/// The buffer of this name, where it is one.
fn make_buffer(alloc: Global, name: &str, array: Array) -> Result<Option<Item>, AllocError>
    ensures { IfOk result (λ read. read ≡ Reading.buffer_by name.now (Some array)) }
{
    if is_a_name(name.as_bytes()) {
        let name = to_text(alloc, name)?;
        Ok(Some(Item::Buffer { name, array }))
    } else {
        Ok(None)
    }
}

fn read_buffer_of(
    alloc: Global,
    head: Bracketed<'_>,
    elements: &str,
) -> Result<Option<Item>, AllocError>
    ensures { IfOk result (λ read. read ≡ Reading.buffer_of (Some (Reading.parts head.entry)) elements.now) }
{
    match read_array(alloc, head.inner, elements)? {
        Some(array) => make_buffer(alloc, head.front, array),
        None => Ok(None),
    }
}

fn read_buffer(alloc: Global, head: &str, elements: &str) -> Result<Option<Item>, AllocError>
    ensures { IfOk result (λ read. read ≡ Reading.buffer_item head.now elements.now) }
{
    match in_parentheses(head) {
        Some(head) => read_buffer_of(alloc, head, elements),
        None => Ok(None),
    }
}

/// Whether these are a name and a path, which isn't empty.
fn names_file(name: &str, path: &str) -> bool
    ensures { result ≡ Reading.names_file name.now path.now }
{
    is_a_name(name.as_bytes()) && !path.is_empty()
}

fn read_loaded(alloc: Global, name: &str, path: &str) -> Result<Option<Item>, AllocError>
    ensures { IfOk result (λ read. read ≡ Reading.loaded_item name.now path.now) }
{
    if names_file(name, path) {
        let name = to_text(alloc, name)?;
        let path = to_text(alloc, path)?;
        Ok(Some(Item::Loaded { name, path }))
    } else {
        Ok(None)
    }
}

fn read_saved(alloc: Global, name: &str, path: &str) -> Result<Option<Item>, AllocError>
    ensures { IfOk result (λ read. read ≡ Reading.saved_item name.now path.now) }
{
    if names_file(name, path) {
        let name = to_text(alloc, name)?;
        let path = to_text(alloc, path)?;
        Ok(Some(Item::Saved { name, path }))
    } else {
        Ok(None)
    }
}

/// A part of a slice: nothing, or an integer. None where it is another text.
fn read_slice_part(text: &str) -> Option<Option<i64>>
    ensures { result ≡ Reading.slice_part text.now }
{
    if text.is_empty() {
        return Some(None);
    }
    match read_integer(text) {
        Some(number) => Some(Some(number)),
        None => None,
    }
}

fn slice_of(
    start: Option<Option<i64>>,
    stop: Option<Option<i64>>,
    step: Option<Option<i64>>,
) -> Option<Subscript>
    ensures { result ≡ Reading.slice_of start stop step }
{
    match (start, stop, step) {
        (Some(start), Some(stop), Some(step)) => {
            Some(Subscript::Range(Slice { start, stop, step }))
        }
        _ => None,
    }
}

/// The slice whose start stands before the first colon and whose other parts stand behind it.
fn read_slice(start: &str, rest: &str) -> Option<Subscript>
    ensures { result ≡ Reading.by_second_colon start.now rest.now (cut 58 rest.now) }
{
    let start = read_slice_part(start);
    match cut_colon(rest) {
        Some((stop, step)) => slice_of(start, read_slice_part(stop), read_slice_part(step)),
        None => slice_of(start, read_slice_part(rest), Some(None)),
    }
}

/// The subscript that a text is: an integer, or two or three parts of a slice between colons.
fn read_subscript(text: &str) -> Option<Subscript>
    ensures { result ≡ Reading.subscript text.now }
{
    match cut_colon(text) {
        Some((start, rest)) => read_slice(start, rest),
        None => match read_integer(text) {
            Some(number) => Some(Subscript::At(number)),
            None => None,
        },
    }
}

fn read_pieces(alloc: Global, pieces: &[&str]) -> Result<Option<Seq<Subscript>>, AllocError>
    ensures { IfOk result (λ read. read ≡ each Reading.subscript (map (λ piece. piece.now) pieces.now)) }
{
    let mut subscripts = Vec::new(alloc);
    for piece in pieces {
        match read_subscript(*piece) {
            Some(subscript) => subscripts.push(subscript)?,
            None => return Ok(None),
        }
    }
    Ok(Some(Seq::from_vec(subscripts)))
}

/// The subscripts between brackets, and none without brackets.
fn read_subscripts(alloc: Global, inner: Option<&str>) -> Result<Option<Seq<Subscript>>, AllocError>
    ensures { IfOk result (λ read. read ≡ Reading.subscripts (option_map (λ inner. inner.now) inner.entry)) }
{
    match inner {
        Some(inner) => read_pieces(alloc, pieces(alloc, inner)?.as_slice()),
        None => Ok(Some(Seq::from_vec(Vec::new(alloc)))),
    }
}

/// The argument that passes a view of a buffer to a parameter, where both are names.
fn make_argument(
    alloc: Global,
    parameter: &str,
    buffer: &str,
    subscripts: Seq<Subscript>,
) -> Result<Option<Item>, AllocError>
    ensures { IfOk result (λ read. read ≡ Reading.argument_by parameter.now buffer.now (Some subscripts)) }
{
    if is_a_name(parameter.as_bytes()) && is_a_name(buffer.as_bytes()) {
        let parameter = to_text(alloc, parameter)?;
        let buffer = to_text(alloc, buffer)?;
        Ok(Some(Item::Argument {
            parameter,
            buffer,
            subscripts,
        }))
    } else {
        Ok(None)
    }
}

fn read_argument_of(
    alloc: Global,
    parameter: &str,
    view: Bracketed<'_>,
) -> Result<Option<Item>, AllocError>
    ensures { IfOk result (λ read. read ≡ Reading.argument_of parameter.now (Some (Reading.parts view.entry))) }
{
    match read_subscripts(alloc, view.inner)? {
        Some(subscripts) => make_argument(alloc, parameter, view.front, subscripts),
        None => Ok(None),
    }
}

fn read_argument(alloc: Global, parameter: &str, view: &str) -> Result<Option<Item>, AllocError>
    ensures { IfOk result (λ read. read ≡ Reading.argument_of parameter.now (Reading.bracketed 91 93 view.now)) }
{
    match in_brackets(view) {
        Some(view) => read_argument_of(alloc, parameter, view),
        None => Ok(None),
    }
}

/// The item that passes a word to a parameter, where it is a name.
fn make_scalar(
    alloc: Global,
    parameter: &str,
    kind: Kind,
    word: i64,
) -> Result<Option<Item>, AllocError>
    ensures { IfOk result (λ read. read ≡ Reading.scalar_of parameter.now (Some (kind, word))) }
{
    if is_a_name(parameter.as_bytes()) {
        let parameter = to_text(alloc, parameter)?;
        Ok(Some(Item::Scalar {
            parameter,
            kind,
            word,
        }))
    } else {
        Ok(None)
    }
}

fn read_word(alloc: Global, parameter: &str, value: &str) -> Result<Option<Item>, AllocError>
    ensures { IfOk result (λ read. read ≡ Reading.scalar_of parameter.now (scalar value.now)) }
{
    match read_scalar(value) {
        Some((kind, word)) => make_scalar(alloc, parameter, kind, word),
        None => Ok(None),
    }
}

/// An item for a parameter.
fn read_value(alloc: Global, parameter: &str, value: &str) -> Result<Option<Item>, AllocError>
    ensures { IfOk result (λ read. read ≡ Reading.value_item parameter.now value.now (after (codes "@") value.now)) }
{
    match after_at(value) {
        Some(view) => read_argument(alloc, parameter, view),
        None => read_word(alloc, parameter, value),
    }
}

fn read_unloaded(alloc: Global, left: &str, right: &str) -> Result<Option<Item>, AllocError>
    ensures { IfOk result (λ read. read ≡ Reading.by_out left.now right.now (after (codes "out:") left.now)) }
{
    match after_out(left) {
        Some(name) => read_saved(alloc, name, right),
        None => read_value(alloc, left, right),
    }
}

fn read_unwritten(alloc: Global, left: &str, right: &str) -> Result<Option<Item>, AllocError>
    ensures { IfOk result (λ read. read ≡ Reading.by_npy left.now right.now (after (codes "npy:") left.now)) }
{
    match after_npy(left) {
        Some(name) => read_loaded(alloc, name, right),
        None => read_unloaded(alloc, left, right),
    }
}

fn read_sides(alloc: Global, left: &str, right: &str) -> Result<Option<Item>, AllocError>
    ensures { IfOk result (λ read. read ≡ Reading.by_buf left.now right.now (after (codes "buf:") left.now)) }
{
    match after_buf(left) {
        Some(head) => read_buffer(alloc, head, right),
        None => read_unwritten(alloc, left, right),
    }
}

/// What an item says, or None where it is misspelled or its array isn't one.
fn read_item(alloc: Global, text: &str) -> Result<Option<Item>, AllocError>
    ensures item { IfOk result (λ read. read ≡ item text.now) }
    ensures sound { IfOk result (λ read. IfSome read IsSound) }
{
    match cut_equals(text) {
        Some((left, right)) => read_sides(alloc, left, right),
        None => Ok(None),
    }
}

/// The items of some words, or the number from 1 of the first word that is misspelled.
pub fn read_items(alloc: Global, texts: &[&str]) -> Result<Result<Seq<Item>, u32>, AllocError>
    requires { length texts.now < 2 ^ 32 }
    ensures items { IfOk result (λ read. read ≡ read_from 1 (texts_of texts.now)) }
    ensures few { IfOk result (λ read. IfOk read (λ items. length items ≤ length texts.now)) }
    ensures sound { IfOk result (λ read. IfOk read (λ items. All IsSound items)) }
{
    let mut items = Vec::new(alloc);
    for (at, text) in texts.iter().enumerate() {
        match read_item(alloc, *text)? {
            Some(item) => items.push(item)?,
            None => return Ok(Err(at as u32 + 1)),
        }
    }
    Ok(Ok(Seq::from_vec(items)))
}
