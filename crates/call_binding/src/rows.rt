//! Scalars, rows of words, and shapes.
ghost use Rattle.std.specs.Prelude.{◌≡◌, IfOk, map, option_map};
ghost use Rattle.call_binding.specs.Integers as Integers;
ghost use Rattle.call_binding.specs.Integers.{truth, each, between_commas};
ghost use Rattle.call_binding.specs.Reading as Reading;

use crate::integer::{is_plain, read_integer};
use crate::text::pieces;
use krn_base::{Kind, Seq};
use std::alloc::{AllocError, Global};
use view_places::{Array, Shape};

/// The greatest extent.
const MOST_ENTRIES: i64 = 4_194_304;

/// The word of a truth value.
fn read_truth(text: &str) -> Option<i64>
    ensures { result ≡ truth text.now }
{
    match text {
        "True" => Some(1),
        "False" => Some(0),
        _ => None,
    }
}

/// The word of this kind that a text is.
fn read_word(kind: Kind, text: &str) -> Option<i64>
    ensures { result ≡ Integers.word kind text.now }
{
    match kind {
        Kind::Int64 => read_integer(text),
        Kind::Bool => read_truth(text),
    }
}

/// A scalar with its kind: an integer, `True` or `False`.
pub fn read_scalar(text: &str) -> Option<(Kind, i64)>
    ensures { result ≡ Integers.scalar text.now }
{
    if let Some(word) = read_integer(text) {
        return Some((Kind::Int64, word));
    }
    match read_truth(text) {
        Some(word) => Some((Kind::Bool, word)),
        None => None,
    }
}

fn read_pieces(alloc: Global, kind: Kind, pieces: &[&str]) -> Result<Option<Seq<i64>>, AllocError>
    ensures { IfOk result (λ read. read ≡ each (Integers.word kind) (map (λ piece. piece.now) pieces.now)) }
{
    let mut words = Vec::new(alloc);
    for piece in pieces {
        match read_word(kind, *piece) {
            Some(word) => words.push(word)?,
            None => return Ok(None),
        }
    }
    Ok(Some(Seq::from_vec(words)))
}

/// The words of one kind between a text's commas. None where one of the texts is no such word.
fn read_words(alloc: Global, kind: Kind, text: &str) -> Result<Option<Seq<i64>>, AllocError>
    ensures { IfOk result (λ read. read ≡ Integers.words kind text.now) }
{
    read_pieces(alloc, kind, pieces(alloc, text)?.as_slice())
}

fn read_some(alloc: Global, text: &str) -> Result<Option<(Kind, Seq<i64>)>, AllocError>
    ensures { IfOk result (λ read. read ≡ Integers.some_row text.now) }
{
    if let Some(words) = read_words(alloc, Kind::Int64, text)? {
        return Ok(Some((Kind::Int64, words)));
    }
    match read_words(alloc, Kind::Bool, text)? {
        Some(words) => Ok(Some((Kind::Bool, words))),
        None => Ok(None),
    }
}

/// The words between a text's commas, with their kind: integers alone, or `True` and `False` alone. The empty text
/// has none, of
/// kind int64.
pub fn read_row(alloc: Global, text: &str) -> Result<Option<(Kind, Seq<i64>)>, AllocError>
    ensures { IfOk result (λ read. read ≡ Integers.row text.now) }
{
    if text.is_empty() {
        return Ok(Some((Kind::Int64, Seq::from_vec(Vec::new(alloc)))));
    }
    read_some(alloc, text)
}

/// A number as an extent, where it is from 0 to 2^22.
fn extent_of(number: i64) -> Option<u32>
    ensures { result ≡ Reading.extent_of number }
{
    if 0 <= number && number <= MOST_ENTRIES {
        Some(number as u32)
    } else {
        None
    }
}

/// The extent that a text is: decimal digits without sign and leading zero.
fn read_extent(text: &str) -> Option<u32>
    ensures { result ≡ Reading.extent text.now }
{
    if !is_plain(text.as_bytes()) {
        return None;
    }
    match read_integer(text) {
        Some(number) => extent_of(number),
        None => None,
    }
}

fn read_extents(alloc: Global, pieces: &[&str]) -> Result<Option<Vec<u32>>, AllocError>
    ensures { IfOk result (λ read. option_map (λ v. v.items) read
        ≡ each Reading.extent (map (λ piece. piece.now) pieces.now)) }
{
    let mut extents = Vec::new(alloc);
    for piece in pieces {
        match read_extent(*piece) {
            Some(extent) => extents.push(extent)?,
            None => return Ok(None),
        }
    }
    Ok(Some(extents))
}

/// The array of these words, where they are as many as its shape has elements.
fn array_of(kind: Kind, words: Seq<i64>, shape: Option<Shape>) -> Option<Array>
    ensures { result ≡ Reading.array_of (kind, words) shape }
{
    match shape {
        Some(shape) => Some(Array { kind, shape, words }),
        None => None,
    }
}

/// The array of these words with these extents.
fn array_by(kind: Kind, words: Seq<i64>, extents: &[u32]) -> Option<Array>
    ensures { result ≡ Reading.array_by (kind, words) (Some extents.now) }
{
    let shape = Shape::of(extents, words.as_slice().len());
    array_of(kind, words, shape)
}

/// The array of a row of words of rank 1.
fn flat_array(kind: Kind, words: Seq<i64>) -> Option<Array>
    ensures { result ≡ Reading.shaped None (Some (kind, words)) }
{
    let length = words.as_slice().len();
    if length > 1 << 22 {
        return None;
    }
    array_by(kind, words, &[length as u32])
}

/// The array of a row of words, with the extents that a text gives or of rank 1. None where they don't fit.
fn shape_row(
    alloc: Global,
    inner: Option<&str>,
    kind: Kind,
    words: Seq<i64>,
) -> Result<Option<Array>, AllocError>
    ensures { IfOk result (λ array. array
        ≡ Reading.shaped (option_map (λ inner. inner.now) inner.entry) (Some (kind, words))) }
{
    let Some(inner) = inner else {
        return Ok(flat_array(kind, words));
    };
    match read_extents(alloc, pieces(alloc, inner)?.as_slice())? {
        Some(extents) => Ok(array_by(kind, words, extents.as_slice())),
        None => Ok(None),
    }
}

/// The array of a `buf:` item, by what stands in its parentheses, where it has some, and behind its `=`.
pub fn read_array(
    alloc: Global,
    inner: Option<&str>,
    elements: &str,
) -> Result<Option<Array>, AllocError>
    ensures { IfOk result (λ array. array
        ≡ Reading.shaped (option_map (λ inner. inner.now) inner.entry) (Integers.row elements.now)) }
{
    match read_row(alloc, elements)? {
        Some((kind, words)) => shape_row(alloc, inner, kind, words),
        None => Ok(None),
    }
}
