ghost use Rattle.std.specs.Prelude.{◌≡◌, ◌-◌, ◌*◌, ◌<◌, ◌≤◌, ◌^◌, ℕ, true, length, nat_le, IfOk, IfErr, IfSome, IfNone};
ghost use Rattle.std.specs.Prelude.{◌⊎◌, ◌+◌, false, min};
ghost use Rattle.std.specs.List.{list_all};
ghost use Rattle.view_places.specs.Arrays.{element_count, is_small, max_elements};
ghost use Rattle.view_places.specs.Shape.{extents};
ghost use Rattle.np_file.specs.Npy.{IsNpy, IsOnly, IsRefused, NpyRefusal, element_size, word, shape_of};
ghost use Rattle.np_file.specs.Reading.{Gives};
ghost use Rattle.np_file.specs.Loading.{Loads, text_at, preamble_at, kind_of, plan_at, place_at, transposed};
ghost use Rattle.np_file.specs.Loading.{first_words, array_at, Answers};
ghost use Rattle.np_file.specs.Views.{view_header, view_layout, FitsElements};

use crate::fault::NpyFault;
use crate::header::{Header, read_header};
use byteorder::{ByteOrder, LittleEndian};
use krn_base::{Kind, Seq};
use std::alloc::{AllocError, Global};
use view_places::{Array, MAX_ELEMENTS, Shape};

/// The bytes with which an array file begins.
pub const MAGIC: [u8; 6] = [0x93, b'N', b'U', b'M', b'P', b'Y'];

/// The version that is read and written.
pub const VERSION: [u8; 2] = [1, 0];

/// The greatest extent and the greatest number of elements of an array.
const LIMIT: u64 = MAX_ELEMENTS as u64;

/// An array that is still to be taken out of its elements.
#[derive(Clone, Copy)]
struct Layout<'a> {
    kind: Kind,
    first_fastest: bool,
    shape: Shape,
    /// The number of elements.
    count: usize,
    elements: &'a [u8],
}

/// The text of the header, and the elements behind it.
fn header_text(bytes: &[u8]) -> Option<(&[u8], &[u8])>
    ensures { Gives (λ read. (read.0.now, read.1.now)) result (text_at bytes.now) }
{
    match bytes {
        [_, _, rest @ ..] => {
            let len = LittleEndian::read_u16(bytes) as usize;
            if rest.len() < len {
                return None;
            }
            Some(rest.split_at(len))
        }
        _ => None,
    }
}

/// The header, and the elements behind it.
#[tactic(auto, unfolding(crate::specs::Loading::preamble_at))]
fn preamble(bytes: &[u8]) -> Result<(Header<'_>, &[u8]), NpyFault>
    ensures { Loads (λ read. (view_header read.0, read.1.now)) result (preamble_at bytes.now) }
{
    let rest = bytes.strip_prefix(&MAGIC).ok_or(NpyFault::BadMagic)?;
    let rest = rest.strip_prefix(&VERSION).ok_or(NpyFault::BadVersion)?;
    let (text, elements) = header_text(rest).ok_or(NpyFault::BadHeader)?;
    let header = read_header(text).ok_or(NpyFault::BadHeader)?;
    Ok((header, elements))
}

/// The kind that an element type's name stands for.
#[tactic(auto, unfolding(crate::specs::Loading::kind_of))]
fn kind_named(descr: &[u8]) -> Option<Kind>
    ensures { Gives (λ kind. kind) result (kind_of descr.now) }
{
    if descr == b"<i8".as_slice() {
        Some(Kind::Int64)
    } else if descr == b"|b1".as_slice() {
        Some(Kind::Bool)
    } else {
        None
    }
}

/// How many bytes an element takes.
fn size_of_element(kind: Kind) -> usize
    ensures { result ≡ element_size kind }
{
    match kind {
        Kind::Int64 => 8,
        Kind::Bool => 1,
    }
}

/// The number of elements, or the greatest `u64` where it is greater.
fn bounded_count(extents: &[u64]) -> u64
    ensures { result ≡ min (element_count extents.now) (2 ^ 64 - 1) }
{
    let mut count: u64 = 1;
    for extent in extents {
        count = count.saturating_mul(*extent);
    }
    count
}

/// Whether each extent is within the limit.
fn are_extents_small(extents: &[u64]) -> bool
    ensures { result ≡ list_all (λ n. nat_le n max_elements) extents.now }
{
    for extent in extents {
        if *extent > LIMIT {
            return false;
        }
    }
    true
}

/// The number of elements, where the extents and that number are within the limit.
fn small_count(extents: &[u64]) -> Option<usize>
    ensures small { IfSome result (λ count. is_small extents.now ≡ true) }
    ensures count { IfSome result (λ count. count ≡ element_count extents.now) }
    ensures few { IfSome result (λ count. count ≤ max_elements) }
    ensures large { IfNone result (is_small extents.now ≡ false) }
{
    if !are_extents_small(extents) {
        return None;
    }
    let count = bounded_count(extents);
    if count > LIMIT {
        return None;
    }
    Some(count as usize)
}

/// The shape of these extents.
fn shape_from(extents: &[u64]) -> Shape
    requires rank { length extents.now ≤ 4 }
    requires small { is_small extents.now ≡ true }
    ensures { result ≡ shape_of extents.now }
{
    let (rank, extent) = match extents {
        [] => (0, [1, 1, 1, 1]),
        [a] => (1, [*a, 1, 1, 1]),
        [a, b] => (2, [*a, *b, 1, 1]),
        [a, b, c] => (3, [*a, *b, *c, 1]),
        [a, b, c, d, ..] => (4, [*a, *b, *c, *d]),
    };
    Shape {
        rank,
        extent: [
            extent[0] as u32,
            extent[1] as u32,
            extent[2] as u32,
            extent[3] as u32,
        ],
    }
}

/// What an array file holds, with its elements where they stand.
#[tactic(auto, unfolding(crate::specs::Loading::plan_at))]
fn layout_of(bytes: &[u8]) -> Result<Layout<'_>, NpyFault>
    ensures value { Loads view_layout result (plan_at bytes.now) }
    ensures fits { IfOk result FitsElements }
{
    let (header, elements) = preamble(bytes)?;
    let kind = kind_named(header.descr).ok_or(NpyFault::BadKind)?;
    let count = small_count(header.shape.as_slice()).ok_or(NpyFault::TooLarge)?;
    if elements.len() != size_of_element(kind) * count {
        return Err(NpyFault::BadLength);
    }
    Ok(Layout {
        kind,
        first_fastest: header.first_fastest,
        shape: shape_from(header.shape.as_slice()),
        count,
        elements,
    })
}

/// Where the element number `k` in row-major order stands where the first index runs fastest.
fn transposed_place(extents: &[u32], k: usize, count: usize) -> usize
    requires counted { count ≡ element_count extents.now }
    requires within { k < count }
    ensures value { result ≡ transposed extents.now k }
    ensures within { result < count }
{
    match extents {
        [] => 0,
        [extent, rest @ ..] => {
            let extent = *extent as usize;
            let row = count / extent;
            k / row + extent * transposed_place(rest, k % row, row)
        }
    }
}

/// Where the element number `k` in row-major order stands in the file.
fn place_in_file(layout: &Layout<'_>, k: usize) -> usize
    requires fits { FitsElements layout.now }
    requires within { k < layout.now.count }
    ensures value { result ≡ place_at layout.now.first_fastest (extents layout.now.shape) k }
    ensures within { result < layout.now.count }
{
    if layout.first_fastest {
        let extents = &layout.shape.extent[..layout.shape.rank as usize];
        transposed_place(extents, k, layout.count)
    } else {
        k
    }
}

/// The word of the element `k` of the file.
fn element_word(kind: Kind, elements: &[u8], k: usize) -> i64
    requires { element_size kind * (k + 1) ≤ length elements.now }
    ensures { result ≡ word kind elements.now k }
{
    match kind {
        Kind::Int64 => LittleEndian::read_i64(&elements[8 * k..]),
        Kind::Bool => { if elements[k] == 0 { 0 } else { 1 } }
    }
}

/// The words in row-major order.
fn words(alloc: Global, layout: &Layout<'_>) -> Result<Vec<i64>, AllocError>
    requires { FitsElements layout.now }
    ensures { IfOk result (λ v. v.items ≡ first_words (view_layout layout.now) layout.now.count) }
{
    let mut words = Vec::with_capacity(alloc, layout.count)?;
    for k in 0..layout.count {
        let place = place_in_file(layout, k);
        words.push(element_word(layout.kind, layout.elements, place))?;
    }
    Ok(words)
}

/// The array of a file, with the first fault from the left.
#[tactic(auto, unfolding(crate::specs::Loading::array_at))]
fn load(alloc: Global, bytes: &[u8]) -> Result<Array, NpyFault>
    ensures { Answers result (array_at bytes.now) }
{
    let layout = layout_of(bytes)?;
    let words = words(alloc, &layout)?;
    Ok(Array {
        kind: layout.kind,
        shape: layout.shape,
        words: Seq::from_vec(words),
    })
}

/// The array whose file these bytes are, or the first part of them that breaks the form. The form is version 1.0 of
/// NumPy's `.npy`, with int64 or bool elements in either order and one to four dimensions; an extent and the number of
/// elements are at most 2^22. An array whose first index runs fastest in the file is kept in row-major order.
pub fn read_npy(alloc: Global, bytes: &[u8]) -> Result<Array, NpyFault>
    // What is read is the array of the file.
    ensures array { IfOk result (IsNpy bytes.now) }
    // The file of an array is read as that array, unless memory is wanting.
    ensures only { (a : Array) → IsNpy bytes.now a → IsOnly a result }
    // A refusal is one that the bytes show, or want of memory.
    ensures refused { IfErr result (λ f. (f ≡ NpyFault.Memory) ⊎ NpyRefusal bytes.now f) }
    // What the bytes show is the refusal, unless memory is wanting.
    ensures shown { (f : NpyFault) → NpyRefusal bytes.now f → IsRefused f result }

    // No bytes are the file of two arrays, show two refusals or are both a file and refused, and each is one of the
    // two.
    ensures one_array { (a b : Array) → IsNpy bytes.now a → IsNpy bytes.now b → a ≡ b }
    ensures one_refusal { (f g : NpyFault) → NpyRefusal bytes.now f → NpyRefusal bytes.now g → f ≡ g }
    ensures not_both { (a : Array) (f : NpyFault) → IsNpy bytes.now a → NpyRefusal bytes.now f → ⊥ }
    ensures either { ((a : Array) × IsNpy bytes.now a) ⊎ ((f : NpyFault) × NpyRefusal bytes.now f) }
{
    load(alloc, bytes)
}
