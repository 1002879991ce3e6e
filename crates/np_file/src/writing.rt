ghost use Rattle.std.specs.Prelude.{◌≡◌, ◌+◌, ◌%◌, ◌<◌, ◌≤◌, ◌^◌, ◌++◌, length, true, codes, IfOk, OnOk, replicate};
ghost use Rattle.view_places.specs.Arrays.{element_count, is_small};
ghost use Rattle.view_places.specs.Shape.{IsShape, extents};
ghost use Rattle.std.specs.Fmt.{decimal};
ghost use Rattle.std.specs.List.{flat_map, AllByRecursion};
ghost use Rattle.std.specs.Int.{w64};
ghost use Rattle.std.specs.Int.RustNames.{FitsSigned};
ghost use Rattle.np_file.specs.Npy.{IsNpy, AreWords, descr_of, dictionary, element, file_text, header_text};
ghost use Rattle.np_file.specs.Npy.{more_numbers, npy_text, padding, tuple_text};

use crate::reading::{MAGIC, VERSION};
use byteorder::{ByteOrder, LittleEndian};
use krn_base::{Kind, NoMemory};
use std::alloc::{AllocError, Global};
use view_places::Array;

/// The name of an element type.
fn descr(kind: Kind) -> &'static [u8]
    ensures { result.now ≡ descr_of kind }
{
    match kind {
        Kind::Int64 => b"<i8",
        Kind::Bool => b"|b1",
    }
}

/// A number in decimal.
fn push_number(out: &mut Vec<u8>, alloc: Global, number: u32) -> Result<(), AllocError>
    ensures { OnOk result (out.new.items ≡ out.old.items ++ decimal number) }
{
    let text = number.to_string(alloc)?;
    out.extend_from_slice(text.as_bytes())
}

/// The numbers behind the first of a tuple, and its bracket.
fn push_more_numbers(out: &mut Vec<u8>, alloc: Global, numbers: &[u32]) -> Result<(), AllocError>
    ensures { OnOk result (out.new.items ≡ out.old.items ++ more_numbers numbers.now) }
{
    let mut rest = numbers;
    while let [number, more @ ..] = rest {
        out.extend_from_slice(b", ")?;
        push_number(out, alloc, *number)?;
        rest = more;
    }
    out.extend_from_slice(b")")
}

/// A tuple as Python prints it.
fn push_tuple(out: &mut Vec<u8>, alloc: Global, numbers: &[u32]) -> Result<(), AllocError>
    ensures { OnOk result (out.new.items ≡ out.old.items ++ tuple_text numbers.now) }
{
    match numbers {
        [] => out.extend_from_slice(b"()"),
        [only] => {
            out.extend_from_slice(b"(")?;
            push_number(out, alloc, *only)?;
            out.extend_from_slice(b",)")
        }
        [first, more @ ..] => {
            out.extend_from_slice(b"(")?;
            push_number(out, alloc, *first)?;
            push_more_numbers(out, alloc, more)
        }
    }
}

/// The dictionary of a header, as Python prints it.
fn dictionary_of(alloc: Global, kind: Kind, extents: &[u32]) -> Result<Vec<u8>, AllocError>
    ensures { IfOk result (λ v. v.items ≡ dictionary kind extents.now) }
{
    let mut out = Vec::new(alloc);
    out.extend_from_slice(b"{'descr': '")?;
    out.extend_from_slice(descr(kind))?;
    out.extend_from_slice(b"', 'fortran_order': False, 'shape': ")?;
    push_tuple(&mut out, alloc, extents)?;
    out.extend_from_slice(b", }")?;
    Ok(out)
}

/// As many spaces.
fn push_spaces(out: &mut Vec<u8>, count: usize) -> Result<(), AllocError>
    ensures { OnOk result (out.new.items ≡ out.old.items ++ replicate count 32) }
{
    for _ in 0..count {
        out.push(b' ')?;
    }
    Ok(())
}

/// How many spaces stand behind a dictionary of this length.
fn padding_behind(len: usize) -> usize
    requires { len < 2 ^ 32 }
    ensures { result ≡ padding len }
{
    (64 - (len + 11) % 64) % 64
}

/// The header: the dictionary, spaces and a line feed.
fn header_of(alloc: Global, kind: Kind, extents: &[u32]) -> Result<Vec<u8>, AllocError>
    requires { length (dictionary kind extents.now) ≤ 100 }
    ensures { IfOk result (λ v. v.items ≡ header_text kind extents.now) }
{
    let mut out = dictionary_of(alloc, kind, extents)?;
    let spaces = padding_behind(out.len());
    push_spaces(&mut out, spaces)?;
    out.push(b'\n')?;
    Ok(out)
}

/// The bytes of the elements, in row-major order.
fn push_elements(out: &mut Vec<u8>, kind: Kind, words: &[i64]) -> Result<(), AllocError>
    ensures text { OnOk result (out.new.items ≡ out.old.items ++ flat_map (element kind) words.now) }
    ensures fits { OnOk result (AllByRecursion (FitsSigned w64) words.now) }
{
    for word in words {
        push_element(out, kind, *word)?;
    }
    Ok(())
}

/// The bytes of one element: eight of an int64, the low one first, or a truth value's one.
fn push_element(out: &mut Vec<u8>, kind: Kind, word: i64) -> Result<(), AllocError>
    ensures { OnOk result (out.new.items ≡ out.old.items ++ element kind word) }
{
    match kind {
        Kind::Int64 => {
            let mut bytes = [0u8; 8];
            LittleEndian::write_i64(&mut bytes, word);
            out.extend_from_slice(&bytes)
        }
        Kind::Bool => Ok(out.push(if word == 0 { 0 } else { 1 })?),
    }
}

/// The file of an array of this kind, with these extents and words.
fn file_of(alloc: Global, kind: Kind, extents: &[u32], words: &[i64]) -> Result<Vec<u8>, AllocError>
    requires rank { length extents.now ≤ 4 }
    requires small { is_small extents.now ≡ true }
    ensures text { IfOk result (λ v. v.items ≡ file_text kind extents.now words.now) }
    ensures fits { OnOk result (AllByRecursion (FitsSigned w64) words.now) }
{
    let header = header_of(alloc, kind, extents)?;
    let mut len = [0u8; 2];
    LittleEndian::write_u16(&mut len, header.len() as u16);
    let mut out = Vec::new(alloc);
    out.extend_from_slice(&MAGIC)?;
    out.extend_from_slice(&VERSION)?;
    out.extend_from_slice(&len)?;
    out.extend_from_slice(&header)?;
    push_elements(&mut out, kind, words)?;
    Ok(out)
}

/// The file of an array in the one form that is written: version 1.0 of NumPy's `.npy`, in row-major order, with the
/// dictionary as Python prints it and as many spaces as let the elements begin at a multiple of 64. The array has one
/// to four dimensions, a word for each element, and words 0 or 1 where its kind is Bool. `Err` is want of memory.
pub fn write_npy(alloc: Global, array: &Array) -> Result<Vec<u8>, NoMemory>
    requires shape { IsShape array.now.shape }
    requires rank { 1 ≤ array.now.shape.rank }
    requires small { is_small (extents array.now.shape) ≡ true }
    requires count { length array.now.words ≡ element_count (extents array.now.shape) }
    requires words { AreWords array.now.kind array.now.words }

    // The bytes are those of the form.
    ensures text { IfOk result (λ v. v.items ≡ npy_text array.now) }
    // They are a file of the array, and so of no other.
    ensures back { IfOk result (λ v. IsNpy v.items array.now) }
    // Ten bytes and the header are a multiple of 64 bytes, with fewer than 64 spaces.
    ensures aligned { (10 + length (header_text array.now.kind (extents array.now.shape))) % 64 ≡ 0 }
    ensures least { padding (length (dictionary array.now.kind (extents array.now.shape))) < 64 }
{
    let extents = &array.shape.extent[..array.shape.rank as usize];
    let words = array.words.as_slice();
    Ok(file_of(alloc, array.kind, extents, words)?)
}
