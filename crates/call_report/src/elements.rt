ghost use Rattle.std.specs.Prelude.{◌≡◌, ◌++◌, OnOk, codes};
ghost use Rattle.std.specs.Fmt.{decimal, signed_decimal};
ghost use Rattle.std.specs.List.{flat_map};
ghost use Rattle.view_places.specs.Shape.{extents};
ghost use Rattle.call_report.specs.Report.{kind_name, element_text, elements_text, tuple_text, array_text};

use krn_base::{Kind, NoMemory};
use std::alloc::Global;
use view_places::Shape;

/// Appends bytes as they are.
pub fn append_bytes(out: &mut Vec<u8>, bytes: &[u8]) -> Result<(), NoMemory>
    ensures { OnOk result (out.new.items ≡ out.old.items ++ bytes.now) }
{
    out.extend_from_slice(bytes)?;
    Ok(())
}

/// Appends a number in decimal.
pub fn append_number(alloc: Global, out: &mut Vec<u8>, number: u64) -> Result<(), NoMemory>
    ensures { OnOk result (out.new.items ≡ out.old.items ++ decimal number) }
{
    let text = number.to_string(alloc)?;
    append_bytes(out, text.as_bytes())
}

/// Appends a signed number in decimal.
fn append_signed(alloc: Global, out: &mut Vec<u8>, number: i64) -> Result<(), NoMemory>
    ensures { OnOk result (out.new.items ≡ out.old.items ++ signed_decimal number) }
{
    let text = number.to_string(alloc)?;
    append_bytes(out, text.as_bytes())
}

fn name_of(kind: Kind) -> &'static [u8]
    ensures { result.now ≡ kind_name kind }
{
    match kind {
        Kind::Int64 => b"int64",
        Kind::Bool => b"bool",
    }
}

/// Appends one element.
pub fn append_element(
    alloc: Global,
    out: &mut Vec<u8>,
    kind: Kind,
    word: i64,
) -> Result<(), NoMemory>
    ensures { OnOk result (out.new.items ≡ out.old.items ++ element_text kind word) }
{
    match kind {
        Kind::Int64 => append_signed(alloc, out, word),
        Kind::Bool => append_bytes(out, if word == 0 { b"False" } else { b"True" }),
    }
}

/// Appends the elements of an array, each behind one space.
fn append_elements(
    alloc: Global,
    out: &mut Vec<u8>,
    kind: Kind,
    words: &[i64],
) -> Result<(), NoMemory>
    ensures { OnOk result (out.new.items ≡ out.old.items ++ elements_text kind words.now) }
{
    for word in words {
        append_bytes(out, b" ")?;
        append_element(alloc, out, kind, *word)?;
    }
    Ok(())
}

/// Appends the name of a kind and a space.
pub fn append_kind(out: &mut Vec<u8>, kind: Kind) -> Result<(), NoMemory>
    ensures { OnOk result (out.new.items ≡ out.old.items ++ (kind_name kind ++ codes " ")) }
{
    append_bytes(out, name_of(kind))?;
    append_bytes(out, b" ")
}

/// Appends numbers, each behind a comma and a space.
fn append_more_numbers(alloc: Global, out: &mut Vec<u8>, numbers: &[u32]) -> Result<(), NoMemory>
    ensures { OnOk result (out.new.items ≡ out.old.items ++ flat_map (λ k. codes ", " ++ decimal k) numbers.now) }
{
    for number in numbers {
        append_bytes(out, b", ")?;
        append_number(alloc, out, u64::from(*number))?;
    }
    Ok(())
}

/// Appends numbers as Python prints a tuple.
fn append_tuple(alloc: Global, out: &mut Vec<u8>, numbers: &[u32]) -> Result<(), NoMemory>
    ensures { OnOk result (out.new.items ≡ out.old.items ++ tuple_text numbers.now) }
{
    match numbers {
        [] => append_bytes(out, b"()"),
        [only] => {
            append_bytes(out, b"(")?;
            append_number(alloc, out, u64::from(*only))?;
            append_bytes(out, b",)")
        }
        [first, rest @ ..] => {
            append_bytes(out, b"(")?;
            append_number(alloc, out, u64::from(*first))?;
            append_more_numbers(alloc, out, rest)?;
            append_bytes(out, b")")
        }
    }
}

fn extents_of(shape: &Shape) -> &[u32]
    ensures { result.now ≡ extents shape.now }
{
    let rank = usize::from(shape.rank);
    if rank < 4 {
        &shape.extent[..rank]
    } else {
        &shape.extent
    }
}

/// Appends the kind of an array, its shape and its elements.
pub fn append_array(
    alloc: Global,
    out: &mut Vec<u8>,
    kind: Kind,
    shape: &Shape,
    words: &[i64],
) -> Result<(), NoMemory>
    ensures { OnOk result (out.new.items ≡ out.old.items ++ array_text kind (extents shape.now) words.now) }
{
    append_kind(out, kind)?;
    append_tuple(alloc, out, extents_of(shape))?;
    append_elements(alloc, out, kind, words)
}
