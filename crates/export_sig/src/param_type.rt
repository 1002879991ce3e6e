//! The types of an export note.

ghost use Rattle.std.specs.Prelude.{◌≡◌, length, [], false};
ghost use Rattle.export_sig.specs.Reading as spec;
ghost use Rattle.export_sig.specs.Reading.{Reads};

use crate::failure::Failure;
use crate::words::{after_blanks, behind_byte, is_blank, word_len};
use krn_base::{Kind, ParamType};
use std::alloc::Global;

#[tactic(auto, unfolding(crate::specs::Reading::kind_of))]
fn kind_of(word: &[u8]) -> Option<Kind>
    ensures { result ≡ spec.kind_of word.now }
{
    if word == b"int".as_slice() || word == b"int64".as_slice() {
        Some(Kind::Int64)
    } else if word == b"bool".as_slice() {
        Some(Kind::Bool)
    } else {
        None
    }
}

/// The rank of an array whose places are consecutive, by its brackets.
#[tactic(auto, unfolding(crate::specs::Reading::flat_rank))]
fn flat_rank(own: &[u8]) -> Option<u8>
    ensures { result ≡ spec.flat_rank own.now }
{
    if own == b"[]".as_slice() || own == b"[:]".as_slice() {
        Some(1)
    } else if own == b"[][]".as_slice() || own == b"[:,:]".as_slice() {
        Some(2)
    } else if own == b"[][][]".as_slice() || own == b"[:,:,:]".as_slice() {
        Some(3)
    } else if own == b"[][][][]".as_slice() || own == b"[:,:,:,:]".as_slice() {
        Some(4)
    } else {
        None
    }
}

/// The rank of an array of any view, by its brackets.
#[tactic(auto, unfolding(crate::specs::Reading::strided_rank))]
fn strided_rank(own: &[u8]) -> Option<u8>
    ensures { result ≡ spec.strided_rank own.now }
{
    if own == b"[::]".as_slice() {
        Some(1)
    } else if own == b"[::][::]".as_slice() || own == b"[::,::]".as_slice() {
        Some(2)
    } else if own == b"[::][::][::]".as_slice() || own == b"[::,::,::]".as_slice() {
        Some(3)
    } else if own == b"[::][::][::][::]".as_slice() || own == b"[::,::,::,::]".as_slice() {
        Some(4)
    } else {
        None
    }
}

#[tactic(auto, unfolding(crate::specs::Reading::param_of))]
fn param_of(kind: Kind, own: &[u8]) -> Option<ParamType>
    ensures { result ≡ spec.param_of kind own.now }
{
    if own.is_empty() {
        return Some(ParamType::Scalar(kind));
    }
    if let Some(rank) = flat_rank(own) {
        return Some(ParamType::Flat(kind, rank));
    }
    match strided_rank(own) {
        Some(rank) => Some(ParamType::Strided(kind, rank)),
        None => None,
    }
}

fn is_end(b: u8) -> bool
    ensures { result ≡ spec.is_end b }
{
    b == b',' || b == b')'
}

// Whether what follows a byte stands in brackets.
fn goes_inside(b: u8, inside: bool) -> bool
    ensures { result ≡ spec.goes_inside b inside }
{
    match b {
        b'[' => true,
        b']' => false,
        _ => inside,
    }
}

// The bytes without blanks up to the first comma or `)` outside brackets, and what is left from there on.
#[tactic(auto, unfolding(crate::specs::Reading::gathered))]
fn gather(alloc: Global, text: &[u8]) -> Result<(Vec<u8>, &[u8]), Failure>
    ensures { Reads (λ read. (read.0.items, read.1.now)) result (spec.gathered false [] text.now) }
{
    let mut found = Vec::new(alloc);
    let mut inside = false;
    let mut rest = text;
    while let [b, more @ ..] = rest {
        if is_blank(*b) {
            rest = more;
            continue;
        }
        if !inside && is_end(*b) {
            return Ok((found, rest));
        }
        inside = goes_inside(*b, inside);
        found.push(*b)?;
        rest = more;
    }
    Err(Failure::Malformed)
}

// A type from its word on, and what stands behind it.
#[tactic(auto, unfolding(crate::specs::Reading::bare_type))]
fn bare_type(alloc: Global, text: &[u8]) -> Result<(ParamType, &[u8]), Failure>
    ensures { Reads (λ read. (read.0, read.1.now)) result (spec.bare_type text.now) }
{
    let (word, tail) = text.split_at(word_len(text));
    let Some(kind) = kind_of(word) else {
        return Err(Failure::Malformed);
    };
    let (own, rest) = gather(alloc, tail)?;
    match param_of(kind, own.as_slice()) {
        Some(param) => Ok((param, rest)),
        None => Err(Failure::Malformed),
    }
}

#[tactic(auto, unfolding(crate::specs::Reading::type_at))]
fn type_at(alloc: Global, text: &[u8]) -> Result<(ParamType, &[u8]), Failure>
    ensures { Reads (λ read. (read.0, read.1.now)) result (spec.type_at text.now) }
{
    bare_type(alloc, after_blanks(text))
}

#[tactic(auto, using(crate::proofs::Turns::turn), unfolding(crate::specs::Reading::types_from))]
fn some_types(alloc: Global, text: &[u8]) -> Result<Vec<ParamType>, Failure>
    ensures { Reads (λ types. types.items) result (spec.types_from (length text.now) [] text.now) }
{
    let mut found = Vec::new(alloc);
    let mut rest = text;
    for _turn in 0..text.len() {
        let (param, behind) = type_at(alloc, rest)?;
        found.push(param)?;
        if behind == b")".as_slice() {
            return Ok(found);
        }
        let Some(more) = behind_byte(behind, b',') else {
            return Err(Failure::Malformed);
        };
        rest = more;
    }
    Err(Failure::Malformed)
}

/// The types of an export note, from behind its `(` to its end.
#[tactic(auto, unfolding(crate::specs::Reading::types_at))]
pub fn types(alloc: Global, text: &[u8]) -> Result<Vec<ParamType>, Failure>
    ensures { Reads (λ types. types.items) result (spec.types_at text.now) }
{
    if after_blanks(text) == b")".as_slice() {
        return Ok(Vec::new(alloc));
    }
    some_types(alloc, text)
}
