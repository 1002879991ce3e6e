//! The clauses of a directive note.

ghost use Rattle.std.specs.Prelude.{◌≡◌, Some};
ghost use Rattle.export_sig.specs.Reading as spec;
ghost use Rattle.export_sig.specs.Reading.{Gives, Reads};

use crate::failure::Failure;
use crate::words::{behind_blanks, behind_byte, behind_text, moved, name};
use krn_base::{Join, Loc, Seq};
use py_parse::Name;
use std::alloc::Global;

/// The operation of a reduction, and what stands behind its `:`.
#[tactic(auto, unfolding(crate::specs::Reading::join_at))]
fn join_at(text: &[u8]) -> Option<(Join, &[u8])>
    ensures { Gives (λ read. (read.0, read.1.now)) result (spec.join_at text.now) }
{
    if let Some(rest) = behind_text(text, b"+:") {
        return Some((Join::Sum, rest));
    }
    if let Some(rest) = behind_text(text, b"*:") {
        return Some((Join::Prod, rest));
    }
    if let Some(rest) = behind_text(text, b"&:") {
        return Some((Join::And, rest));
    }
    if let Some(rest) = behind_text(text, b"|:") {
        return Some((Join::Or, rest));
    }
    if let Some(rest) = behind_text(text, b"^:") {
        return Some((Join::Xor, rest));
    }
    if let Some(rest) = behind_text(text, b"max:") {
        return Some((Join::Max, rest));
    }
    match behind_text(text, b"min:") {
        Some(rest) => Some((Join::Min, rest)),
        None => None,
    }
}

fn name_at(alloc: Global, start: Loc, before: usize, text: &[u8]) -> Result<Name, Failure>
    ensures { Reads (λ n. n) result (Some (spec.name_moved start before text.now)) }
{
    Ok(Name {
        text: Seq::from_vec(Vec::from_slice(alloc, text)?),
        loc: moved(start, before),
    })
}

// Names with commas between, up to behind the `)`, in a note of so many bytes that starts at a place.
#[tactic(auto, using(crate::proofs::Turns::turn), unfolding(crate::specs::Reading::names_from))]
fn names(
    alloc: Global,
    start: Loc,
    whole: usize,
    text: &[u8],
) -> Result<(Vec<Name>, &[u8]), Failure>
    ensures { Reads (λ read. (read.0.items, read.1.now)) result (spec.names_in start whole text.now) }
{
    let mut found = Vec::new(alloc);
    let mut rest = text;
    for _turn in 0..text.len() {
        let Some((word, behind)) = name(rest) else {
            return Err(Failure::Malformed);
        };
        let before = whole.saturating_sub(rest.len());
        found.push(name_at(alloc, start, before, word)?)?;
        if let Some(more) = behind_byte(behind, b')') {
            return Ok((found, more));
        }
        let Some(more) = behind_byte(behind, b',') else {
            return Err(Failure::Malformed);
        };
        rest = more;
    }
    Err(Failure::Malformed)
}

fn joined_names(alloc: Global, join: Join, names: Vec<Name>) -> Result<Vec<(Join, Name)>, Failure>
    ensures { Reads (λ pairs. pairs.items) result (Some (spec.joined_names join names.items)) }
{
    let mut pairs = Vec::new(alloc);
    for name in names {
        pairs.push((join, name))?;
    }
    Ok(pairs)
}

#[tactic(auto, unfolding(crate::specs::Reading::reduction_at))]
fn reduction(
    alloc: Global,
    start: Loc,
    whole: usize,
    text: &[u8],
) -> Result<(Vec<(Join, Name)>, &[u8]), Failure>
    ensures { Reads (λ read. (read.0.items, read.1.now)) result (spec.reduction_at start whole text.now) }
{
    let Some((join, text)) = join_at(text) else {
        return Err(Failure::Malformed);
    };
    let (names, rest) = names(alloc, start, whole, text)?;
    Ok((joined_names(alloc, join, names)?, rest))
}

#[tactic(auto, unfolding(crate::specs::Reading::private_at))]
fn private(
    alloc: Global,
    start: Loc,
    whole: usize,
    text: &[u8],
) -> Result<(Vec<(Join, Name)>, &[u8]), Failure>
    ensures { Reads (λ read. (read.0.items, read.1.now)) result (spec.private_at start whole text.now) }
{
    let (_, rest) = names(alloc, start, whole, text)?;
    Ok((Vec::new(alloc), rest))
}

// A clause with names.
#[tactic(auto, unfolding(crate::specs::Reading::named_at))]
fn named_clause(
    alloc: Global,
    start: Loc,
    whole: usize,
    text: &[u8],
) -> Result<(Vec<(Join, Name)>, &[u8]), Failure>
    ensures { Reads (λ read. (read.0.items, read.1.now)) result (spec.named_at start whole text.now) }
{
    if let Some(rest) = behind_text(text, b"private(") {
        return private(alloc, start, whole, rest);
    }
    match behind_text(text, b"reduction(") {
        Some(rest) => reduction(alloc, start, whole, rest),
        None => Err(Failure::Malformed),
    }
}

// The reductions of the clause at the front, and what stands behind it, in a note of so many bytes that starts at a
// place.
#[tactic(auto, unfolding(crate::specs::Reading::clause_at))]
fn clause(
    alloc: Global,
    start: Loc,
    whole: usize,
    text: &[u8],
) -> Result<(Vec<(Join, Name)>, &[u8]), Failure>
    ensures { Reads (λ read. (read.0.items, read.1.now)) result (spec.clause_at start whole text.now) }
{
    if let Some(rest) = behind_text(text, b"schedule(static)") {
        return Ok((Vec::new(alloc), rest));
    }
    if let Some(rest) = behind_text(text, b"default(shared)") {
        return Ok((Vec::new(alloc), rest));
    }
    named_clause(alloc, start, whole, text)
}

/// The same, where blanks stand before the clause.
#[tactic(auto, unfolding(crate::specs::Reading::spaced_clause))]
pub fn spaced_clause(
    alloc: Global,
    start: Loc,
    whole: usize,
    text: &[u8],
) -> Result<(Vec<(Join, Name)>, &[u8]), Failure>
    ensures { Reads (λ read. (read.0.items, read.1.now)) result (spec.spaced_clause start whole text.now) }
{
    match behind_blanks(text) {
        Some(rest) => clause(alloc, start, whole, rest),
        None => Err(Failure::Malformed),
    }
}
