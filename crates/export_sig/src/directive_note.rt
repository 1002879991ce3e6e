//! The text of a directive note.

ghost use Rattle.std.specs.Prelude.{◌≡◌, length, []};
ghost use Rattle.export_sig.specs.Reading as spec;
ghost use Rattle.export_sig.specs.Reading.{Gives, Reads};

use crate::clause::spaced_clause;
use crate::failure::Failure;
use crate::words::{after_blanks, behind_blanks, behind_byte, behind_text};
use krn_base::{Join, Loc};
use py_parse::{Name, Note};
use std::alloc::Global;

// The text behind the `for`.
#[tactic(auto, unfolding(crate::specs::Reading::behind_directive))]
fn behind_directive(text: &[u8]) -> Option<&[u8]>
    ensures { Gives (λ rest. rest.now) result (spec.behind_directive text.now) }
{
    let text = behind_byte(text, b'#')?;
    let text = behind_text(after_blanks(text), b"omp")?;
    let text = behind_blanks(text)?;
    let text = behind_text(text, b"parallel")?;
    let text = behind_blanks(text)?;
    behind_text(text, b"for")
}

// The reductions of all clauses, in a note of so many bytes that starts at a place.
#[tactic(auto, using(crate::proofs::Turns::turn), unfolding(crate::specs::Reading::clauses_from))]
fn clauses(
    alloc: Global,
    start: Loc,
    whole: usize,
    text: &[u8],
) -> Result<Vec<(Join, Name)>, Failure>
    ensures { Reads (λ pairs. pairs.items) result (spec.clauses_from start whole (length text.now) [] text.now) }
{
    let mut found = Vec::new(alloc);
    let mut rest = text;
    for _turn in 0..text.len() {
        if rest.is_empty() {
            return Ok(found);
        }
        let (mut more, behind) = spaced_clause(alloc, start, whole, rest)?;
        found.append(&mut more)?;
        rest = behind;
    }
    if rest.is_empty() {
        Ok(found)
    } else {
        Err(Failure::Malformed)
    }
}

/// The reductions of a directive note, in the order of its text.
#[tactic(auto, unfolding(crate::specs::Reading::reductions_of))]
pub fn reductions_of(alloc: Global, note: &Note) -> Result<Vec<(Join, Name)>, Failure>
    ensures { Reads (λ pairs. pairs.items) result (spec.reductions_of note.now) }
{
    let text = note.text.as_slice();
    match behind_directive(text) {
        Some(from) => clauses(alloc, note.loc, text.len(), from),
        None => Err(Failure::Malformed),
    }
}
