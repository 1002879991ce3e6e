//! The text of an export note.

ghost use Rattle.export_sig.specs.Reading as spec;
ghost use Rattle.export_sig.specs.Reading.{Gives, Reads};

use crate::failure::Failure;
use crate::param_type::types;
use crate::signature::Signature;
use crate::words::{after_blanks, behind_blanks, behind_byte, behind_text, moved, name};
use krn_base::{ParamType, Seq};
use py_parse::{Name, Note};
use std::alloc::Global;

// The text from the function's name on.
#[tactic(auto, unfolding(crate::specs::Reading::behind_export))]
fn behind_export(text: &[u8]) -> Option<&[u8]>
    ensures { Gives (λ rest. rest.now) result (spec.behind_export text.now) }
{
    let text = behind_byte(text, b'#')?;
    let text = behind_text(after_blanks(text), b"pythran")?;
    let text = behind_blanks(text)?;
    let text = behind_text(text, b"export")?;
    behind_blanks(text)
}

#[tactic(auto, unfolding(crate::specs::Reading::parameters_at))]
fn parameters(alloc: Global, text: &[u8]) -> Result<Vec<ParamType>, Failure>
    ensures { Reads (λ types. types.items) result (spec.parameters_at text.now) }
{
    match behind_byte(after_blanks(text), b'(') {
        Some(inner) => types(alloc, inner),
        None => Err(Failure::Malformed),
    }
}

/// The signature of an export note.
#[tactic(auto, unfolding(crate::specs::Reading::signature_of))]
pub fn signature_of(alloc: Global, note: &Note) -> Result<Signature, Failure>
    ensures { Reads (λ s. s) result (spec.signature_of note.now) }
{
    let text = note.text.as_slice();
    let Some(from) = behind_export(text) else {
        return Err(Failure::Malformed);
    };
    let Some((name, rest)) = name(from) else {
        return Err(Failure::Malformed);
    };
    let params = parameters(alloc, rest)?;
    Ok(Signature {
        name: Name {
            text: Seq::from_vec(Vec::from_slice(alloc, name)?),
            loc: moved(note.loc, text.len().saturating_sub(from.len())),
        },
        params: Seq::from_vec(params),
        loc: note.loc,
    })
}
