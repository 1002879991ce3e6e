//! The signatures of a module.

ghost use Rattle.std.specs.Prelude.{◌≡◌, [], filter, length, IfOk, IfErr, List};
ghost use Rattle.krn_base.specs.declared.refusal.Refusal.{Refusal};
ghost use Rattle.krn_base.specs.declared.refusal.Rule.TheVariants as rule;
ghost use Rattle.krn_base.specs.declared.refusal.Stop.TheVariants as stop;
ghost use Rattle.export_sig.specs.declared.signature.Signature.{Signature};
ghost use Rattle.export_sig.specs.Counts.{count_in};
ghost use Rattle.export_sig.specs.Exports.{AreExports, IsExportRefusal, is_export};
ghost use Rattle.export_sig.specs.Keys.{HoldsKeys};
ghost use Rattle.export_sig.specs.Listing as spec;
ghost use Rattle.export_sig.specs.Listing.{Answers, scan, export_from, export_given};
ghost use Rattle.export_sig.specs.NoteLists.{IsOnly, IsOnlyRefusal};
ghost use Rattle.export_sig.specs.Reading.{Reads};

use crate::export_note::signature_of;
use crate::failure::Failure;
use crate::found::Found;
use crate::functions::{ParameterCounts, count_parameters, parameter_count};
use crate::signature::Signature;
use crate::words::has_first_word;
use krn_base::{Refusal, Rule, Seq, Stop};
use py_parse::{Module, Note};
use std::alloc::{AllocError, Global};

/// An exported function has at most so many parameters.
const MOST_PARAMS: usize = 16;

/// A module has at most so many exports.
const MOST_EXPORTS: usize = 64;

fn has_params(counts: &ParameterCounts<'_>, s: &Signature) -> bool
    ensures { result ≡ spec.is_count (count_in counts.now s.now.name.text) (length s.now.params) }
{
    match parameter_count(counts, s.name.text.as_slice()) {
        Some(count) => count == s.params.as_slice().len(),
        None => false,
    }
}

// Whether a signature may stand behind those that were found.
#[tactic(auto, unfolding(crate::specs::Listing::is_admitted))]
fn is_admitted(
    alloc: Global,
    counts: &ParameterCounts<'_>,
    found: &Found,
    s: &Signature,
) -> Result<bool, AllocError>
    requires { HoldsKeys found.now }
    ensures { IfOk result (λ b. b ≡ spec.is_admitted (count_in counts.now) found.now.list.items s.now) }
{
    if !has_params(counts, s) {
        return Ok(false);
    }
    if s.params.as_slice().len() > MOST_PARAMS {
        return Ok(false);
    }
    if found.len() >= MOST_EXPORTS {
        return Ok(false);
    }
    Ok(!found.has(alloc, s)?)
}

#[tactic(auto, unfolding(crate::specs::Listing::export_from))]
fn signature(
    alloc: Global,
    counts: &ParameterCounts<'_>,
    found: &Found,
    note: &Note,
) -> Result<Signature, Failure>
    requires { HoldsKeys found.now }
    ensures { Reads (λ s. s) result (export_from (count_in counts.now) found.now.list.items note.now) }
{
    let signature = signature_of(alloc, note)?;
    if is_admitted(alloc, counts, found, &signature)? {
        Ok(signature)
    } else {
        Err(Failure::Malformed)
    }
}

fn is_export(note: &Note) -> bool
    ensures { result ≡ is_export note.now }
{
    has_first_word(note.text.as_slice(), b"pythran")
}

// The signatures by one pass over the notes.
fn signatures(
    alloc: Global,
    counts: &ParameterCounts<'_>,
    notes: &[Note],
) -> Result<Seq<Signature>, Stop>
    ensures { Answers rule.Export (scan (export_given (count_in counts.now)) [] (filter is_export notes.now)) result }
{
    let mut found = Found::new(alloc);
    let mut rest = notes;
    while let [note, more @ ..] = rest {
        rest = more;
        if !is_export(note) {
            continue;
        }
        match signature(alloc, counts, &found, note) {
            Ok(signature) => found.add(alloc, signature)?,
            Err(Failure::Memory) => return Err(Stop::Memory),
            Err(Failure::Malformed) => {
                return Err(Stop::Refused(Refusal {
                    rule: Rule::Export,
                    loc: note.loc,
                }));
            }
        }
    }
    Ok(found.into_seq())
}

/// The signatures of a module's export notes, in the order of the notes.
///
/// A note is refused by `Rule::Export` at its `#` where it is malformed, names no function of the module, has
/// another number of types than that function has parameters (the first function of the name counts), has more than
/// 16, repeats name and types of a signature before it, or is the 65th; the first such note in the text gives the
/// refusal. Nothing is asked of the module. The functions are gone through once. Each note is read once, and its name
/// and its signature are looked up in indexes; no note behind the 65th is read.
pub fn exports(alloc: Global, module: &Module) -> Result<Seq<Signature>, Stop>
    ensures signatures { IfOk result (λ signatures. AreExports «module».now signatures) }
    ensures refused { IfErr result (IsExportRefusal «module».now) }
    ensures only { (signatures : List Signature) → AreExports «module».now signatures → IsOnly signatures result }
    ensures place { (r : Refusal) → IsExportRefusal «module».now (stop.Refused r) → IsOnlyRefusal r result }
{
    let counts = count_parameters(alloc, module.functions.as_slice())?;
    signatures(alloc, &counts, module.notes.as_slice())
}
