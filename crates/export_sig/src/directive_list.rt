//! The directives of a module.

ghost use Rattle.std.specs.Prelude.{◌≡◌, [], IfOk, IfErr, List};
ghost use Rattle.krn_base.specs.declared.refusal.Refusal.{Refusal};
ghost use Rattle.krn_base.specs.declared.refusal.Rule.TheVariants as rule;
ghost use Rattle.krn_base.specs.declared.refusal.Stop.TheVariants as stop;
ghost use Rattle.export_sig.specs.declared.directive.Directive.{Directive};
ghost use Rattle.export_sig.specs.Directives.{AreDirectives, IsDirectiveRefusal, is_directive, directives_in};
ghost use Rattle.export_sig.specs.Listing as spec;
ghost use Rattle.export_sig.specs.Listing.{Answers, scan, directive_from, directive_given};
ghost use Rattle.export_sig.specs.NoteLists.{IsOnly, IsOnlyRefusal};
ghost use Rattle.export_sig.specs.Reading.{Reads};

use crate::directive::Directive;
use crate::directive_note::reductions_of;
use crate::failure::Failure;
use crate::loops::{Places, is_among, is_place, loop_places};
use crate::names::are_apart;
use crate::words::has_first_word;
use krn_base::{Join, Refusal, Rule, Seq, Stop};
use py_parse::{Module, Name, Note};
use std::alloc::{AllocError, Global};

fn is_directive(note: &Note) -> bool
    ensures { result ≡ is_directive note.now }
{
    has_first_word(note.text.as_slice(), b"omp")
}

// Whether no directive note among these, which stand behind a note, speaks of the same token.
fn is_alone(note: &Note, more: &[Note]) -> bool
    ensures { result ≡ spec.is_alone note.now (directives_in more.now) }
{
    let mut rest = more;
    while let [other, others @ ..] = rest {
        if is_directive(other) {
            return !is_place(other.next.loc, note.next.loc);
        }
        rest = others;
    }
    true
}

// Whether the note before these has a directive with these reductions, where these are the places of the loops.
#[tactic(auto, unfolding(crate::specs::Listing::is_directed))]
fn is_directed(
    alloc: Global,
    loops: &Places,
    note: &Note,
    more: &[Note],
    reductions: &[(Join, Name)],
) -> Result<bool, AllocError>
    ensures { IfOk result (λ b. b ≡ spec.is_directed loops.now.keys note.now (directives_in more.now) reductions.now) }
{
    if !are_apart(alloc, reductions)? {
        return Ok(false);
    }
    if !is_among(loops, note.next.loc) {
        return Ok(false);
    }
    Ok(is_alone(note, more))
}

#[tactic(auto, unfolding(crate::specs::Listing::directive_from))]
fn directive(
    alloc: Global,
    loops: &Places,
    note: &Note,
    more: &[Note],
) -> Result<Directive, Failure>
    ensures { Reads (λ d. d) result (directive_from loops.now.keys note.now (directives_in more.now)) }
{
    let reductions = reductions_of(alloc, note)?;
    if is_directed(alloc, loops, note, more, reductions.as_slice())? {
        Ok(Directive {
            loc: note.loc,
            target: note.next.loc,
            reductions: Seq::from_vec(reductions),
        })
    } else {
        Err(Failure::Malformed)
    }
}

// The directives by one pass over the notes.
fn listed(alloc: Global, loops: &Places, notes: &[Note]) -> Result<Seq<Directive>, Stop>
    ensures { Answers rule.Directive (scan (directive_given loops.now.keys) [] (directives_in notes.now)) result }
{
    let mut found = Vec::new(alloc);
    let mut rest = notes;
    while let [note, more @ ..] = rest {
        rest = more;
        if !is_directive(note) {
            continue;
        }
        match directive(alloc, loops, note, more) {
            Ok(directive) => found.push(directive).map_err(AllocError::from)?,
            Err(Failure::Memory) => return Err(Stop::Memory),
            Err(Failure::Malformed) => {
                return Err(Stop::Refused(Refusal {
                    rule: Rule::Directive,
                    loc: note.loc,
                }));
            }
        }
    }
    Ok(Seq::from_vec(found))
}

/// The directives of a module's `omp` notes, in the order of the notes.
///
/// A note is refused by `Rule::Directive` at its `#` where it is malformed, names a reduction twice, has no loop's
/// `for` as the next token behind it, Indents and Dedents apart, or has another `omp` note before that `for`; the
/// first such note in the text gives the refusal. Nothing is asked of the module. The statements and the notes are
/// gone through once.
pub fn directives(alloc: Global, module: &Module) -> Result<Seq<Directive>, Stop>
    ensures directives { IfOk result (λ directives. AreDirectives «module».now directives) }
    ensures refused { IfErr result (IsDirectiveRefusal «module».now) }
    ensures only { (directives : List Directive) → AreDirectives «module».now directives → IsOnly directives result }
    ensures place { (r : Refusal) → IsDirectiveRefusal «module».now (stop.Refused r) → IsOnlyRefusal r result }
{
    let loops = loop_places(alloc, module.functions.as_slice())?;
    listed(alloc, &loops, module.notes.as_slice())
}
