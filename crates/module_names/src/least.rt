//! The first of several places.

ghost use Rattle.std.specs.Prelude.{◌≡◌, List, [], None, Option, OnOk, IfErr};
ghost use Rattle.krn_base.specs.declared.place.Loc.{Loc};
ghost use Rattle.module_names.specs.Places as spec;

use krn_base::{Loc, Refusal, Rule, Stop};

/// Whether a place stands before another in the text.
pub fn is_before(a: Loc, b: Loc) -> bool
    ensures { result ≡ spec.is_before a b }
{
    a.line < b.line || (a.line == b.line && a.col < b.col)
}

/// The place of a test that holds.
pub fn mark(test: bool, at: Loc) -> Option<Loc>
    ensures { result ≡ spec.mark test at }
{
    if test { Some(at) } else { None }
}

/// The first of a place and one more, if there are any.
pub fn sooner(first: Option<Loc>, place: Option<Loc>) -> Option<Loc>
    ensures { result ≡ spec.sooner first place }
{
    match place {
        None => first,
        Some(at) => Some(sooner_of(first, at)),
    }
}

fn sooner_of(first: Option<Loc>, at: Loc) -> Loc
    ensures { result ≡ spec.sooner_of first at }
{
    match first {
        None => at,
        Some(other) => { if is_before(at, other) { at } else { other } }
    }
}

/// The answer of a test whose first refused place this is.
pub fn answer(rule: Rule, first: Option<Loc>) -> Result<(), Stop>
    ensures { result ≡ spec.answer rule first }
{
    match first {
        None => Ok(()),
        Some(loc) => Err(Stop::Refused(Refusal { rule, loc })),
    }
}

/// The answer of a test whose first refused place this is, for each list of marks of which it is the first.
pub fn answer_first(rule: Rule, first: Option<Loc>) -> Result<(), Stop>
    ensures ok { (marks : List (Option Loc)) → first ≡ spec.soonest None marks → OnOk result (spec.given marks ≡ []) }
    ensures refused { (marks : List (Option Loc)) → first ≡ spec.soonest None marks
        → IfErr result (spec.RefusesAt rule (spec.given marks)) }
    ensures only { (marks : List (Option Loc)) → first ≡ spec.soonest None marks → spec.given marks ≡ []
        → spec.IsOnlyYes result }
    ensures place { (marks : List (Option Loc)) → first ≡ spec.soonest None marks → (at : Loc)
        → spec.IsFirst at (spec.given marks) → spec.IsOnlyAt rule at result }
{
    answer(rule, first)
}
