//! The rule Recursion.

ghost use Rattle.std.specs.Prelude.{◌≡◌, ◌<◌, ◌+◌, ◌↔◌, ◌++◌, ◌∷◌, [], List, IfOk, IfErr, OnOk, length, true};
ghost use Rattle.krn_base.specs.declared.place.Loc.{Loc};
ghost use Rattle.module_names.specs.Places.{IsOnlyYes, IsOnlyAt};
ghost use Rattle.call_chains.specs.Calls as calls;
ghost use Rattle.call_chains.specs.Chains as spec;
ghost use Rattle.call_chains.specs.Known.{IsKnown};
ghost use Rattle.call_chains.specs.Least.{IsLeast, IsLeastBelow, SoFar, is_sooner, Answers};
ghost use Rattle.call_chains.specs.declared.graph.OwnCall.{OwnCall as OwnCallMeaning};
ghost use Rattle.call_chains.specs.Sets.{rank_of, Falls, FallsAlong};

use crate::graph::{OwnCall, own_calls};
use crate::layers::last_layer;
use crate::marks::{is_marked, row};
use crate::ranks::ranks_of;
use crate::reach::reached;
use krn_base::{Loc, Refusal, Rule, Seq, Stop};
use module_names::is_before;
use py_parse::Module;
use std::alloc::{AllocError, Global};

/// The number of a function's component.
fn rank_at(ranks: &[usize], f: usize) -> usize
    ensures { result ≡ rank_of ranks.now f }
{
    if f < ranks.len() { ranks[f] } else { 0 }
}

/// Whether numbers don't rise along these calls of a function.
fn falls_along(calls: &[OwnCall], ranks: &[usize], f: usize) -> bool
    ensures { result ≡ true → FallsAlong calls.now ranks.now f }
{
    for call in calls {
        if rank_at(ranks, f) < rank_at(ranks, call.callee) {
            return false;
        }
    }
    true
}

/// Whether numbers don't rise along calls.
fn falls(rows: &[Seq<OwnCall>], ranks: &[usize]) -> bool
    ensures { result ≡ true → Falls rows.now ranks.now }
{
    for f in 0..rows.len() {
        if !falls_along(row(rows, f), ranks, f) {
            return false;
        }
    }
    true
}

/// What the rule looks at.
#[derive(Drop)]
pub struct Chains<'a> {
    rows: &'a [Seq<OwnCall>],
    exported: &'a [usize],
    /// The functions that an exported one leads to.
    reached: Vec<bool>,
    /// Those that one leads to by as many calls as are accepted.
    last: Vec<bool>,
    ranks: Vec<usize>,
    /// Whether the numbers are known not to rise along calls.
    falling: bool,
}

fn chains_of<'a>(
    alloc: Global,
    rows: &'a [Seq<OwnCall>],
    exported: &'a [usize],
) -> Result<Chains<'a>, AllocError>
    ensures rows { IfOk result (λ chains. chains.rows.now ≡ rows.now) }
    ensures exported { IfOk result (λ chains. chains.exported.now ≡ exported.now) }
    ensures known { IfOk result IsKnown }
{
    let ranks = ranks_of(alloc, rows)?;
    let falling = falls(rows, ranks.as_slice());
    Ok(Chains {
        rows,
        exported,
        reached: reached(alloc, rows, exported)?,
        last: last_layer(alloc, rows, exported)?,
        ranks,
        falling,
    })
}

/// Whether the numbers say that a call doesn't lead back.
fn is_apart(chains: &Chains<'_>, caller: usize, callee: usize) -> bool
    requires { IsKnown chains.now }
    ensures { result ≡ true → spec.LeadsBack chains.now.rows.now callee caller → ⊥ }
{
    chains.falling
        && rank_at(chains.ranks.as_slice(), callee) < rank_at(chains.ranks.as_slice(), caller)
}

/// Whether the called function leads back to the calling one.
fn leads_back(
    alloc: Global,
    chains: &Chains<'_>,
    caller: usize,
    callee: usize,
) -> Result<bool, AllocError>
    requires known { IsKnown chains.now }
    requires there { caller < length chains.now.rows.now }
    ensures { IfOk result (λ b. (b ≡ true) ↔ spec.LeadsBack chains.now.rows.now callee caller) }
{
    if is_apart(chains, caller, callee) {
        return Ok(false);
    }
    let marks = reached(alloc, chains.rows, &[callee])?;
    Ok(is_marked(marks.as_slice(), caller))
}

/// Whether a call is refused.
fn is_refused(
    alloc: Global,
    chains: &Chains<'_>,
    caller: usize,
    callee: usize,
) -> Result<bool, AllocError>
    requires known { IsKnown chains.now }
    requires there { caller < length chains.now.rows.now }
    ensures { IfOk result (λ b. (b ≡ true) ↔ spec.IsRefused chains.now.rows.now chains.now.exported.now caller callee) }
{
    if !is_marked(chains.reached.as_slice(), caller) {
        return Ok(false);
    }
    if is_marked(chains.last.as_slice(), caller) {
        return Ok(true);
    }
    leads_back(alloc, chains, caller, callee)
}

/// Whether a place comes before the first one so far.
fn comes_sooner(first: Option<Loc>, at: Loc) -> bool
    ensures { result ≡ is_sooner first at }
{
    match first {
        None => true,
        Some(other) => is_before(at, other),
    }
}

/// The first refused call with one more call of a function.
fn with_call(
    alloc: Global,
    chains: &Chains<'_>,
    caller: usize,
    call: OwnCall,
    first: Option<Loc>,
) -> Result<Option<Loc>, AllocError>
    requires known { IsKnown chains.now }
    requires there { caller < length chains.now.rows.now }
    ensures { IfOk result (λ least. (before : List OwnCallMeaning)
        → IsLeast (SoFar chains.now.rows.now chains.now.exported.now caller before) first
        → IsLeast (SoFar chains.now.rows.now chains.now.exported.now caller (before ++ call ∷ [])) least) }
{
    if !comes_sooner(first, call.at) {
        return Ok(first);
    }
    if is_refused(alloc, chains, caller, call.callee)? {
        Ok(Some(call.at))
    } else {
        Ok(first)
    }
}

/// The first refused call with those of one more function.
fn first_in(
    alloc: Global,
    chains: &Chains<'_>,
    caller: usize,
    first: Option<Loc>,
) -> Result<Option<Loc>, AllocError>
    requires known { IsKnown chains.now }
    requires there { caller < length chains.now.rows.now }
    requires least { IsLeastBelow chains.now.rows.now chains.now.exported.now caller first }
    ensures { IfOk result (IsLeastBelow chains.now.rows.now chains.now.exported.now (caller + 1)) }
{
    let mut first = first;
    let calls = row(chains.rows, caller);
    for call in calls {
        first = with_call(alloc, chains, caller, *call, first)?;
    }
    Ok(first)
}

/// The first refused call of all.
fn first_of(alloc: Global, chains: &Chains<'_>) -> Result<Option<Loc>, AllocError>
    requires { IsKnown chains.now }
    ensures { IfOk result (IsLeastBelow chains.now.rows.now chains.now.exported.now (length chains.now.rows.now)) }
{
    let mut first = None;
    for caller in 0..chains.rows.len() {
        first = first_in(alloc, chains, caller, first)?;
    }
    Ok(first)
}

/// The answer of the rule for the calls of each function.
fn judged(alloc: Global, rows: &[Seq<OwnCall>], exported: &[usize]) -> Result<(), Stop>
    ensures { Answers rows.now exported.now result }
{
    let chains = chains_of(alloc, rows, exported)?;
    match first_of(alloc, &chains)? {
        None => Ok(()),
        Some(loc) => Err(Stop::Refused(Refusal {
            rule: Rule::Recursion,
            loc,
        })),
    }
}

/// Tests the rule Recursion alone, for a module and the numbers of its exported functions in the order of the text.
///
/// A call of a function of the module is refused where an exported function leads to the function that it stands in,
/// by any chain of calls, and either the called function leads back, or one such chain has 32 calls already. Calls in
/// code that never runs count. The answer is yes exactly where no call is refused; [`Stop::Refused`] by
/// `Rule::Recursion` at the first called name in the text of which the call is; or [`Stop::Memory`]. Of two functions
/// with one name the first is called.
///
/// Takes time linear in the tree, but for the maps of names.
pub fn recursion(alloc: Global, tree: &Module, exported: &[usize]) -> Result<(), Stop>
    ensures ok { OnOk result (spec.IsAccepted (calls.own_calls tree.now) exported.now) }
    ensures refused { IfErr result (spec.Refuses (calls.own_calls tree.now) exported.now) }
    ensures only { spec.IsAccepted (calls.own_calls tree.now) exported.now → IsOnlyYes result }
    ensures place { (at : Loc) → spec.IsFirst (calls.own_calls tree.now) exported.now at
        → IsOnlyAt Rule.Recursion at result }
    ensures chains { OnOk result (spec.HasShortChains (calls.own_calls tree.now) exported.now) }
{
    let rows = own_calls(alloc, tree)?;
    judged(alloc, rows.as_slice(), exported)
}
