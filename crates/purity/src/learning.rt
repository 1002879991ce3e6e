//! Learning the effects of instances, one after another.
ghost use Rattle.std.specs.Prelude.{◌≡◌, ◌≤◌, ◌<◌, ◌++◌, [], ℕ, IfOk, OnOk, IfSome, List, Some, None, length, map};
ghost use Rattle.std.specs.Prelude.{replicate};
ghost use Rattle.std.specs.Prelude.{slice_get, slice_set};
ghost use Rattle.std.specs.List.{flat_map, range_with_len};
ghost use Rattle.eager_rules.specs.Statements.{statements as statements_of};
ghost use Rattle.eager_rules.specs.declared.program.Instance.{Instance as AnyInstance};
ghost use Rattle.eager_rules.specs.Sound.{IsSound};
ghost use Rattle.purity.specs.Answers.{AreEffects};
ghost use Rattle.purity.specs.Knowledge.{AreSources, AreThere, IsKnowledge, IsLeading, KnowsAll, Learns, LearnsAll};
ghost use Rattle.purity.specs.Knowledge.{Summarizes, is_known, number_when};
ghost use Rattle.purity.specs.Marks.{row};
ghost use Rattle.purity.specs.Soundness.{FaultsNever, WritesNoOthers};
ghost use Rattle.purity.specs.Tables.{IsSummary};
ghost use Rattle.purity.specs.Uses.{all_uses, callee_of, listed};

use crate::answers::Effects;
use crate::listing::{Line, statements};
use crate::marks::is_marked;
use crate::reach::leading;
use crate::rows::{faults, flows, given, writes};
use crate::summary::{Summary, known_at};
use crate::uses::{Use, callees, uses_of};
use eager_rules::{Instance, Program};
use krn_base::{NoMemory, Seq};
use std::alloc::{AllocError, Global};

/// The parameters that lead to one of these names, as marks. There is a row for each parameter.
fn leading_params(
    alloc: Global,
    rows: &[Seq<u32>],
    ends: &[u32],
    params: u32,
) -> Result<Seq<bool>, NoMemory>
    requires { params ≤ length rows.now }
    ensures { IfOk result (λ marks. IsLeading rows.now ends.now params marks) }
{
    let mut marks = leading(alloc, rows, ends)?;
    marks.truncate(params as usize);
    Ok(Seq::from_vec(marks))
}

fn add_number(marks: &[bool], number: u32, numbers: &mut Seq<u32>) -> Result<(), NoMemory>
    ensures { OnOk result (numbers.new ≡ numbers.old ++ number_when marks.now number) }
{
    if is_marked(marks, number as usize) {
        numbers.push(number)?;
    }
    Ok(())
}

/// The marked numbers below a count.
#[tactic(auto, using(crate::proofs::Lists::indexed_more))]
fn numbers(alloc: Global, marks: &[bool], count: u32) -> Result<Seq<u32>, NoMemory>
    ensures { IfOk result (λ numbers. numbers ≡ flat_map (number_when marks.now) (range_with_len 0 count)) }
{
    let mut numbers = Seq::new(alloc);
    for number in 0..count {
        add_number(marks, number, &mut numbers)?;
    }
    Ok(numbers)
}

/// The parameters from which one of these names comes.
fn sources(
    alloc: Global,
    rows: &[Seq<u32>],
    names: &[u32],
    params: u32,
) -> Result<Seq<u32>, NoMemory>
    requires { params ≤ length rows.now }
    ensures { IfOk result (AreSources rows.now names.now params) }
{
    let marks = leading_params(alloc, rows, names, params)?;
    let found = numbers(alloc, marks.as_slice(), params)?;
    Ok(found)
}

/// For each value the parameters from which it comes.
fn all_sources(
    alloc: Global,
    rows: &[Seq<u32>],
    values: &[Seq<u32>],
    params: u32,
) -> Result<Seq<Seq<u32>>, NoMemory>
    requires { params ≤ length rows.now }
    ensures count { IfOk result (λ sources. length sources ≡ length values.now) }
    ensures each { IfOk result (λ sources. (k : ℕ) → k < length values.now →
        AreSources rows.now (row values.now k) params (row sources k)) }
{
    let mut all = Seq::new(alloc);
    for names in values {
        let found = sources(alloc, rows, names.as_slice(), params)?;
        all.push(found)?;
    }
    Ok(all)
}

/// What is known of an instance by what its statements do.
fn summary_of(alloc: Global, uses: &[Use], params: u32) -> Result<Summary, NoMemory>
    ensures { IfOk result (Summarizes uses.now params) }
{
    let rows = flows(alloc, uses, params as usize)?;
    let names = writes(alloc, uses)?;
    let values = given(alloc, uses)?;
    let flowing = rows.as_slice();
    let ends = names.as_slice();
    let returned = values.as_slice();
    let marks = leading_params(alloc, flowing, ends, params)?;
    let sources = all_sources(alloc, flowing, returned, params)?;
    let test = faults(uses);
    Ok(Summary {
        writes: marks,
        gives: sources,
        faults: test,
    })
}

/// Whether the instance with this number is known.
fn is_known(known: &[Option<Summary>], number: u32) -> bool
    ensures { result ≡ is_known known.now number }
{
    known_at(known, number).is_some()
}

/// Learns an instance, where the instances that it calls are known.
fn learn(
    alloc: Global,
    f: &Instance,
    lines: &[Line<'_>],
    number: u32,
    known: &mut Vec<Option<Summary>>,
) -> Result<(), NoMemory>
    ensures { OnOk result ((instances : List AnyInstance) → slice_get instances number ≡ Some f.now →
        listed lines.now ≡ statements_of f.now.body → IsKnowledge instances known.old.items →
        AreThere instances (flat_map callee_of (listed lines.now)) known.old.items →
        Learns instances number known.old.items known.new.items) }
{
    let count = f.params.len();
    if count > u32::MAX as usize {
        return Err(NoMemory);
    }
    let names = f.names.as_slice();
    let so_far = known.as_slice();
    let uses = uses_of(alloc, lines, names, so_far)?;
    let found = uses.as_slice();
    let summary = summary_of(alloc, found, count as u32)?;
    put(known, number, summary);
    Ok(())
}

/// What is known of the instance with this number is this from now on.
fn put(known: &mut Vec<Option<Summary>>, number: u32, summary: Summary)
    ensures { known.new.items ≡ slice_set known.old.items number (Some summary) }
{
    if (number as usize) < known.len() {
        known[number as usize] = Some(summary);
    }
}

/// Learns an instance and those that it calls, where they aren't known; chains of calls may be this long.
#[cycle(visit)]
#[tactic(auto, using(crate::proofs::Learned::learns_known, crate::proofs::Learned::learns_none))]
fn visit(
    alloc: Global,
    depth: usize,
    instances: &[Instance],
    number: u32,
    known: &mut Vec<Option<Summary>>,
) -> Result<(), NoMemory>
    requires { IsKnowledge instances.now known.old.items }
    ensures { OnOk result (Learns instances.now number known.old.items known.new.items) }
{
    if depth == 0 {
        return Err(NoMemory);
    }
    let so_far = known.as_slice();
    if is_known(so_far, number) {
        return Ok(());
    }
    match instances.get(number as usize) {
        Some(f) => {
            visit_new(alloc, depth - 1, instances, f, number, known)?;
            Ok(())
        }
        None => Ok(()),
    }
}

/// Learns an instance that isn't known.
#[cycle(visit)]
fn visit_new(
    alloc: Global,
    depth: usize,
    instances: &[Instance],
    f: &Instance,
    number: u32,
    known: &mut Vec<Option<Summary>>,
) -> Result<(), NoMemory>
    requires { IsKnowledge instances.now known.old.items }
    ensures { OnOk result (slice_get instances.now number ≡ Some f.now →
        Learns instances.now number known.old.items known.new.items) }
{
    let body = f.body.as_slice();
    let lines = statements(alloc, body)?;
    let all_lines = lines.as_slice();
    let numbers = callees(alloc, all_lines)?;
    let found = numbers.as_slice();
    visit_all(alloc, depth, instances, found, known)?;
    learn(alloc, f, all_lines, number, known)?;
    Ok(())
}

/// Learns instances.
#[cycle(visit)]
fn visit_all(
    alloc: Global,
    depth: usize,
    instances: &[Instance],
    numbers: &[u32],
    known: &mut Vec<Option<Summary>>,
) -> Result<(), NoMemory>
    requires { IsKnowledge instances.now known.old.items }
    ensures { OnOk result (LearnsAll instances.now numbers.now known.old.items known.new.items) }
{
    for number in numbers {
        visit(alloc, depth, instances, *number, known)?;
    }
    Ok(())
}

/// Nothing known of so many instances.
fn nothing(alloc: Global, count: usize) -> Result<Vec<Option<Summary>>, AllocError>
    ensures { IfOk result (λ known. known.items ≡ replicate count None) }
{
    let mut known = Vec::new(alloc);
    for _number in 0..count {
        known.push(None)?;
    }
    Ok(known)
}

/// All instances.
fn learn_all(alloc: Global, instances: &[Instance]) -> Result<Vec<Option<Summary>>, NoMemory>
    ensures { IfOk result (λ known. KnowsAll instances.now known.items) }
{
    let count = instances.len();
    if count > u32::MAX as usize {
        return Err(NoMemory);
    }
    let mut known = nothing(alloc, count)?;
    for number in 0..count as u32 {
        visit(alloc, count, instances, number, &mut known)?;
    }
    Ok(known)
}

/// Which parameters each instance of a program may write, and whether it may fault. Answers in a program without a
/// cycle of calls; goes as deep as the longest chain of calls.
///
/// Each instance is looked at once, after those that it calls. Takes time linear in its statements and in the names
/// that calls pass, once for all writes and once for each value that it returns.
pub fn effects(alloc: Global, program: &Program) -> Result<Effects, NoMemory>
    ensures exact { IfOk result (AreEffects program.now) }

    // Of a sound program, over eager evaluation to any depth of calls: a call changes no other buffer that stood
    // before it, and where the answer is that it can't fault it doesn't.
    ensures writes { IfOk result (λ effects. IsSound program.now → WritesNoOthers program.now effects) }
    ensures faults { IfOk result (λ effects. IsSound program.now → FaultsNever program.now effects) }
{
    let known = learn_all(alloc, program.instances.as_slice())?;
    Ok(Effects {
        known: Seq::from_vec(known),
    })
}
