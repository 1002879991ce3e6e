//! The functions to which chains of a certain number of calls lead.

ghost use Rattle.std.specs.Prelude.{◌≡◌, ◌<◌, ◌+◌, ◌||◌, IfOk, ℕ, length, true};
ghost use Rattle.call_chains.specs.Chains as spec;
ghost use Rattle.call_chains.specs.Sets.{marked, IsLayer, AreCalled};

use crate::graph::OwnCall;
use crate::marks::{is_marked, mark, no_marks, row};
use krn_base::Seq;
use std::alloc::{AllocError, Global};

/// How many calls of a chain are accepted.
const MOST_CALLS: usize = 32;

/// Marks the functions that these calls name.
fn mark_callees(calls: &[OwnCall], marks: &mut [bool])
    ensures count { length marks.new ≡ length marks.old }
    ensures marks { (g : ℕ) → g < length marks.old → marked marks.new g
        ≡ (marked marks.old g || spec.has_callee g calls.now) }
{
    for call in calls {
        mark(marks, call.callee);
    }
}

/// Marks what a function calls, where it is marked itself.
fn mark_next(rows: &[Seq<OwnCall>], marks: &[bool], f: usize, out: &mut [bool])
    requires { AreCalled rows.now marks.now f out.old }
    ensures { AreCalled rows.now marks.now (f + 1) out.new }
{
    if is_marked(marks, f) {
        mark_callees(row(rows, f), out);
    }
}

/// The functions that the marked ones call.
fn next_layer(alloc: Global, rows: &[Seq<OwnCall>], marks: &[bool]) -> Result<Vec<bool>, AllocError>
    ensures { IfOk result (λ out. AreCalled rows.now marks.now (length rows.now) out.items) }
{
    let mut out = no_marks(alloc, rows.len())?;
    for f in 0..rows.len() {
        mark_next(rows, marks, f, out.as_mut_slice());
    }
    Ok(out)
}

/// The exported functions.
fn first_layer(
    alloc: Global,
    rows: &[Seq<OwnCall>],
    exported: &[usize],
) -> Result<Vec<bool>, AllocError>
    ensures { IfOk result (λ marks. IsLayer rows.now exported.now 0 marks.items) }
{
    let mut marks = no_marks(alloc, rows.len())?;
    for f in exported {
        mark(marks.as_mut_slice(), *f);
    }
    Ok(marks)
}

/// The functions to which a chain of as many calls leads as are accepted. Takes time linear in the functions and calls.
pub fn last_layer(
    alloc: Global,
    rows: &[Seq<OwnCall>],
    exported: &[usize],
) -> Result<Vec<bool>, AllocError>
    ensures { IfOk result (λ marks. IsLayer rows.now exported.now spec.most_calls marks.items) }
{
    let mut marks = first_layer(alloc, rows, exported)?;
    for _done in 0..MOST_CALLS {
        marks = next_layer(alloc, rows, marks.as_slice())?;
    }
    Ok(marks)
}
