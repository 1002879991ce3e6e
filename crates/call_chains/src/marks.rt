//! Sets of functions, as marks by their numbers.

ghost use Rattle.std.specs.Prelude.{◌≡◌, IfOk, slice_set, false, true, replicate};
ghost use Rattle.call_chains.specs.Chains as spec;
ghost use Rattle.call_chains.specs.Sets.{marked};

use crate::graph::OwnCall;
use krn_base::Seq;
use std::alloc::{AllocError, Global};

/// The own calls of a function; of one that isn't there, none.
pub fn row(rows: &[Seq<OwnCall>], f: usize) -> &[OwnCall]
    ensures { result.now ≡ spec.row rows.now f }
{
    if f < rows.len() {
        rows[f].as_slice()
    } else {
        &[]
    }
}

/// Whether a function is marked; one that isn't there isn't.
pub fn is_marked(marks: &[bool], f: usize) -> bool
    ensures { result ≡ marked marks.now f }
{
    f < marks.len() && marks[f]
}

/// Marks a function, where it is there.
pub fn mark(marks: &mut [bool], f: usize)
    ensures { marks.new ≡ slice_set marks.old f true }
{
    if f < marks.len() {
        marks[f] = true;
    }
}

/// No marks.
pub fn no_marks(alloc: Global, count: usize) -> Result<Vec<bool>, AllocError>
    ensures { IfOk result (λ marks. marks.items ≡ replicate count false) }
{
    Ok(vec![in alloc; false; count]?)
}
