//! Marks by numbers.
ghost use Rattle.std.specs.Prelude.{◌≡◌, IfOk, slice_set, false, true, replicate};
ghost use Rattle.purity.specs.Marks.{marked};

use std::alloc::{AllocError, Global};

/// Whether a number is marked; one that has no mark isn't.
pub fn is_marked(marks: &[bool], number: usize) -> bool
    ensures { result ≡ marked marks.now number }
{
    number < marks.len() && marks[number]
}

/// No marks.
pub fn no_marks(alloc: Global, count: usize) -> Result<Vec<bool>, AllocError>
    ensures { IfOk result (λ marks. marks.items ≡ replicate count false) }
{
    Ok(vec![in alloc; false; count]?)
}
