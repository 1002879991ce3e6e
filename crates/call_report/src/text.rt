ghost use Rattle.std.specs.Prelude.{◌≡◌, IfOk};
ghost use Rattle.call_report.specs.Report.{report_of};

use crate::head::BufferHead;
use crate::lines::{append_buffers, append_counts, append_ending};
use eager_rules::{Counts, Outcome};
use krn_base::NoMemory;
use std::alloc::Global;

/// The report of a finished call, as ASCII lines that each end with a line feed (the names of the buffers as they are):
/// one line for each returned value, `return none` where there is none, or in their place the fault with its place; a
/// line for each buffer in order; a line of counts where they are given. `heads` names the buffers of `outcome` in
/// order. The one error is want of memory.
pub fn report(
    alloc: Global,
    heads: &[BufferHead],
    outcome: &Outcome,
    counts: Option<Counts>,
) -> Result<Vec<u8>, NoMemory>
    ensures { IfOk result (λ text. text.items ≡ report_of heads.now outcome.now counts) }
{
    let mut out = Vec::new(alloc);
    append_ending(alloc, &mut out, outcome)?;
    append_buffers(alloc, &mut out, heads, outcome.buffers.as_slice())?;
    append_counts(alloc, &mut out, &counts)?;
    Ok(out)
}
