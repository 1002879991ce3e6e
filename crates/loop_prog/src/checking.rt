// When a loop program is taken.
ghost use Rattle.std.specs.Prelude.{◌≡◌, List};
ghost use Rattle.std.specs.List.{list_any};
ghost use Rattle.loop_prog.specs.Check.{flaw_of, kernel_findings, same_head};
ghost use Rattle.loop_prog.specs.Judging.{IsFlaw, Judged};
ghost use Rattle.loop_prog.specs.declared.program.Kernel as declared;

use crate::heads::{at_start, kernel_keeps};
use crate::inspect::{inspect_block, judge, kept_at, placed};
use crate::invalid::CheckStop;
use crate::kept::{Site, both_keep, first_broken};
use crate::known::Heads;
use crate::program::{Kernel, LoopProgram};
use krn_base::Seq;
use std::alloc::Global;

/// A kernel, whose head is that of an earlier one or isn't. Its own rules are tested with those of its first statement.
fn check_kernel(
    kernel: &Kernel,
    repeated: bool,
    alloc: Global,
    number: &mut u32,
) -> Result<(), CheckStop>
    ensures { (earlier : List declared.Kernel) → repeated ≡ list_any (same_head kernel.now) earlier →
        Judged result number.old number.new (kernel_findings earlier kernel.now) }
{
    let own = kernel_keeps(alloc, kernel, repeated)?;
    let mut start = at_start(alloc, kernel)?;
    let body = kernel.body.as_slice();
    let whole = Site {
        depth: 0,
        ends: true,
    };
    let Some(first) = body.first() else {
        return judge(own, number);
    };
    let kept = kept_at(first, kernel, placed(whole, 1 == body.len()), alloc, &start)?;
    if let Some(rule) = first_broken(both_keep(own, kept)) {
        return Err(CheckStop::Invalid { at: *number, rule });
    }
    inspect_block(
        body,
        kernel,
        whole,
        alloc,
        &mut start,
        &mut Seq::new(alloc),
        number,
    )
}

/// Whether a loop program is taken: each statement keeps each rule. Else the first statement that doesn't, numbered
/// from 0 over the whole program in the order of its lines, with the first rule that it breaks in the order of
/// `InvalidRule`; or want of memory, also where there are 2^32 statements or parameters.
///
/// The rules from `Loop` on, which are those of parallel loops, aren't tested here.
///
/// Registers and what is assigned are looked up in tables. Behind a block what it changed is undone, so that the time
/// is that of the statements, each once for each block around it, of which there are at most 128; a loop's body is gone
/// through once more for each loop around it, for what stays assigned at the loop's head. Beside that it is the time of
/// each kernel's registers once, and of its head, which is looked up in a table.
pub fn check(program: &LoopProgram, alloc: Global) -> Result<(), CheckStop>
    ensures { IsFlaw result (flaw_of program.now) }
{
    let kernels = program.kernels.as_slice();
    let mut number: u32 = 0;
    let mut heads = Heads::new(alloc);
    for k in 0..kernels.len() {
        let kernel = &kernels[k];
        let Ok(repeated) = heads.note(alloc, kernel) else {
            return Err(CheckStop::Memory);
        };
        if let Err(stop) = check_kernel(kernel, repeated, alloc, &mut number) {
            return Err(stop);
        }
    }
    Ok(())
}
