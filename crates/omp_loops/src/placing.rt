//! Which loop programs may run.
ghost use Rattle.std.specs.Prelude.{◌≡◌, None};
ghost use Rattle.loop_prog.specs.Check.{flaw_of};
ghost use Rattle.omp_loops.specs.Valid.{IsPlaced, IsValidated};

use crate::seek::seek;
use crate::valid::ValidProgram;
use krn_base::{Refusal, Rule, Stop};
use loop_prog::{CheckStop, InvalidRule, LoopProgram, check};
use std::alloc::Global;

/// A program that `loop_prog::check` takes as one that may run. No parallel loop is served yet: the first one, in the
/// order of lines, is refused by the rule LoopForm at its place. Wants memory only where a parallel loop stands behind
/// 2^32 statements, or there are as many without one.
///
/// Takes time linear in the statements.
pub fn place_loops(program: LoopProgram) -> Result<ValidProgram, Stop>
    requires { flaw_of program ≡ None }
    ensures { IsPlaced program result }
{
    let mut number: u32 = 0;
    match seek(program.kernels.as_slice(), &mut number)? {
        Some(loc) => Err(Stop::Refused(Refusal {
            rule: Rule::LoopForm,
            loc,
        })),
        None => Ok(ValidProgram::new(program)),
    }
}

/// Any program as one that may run. It is refused as `loop_prog::check` refuses it; where the check takes it, the
/// first parallel loop is refused by the rule Loop at its number, since none is served yet.
///
/// Takes the time of the check.
pub fn validate(alloc: Global, program: LoopProgram) -> Result<ValidProgram, CheckStop>
    ensures { IsValidated program result }
{
    if let Err(stop) = check(&program, alloc) {
        return Err(stop);
    }
    let mut number: u32 = 0;
    match seek(program.kernels.as_slice(), &mut number)? {
        Some(_place) => Err(CheckStop::Invalid {
            at: number,
            rule: InvalidRule::Loop,
        }),
        None => Ok(ValidProgram::new(program)),
    }
}
