ghost use Rattle.std.specs.Prelude.{◌≤◌, ◌^◌, length, IfOk};
ghost use Rattle.pythran_main.specs.Compile.{IsCompiled, IsForm};
ghost use Rattle.pythran_main.specs.Flattening.{IsKept};

use crate::flattening::Flattened;
use crate::program::loops_of;
use crate::reading::read_module;
use krn_base::{NoMemory, Stop};
use omp_loops::ValidProgram;
use std::alloc::Global;

/// The loop program of a program.
fn compile_program(alloc: Global, found: &Flattened) -> Result<ValidProgram, NoMemory>
    requires kept { IsKept found.now }
    ensures { IfOk result (λ loops. IsForm found.now loops) }
{
    loops_of(alloc, found)
}

/// The loop program of the module that the text is, one kernel for each export note in order: valid, and for each call
/// that fits a kernel it has the outcome of eager evaluation. Refused by the first rule that refuses the text, as under
/// `run` and `eager`; want of memory is the one other answer.
pub fn compile_text(alloc: Global, source: &[u8]) -> Result<ValidProgram, Stop>
    requires { length source.now ≤ 2 ^ 31 }
    ensures { IsCompiled source.now result }
{
    match read_module(alloc, source) {
        Ok(Ok(found)) => match compile_program(alloc, &found) {
            Ok(loops) => Ok(loops),
            Err(NoMemory) => Err(Stop::Memory),
        },
        Ok(Err(refusal)) => Err(Stop::Refused(refusal)),
        Err(NoMemory) => Err(Stop::Memory),
    }
}
