//! What a checked program is to the executor.
ghost use Rattle.std.specs.Prelude.{◌≡◌, None, true};
ghost use Rattle.loop_exec.specs.Starts.{kernels_runnable};
ghost use Rattle.loop_prog.specs.Check.{flaw_of};
ghost use Rattle.omp_loops.specs.Serial.{kernels_serial};

use loop_prog::LoopProgram;

/// A program that `loop_prog::check` takes and that has no parallel loop is one that the executor
/// runs.
pub fn checked_is_runnable(program: &LoopProgram)
    requires checked { flaw_of program.now ≡ None }
    requires serial { kernels_serial program.now.kernels ≡ true }
    ensures { kernels_runnable program.now.kernels ≡ true }
{
    let _kernels = program.kernels.len();
}
