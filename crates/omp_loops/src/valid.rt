ghost use Rattle.std.specs.Prelude.{◌≡◌, None, true};
ghost use Rattle.loop_prog.specs.Check.{flaw_of};
ghost use Rattle.omp_loops.specs.Serial.{kernels_serial};
ghost use Rattle.omp_loops.specs.Valid.{IsValid};

use loop_prog::LoopProgram;
use std::marker::Model;

/// A loop program that meets every condition: the check takes it, and it has no parallel loop. Contracts see it as
/// the program.
#[derive(Debug, Drop)]
pub struct ValidProgram {
    program: LoopProgram,
}

impl Model for ValidProgram {
    ghost use Rattle.loop_prog.specs.contracts.program.Statement as statement;
    ghost use Rattle.loop_prog.specs.declared.program.LoopProgram.{LoopProgram as AnyProgram};
    ghost use Rattle.std.specs.Coded.{codes};

    ghost Value = { AnyProgram };

    ghost coded = { Prim.hlevel (codes, statement.the_row.coded) };

    ghost use Rattle.omp_loops.specs.Valid.{IsValid};

    ghost view = { λ v. v.program };

    ghost invariant = { λ v. IsValid v.program };
}

impl ValidProgram {
    /// A program that meets every condition.
    pub(crate) fn new(program: LoopProgram) -> ValidProgram
        requires { IsValid program }
        ensures { result ≡ program }
    {
        ValidProgram { program }
    }

    /// The program. Takes no memory.
    pub fn program(&self) -> &LoopProgram
        ensures same { result.now ≡ self.now }
        ensures checked { flaw_of result.now ≡ None }
        ensures serial { kernels_serial result.now.kernels ≡ true }
    {
        &self.program
    }
}
