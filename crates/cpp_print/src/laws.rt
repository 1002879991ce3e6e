//! What a checked program is to its text.
ghost use Rattle.std.specs.Prelude.{◌≡◌, None, true};
ghost use Rattle.std.specs.List.{list_all};
ghost use Rattle.loop_prog.specs.Check.{flaw_of};
ghost use Rattle.cpp_print.specs.Printable.{is_printable, names_fit};

use loop_prog::LoopProgram;

/// A program that `loop_prog::check` takes is printable where its kernels and their parameters have names.
pub fn checked_is_printable(program: &LoopProgram)
    requires checked { flaw_of program.now ≡ None }
    requires names { list_all names_fit program.now.kernels ≡ true }
    ensures { is_printable program.now ≡ true }
{
    let _kernels = program.kernels.len();
}
