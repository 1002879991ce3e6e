//! What folding keeps.
ghost use Rattle.eager_rules.specs.Sound.{IsSound};
ghost use Rattle.eager_rules.specs.declared.program.Program.{Program as AnyProgram};
ghost use Rattle.const_fold.specs.Folded.{folded_program};
ghost use Rattle.const_fold.specs.Promise.{IsSettled, KeepsKernels};
ghost use Rattle.inline.specs.Flattened.{HasNoCalls};
ghost use Rattle.inline.specs.Kept.{HasOutcomes};

use eager_rules::laws_of_all_programs;

/// The folded form of a sound program is sound.
pub fn folded_is_sound()
    ensures { (program : AnyProgram) → IsSound program → IsSound (folded_program program) }
{}

/// A folded program has the program's kernels.
pub fn folded_keeps_kernels()
    ensures { (program : AnyProgram) → KeepsKernels program (folded_program program) }
{}

/// A program without own calls has none when it is folded.
pub fn folded_calls_nothing()
    ensures { (program : AnyProgram) → HasNoCalls program → HasNoCalls (folded_program program) }
{}

/// No further round changes a folded program.
pub fn folded_is_settled()
    ensures { (program : AnyProgram) → IsSettled (folded_program program) }
{}

/// Folding keeps the outcomes of a sound program without own calls.
pub fn folding_keeps_outcomes()
    ensures { (program : AnyProgram) → IsSound program → HasNoCalls program →
        HasOutcomes program (folded_program program) }
{
    laws_of_all_programs();
}
