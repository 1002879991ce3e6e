//! What the flat form keeps.
ghost use Rattle.eager_rules.specs.Sound.{IsSound};
ghost use Rattle.eager_rules.specs.declared.program.Program.{Program as AnyProgram};
ghost use Rattle.inline.specs.Flat.{flat_program};
ghost use Rattle.inline.specs.Idle.{calm_in, none_calm};
ghost use Rattle.inline.specs.Kept.{HasOutcomes, RankedOutcomes};
ghost use Rattle.purity.specs.Soundness.{FaultsNever, WritesNoOthers};
ghost use Rattle.purity.specs.declared.answers.Effects.{Effects as AnyEffects};

use crate::dropping::{dropped_form_law, dropped_outcome_law, dropped_sound_law};
use eager_rules::laws_of_all_programs;

/// The flat form of a sound program, with none of its calls left out, has the program's outcomes.
fn flat_keeps_outcomes()
    ensures { (program : AnyProgram) → IsSound program → HasOutcomes program (flat_program program none_calm) }
{
    laws_of_all_programs();
}

/// The flat form of a sound program has its outcomes, where the effects hold of evaluation.
pub fn flat_form_keeps_outcomes()
    ensures { (program : AnyProgram) (effects : AnyEffects) → IsSound program → WritesNoOthers program effects →
        FaultsNever program effects → RankedOutcomes program (flat_program program (calm_in program effects)) }
{
    dropped_form_law();
    dropped_sound_law();
    dropped_outcome_law();
    flat_keeps_outcomes();
}
