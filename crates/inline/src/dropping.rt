//! Laws of a program without its idle calls.
ghost use Rattle.std.specs.Prelude.{Bool, ℕ, ◌≡◌};
ghost use Rattle.eager_rules.specs.Sound.{IsSound};
ghost use Rattle.eager_rules.specs.declared.program.Program.{Program as AnyProgram};
ghost use Rattle.inline.specs.Dropped.{dropped};
ghost use Rattle.inline.specs.Flat.{flat_program};
ghost use Rattle.inline.specs.Idle.{calm_in, none_calm};
ghost use Rattle.inline.specs.Kept.{RankedOutcomes};
ghost use Rattle.purity.specs.Soundness.{FaultsNever, WritesNoOthers};
ghost use Rattle.purity.specs.declared.answers.Effects.{Effects as AnyEffects};

use eager_rules::laws_of_all_programs;

/// The flat form leaves out the idle calls and no others.
pub fn dropped_form_law()
    ensures { (program : AnyProgram) (calm : ℕ → Bool) →
        flat_program (dropped program calm) none_calm ≡ flat_program program calm }
{}

/// A sound program without its idle calls is sound.
pub fn dropped_sound_law()
    ensures { (program : AnyProgram) (calm : ℕ → Bool) → IsSound program → IsSound (dropped program calm) }
{}

/// A sound program without the calls that effects say to be idle has the same outcomes.
pub fn dropped_outcome_law()
    ensures { (program : AnyProgram) (effects : AnyEffects) → IsSound program → WritesNoOthers program effects →
        FaultsNever program effects → RankedOutcomes program (dropped program (calm_in program effects)) }
{
    laws_of_all_programs();
}
