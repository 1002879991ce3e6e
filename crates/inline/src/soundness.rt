//! The flat form of a sound program is sound.
ghost use Rattle.std.specs.Prelude.{Bool, ℕ};
ghost use Rattle.eager_rules.specs.Sound.{IsSound};
ghost use Rattle.eager_rules.specs.declared.program.Program.{Program as AnyProgram};
ghost use Rattle.inline.specs.Flat.{flat_program};
ghost use Rattle.inline.specs.Idle.{none_calm};

use crate::dropping::{dropped_form_law, dropped_sound_law};

/// The flat form of a sound program, with none of its calls left out, is sound.
fn flat_is_sound()
    ensures { (program : AnyProgram) → IsSound program → IsSound (flat_program program none_calm) }
{}

/// The flat form of a sound program is sound, whichever calls are left out.
pub fn flat_form_is_sound()
    ensures { (program : AnyProgram) (calm : ℕ → Bool) → IsSound program → IsSound (flat_program program calm) }
{
    dropped_form_law();
    dropped_sound_law();
    flat_is_sound();
}
