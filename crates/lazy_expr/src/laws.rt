// What the plain form keeps, of every instance at once.
ghost use Rattle.std.specs.Prelude.{◌≡◌, true};
ghost use Rattle.eager_rules.specs.Sound.{IsSound};
ghost use Rattle.eager_rules.specs.declared.program.Instance.{Instance as AnyInstance};
ghost use Rattle.eager_rules.specs.declared.program.Program.{Program as AnyProgram};
ghost use Rattle.lazy_expr.specs.Plain.{plain_kernel};
ghost use Rattle.lazy_expr.specs.Promise.{KeepsOutcomes, has_flat_kernels, is_flat, plain_program};
ghost use Rattle.lazy_expr.specs.Valid.{KeepsConditions, ProgramKeepsConditions};

use eager_rules::laws_of_all_programs;
use overlap::walk_law;
use view_places::broadcast_law;

/// The plain form of an instance without own calls has the outcome of eager evaluation, for each call that fits.
pub fn plain_law()
    ensures { (f : AnyInstance) → is_flat f ≡ true → KeepsOutcomes f (plain_kernel f) }
{
    laws_of_all_programs();
    walk_law();
    broadcast_law();
}

/// The plain form meets the conditions of loop programs: of an instance without own calls, and of a sound program whose
/// kernels call no own function.
pub fn condition_law()
    ensures kernel { (f : AnyInstance) → is_flat f ≡ true → KeepsConditions f (plain_kernel f) }
    ensures whole { (program : AnyProgram) → IsSound program → has_flat_kernels program ≡ true →
        ProgramKeepsConditions program (plain_program program) }
{}
