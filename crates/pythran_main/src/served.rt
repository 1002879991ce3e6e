ghost use Rattle.std.specs.Prelude.{◌≡◌, map};
ghost use Rattle.module_names.specs.Places.{soonest};
ghost use Rattle.pythran_main.specs.Kernel as spec;

use export_sig::Directive;
use krn_base::Loc;
use module_names::sooner;

/// The first place in the text of what isn't served: a directive.
pub fn first_unserved(directives: &[Directive]) -> Option<Loc>
    ensures { result ≡ soonest None (spec.unserved directives.now) }
{
    let mut first = None;
    for directive in directives {
        first = sooner(first, Some(directive.loc));
    }
    first
}
