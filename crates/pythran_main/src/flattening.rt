ghost use Rattle.std.specs.Prelude.{◌≡◌, IfOk};
ghost use Rattle.eager_rules.specs.Sound.{IsTyped};
ghost use Rattle.pythran_main.specs.Flattening.{Flattens, IsKept};
ghost use Rattle.pythran_main.specs.Layers.{IsOne};
ghost use Rattle.pythran_main.specs.Reading.{Answered};

use const_fold::fold;
use eager_rules::Program;
use export_sig::Signature;
use inline::flatten;
use krn_base::Stop;
use purity::effects;
use std::alloc::Global;

/// A typed program, and its flat form with constants folded, which has the same kernels and no own calls.
#[derive(Debug, PartialEq, Eq, Drop)]
pub struct Flattened {
    pub program: Program,
    pub flat: Program,
}

/// A program with its flat form. Refused where its kernels are too heavy or too deep, before any copy is made.
pub fn with_flat_form(
    alloc: Global,
    program: Program,
    signatures: &[Signature],
) -> Result<Flattened, Stop>
    requires typed { IsTyped program }
    ensures one { Answered (IsOne (Flattens signatures.now program)) result }
    ensures kept { IfOk result IsKept }
{
    let effects = effects(alloc, &program)?;
    match flatten(alloc, &program, signatures, &effects) {
        Ok(inlined) => {
            let flat = fold(alloc, &inlined)?;
            Ok(Flattened { program, flat })
        }
        Err(stop) => Err(stop),
    }
}
