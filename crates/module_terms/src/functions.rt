//! The terms of a module.

ghost use Rattle.std.specs.Prelude.{◌≡◌, IfOk, map};
ghost use Rattle.module_terms.specs.Lines as spec;

use crate::block::block;
use crate::build::{copy_name, copy_names};
use crate::numpy::{Numpy, numpy_of};
use crate::targets::{Targets, targets_of};
use crate::term::Routine;
use export_sig::Directive;
use krn_base::{NoMemory, Seq};
use py_parse::{Function, Module};
use std::alloc::{AllocError, Global};

fn routine(
    function: &Function,
    numpy: &Numpy<'_>,
    targets: &Targets<'_>,
) -> Result<Routine, AllocError>
    ensures { IfOk result (λ r. r ≡ spec.routine numpy.now.imports.now targets.now.directives.now function.now) }
{
    Ok(Routine {
        name: copy_name(&function.name)?,
        params: copy_names(numpy.alloc, function.params.as_slice())?,
        weight: function.weight,
        body: block(function.body.as_slice(), numpy, targets)?,
    })
}

fn routines(
    alloc: Global,
    module: &Module,
    directives: &[Directive],
) -> Result<Seq<Routine>, AllocError>
    ensures { IfOk result (λ list. list ≡ spec.routines «module».now directives.now) }
{
    let numpy = numpy_of(alloc, module.imports.as_slice())?;
    let targets = targets_of(alloc, directives)?;
    let mut list = Seq::new(alloc);
    for function in module.functions.as_slice() {
        list.push(routine(function, &numpy, &targets)?)?;
    }
    Ok(list)
}

/// The functions of a module, in its order, with their operations resolved. A directive belongs to the loop whose
/// `for` stands at its target.
///
/// The rules Profile and Name have accepted the module. In another one an expression that they refuse is an operation
/// without a row at its place, or the operation that its spelling has elsewhere. A statement alone that is no call of
/// an own function and an assignment to something else than a name or subscripts leave no line. A loop through
/// something else than a call has no arguments, and an argument with a key is left out, but for the kind of a new
/// array.
///
/// The only error is want of memory.
pub fn resolve(
    alloc: Global,
    module: &Module,
    directives: &[Directive],
) -> Result<Seq<Routine>, NoMemory>
    ensures terms { IfOk result (λ list. list ≡ spec.routines «module».now directives.now) }
{
    Ok(routines(alloc, module, directives)?)
}
