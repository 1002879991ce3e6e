//! Whether what the tests make by hand is what the calls ask for.
ghost use Rattle.std.specs.Prelude.{◌≡◌, ◌∷◌, [], Some, length, map, slice_get, true};
ghost use Rattle.view_places.specs.Arrays.{element_count};
ghost use Rattle.view_places.specs.Shape.{extents};
ghost use Rattle.eager_rules.specs.Fits.{AreTaken, Fits, IsFilled, IsViewIn, Takes};
ghost use Rattle.krn_base.specs.declared.kind.Kind.TheVariants.{Int64};
ghost use Rattle.krn_base.specs.declared.kind.ParamType.TheVariants.{Scalar, Strided};
ghost use Rattle.loop_exec.specs.Banks.{state_of};
ghost use Rattle.loop_exec.specs.Numbered.{IsNestAt, IsReadyNest, leaves_spread};
ghost use Rattle.loop_prog.specs.Conditions.{steps_fit};
ghost use Rattle.loop_prog.specs.Serial.{no_counts, types_of_params};
ghost use Rattle.loop_prog.specs.declared.program.Kernel.{Kernel as AnyKernel};
ghost use Rattle.loop_prog.specs.declared.program.Statement.{out-Statement};

use crate::bank::Bank;
use crate::finding::find_in;
use crate::nest::spread_leaves;
use crate::registers::array;
use eager_rules::{Arg, Call};
use krn_base::{Kind, ParamType, Text};
use loop_prog::{Kernel, Statement, TemplateStep};
use omp_loops::ValidProgram;
use view_places::{Array, Shape, View};

/// Whether a shape has one dimension and so many elements.
fn is_row(shape: Shape, count: usize) -> bool
    ensures { result ≡ true → count ≡ element_count (extents shape) }
{
    if shape.rank != 1 {
        return false;
    }
    if count != shape.extent[0] as usize {
        return false;
    }
    true
}

/// Whether an array is one of int64 words of one dimension, as many as its extent says.
fn is_filled(array: &Array) -> bool
    ensures { result ≡ true → IsFilled array.now × (array.now.kind ≡ Int64) }
{
    match array.kind {
        Kind::Int64 => is_row(array.shape, array.words.len()),
        Kind::Bool => false,
    }
}

/// Whether a view of one dimension is one of the only buffer.
fn is_view_of(buffer: &Array, view: &View) -> bool
    requires { buffer.now.kind ≡ Int64 }
    ensures { result ≡ true → IsViewIn (buffer.now ∷ []) Int64 1 view.now }
{
    view.buffer == 0 && (view.length as usize == buffer.words.len() && view.rank == 1)
}

/// Whether an argument is such a view.
fn is_view(buffer: &Array, arg: &Arg) -> bool
    requires { buffer.now.kind ≡ Int64 }
    ensures { result ≡ true → Takes (buffer.now ∷ []) (Strided Int64 1) arg.now }
{
    match *arg {
        Arg::Array(view) => is_view_of(buffer, &view),
        Arg::Word(_) => false,
    }
}

/// Whether an argument is a number.
fn is_number(buffer: &Array, arg: &Arg) -> bool
    ensures { result ≡ true → Takes (buffer.now ∷ []) (Scalar Int64) arg.now }
{
    match *arg {
        Arg::Array(_) => false,
        Arg::Word(_) => true,
    }
}

/// Whether arguments are two views of the only buffer and a number.
fn are_taken(buffer: &Array, args: &[Arg]) -> bool
    requires { buffer.now.kind ≡ Int64 }
    ensures { result ≡ true →
        AreTaken (buffer.now ∷ []) (Strided Int64 1 ∷ Strided Int64 1 ∷ Scalar Int64 ∷ []) args.now }
{
    match args {
        [a, b, n] => is_view(buffer, a) && (is_view(buffer, b) && is_number(buffer, n)),
        _ => false,
    }
}

/// Whether a parameter is of a type.
fn is_type(found: ParamType, wanted: ParamType) -> bool
    ensures { result ≡ true → found ≡ wanted }
{
    found == wanted
}

/// Whether parameters are two strided arrays of one dimension and a number.
fn are_known(params: &[(Text, ParamType)]) -> bool
    ensures { result ≡ true → map (λ p. p.1) params.now ≡ Strided Int64 1 ∷ Strided Int64 1 ∷ Scalar Int64 ∷ [] }
{
    match params {
        [(_, a), (_, b), (_, n)] => {
            is_type(*a, ParamType::Strided(Kind::Int64, 1))
                && (is_type(*b, ParamType::Strided(Kind::Int64, 1))
                    && is_type(*n, ParamType::Scalar(Kind::Int64)))
        }
        _ => false,
    }
}

/// Whether a call of one buffer fits a kernel of two arrays and a number.
pub fn fits(kernel: &Kernel, call: &Call) -> bool
    ensures { result ≡ true → Fits (types_of_params kernel.now) call.now }
{
    match call.buffers.as_slice() {
        [buffer] => {
            are_known(kernel.params.as_slice())
                && (is_filled(buffer) && are_taken(buffer, call.args.as_slice()))
        }
        _ => false,
    }
}

/// Whether a call of one buffer fits the kernel with this number, of two arrays and a number, or there is none.
pub fn fits_at(program: &ValidProgram, number: u32, call: &Call) -> bool
    ensures { result ≡ true → (k : AnyKernel) → slice_get program.now.kernels number ≡ Some k →
        Fits (types_of_params k) call.now }
{
    match program.program().kernels.as_slice().get(number as usize) {
        Some(kernel) => fits(kernel, call),
        None => true,
    }
}

/// Whether steps are a view's element, a word, and an operation on both.
fn is_pair(steps: &[TemplateStep]) -> bool
    ensures { result ≡ true → steps_fit steps.now ≡ true }
{
    matches!(
        steps,
        [
            TemplateStep::Leaf(_),
            TemplateStep::Word(_),
            TemplateStep::Bin(_)
        ]
    )
}

/// Whether a nest of such steps into a view has a leaf that spreads.
fn is_ready(to: u32, steps: &[TemplateStep], bank: &Bank) -> bool
    ensures { result ≡ true →
        (steps_fit steps.now ≡ true) × (leaves_spread to steps.now (state_of no_counts bank.now) ≡ true) }
{
    if !is_pair(steps) {
        return false;
    }
    let frame = array(bank.views.as_slice(), to);
    let mut leaves = [None; 64];
    spread_leaves(steps, bank.views.as_slice(), &frame, &mut leaves)
}

/// Whether a statement is such a nest.
fn is_nest(statement: &Statement, bank: &Bank) -> bool
    ensures { result ≡ true → IsReadyNest (out-Statement statement.now) (state_of no_counts bank.now) }
{
    match statement {
        Statement::Nest { to, template, .. } => is_ready(*to, template.steps.as_slice(), bank),
        _ => false,
    }
}

/// Whether the statement with a number is one.
pub fn is_nest_at(kernel: &Kernel, at: u32, bank: &Bank) -> bool
    ensures { result ≡ true → IsNestAt kernel.now at (state_of no_counts bank.now) }
{
    let mut number = at;
    match find_in(kernel.body.as_slice(), &mut number) {
        Some(statement) => is_nest(statement, bank),
        None => false,
    }
}
