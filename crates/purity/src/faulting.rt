//! Which statements may fault by themselves.
ghost use Rattle.std.specs.Prelude.{◌≡◌};
ghost use Rattle.std.specs.List.{count_by, list_any};
ghost use Rattle.eager_rules.specs.declared.program.Core.{out-Core};
ghost use Rattle.purity.specs.Faulting as spec;

use array_ops::RedOp;
use eager_rules::{Core, CoreSub, Oper, WordOp};
use krn_base::{BinOp, Kind};

/// Whether an operand is a literal other than 0.
fn is_divisor(x: &Oper) -> bool
    ensures { result ≡ spec.is_divisor x.now }
{
    match x {
        Oper::Int(z) => *z != 0,
        Oper::Truth(b) => *b,
        Oper::Name(_) => false,
    }
}

/// Whether an operand is a literal from 0.
fn is_shift_count(x: &Oper) -> bool
    ensures { result ≡ spec.is_shift_count x.now }
{
    match x {
        Oper::Int(z) => *z >= 0,
        Oper::Truth(_) => true,
        Oper::Name(_) => false,
    }
}

/// Whether a scalar operation may fault by its second operand.
fn bin_may_fault(op: BinOp, x: &Oper) -> bool
    ensures { result ≡ spec.bin_may_fault op x.now }
{
    match op {
        BinOp::FloorDiv => !is_divisor(x),
        BinOp::Mod => !is_divisor(x),
        BinOp::Shl => !is_shift_count(x),
        BinOp::Shr => !is_shift_count(x),
        _ => false,
    }
}

fn word_may_fault(op: WordOp, args: &[Oper]) -> bool
    ensures { result ≡ spec.word_may_fault op args.now }
{
    match (op, args) {
        (WordOp::Bin(op), [_, right, ..]) => bin_may_fault(op, right),
        _ => false,
    }
}

/// Whether an operand is an array.
fn is_array(x: &Oper, names: &[(Kind, u8)]) -> bool
    ensures { result ≡ spec.is_array_operand names.now x.now }
{
    match x {
        Oper::Name(name) => match names.get(*name as usize) {
            Some(ty) => ty.1 != 0,
            None => false,
        },
        Oper::Int(_) => false,
        Oper::Truth(_) => false,
    }
}

/// How many operands are arrays.
fn arrays(args: &[Oper], names: &[(Kind, u8)]) -> usize
    ensures { result ≡ count_by (spec.is_array_operand names.now) args.now }
{
    args.iter().filter(|x| is_array(*x, names)).count()
}

fn step_may_fault(step: &Option<Oper>) -> bool
    ensures { result ≡ spec.step_may_fault step.now }
{
    match step {
        Some(x) => !is_divisor(x),
        None => false,
    }
}

fn sub_may_fault(sub: &CoreSub) -> bool
    ensures { result ≡ spec.sub_may_fault sub.now }
{
    match sub {
        CoreSub::At(_) => true,
        CoreSub::Cut(_, _, step) => step_may_fault(step),
    }
}

fn subs_may_fault(subs: &[CoreSub]) -> bool
    ensures { result ≡ list_any spec.sub_may_fault subs.now }
{
    subs.iter().any(|sub| sub_may_fault(sub))
}

fn reduce_may_fault(op: RedOp) -> bool
    ensures { result ≡ spec.reduce_may_fault op }
{
    match op {
        RedOp::Min | RedOp::Max => true,
        _ => false,
    }
}

/// Whether a statement may fault, what stands in its blocks and in the instance that it calls apart. `names` are the
/// types of its instance's names.
pub fn may_fault_here(core: &Core, names: &[(Kind, u8)]) -> bool
    ensures { result ≡ spec.may_fault_here names.now (out-Core core.now) }
{
    match core {
        Core::Word { op, args, .. } => word_may_fault(*op, args.as_slice()),
        Core::Get { .. } => true,
        Core::Put { .. } => true,
        Core::Pick { subs, .. } => subs_may_fault(subs.as_slice()),
        Core::Fresh { .. } => true,
        Core::Map { args, .. } => arrays(args.as_slice(), names) > 1,
        Core::Reduce { op, .. } => reduce_may_fault(*op),
        Core::Store { value, .. } => is_array(value, names),
        Core::For { step, .. } => !is_divisor(step),
        Core::Extent { .. } => false,
        Core::Flip { .. } => false,
        Core::Alias { .. } => false,
        Core::Call { .. } => false,
        Core::If { .. } => false,
        Core::Return { .. } => false,
    }
}
