// The test of what `eager` asks of a program.
ghost use Rattle.std.specs.Prelude.{◌≡◌};
ghost use Rattle.eager_rules.specs.Small.{all_small, bodies_small, is_small, is_small_map, is_small_power};
ghost use Rattle.eager_rules.specs.Small.{is_small_word};

use crate::program::{Core, Instance, Program, WordOp};
use array_ops::MapOp;
use krn_base::UnOp;

/// Whether an exponent is at most 62, if there is one.
fn is_small_power(op: UnOp) -> bool
    ensures { result ≡ is_small_power op }
{
    match op {
        UnOp::Pow(k) => k <= 62,
        UnOp::Neg | UnOp::Inv | UnOp::Flip | UnOp::Abs | UnOp::Test | UnOp::Copy => true,
    }
}

fn is_small_word(op: WordOp) -> bool
    ensures { result ≡ is_small_word op }
{
    match op {
        WordOp::Un(op) => is_small_power(op),
        WordOp::Bin(_) | WordOp::Move => true,
    }
}

fn is_small_map(op: MapOp) -> bool
    ensures { result ≡ is_small_map op }
{
    match op {
        MapOp::Un(op) => is_small_power(op),
        MapOp::Bin(_) | MapOp::Select => true,
    }
}

/// Whether the exponents of a statement and of those in its blocks are.
#[cycle(is_small)]
fn is_small(core: &Core) -> bool
    ensures { result ≡ is_small core.now }
{
    match core {
        Core::Word { op, .. } => is_small_word(*op),
        Core::Map { op, .. } => is_small_map(*op),
        Core::If { yes, no, .. } => all_small(yes.as_slice()) && all_small(no.as_slice()),
        Core::For { body, .. } => all_small(body.as_slice()),
        Core::Extent { .. } => true,
        Core::Get { .. } => true,
        Core::Put { .. } => true,
        Core::Pick { .. } => true,
        Core::Flip { .. } => true,
        Core::Alias { .. } => true,
        Core::Fresh { .. } => true,
        Core::Reduce { .. } => true,
        Core::Store { .. } => true,
        Core::Call { .. } => true,
        Core::Return { .. } => true,
    }
}

/// Whether the exponents of all statements of a block are.
#[cycle(is_small)]
fn all_small(body: &[Core]) -> bool
    ensures { result ≡ all_small body.now }
{
    for core in body {
        if !is_small(core) {
            return false;
        }
    }
    true
}

/// Whether the exponents of an instance are.
fn is_small_instance(f: &Instance) -> bool
    ensures { result ≡ all_small f.now.body }
{
    all_small(f.body.as_slice())
}

/// Whether the exponents of a program's powers are at most 62, as those of a well-typed one are. Takes time linear in
/// the statements.
pub fn has_small_powers(program: &Program) -> bool
    ensures { result ≡ bodies_small program.now.instances }
{
    program
        .instances
        .as_slice()
        .iter()
        .all(|f| is_small_instance(f))
}
