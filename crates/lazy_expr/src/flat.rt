// Instances without own calls.
ghost use Rattle.std.specs.Prelude.{◌≡◌, List, ℕ};
ghost use Rattle.eager_rules.specs.Statements.{calls_of, calls_step};
ghost use Rattle.eager_rules.specs.declared.program.Core.TheFolds.{fold-Core};
ghost use Rattle.lazy_expr.specs.Promise as spec;

use eager_rules::{Core, Instance, Program};

/// Whether a statement and those of its blocks call no own function.
#[cycle(flat)]
fn is_flat_core(core: &Core) -> bool
    ensures { result ≡ spec.is_none (fold-Core (List ℕ) calls_step core.now) }
{
    match core {
        Core::Call { .. } => false,
        Core::If { yes, no, .. } => is_flat_block(yes.as_slice()) && is_flat_block(no.as_slice()),
        Core::For { body, .. } => is_flat_block(body.as_slice()),
        _ => true,
    }
}

/// Whether the statements of a block call no own function.
#[cycle(flat)]
fn is_flat_block(block: &[Core]) -> bool
    ensures { result ≡ spec.is_none (calls_of block.now) }
{
    for core in block {
        if !is_flat_core(core) {
            return false;
        }
    }
    true
}

/// Whether an instance calls no own function, as `plain` asks. Takes time linear in the instance.
pub fn is_flat(instance: &Instance) -> bool
    ensures { result ≡ spec.is_flat instance.now }
{
    is_flat_block(instance.body.as_slice())
}

/// Whether the kernel with an instance's number calls no own function.
fn is_flat_at(number: u32, program: &Program) -> bool
    ensures { result ≡ spec.is_flat_number program.now number }
{
    match program.instances.as_slice().get(number as usize) {
        Some(instance) => is_flat(instance),
        None => true,
    }
}

/// Whether no kernel of a program calls an own function, as `plain_program` asks.
pub fn has_flat_kernels(program: &Program) -> bool
    ensures { result ≡ spec.has_flat_kernels program.now }
{
    for number in program.kernels.as_slice() {
        if !is_flat_at(*number, program) {
            return false;
        }
    }
    true
}
