// A test of a finished program: that names have the numbers of their first bindings.
ghost use Rattle.std.specs.Prelude.{◌≡◌, ◌++◌, List, ℕ, IfOk, OnOk, Some, true};
ghost use Rattle.std.specs.List.{list_all};
ghost use Rattle.array_types.specs.Numbering as spec;
ghost use Rattle.array_types.specs.Numbering.{AreNumbered, is_numbered};
ghost use Rattle.eager_rules.specs.Statements.{binds, binds_step};
ghost use Rattle.eager_rules.specs.declared.program.Core.TheFolds.{fold-Core};

use eager_rules::{Core, Instance, Program};
use krn_base::{NoMemory, Seq};
use std::alloc::Global;

/// The names that a statement and those of its blocks bind, behind others.
#[cycle(binds)]
#[tactic(auto, using(crate::proofs::Bindings::binds_more, std::proofs::lemmas::Grind::common_steps))]
fn add_bound(core: &Core, out: &mut Seq<u32>) -> Result<(), NoMemory>
    ensures { OnOk result (out.new ≡ out.old ++ fold-Core (List ℕ) binds_step core.now) }
{
    match core {
        Core::Word { to, .. }
        | Core::Extent { to, .. }
        | Core::Get { to, .. }
        | Core::Pick { to, .. }
        | Core::Flip { to, .. }
        | Core::Alias { to, .. }
        | Core::Fresh { to, .. }
        | Core::Map { to, .. }
        | Core::Reduce { to, .. } => {
            out.push(*to)?;
            Ok(())
        }
        Core::Call { to, .. } => add_names(to.as_slice(), out),
        Core::If { yes, no, .. } => {
            add_all_bound(yes.as_slice(), out)?;
            add_all_bound(no.as_slice(), out)
        }
        Core::For { var, body, .. } => {
            out.push(*var)?;
            add_all_bound(body.as_slice(), out)
        }
        Core::Put { .. } | Core::Store { .. } | Core::Return { .. } => Ok(()),
    }
}

/// The names that a block binds, behind others.
#[cycle(binds)]
fn add_all_bound(block: &[Core], out: &mut Seq<u32>) -> Result<(), NoMemory>
    ensures { OnOk result (out.new ≡ out.old ++ binds block.now) }
{
    for core in block {
        add_bound(core, out)?;
    }
    Ok(())
}

fn add_names(names: &[u32], out: &mut Seq<u32>) -> Result<(), NoMemory>
    ensures { OnOk result (out.new ≡ out.old ++ names.now) }
{
    for name in names {
        out.push(*name)?;
    }
    Ok(())
}

/// How many names stand behind a binding, which is one of those before it or the next one.
fn after(names: usize, name: u32) -> Option<usize>
    ensures { result ≡ spec.after names name }
{
    let name = name as usize;
    if name < names {
        Some(names)
    } else if name == names {
        Some(name + 1)
    } else {
        None
    }
}

/// Whether each of these names is one of `params`, has stood before, or is the next one, and they come to `count`.
fn come_to(params: usize, names: &[u32], count: usize) -> bool
    ensures { result ≡ spec.comes_to (Some params) names.now count }
{
    let mut next = params;
    for name in names {
        match after(next, *name) {
            None => return false,
            Some(n) => {
                next = n;
            }
        }
    }
    next == count
}

fn is_numbered(alloc: Global, f: &Instance) -> Result<bool, NoMemory>
    ensures { IfOk result (λ b. b ≡ is_numbered f.now) }
{
    let mut names = Seq::new(alloc);
    add_all_bound(f.body.as_slice(), &mut names)?;
    Ok(come_to(f.params.len(), names.as_slice(), f.names.len()))
}

fn all_numbered(alloc: Global, instances: &[Instance]) -> Result<bool, NoMemory>
    ensures { IfOk result (λ b. b ≡ list_all is_numbered instances.now) }
{
    for f in instances {
        if !is_numbered(alloc, f)? {
            return Ok(false);
        }
    }
    Ok(true)
}

/// Whether the names of each instance have the numbers of their first bindings. One pass over the program.
pub fn are_numbered(alloc: Global, program: &Program) -> Result<bool, NoMemory>
    ensures { IfOk result (λ b. b ≡ true → AreNumbered program.now) }
{
    all_numbered(alloc, program.instances.as_slice())
}
