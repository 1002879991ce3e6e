//! The own name that an instance returns.
ghost use Rattle.std.specs.Prelude.{◌≡◌, ◌++◌, IfOk, List, OnOk, Option, ℕ};
ghost use Rattle.eager_rules.specs.Statements.{binds_of};
ghost use Rattle.eager_rules.specs.declared.program.Core.{out-Core};
ghost use Rattle.eager_rules.specs.declared.program.Core.TheFolds.{fold-Core};
ghost use Rattle.inline.specs.Own as spec;
ghost use Rattle.inline.specs.declared.own.Binder.{Binder as AnyBinder};

use eager_rules::{Core, Instance, Oper, WordOp};
use krn_base::{NoMemory, Seq};
use std::alloc::Global;

/// A statement that binds a name.
#[derive(Clone, Copy, Debug, PartialEq, Eq, Drop)]
pub enum Binder {
    Move,
    Other,
}

/// The name that is returned, where it is the only value.
fn only_name(values: &[Oper]) -> Option<u32>
    ensures { result ≡ spec.only_name values.now }
{
    match values {
        [Oper::Name(name)] => Some(*name),
        _ => None,
    }
}

/// What a statement and those of its blocks return.
#[cycle(returned)]
fn add_returned(core: &Core, list: &mut Seq<Option<u32>>) -> Result<(), NoMemory>
    ensures { OnOk result (list.new ≡
        list.old ++ fold-Core (List (Option ℕ)) spec.returned_step core.now) }
{
    match core {
        Core::Return { values } => {
            list.push(only_name(values.as_slice()))?;
            Ok(())
        }
        Core::If { yes, no, .. } => {
            add_all_returned(yes.as_slice(), list)?;
            add_all_returned(no.as_slice(), list)
        }
        Core::For { body, .. } => add_all_returned(body.as_slice(), list),
        _ => Ok(()),
    }
}

/// What the statements of a block return.
#[cycle(returned)]
fn add_all_returned(block: &[Core], list: &mut Seq<Option<u32>>) -> Result<(), NoMemory>
    ensures { OnOk result (list.new ≡ list.old ++ spec.returned block.now) }
{
    for core in block {
        add_returned(core, list)?;
    }
    Ok(())
}

/// Whether a name is one of these.
fn is_among(name: u32, names: &[u32]) -> bool
    ensures { result ≡ spec.is_among name names.now }
{
    names.iter().any(|other| *other == name)
}

/// Whether a statement binds a name by itself, its blocks apart.
fn binds(core: &Core, name: u32) -> bool
    ensures { result ≡ spec.is_among name (binds_of (out-Core core.now)) }
{
    match core {
        Core::Word { to, .. } => *to == name,
        Core::Extent { to, .. } => *to == name,
        Core::Get { to, .. } => *to == name,
        Core::Put { .. } => false,
        Core::Pick { to, .. } => *to == name,
        Core::Flip { to, .. } => *to == name,
        Core::Alias { to, .. } => *to == name,
        Core::Fresh { to, .. } => *to == name,
        Core::Map { to, .. } => *to == name,
        Core::Reduce { to, .. } => *to == name,
        Core::Store { .. } => false,
        Core::Call { to, .. } => is_among(name, to.as_slice()),
        Core::If { .. } => false,
        Core::For { var, .. } => *var == name,
        Core::Return { .. } => false,
    }
}

fn kind_of(core: &Core) -> Binder
    ensures { result ≡ spec.kind_of (out-Core core.now) }
{
    match core {
        Core::Word {
            op: WordOp::Move,
            ..
        } => Binder::Move,
        _ => Binder::Other,
    }
}

/// A statement, where it binds a name by itself.
fn add_here(core: &Core, name: u32, list: &mut Seq<Binder>) -> Result<(), NoMemory>
    ensures { OnOk result (list.new ≡ list.old ++ spec.binder_here name (out-Core core.now)) }
{
    if binds(core, name) {
        list.push(kind_of(core))?;
    }
    Ok(())
}

/// The statements that bind a name, of a statement and those of its blocks.
#[cycle(binders)]
fn add_binders(core: &Core, name: u32, list: &mut Seq<Binder>) -> Result<(), NoMemory>
    ensures { OnOk result (list.new ≡
        list.old ++ fold-Core (List AnyBinder) (spec.binders_step name) core.now) }
{
    add_here(core, name, list)?;
    match core {
        Core::If { yes, no, .. } => {
            add_all_binders(yes.as_slice(), name, list)?;
            add_all_binders(no.as_slice(), name, list)
        }
        Core::For { body, .. } => add_all_binders(body.as_slice(), name, list),
        _ => Ok(()),
    }
}

/// The statements of a block that bind a name.
#[cycle(binders)]
fn add_all_binders(block: &[Core], name: u32, list: &mut Seq<Binder>) -> Result<(), NoMemory>
    ensures { OnOk result (list.new ≡ list.old ++ spec.binders name block.now) }
{
    for core in block {
        add_binders(core, name, list)?;
    }
    Ok(())
}

/// Whether a name is an own name: no parameter, and bound by one statement, which is no move.
fn is_own(alloc: Global, f: &Instance, name: u32) -> Result<bool, NoMemory>
    ensures { IfOk result (λ own. own ≡ spec.is_own f.now name) }
{
    let mut list = Seq::new(alloc);
    add_all_binders(f.body.as_slice(), name, &mut list)?;
    Ok(f.params.len() <= name as usize && matches!(list.as_slice(), [Binder::Other]))
}

/// The own name that an instance returns, where it has one Return and that returns one value, which is one.
pub fn own_of(alloc: Global, f: &Instance) -> Result<Option<u32>, NoMemory>
    ensures { IfOk result (λ own. own ≡ spec.own_of f.now) }
{
    let mut list = Seq::new(alloc);
    add_all_returned(f.body.as_slice(), &mut list)?;
    match list.as_slice() {
        [Some(name)] => {
            if is_own(alloc, f, *name)? {
                Ok(Some(*name))
            } else {
                Ok(None)
            }
        }
        _ => Ok(None),
    }
}
