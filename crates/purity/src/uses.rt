//! What the statements of an instance do to its names.
ghost use Rattle.std.specs.Prelude.{◌≡◌, ◌++◌, ◌∷◌, [], IfOk, OnOk, length, option_to_list, Some};
ghost use Rattle.std.specs.List.{flat_map, range_with_len};
ghost use Rattle.eager_rules.specs.declared.program.Core.{out-Core};
ghost use Rattle.purity.specs.Tables.{known_at};
ghost use Rattle.purity.specs.Uses as spec;

use crate::faulting::may_fault_here;
use crate::listing::Line;
use crate::marks::is_marked;
use crate::rows::row;
use crate::summary::{Summary, known_at};
use eager_rules::{Core, Oper};
use krn_base::{Kind, NoMemory, Seq};
use std::alloc::Global;

/// What a statement does to a name of its instance.
#[derive(Clone, Copy, Debug, PartialEq, Eq, Drop)]
pub enum Use {
    /// The array of one name becomes that of another.
    Flow { from: u32, name: u32 },
    /// The array of a name is written.
    Write(u32),
    /// A name is returned as the value with this number.
    Give { value: usize, name: u32 },
    /// Something may fault.
    Fault,
}

/// The name that an operand is, where there is one.
fn name_at(args: &[Oper], at: usize) -> Option<u32>
    ensures { option_to_list result ≡ spec.name_at args.now at }
{
    match args.get(at) {
        Some(Oper::Name(name)) => Some(*name),
        _ => None,
    }
}

fn add_flow(args: &[Oper], name: u32, param: u32, uses: &mut Seq<Use>) -> Result<(), NoMemory>
    ensures { OnOk result (uses.new ≡ uses.old ++ spec.flows_at args.now name param) }
{
    if let Some(from) = name_at(args, param as usize) {
        uses.push(Use::Flow { from, name })?;
    }
    Ok(())
}

/// A value flows to its name from the arguments of these parameters.
fn add_flows(args: &[Oper], name: u32, params: &[u32], uses: &mut Seq<Use>) -> Result<(), NoMemory>
    ensures { OnOk result (uses.new ≡ uses.old ++ spec.flows_by args.now params.now (Some name)) }
{
    for param in params {
        add_flow(args, name, *param, uses)?;
    }
    Ok(())
}

/// What flows to the names of a call's values.
#[tactic(auto, using(crate::proofs::Lists::indexed_more))]
fn add_returned(
    gives: &[Seq<u32>],
    to: &[u32],
    args: &[Oper],
    uses: &mut Seq<Use>,
) -> Result<(), NoMemory>
    ensures { OnOk result (uses.new ≡
        uses.old ++ flat_map (spec.flows_of gives.now to.now args.now) (range_with_len 0 (length to.now))) }
{
    for value in 0..to.len() {
        add_value(gives, to, args, value, uses)?;
    }
    Ok(())
}

fn add_value(
    gives: &[Seq<u32>],
    to: &[u32],
    args: &[Oper],
    value: usize,
    uses: &mut Seq<Use>,
) -> Result<(), NoMemory>
    ensures { OnOk result (uses.new ≡ uses.old ++ spec.flows_of gives.now to.now args.now value) }
{
    match to.get(value) {
        Some(name) => add_flows(args, *name, row(gives, value), uses),
        None => Ok(()),
    }
}

fn add_argument(
    writes: &[bool],
    args: &[Oper],
    param: usize,
    uses: &mut Seq<Use>,
) -> Result<(), NoMemory>
    ensures { OnOk result (uses.new ≡ uses.old ++ spec.writes_of writes.now args.now param) }
{
    if is_marked(writes, param) {
        if let Some(name) = name_at(args, param) {
            uses.push(Use::Write(name))?;
        }
    }
    Ok(())
}

/// The arguments that a call writes.
#[tactic(auto, using(crate::proofs::Lists::indexed_more))]
fn add_arguments(writes: &[bool], args: &[Oper], uses: &mut Seq<Use>) -> Result<(), NoMemory>
    ensures { OnOk result (uses.new ≡
        uses.old ++ flat_map (spec.writes_of writes.now args.now) (range_with_len 0 (length args.now))) }
{
    for param in 0..args.len() {
        add_argument(writes, args, param, uses)?;
    }
    Ok(())
}

fn add_fault(test: bool, uses: &mut Seq<Use>) -> Result<(), NoMemory>
    ensures { OnOk result (uses.new ≡ uses.old ++ spec.fault_when test) }
{
    if test {
        uses.push(Use::Fault)?;
    }
    Ok(())
}

fn add_known(
    to: &[u32],
    args: &[Oper],
    callee: &Summary,
    uses: &mut Seq<Use>,
) -> Result<(), NoMemory>
    ensures { OnOk result (uses.new ≡ uses.old ++ spec.call_uses to.now args.now (Some callee.now)) }
{
    add_returned(callee.gives.as_slice(), to, args, uses)?;
    add_arguments(callee.writes.as_slice(), args, uses)?;
    add_fault(callee.faults, uses)
}

fn add_call(
    to: &[u32],
    args: &[Oper],
    instance: u32,
    known: &[Option<Summary>],
    uses: &mut Seq<Use>,
) -> Result<(), NoMemory>
    ensures { OnOk result (uses.new ≡
        uses.old ++ spec.call_uses to.now args.now (known_at known.now instance)) }
{
    match known_at(known, instance) {
        Some(callee) => add_known(to, args, callee, uses),
        None => Ok(()),
    }
}

fn add_given(values: &[Oper], value: usize, uses: &mut Seq<Use>) -> Result<(), NoMemory>
    ensures { OnOk result (uses.new ≡ uses.old ++ spec.gives_of values.now value) }
{
    if let Some(name) = name_at(values, value) {
        uses.push(Use::Give { value, name })?;
    }
    Ok(())
}

/// The names that are returned.
#[tactic(auto, using(crate::proofs::Lists::indexed_more))]
fn add_values(values: &[Oper], uses: &mut Seq<Use>) -> Result<(), NoMemory>
    ensures { OnOk result (uses.new ≡
        uses.old ++ flat_map (spec.gives_of values.now) (range_with_len 0 (length values.now))) }
{
    for value in 0..values.len() {
        add_given(values, value, uses)?;
    }
    Ok(())
}

fn add_one(found: Use, uses: &mut Seq<Use>) -> Result<(), NoMemory>
    ensures { OnOk result (uses.new ≡ uses.old ++ found ∷ []) }
{
    uses.push(found)?;
    Ok(())
}

/// What a statement does, its own faults apart.
fn add_own(core: &Core, known: &[Option<Summary>], uses: &mut Seq<Use>) -> Result<(), NoMemory>
    ensures { OnOk result (uses.new ≡ uses.old ++ spec.own_uses known.now (out-Core core.now)) }
{
    match core {
        Core::Alias { to, of } => add_one(
            Use::Flow {
                from: *of,
                name: *to,
            },
            uses,
        ),
        Core::Pick { to, of, .. } => add_one(
            Use::Flow {
                from: *of,
                name: *to,
            },
            uses,
        ),
        Core::Flip { to, of } => add_one(
            Use::Flow {
                from: *of,
                name: *to,
            },
            uses,
        ),
        Core::Put { of, .. } => add_one(Use::Write(*of), uses),
        Core::Store { of, .. } => add_one(Use::Write(*of), uses),
        Core::Call { to, instance, args } => {
            add_call(to.as_slice(), args.as_slice(), *instance, known, uses)
        }
        Core::Return { values } => add_values(values.as_slice(), uses),
        Core::Word { .. } => Ok(()),
        Core::Extent { .. } => Ok(()),
        Core::Get { .. } => Ok(()),
        Core::Fresh { .. } => Ok(()),
        Core::Map { .. } => Ok(()),
        Core::Reduce { .. } => Ok(()),
        Core::If { .. } => Ok(()),
        Core::For { .. } => Ok(()),
    }
}

fn add_line(
    core: &Core,
    names: &[(Kind, u8)],
    known: &[Option<Summary>],
    uses: &mut Seq<Use>,
) -> Result<(), NoMemory>
    ensures { OnOk result (uses.new ≡ uses.old ++ spec.uses_of known.now names.now core.now) }
{
    add_fault(may_fault_here(core, names), uses)?;
    add_own(core, known, uses)
}

/// What the statements of an instance do. `names` are the types of its names.
#[tactic(auto, using(crate::proofs::Lists::mapped_more))]
pub fn uses_of(
    alloc: Global,
    lines: &[Line<'_>],
    names: &[(Kind, u8)],
    known: &[Option<Summary>],
) -> Result<Seq<Use>, NoMemory>
    ensures { IfOk result (λ uses. uses ≡ spec.all_uses known.now names.now (spec.listed lines.now)) }
{
    let mut uses = Seq::new(alloc);
    for line in lines {
        add_line(line.core, names, known, &mut uses)?;
    }
    Ok(uses)
}

fn add_callee(core: &Core, callees: &mut Seq<u32>) -> Result<(), NoMemory>
    ensures { OnOk result (callees.new ≡ callees.old ++ spec.callee_of core.now) }
{
    match core {
        Core::Call { instance, .. } => {
            callees.push(*instance)?;
            Ok(())
        }
        _ => Ok(()),
    }
}

/// The instances that statements call, one for each call.
#[tactic(auto, using(crate::proofs::Lists::mapped_more))]
pub fn callees(alloc: Global, lines: &[Line<'_>]) -> Result<Seq<u32>, NoMemory>
    ensures { IfOk result (λ callees. callees ≡ flat_map spec.callee_of (spec.listed lines.now)) }
{
    let mut callees = Seq::new(alloc);
    for line in lines {
        add_callee(line.core, &mut callees)?;
    }
    Ok(callees)
}
