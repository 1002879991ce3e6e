//! Statements with literals in place of names.
ghost use Rattle.std.specs.Prelude.{◌≡◌, ◌++◌, OnOk};
ghost use Rattle.eager_rules.specs.declared.program.Core.{out-Core};
ghost use Rattle.const_fold.specs.Copies.{copied, copied_array, copied_element};

use crate::literals::{folded, folded_all, folded_subs};
use eager_rules::{Core, Oper};
use krn_base::{NoMemory, Seq};
use std::alloc::Global;

/// A copy of a statement on an extent or an element, of a call or a Return, and of nothing else.
fn add_element_copy(
    core: &Core,
    table: &[Option<Oper>],
    alloc: Global,
    body: &mut Seq<Core>,
) -> Result<(), NoMemory>
    ensures { OnOk result (body.new ≡ body.old ++ copied_element table.now (out-Core core.now)) }
{
    match core {
        Core::Extent { to, of, axis } => body.push(Core::Extent {
            to: *to,
            of: *of,
            axis: *axis,
        })?,
        Core::Get { to, of, index, at } => body.push(Core::Get {
            to: *to,
            of: *of,
            index: folded_all(alloc, table, index.as_slice())?,
            at: *at,
        })?,
        Core::Put {
            of,
            index,
            value,
            at,
        } => body.push(Core::Put {
            of: *of,
            index: folded_all(alloc, table, index.as_slice())?,
            value: folded(table, *value),
            at: *at,
        })?,
        Core::Call { to, instance, args } => body.push(Core::Call {
            to: to.try_copy()?,
            instance: *instance,
            args: folded_all(alloc, table, args.as_slice())?,
        })?,
        Core::Return { values } => body.push(Core::Return {
            values: folded_all(alloc, table, values.as_slice())?,
        })?,
        _ => {}
    }
    Ok(())
}

/// A copy of a statement on whole arrays, and of nothing else.
fn add_array_copy(
    core: &Core,
    table: &[Option<Oper>],
    alloc: Global,
    body: &mut Seq<Core>,
) -> Result<(), NoMemory>
    ensures { OnOk result (body.new ≡ body.old ++ copied_array table.now (out-Core core.now)) }
{
    match core {
        Core::Pick { to, of, subs, at } => body.push(Core::Pick {
            to: *to,
            of: *of,
            subs: folded_subs(alloc, table, subs.as_slice())?,
            at: *at,
        })?,
        Core::Flip { to, of } => body.push(Core::Flip { to: *to, of: *of })?,
        Core::Alias { to, of } => body.push(Core::Alias { to: *to, of: *of })?,
        Core::Fresh { to, dims, fill, at } => body.push(Core::Fresh {
            to: *to,
            dims: folded_all(alloc, table, dims.as_slice())?,
            fill: *fill,
            at: *at,
        })?,
        Core::Map { to, op, args, at } => body.push(Core::Map {
            to: *to,
            op: *op,
            args: folded_all(alloc, table, args.as_slice())?,
            at: *at,
        })?,
        Core::Reduce { to, op, of, at } => body.push(Core::Reduce {
            to: *to,
            op: *op,
            of: *of,
            at: *at,
        })?,
        Core::Store { of, value, at } => body.push(Core::Store {
            of: *of,
            value: folded(table, *value),
            at: *at,
        })?,
        _ => {}
    }
    Ok(())
}

/// Puts a statement behind others with the literals of its operands, where it has no block and is none on scalars.
#[tactic(auto, using(std::proofs::lemmas::List::append_assoc))]
pub fn add_copy(
    core: &Core,
    table: &[Option<Oper>],
    alloc: Global,
    body: &mut Seq<Core>,
) -> Result<(), NoMemory>
    ensures { OnOk result (body.new ≡ body.old ++ copied table.now (out-Core core.now)) }
{
    add_element_copy(core, table, alloc, body)?;
    add_array_copy(core, table, alloc, body)
}
