//! Statements by the places of their names.
ghost use Rattle.std.specs.Prelude.{◌≡◌, ◌++◌, OnOk};
ghost use Rattle.eager_rules.specs.declared.program.Core.{out-Core};
ghost use Rattle.inline.specs.Places.{copied, copied_array, copied_word};

use crate::places::{Place, placed, renamed, renamed_all, renamed_subs};
use eager_rules::Core;
use krn_base::{NoMemory, Seq};
use std::alloc::Global;

/// A copy of a statement on words and elements, and of nothing else.
fn add_word_copy(
    core: &Core,
    place: Place,
    alloc: Global,
    body: &mut Seq<Core>,
) -> Result<(), NoMemory>
    ensures { OnOk result (body.new ≡ body.old ++ copied_word place (out-Core core.now)) }
{
    match core {
        Core::Word { to, op, args, at } => {
            let to = placed(place, *to)?;
            let args = renamed_all(alloc, place, args.as_slice())?;
            body.push(Core::Word {
                to,
                op: *op,
                args,
                at: *at,
            })?;
        }
        Core::Extent { to, of, axis } => {
            let to = placed(place, *to)?;
            let of = placed(place, *of)?;
            body.push(Core::Extent {
                to,
                of,
                axis: *axis,
            })?;
        }
        Core::Get { to, of, index, at } => {
            let to = placed(place, *to)?;
            let of = placed(place, *of)?;
            let index = renamed_all(alloc, place, index.as_slice())?;
            body.push(Core::Get {
                to,
                of,
                index,
                at: *at,
            })?;
        }
        Core::Put {
            of,
            index,
            value,
            at,
        } => {
            let of = placed(place, *of)?;
            let index = renamed_all(alloc, place, index.as_slice())?;
            let value = renamed(place, *value)?;
            body.push(Core::Put {
                of,
                index,
                value,
                at: *at,
            })?;
        }
        Core::Reduce { to, op, of, at } => {
            let to = placed(place, *to)?;
            let of = placed(place, *of)?;
            body.push(Core::Reduce {
                to,
                op: *op,
                of,
                at: *at,
            })?;
        }
        _ => {}
    }
    Ok(())
}

/// A copy of a statement on whole arrays, and of nothing else.
fn add_array_copy(
    core: &Core,
    place: Place,
    alloc: Global,
    body: &mut Seq<Core>,
) -> Result<(), NoMemory>
    ensures { OnOk result (body.new ≡ body.old ++ copied_array place (out-Core core.now)) }
{
    match core {
        Core::Pick { to, of, subs, at } => {
            let to = placed(place, *to)?;
            let of = placed(place, *of)?;
            let subs = renamed_subs(alloc, place, subs.as_slice())?;
            body.push(Core::Pick {
                to,
                of,
                subs,
                at: *at,
            })?;
        }
        Core::Flip { to, of } => {
            let to = placed(place, *to)?;
            let of = placed(place, *of)?;
            body.push(Core::Flip { to, of })?;
        }
        Core::Alias { to, of } => {
            let to = placed(place, *to)?;
            let of = placed(place, *of)?;
            body.push(Core::Alias { to, of })?;
        }
        Core::Fresh { to, dims, fill, at } => {
            let to = placed(place, *to)?;
            let dims = renamed_all(alloc, place, dims.as_slice())?;
            body.push(Core::Fresh {
                to,
                dims,
                fill: *fill,
                at: *at,
            })?;
        }
        Core::Map { to, op, args, at } => {
            let to = placed(place, *to)?;
            let args = renamed_all(alloc, place, args.as_slice())?;
            body.push(Core::Map {
                to,
                op: *op,
                args,
                at: *at,
            })?;
        }
        Core::Store { of, value, at } => {
            let of = placed(place, *of)?;
            let value = renamed(place, *value)?;
            body.push(Core::Store { of, value, at: *at })?;
        }
        _ => {}
    }
    Ok(())
}

/// Puts a statement behind others by the places of its names, where it has no block, calls nothing and returns nothing.
#[tactic(auto, using(std::proofs::lemmas::List::append_assoc))]
pub fn add_copy(
    core: &Core,
    place: Place,
    alloc: Global,
    body: &mut Seq<Core>,
) -> Result<(), NoMemory>
    ensures { OnOk result (body.new ≡ body.old ++ copied place (out-Core core.now)) }
{
    add_word_copy(core, place, alloc, body)?;
    add_array_copy(core, place, alloc, body)
}
