// Where the parts of an `If` meet, and where a turn of a loop comes back to its head.
ghost use Rattle.std.specs.Prelude.{◌≡◌, IfOk};
ghost use Rattle.loop_prog.specs.Paths.{kept_by, meet};
ghost use Rattle.loop_prog.specs.Undo.{Undoes, before, behind, undone};

use crate::marks::{Mark, both_marks, undo};
use crate::paths::Paths;
use krn_base::{NoMemory, Seq};
use std::alloc::Global;

/// What is assigned behind statements, by the changes from what was assigned before them.
#[derive(Drop)]
pub struct Part {
    pub reached: bool,
    pub changes: Seq<Mark>,
}

/// Goes back from the end of statements to their start, by the log of what they changed. A path comes to their start or
/// doesn't.
pub fn go_back(
    alloc: Global,
    reached: bool,
    own: &[Mark],
    paths: &mut Paths,
) -> Result<Part, NoMemory>
    ensures back { IfOk result (λ part. paths.new ≡ before reached own.now paths.old) }
    ensures part { IfOk result (λ part. behind part paths.new.slots ≡ paths.old) }
{
    let mut changes = Seq::new(alloc);
    undo(own, &mut paths.slots, &mut changes)?;
    let part = Part {
        reached: paths.reached,
        changes,
    };
    paths.reached = reached;
    Ok(part)
}

/// Goes from the start of statements to their end again.
fn go_on(part: &Part, paths: &mut Paths, log: &mut Seq<Mark>) -> Result<(), NoMemory>
    ensures paths { IfOk result (λ u. paths.new ≡ behind part.now paths.old.slots) }
    ensures undo { IfOk result (λ u. Undoes log.new paths.new log.old paths.old) }
{
    undo(part.changes.as_slice(), &mut paths.slots, log)?;
    paths.reached = part.reached;
    Ok(())
}

/// Goes from the end of the second part of an `If` to where its parts meet. `own` is the log of the second part; both
/// began at one place.
pub fn go_to_meeting(
    alloc: Global,
    first: &Part,
    own: &[Mark],
    paths: &mut Paths,
    log: &mut Seq<Mark>,
) -> Result<(), NoMemory>
    ensures paths { IfOk result (λ u. paths.new ≡
        meet (behind first.now (undone own.now paths.old.slots)) paths.old) }
    ensures undo { IfOk result (λ u. Undoes log.new paths.new log.old (before first.now.reached own.now paths.old)) }
{
    let shared = both_marks(alloc, paths.slots.as_slice(), first.changes.as_slice())?;
    let second = go_back(alloc, first.reached, own, paths)?;
    if !second.reached {
        return go_on(first, paths, log);
    }
    if !first.reached {
        return go_on(&second, paths, log);
    }
    let rest = both_marks(alloc, paths.slots.as_slice(), second.changes.as_slice())?;
    undo(rest.as_slice(), &mut paths.slots, log)?;
    undo(shared.as_slice(), &mut paths.slots, log)?;
    Ok(())
}

/// Goes from the end of a loop's turn to the loop's head, where a path comes to it or doesn't. `own` is the log of the
/// turn.
pub fn go_to_head(
    alloc: Global,
    reached: bool,
    own: &[Mark],
    paths: &mut Paths,
    log: &mut Seq<Mark>,
) -> Result<(), NoMemory>
    ensures paths { IfOk result (λ u. paths.new ≡ kept_by (before reached own.now paths.old) paths.old) }
    ensures undo { IfOk result (λ u. Undoes log.new paths.new log.old (before reached own.now paths.old)) }
{
    let turn = go_back(alloc, reached, own, paths)?;
    if !turn.reached {
        return Ok(());
    }
    let kept = both_marks(alloc, paths.slots.as_slice(), turn.changes.as_slice())?;
    undo(kept.as_slice(), &mut paths.slots, log)?;
    Ok(())
}
