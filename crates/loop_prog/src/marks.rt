// Tests of registers that are changed under a log, by which the changes are undone.
ghost use Rattle.std.specs.Prelude.{◌≡◌, IfOk, slice_set};
ghost use Rattle.loop_prog.specs.Undo.{both_mark, both_marks, undone};

use krn_base::{NoMemory, Seq};
use std::alloc::Global;

/// A register's test, by its place.
#[derive(Clone, Copy)]
pub struct Mark {
    pub slot: usize,
    pub assigned: bool,
}

/// Another test in its place. What stood there goes into the log. Nothing changes where the test is the same, or where
/// there is no such place.
pub fn put_test(test: Mark, slots: &mut Seq<bool>, log: &mut Seq<Mark>) -> Result<(), NoMemory>
    ensures slots { IfOk result (λ u. slots.new ≡ slice_set slots.old test.slot test.assigned) }
    ensures undo { IfOk result (λ u. undone log.new slots.new ≡ undone log.old slots.old) }
{
    if test.slot >= slots.len() {
        return Ok(());
    }
    let was = slots.as_slice()[test.slot];
    if was == test.assigned {
        return Ok(());
    }
    log.push(Mark {
        slot: test.slot,
        assigned: was,
    })?;
    slots.set(test.slot, test.assigned);
    Ok(())
}

/// Undoes the changes of a log, the latest first. What undoes that goes into another log.
pub fn undo(changes: &[Mark], slots: &mut Seq<bool>, log: &mut Seq<Mark>) -> Result<(), NoMemory>
    ensures slots { IfOk result (λ u. slots.new ≡ undone changes.now slots.old) }
    ensures undo { IfOk result (λ u. undone log.new slots.new ≡ undone log.old slots.old) }
{
    let mut left = changes.len();
    while left > 0 {
        left -= 1;
        let test = changes[left];
        put_test(test, slots, log)?;
    }
    Ok(())
}

/// A test that holds where it does among these tests too.
fn both_mark(slots: &[bool], test: Mark) -> Mark
    ensures { result ≡ both_mark slots.now test }
{
    let other = match slots.get(test.slot) {
        Some(assigned) => *assigned,
        None => false,
    };
    Mark {
        slot: test.slot,
        assigned: test.assigned && other,
    }
}

/// The tests that hold where they do among these tests too.
pub fn both_marks(alloc: Global, slots: &[bool], tests: &[Mark]) -> Result<Seq<Mark>, NoMemory>
    ensures { IfOk result (λ both. both ≡ both_marks slots.now tests.now) }
{
    let mut both = Seq::from_vec(Vec::with_capacity(alloc, tests.len())?);
    for test in tests {
        both.push(both_mark(slots, *test))?;
    }
    Ok(both)
}
