//! The numbers that lead to others.
ghost use Rattle.std.specs.Prelude.{◌≡◌, ◌==◌, ◌++◌, ◌∷◌, [], IfOk, IfSome, OnOk, IsNone, replicate, false};
ghost use Rattle.purity.specs.Marks.{AreLeading, Grows, IsSpread, has, marks_of, work_of};

use crate::marks::{is_marked, no_marks};
use crate::rows::row;
use krn_base::Seq;
use std::alloc::{AllocError, Global};

/// A walk backwards: the numbers that were met, and those of them whose rows were not yet followed.
#[derive(Drop)]
pub struct Walk {
    marks: Vec<bool>,
    work: Vec<u32>,
}

impl Walk {
    /// Meets a number.
    fn meet(&mut self, number: u32) -> Result<(), AllocError>
        ensures { OnOk result (Grows (λ n. number == n) self.old self.new) }
    {
        let at = number as usize;
        if at < self.marks.len() && !is_marked(self.marks.as_slice(), at) {
            self.work.push(number)?;
            self.marks[at] = true;
        }
        Ok(())
    }

    /// Meets numbers.
    fn meet_all(&mut self, numbers: &[u32]) -> Result<(), AllocError>
        ensures { OnOk result (Grows (λ n. has n numbers.now) self.old self.new) }
    {
        for number in numbers {
            self.meet(*number)?;
        }
        Ok(())
    }

    /// The next number to follow.
    fn next(&mut self) -> Option<u32>
        ensures found { IfSome result (λ n. work_of self.old ≡ work_of self.new ++ n ∷ []) }
        ensures none { IsNone result → work_of self.old ≡ [] }
        ensures marks { marks_of self.new ≡ marks_of self.old }
    {
        self.work.pop()
    }
}

/// A walk that met no number.
fn no_walk(alloc: Global, count: usize) -> Result<Walk, AllocError>
    ensures marks { IfOk result (λ walk. marks_of walk ≡ replicate count false) }
    ensures work { IfOk result (λ walk. work_of walk ≡ []) }
{
    Ok(Walk {
        marks: no_marks(alloc, count)?,
        work: Vec::new(alloc),
    })
}

/// The walk back from these numbers, before any row is followed.
fn begun(alloc: Global, rows: &[Seq<u32>], ends: &[u32]) -> Result<Walk, AllocError>
    ensures { IfOk result (IsSpread rows.now ends.now) }
{
    let mut walk = no_walk(alloc, rows.len())?;
    walk.meet_all(ends)?;
    Ok(walk)
}

/// The numbers that lead to one of these, as marks. The row of a number has those that lead to it in one step. Takes
/// time linear in the rows.
pub fn leading(alloc: Global, rows: &[Seq<u32>], ends: &[u32]) -> Result<Vec<bool>, AllocError>
    ensures { IfOk result (λ marks. AreLeading rows.now ends.now marks.items) }
{
    let mut walk = begun(alloc, rows, ends)?;
    while let Some(number) = walk.next() {
        walk.meet_all(row(rows, number as usize))?;
    }
    Ok(walk.marks)
}
