//! The functions to which chains of calls lead.

ghost use Rattle.std.specs.Prelude.{◌≡◌, ◌==◌, ◌++◌, ◌∷◌, [], IfOk, IfSome, OnOk, IsNone, replicate, false};
ghost use Rattle.std.specs.List.{list_any};
ghost use Rattle.call_chains.specs.Chains as spec;
ghost use Rattle.call_chains.specs.Sets.{AreReached};
ghost use Rattle.call_chains.specs.Walks.{Grows, IsSpread, marks_of, work_of};

use crate::graph::OwnCall;
use crate::marks::{is_marked, mark, no_marks, row};
use krn_base::Seq;
use std::alloc::{AllocError, Global};

/// A walk along calls: the functions that were met, and those of them whose calls were not yet followed.
#[derive(Drop)]
pub struct Walk {
    marks: Vec<bool>,
    work: Vec<usize>,
}

impl Walk {
    /// Meets a function.
    fn meet(&mut self, f: usize) -> Result<(), AllocError>
        ensures { OnOk result (Grows (λ g. f == g) self.old self.new) }
    {
        if f < self.marks.len() && !is_marked(self.marks.as_slice(), f) {
            self.work.push(f)?;
            self.marks[f] = true;
        }
        Ok(())
    }

    /// Meets the functions that these calls name.
    fn follow(&mut self, calls: &[OwnCall]) -> Result<(), AllocError>
        ensures { OnOk result (Grows (λ g. spec.has_callee g calls.now) self.old self.new) }
    {
        for call in calls {
            self.meet(call.callee)?;
        }
        Ok(())
    }

    /// Meets the functions where chains begin.
    fn begin(&mut self, starts: &[usize]) -> Result<(), AllocError>
        ensures { OnOk result (Grows (λ g. list_any (λ f. f == g) starts.now) self.old self.new) }
    {
        for start in starts {
            self.meet(*start)?;
        }
        Ok(())
    }

    /// The next function to follow.
    fn next(&mut self) -> Option<usize>
        ensures found { IfSome result (λ f. work_of self.old ≡ work_of self.new ++ f ∷ []) }
        ensures none { IsNone result → work_of self.old ≡ [] }
        ensures marks { marks_of self.new ≡ marks_of self.old }
    {
        self.work.pop()
    }
}

/// A walk that met no function.
fn no_walk(alloc: Global, count: usize) -> Result<Walk, AllocError>
    ensures marks { IfOk result (λ walk. marks_of walk ≡ replicate count false) }
    ensures work { IfOk result (λ walk. work_of walk ≡ []) }
{
    Ok(Walk {
        marks: no_marks(alloc, count)?,
        work: Vec::new(alloc),
    })
}

/// The walk from these functions, before any call is followed.
fn begun(alloc: Global, rows: &[Seq<OwnCall>], starts: &[usize]) -> Result<Walk, AllocError>
    ensures { IfOk result (IsSpread rows.now starts.now) }
{
    let mut walk = no_walk(alloc, rows.len())?;
    walk.begin(starts)?;
    Ok(walk)
}

/// The functions to which a chain of calls leads from one of these. Takes time linear in the functions and calls.
pub fn reached(
    alloc: Global,
    rows: &[Seq<OwnCall>],
    starts: &[usize],
) -> Result<Vec<bool>, AllocError>
    ensures { IfOk result (λ marks. AreReached rows.now starts.now marks.items) }
{
    let mut walk = begun(alloc, rows, starts)?;
    while let Some(f) = walk.next() {
        walk.follow(row(rows, f))?;
    }
    Ok(walk.marks)
}
