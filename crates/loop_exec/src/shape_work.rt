//! The work of statements by the shapes of views. Each function's clause is its line of the definition.
ghost use Rattle.std.specs.Prelude.{◌≡◌, ℤ, List, Ok, IfOk, IsTrue, map};
ghost use Rattle.array_ops.specs.Subscripts.{and_then};
ghost use Rattle.eager_rules.specs.Works.{changed};
ghost use Rattle.view_places.specs.Arrays.{is_small};
ghost use Rattle.view_places.specs.Shape.{IsShape, extents};
ghost use Rattle.loop_exec.specs.Banks.{views_bound};
ghost use Rattle.loop_exec.specs.Running.{nothing_done, view_done};
ghost use Rattle.loop_exec.specs.Tests.{test_of};
ghost use Rattle.loop_prog.specs.State.{view_in};
ghost use Rattle.loop_prog.specs.Works.{check_work, like_work};

use crate::array_work::new_array;
use crate::running::{NothingMade, Trouble, ViewMade};
use crate::shapes::shape_of_views;
use array_ops::{Fill, fill};
use krn_base::{Fault, Loc, NoMemory, Seq};
use loop_prog::Test;
use std::alloc::Global;
use view_places::{Shape, View};

/// A new buffer of zeros with the broadcast shape of views, whose shapes are listed in `shapes`.
pub fn like(
    alloc: Global,
    at: Loc,
    views: &[Option<View>],
    list: &[u32],
    shapes: &mut Vec<Shape>,
    buffers: &mut Seq<Seq<i64>>,
) -> Result<ViewMade, NoMemory>
    ensures { IfOk result (λ w. view_done buffers.new w ≡
        like_work at (map (view_in (views_bound views.now)) list.now) buffers.old) }
{
    match shape_of_views(views, list, shapes)? {
        Ok(shape) => {
            let words = fill(alloc, Fill::Zero, View::whole(0, &shape).element_count())?;
            new_array(&shape, words, buffers)
        }
        Err(fault) => Ok(Err(Trouble::Failed(fault, at))),
    }
}

/// Whether a shape passes a test.
fn tested(test: Test, at: Loc, shape: &Shape) -> NothingMade
    requires shape { IsShape shape.now }
    requires small { IsTrue (is_small (extents shape.now)) }
    ensures { (buffers : List (List ℤ)) → nothing_done buffers result ≡
        changed buffers at (and_then (test_of test (extents shape.now)) (λ ns. Ok buffers)) }
{
    match test {
        Test::Fits => Ok(()),
        Test::Filled => if View::whole(0, shape).element_count() == 0 {
            Err(Trouble::Failed(Fault::ValueError, at))
        } else {
            Ok(())
        },
    }
}

/// A test of the shapes of views, which are listed in `shapes`.
pub fn check(
    test: Test,
    at: Loc,
    views: &[Option<View>],
    list: &[u32],
    shapes: &mut Vec<Shape>,
) -> Result<NothingMade, NoMemory>
    ensures { IfOk result (λ w. (buffers : List (List ℤ)) → nothing_done buffers w ≡
        check_work test at (map (view_in (views_bound views.now)) list.now) buffers) }
{
    match shape_of_views(views, list, shapes)? {
        Ok(shape) => Ok(tested(test, at, &shape)),
        Err(fault) => Ok(Err(Trouble::Failed(fault, at))),
    }
}
