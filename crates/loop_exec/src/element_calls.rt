//! Going over the elements of a nest or a fold, one after another.
ghost use Rattle.std.specs.Prelude.{◌≡◌, ℕ, ◌+◌, ◌<◌, ◌≤◌, IfSome, None, is_some, length, reverse, slice_index};
ghost use Rattle.std.specs.Prelude.{slice_index_or, true};
ghost use Rattle.std.specs.List.{flat_map, list_all};
ghost use Rattle.arrayvec.specs.ArrayVec.{array_vec_len};
ghost use Rattle.array_ops.specs.Elements.{extents_of, spreads_to};
ghost use Rattle.view_places.specs.Arrays.{element_count};
ghost use Rattle.view_places.specs.Shape.{IsShape, extents as extents_of_shape};
ghost use Rattle.view_places.specs.Stepping.{axis_from};
ghost use Rattle.view_places.specs.View.{extents, places};
ghost use Rattle.loop_prog.specs.Conditions.{small_step};
ghost use Rattle.loop_prog.specs.Templates.{leaf_values, push as push_step, spread_leaf};
ghost use Rattle.loop_prog.specs.declared.program.TemplateStep.TheVariants as step;
ghost use Rattle.loop_exec.specs.Banks.{views_bound, words_bound};
ghost use Rattle.loop_exec.specs.Elements.{IsReady, StandsIn, each_of};
ghost use Rattle.loop_exec.specs.Leaves.{HasExtent, HasExtents, place_at, places_of, read_by};

use crate::element::{Element, Walk};
use crate::leaf::Leaf;
use crate::leaf_calls::{first_place, leaf_of, next_place, read};
use crate::registers::{view_in, word};
use crate::stack::{Stack, latest, push, push_binary, push_select, push_unary};
use krn_base::Seq;
use loop_prog::TemplateStep;
use view_places::{Odometer, Shape, View};

/// What a step reads by itself, spread to a shape. None where it doesn't spread.
pub fn spread_step(
    step: TemplateStep,
    views: &[Option<View>],
    shape: &Shape,
) -> Option<Option<Leaf>>
    requires { IsShape shape.now }
    ensures fits { is_some result ≡ list_all (λ from. spreads_to from (extents_of_shape shape.now))
        (extents_of (read_by (views_bound views.now) step)) }
    ensures spread { IfSome result (λ leaf. places_of leaf ≡
        spread_leaf (extents_of_shape shape.now) (read_by (views_bound views.now) step)) }
    ensures extent { IfSome result (HasExtent shape.now.extent) }
    ensures same_extents { IfSome result (HasExtents (extents_of_shape shape.now)) }
{
    let TemplateStep::Leaf(v) = step else {
        return Some(None);
    };
    let Some(view) = view_in(views, v) else {
        return Some(None);
    };
    match view.spread(shape) {
        Some(spread) => Some(Some(leaf_of(&spread))),
        None => None,
    }
}

/// The place of each step's leaf at the first element.
fn first_places(e: &Element<'_>) -> [u32; 64]
    requires ready { IsReady e.now }
    requires some { 0 < element_count e.now.frame.now.extent }
    ensures { (i : ℕ) → i < length e.now.steps.now →
        slice_index result i ≡ place_at 0 (slice_index_or e.now.leaves.now i None) }
{
    let mut places = [0; 64];
    for i in 0..e.steps.len() {
        places[i] = first_place(&e.leaves[i], &e.frame.extent);
    }
    places
}

/// The walk at the first element, which there is.
pub fn start(e: &Element<'_>) -> Walk
    requires ready { IsReady e.now }
    requires some { 0 < length (places e.now.frame.now) }
    ensures stands { StandsIn e.now result }
    ensures number { result.odometer.number ≡ 0 }
{
    e.frame.by_rows();
    let _count = e.frame.as_spread().count();
    Walk {
        odometer: Odometer::start(&e.frame.extent),
        places: first_places(e),
    }
}

/// Each step's place for the next element.
fn next_places(e: &Element<'_>, axis: u8, number: u32, places: &mut [u32; 64])
    requires ready { IsReady e.now }
    requires more { number + 1 < element_count e.now.frame.now.extent }
    requires axis { axis ≡ axis_from e.now.frame.now.extent number }
    requires below { axis < 4 }
    requires places { (i : ℕ) → i < length e.now.steps.now →
        slice_index places.old i ≡ place_at number (slice_index_or e.now.leaves.now i None) }
    ensures { (i : ℕ) → i < length e.now.steps.now →
        slice_index places.new i ≡ place_at (number + 1) (slice_index_or e.now.leaves.now i None) }
{
    for i in 0..e.steps.len() {
        places[i] = next_place(&e.leaves[i], places[i], axis, number, &e.frame.extent);
    }
}

/// Goes on to the next element, which there is, and tells the dimension that moves.
pub fn advance(e: &Element<'_>, walk: &mut Walk) -> u8
    requires ready { IsReady e.now }
    requires stands { StandsIn e.now walk.old }
    requires more { walk.old.odometer.number + 1 < length (places e.now.frame.now) }
    ensures stands { StandsIn e.now walk.new }
    ensures number { walk.new.odometer.number ≡ walk.old.odometer.number + 1 }
    ensures axis { result ≡ axis_from e.now.frame.now.extent walk.old.odometer.number }
    ensures below { result < 4 }
{
    e.frame.by_rows();
    let number = walk.odometer.number;
    let axis = walk.odometer.step();
    next_places(e, axis, number, &mut walk.places);
    axis
}

/// One step of a template: what its leaf has at a place, a word, or an operation on the values so far.
fn push_one(
    e: &Element<'_>,
    step: TemplateStep,
    leaf: &Option<Leaf>,
    place: u32,
    buffers: &[Seq<i64>],
    stack: &mut Stack,
    number: u32,
)
    requires small { small_step step ≡ true }
    requires leaf { places_of leaf.now ≡
        spread_leaf (extents e.now.frame.now) (read_by (views_bound e.now.views.now) step) }
    requires below { number < element_count (extents e.now.frame.now) }
    requires place { place ≡ place_at number leaf.now }
    requires room { array_vec_len stack.old < 64 }
    ensures value { reverse stack.new.items ≡ push_step (words_bound e.now.words.now)
        (views_bound e.now.views.now) (extents e.now.frame.now) buffers.now number step (reverse stack.old.items) }
    ensures room { array_vec_len stack.new ≤ array_vec_len stack.old + 1 }
{
    match step {
        TemplateStep::Leaf(_) => push(stack, read(leaf, place, buffers)),
        TemplateStep::Word(x) => push(stack, word(e.words, x)),
        TemplateStep::Un(op) => push_unary(op, stack),
        TemplateStep::Bin(op) => push_binary(op, stack),
        TemplateStep::Select => push_select(stack),
    }
}

/// The element at which a walk stands.
pub fn value(e: &Element<'_>, walk: &Walk, buffers: &[Seq<i64>], stack: &mut Stack) -> i64
    requires ready { IsReady e.now }
    requires stands { StandsIn e.now walk.now }
    requires below { walk.now.odometer.number < length (places e.now.frame.now) }
    ensures { result ≡ each_of e.now buffers.now walk.now.odometer.number }
{
    e.frame.places_are_distinct();
    let number = walk.odometer.number;
    stack.clear();
    for i in 0..e.steps.len() {
        push_one(
            e,
            e.steps[i],
            &e.leaves[i],
            walk.places[i],
            buffers,
            stack,
            number,
        );
    }
    latest(stack)
}
