//! Shapes of views that a statement lists or a template reads. They are listed in room that a run keeps, so that a turn
//! of a loop takes no memory for it.
ghost use Rattle.std.specs.Prelude.{◌≡◌, ◌∷◌, [], ◌++◌, IfOk, IsTrue, OnOk, map, true};
ghost use Rattle.std.specs.List.{All, flat_map, list_all};
ghost use Rattle.array_ops.specs.Elements.{extents_of, shape_of, spreads_to};
ghost use Rattle.array_ops.specs.Operands.{extents_result};
ghost use Rattle.view_places.specs.Arrays.{is_small};
ghost use Rattle.view_places.specs.Shape.{IsShape, extents};
ghost use Rattle.loop_exec.specs.Banks.{views_bound};
ghost use Rattle.loop_prog.specs.State.{view_in};
ghost use Rattle.loop_prog.specs.Templates.{leaf_values};

use crate::registers::view_in;
use array_ops::Shaped;
use krn_base::NoMemory;
use loop_prog::TemplateStep;
use view_places::{Shape, View, broadcast_all};

/// The shape of a view in a register behind others, if it is assigned.
fn push_shape(views: &[Option<View>], v: u32, shapes: &mut Vec<Shape>) -> Result<(), NoMemory>
    ensures extents { OnOk result (map extents shapes.new.items ≡
        map extents shapes.old.items ++ extents_of (view_in (views_bound views.now) v)) }
    ensures shapes { OnOk result (All IsShape shapes.old.items → All IsShape shapes.new.items) }
{
    let Some(view) = view_in(views, v) else {
        return Ok(());
    };
    if shapes.push(view.shape()).is_err() {
        return Err(NoMemory);
    }
    Ok(())
}

/// Puts the shapes of the views in registers, as far as these are assigned, into the room for shapes.
fn shapes_in(views: &[Option<View>], list: &[u32], shapes: &mut Vec<Shape>) -> Result<(), NoMemory>
    ensures extents { OnOk result (map extents shapes.new.items ≡
        flat_map extents_of (map (view_in (views_bound views.now)) list.now)) }
    ensures shapes { OnOk result (All IsShape shapes.new.items) }
{
    shapes.clear();
    for v in list {
        push_shape(views, *v, shapes)?;
    }
    Ok(())
}

/// The broadcast of the shapes of views in registers. `shapes` is the room in which they are listed.
pub fn shape_of_views(
    views: &[Option<View>],
    list: &[u32],
    shapes: &mut Vec<Shape>,
) -> Result<Shaped, NoMemory>
    ensures value { IfOk result (λ s. extents_result s ≡ shape_of (map (view_in (views_bound views.now)) list.now)) }
    ensures shape { IfOk result (λ s. IfOk s IsShape) }
    ensures small { IfOk result (λ s. IfOk s (λ shape. IsTrue (is_small (extents shape)))) }
{
    shapes_in(views, list, shapes)?;
    Ok(broadcast_all(shapes.as_slice()))
}

/// The shape of the view that a step reads behind others, if it reads one and that is assigned.
fn push_leaf(
    views: &[Option<View>],
    step: &TemplateStep,
    shapes: &mut Vec<Shape>,
) -> Result<(), NoMemory>
    ensures extents { OnOk result (map extents shapes.new.items ≡
        map extents shapes.old.items ++ flat_map extents_of (leaf_values (views_bound views.now) (step.now ∷ []))) }
    ensures shapes { OnOk result (All IsShape shapes.old.items → All IsShape shapes.new.items) }
{
    match step {
        TemplateStep::Leaf(v) => push_shape(views, *v, shapes),
        _ => Ok(()),
    }
}

/// Puts the shapes of the views that a template's leaves name, as far as these are assigned, into the room for shapes.
#[tactic(auto, using(crate::proofs::ShapeLemmas::leaves_more))]
fn shapes_of_leaves(
    views: &[Option<View>],
    steps: &[TemplateStep],
    shapes: &mut Vec<Shape>,
) -> Result<(), NoMemory>
    ensures extents { OnOk result (map extents shapes.new.items ≡
        flat_map extents_of (leaf_values (views_bound views.now) steps.now)) }
    ensures shapes { OnOk result (All IsShape shapes.new.items) }
{
    shapes.clear();
    for step in steps {
        push_leaf(views, step, shapes)?;
    }
    Ok(())
}

/// The broadcast of the shapes of a template's leaves, to which each of them spreads. `shapes` is the room in which
/// they are listed.
pub fn shape_of_leaves(
    views: &[Option<View>],
    steps: &[TemplateStep],
    shapes: &mut Vec<Shape>,
) -> Result<Shaped, NoMemory>
    ensures value { IfOk result (λ s. extents_result s ≡ shape_of (leaf_values (views_bound views.now) steps.now)) }
    ensures shape { IfOk result (λ s. IfOk s IsShape) }
    ensures small { IfOk result (λ s. IfOk s (λ shape. IsTrue (is_small (extents shape)))) }
    ensures spread { IfOk result (λ s. IfOk s (λ shape.
        list_all (λ from. spreads_to from (extents shape))
        (flat_map extents_of (leaf_values (views_bound views.now) steps.now)) ≡ true)) }
{
    shapes_of_leaves(views, steps, shapes)?;
    Ok(broadcast_all(shapes.as_slice()))
}
