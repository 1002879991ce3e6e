ghost use Rattle.std.specs.Prelude.{◌≡◌, ◌<◌, IfOk};
ghost use Rattle.array_ops.specs.Arrays.{array_of};
ghost use Rattle.array_ops.specs.Subscripts.{subscripted, axis_behind, picked, picked_from};
ghost use Rattle.array_ops.specs.Subscripts.{element_place, flipped, place_in, refs_of};

use krn_base::Fault;
use view_places::{Slice, View};

/// A subscript of an array: one index, or a slice.
#[derive(Clone, Copy, Debug, PartialEq, Eq)]
pub enum Subscript {
    At(i64),
    Cut(Slice),
}

/// One subscript, applied to a dimension below the rank.
fn apply(view: &View, axis: u8, subscript: &Subscript) -> Result<View, Fault>
    requires { axis < view.now.rank }
    ensures value { refs_of result ≡ subscripted axis subscript.now (array_of view.now) }
    ensures length { IfOk result (λ v. v.length ≡ view.now.length) }
{
    match subscript {
        Subscript::At(i) => view.index(axis, *i),
        Subscript::Cut(slice) => view.slice(axis, *slice),
    }
}

/// The dimension that the next subscript is applied to.
fn next_axis(axis: u8, subscript: &Subscript) -> u8
    requires { axis < 4 }
    ensures { result ≡ axis_behind axis subscript.now }
{
    match subscript {
        Subscript::At(_) => axis,
        Subscript::Cut(_) => axis + 1,
    }
}

/// What subscripts give from the dimension `axis` on. Each takes a dimension, so there are at most as many turns as
/// dimensions.
fn pick_from(view: &View, axis: u8, subscripts: &[Subscript]) -> Result<View, Fault>
    ensures value { refs_of result ≡ picked_from axis subscripts.now (array_of view.now) }
    ensures length { IfOk result (λ v. v.length ≡ view.now.length) }
{
    match subscripts {
        [] => Ok(*view),
        [first, rest @ ..] => {
            if axis >= view.rank {
                return Err(Fault::IndexError);
            }
            let part = apply(view, axis, first)?;
            pick_from(&part, next_axis(axis, first), rest)
        }
    }
}

/// The view that subscripts give, applied one after another from the first dimension on. Dimensions that have none
/// stay whole.
///
/// The first faulty subscript decides: `IndexError` for an index outside its dimension, and for a subscript that has
/// no dimension; `ValueError` for a slice by step 0. (NumPy's basic indexing.)
pub fn pick(view: &View, subscripts: &[Subscript]) -> Result<View, Fault>
    ensures value { refs_of result ≡ picked subscripts.now (array_of view.now) }
    ensures length { IfOk result (λ v. v.length ≡ view.now.length) }
{
    pick_from(view, 0, subscripts)
}

/// The place of one element of a view, by an index for each dimension; a negative one counts from the end.
///
/// `IndexError` for the first index that is outside its dimension, and where there are more or fewer than dimensions.
pub fn element_place(view: &View, index: &[i64]) -> Result<u32, Fault>
    ensures { result ≡ element_place (array_of view.now) index.now }
{
    match index {
        [] => one_place(view),
        [first, rest @ ..] => {
            if view.rank == 0 {
                return Err(Fault::IndexError);
            }
            let part = apply(view, 0, &Subscript::At(*first))?;
            element_place(&part, rest)
        }
    }
}

/// The place of the element of a view without dimensions.
fn one_place(view: &View) -> Result<u32, Fault>
    ensures { result ≡ place_in (array_of view.now) }
{
    if view.rank == 0 {
        Ok(view.place(&[0; 4]))
    } else {
        Err(Fault::IndexError)
    }
}

/// The view with its dimensions reversed: NumPy's `.T`.
pub fn flip(view: &View) -> View
    ensures value { array_of result ≡ flipped (array_of view.now) }
    ensures length { result.length ≡ view.now.length }
{
    view.transpose()
}
