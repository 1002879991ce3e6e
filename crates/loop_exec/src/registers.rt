//! Reading and binding registers.
ghost use Rattle.std.specs.Prelude.{◌≡◌, slice_index_or, slice_set};
ghost use Rattle.array_ops.specs.Arrays.{array_of};
ghost use Rattle.array_ops.specs.Elements.{Unbound};
ghost use Rattle.eager_rules.specs.Works.{array_in, no_array, word_of};
ghost use Rattle.loop_exec.specs.Banks.{view_bound, views_bound, word_bound, words_bound};
ghost use Rattle.loop_prog.specs.State.{operand_in, view_in};

use krn_base::Seq;
use loop_prog::Oper;
use view_places::{Shape, View};

/// What a scalar register holds; nothing where there is no such register.
fn register(words: &[Option<i64>], r: u32) -> Option<i64>
    ensures { word_bound result ≡ slice_index_or (words_bound words.now) r Unbound }
{
    match words.get(r as usize) {
        Some(value) => *value,
        None => None,
    }
}

/// What an operand stands for.
pub fn operand(words: &[Option<i64>], x: Oper) -> Option<i64>
    ensures { word_bound result ≡ operand_in (words_bound words.now) x }
{
    match x {
        Oper::Int(z) => Some(z),
        Oper::Truth(true) => Some(1),
        Oper::Truth(false) => Some(0),
        Oper::Name(r) => register(words, r),
    }
}

/// An operand as a word; 0 where it is unassigned.
pub fn word(words: &[Option<i64>], x: Oper) -> i64
    ensures { result ≡ word_of (operand_in (words_bound words.now) x) }
{
    match operand(words, x) {
        Some(z) => z,
        None => 0,
    }
}

/// What a view register holds; nothing where there is no such register.
pub fn view_in(views: &[Option<View>], v: u32) -> Option<View>
    ensures { view_bound result ≡ view_in (views_bound views.now) v }
{
    match views.get(v as usize) {
        Some(value) => *value,
        None => None,
    }
}

/// An array without elements.
fn no_array() -> View
    ensures { array_of result ≡ no_array }
{
    let shape = Shape {
        rank: 1,
        extent: [0, 1, 1, 1],
    };
    View::whole(0, &shape)
}

/// A view register as an array; one without elements where it is unassigned.
pub fn array(views: &[Option<View>], v: u32) -> View
    ensures { array_of result ≡ array_in (view_in (views_bound views.now) v) }
{
    match view_in(views, v) {
        Some(view) => view,
        None => no_array(),
    }
}

/// Another value in a scalar register; nothing changes where there is no such register.
pub fn bind_word(words: &mut Seq<Option<i64>>, r: usize, value: Option<i64>)
    ensures { words_bound words.new ≡ slice_set (words_bound words.old) r (word_bound value) }
{
    if r < words.len() {
        words.set(r, value);
    }
}

/// Another value in a view register; nothing changes where there is no such register.
pub fn bind_view(views: &mut Seq<Option<View>>, v: usize, value: Option<View>)
    ensures { views_bound views.new ≡ slice_set (views_bound views.old) v (view_bound value) }
{
    if v < views.len() {
        views.set(v, value);
    }
}
