// Statements of one line, without indentation.
ghost use Rattle.std.specs.Prelude.{◌≡◌, ◌++◌, ◌∷◌, [], true, OnOk};
ghost use Rattle.cpp_print.specs.Statements as spec;
ghost use Rattle.cpp_print.specs.Trees.{is_tree, tree_of};

use crate::guards::put_extent;
use crate::names::{join_name, word_op_name};
use crate::output::Output;
use crate::parts::{
    fill_name, put_bound_view, put_bound_word, put_call, put_method, put_views, test_name,
};
use crate::template::put_template;
use crate::words::{
    Part, put_at, put_behind, put_listed, put_opening, put_view_reg, put_word_op_exponent,
};
use eager_rules::{CoreSub, Oper, WordOp};
use krn_base::{Join, Loc, NoMemory};
use loop_prog::{Back, Fill, Template, Test};

/// Writes an operation on scalars.
#[tactic(auto, unfolding(crate::specs::Statements::set_text))]
pub fn put_set(
    out: &mut Output,
    to: u32,
    op: WordOp,
    args: &[Oper],
    at: Loc,
) -> Result<(), NoMemory>
    ensures { OnOk result (out.new ≡ out.old ++ spec.set_text to op args.now at) }
{
    put_bound_word(out, to)?;
    put_call(out, word_op_name(op), at)?;
    put_behind(out, args)?;
    put_word_op_exponent(out, op)?;
    out.put(b");\n")
}

fn put_size(out: &mut Output, of: u32, axis: Option<u8>) -> Result<(), NoMemory>
    ensures { OnOk result (out.new ≡ out.old ++ spec.size_text of axis) }
{
    match axis {
        Some(axis) => put_extent(out, of, axis),
        None => {
            put_view_reg(out, of)?;
            out.put(b".size()")
        }
    }
}

/// Writes an extent, or a number of elements.
#[tactic(auto, unfolding(crate::specs::Statements::extent_line))]
pub fn put_extent_line(out: &mut Output, to: u32, of: u32, axis: Option<u8>) -> Result<(), NoMemory>
    ensures { OnOk result (out.new ≡ out.old ++ spec.extent_line to of axis) }
{
    put_bound_word(out, to)?;
    put_size(out, of, axis)?;
    out.put(b";\n")
}

/// Writes the reading of an element.
#[tactic(auto, unfolding(crate::specs::Statements::get_text))]
pub fn put_get(out: &mut Output, to: u32, of: u32, index: &[Oper], at: Loc) -> Result<(), NoMemory>
    ensures { OnOk result (out.new ≡ out.old ++ spec.get_text to of index.now at) }
{
    put_bound_word(out, to)?;
    put_method(out, of, b".get(", at)?;
    put_behind(out, index)?;
    out.put(b");\n")
}

/// Writes the writing of an element.
#[tactic(auto, unfolding(crate::specs::Statements::put_text))]
pub fn put_put(
    out: &mut Output,
    of: u32,
    index: &[Oper],
    value: Oper,
    at: Loc,
) -> Result<(), NoMemory>
    ensures { OnOk result (out.new ≡ out.old ++ spec.put_text of index.now value at) }
{
    put_method(out, of, b".put(", at)?;
    out.put(b", ")?;
    value.write(out)?;
    put_behind(out, index)?;
    out.put(b");\n")
}

/// Writes a view by subscripts.
#[tactic(auto, unfolding(crate::specs::Statements::view_of_text))]
pub fn put_view_of(
    out: &mut Output,
    to: u32,
    of: u32,
    subs: &[CoreSub],
    at: Loc,
) -> Result<(), NoMemory>
    ensures { OnOk result (out.new ≡ out.old ++ spec.view_of_text to of subs.now at) }
{
    put_bound_view(out, to)?;
    put_method(out, of, b".pick(", at)?;
    put_behind(out, subs)?;
    out.put(b");\n")
}

/// Writes a view with its dimensions reversed.
#[tactic(auto, unfolding(crate::specs::Statements::flip_text))]
pub fn put_flip(out: &mut Output, to: u32, of: u32) -> Result<(), NoMemory>
    ensures { OnOk result (out.new ≡ out.old ++ spec.flip_text to of) }
{
    put_bound_view(out, to)?;
    put_view_reg(out, of)?;
    out.put(b".flip();\n")
}

/// Writes the same view in another register.
#[tactic(auto, unfolding(crate::specs::Statements::same_text))]
pub fn put_same(out: &mut Output, to: u32, of: u32) -> Result<(), NoMemory>
    ensures { OnOk result (out.new ≡ out.old ++ spec.same_text to of) }
{
    put_bound_view(out, to)?;
    put_view_reg(out, of)?;
    out.put(b";\n")
}

/// Writes a new buffer by its extents.
#[tactic(auto, unfolding(crate::specs::Statements::fresh_text))]
pub fn put_fresh(
    out: &mut Output,
    to: u32,
    dims: &[Oper],
    fill: Fill,
    at: Loc,
) -> Result<(), NoMemory>
    ensures { OnOk result (out.new ≡ out.old ++ spec.fresh_text to dims.now fill at) }
{
    put_bound_view(out, to)?;
    put_call(out, b"fresh", at)?;
    out.put(b", krn::")?;
    out.put(fill_name(fill))?;
    put_behind(out, dims)?;
    out.put(b");\n")
}

/// Writes a new buffer by the shapes of views.
#[tactic(auto, unfolding(crate::specs::Statements::like_text))]
pub fn put_like(out: &mut Output, to: u32, views: &[u32], at: Loc) -> Result<(), NoMemory>
    ensures { OnOk result (out.new ≡ out.old ++ spec.like_text to views.now at) }
{
    put_bound_view(out, to)?;
    put_call(out, b"like", at)?;
    put_views(out, views)?;
    out.put(b");\n")
}

/// Writes a test of views' shapes.
#[tactic(auto, unfolding(crate::specs::Statements::check_text))]
pub fn put_check(out: &mut Output, test: Test, views: &[u32], at: Loc) -> Result<(), NoMemory>
    ensures { OnOk result (out.new ≡ out.old ++ spec.check_text test views.now at) }
{
    put_call(out, test_name(test), at)?;
    put_views(out, views)?;
    out.put(b");\n")
}

/// Writes a nest.
#[tactic(auto, unfolding(crate::specs::Statements::nest_text))]
pub fn put_nest(out: &mut Output, to: u32, template: &Template, at: Loc) -> Result<(), NoMemory>
    requires { is_tree (tree_of template.now.steps) ≡ true }
    ensures { OnOk result (out.new ≡ out.old ++ spec.nest_text to template.now at) }
{
    put_call(out, b"nest", at)?;
    out.put(b", ")?;
    put_view_reg(out, to)?;
    out.put(b", ")?;
    put_template(out, template.steps.as_slice())?;
    out.put(b");\n")
}

/// Writes the call of a fold up to its place.
#[tactic(auto, unfolding(crate::specs::Statements::fold_at))]
fn put_fold_call(out: &mut Output, join: Join, at: Loc) -> Result<(), NoMemory>
    ensures { OnOk result (out.new ≡ out.old ++ spec.fold_at join at) }
{
    out.put(b"krn::fold_")?;
    out.put(join_name(join))?;
    out.put(b"(")?;
    put_at(out, at)
}

/// Writes a fold.
#[tactic(auto, unfolding(crate::specs::Statements::fold_text))]
pub fn put_fold(
    out: &mut Output,
    to: u32,
    join: Join,
    template: &Template,
    at: Loc,
) -> Result<(), NoMemory>
    requires { is_tree (tree_of template.now.steps) ≡ true }
    ensures { OnOk result (out.new ≡ out.old ++ spec.fold_text to join template.now at) }
{
    put_bound_word(out, to)?;
    put_fold_call(out, join, at)?;
    out.put(b", ")?;
    put_template(out, template.steps.as_slice())?;
    out.put(b");\n")
}

/// Writes that a view register is unassigned.
#[tactic(auto, unfolding(crate::specs::Statements::release_text))]
pub fn put_release(out: &mut Output, view: u32) -> Result<(), NoMemory>
    ensures { OnOk result (out.new ≡ out.old ++ spec.release_text view) }
{
    put_view_reg(out, view)?;
    out.put(b".release();\n")
}

/// Writes the end of a kernel.
#[tactic(auto, unfolding(crate::specs::Statements::return_text))]
pub fn put_return(out: &mut Output, values: &[Back]) -> Result<(), NoMemory>
    ensures { OnOk result (out.new ≡ out.old ++ spec.return_text values.now) }
{
    out.put(b"return ")?;
    put_opening(out, b"ret")?;
    put_listed(out, values)?;
    out.put(b");\n")
}
