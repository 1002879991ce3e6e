// The parts of lines.
ghost use Rattle.std.specs.Prelude.{◌≡◌, ◌++◌, OnOk};
ghost use Rattle.cpp_print.specs.Statements as spec;

use crate::output::Output;
use crate::words::{Part, put_at, put_opening, put_view_reg, put_word_reg};
use eager_rules::{CoreSub, Oper};
use krn_base::{Join, Loc, NoMemory};
use loop_prog::{Back, Fill, Test};

/// Writes view registers, each behind a comma and a space.
pub fn put_views(out: &mut Output, views: &[u32]) -> Result<(), NoMemory>
    ensures { OnOk result (out.new ≡ out.old ++ spec.views_text views.now) }
{
    for view in views {
        out.put(b", ")?;
        put_view_reg(out, *view)?;
    }
    Ok(())
}

/// Writes a call up to its place.
#[tactic(auto, unfolding(crate::specs::Statements::call_at))]
pub fn put_call(out: &mut Output, name: &[u8], at: Loc) -> Result<(), NoMemory>
    ensures { OnOk result (out.new ≡ out.old ++ spec.call_at name.now at) }
{
    put_opening(out, name)?;
    put_at(out, at)
}

/// Writes a call of a view's function up to its place. The name has its dot and its bracket.
#[tactic(auto, unfolding(crate::specs::Statements::method_at))]
pub fn put_method(out: &mut Output, of: u32, name: &[u8], at: Loc) -> Result<(), NoMemory>
    ensures { OnOk result (out.new ≡ out.old ++ spec.method_at of name.now at) }
{
    put_view_reg(out, of)?;
    out.put(name)?;
    put_at(out, at)
}

/// Writes the scalar register that a statement binds.
#[tactic(auto, unfolding(crate::specs::Statements::bound_word))]
pub fn put_bound_word(out: &mut Output, to: u32) -> Result<(), NoMemory>
    ensures { OnOk result (out.new ≡ out.old ++ spec.bound_word to) }
{
    put_word_reg(out, to)?;
    out.put(b" = ")
}

/// Writes the view register that a statement binds.
#[tactic(auto, unfolding(crate::specs::Statements::bound_view))]
pub fn put_bound_view(out: &mut Output, to: u32) -> Result<(), NoMemory>
    ensures { OnOk result (out.new ≡ out.old ++ spec.bound_view to) }
{
    put_view_reg(out, to)?;
    out.put(b" = ")
}

/// Writes an end of a slice.
fn put_end(out: &mut Output, end: Option<Oper>) -> Result<(), NoMemory>
    ensures { OnOk result (out.new ≡ out.old ++ spec.end_text end) }
{
    match end {
        Some(x) => x.write(out),
        None => out.put(b"krn::none"),
    }
}

#[tactic(auto, unfolding(crate::specs::Statements::cut_text))]
fn put_cut(
    out: &mut Output,
    start: Option<Oper>,
    stop: Option<Oper>,
    step: Option<Oper>,
) -> Result<(), NoMemory>
    ensures { OnOk result (out.new ≡ out.old ++ spec.cut_text start stop step) }
{
    put_opening(out, b"cut")?;
    put_end(out, start)?;
    out.put(b", ")?;
    put_end(out, stop)?;
    out.put(b", ")?;
    put_end(out, step)?;
    out.put(b")")
}

impl Part for CoreSub {
    ghost use Rattle.cpp_print.specs.Statements.{sub_text};

    ghost text = { sub_text };

    fn write(&self, out: &mut Output) -> Result<(), NoMemory> {
        match *self {
            CoreSub::At(x) => x.write(out),
            CoreSub::Cut(start, stop, step) => put_cut(out, start, stop, step),
        }
    }
}

impl Part for Back {
    ghost use Rattle.cpp_print.specs.Statements.{back_text};

    ghost text = { back_text };

    fn write(&self, out: &mut Output) -> Result<(), NoMemory> {
        match *self {
            Back::Word(x) => x.write(out),
            Back::View(v) => put_view_reg(out, v),
        }
    }
}

/// What a new buffer is filled with.
pub fn fill_name(fill: Fill) -> &'static [u8]
    ensures { result.now ≡ spec.fill_name fill }
{
    match fill {
        Fill::Zero => b"zero",
        Fill::One => b"one",
        Fill::Count => b"count",
    }
}

/// What is asked of views' shapes.
pub fn test_name(test: Test) -> &'static [u8]
    ensures { result.now ≡ spec.test_name test }
{
    match test {
        Test::Fits => b"fits",
        Test::Filled => b"some",
    }
}
