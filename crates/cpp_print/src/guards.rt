// Guards of parallel loops.
ghost use Rattle.std.specs.Prelude.{◌≡◌, ◌++◌, OnOk};
ghost use Rattle.cpp_print.specs.Guards as spec;

use crate::output::Output;
use crate::words::{Part, put_behind, put_listed, put_opening, put_view_reg, put_word_reg};
use krn_base::NoMemory;
use loop_prog::{Axis, Dims, Form, Guard, GuardPart, Symbol};

/// Writes the extent of a view's dimension.
pub fn put_extent(out: &mut Output, view: u32, axis: u8) -> Result<(), NoMemory>
    ensures { OnOk result (out.new ≡ out.old ++ spec.extent_text view axis) }
{
    put_view_reg(out, view)?;
    out.put(b".extent(")?;
    out.number(u64::from(axis))?;
    out.put(b")")
}

impl Part for Symbol {
    ghost use Rattle.cpp_print.specs.Guards.{symbol_text};

    ghost text = { symbol_text };

    fn write(&self, out: &mut Output) -> Result<(), NoMemory> {
        match *self {
            Symbol::Reg(r) => put_word_reg(out, r),
            Symbol::Extent(view, axis) => put_extent(out, view, axis),
        }
    }
}

impl Part for (i64, Symbol) {
    ghost use Rattle.cpp_print.specs.Guards.{term_text};

    ghost text = { term_text };

    fn write(&self, out: &mut Output) -> Result<(), NoMemory> {
        let (coefficient, symbol) = *self;
        out.signed(coefficient)?;
        out.put(b", ")?;
        symbol.write(out)
    }
}

impl Part for Form {
    ghost use Rattle.cpp_print.specs.Guards.{form_text};

    ghost text = { form_text };

    #[tactic(auto, unfolding(crate::specs::Guards::form_text))]
    fn write(&self, out: &mut Output) -> Result<(), NoMemory> {
        put_opening(out, b"form")?;
        out.signed(self.constant)?;
        put_behind(out, self.terms.as_slice())?;
        out.put(b")")
    }
}

/// Writes a form behind a comma and a space.
fn put_next_form(out: &mut Output, form: &Form) -> Result<(), NoMemory>
    ensures { OnOk result (out.new ≡ out.old ++ spec.next_form form.now) }
{
    out.put(b", ")?;
    form.write(out)
}

/// Writes a bound of a slice behind a comma and a space.
fn put_bound(out: &mut Output, bound: &Option<Form>) -> Result<(), NoMemory>
    ensures { OnOk result (out.new ≡ out.old ++ spec.next_bound bound.now) }
{
    match bound {
        Some(form) => put_next_form(out, form),
        None => out.put(b", krn::none"),
    }
}

impl Part for Axis {
    ghost use Rattle.cpp_print.specs.Guards.{axis_text};

    ghost text = { axis_text };

    #[tactic(auto, unfolding(crate::specs::Guards::count_text))]
    fn write(&self, out: &mut Output) -> Result<(), NoMemory> {
        match self {
            Axis::Extent(view, axis) => put_extent(out, *view, *axis),
            Axis::Count(view, axis, start, stop, step) => {
                put_view_reg(out, *view)?;
                out.put(b".count(")?;
                out.number(u64::from(*axis))?;
                put_bound(out, start)?;
                put_bound(out, stop)?;
                put_bound(out, step)?;
                out.put(b")")
            }
        }
    }
}

impl Part for Dims {
    ghost use Rattle.cpp_print.specs.Guards.{dims_text};

    ghost text = { dims_text };

    #[tactic(auto, unfolding(crate::specs::Guards::dims_text))]
    fn write(&self, out: &mut Output) -> Result<(), NoMemory> {
        put_opening(out, b"dims")?;
        put_listed(out, self.axes.as_slice())?;
        out.put(b")")
    }
}

#[tactic(auto, unfolding(crate::specs::Guards::loop_part))]
fn put_loop(out: &mut Output, var: u32, lo: &Form, hi: &Form, step: i64) -> Result<(), NoMemory>
    ensures { OnOk result (out.new ≡ out.old ++ spec.loop_part var lo.now hi.now step) }
{
    put_opening(out, b"loop")?;
    put_word_reg(out, var)?;
    put_next_form(out, lo)?;
    put_next_form(out, hi)?;
    out.put(b", ")?;
    out.signed(step)?;
    out.put(b")")
}

#[tactic(auto, unfolding(crate::specs::Guards::apart_part))]
fn put_apart(out: &mut Output, a: u32, b: u32) -> Result<(), NoMemory>
    ensures { OnOk result (out.new ≡ out.old ++ spec.apart_part a b) }
{
    put_opening(out, b"apart")?;
    put_view_reg(out, a)?;
    out.put(b", ")?;
    put_view_reg(out, b)?;
    out.put(b")")
}

#[tactic(auto, unfolding(crate::specs::Guards::inside_part))]
fn put_inside(out: &mut Output, view: u32, axis: u8, form: &Form) -> Result<(), NoMemory>
    ensures { OnOk result (out.new ≡ out.old ++ spec.inside_part view axis form.now) }
{
    put_opening(out, b"inside")?;
    put_view_reg(out, view)?;
    out.put(b", ")?;
    out.number(u64::from(axis))?;
    put_next_form(out, form)?;
    out.put(b")")
}

#[tactic(auto, unfolding(crate::specs::Guards::shapes_part))]
fn put_shapes(out: &mut Output, name: &[u8], shapes: &[Dims]) -> Result<(), NoMemory>
    ensures { OnOk result (out.new ≡ out.old ++ spec.shapes_part name.now shapes.now) }
{
    put_opening(out, name)?;
    put_listed(out, shapes)?;
    out.put(b")")
}

#[tactic(auto, unfolding(crate::specs::Guards::into_part))]
fn put_into(out: &mut Output, to: &Dims, leaves: &[Dims]) -> Result<(), NoMemory>
    ensures { OnOk result (out.new ≡ out.old ++ spec.into_part to.now leaves.now) }
{
    put_opening(out, b"into")?;
    to.write(out)?;
    put_behind(out, leaves)?;
    out.put(b")")
}

impl Part for GuardPart {
    ghost use Rattle.cpp_print.specs.Guards.{part_text};

    ghost text = { part_text };

    fn write(&self, out: &mut Output) -> Result<(), NoMemory> {
        match self {
            GuardPart::Loop { var, lo, hi, step } => put_loop(out, *var, lo, hi, *step),
            GuardPart::Apart { a, b } => put_apart(out, *a, *b),
            GuardPart::Inside { view, axis, form } => put_inside(out, *view, *axis, form),
            GuardPart::Fits(shapes) => put_shapes(out, b"fits", shapes.as_slice()),
            GuardPart::Filled(shapes) => put_shapes(out, b"some", shapes.as_slice()),
            GuardPart::Into { to, leaves } => put_into(out, to, leaves.as_slice()),
        }
    }
}

/// Writes a guard.
#[tactic(auto, unfolding(crate::specs::Guards::guard_text))]
pub fn put_guard(out: &mut Output, guard: &Guard) -> Result<(), NoMemory>
    ensures { OnOk result (out.new ≡ out.old ++ spec.guard_text guard.now) }
{
    put_opening(out, b"guard")?;
    put_listed(out, guard.parts.as_slice())?;
    out.put(b")")
}
