// Registers, operands, places, and lists of what is written.
ghost use Rattle.std.specs.Prelude.{◌≡◌, ◌++◌, OnOk};
ghost use Rattle.cpp_print.specs.Words as spec;

use crate::output::Output;
use eager_rules::{Oper, WordOp};
use krn_base::{Loc, NoMemory, UnOp};
use loop_prog::Reg;

/// A part of a line that may stand in a list.
pub trait Part {
    ghost use Rattle.std.specs.Prelude.{List, ℕ};

    /// Its text.
    ghost text: { Self → List ℕ };

    fn write(&self, out: &mut Output) -> Result<(), NoMemory>
        ensures { OnOk result (out.new ≡ out.old ++ text self.now) };
}

/// Writes each part behind a comma and a space.
pub fn put_behind<T: Part>(out: &mut Output, parts: &[T]) -> Result<(), NoMemory>
    ensures { OnOk result (out.new ≡ out.old ++ spec.behind T.text parts.now) }
{
    for part in parts {
        out.put(b", ")?;
        part.write(out)?;
    }
    Ok(())
}

/// Writes parts with a comma and a space between each two.
pub fn put_listed<T: Part>(out: &mut Output, parts: &[T]) -> Result<(), NoMemory>
    ensures { OnOk result (out.new ≡ out.old ++ spec.listed T.text parts.now) }
{
    match parts {
        [] => Ok(()),
        [first, rest @ ..] => {
            first.write(out)?;
            put_behind(out, rest)
        }
    }
}

/// Writes a scalar register.
#[tactic(auto, unfolding(crate::specs::Words::word_reg))]
pub fn put_word_reg(out: &mut Output, number: u32) -> Result<(), NoMemory>
    ensures { OnOk result (out.new ≡ out.old ++ spec.word_reg number) }
{
    out.put(b"r")?;
    out.number(u64::from(number))
}

/// Writes a view register.
#[tactic(auto, unfolding(crate::specs::Words::view_reg))]
pub fn put_view_reg(out: &mut Output, number: u32) -> Result<(), NoMemory>
    ensures { OnOk result (out.new ≡ out.old ++ spec.view_reg number) }
{
    out.put(b"v")?;
    out.number(u64::from(number))
}

impl Part for Reg {
    ghost use Rattle.cpp_print.specs.Words.{reg_text};

    ghost text = { reg_text };

    fn write(&self, out: &mut Output) -> Result<(), NoMemory> {
        match *self {
            Reg::Word(r) => put_word_reg(out, r),
            Reg::View(v) => put_view_reg(out, v),
        }
    }
}

impl Part for Oper {
    ghost use Rattle.cpp_print.specs.Words.{oper_text};

    ghost text = { oper_text };

    fn write(&self, out: &mut Output) -> Result<(), NoMemory> {
        match *self {
            Oper::Int(z) => out.signed(z),
            Oper::Truth(true) => out.put(b"true"),
            Oper::Truth(false) => out.put(b"false"),
            Oper::Name(r) => put_word_reg(out, r),
        }
    }
}

/// Writes a call up to its first part.
#[tactic(auto, unfolding(crate::specs::Words::opening))]
pub fn put_opening(out: &mut Output, name: &[u8]) -> Result<(), NoMemory>
    ensures { OnOk result (out.new ≡ out.old ++ spec.opening name.now) }
{
    out.put(b"krn::")?;
    out.put(name)?;
    out.put(b"(")
}

/// Writes a place in the module's text.
pub fn put_at(out: &mut Output, at: Loc) -> Result<(), NoMemory>
    ensures { OnOk result (out.new ≡ out.old ++ spec.at_text at) }
{
    put_opening(out, b"at")?;
    out.number(u64::from(at.line))?;
    out.put(b", ")?;
    out.number(u64::from(at.col))?;
    out.put(b")")
}

/// Writes the exponent of a power.
pub fn put_exponent(out: &mut Output, op: UnOp) -> Result<(), NoMemory>
    ensures { OnOk result (out.new ≡ out.old ++ spec.exponent op) }
{
    match op {
        UnOp::Pow(exponent) => {
            out.put(b", ")?;
            out.number(u64::from(exponent))
        }
        UnOp::Neg | UnOp::Inv | UnOp::Flip | UnOp::Abs | UnOp::Test | UnOp::Copy => Ok(()),
    }
}

/// Writes the exponent of a power of a scalar.
pub fn put_word_op_exponent(out: &mut Output, op: WordOp) -> Result<(), NoMemory>
    ensures { OnOk result (out.new ≡ out.old ++ spec.word_op_exponent op) }
{
    match op {
        WordOp::Un(op) => put_exponent(out, op),
        WordOp::Bin(_) | WordOp::Move => Ok(()),
    }
}
