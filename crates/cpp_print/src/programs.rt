// Kernels: their heads and the lines of their registers.
ghost use Rattle.std.specs.Prelude.{◌≡◌, ◌++◌, ◌<◌, ◌≤◌, [], true, Option, Some, None, OnOk, option_map};
ghost use Rattle.cpp_print.specs.Programs as spec;
ghost use Rattle.cpp_print.specs.Programs.{IsFirstName};
ghost use Rattle.cpp_print.specs.Printable.{block_printable};

use crate::blocks::put_block;
use crate::output::Output;
use crate::words::{Part, put_listed};
use krn_base::{Kind, NoMemory, ParamType, Text};
use loop_prog::Kernel;

fn kind_text(kind: Kind) -> &'static [u8]
    ensures { result.now ≡ spec.kind_text kind }
{
    match kind {
        Kind::Int64 => b"int64_t",
        Kind::Bool => b"bool",
    }
}

#[tactic(auto, unfolding(crate::specs::Programs::flat_text))]
fn put_flat(out: &mut Output, kind: Kind, rank: u8) -> Result<(), NoMemory>
    ensures { OnOk result (out.new ≡ out.old ++ spec.flat_text kind rank) }
{
    out.put(b"krn::flat<")?;
    out.put(kind_text(kind))?;
    out.put(b", ")?;
    out.number(u64::from(rank))?;
    out.put(b">")
}

#[tactic(auto, unfolding(crate::specs::Programs::view_text))]
fn put_view(out: &mut Output, kind: Kind, rank: u8) -> Result<(), NoMemory>
    ensures { OnOk result (out.new ≡ out.old ++ spec.view_text kind rank) }
{
    out.put(b"krn::view<")?;
    out.put(kind_text(kind))?;
    out.put(b", ")?;
    out.number(u64::from(rank))?;
    out.put(b">")
}

fn put_param_type(out: &mut Output, ty: ParamType) -> Result<(), NoMemory>
    ensures { OnOk result (out.new ≡ out.old ++ spec.param_type ty) }
{
    match ty {
        ParamType::Scalar(kind) => out.put(kind_text(kind)),
        ParamType::Flat(kind, rank) => put_flat(out, kind, rank),
        ParamType::Strided(kind, rank) => put_view(out, kind, rank),
    }
}

impl Part for (Text, ParamType) {
    ghost use Rattle.cpp_print.specs.Programs.{param_text};

    ghost text = { param_text };

    fn write(&self, out: &mut Output) -> Result<(), NoMemory> {
        let (name, ty) = self;
        put_param_type(out, *ty)?;
        out.put(b" p_")?;
        out.put(name.as_slice())
    }
}

impl Part for (Kind, u8) {
    ghost use Rattle.cpp_print.specs.Programs.{ret_type};

    ghost text = { ret_type };

    fn write(&self, out: &mut Output) -> Result<(), NoMemory> {
        let (kind, rank) = *self;
        if rank == 0 {
            return out.put(kind_text(kind));
        }
        put_view(out, kind, rank)
    }
}

/// Writes the line that begins a kernel.
#[tactic(auto, unfolding(crate::specs::Programs::head_text))]
fn put_head(
    out: &mut Output,
    name: &[u8],
    params: &[(Text, ParamType)],
    rets: &[(Kind, u8)],
) -> Result<(), NoMemory>
    ensures { OnOk result (out.new ≡ out.old ++ spec.head_text name.now params.now rets.now) }
{
    out.put(b"auto k_")?;
    out.put(name)?;
    out.put(b"(")?;
    put_listed(out, params)?;
    out.put(b") -> krn::ret<")?;
    put_listed(out, rets)?;
    out.put(b"> {\n")
}

/// Writes the line of a view register up to its value.
#[tactic(auto, unfolding(crate::specs::Programs::view_line, crate::specs::Words::view_reg))]
fn put_view_line(out: &mut Output, view: usize, ty: (Kind, u8)) -> Result<(), NoMemory>
    ensures { OnOk result (out.new ≡ out.old ++ spec.view_line view ty) }
{
    let (kind, rank) = ty;
    out.put(b" ")?;
    put_view(out, kind, rank)?;
    out.put(b" ")?;
    out.put(b"v")?;
    out.number(view as u64)
}

/// Writes the line of a scalar register up to its value.
#[tactic(auto, unfolding(crate::specs::Programs::word_line, crate::specs::Words::word_reg))]
fn put_word_line(out: &mut Output, register: usize, kind: Kind) -> Result<(), NoMemory>
    ensures { OnOk result (out.new ≡ out.old ++ spec.word_line register kind) }
{
    out.put(b" ")?;
    out.put(kind_text(kind))?;
    out.put(b" ")?;
    out.put(b"r")?;
    out.number(register as u64)
}

/// Writes the value of a register, which is the parameter of this name, and the end of its line.
fn put_line_end(out: &mut Output, name: Option<&[u8]>) -> Result<(), NoMemory>
    ensures { OnOk result (out.new ≡ out.old ++ spec.line_end (option_map (λ bytes. bytes.now) name.entry)) }
{
    match name {
        Some(name) => {
            out.put(b" = p_")?;
            out.put(name)?;
            out.put(b";\n")
        }
        None => out.put(b";\n"),
    }
}

fn is_scalar(ty: ParamType) -> bool
    ensures { result ≡ spec.is_scalar ty }
{
    matches!(ty, ParamType::Scalar(_))
}

/// The name of the first array parameter, and the parameters behind it.
fn next_array(params: &[(Text, ParamType)]) -> (Option<&[u8]>, &[(Text, ParamType)])
    ensures { IsFirstName (spec.names_of spec.is_array params.now) (option_map (λ name. name.now) result.0)
        (spec.names_of spec.is_array result.1.now) }
{
    let mut left = params;
    while let [(name, ty), rest @ ..] = left {
        if !is_scalar(*ty) {
            return (Some(name.as_slice()), rest);
        }
        left = rest;
    }
    (None, left)
}

/// The name of the first scalar parameter, and the parameters behind it.
fn next_scalar(params: &[(Text, ParamType)]) -> (Option<&[u8]>, &[(Text, ParamType)])
    ensures { IsFirstName (spec.names_of spec.is_scalar params.now) (option_map (λ name. name.now) result.0)
        (spec.names_of spec.is_scalar result.1.now) }
{
    let mut left = params;
    while let [(name, ty), rest @ ..] = left {
        if is_scalar(*ty) {
            return (Some(name.as_slice()), rest);
        }
        left = rest;
    }
    (None, left)
}

/// Writes the lines of the view registers.
fn put_view_lines(
    out: &mut Output,
    views: &[(Kind, u8)],
    params: &[(Text, ParamType)],
) -> Result<(), NoMemory>
    ensures { OnOk result (out.new ≡
        out.old ++ spec.view_lines 0 views.now (spec.names_of spec.is_array params.now)) }
{
    let mut left = params;
    for v in 0..views.len() {
        let (name, rest) = next_array(left);
        put_view_line(out, v, views[v])?;
        put_line_end(out, name)?;
        left = rest;
    }
    Ok(())
}

/// Writes the lines of the scalar registers.
fn put_word_lines(
    out: &mut Output,
    kinds: &[Kind],
    params: &[(Text, ParamType)],
) -> Result<(), NoMemory>
    ensures { OnOk result (out.new ≡
        out.old ++ spec.word_lines 0 kinds.now (spec.names_of spec.is_scalar params.now)) }
{
    let mut left = params;
    for r in 0..kinds.len() {
        let (name, rest) = next_scalar(left);
        put_word_line(out, r, kinds[r])?;
        put_line_end(out, name)?;
        left = rest;
    }
    Ok(())
}

/// Writes a kernel.
#[tactic(auto, unfolding(crate::specs::Programs::kernel_text))]
pub fn put_kernel(out: &mut Output, kernel: &Kernel) -> Result<(), NoMemory>
    requires { block_printable kernel.now.body 0 ≡ true }
    ensures { OnOk result (out.new ≡ out.old ++ spec.kernel_text kernel.now) }
{
    let params = kernel.params.as_slice();
    put_head(out, kernel.name.as_slice(), params, kernel.rets.as_slice())?;
    put_view_lines(out, kernel.views.as_slice(), params)?;
    put_word_lines(out, kernel.regs.as_slice(), params)?;
    put_block(out, kernel.body.as_slice(), 0)?;
    out.put(b"}\n")
}
