// What a kernel is by itself: its parameters, the ranks of its arrays, and its name.
ghost use Rattle.std.specs.Prelude.{◌≡◌, ◌&&◌, IfOk, List, false, map, nat_le, not, replicate};
ghost use Rattle.std.specs.List.{list_all, list_any, zip};
ghost use Rattle.loop_prog.specs.Check.{is_rank, kernel_keeps, param_is_ranked, param_kind, param_rank, same_head};
ghost use Rattle.loop_prog.specs.Check.{has_some};
ghost use Rattle.loop_prog.specs.Conditions.{is_there};
ghost use Rattle.loop_prog.specs.Paths.{at_start};
ghost use Rattle.loop_prog.specs.Serial.{param_regs, types_of_params};
ghost use Rattle.loop_prog.specs.declared.program.Kernel as declared;

use crate::flows::assign;
use crate::inspect::are_there;
use crate::kept::Kept;
use crate::kinds::{same_kind, view_type, word_kind};
use crate::paths::Paths;
use crate::program::{Kernel, Reg, Statement};
use crate::ranks::view_rank;
use krn_base::{Kind, NoMemory, ParamType, Seq, Text};
use std::alloc::Global;

/// The registers of parameters: the first scalar ones and the first view ones, each in order.
fn param_regs(alloc: Global, params: &[(Text, ParamType)]) -> Result<Seq<Reg>, NoMemory>
    ensures { IfOk result (λ regs. regs ≡ param_regs 0 0 (map (λ p. p.1) params.now)) }
{
    let mut regs = Seq::from_vec(Vec::with_capacity(alloc, params.len())?);
    let mut words: u32 = 0;
    let mut views: u32 = 0;
    for param in params {
        if words == u32::MAX || views == u32::MAX {
            return Err(NoMemory);
        }
        match param.1 {
            ParamType::Scalar(_) => {
                regs.push(Reg::Word(words))?;
                words += 1;
            }
            ParamType::Flat(_, _) => {
                regs.push(Reg::View(views))?;
                views += 1;
            }
            ParamType::Strided(_, _) => {
                regs.push(Reg::View(views))?;
                views += 1;
            }
        }
    }
    Ok(regs)
}

/// Whether a parameter's register has its kind.
fn param_kind(kernel: &Kernel, register: Reg, param: ParamType) -> bool
    ensures { result ≡ param_kind kernel.now (register, param) }
{
    match (register, param) {
        (Reg::Word(r), ParamType::Scalar(kind)) => same_kind(word_kind(kernel, r), kind),
        (Reg::View(v), ParamType::Flat(kind, _)) => same_kind(view_type(kernel, v).0, kind),
        (Reg::View(v), ParamType::Strided(kind, _)) => same_kind(view_type(kernel, v).0, kind),
        _ => true,
    }
}

/// Whether an array parameter's register has its rank.
fn param_rank(kernel: &Kernel, register: Reg, param: ParamType) -> bool
    ensures { result ≡ param_rank kernel.now (register, param) }
{
    match (register, param) {
        (Reg::View(v), ParamType::Flat(_, rank)) => view_rank(kernel, v) == rank,
        (Reg::View(v), ParamType::Strided(_, rank)) => view_rank(kernel, v) == rank,
        _ => true,
    }
}

/// Whether the registers of all parameters have their kinds.
fn param_kinds(kernel: &Kernel, regs: &[Reg], params: &[(Text, ParamType)]) -> bool
    ensures { result ≡ list_all (param_kind kernel.now) (zip regs.now (map (λ p. p.1) params.now)) }
{
    let mut left = regs;
    let mut wanted = params;
    while let [register, more @ ..] = left {
        let [param, rest @ ..] = wanted else {
            return true;
        };
        if !param_kind(kernel, *register, param.1) {
            return false;
        }
        left = more;
        wanted = rest;
    }
    true
}

/// Whether the registers of all array parameters have their ranks.
fn param_ranks(kernel: &Kernel, regs: &[Reg], params: &[(Text, ParamType)]) -> bool
    ensures { result ≡ list_all (param_rank kernel.now) (zip regs.now (map (λ p. p.1) params.now)) }
{
    let mut left = regs;
    let mut wanted = params;
    while let [register, more @ ..] = left {
        let [param, rest @ ..] = wanted else {
            return true;
        };
        if !param_rank(kernel, *register, param.1) {
            return false;
        }
        left = more;
        wanted = rest;
    }
    true
}

/// Whether an array may have this rank.
fn is_rank(rank: u8) -> bool
    ensures { result ≡ is_rank rank }
{
    0 < rank && rank <= 4
}

fn param_is_ranked(param: ParamType) -> bool
    ensures { result ≡ param_is_ranked param }
{
    match param {
        ParamType::Scalar(_) => true,
        ParamType::Flat(_, rank) => is_rank(rank),
        ParamType::Strided(_, rank) => is_rank(rank),
    }
}

/// Whether the ranks of array parameters are those of arrays.
fn params_are_ranked(params: &[(Text, ParamType)]) -> bool
    ensures { result ≡ list_all param_is_ranked (map (λ p. p.1) params.now) }
{
    for param in params {
        if !param_is_ranked(param.1) {
            return false;
        }
    }
    true
}

/// Whether the ranks of view registers are those of arrays.
fn views_are_ranked(views: &[(Kind, u8)]) -> bool
    ensures { result ≡ list_all (λ t. is_rank t.1) views.now }
{
    for view in views {
        if !is_rank(view.1) {
            return false;
        }
    }
    true
}

/// Whether the ranks of values are those of arrays or of words.
fn rets_are_ranked(rets: &[(Kind, u8)]) -> bool
    ensures { result ≡ list_all (λ t. nat_le t.1 4) rets.now }
{
    for ret in rets {
        if ret.1 > 4 {
            return false;
        }
    }
    true
}

/// Whether a kernel has its parameters' registers and a head of its own.
fn own_registers(kernel: &Kernel, regs: &[Reg], repeated: bool) -> bool
    ensures { result ≡ list_all (is_there kernel.now) regs.now && not repeated }
{
    are_there(kernel, regs) && !repeated
}

/// Whether a kernel's arrays have the ranks of arrays, and its parameters those of their registers.
fn own_ranks(kernel: &Kernel, regs: &[Reg]) -> bool
    ensures { result ≡
        (list_all param_is_ranked (types_of_params kernel.now) && (list_all (λ t. is_rank t.1) kernel.now.views
        && (list_all (λ t. nat_le t.1 4) kernel.now.rets
        && list_all (param_rank kernel.now) (zip regs.now (types_of_params kernel.now))))) }
{
    params_are_ranked(kernel.params.as_slice())
        && (views_are_ranked(kernel.views.as_slice())
            && (rets_are_ranked(kernel.rets.as_slice())
                && param_ranks(kernel, regs, kernel.params.as_slice())))
}

/// Whether a body has a statement.
fn has_some(body: &[Statement]) -> bool
    ensures { result ≡ has_some body.now }
{
    match body {
        [] => false,
        [_, ..] => true,
    }
}

/// The rules that a kernel keeps by itself, where its head is that of an earlier kernel or isn't.
pub fn kernel_keeps(alloc: Global, kernel: &Kernel, repeated: bool) -> Result<Kept, NoMemory>
    ensures { IfOk result (λ kept. (earlier : List declared.Kernel) →
        repeated ≡ list_any (same_head kernel.now) earlier → kept ≡ kernel_keeps earlier kernel.now) }
{
    let regs = param_regs(alloc, kernel.params.as_slice())?;
    let register = own_registers(kernel, regs.as_slice(), repeated);
    let kind = param_kinds(kernel, regs.as_slice(), kernel.params.as_slice());
    let rank = own_ranks(kernel, regs.as_slice());
    let returns = has_some(kernel.body.as_slice());
    Ok(Kept {
        register,
        kind,
        rank,
        assigned: true,
        template: true,
        nesting: true,
        returns,
    })
}

/// What is assigned where a kernel begins: its parameters.
pub fn at_start(alloc: Global, kernel: &Kernel) -> Result<Paths, NoMemory>
    ensures { IfOk result (λ start. start ≡ at_start kernel.now) }
{
    let count = kernel.regs.len().max(kernel.views.len());
    if count > u32::MAX as usize {
        return Err(NoMemory);
    }
    let regs = param_regs(alloc, kernel.params.as_slice())?;
    let mut start = Paths {
        reached: true,
        slots: none_assigned(alloc, 2 * count)?,
    };
    assign(regs.as_slice(), &mut start, &mut Seq::new(alloc))?;
    Ok(start)
}

/// As many tests, none of which holds.
fn none_assigned(alloc: Global, count: usize) -> Result<Seq<bool>, NoMemory>
    ensures { IfOk result (λ slots. slots ≡ replicate count false) }
{
    let mut slots = Seq::from_vec(Vec::with_capacity(alloc, count)?);
    for _slot in 0..count {
        slots.push(false)?;
    }
    Ok(slots)
}
