//! Calls that change nothing and can't fault.
ghost use Rattle.std.specs.Prelude.{◌≡◌, ◌&&◌, IfOk, Some, not};
ghost use Rattle.std.specs.List.{list_all, range_with_len};
ghost use Rattle.purity.specs.Answers.{may_write_in};
ghost use Rattle.inline.specs.Idle.{calm_by, calm_in, is_none};

use eager_rules::{Instance, Program};
use krn_base::NoMemory;
use purity::Effects;

/// Whether an instance writes none of its first parameters.
fn writes_none(effects: &Effects, number: u32, params: u32) -> bool
    ensures { result ≡ list_all (λ param. not (may_write_in effects.now number param)) (range_with_len 0 params) }
{
    for param in 0..params {
        if effects.writes(number, param) {
            return false;
        }
    }
    true
}

/// Whether an instance changes nothing and can't fault. Want of memory where it has 2^32 parameters or more.
fn is_calm(f: &Instance, effects: &Effects, number: u32) -> Result<bool, NoMemory>
    ensures { IfOk result (λ calm. calm ≡ calm_by effects.now number (Some f.now)) }
{
    let count = f.params.len();
    if count > u32::MAX as usize {
        return Err(NoMemory);
    }
    Ok(!effects.may_fault(number) && writes_none(effects, number, count as u32))
}

/// Whether the instance with a number changes nothing and can't fault.
fn is_calm_at(program: &Program, effects: &Effects, number: u32) -> Result<bool, NoMemory>
    ensures { IfOk result (λ calm. calm ≡ calm_in program.now effects.now number) }
{
    match program.instances.as_slice().get(number as usize) {
        Some(f) => is_calm(f, effects, number),
        None => Ok(false),
    }
}

/// Whether a call is left out: it names no value, and its function changes nothing and can't fault.
pub fn is_left_out(
    program: &Program,
    effects: &Effects,
    to: &[u32],
    number: u32,
) -> Result<bool, NoMemory>
    ensures { IfOk result (λ left. left ≡ (is_none to.now && calm_in program.now effects.now number)) }
{
    match to {
        [] => is_calm_at(program, effects, number),
        _ => Ok(false),
    }
}
