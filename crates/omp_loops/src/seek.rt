//! The first parallel loop of a program.
ghost use Rattle.std.specs.Prelude.{◌≡◌, ◌+◌, ◌++◌, IfOk, None, true};
ghost use Rattle.loop_prog.specs.Statements.{blocks_of, statements};
ghost use Rattle.loop_prog.specs.declared.program.Statement.{out-Statement};
ghost use Rattle.omp_loops.specs.Loops.{all_statements, place_of};
ghost use Rattle.omp_loops.specs.Seeking.{Sought};
ghost use Rattle.omp_loops.specs.Serial.{all_serial, kernels_serial};

use krn_base::{Loc, NoMemory};
use loop_prog::{Kernel, Statement};

/// The place of a parallel loop.
fn place_of(statement: &Statement) -> Option<Loc>
    ensures { result ≡ place_of (out-Statement statement.now) }
{
    match statement {
        Statement::ParFor { at, .. } => Some(*at),
        _ => None,
    }
}

/// One statement more.
fn count(number: &mut u32) -> Result<(), NoMemory>
    ensures { IfOk result (λ u. number.new ≡ number.old + 1) }
{
    if *number == u32::MAX {
        return Err(NoMemory);
    }
    *number += 1;
    Ok(())
}

/// The first parallel loop among the statements of a block, whose first one has this number.
#[cycle(seek)]
fn seek_in(body: &[Statement], number: &mut u32) -> Result<Option<Loc>, NoMemory>
    ensures { Sought result number.old number.new (statements body.now) (all_serial body.now) }
{
    for statement in body {
        if let Some(at) = place_of(statement) {
            return Ok(Some(at));
        }
        count(number)?;
        if let Some(at) = seek_below(statement, number)? {
            return Ok(Some(at));
        }
    }
    Ok(None)
}

/// The same among the statements of two blocks.
#[cycle(seek)]
fn seek_parts(
    yes: &[Statement],
    no: &[Statement],
    number: &mut u32,
) -> Result<Option<Loc>, NoMemory>
    ensures { Sought result number.old number.new (statements (yes.now ++ no.now)) (all_serial (yes.now ++ no.now)) }
{
    if let Some(at) = seek_in(yes, number)? {
        return Ok(Some(at));
    }
    seek_in(no, number)
}

/// The same among the statements of the blocks of one.
#[cycle(seek)]
fn seek_below(statement: &Statement, number: &mut u32) -> Result<Option<Loc>, NoMemory>
    ensures { Sought result number.old number.new (statements (blocks_of (out-Statement statement.now)))
        (all_serial (blocks_of (out-Statement statement.now))) }
{
    match statement {
        Statement::If { yes, no, .. } => seek_parts(yes.as_slice(), no.as_slice(), number),
        Statement::For { body, .. } => seek_in(body.as_slice(), number),
        Statement::ParFor { body, .. } => seek_in(body.as_slice(), number),
        _ => Ok(None),
    }
}

/// The first parallel loop of kernels, whose first statement has this number. Wants memory where there are 2^32
/// statements before it.
pub fn seek(kernels: &[Kernel], number: &mut u32) -> Result<Option<Loc>, NoMemory>
    ensures { Sought result number.old number.new (all_statements kernels.now) (kernels_serial kernels.now) }
{
    for kernel in kernels {
        if let Some(at) = seek_in(kernel.body.as_slice(), number)? {
            return Ok(Some(at));
        }
    }
    Ok(None)
}
