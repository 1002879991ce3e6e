// What is assigned behind statements.
ghost use Rattle.std.specs.Prelude.{◌≡◌, ◌∷◌, [], IfOk};
ghost use Rattle.loop_prog.specs.Paths.{assign, block_flow, flow, head, meet, slot, with_slot};
ghost use Rattle.loop_prog.specs.Undo.{Undoes};
ghost use Rattle.loop_prog.specs.declared.program.Reg.TheVariants as reg;

use crate::joins::{go_back, go_to_head, go_to_meeting};
use crate::marks::{Mark, put_test};
use crate::paths::Paths;
use crate::program::{Reg, Statement};
use crate::registers::binds;
use krn_base::{NoMemory, Seq};
use std::alloc::Global;

/// The place of a register's test.
pub fn slot(register: Reg) -> usize
    ensures { result ≡ slot register }
{
    match register {
        Reg::Word(r) => 2 * r as usize,
        Reg::View(v) => 2 * v as usize + 1,
    }
}

/// Another test for a register; nothing changes where there is no place for it.
fn set_slot(
    register: Reg,
    assigned: bool,
    paths: &mut Paths,
    log: &mut Seq<Mark>,
) -> Result<(), NoMemory>
    ensures paths { IfOk result (λ u. paths.new ≡ with_slot (slot register) assigned paths.old) }
    ensures undo { IfOk result (λ u. Undoes log.new paths.new log.old paths.old) }
{
    let test = Mark {
        slot: slot(register),
        assigned,
    };
    put_test(test, &mut paths.slots, log)
}

/// Registers that are assigned from here on.
pub fn assign(regs: &[Reg], paths: &mut Paths, log: &mut Seq<Mark>) -> Result<(), NoMemory>
    ensures paths { IfOk result (λ u. paths.new ≡ assign regs.now paths.old) }
    ensures undo { IfOk result (λ u. Undoes log.new paths.new log.old paths.old) }
{
    for register in regs {
        set_slot(*register, true, paths, log)?;
    }
    Ok(())
}

/// Goes behind the statements of a block.
#[cycle(flow)]
fn flow_block(
    body: &[Statement],
    alloc: Global,
    paths: &mut Paths,
    log: &mut Seq<Mark>,
) -> Result<(), NoMemory>
    ensures paths { IfOk result (λ u. paths.new ≡ block_flow body.now paths.old) }
    ensures undo { IfOk result (λ u. Undoes log.new paths.new log.old paths.old) }
{
    for statement in body {
        flow(statement, alloc, paths, log)?;
    }
    Ok(())
}

/// Goes behind both parts of an `If`.
#[cycle(flow)]
fn flow_parts(
    yes: &[Statement],
    no: &[Statement],
    alloc: Global,
    paths: &mut Paths,
    log: &mut Seq<Mark>,
) -> Result<(), NoMemory>
    ensures paths { IfOk result (λ u. paths.new ≡ meet (block_flow yes.now paths.old) (block_flow no.now paths.old)) }
    ensures undo { IfOk result (λ u. Undoes log.new paths.new log.old paths.old) }
{
    let reached = paths.reached;
    let mut own = Seq::new(alloc);
    flow_block(yes, alloc, paths, &mut own)?;
    let first = go_back(alloc, reached, own.as_slice(), paths)?;
    let mut others = Seq::new(alloc);
    flow_block(no, alloc, paths, &mut others)?;
    go_to_meeting(alloc, &first, others.as_slice(), paths, log)
}

/// Goes to the head of a loop, by way of a turn.
#[cycle(flow)]
pub fn flow_loop(
    var: u32,
    body: &[Statement],
    alloc: Global,
    paths: &mut Paths,
    log: &mut Seq<Mark>,
) -> Result<(), NoMemory>
    ensures paths { IfOk result (λ u. paths.new ≡ head var (block_flow body.now) paths.old) }
    ensures undo { IfOk result (λ u. Undoes log.new paths.new log.old paths.old) }
{
    let reached = paths.reached;
    let mut own = Seq::new(alloc);
    assign(&[Reg::Word(var)], paths, &mut own)?;
    flow_block(body, alloc, paths, &mut own)?;
    go_to_head(alloc, reached, own.as_slice(), paths, log)
}

/// Goes behind a statement.
#[cycle(flow)]
pub fn flow(
    statement: &Statement,
    alloc: Global,
    paths: &mut Paths,
    log: &mut Seq<Mark>,
) -> Result<(), NoMemory>
    ensures paths { IfOk result (λ u. paths.new ≡ flow statement.now paths.old) }
    ensures undo { IfOk result (λ u. Undoes log.new paths.new log.old paths.old) }
{
    match statement {
        Statement::If { yes, no, .. } => {
            flow_parts(yes.as_slice(), no.as_slice(), alloc, paths, log)?;
        }
        Statement::For { var, body, .. } => {
            flow_loop(*var, body.as_slice(), alloc, paths, log)?;
        }
        Statement::ParFor { var, body, .. } => {
            flow_loop(*var, body.as_slice(), alloc, paths, log)?;
        }
        Statement::Release { view } => set_slot(Reg::View(*view), false, paths, log)?,
        Statement::Return { .. } => paths.reached = false,
        _ => {
            let regs = binds(alloc, statement)?;
            assign(regs.as_slice(), paths, log)?;
        }
    }
    Ok(())
}
