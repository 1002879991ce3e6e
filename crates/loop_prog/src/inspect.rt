// The walk over the statements of a kernel, with the first one that breaks a rule.
ghost use Rattle.std.specs.Prelude.{◌≡◌, ◌<◌, ◌++◌, ◌∷◌, [], IfOk, map, true};
ghost use Rattle.std.specs.List.{list_all};
ghost use Rattle.loop_prog.specs.Check.{deeper, findings, kept_at, nesting_fits, returns_fit};
ghost use Rattle.loop_prog.specs.Conditions.{is_there};
ghost use Rattle.loop_prog.specs.Judging.{Judged, block_by, inner_by, placed};
ghost use Rattle.loop_prog.specs.Paths.{all_assigned, block_flow, body_start, flow, head, is_assigned, meet};
ghost use Rattle.loop_prog.specs.Undo.{Undoes};
ghost use Rattle.loop_prog.specs.declared.program.Statement.{out-Statement};

use crate::flows::{assign, flow, flow_loop, slot};
use crate::invalid::{CheckStop, InvalidRule};
use crate::joins::{go_back, go_to_meeting};
use crate::kept::{Kept, Site, first_broken};
use crate::marks::Mark;
use crate::paths::Paths;
use crate::program::{Kernel, Reg, Statement};
use crate::ranks::ranks_fit;
use crate::registers::{binds, named, reads};
use crate::template_kinds::kinds_fit;
use crate::templates::templates_fit;
use krn_base::{NoMemory, Seq};
use std::alloc::Global;

/// The greatest number of blocks around a statement with blocks of its own, and one more.
const DEPTH_LIMIT: u32 = 128;

/// Whether a kernel has a register.
pub fn is_there(kernel: &Kernel, register: Reg) -> bool
    ensures { result ≡ is_there kernel.now register }
{
    match register {
        Reg::Word(r) => (r as usize) < kernel.regs.len(),
        Reg::View(v) => (v as usize) < kernel.views.len(),
    }
}

/// Whether a kernel has all of these registers.
pub fn are_there(kernel: &Kernel, regs: &[Reg]) -> bool
    ensures { result ≡ list_all (is_there kernel.now) regs.now }
{
    for register in regs {
        if !is_there(kernel, *register) {
            return false;
        }
    }
    true
}

/// Whether a register is assigned on every path.
fn is_assigned(paths: &Paths, register: Reg) -> bool
    ensures { result ≡ is_assigned paths.now register }
{
    match paths.slots.as_slice().get(slot(register)) {
        Some(assigned) => *assigned,
        None => false,
    }
}

/// Whether all of these registers are assigned, where there is a path at all.
fn all_assigned(paths: &Paths, regs: &[Reg]) -> bool
    ensures { result ≡ all_assigned paths.now regs.now }
{
    if !paths.reached {
        return true;
    }
    for register in regs {
        if !is_assigned(paths, *register) {
            return false;
        }
    }
    true
}

/// Whether a statement with blocks stands in few enough others.
fn nesting_fits(site: Site, statement: &Statement) -> bool
    ensures { result ≡ nesting_fits site (out-Statement statement.now) }
{
    match statement {
        Statement::If { .. } => site.depth < DEPTH_LIMIT,
        Statement::For { .. } => site.depth < DEPTH_LIMIT,
        Statement::ParFor { .. } => site.depth < DEPTH_LIMIT,
        _ => true,
    }
}

/// Whether a statement may end its block, or stand before its end.
fn returns_fit(site: Site, statement: &Statement) -> bool
    ensures { result ≡ returns_fit site (out-Statement statement.now) }
{
    match statement {
        Statement::Return { .. } => site.ends,
        Statement::If { yes, no, .. } => !site.ends || (yes.len() != 0 && no.len() != 0),
        _ => !site.ends,
    }
}

/// The rules that a statement keeps by itself, where these paths come to it.
pub fn kept_at(
    statement: &Statement,
    kernel: &Kernel,
    site: Site,
    alloc: Global,
    paths: &Paths,
) -> Result<Kept, NoMemory>
    ensures { IfOk result (λ kept. kept ≡ kept_at kernel.now site paths.now (out-Statement statement.now)) }
{
    let read = reads(alloc, statement)?;
    let bound = binds(alloc, statement)?;
    let beside = named(alloc, statement)?;
    let kind = kinds_fit(alloc, kernel, statement)?;
    let read_there = are_there(kernel, read.as_slice());
    let bound_there = are_there(kernel, bound.as_slice());
    let beside_there = are_there(kernel, beside.as_slice());
    Ok(Kept {
        register: read_there && (bound_there && beside_there),
        kind,
        rank: ranks_fit(kernel, statement),
        assigned: all_assigned(paths, read.as_slice()),
        template: templates_fit(statement),
        nesting: nesting_fits(site, statement),
        returns: returns_fit(site, statement),
    })
}

/// Goes on behind a statement that keeps each rule; else it is refused at its number.
pub fn judge(kept: Kept, number: &mut u32) -> Result<(), CheckStop>
    ensures { Judged result number.old number.new (kept ∷ []) }
{
    if let Some(rule) = first_broken(kept) {
        return Err(CheckStop::Invalid { at: *number, rule });
    }
    if *number == u32::MAX {
        return Err(CheckStop::Memory);
    }
    *number += 1;
    Ok(())
}

/// Where a statement stands in a block whose last one stands at `site`.
pub fn placed(site: Site, last: bool) -> Site
    ensures { result ≡ placed site last }
{
    if last {
        return site;
    }
    Site {
        depth: site.depth,
        ends: false,
    }
}

/// Where the last statement of an inner block stands.
fn deeper(site: Site, ends: bool) -> Site
    requires { site.depth < 128 }
    ensures { result ≡ deeper site ends }
{
    Site {
        depth: site.depth + 1,
        ends,
    }
}

/// The statements of a block, of which the last stands at `site`. What is assigned goes from its start to its end.
#[cycle(inspect)]
pub fn inspect_block(
    body: &[Statement],
    kernel: &Kernel,
    site: Site,
    alloc: Global,
    paths: &mut Paths,
    log: &mut Seq<Mark>,
    number: &mut u32,
) -> Result<(), CheckStop>
    ensures judged { Judged result number.old number.new (block_by kernel.now body.now site paths.old) }
    ensures paths { IfOk result (λ u. paths.new ≡ block_flow body.now paths.old) }
    ensures undo { IfOk result (λ u. Undoes log.new paths.new log.old paths.old) }
{
    let mut seen: usize = 0;
    for statement in body {
        seen += 1;
        let place = placed(site, seen == body.len());
        if let Err(stop) = inspect(statement, kernel, place, alloc, paths, log, number) {
            return Err(stop);
        }
    }
    Ok(())
}

/// Both parts of an `If`.
#[cycle(inspect)]
fn inspect_parts(
    yes: &[Statement],
    no: &[Statement],
    kernel: &Kernel,
    site: Site,
    alloc: Global,
    paths: &mut Paths,
    log: &mut Seq<Mark>,
    number: &mut u32,
) -> Result<(), CheckStop>
    ensures judged { Judged result number.old number.new
        (block_by kernel.now yes.now site paths.old ++ block_by kernel.now no.now site paths.old) }
    ensures paths { IfOk result (λ u. paths.new ≡ meet (block_flow yes.now paths.old) (block_flow no.now paths.old)) }
    ensures undo { IfOk result (λ u. Undoes log.new paths.new log.old paths.old) }
{
    let reached = paths.reached;
    let mut own = Seq::new(alloc);
    if let Err(stop) = inspect_block(yes, kernel, site, alloc, paths, &mut own, number) {
        return Err(stop);
    }
    let first = go_back(alloc, reached, own.as_slice(), paths)?;
    let mut others = Seq::new(alloc);
    if let Err(stop) = inspect_block(no, kernel, site, alloc, paths, &mut others, number) {
        return Err(stop);
    }
    go_to_meeting(alloc, &first, others.as_slice(), paths, log)?;
    Ok(())
}

/// The body of a loop, from what is assigned at the loop's head, and back to there.
#[cycle(inspect)]
fn inspect_turn(
    var: u32,
    body: &[Statement],
    kernel: &Kernel,
    site: Site,
    alloc: Global,
    paths: &mut Paths,
    log: &mut Seq<Mark>,
    number: &mut u32,
) -> Result<(), CheckStop>
    ensures judged { Judged result number.old number.new
        (block_by kernel.now body.now site (body_start var (block_flow body.now) paths.old)) }
    ensures paths { IfOk result (λ u. paths.new ≡ head var (block_flow body.now) paths.old) }
    ensures undo { IfOk result (λ u. Undoes log.new paths.new log.old paths.old) }
{
    flow_loop(var, body, alloc, paths, log)?;
    let reached = paths.reached;
    let mut own = Seq::new(alloc);
    assign(&[Reg::Word(var)], paths, &mut own)?;
    if let Err(stop) = inspect_block(body, kernel, site, alloc, paths, &mut own, number) {
        return Err(stop);
    }
    go_back(alloc, reached, own.as_slice(), paths)?;
    Ok(())
}

/// The blocks of a statement, from before the statement to behind it.
#[cycle(inspect)]
fn inspect_inner(
    statement: &Statement,
    kernel: &Kernel,
    site: Site,
    alloc: Global,
    paths: &mut Paths,
    log: &mut Seq<Mark>,
    number: &mut u32,
) -> Result<(), CheckStop>
    requires { nesting_fits site (out-Statement statement.now) ≡ true }
    ensures judged { Judged result number.old number.new
        (inner_by kernel.now (out-Statement statement.now) site paths.old) }
    ensures paths { IfOk result (λ u. paths.new ≡ flow statement.now paths.old) }
    ensures undo { IfOk result (λ u. Undoes log.new paths.new log.old paths.old) }
{
    match statement {
        Statement::If { yes, no, .. } => {
            let inside = deeper(site, site.ends);
            let (yes, no) = (yes.as_slice(), no.as_slice());
            inspect_parts(yes, no, kernel, inside, alloc, paths, log, number)
        }
        Statement::For { var, body, .. } => {
            let inside = deeper(site, false);
            inspect_turn(
                *var,
                body.as_slice(),
                kernel,
                inside,
                alloc,
                paths,
                log,
                number,
            )
        }
        Statement::ParFor { var, body, .. } => {
            let inside = deeper(site, false);
            inspect_turn(
                *var,
                body.as_slice(),
                kernel,
                inside,
                alloc,
                paths,
                log,
                number,
            )
        }
        _ => {
            flow(statement, alloc, paths, log)?;
            Ok(())
        }
    }
}

/// A statement, and those of its blocks.
#[cycle(inspect)]
fn inspect(
    statement: &Statement,
    kernel: &Kernel,
    site: Site,
    alloc: Global,
    paths: &mut Paths,
    log: &mut Seq<Mark>,
    number: &mut u32,
) -> Result<(), CheckStop>
    ensures judged { Judged result number.old number.new (findings kernel.now statement.now site paths.old) }
    ensures paths { IfOk result (λ u. paths.new ≡ flow statement.now paths.old) }
    ensures undo { IfOk result (λ u. Undoes log.new paths.new log.old paths.old) }
{
    let kept = kept_at(statement, kernel, site, alloc, paths)?;
    if let Err(stop) = judge(kept, number) {
        return Err(stop);
    }
    inspect_inner(statement, kernel, site, alloc, paths, log, number)
}
