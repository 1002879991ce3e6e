//! The executor: statements by cases, blocks and loops.
ghost use Rattle.std.specs.Prelude.{◌≡◌, IfOk, map, true};
ghost use Rattle.std.specs.List.{All};
ghost use Rattle.array_ops.specs.Operands.{meaning_of};
ghost use Rattle.eager_rules.specs.Blocks.{Returned, for_each};
ghost use Rattle.eager_rules.specs.Running.{meanings};
ghost use Rattle.loop_exec.specs.Running.{end_of, numbers_of, reached};
ghost use Rattle.loop_exec.specs.Starts.{all_runnable, is_runnable};
ghost use Rattle.loop_prog.specs.Conditions.{steps_fit};
ghost use Rattle.loop_prog.specs.Serial.{block, meaning, set_variable};
ghost use Rattle.loop_prog.specs.State.{back_value, view};
ghost use Rattle.loop_prog.specs.Works.{nest as nest_of};
ghost use Rattle.eager_rules.specs.Works.{array_in};

use crate::fold::{count_nest, fold, kind_of};
use crate::nest::nest;
use crate::nested::Nested;
use crate::registers::{bind_view, bind_word, operand, view_in, word};
use crate::running::{Ending, Running};
use crate::statements;
use crate::turns::{Turns, range_of};
use array_ops::Operand;
use krn_base::{Fault, Kind, Loc, NoMemory, Seq};
use loop_prog::{Back, Statement, TemplateStep};
use std::alloc::Global;

/// A nest, which is counted where it ran.
fn run_nest(
    alloc: Global,
    to: u32,
    steps: &[TemplateStep],
    at: Loc,
    run: &mut Running,
) -> Result<Ending, NoMemory>
    requires { steps_fit steps.now ≡ true }
    ensures { IfOk result (λ e. (reached run.new, end_of e) ≡
        nest_of (array_in (view (reached run.old) to)) steps.now at (reached run.old)) }
{
    match nest(alloc, to, steps, &mut run.bank)? {
        Nested::Direct => {
            count_nest(false, &mut run.counts);
            Ok(Ending::GoesOn)
        }
        Nested::Temporary => {
            count_nest(true, &mut run.counts);
            Ok(Ending::GoesOn)
        }
        Nested::Unfit => Ok(Ending::Faulted(Fault::ValueError, at)),
    }
}

/// A value that a kernel returns.
fn back_value(run: &Running, back: &Back) -> Operand
    ensures { meaning_of result ≡ back_value (reached run.now) back.now }
{
    match back {
        Back::Word(x) => match operand(run.bank.words.as_slice(), *x) {
            Some(z) => Operand::Word(z),
            None => Operand::Unbound,
        },
        Back::View(v) => match view_in(run.bank.views.as_slice(), *v) {
            Some(view) => Operand::Array(view),
            None => Operand::Unbound,
        },
    }
}

/// The values that a kernel returns.
fn back_values(alloc: Global, run: &Running, backs: &[Back]) -> Result<Seq<Operand>, NoMemory>
    ensures { IfOk result (λ values. meanings values ≡ map (back_value (reached run.now)) backs.now) }
{
    let mut values = Seq::from_vec(Vec::with_capacity(alloc, backs.len())?);
    for back in backs {
        values.push(back_value(run, back))?;
    }
    Ok(values)
}

/// The statements of a block, one after another.
#[cycle(run)]
pub fn run_block(
    body: &[Statement],
    kinds: &[Kind],
    alloc: Global,
    run: &mut Running,
) -> Result<Ending, NoMemory>
    requires { all_runnable body.now ≡ true }
    ensures { IfOk result (λ e. (reached run.new, end_of e) ≡ block kinds.now body.now (reached run.old)) }
{
    each_runnable(body);
    for statement in body {
        match run_statement(statement, kinds, alloc, run)? {
            Ending::GoesOn => {}
            end => return Ok(end),
        }
    }
    Ok(Ending::GoesOn)
}

/// The test of a block holds of each of its statements.
fn each_runnable(body: &[Statement])
    requires { all_runnable body.now ≡ true }
    ensures { All (λ statement. is_runnable statement ≡ true) body.now }
{}

/// One statement.
#[cycle(run)]
fn run_statement(
    statement: &Statement,
    kinds: &[Kind],
    alloc: Global,
    run: &mut Running,
) -> Result<Ending, NoMemory>
    requires { is_runnable statement.now ≡ true }
    ensures { IfOk result (λ e. (reached run.new, end_of e) ≡ meaning kinds.now statement.now (reached run.old)) }
{
    match statement {
        Statement::Set { to, op, args, at } => {
            Ok(statements::set(*to, *op, args.as_slice(), *at, run))
        }
        Statement::Extent { to, of, axis } => Ok(statements::extent(*to, *of, *axis, run)),
        Statement::Get { to, of, index, at } => {
            statements::get(alloc, *to, *of, index.as_slice(), *at, run)
        }
        Statement::Put {
            of,
            index,
            value,
            at,
        } => statements::put(alloc, *of, index.as_slice(), *value, *at, run),
        Statement::ViewOf { to, of, subs, at } => {
            statements::view_of(*to, *of, subs.as_slice(), *at, run)
        }
        Statement::Flip { to, of } => Ok(statements::flip(*to, *of, run)),
        Statement::Same { to, of } => Ok(statements::same(*to, *of, run)),
        Statement::Fresh { to, dims, fill, at } => {
            statements::fresh(alloc, *to, dims.as_slice(), *fill, *at, run)
        }
        Statement::Like { to, views, at } => {
            statements::like(alloc, *to, views.as_slice(), *at, run)
        }
        Statement::Check { test, views, at } => {
            statements::check(*test, views.as_slice(), *at, run)
        }
        Statement::Nest { to, template, at } => {
            run_nest(alloc, *to, template.steps.as_slice(), *at, run)
        }
        Statement::Fold {
            to,
            join,
            template,
            at,
        } => {
            let kind = kind_of(kinds, *to);
            fold(*to, kind, *join, template.steps.as_slice(), *at, run)
        }
        Statement::If { cond, yes, no } => {
            if word(run.bank.words.as_slice(), *cond) == 0 {
                run_block(no.as_slice(), kinds, alloc, run)
            } else {
                run_block(yes.as_slice(), kinds, alloc, run)
            }
        }
        Statement::For {
            var,
            lo,
            hi,
            step,
            at,
            body,
        } => {
            match range_of(run.bank.words.as_slice(), *lo, *hi, *step) {
                Some(turns) => run_loop(body.as_slice(), kinds, alloc, *var, turns, run),
                None => Ok(Ending::Faulted(Fault::ValueError, *at)),
            }
        }
        // A program without parallel loops has none.
        Statement::ParFor { .. } => Ok(Ending::Stuck),
        Statement::Release { view } => {
            bind_view(&mut run.bank.views, *view as usize, None);
            Ok(Ending::GoesOn)
        }
        Statement::Return { values } => {
            Ok(Ending::Returned(back_values(alloc, run, values.as_slice())?))
        }
    }
}

/// A body once for each number of a range.
#[cycle(run)]
fn run_loop(
    body: &[Statement],
    kinds: &[Kind],
    alloc: Global,
    var: u32,
    turns: Turns,
    run: &mut Running,
) -> Result<Ending, NoMemory>
    requires { all_runnable body.now ≡ true }
    ensures { IfOk result (λ e. (reached run.new, end_of e) ≡
        for_each (set_variable var) (block kinds.now body.now) (numbers_of turns) (reached run.old)) }
{
    let most = turns.most;
    let mut left = turns;
    for _turn in 0..most {
        let Some(i) = left.take() else {
            return Ok(Ending::GoesOn);
        };
        bind_word(&mut run.bank.words, var as usize, Some(i));
        match run_block(body, kinds, alloc, run)? {
            Ending::GoesOn => {}
            end => return Ok(end),
        }
    }
    Ok(Ending::GoesOn)
}
