// Templates: postfix steps, and the kinds of their values.
ghost use Rattle.std.specs.Prelude.{◌≡◌, ◌<◌, ◌≤◌, IfOk, Option, Some, None, List, length, reverse, ℕ};
ghost use Rattle.std.specs.List.{list_all};
ghost use Rattle.loop_prog.specs.Conditions.{depth_after, is_one, kinds_fit, small_power, small_step, small_word};
ghost use Rattle.loop_prog.specs.Conditions.{some_views, steps_fit, takes, templates_fit};
ghost use Rattle.loop_prog.specs.Templates.{leaves};
ghost use Rattle.loop_prog.specs.declared.program.Statement.{out-Statement};

use crate::program::{Statement, Template, TemplateStep};
use eager_rules::WordOp;
use krn_base::UnOp;

/// The greatest number of steps of a template.
const MOST_STEPS: usize = 64;

/// How many values a step takes.
fn takes(step: TemplateStep) -> usize
    ensures value { result ≡ takes step }
    ensures few { result ≤ 3 }
{
    match step {
        TemplateStep::Un(_) => 1,
        TemplateStep::Bin(_) => 2,
        TemplateStep::Select => 3,
        TemplateStep::Leaf(_) | TemplateStep::Word(_) => 0,
    }
}

/// Whether the exponent of a power is at most 62.
fn small_power(op: UnOp) -> bool
    ensures { result ≡ small_power op }
{
    match op {
        UnOp::Pow(k) => k <= 62,
        UnOp::Neg | UnOp::Inv | UnOp::Flip | UnOp::Abs | UnOp::Test | UnOp::Copy => true,
    }
}

fn small_step(step: TemplateStep) -> bool
    ensures { result ≡ small_step step }
{
    match step {
        TemplateStep::Un(op) => small_power(op),
        TemplateStep::Bin(_)
        | TemplateStep::Select
        | TemplateStep::Leaf(_)
        | TemplateStep::Word(_) => true,
    }
}

fn small_steps(steps: &[TemplateStep]) -> bool
    ensures { result ≡ list_all small_step steps.now }
{
    for step in steps {
        if !small_step(*step) {
            return false;
        }
    }
    true
}

fn small_word(op: WordOp) -> bool
    ensures { result ≡ small_word op }
{
    match op {
        WordOp::Un(op) => small_power(op),
        WordOp::Bin(_) | WordOp::Move => true,
    }
}

/// Whether steps in postfix order make exactly one value.
fn makes_one(steps: &[TemplateStep]) -> bool
    requires { length steps.now ≤ 64 }
    ensures { result ≡ is_one (depth_after steps.now 0) }
{
    let mut depth: usize = 0;
    for step in steps {
        let taken = takes(*step);
        if taken > depth {
            return false;
        }
        depth = depth - taken + 1;
    }
    depth == 1
}

/// Whether a template has a leaf.
fn has_leaf(steps: &[TemplateStep]) -> bool
    ensures { result ≡ some_views (leaves steps.now) }
{
    for step in steps {
        if let TemplateStep::Leaf(_) = step {
            return true;
        }
    }
    false
}

/// Whether steps are a template: one value, small exponents, and not too many.
fn steps_fit(steps: &[TemplateStep]) -> bool
    ensures { result ≡ steps_fit steps.now }
{
    steps.len() <= MOST_STEPS && makes_one(steps) && small_steps(steps)
}

/// Whether the template of a statement, and the exponent of a scalar power, is one.
pub fn templates_fit(statement: &Statement) -> bool
    ensures { result ≡ templates_fit (out-Statement statement.now) }
{
    match statement {
        Statement::Set { op, .. } => small_word(*op),
        Statement::Nest { template, .. } => steps_fit(template.steps.as_slice()),
        Statement::Fold { template, .. } => {
            has_leaf(template.steps.as_slice()) && steps_fit(template.steps.as_slice())
        }
        _ => true,
    }
}
