// Which loop programs have a text.
ghost use Rattle.std.specs.Prelude.{◌≡◌, ◌≤◌, ◌+◌};
ghost use Rattle.std.specs.List.{list_all};
ghost use Rattle.loop_prog.specs.Conditions.{takes};
ghost use Rattle.loop_prog.specs.declared.program.Statement.{out-Statement};
ghost use Rattle.cpp_print.specs.Printable as spec;
ghost use Rattle.cpp_print.specs.Trees.{is_tree, tree_of};
ghost use Rattle.cpp_print.specs.Words.{operands_of};

use crate::names_fit::{names_fit, registers_fit};
use eager_rules::WordOp;
use loop_prog::{Kernel, LoopProgram, Statement, TemplateStep};

/// How many values a step takes.
fn takes(step: TemplateStep) -> usize
    ensures { result ≡ takes step }
{
    match step {
        TemplateStep::Un(_) => 1,
        TemplateStep::Bin(_) => 2,
        TemplateStep::Select => 3,
        TemplateStep::Leaf(_) | TemplateStep::Word(_) => 0,
    }
}

/// Whether steps are those of one tree.
fn is_one_tree(steps: &[TemplateStep]) -> bool
    ensures { result ≡ is_tree (tree_of steps.now) }
{
    let mut trees: usize = 0;
    for step in steps {
        let taken = takes(*step);
        if taken > trees {
            return false;
        }
        trees = trees - taken + 1;
    }
    trees == 1
}

fn operands_of(op: WordOp) -> usize
    ensures { result ≡ operands_of op }
{
    match op {
        WordOp::Bin(_) => 2,
        WordOp::Un(_) | WordOp::Move => 1,
    }
}

fn operands_fit(statement: &Statement) -> bool
    ensures { result ≡ spec.operands_fit (out-Statement statement.now) }
{
    match statement {
        Statement::Set { op, args, .. } => args.len() == operands_of(*op),
        _ => true,
    }
}

fn templates_are_trees(statement: &Statement) -> bool
    ensures { result ≡ spec.templates_are_trees (out-Statement statement.now) }
{
    match statement {
        Statement::Nest { template, .. } => is_one_tree(template.steps.as_slice()),
        Statement::Fold { template, .. } => is_one_tree(template.steps.as_slice()),
        _ => true,
    }
}

#[cycle(fits)]
fn block_printable(body: &[Statement], depth: usize) -> bool
    requires { depth ≤ 129 }
    ensures { result ≡ spec.block_printable body.now depth }
{
    for statement in body {
        if !statement_printable(statement, depth) {
            return false;
        }
    }
    true
}

/// Whether the blocks of a statement are printable, each of whose statements stands in `depth` others.
#[cycle(fits)]
fn blocks_printable(statement: &Statement, depth: usize) -> bool
    requires { depth ≤ 129 }
    ensures { result ≡ spec.inner_printable (out-Statement statement.now) depth }
{
    match statement {
        Statement::If { yes, no, .. } => {
            block_printable(yes.as_slice(), depth) && block_printable(no.as_slice(), depth)
        }
        Statement::For { body, .. } => block_printable(body.as_slice(), depth),
        Statement::ParFor { body, .. } => block_printable(body.as_slice(), depth),
        _ => true,
    }
}

#[cycle(fits)]
fn statement_printable(statement: &Statement, depth: usize) -> bool
    requires { depth ≤ 129 }
    ensures { result ≡ spec.is_printable_at statement.now depth }
{
    if depth > 128 {
        return false;
    }
    if !operands_fit(statement) {
        return false;
    }
    if !templates_are_trees(statement) {
        return false;
    }
    blocks_printable(statement, depth + 1)
}

fn kernel_printable(kernel: &Kernel) -> bool
    ensures { result ≡ spec.kernel_printable kernel.now }
{
    if !names_fit(kernel) {
        return false;
    }
    if !registers_fit(kernel) {
        return false;
    }
    block_printable(kernel.body.as_slice(), 0)
}

fn kernels_printable(kernels: &[Kernel]) -> bool
    ensures { result ≡ list_all spec.kernel_printable kernels.now }
{
    for kernel in kernels {
        if !kernel_printable(kernel) {
            return false;
        }
    }
    true
}

/// Whether a program has a text: each name is a letter or `_` and then letters, digits and `_`, each template is one
/// tree, each `Set` has as many operands as its operation takes, the parameters' registers have the parameters' kinds
/// and ranks, and no statement stands in more than 128 others. Takes the time of the program.
pub fn is_printable(program: &LoopProgram) -> bool
    ensures { result ≡ spec.is_printable program.now }
{
    kernels_printable(program.kernels.as_slice())
}
