// Templates of operations and reductions.
ghost use Rattle.std.specs.Prelude.{◌≡◌, ◌∷◌, ◌++◌, [], IfOk, map};
ghost use Rattle.lazy_expr.specs.Plain as spec;
ghost use Rattle.loop_prog.specs.Templates as templates;

use crate::registers::register;
use array_ops::{MapOp, RedOp};
use eager_rules::Oper;
use krn_base::{Join, NoMemory, Seq, UnOp};
use loop_prog::{Reg, TemplateStep};
use std::alloc::Global;

/// The step of an operand: a leaf for an array, else a word.
pub fn operand_step(table: &[Reg], x: Oper) -> TemplateStep
    ensures { result ≡ spec.operand_step table.now x }
{
    match x {
        Oper::Int(z) => TemplateStep::Word(Oper::Int(z)),
        Oper::Truth(b) => TemplateStep::Word(Oper::Truth(b)),
        Oper::Name(name) => match register(table, name) {
            Reg::Word(r) => TemplateStep::Word(Oper::Name(r)),
            Reg::View(v) => TemplateStep::Leaf(v),
        },
    }
}

/// The step of an operation.
fn operation_step(op: MapOp) -> TemplateStep
    ensures { result ≡ spec.operation_step op }
{
    match op {
        MapOp::Bin(op) => TemplateStep::Bin(op),
        MapOp::Un(op) => TemplateStep::Un(op),
        MapOp::Select => TemplateStep::Select,
    }
}

/// The steps of operands, in order.
fn operand_steps(alloc: Global, table: &[Reg], args: &[Oper]) -> Result<Seq<TemplateStep>, NoMemory>
    ensures { IfOk result (λ steps. steps ≡ map (spec.operand_step table.now) args.now) }
{
    let mut steps = Seq::new(alloc);
    for x in args {
        steps.push(operand_step(table, *x))?;
    }
    Ok(steps)
}

/// The steps of an element operation: its operands in order, then the operation.
pub fn map_steps(
    alloc: Global,
    table: &[Reg],
    op: MapOp,
    args: &[Oper],
) -> Result<Seq<TemplateStep>, NoMemory>
    ensures { IfOk result (λ steps. steps ≡ spec.map_steps table.now op args.now) }
{
    let mut steps = operand_steps(alloc, table, args)?;
    steps.push(operation_step(op))?;
    Ok(steps)
}

/// The one step of an array store.
pub fn store_steps(alloc: Global, table: &[Reg], x: Oper) -> Result<Seq<TemplateStep>, NoMemory>
    ensures { IfOk result (λ steps. steps ≡ spec.operand_step table.now x ∷ []) }
{
    let mut steps = Seq::new(alloc);
    steps.push(operand_step(table, x))?;
    Ok(steps)
}

/// The steps of a reduction of a view: `any` and `all` test each element for a word other than 0.
pub fn fold_steps(alloc: Global, op: RedOp, view: u32) -> Result<Seq<TemplateStep>, NoMemory>
    ensures { IfOk result (λ steps. steps ≡ spec.fold_steps op view) }
{
    let mut steps = Seq::new(alloc);
    steps.push(TemplateStep::Leaf(view))?;
    match op {
        RedOp::Any | RedOp::All => steps.push(TemplateStep::Un(UnOp::Test))?,
        RedOp::Sum | RedOp::Prod | RedOp::Min | RedOp::Max => {}
    }
    Ok(steps)
}

/// The join of a reduction.
pub fn join_of(op: RedOp) -> Join
    ensures { result ≡ spec.join_of op }
{
    match op {
        RedOp::Sum => Join::Sum,
        RedOp::Prod => Join::Prod,
        RedOp::Min => Join::Min,
        RedOp::Max => Join::Max,
        RedOp::Any => Join::Or,
        RedOp::All => Join::Prod,
    }
}

/// The view registers of the leaves of steps, in order, repeated ones too.
pub fn leaves(alloc: Global, steps: &[TemplateStep]) -> Result<Seq<u32>, NoMemory>
    ensures { IfOk result (λ views. views ≡ templates.leaves steps.now) }
{
    let mut views = Seq::new(alloc);
    for step in steps {
        if let TemplateStep::Leaf(view) = step {
            views.push(*view)?;
        }
    }
    Ok(views)
}
