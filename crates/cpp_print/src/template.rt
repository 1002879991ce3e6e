// Templates: from steps in postfix order to the nested form. It is written from its end, since a step of a template
// stands behind its operands, and its name before them.
ghost use Rattle.std.specs.Prelude.{◌≡◌, ◌++◌, ◌∷◌, [], true, IfOk, OnOk, option_and_then};
ghost use Rattle.cpp_print.specs.Backwards as spec;
ghost use Rattle.cpp_print.specs.Trees.{is_tree, template_text, tree_of};
ghost use Rattle.cpp_print.specs.Words.{oper_text, view_reg};
ghost use Rattle.loop_prog.specs.declared.program.TemplateStep.TheVariants as step;

use crate::front::Front;
use crate::names::{bin_name, un_name};
use crate::output::Output;
use crate::words::{Part, put_exponent, put_view_reg};
use eager_rules::Oper;
use krn_base::{BinOp, NoMemory, UnOp};
use loop_prog::TemplateStep;
use std::alloc::{AllocError, Global};
use std::marker::Model;

/// An operand that is being written.
#[derive(Clone, Copy, Debug, PartialEq, Eq)]
pub enum Operand {
    /// The operand of an operation on one word.
    Only(UnOp),
    Left(BinOp),
    Right(BinOp),
    Mask,
    Yes,
    No,
}

/// The operands that are being written, each an operand of an operation that is the one below it.
#[derive(Drop)]
struct Open {
    items: Vec<Operand>,
}

impl Model for Open {
    ghost use Rattle.std.specs.Prelude.{List, reverse};
    ghost use Rattle.cpp_print.specs.declared.template.Operand.{Operand};

    ghost Value = { List Operand };

    ghost view = { λ operands. reverse operands.items.items };
}

impl Open {
    ghost use Rattle.std.specs.Prelude.{Option, Some, None, List};
    ghost use Rattle.cpp_print.specs.Backwards.{IsPopped};

    fn new(alloc: Global) -> Open
        ensures { result ≡ [] }
    {
        Open {
            items: Vec::new(alloc),
        }
    }

    fn push(&mut self, operand: Operand) -> Result<(), AllocError>
        ensures { OnOk result (self.new ≡ operand ∷ self.old) }
    {
        self.items.push(operand)?;
        Ok(())
    }

    fn pop(&mut self) -> Option<Operand>
        ensures { IsPopped self.old result self.new }
    {
        self.items.pop()
    }
}

/// The operand to the left of one.
fn before(operand: Operand) -> Option<Operand>
    ensures { result ≡ spec.before operand }
{
    match operand {
        Operand::Right(op) => Some(Operand::Left(op)),
        Operand::No => Some(Operand::Yes),
        Operand::Yes => Some(Operand::Mask),
        Operand::Only(_) | Operand::Left(_) | Operand::Mask => None,
    }
}

fn operation(operand: Operand) -> &'static [u8]
    ensures { result.now ≡ spec.operation operand }
{
    match operand {
        Operand::Only(op) => un_name(op),
        Operand::Left(op) => bin_name(op),
        Operand::Right(op) => bin_name(op),
        Operand::Mask | Operand::Yes | Operand::No => b"select",
    }
}

/// Goes on where an operand is written.
fn close(front: &mut Front, operands: &mut Open) -> Result<(), NoMemory>
    ensures { OnOk result ((operands.new, front.new) ≡ spec.written operands.old front.old) }
{
    while let Some(operand) = operands.pop() {
        if let Some(next) = before(operand) {
            front.put(b", ")?;
            operands.push(next)?;
            return Ok(());
        }
        front.put_opening(operation(operand))?;
    }
    Ok(())
}

fn put_leaf(
    alloc: Global,
    front: &mut Front,
    operands: &mut Open,
    view: u32,
) -> Result<(), NoMemory>
    ensures { OnOk result ((operands.new, front.new) ≡ spec.written operands.old (view_reg view ++ front.old)) }
{
    let mut text = Output::new(alloc);
    put_view_reg(&mut text, view)?;
    let bytes = text.into_bytes();
    front.put(bytes.as_slice())?;
    close(front, operands)
}

fn put_word(alloc: Global, front: &mut Front, operands: &mut Open, x: Oper) -> Result<(), NoMemory>
    ensures { OnOk result ((operands.new, front.new) ≡ spec.written operands.old (oper_text x ++ front.old)) }
{
    let mut text = Output::new(alloc);
    x.write(&mut text)?;
    let bytes = text.into_bytes();
    front.put(bytes.as_slice())?;
    close(front, operands)
}

fn put_un(alloc: Global, front: &mut Front, operands: &mut Open, op: UnOp) -> Result<(), NoMemory>
    ensures { OnOk result ((operands.new, front.new) ≡
        spec.with_step_before (step.Un op) (operands.old, front.old)) }
{
    let mut text = Output::new(alloc);
    put_exponent(&mut text, op)?;
    let bytes = text.into_bytes();
    front.put(b")")?;
    front.put(bytes.as_slice())?;
    operands.push(Operand::Only(op))?;
    Ok(())
}

/// Writes a step where all behind it is written.
fn put_step(
    alloc: Global,
    front: &mut Front,
    operands: &mut Open,
    step: TemplateStep,
) -> Result<(), NoMemory>
    ensures { OnOk result ((operands.new, front.new) ≡ spec.with_step_before step (operands.old, front.old)) }
{
    match step {
        TemplateStep::Leaf(view) => put_leaf(alloc, front, operands, view),
        TemplateStep::Word(x) => put_word(alloc, front, operands, x),
        TemplateStep::Un(op) => put_un(alloc, front, operands, op),
        TemplateStep::Bin(op) => {
            front.put(b")")?;
            operands.push(Operand::Right(op))?;
            Ok(())
        }
        TemplateStep::Select => {
            front.put(b")")?;
            operands.push(Operand::No)?;
            Ok(())
        }
    }
}

/// The text of a template. Takes the time of its length.
fn nested(alloc: Global, steps: &[TemplateStep]) -> Result<Vec<u8>, NoMemory>
    requires { is_tree (tree_of steps.now) ≡ true }
    ensures { IfOk result (λ bytes. bytes.items ≡ template_text steps.now) }
{
    let mut front = Front::new(alloc);
    let mut operands = Open::new(alloc);
    for k in 0..steps.len() {
        let at = steps.len() - 1 - k;
        put_step(alloc, &mut front, &mut operands, steps[at])?;
    }
    Ok(front.into_bytes())
}

/// Writes a template.
pub fn put_template(out: &mut Output, steps: &[TemplateStep]) -> Result<(), NoMemory>
    requires { is_tree (tree_of steps.now) ≡ true }
    ensures { OnOk result (out.new ≡ out.old ++ template_text steps.now) }
{
    let bytes = nested(out.allocator(), steps)?;
    out.put(bytes.as_slice())
}
