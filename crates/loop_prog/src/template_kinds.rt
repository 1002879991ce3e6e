// The kinds of a template's values, and of what each statement reads and binds.
ghost use Rattle.std.specs.Prelude.{◌≡◌, ◌∷◌, [], IfOk, List, Some, None, reverse};
ghost use Rattle.krn_base.specs.declared.kind.Kind.{Kind as AnyKind};
ghost use Rattle.loop_prog.specs.Conditions.{fold_takes, kinds_fit, push_kind, stack_takes, template_stack, with_kind};
ghost use Rattle.loop_prog.specs.Conditions.{view_type, word_kind};
ghost use Rattle.eager_rules.specs.Types.{may_store};
ghost use Rattle.loop_prog.specs.Judging.{stack_by, stack_of};
ghost use Rattle.loop_prog.specs.declared.program.Statement.{out-Statement};
ghost use Rattle.loop_prog.specs.declared.program.TemplateStep.TheVariants as step;

use crate::kinds::{
    bin_kind, is_count, is_kind, may_join, may_store, oper_kind, same_kind, select_kind, set_kind,
    unary_kind, view_type, word_kind,
};
use crate::program::{Kernel, Statement, TemplateStep};
use krn_base::{BinOp, Join, Kind, NoMemory, UnOp};
use std::alloc::Global;

/// What a step of a template comes to.
#[derive(Clone, Copy)]
pub enum Pushed {
    /// A value of a kind on the stack.
    Value,
    /// An operation that doesn't take its operands.
    Wrong,
    /// An operation for which there are too few values.
    Short,
}

/// The kinds of a template's values, where it has any.
#[derive(Drop)]
pub struct Stack {
    pub kinds: Vec<Kind>,
    pub state: Pushed,
}

/// The latest kind of a stack, taken off.
fn pop(stack: &mut Vec<Kind>) -> Option<Kind>
    ensures some { (a : AnyKind) → result ≡ Some a → reverse stack.old.items ≡ a ∷ reverse stack.new.items }
    ensures none { result ≡ None → reverse stack.old.items ≡ [] }
{
    stack.pop()
}

/// A kind put on a stack, where there is one.
fn push_found(found: Option<Kind>, stack: &mut Vec<Kind>) -> Result<Pushed, NoMemory>
    ensures { IfOk result (λ p. stack_by p (reverse stack.new.items) ≡ with_kind found (reverse stack.old.items)) }
{
    match found {
        Some(kind) => {
            match stack.push(kind) {
                Ok(()) => Ok(Pushed::Value),
                Err(_) => Err(NoMemory),
            }
        }
        None => Ok(Pushed::Wrong),
    }
}

/// An operation on the latest value.
fn push_unary(kernel: &Kernel, op: UnOp, stack: &mut Vec<Kind>) -> Result<Pushed, NoMemory>
    ensures { IfOk result (λ p. stack_by p (reverse stack.new.items) ≡
        push_kind kernel.now (step.Un op) (reverse stack.old.items)) }
{
    let Some(a) = pop(stack) else {
        return Ok(Pushed::Short);
    };
    push_found(unary_kind(op, a), stack)
}

/// An operation on the latest two values.
fn push_binary(kernel: &Kernel, op: BinOp, stack: &mut Vec<Kind>) -> Result<Pushed, NoMemory>
    ensures { IfOk result (λ p. stack_by p (reverse stack.new.items) ≡
        push_kind kernel.now (step.Bin op) (reverse stack.old.items)) }
{
    let Some(b) = pop(stack) else {
        return Ok(Pushed::Short);
    };
    let Some(a) = pop(stack) else {
        return Ok(Pushed::Short);
    };
    push_found(bin_kind(op, a, b), stack)
}

/// A choice among the latest three values.
fn push_select(kernel: &Kernel, stack: &mut Vec<Kind>) -> Result<Pushed, NoMemory>
    ensures { IfOk result (λ p. stack_by p (reverse stack.new.items) ≡
        push_kind kernel.now step.Select (reverse stack.old.items)) }
{
    let Some(b) = pop(stack) else {
        return Ok(Pushed::Short);
    };
    let Some(a) = pop(stack) else {
        return Ok(Pushed::Short);
    };
    let Some(mask) = pop(stack) else {
        return Ok(Pushed::Short);
    };
    push_found(select_kind(mask, a, b), stack)
}

/// The kinds behind one more step.
fn push_kind(kernel: &Kernel, step: TemplateStep, stack: &mut Vec<Kind>) -> Result<Pushed, NoMemory>
    ensures { IfOk result (λ p. stack_by p (reverse stack.new.items) ≡
        push_kind kernel.now step (reverse stack.old.items)) }
{
    match step {
        TemplateStep::Leaf(v) => push_found(Some(view_type(kernel, v).0), stack),
        TemplateStep::Word(x) => push_found(Some(oper_kind(kernel, x)), stack),
        TemplateStep::Un(op) => push_unary(kernel, op, stack),
        TemplateStep::Bin(op) => push_binary(kernel, op, stack),
        TemplateStep::Select => push_select(kernel, stack),
    }
}

/// The kinds of the values that a template leaves.
fn template_stack(alloc: Global, kernel: &Kernel, steps: &[TemplateStep]) -> Result<Stack, NoMemory>
    ensures { IfOk result (λ s. stack_of s ≡ template_stack kernel.now steps.now) }
{
    let mut kinds = Vec::new(alloc);
    for step in steps {
        match push_kind(kernel, *step, &mut kinds)? {
            Pushed::Value => {}
            Pushed::Wrong => {
                return Ok(Stack {
                    kinds,
                    state: Pushed::Wrong,
                });
            }
            Pushed::Short => {
                return Ok(Stack {
                    kinds,
                    state: Pushed::Short,
                });
            }
        }
    }
    Ok(Stack {
        kinds,
        state: Pushed::Value,
    })
}

/// Whether an array of a kind takes the value of a template.
fn nest_takes(array: Kind, stack: &Stack) -> bool
    ensures { result ≡ stack_takes (may_store array) (stack_of stack.now) }
{
    match stack.state {
        Pushed::Wrong => false,
        Pushed::Short => true,
        Pushed::Value => match stack.kinds.as_slice() {
            [a] => may_store(array, *a),
            _ => true,
        },
    }
}

/// Whether a register of a kind takes the join of a template's values.
#[tactic(auto, unfolding(crate::specs::Conditions::fold_takes))]
fn fold_takes(join: Join, register: Kind, stack: &Stack) -> bool
    ensures { result ≡ fold_takes join register (stack_of stack.now) }
{
    match stack.state {
        Pushed::Wrong => false,
        Pushed::Short => true,
        Pushed::Value => match stack.kinds.as_slice() {
            [a] => may_join(join, register, *a),
            _ => true,
        },
    }
}

/// Whether a view register takes the value of a template.
fn nest_kinds(
    alloc: Global,
    kernel: &Kernel,
    to: u32,
    steps: &[TemplateStep],
) -> Result<bool, NoMemory>
    ensures { IfOk result (λ fits. fits ≡
        stack_takes (may_store (view_type kernel.now to).0) (template_stack kernel.now steps.now)) }
{
    let stack = template_stack(alloc, kernel, steps)?;
    let array = view_type(kernel, to).0;
    Ok(nest_takes(array, &stack))
}

/// Whether a scalar register takes the join of a template's values.
fn fold_kinds(
    alloc: Global,
    kernel: &Kernel,
    to: u32,
    join: Join,
    steps: &[TemplateStep],
) -> Result<bool, NoMemory>
    ensures { IfOk result (λ fits. fits ≡
        fold_takes join (word_kind kernel.now to) (template_stack kernel.now steps.now)) }
{
    let stack = template_stack(alloc, kernel, steps)?;
    let register = word_kind(kernel, to);
    Ok(fold_takes(join, register, &stack))
}

/// Whether the kinds of a statement fit.
pub fn kinds_fit(alloc: Global, kernel: &Kernel, statement: &Statement) -> Result<bool, NoMemory>
    ensures { IfOk result (λ fits. fits ≡ kinds_fit kernel.now (out-Statement statement.now)) }
{
    match statement {
        Statement::Set { to, op, args, .. } => {
            let found = set_kind(kernel, *op, args.as_slice());
            Ok(is_kind(found, word_kind(kernel, *to)))
        }
        Statement::Extent { to, .. } => Ok(same_kind(word_kind(kernel, *to), Kind::Int64)),
        Statement::Get { to, of, .. } => {
            Ok(same_kind(word_kind(kernel, *to), view_type(kernel, *of).0))
        }
        Statement::Put { of, value, .. } => {
            Ok(may_store(view_type(kernel, *of).0, oper_kind(kernel, *value)))
        }
        Statement::ViewOf { to, of, .. } => {
            Ok(same_kind(view_type(kernel, *to).0, view_type(kernel, *of).0))
        }
        Statement::Flip { to, of } => Ok(same_kind(
            view_type(kernel, *to).0,
            view_type(kernel, *of).0,
        )),
        Statement::Same { to, of } => Ok(same_kind(
            view_type(kernel, *to).0,
            view_type(kernel, *of).0,
        )),
        Statement::Fresh { to, fill, .. } => {
            Ok(!is_count(*fill) || same_kind(view_type(kernel, *to).0, Kind::Int64))
        }
        Statement::Nest { to, template, .. } => {
            nest_kinds(alloc, kernel, *to, template.steps.as_slice())
        }
        Statement::Fold {
            to,
            join,
            template,
            ..
        } => fold_kinds(alloc, kernel, *to, *join, template.steps.as_slice()),
        Statement::If { cond, .. } => Ok(same_kind(oper_kind(kernel, *cond), Kind::Bool)),
        Statement::For { var, .. } => Ok(same_kind(word_kind(kernel, *var), Kind::Int64)),
        Statement::ParFor { var, .. } => Ok(same_kind(word_kind(kernel, *var), Kind::Int64)),
        Statement::Like { .. } => Ok(true),
        Statement::Check { .. } => Ok(true),
        Statement::Release { .. } => Ok(true),
        Statement::Return { .. } => Ok(true),
    }
}
