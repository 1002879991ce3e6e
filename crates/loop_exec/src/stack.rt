//! The values of a template's steps so far, the latest last. The steps are at most 64, and so are the values.
ghost use Rattle.std.specs.Prelude.{◌≡◌, ◌∷◌, [], ◌+◌, ◌<◌, ◌≤◌, ℕ, ℤ, List, Some, None, reverse, pos, true};
ghost use Rattle.std.specs.Prelude.{slice_index_or};
ghost use Rattle.array_ops.specs.Elements.{Bound, choose};
ghost use Rattle.arrayvec.specs.ArrayVec.{array_vec_len};
ghost use Rattle.loop_prog.specs.Conditions.{small_power};
ghost use Rattle.loop_prog.specs.Templates.{push as push_step};
ghost use Rattle.loop_prog.specs.declared.program.TemplateStep.TheVariants as step;

use arrayvec::ArrayVec;
use krn_base::{BinOp, UnOp, elem_op, un_op};

/// The values of a template's steps so far, the latest last.
pub type Stack = ArrayVec<i64, 64>;

/// The latest value, taken off.
fn pop(stack: &mut Stack) -> Option<i64>
    ensures some { (a : ℤ) → result ≡ Some a → reverse stack.old.items ≡ a ∷ reverse stack.new.items }
    ensures none { result ≡ None → reverse stack.old.items ≡ [] }
    ensures left { result ≡ None → reverse stack.new.items ≡ [] }
    ensures room { array_vec_len stack.new ≤ array_vec_len stack.old }
    ensures fewer { (a : ℤ) → result ≡ Some a → array_vec_len stack.new + 1 ≡ array_vec_len stack.old }
{
    stack.pop()
}

/// A value put on the others.
pub fn push(stack: &mut Stack, z: i64)
    requires { array_vec_len stack.old < 64 }
    ensures value { reverse stack.new.items ≡ z ∷ reverse stack.old.items }
    ensures room { array_vec_len stack.new ≡ array_vec_len stack.old + 1 }
{
    stack.push(z);
}

/// An operation on the latest value.
pub fn push_unary(op: UnOp, stack: &mut Stack)
    requires small { small_power op ≡ true }
    requires room { array_vec_len stack.old < 64 }
    ensures value { (words views : List Bound) (ns : List ℕ) (buffers : List (List ℤ)) (k : ℕ) →
        reverse stack.new.items ≡ push_step words views ns buffers k (step.Un op) (reverse stack.old.items) }
    ensures room { array_vec_len stack.new ≤ array_vec_len stack.old + 1 }
{
    let Some(a) = pop(stack) else {
        return;
    };
    push(stack, un_op(op, a));
}

/// An operation on the latest two values.
pub fn push_binary(op: BinOp, stack: &mut Stack)
    requires room { array_vec_len stack.old < 64 }
    ensures value { (words views : List Bound) (ns : List ℕ) (buffers : List (List ℤ)) (k : ℕ) →
        reverse stack.new.items ≡ push_step words views ns buffers k (step.Bin op) (reverse stack.old.items) }
    ensures room { array_vec_len stack.new ≤ array_vec_len stack.old + 1 }
{
    let Some(b) = pop(stack) else {
        return;
    };
    let Some(a) = pop(stack) else {
        return;
    };
    push(stack, elem_op(op, a, b));
}

/// The second of three values where the first isn't 0, else the third.
fn chosen(mask: i64, x: i64, y: i64) -> i64
    ensures { result ≡ choose (mask, (x, y)) }
{
    if mask == 0 { y } else { x }
}

/// A choice among the latest three values.
pub fn push_select(stack: &mut Stack)
    requires room { array_vec_len stack.old < 64 }
    ensures value { (words views : List Bound) (ns : List ℕ) (buffers : List (List ℤ)) (k : ℕ) →
        reverse stack.new.items ≡ push_step words views ns buffers k step.Select (reverse stack.old.items) }
    ensures room { array_vec_len stack.new ≤ array_vec_len stack.old + 1 }
{
    let Some(y) = pop(stack) else {
        return;
    };
    let Some(x) = pop(stack) else {
        return;
    };
    let Some(mask) = pop(stack) else {
        return;
    };
    push(stack, chosen(mask, x, y));
}

/// The latest value; 0 where there is none.
pub fn latest(stack: &Stack) -> i64
    ensures { result ≡ slice_index_or (reverse stack.now.items) 0 (pos 0) }
{
    match stack.as_slice() {
        [.., z] => *z,
        [] => 0,
    }
}
