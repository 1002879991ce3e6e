// Kinds of operands and results.
ghost use Rattle.std.specs.Prelude.{◌≡◌, map};
ghost use Rattle.eager_rules.specs.Types.{bin_kind, may_store, only, joint, same_kind, select_kind};
ghost use Rattle.loop_prog.specs.Conditions.{is_count, is_kind, is_sum, may_join, oper_kind};
ghost use Rattle.loop_prog.specs.Conditions.{set_kind, unary_kind, view_type, word_kind};

use crate::program::Kernel;
use array_ops::Fill;
use eager_rules::{Oper, WordOp};
use krn_base::{BinOp, Join, Kind, UnOp};

/// Whether two kinds are the same.
pub fn same_kind(a: Kind, b: Kind) -> bool
    ensures { result ≡ same_kind a b }
{
    match (a, b) {
        (Kind::Int64, Kind::Int64) | (Kind::Bool, Kind::Bool) => true,
        (Kind::Int64, Kind::Bool) | (Kind::Bool, Kind::Int64) => false,
    }
}

/// The kind of a scalar register.
pub fn word_kind(kernel: &Kernel, r: u32) -> Kind
    ensures { result ≡ word_kind kernel.now r }
{
    match kernel.regs.as_slice().get(r as usize) {
        Some(kind) => *kind,
        None => Kind::Int64,
    }
}

/// The kind and rank of a view register.
pub fn view_type(kernel: &Kernel, v: u32) -> (Kind, u8)
    ensures { result ≡ view_type kernel.now v }
{
    match kernel.views.as_slice().get(v as usize) {
        Some(view) => *view,
        None => (Kind::Int64, 0),
    }
}

/// The kind of an operand.
pub fn oper_kind(kernel: &Kernel, x: Oper) -> Kind
    ensures { result ≡ oper_kind kernel.now x }
{
    match x {
        Oper::Int(_) => Kind::Int64,
        Oper::Truth(_) => Kind::Bool,
        Oper::Name(r) => word_kind(kernel, r),
    }
}

/// The first kind where the second is that one, too.
fn only(wanted: Kind, kind: Kind) -> Option<Kind>
    ensures { result ≡ only wanted kind }
{
    match (wanted, kind) {
        (Kind::Int64, Kind::Int64) => Some(Kind::Int64),
        (Kind::Bool, Kind::Bool) => Some(Kind::Bool),
        (Kind::Int64, Kind::Bool) | (Kind::Bool, Kind::Int64) => None,
    }
}

/// The kind that an operation on two words gives.
pub fn bin_kind(op: BinOp, a: Kind, b: Kind) -> Option<Kind>
    ensures { result ≡ bin_kind op a b }
{
    match op {
        BinOp::Add
        | BinOp::Sub
        | BinOp::Mul
        | BinOp::FloorDiv
        | BinOp::Mod
        | BinOp::Shl
        | BinOp::Shr => {
            match (a, b) {
                (Kind::Bool, Kind::Bool) => None,
                (Kind::Int64, Kind::Int64)
                | (Kind::Int64, Kind::Bool)
                | (Kind::Bool, Kind::Int64) => Some(Kind::Int64),
            }
        }
        BinOp::And | BinOp::Or | BinOp::Xor | BinOp::Min | BinOp::Max => Some(joint(a, b)),
        BinOp::Eq | BinOp::Ne | BinOp::Lt | BinOp::Le | BinOp::Gt | BinOp::Ge => Some(Kind::Bool),
    }
}

/// Bool where both are.
fn joint(a: Kind, b: Kind) -> Kind
    ensures { result ≡ joint a b }
{
    match (a, b) {
        (Kind::Bool, Kind::Bool) => Kind::Bool,
        (Kind::Int64, Kind::Int64) | (Kind::Int64, Kind::Bool) | (Kind::Bool, Kind::Int64) => {
            Kind::Int64
        }
    }
}

/// The kind that an operation on one word gives, whatever the exponent of a power.
pub fn unary_kind(op: UnOp, a: Kind) -> Option<Kind>
    ensures { result ≡ unary_kind op a }
{
    match op {
        UnOp::Neg | UnOp::Inv | UnOp::Abs | UnOp::Pow(_) => only(Kind::Int64, a),
        UnOp::Flip => only(Kind::Bool, a),
        UnOp::Test => Some(Kind::Bool),
        UnOp::Copy => Some(a),
    }
}

/// The kind that a choice by a mask gives.
pub fn select_kind(mask: Kind, a: Kind, b: Kind) -> Option<Kind>
    ensures { result ≡ select_kind mask a b }
{
    match mask {
        Kind::Bool => Some(joint(a, b)),
        Kind::Int64 => None,
    }
}

/// The kind that a scalar operation gives; None for other operands or another number of them.
pub fn set_kind(kernel: &Kernel, op: WordOp, args: &[Oper]) -> Option<Kind>
    ensures { result ≡ set_kind op (map (oper_kind kernel.now) args.now) }
{
    match (op, args) {
        (WordOp::Bin(op), [a, b]) => bin_kind(op, oper_kind(kernel, *a), oper_kind(kernel, *b)),
        (WordOp::Un(op), [a]) => unary_kind(op, oper_kind(kernel, *a)),
        (WordOp::Move, [a]) => Some(oper_kind(kernel, *a)),
        _ => None,
    }
}

/// Whether there is a kind and it is this one.
pub fn is_kind(found: Option<Kind>, kind: Kind) -> bool
    ensures { result ≡ is_kind found kind }
{
    match found {
        Some(a) => same_kind(a, kind),
        None => false,
    }
}

/// Whether a value of one kind may be stored into an array of another.
pub fn may_store(array: Kind, value: Kind) -> bool
    ensures { result ≡ may_store array value }
{
    match (array, value) {
        (Kind::Bool, Kind::Int64) => false,
        (Kind::Bool, Kind::Bool) | (Kind::Int64, Kind::Bool) | (Kind::Int64, Kind::Int64) => true,
    }
}

/// Whether a register of a kind takes a join of values of another.
pub fn may_join(join: Join, register: Kind, value: Kind) -> bool
    ensures { result ≡ may_join join register value }
{
    match register {
        Kind::Int64 => true,
        Kind::Bool => !is_sum(join) && same_kind(value, Kind::Bool),
    }
}

fn is_sum(join: Join) -> bool
    ensures { result ≡ is_sum join }
{
    match join {
        Join::Sum => true,
        Join::Prod | Join::And | Join::Or | Join::Xor | Join::Max | Join::Min => false,
    }
}

/// Whether an array is filled with counting numbers.
pub fn is_count(fill: Fill) -> bool
    ensures { result ≡ is_count fill }
{
    match fill {
        Fill::Count => true,
        Fill::Zero | Fill::One => false,
    }
}
