// The names of operations and reductions.
ghost use Rattle.std.specs.Prelude.{◌≡◌};
ghost use Rattle.cpp_print.specs.Words as spec;

use eager_rules::WordOp;
use krn_base::{BinOp, Join, UnOp};

/// The name of an operation on two words.
pub fn bin_name(op: BinOp) -> &'static [u8]
    ensures { result.now ≡ spec.bin_name op }
{
    match op {
        BinOp::Add => b"add",
        BinOp::Sub => b"sub",
        BinOp::Mul => b"mul",
        BinOp::FloorDiv => b"floordiv",
        BinOp::Mod => b"mod",
        BinOp::Shl => b"shl",
        BinOp::Shr => b"shr",
        BinOp::And => b"band",
        BinOp::Or => b"bor",
        BinOp::Xor => b"bxor",
        BinOp::Min => b"min",
        BinOp::Max => b"max",
        BinOp::Eq => b"eq",
        BinOp::Ne => b"ne",
        BinOp::Lt => b"lt",
        BinOp::Le => b"le",
        BinOp::Gt => b"gt",
        BinOp::Ge => b"ge",
    }
}

/// The name of an operation on one word.
pub fn un_name(op: UnOp) -> &'static [u8]
    ensures { result.now ≡ spec.un_name op }
{
    match op {
        UnOp::Neg => b"neg",
        UnOp::Inv => b"inv",
        UnOp::Flip => b"flip",
        UnOp::Abs => b"abs",
        UnOp::Test => b"test",
        UnOp::Copy => b"copy",
        UnOp::Pow(_) => b"pow",
    }
}

/// The name of an operation on scalars, or of a move.
pub fn word_op_name(op: WordOp) -> &'static [u8]
    ensures { result.now ≡ spec.word_op_name op }
{
    match op {
        WordOp::Bin(op) => bin_name(op),
        WordOp::Un(op) => un_name(op),
        WordOp::Move => b"move",
    }
}

/// A reduction in the name of a fold.
pub fn join_name(join: Join) -> &'static [u8]
    ensures { result.now ≡ spec.join_name join }
{
    match join {
        Join::Sum => b"sum",
        Join::Prod => b"prod",
        Join::And => b"and",
        Join::Or => b"or",
        Join::Xor => b"xor",
        Join::Max => b"max",
        Join::Min => b"min",
    }
}

/// A reduction in a clause of a parallel loop.
pub fn join_sign(join: Join) -> &'static [u8]
    ensures { result.now ≡ spec.join_sign join }
{
    match join {
        Join::Sum => b"+",
        Join::Prod => b"*",
        Join::And => b"&",
        Join::Or => b"|",
        Join::Xor => b"^",
        Join::Max => b"max",
        Join::Min => b"min",
    }
}
