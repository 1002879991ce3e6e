// Operations on two words, and on one.
ghost use Rattle.std.specs.Prelude.{◌≡◌, ◌↔◌, ◌⊎◌, pos, ◌<ℤ◌, IfOk, IfErr, IsErrOf};
ghost use Rattle.krn_base.specs.Numbers.{element_result, scalar_result, unary_result, HasSmallExponent, IsDivision};
ghost use Rattle.krn_base.specs.Numbers.{IsShift};

use crate::fault::Fault;
use crate::operation::{BinOp, UnOp};
use crate::words;

/// The operation on one pair of elements. Sums and products wrap at 64 bits, comparisons are 1 or 0.
/// It never fails: by a divisor of 0 both `//` and `%` give 0, as NumPy does, and a shift by a count outside 0 to 63
/// leaves 0, or -1 where a negative word is shifted to the right (this project's rule).
pub fn elem_op(op: BinOp, a: i64, b: i64) -> i64
    ensures { result ≡ element_result op a b }
{
    match op {
        BinOp::Add => words::wrapping_sum(a, b),
        BinOp::Sub => words::wrapping_difference(a, b),
        BinOp::Mul => words::wrapping_product(a, b),
        BinOp::FloorDiv => words::quotient_or_zero(a, b),
        BinOp::Mod => words::rest_or_zero(a, b),
        BinOp::Shl => words::shifted_left(a, b),
        BinOp::Shr => words::shifted_right(a, b),
        BinOp::And => words::bits_and(a, b),
        BinOp::Or => words::bits_or(a, b),
        BinOp::Xor => words::bits_xor(a, b),
        BinOp::Min => a.min(b),
        BinOp::Max => a.max(b),
        BinOp::Eq => words::word_of_truth(words::is_equal(a, b)),
        BinOp::Ne => words::word_of_truth(!words::is_equal(a, b)),
        BinOp::Lt => words::word_of_truth(words::is_less(a, b)),
        BinOp::Le => words::word_of_truth(words::is_at_most(a, b)),
        BinOp::Gt => words::word_of_truth(words::is_less(b, a)),
        BinOp::Ge => words::word_of_truth(words::is_at_most(b, a)),
    }
}

/// The operation on two scalars, as Python has it but that results wrap at 64 bits: the same word as [`elem_op`], and a
/// fault where Python raises one.
///
/// `ZeroDivisionError` exactly at `FloorDiv` and `Mod` by 0, `ValueError` exactly at a negative shift count.
pub fn scalar_op(op: BinOp, a: i64, b: i64) -> Result<i64, Fault>
    ensures value { result ≡ scalar_result op a b }
    ensures agrees { IfOk result (λ word. word ≡ element_result op a b) }
    ensures zero_division { IsErrOf result Fault.ZeroDivisionError ↔ (IsDivision op × (b ≡ pos 0)) }
    ensures negative_count { IsErrOf result Fault.ValueError ↔ (IsShift op × (b <ℤ pos 0)) }
    ensures nothing_else { IfErr result (λ fault. (fault ≡ Fault.ZeroDivisionError) ⊎ (fault ≡ Fault.ValueError)) }
{
    match op {
        BinOp::FloorDiv | BinOp::Mod if b == 0 => Err(Fault::ZeroDivisionError),
        BinOp::Shl | BinOp::Shr if b < 0 => Err(Fault::ValueError),
        _ => Ok(elem_op(op, a, b)),
    }
}

/// The operation on one word. Negation, `Abs` and powers wrap: both the opposite and the `Abs` of the least word are
/// the least word. `Flip` and `Test` compare with 0. A power's exponent is at most 62.
pub fn un_op(op: UnOp, a: i64) -> i64
    requires { HasSmallExponent op }
    ensures { result ≡ unary_result op a }
{
    match op {
        UnOp::Neg => words::wrapping_opposite(a),
        UnOp::Inv => words::bits_not(a),
        UnOp::Flip => words::word_of_truth(words::is_nothing(a)),
        UnOp::Abs => words::wrapping_size(a),
        UnOp::Test => words::word_of_truth(!words::is_nothing(a)),
        UnOp::Copy => a,
        UnOp::Pow(exponent) => words::wrapping_power(a, exponent),
    }
}
