// The leaves of the operations on words: one equation each.
#![tactic(auto, using(std::proofs::lemmas::Int::wraps))]

ghost use Rattle.std.specs.Prelude.{◌≡◌, ◌≤◌, ◌<◌, ◌≢◌, ◌^◌, pos, neg_ℤ, ◌+ℤ◌, ◌-ℤ◌, ◌*ℤ◌, unsigned_abs, int_lt};
ghost use Rattle.std.specs.Prelude.{int_le, not};
ghost use Rattle.std.specs.Int.{w64, int_bit_and, int_bit_or, int_bit_xor};
ghost use Rattle.std.specs.Ordering.{int_eq};
ghost use Rattle.krn_base.specs.Numbers.{wrap, floor_div, floor_mod, or_zero, shift_left, shift_right, sign_fill};
ghost use Rattle.krn_base.specs.Numbers.{truth, is_zero, inverse, power};

/// The sum, wrapped at 64 bits.
pub(crate) fn wrapping_sum(a: i64, b: i64) -> i64
    ensures { result ≡ wrap (a +ℤ b) }
{
    a.wrapping_add(b)
}

/// The difference, wrapped at 64 bits.
pub(crate) fn wrapping_difference(a: i64, b: i64) -> i64
    ensures { result ≡ wrap (a -ℤ b) }
{
    a.wrapping_sub(b)
}

/// The product, wrapped at 64 bits.
pub(crate) fn wrapping_product(a: i64, b: i64) -> i64
    ensures { result ≡ wrap (a *ℤ b) }
{
    a.wrapping_mul(b)
}

/// The opposite, wrapped at 64 bits: that of the least word is the least word.
pub(crate) fn wrapping_opposite(a: i64) -> i64
    ensures { result ≡ wrap (neg_ℤ a) }
{
    a.wrapping_neg()
}

/// The word with the same 64 bits.
pub(crate) fn word_of(n: u64) -> i64
    ensures { result ≡ wrap (pos n) }
{
    n.cast_signed()
}

/// The distance from 0, wrapped at 64 bits: that of the least word is the least word.
pub(crate) fn wrapping_size(a: i64) -> i64
    ensures { result ≡ wrap (pos (unsigned_abs a)) }
{
    word_of(a.unsigned_abs())
}

/// The floor of the exact quotient, wrapped at 64 bits (Python's `//`): where the signs differ it is away from 0.
pub(crate) fn floor_quotient(a: i64, b: i64) -> i64
    requires { b ≢ pos 0 }
    ensures { result ≡ wrap (floor_div a b) }
{
    let size = a.unsigned_abs();
    let divisor = b.unsigned_abs();
    if (a < 0) == (b < 0) {
        word_of(size / divisor)
    } else {
        wrapping_opposite(word_of(size.div_ceil(divisor)))
    }
}

/// What the floor of the quotient leaves of `a`: 0, or a number on `b`'s side of 0 (Python's `%`).
pub(crate) fn floor_rest(a: i64, b: i64) -> i64
    requires { b ≢ pos 0 }
    ensures { result ≡ wrap (floor_mod a b) }
{
    wrapping_difference(a, wrapping_product(b, floor_quotient(a, b)))
}

/// Python's `//`, and 0 by 0, as NumPy has it for elements.
pub(crate) fn quotient_or_zero(a: i64, b: i64) -> i64
    ensures { result ≡ or_zero b (wrap (floor_div a b)) }
{
    if b == 0 { 0 } else { floor_quotient(a, b) }
}

/// Python's `%`, and 0 by 0, as NumPy has it for elements.
pub(crate) fn rest_or_zero(a: i64, b: i64) -> i64
    ensures { result ≡ or_zero b (wrap (floor_mod a b)) }
{
    if b == 0 { 0 } else { floor_rest(a, b) }
}

/// The product with a power of two, wrapped at 64 bits.
fn left_by(a: i64, count: u32) -> i64
    requires { count < 64 }
    ensures { result ≡ wrap (a *ℤ pos (2 ^ count)) }
{
    a.wrapping_shl(count)
}

/// The floor of the quotient by a power of two.
fn right_by(a: i64, count: u32) -> i64
    requires { count < 64 }
    ensures { result ≡ floor_div a (pos (2 ^ count)) }
{
    a >> count
}

/// The word each of whose bits is the sign of `a`: 0 or -1.
fn filled_by_sign(a: i64) -> i64
    ensures { result ≡ sign_fill a }
{
    if a < 0 { -1 } else { 0 }
}

/// `<<` by a count from 0 to 63, and 0 by any other.
pub(crate) fn shifted_left(a: i64, count: i64) -> i64
    ensures { result ≡ shift_left a count }
{
    if count < 0 || count >= 64 {
        0
    } else {
        left_by(a, count as u32)
    }
}

/// `>>` by a count from 0 to 63, and the sign by any other: 0 or -1.
pub(crate) fn shifted_right(a: i64, count: i64) -> i64
    ensures { result ≡ shift_right a count }
{
    if count < 0 || count >= 64 {
        filled_by_sign(a)
    } else {
        right_by(a, count as u32)
    }
}

/// `&`, bit by bit in two's complement.
pub(crate) fn bits_and(a: i64, b: i64) -> i64
    ensures { result ≡ int_bit_and w64 a b }
{
    a & b
}

/// `|`, bit by bit in two's complement.
pub(crate) fn bits_or(a: i64, b: i64) -> i64
    ensures { result ≡ int_bit_or w64 a b }
{
    a | b
}

/// `^`, bit by bit in two's complement.
pub(crate) fn bits_xor(a: i64, b: i64) -> i64
    ensures { result ≡ int_bit_xor w64 a b }
{
    a ^ b
}

/// `~`: every bit turned over, which is -a - 1.
pub(crate) fn bits_not(a: i64) -> i64
    ensures { result ≡ inverse a }
{
    !a
}

/// 1 where it holds, else 0.
pub(crate) fn word_of_truth(holds: bool) -> i64
    ensures { result ≡ truth holds }
{
    if holds { 1 } else { 0 }
}

/// Whether the words are the same.
pub(crate) fn is_equal(a: i64, b: i64) -> bool
    ensures { result ≡ int_eq a b }
{
    a == b
}

/// Whether the word is 0.
pub(crate) fn is_nothing(a: i64) -> bool
    ensures { result ≡ is_zero a }
{
    a == 0
}

/// Whether the first word is below the second.
pub(crate) fn is_less(a: i64, b: i64) -> bool
    ensures { result ≡ int_lt a b }
{
    a < b
}

/// Whether the first word is not above the second.
pub(crate) fn is_at_most(a: i64, b: i64) -> bool
    ensures { result ≡ int_le a b }
{
    a <= b
}

/// The product of as many `a` as the exponent says, from 1, wrapped at 64 bits.
pub(crate) fn wrapping_power(a: i64, exponent: u8) -> i64
    ensures { result ≡ wrap (power a exponent) }
{
    a.wrapping_pow(u32::from(exponent))
}
