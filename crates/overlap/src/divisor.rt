//! The greatest common divisor of strides, and multiples of it.
ghost use Rattle.std.specs.Prelude.{◌≡◌, nat_lt, if◌then◌else◌, unsigned_abs};
ghost use Rattle.overlap.specs.Divisors.{gcd as gcd_of, is_multiple as is_multiple_of};
ghost use Rattle.overlap.specs.Verdicts.{of_spread, divisor as divisor_of};

use view_places::Spread;

/// The greatest common divisor of two numbers; of 0 and a number it is that number.
pub fn gcd(a: u64, b: u64) -> u64
    ensures { result ≡ gcd_of a b }
{
    let mut x = a;
    let mut y = b;
    while y != 0 {
        let rest = x % y;
        x = y;
        y = rest;
    }
    x
}

/// A divisor with the stride of one more dimension, where that is in use.
fn joined(divisor: u64, extent: u32, stride: i64) -> u64
    ensures { result ≡ (if nat_lt 1 extent then gcd_of divisor (unsigned_abs stride) else divisor) }
{
    if extent > 1 {
        gcd(divisor, stride.unsigned_abs())
    } else {
        divisor
    }
}

/// The greatest common divisor of the strides in use.
pub fn divisor(at: &Spread) -> u64
    ensures { result ≡ divisor_of (of_spread at.now).dims }
{
    let fourth = joined(0, at.extent[3], at.stride[3]);
    let third = joined(fourth, at.extent[2], at.stride[2]);
    let second = joined(third, at.extent[1], at.stride[1]);
    joined(second, at.extent[0], at.stride[0])
}

/// Whether a distance is a multiple; of 0 only 0 is one.
pub fn is_multiple(divisor: u64, distance: i128) -> bool
    ensures { result ≡ is_multiple_of divisor distance }
{
    if divisor == 0 {
        distance == 0
    } else {
        distance.unsigned_abs() % u128::from(divisor) == 0
    }
}
