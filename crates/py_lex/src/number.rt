//! Whether a run of letters and digits is a number, and its value.

ghost use Rattle.std.specs.Prelude.{◌≡◌, ◌^◌, min};
ghost use Rattle.py_lex.specs.Words as spec;

use crate::bytes::{Set, are_in};

/// No number of a module is as large.
const BOUND: u64 = 1 << 63;

fn digit_value(b: u8) -> u64
    ensures { result ≡ spec.digit_value b }
{
    if b <= b'9' {
        u64::from(b.saturating_sub(b'0'))
    } else if b <= b'F' {
        u64::from(b.saturating_sub(55))
    } else {
        u64::from(b.saturating_sub(87))
    }
}

// The value of the digits, cut at the bound.
fn decimal(digits: &[u8]) -> u64
    ensures { result ≡ min (spec.decimal_value digits.now) (2 ^ 63) }
{
    let mut value: u64 = 0;
    for b in digits {
        value = value
            .saturating_mul(10)
            .saturating_add(digit_value(*b))
            .min(BOUND);
    }
    value
}

fn hexadecimal(digits: &[u8]) -> u64
    ensures { result ≡ min (spec.hexadecimal_value digits.now) (2 ^ 63) }
{
    let mut value: u64 = 0;
    for b in digits {
        value = value
            .saturating_mul(16)
            .saturating_add(digit_value(*b))
            .min(BOUND);
    }
    value
}

fn below_bound(value: u64) -> Option<i64>
    ensures { result ≡ spec.below_bound (Some value) }
{
    if value < BOUND {
        Some(value as i64)
    } else {
        None
    }
}

fn is_decimal(text: &[u8]) -> bool
    ensures { result ≡ spec.is_decimal text.now }
{
    are_in(Set::Digit, text) && (text.len() == 1 || (!text.is_empty() && !(text[0] == b'0')))
}

fn is_hexadecimal(text: &[u8]) -> bool
    ensures { result ≡ spec.is_hexadecimal text.now }
{
    if text.starts_with(b"0x") || text.starts_with(b"0X") {
        let digits = &text[2..];
        !digits.is_empty() && are_in(Set::Hexadecimal, digits)
    } else {
        false
    }
}

/// The value of a number's text: `0`, decimal digits of which the first isn't 0, or `0x` and hexadecimal digits. `None`
/// for a number above 2^63-1, and for every text that is no number.
#[tactic(auto, using(crate::proofs::Numbers::below_bound_capped), unfolding(crate::specs::Words::number_value))]
pub fn number_value(text: &[u8]) -> Option<i64>
    ensures { result ≡ spec.below_bound (spec.number_value text.now) }
{
    if is_decimal(text) {
        below_bound(decimal(text))
    } else if is_hexadecimal(text) {
        below_bound(hexadecimal(&text[2..]))
    } else {
        None
    }
}

/// Whether the text is a number of at most 2^63-1.
#[tactic(auto, using(crate::proofs::Numbers::below_bound_some), unfolding(crate::specs::Words::is_number))]
pub fn is_number(text: &[u8]) -> bool
    ensures { result ≡ spec.is_number text.now }
{
    number_value(text).is_some()
}
