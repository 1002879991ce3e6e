ghost use Rattle.std.specs.Prelude.{◌≡◌, Option, Some, ℤ, true};
ghost use Rattle.std.specs.List.{list_any};
ghost use Rattle.std.specs.Fmt.{signed_decimal};
ghost use Rattle.std.specs.Str.{all_ascii_digits};
ghost use Rattle.call_binding.specs.Integers as Integers;
ghost use Rattle.call_binding.specs.Integers.{is_decimal, is_signed_decimal, is_word, integer};

/// Whether a text is decimal digits without a leading zero; `0` is, and the empty text isn't.
pub fn is_plain(text: &[u8]) -> bool
    ensures { result ≡ is_decimal text.now }
{
    match text {
        [] => false,
        [digit] => digit.is_ascii_digit(),
        [first, ..] => *first != b'0' && all_digits(text),
    }
}

fn is_no_digit(byte: &u8) -> bool
    ensures { result ≡ Integers.is_no_digit byte.now }
{
    !byte.is_ascii_digit()
}

fn any_other(text: &[u8]) -> bool
    ensures { result ≡ list_any Integers.is_no_digit text.now }
{
    text.iter().any(|byte| is_no_digit(byte))
}

#[tactic(auto, using(crate::proofs::Digits::none_other))]
fn all_digits(text: &[u8]) -> bool
    ensures { result ≡ all_ascii_digits text.now }
{
    !any_other(text)
}

/// Whether a text is such digits, after a `-` or none.
fn has_integer_form(text: &[u8]) -> bool
    ensures { result ≡ is_signed_decimal text.now }
{
    match text {
        [] => false,
        [b'-', digits @ ..] => is_plain(digits),
        [_, ..] => is_plain(text),
    }
}

/// The integer that a text is: decimal digits without a leading zero, after a `-` or none, whose number lies from
/// -2^63 to
/// 2^63-1. `-0` is one. None where the text is another one.
#[tactic(auto, using(crate::proofs::Digits::parsed, crate::proofs::Digits::printed))]
pub fn read_integer(text: &str) -> Option<i64>
    ensures value { result ≡ integer text.now }
    ensures printed { (z : ℤ) → is_word z ≡ true → integer (signed_decimal z) ≡ Some z }
{
    if has_integer_form(text.as_bytes()) {
        text.parse::<i64>().ok()
    } else {
        None
    }
}
