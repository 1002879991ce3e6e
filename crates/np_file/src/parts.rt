//! The parts of a header: signs, words, quoted texts and numbers, each with any number of spaces before it.

ghost use Rattle.std.specs.Prelude.{◌≡◌, ◌≤◌, ◌^◌, length, min, true};
ghost use Rattle.std.specs.List.{prefix_len, list_all};
ghost use Rattle.std.specs.Char.{is_ascii_digit};
ghost use Rattle.np_file.specs.Header.{is_plain};
ghost use Rattle.np_file.specs.Reading.{Gives, after_spaces, sign_at, word_at, quoted_by, quoted_at, digits_value};
ghost use Rattle.np_file.specs.Reading.{number_of, number_in, number_at};

/// One more than the greatest number that is read.
const BOUND: u64 = 1 << 63;

/// The text behind the spaces at its front.
pub fn skip_spaces(text: &[u8]) -> &[u8]
    ensures { result.now ≡ after_spaces text.now }
{
    let mut rest = text;
    while let [b' ', more @ ..] = rest {
        rest = more;
    }
    rest
}

/// What stands behind a sign.
#[tactic(auto, unfolding(crate::specs::Reading::sign_at))]
pub fn sign(text: &[u8], byte: u8) -> Option<&[u8]>
    ensures { Gives (λ rest. rest.now) result (sign_at byte text.now) }
{
    match skip_spaces(text) {
        [first, rest @ ..] if *first == byte => Some(rest),
        _ => None,
    }
}

/// What stands behind a word.
#[tactic(auto, unfolding(crate::specs::Reading::word_at))]
pub fn word<'a>(text: &'a [u8], own: &[u8]) -> Option<&'a [u8]>
    ensures { Gives (λ rest. rest.now) result (word_at own.now text.now) }
{
    skip_spaces(text).strip_prefix(own)
}

/// How many bytes at the front may stand between these quotes.
fn plain_len(text: &[u8], quote: u8) -> usize
    ensures value { result ≡ prefix_len (is_plain quote) text.now }
    ensures within { result ≤ length text.now }
{
    let mut len = 0;
    let mut rest = text;
    while let [byte, more @ ..] = rest {
        if *byte >= 128 || *byte == quote {
            break;
        }
        len += 1;
        rest = more;
    }
    len
}

/// The text up to the closing quote, and what stands behind it.
#[tactic(auto, unfolding(crate::specs::Reading::quoted_by))]
fn quoted_text(text: &[u8], quote: u8) -> Option<(&[u8], &[u8])>
    ensures { Gives (λ read. (read.0.now, read.1.now)) result (quoted_by quote text.now) }
{
    let (inner, rest) = text.split_at(plain_len(text, quote));
    match rest {
        [end, behind @ ..] if *end == quote => Some((inner, behind)),
        _ => None,
    }
}

/// An ASCII text in quotes of either kind, and what stands behind it.
#[tactic(auto, unfolding(crate::specs::Reading::quoted_at))]
pub fn quoted(text: &[u8]) -> Option<(&[u8], &[u8])>
    ensures { Gives (λ read. (read.0.now, read.1.now)) result (quoted_at text.now) }
{
    match skip_spaces(text) {
        [quote, rest @ ..] if *quote == b'\'' || *quote == b'"' => quoted_text(rest, *quote),
        _ => None,
    }
}

/// How many digits stand at the front.
fn digit_count(text: &[u8]) -> usize
    ensures value { result ≡ prefix_len is_ascii_digit text.now }
    ensures within { result ≤ length text.now }
{
    let mut len = 0;
    let mut rest = text;
    while let [byte, more @ ..] = rest {
        if !byte.is_ascii_digit() {
            break;
        }
        len += 1;
        rest = more;
    }
    len
}

/// The number of these digits, or the bound where it is greater.
fn bounded_value(digits: &[u8]) -> u64
    requires { list_all is_ascii_digit digits.now ≡ true }
    ensures { result ≡ min (digits_value digits.now) (2 ^ 63) }
{
    let mut value: u64 = 0;
    for digit in digits {
        value = value
            .saturating_mul(10)
            .saturating_add((*digit - b'0') as u64)
            .min(BOUND);
    }
    value
}

/// The number of these digits, without a leading zero and below the bound.
#[tactic(auto, unfolding(crate::specs::Reading::number_of))]
fn decimal_number(digits: &[u8]) -> Option<u64>
    requires { list_all is_ascii_digit digits.now ≡ true }
    ensures { Gives (λ n. n) result (number_of digits.now) }
{
    match digits {
        [] => return None,
        [b'0', _, ..] => return None,
        _ => {}
    }
    let value = bounded_value(digits);
    if value < BOUND { Some(value) } else { None }
}

/// A decimal number at the front, and what stands behind it.
#[tactic(auto, unfolding(crate::specs::Reading::number_in))]
fn unspaced_number(text: &[u8]) -> Option<(u64, &[u8])>
    ensures { Gives (λ read. (read.0, read.1.now)) result (number_in text.now) }
{
    let (digits, rest) = text.split_at(digit_count(text));
    let value = decimal_number(digits)?;
    Some((value, rest))
}

/// A decimal number, and what stands behind it.
#[tactic(auto, unfolding(crate::specs::Reading::number_at))]
pub fn number(text: &[u8]) -> Option<(u64, &[u8])>
    ensures { Gives (λ read. (read.0, read.1.now)) result (number_at text.now) }
{
    unspaced_number(skip_spaces(text))
}
