//! Names, and the parts of a word.
ghost use Rattle.std.specs.Prelude.{◌≡◌, IfOk, option_map, codes, map};
ghost use Rattle.std.specs.List.{list_any};
ghost use Rattle.call_binding.specs.Integers.{between_commas};
ghost use Rattle.call_binding.specs.Reading as Reading;
ghost use Rattle.call_binding.specs.Reading.{is_name, cut, after};

use krn_base::{Seq, Text};
use std::alloc::{AllocError, Global};

fn begins_name(byte: u8) -> bool
    ensures { result ≡ Reading.begins_name byte }
{
    byte.is_ascii_alphabetic() || byte == b'_'
}

fn is_foreign(byte: &u8) -> bool
    ensures { result ≡ Reading.is_foreign byte.now }
{
    !(byte.is_ascii_alphanumeric() || *byte == b'_')
}

fn any_foreign(text: &[u8]) -> bool
    ensures { result ≡ list_any Reading.is_foreign text.now }
{
    text.iter().any(|byte| is_foreign(byte))
}

/// Whether a text is a letter or `_` with letters, digits and `_` behind it.
pub fn is_a_name(text: &[u8]) -> bool
    ensures { result ≡ is_name text.now }
{
    match text {
        [] => false,
        [first, rest @ ..] => begins_name(*first) && !any_foreign(rest),
    }
}

/// A copy of a text as its bytes.
pub fn to_text(alloc: Global, text: &str) -> Result<Text, AllocError>
    ensures { IfOk result (λ copy. copy ≡ text.now) }
{
    Ok(Seq::from_vec(Vec::from_slice(alloc, text.as_bytes())?))
}

/// The sides of the first `=`.
pub fn cut_equals(text: &str) -> Option<(&str, &str)>
    ensures { option_map (λ sides. (sides.0.now, sides.1.now)) result ≡ cut 61 text.now }
{
    text.split_once('=')
}

/// The sides of the first `:`.
pub fn cut_colon(text: &str) -> Option<(&str, &str)>
    ensures { option_map (λ sides. (sides.0.now, sides.1.now)) result ≡ cut 58 text.now }
{
    text.split_once(':')
}

fn cut_open_parenthesis(text: &str) -> Option<(&str, &str)>
    ensures { option_map (λ sides. (sides.0.now, sides.1.now)) result ≡ cut 40 text.now }
{
    text.split_once('(')
}

fn cut_close_parenthesis(text: &str) -> Option<(&str, &str)>
    ensures { option_map (λ sides. (sides.0.now, sides.1.now)) result ≡ cut 41 text.now }
{
    text.split_once(')')
}

fn cut_open_bracket(text: &str) -> Option<(&str, &str)>
    ensures { option_map (λ sides. (sides.0.now, sides.1.now)) result ≡ cut 91 text.now }
{
    text.split_once('[')
}

fn cut_close_bracket(text: &str) -> Option<(&str, &str)>
    ensures { option_map (λ sides. (sides.0.now, sides.1.now)) result ≡ cut 93 text.now }
{
    text.split_once(']')
}

/// What follows `buf:`.
pub fn after_buf(text: &str) -> Option<&str>
    ensures { option_map (λ rest. rest.now) result ≡ after (codes "buf:") text.now }
{
    text.strip_prefix("buf:")
}

/// What follows `npy:`.
pub fn after_npy(text: &str) -> Option<&str>
    ensures { option_map (λ rest. rest.now) result ≡ after (codes "npy:") text.now }
{
    text.strip_prefix("npy:")
}

/// What follows `out:`.
pub fn after_out(text: &str) -> Option<&str>
    ensures { option_map (λ rest. rest.now) result ≡ after (codes "out:") text.now }
{
    text.strip_prefix("out:")
}

/// What follows `@`.
pub fn after_at(text: &str) -> Option<&str>
    ensures { option_map (λ rest. rest.now) result ≡ after (codes "@") text.now }
{
    text.strip_prefix("@")
}

/// A text that may end in a part between brackets.
#[derive(Clone, Copy)]
pub struct Bracketed<'a> {
    /// What stands before the brackets.
    pub front: &'a str,
    /// What stands between them, where there are some.
    pub inner: Option<&'a str>,
}

/// The parts, by the sides of the closing bracket.
fn close<'a>(front: &'a str, sides: Option<(&'a str, &'a str)>) -> Option<Bracketed<'a>>
    ensures { option_map Reading.parts result
        ≡ Reading.closed front.now (option_map (λ sides. (sides.0.now, sides.1.now)) sides.entry) }
{
    match sides {
        Some((inner, "")) => Some(Bracketed {
            front,
            inner: Some(inner),
        }),
        _ => None,
    }
}

/// A text that may end in a part between parentheses. None where they aren't closed at its end.
pub fn in_parentheses(text: &str) -> Option<Bracketed<'_>>
    ensures { option_map Reading.parts result ≡ Reading.bracketed 40 41 text.now }
{
    match cut_open_parenthesis(text) {
        Some((front, rest)) => close(front, cut_close_parenthesis(rest)),
        None => Some(Bracketed {
            front: text,
            inner: None,
        }),
    }
}

/// A text that may end in a part between brackets. None where they aren't closed at its end.
pub fn in_brackets(text: &str) -> Option<Bracketed<'_>>
    ensures { option_map Reading.parts result ≡ Reading.bracketed 91 93 text.now }
{
    match cut_open_bracket(text) {
        Some((front, rest)) => close(front, cut_close_bracket(rest)),
        None => Some(Bracketed {
            front: text,
            inner: None,
        }),
    }
}

/// The texts between the commas, which are one more than the commas.
pub fn pieces<'a>(alloc: Global, text: &'a str) -> Result<Vec<&'a str>, AllocError>
    ensures { IfOk result (λ pieces. map (λ piece. piece.now) pieces.items ≡ between_commas text.now) }
{
    text.split(',').collect(alloc)
}
