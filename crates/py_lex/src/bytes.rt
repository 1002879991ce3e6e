//! Sets of bytes, and where lines end.

ghost use Rattle.std.specs.Prelude.{◌≡◌, ◌≢◌, ◌<◌, ◌≤◌, length, slice_index, true, ◌^◌};
ghost use Rattle.py_lex.specs.Bytes as spec;

/// A set of bytes that pieces of a source are made of.
#[derive(Clone, Copy, Debug, PartialEq, Eq)]
pub enum Set {
    Space,
    Tab,
    /// Spaces and tabs.
    Blank,
    Digit,
    Hexadecimal,
    /// Letters, digits and `_`, all in ASCII.
    Word,
    /// The bytes of a word and `.`.
    Number,
}

/// Whether the byte is of the set.
pub fn is_in(set: Set, b: u8) -> bool
    ensures { result ≡ spec.is_in set b }
{
    match set {
        Set::Space => b == b' ',
        Set::Tab => b == b'\t',
        Set::Blank => b == b' ' || b == b'\t',
        Set::Digit => b.is_ascii_digit(),
        Set::Hexadecimal => b.is_ascii_hexdigit(),
        Set::Word => b.is_ascii_alphanumeric() || b == b'_',
        Set::Number => b.is_ascii_alphanumeric() || (b == b'_' || b == b'.'),
    }
}

/// The byte at `at`, 0 past the end.
pub fn byte(z: &[u8], at: usize) -> u8
    ensures value { result ≡ slice_index z.now at }
    ensures within { result ≢ 0 → at < length z.now }
{
    if at < z.len() { z[at] } else { 0 }
}

/// How many bytes of the set stand at the front.
pub fn run(set: Set, z: &[u8]) -> usize
    ensures value { result ≡ spec.run set z.now }
    ensures within { result ≤ length z.now }
    ensures moves { 0 < length z.now → spec.is_in set (slice_index z.now 0) ≡ true → 1 ≤ result }
{
    let mut end = 0;
    while end < z.len() && is_in(set, z[end]) {
        end += 1;
    }
    end
}

/// Whether all bytes are of the set.
pub fn are_in(set: Set, z: &[u8]) -> bool
    ensures { result ≡ spec.are_in set z.now }
{
    z.iter().all(|b| is_in(set, *b))
}

/// How many bytes the line end at the front has, 0 where none stands there.
pub fn line_end(z: &[u8]) -> usize
    ensures value { result ≡ spec.line_end z.now }
    ensures within { result ≤ length z.now }
{
    if byte(z, 0) == b'\n' {
        1
    } else if byte(z, 0) == b'\r' && byte(z, 1) == b'\n' {
        2
    } else {
        0
    }
}

/// How many bytes stand before the next line end.
#[tactic(auto, unfolding(crate::specs::Bytes::before_line_end))]
pub fn before_line_end(mut z: &[u8]) -> usize
    requires { length z.now < 2 ^ 63 }
    ensures value { result ≡ spec.before_line_end z.entry.now }
    ensures within { result ≤ length z.entry.now }
    ensures moves { 0 < length z.entry.now → spec.line_end z.entry.now ≡ 0 → 1 ≤ result }
{
    let mut before = 0;
    while let [_, rest @ ..] = z {
        if line_end(z) != 0 {
            return before;
        }
        before += 1;
        z = rest;
    }
    before
}
