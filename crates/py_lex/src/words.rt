//! Keywords, operators and the words of notes.

ghost use Rattle.std.specs.Prelude.{◌≡◌, ◌<◌, ◌≤◌, ◌+◌, length, map};
ghost use Rattle.std.specs.List.{list_any};
ghost use Rattle.std.specs.Str.{bytes_eq};
ghost use Rattle.py_lex.specs.Words as spec;

use crate::bytes::{Set, byte, is_in, run};

/// Python's keywords.
pub const KEYWORDS: [&[u8]; 35] = [
    b"False",
    b"None",
    b"True",
    b"and",
    b"as",
    b"assert",
    b"async",
    b"await",
    b"break",
    b"class",
    b"continue",
    b"def",
    b"del",
    b"elif",
    b"else",
    b"except",
    b"finally",
    b"for",
    b"from",
    b"global",
    b"if",
    b"import",
    b"in",
    b"is",
    b"lambda",
    b"nonlocal",
    b"not",
    b"or",
    b"pass",
    b"raise",
    b"return",
    b"try",
    b"while",
    b"with",
    b"yield",
];

/// The operators, brackets and marks that a module may hold.
pub const OPERATORS: [&[u8]; 36] = [
    b"**", b"//", b"<<", b">>", b"<=", b">=", b"==", b"!=", b"+=", b"-=", b"*=", b"//=", b"%=",
    b"<<=", b">>=", b"&=", b"|=", b"^=", b"+", b"-", b"*", b"%", b"&", b"|", b"^", b"~", b"<",
    b">", b"=", b"(", b")", b"[", b"]", b",", b":", b".",
];

fn contains(mut words: &[&[u8]], word: &[u8]) -> bool
    ensures { result ≡ list_any (bytes_eq word.now) (map (λ w. w.now) words.entry.now) }
{
    while let [first, others @ ..] = words {
        if word == *first {
            return true;
        }
        words = others;
    }
    false
}

/// Whether the word is one of Python's keywords.
pub fn is_keyword(word: &[u8]) -> bool
    ensures { result ≡ spec.is_keyword word.now }
{
    contains(&KEYWORDS, word)
}

fn longest(mut words: &[&[u8]], z: &[u8]) -> usize
    ensures value { result ≡ spec.longest (map (λ w. w.now) words.entry.now) z.now }
    ensures within { result ≤ length z.now }
{
    let mut best = 0;
    while let [first, others @ ..] = words {
        if z.starts_with(first) {
            best = best.max(first.len());
        }
        words = others;
    }
    best
}

/// The length of the longest operator at the front, 0 where none stands there.
pub fn operator_len(z: &[u8]) -> usize
    ensures value { result ≡ spec.longest spec.operators z.now }
    ensures within { result ≤ length z.now }
{
    longest(&OPERATORS, z)
}

fn is_first_word(word: &[u8], z: &[u8]) -> bool
    ensures { result ≡ spec.is_first_word word.now z.now }
{
    z.starts_with(word) && (z.len() == word.len() || is_in(Set::Blank, byte(z, word.len())))
}

/// Whether a comment is a note. Its first byte is `#`.
#[tactic(auto, unfolding(crate::specs::Words::is_note))]
pub fn is_note(comment: &[u8]) -> bool
    requires { 0 < length comment.now }
    ensures { result ≡ spec.is_note comment.now }
{
    let text = &comment[1..];
    let words = &text[run(Set::Blank, text)..];
    is_first_word(b"pythran", words) || is_first_word(b"omp", words)
}
