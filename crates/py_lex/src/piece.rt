//! The piece at the front of a text.

ghost use Rattle.std.specs.Prelude.{◌≡◌, ◌^◌, ◌<◌, ◌≤◌, length, slice_index, true, Option};
ghost use Rattle.py_lex.specs.Bytes as bytes;
ghost use Rattle.py_lex.specs.Pieces as spec;

use crate::bytes::{Set, before_line_end, is_in, line_end, run};
use crate::number::is_number;
use crate::quote::text_len;
use crate::token::TokenKind;
use crate::words::{is_keyword, operator_len};

/// What a piece of a source is.
#[derive(Clone, Copy, Debug, PartialEq, Eq)]
pub enum Class {
    Spaces,
    Tabs,
    LineEnd,
    /// A `\` and the line end behind it.
    Join,
    Comment,
    /// What begins no piece.
    Bad,
    /// A token that is written out.
    Solid(TokenKind),
}

/// A piece at the front of a text: what it is, and its length in bytes.
#[derive(Clone, Copy, Debug, PartialEq, Eq)]
pub struct Piece {
    pub class: Class,
    pub len: usize,
}

const BAD: Piece = Piece {
    class: Class::Bad,
    len: 1,
};

fn joined(z: &[u8]) -> Piece
    requires { 0 < length z.now }
    ensures value { result ≡ spec.joined z.now }
    ensures within { (1 ≤ result.len) × (result.len ≤ length z.now) }
{
    let end = line_end(&z[1..]);
    if z.len() == 1 || end != 0 {
        Piece {
            class: Class::Join,
            len: 1 + end,
        }
    } else {
        BAD
    }
}

fn numeral(z: &[u8]) -> Piece
    requires some { 0 < length z.now }
    requires digit { bytes.is_in Set.Digit (slice_index z.now 0) ≡ true }
    ensures value { result ≡ spec.numeral z.now }
    ensures within { (1 ≤ result.len) × (result.len ≤ length z.now) }
{
    let len = run(Set::Number, z);
    let class = if is_number(&z[..len]) {
        Class::Solid(TokenKind::Number)
    } else {
        Class::Bad
    };
    Piece { class, len }
}

fn word(z: &[u8]) -> Piece
    requires some { 0 < length z.now }
    requires letter { bytes.is_in Set.Word (slice_index z.now 0) ≡ true }
    ensures value { result ≡ spec.word z.now }
    ensures within { (1 ≤ result.len) × (result.len ≤ length z.now) }
{
    let len = run(Set::Word, z);
    let kind = if is_keyword(&z[..len]) {
        TokenKind::Keyword
    } else {
        TokenKind::Name
    };
    Piece {
        class: Class::Solid(kind),
        len,
    }
}

fn quoted(z: &[u8]) -> Piece
    requires some { 0 < length z.now }
    requires short { length z.now < 2 ^ 63 }
    ensures value { result ≡ spec.quoted z.now }
    ensures within { (1 ≤ result.len) × (result.len ≤ length z.now) }
{
    match text_len(z) {
        Some(len) => Piece {
            class: Class::Solid(TokenKind::Text),
            len,
        },
        None => BAD,
    }
}

fn mark(z: &[u8]) -> Piece
    requires { 0 < length z.now }
    ensures value { result ≡ spec.mark z.now }
    ensures within { (1 ≤ result.len) × (result.len ≤ length z.now) }
{
    let len = operator_len(z);
    if len == 0 {
        BAD
    } else {
        Piece {
            class: Class::Solid(TokenKind::Op),
            len,
        }
    }
}

fn run_of(class: Class, set: Set, z: &[u8]) -> Piece
    requires some { 0 < length z.now }
    requires first { bytes.is_in set (slice_index z.now 0) ≡ true }
    ensures value { result ≡ spec.piece_of class (bytes.run set z.now) }
    ensures within { (1 ≤ result.len) × (result.len ≤ length z.now) }
{
    Piece {
        class,
        len: run(set, z),
    }
}

/// The piece at the front of a text that isn't empty, the longest that stands there.
#[tactic(auto, unfolding(crate::specs::Pieces::piece))]
pub fn first_piece(z: &[u8]) -> Piece
    requires some { 0 < length z.now }
    requires short { length z.now < 2 ^ 63 }
    ensures value { result ≡ spec.piece z.now }
    ensures within { (1 ≤ result.len) × (result.len ≤ length z.now) }
{
    let end = line_end(z);
    if end != 0 {
        return Piece {
            class: Class::LineEnd,
            len: end,
        };
    }
    let first = z[0];
    if first == b' ' {
        run_of(Class::Spaces, Set::Space, z)
    } else if first == b'\t' {
        run_of(Class::Tabs, Set::Tab, z)
    } else if first == b'#' {
        Piece {
            class: Class::Comment,
            len: before_line_end(z),
        }
    } else if first == b'\\' {
        joined(z)
    } else if is_in(Set::Digit, first) {
        numeral(z)
    } else if is_in(Set::Word, first) {
        word(z)
    } else if first == b'\'' || first == b'"' {
        quoted(z)
    } else {
        mark(z)
    }
}
