//! The tables of calls and attributes.

ghost use Rattle.std.specs.Prelude.{◌≡◌, length};
ghost use Rattle.module_terms.specs.Rows as spec;

use crate::term::{Operation, Term};
use array_ops::{Fill, RedOp};
use krn_base::{BinOp, Kind, Seq};
use py_parse::Name;

/// What a call with so many operands does.
#[derive(Clone, Copy, Debug)]
pub struct Row {
    pub operands: usize,
    pub operation: Operation,
}

/// The greatest exponent.
const GREATEST_EXPONENT: i64 = 62;

/// Whether a name is this word.
pub fn is_word(word: &[u8], name: &Name) -> bool
    ensures { result ≡ spec.is_word word.now name.now }
{
    name.text.as_slice() == word
}

fn taking(operands: usize, operation: Operation) -> Option<Row>
    ensures { result ≡ spec.taking operands operation }
{
    Some(Row {
        operands,
        operation,
    })
}

/// The row of a call of a built-in function.
pub fn built_in(name: &Name) -> Option<Row>
    ensures { result ≡ spec.built_in name.now }
{
    if is_word(b"len", name) {
        taking(1, Operation::Length)
    } else if is_word(b"abs", name) {
        taking(1, Operation::Abs)
    } else if is_word(b"min", name) {
        taking(2, Operation::Least(BinOp::Min))
    } else if is_word(b"max", name) {
        taking(2, Operation::Least(BinOp::Max))
    } else if is_word(b"int", name) {
        taking(1, Operation::ToInt)
    } else {
        None
    }
}

fn reduction(name: &Name) -> Option<RedOp>
    ensures { result ≡ spec.reduction name.now }
{
    if is_word(b"sum", name) {
        Some(RedOp::Sum)
    } else if is_word(b"prod", name) {
        Some(RedOp::Prod)
    } else if is_word(b"min", name) {
        Some(RedOp::Min)
    } else if is_word(b"max", name) {
        Some(RedOp::Max)
    } else if is_word(b"any", name) {
        Some(RedOp::Any)
    } else if is_word(b"all", name) {
        Some(RedOp::All)
    } else {
        None
    }
}

/// The row of a call of a method, whose first operand is what the method is asked of.
pub fn method(name: &Name) -> Option<Row>
    ensures { result ≡ spec.method name.now }
{
    if is_word(b"copy", name) {
        taking(1, Operation::Copy)
    } else {
        match reduction(name) {
            Some(op) => taking(1, Operation::Reduce(op)),
            None => None,
        }
    }
}

/// The row of a call of a function of `numpy` that makes no array of a shape.
pub fn numpy_function(name: &Name) -> Option<Row>
    ensures { result ≡ spec.numpy_function name.now }
{
    if is_word(b"abs", name) {
        taking(1, Operation::Abs)
    } else if is_word(b"minimum", name) {
        taking(2, Operation::Binary(BinOp::Min))
    } else if is_word(b"maximum", name) {
        taking(2, Operation::Binary(BinOp::Max))
    } else if is_word(b"where", name) {
        taking(3, Operation::Where)
    } else {
        method(name)
    }
}

/// What an attribute that isn't called gives of an array.
pub fn field(name: &Name) -> Operation
    ensures { result ≡ spec.field name.now }
{
    if is_word(b"T", name) {
        Operation::Transpose
    } else if is_word(b"size", name) {
        Operation::Size
    } else {
        Operation::None
    }
}

/// What a new array is filled with, by the function of `numpy` that makes it of a shape. `empty` gives zeros.
pub fn fill_of(name: &Name) -> Option<Fill>
    ensures { result ≡ spec.fill_of name.now }
{
    if is_word(b"zeros", name) {
        Some(Fill::Zero)
    } else if is_word(b"ones", name) {
        Some(Fill::One)
    } else if is_word(b"empty", name) {
        Some(Fill::Zero)
    } else {
        None
    }
}

/// The kind that a built-in name stands for.
pub fn own_kind(name: &Name) -> Option<Kind>
    ensures { result ≡ spec.own_kind name.now }
{
    if is_word(b"int", name) {
        Some(Kind::Int64)
    } else if is_word(b"bool", name) {
        Some(Kind::Bool)
    } else {
        None
    }
}

/// The kind that a name of `numpy` stands for.
pub fn numpy_kind(name: &Name) -> Option<Kind>
    ensures { result ≡ spec.numpy_kind name.now }
{
    if is_word(b"int64", name) {
        Some(Kind::Int64)
    } else if is_word(b"bool_", name) {
        Some(Kind::Bool)
    } else {
        None
    }
}

/// What a prefix operator does, by its byte.
pub fn sign(byte: u8) -> Operation
    ensures { result ≡ spec.sign byte }
{
    match byte {
        b'-' => Operation::Minus,
        b'+' => Operation::Plus,
        b'~' => Operation::Invert,
        _ => Operation::None,
    }
}

/// The power by an exponent from 0 to 62; no other one has a row.
pub fn power(exponent: i64) -> Operation
    ensures { result ≡ spec.power exponent }
{
    if exponent >= 0 && exponent <= GREATEST_EXPONENT {
        Operation::Power(exponent as u8)
    } else {
        Operation::None
    }
}

/// What a row does with so many operands; where the table has no such row, nothing.
pub fn settled(row: Option<Row>, operands: usize) -> Operation
    ensures { result ≡ spec.settled row operands }
{
    match row {
        Some(row) => {
            if row.operands == operands {
                row.operation
            } else {
                Operation::None
            }
        }
        None => Operation::None,
    }
}

/// A call at the place of the called name.
pub fn apply(row: Option<Row>, name: &Name, operands: Seq<Term>) -> Term
    ensures { result ≡ spec.apply row name.now operands }
{
    let operation = settled(row, operands.len());
    Term::Apply(operation, name.loc, operands)
}
