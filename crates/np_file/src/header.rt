//! The header of an array file: a dictionary of three entries.

ghost use Rattle.std.specs.Prelude.{◌≡◌, ◌∷◌, []};
ghost use Rattle.np_file.specs.Reading.{Gives, number_or_end, step_at, numbers_at, tuple_at, truth_at, descr_at};
ghost use Rattle.np_file.specs.Reading.{order_at, shape_at, value_at, field_at, ended, ends_at, fields_at, header_at};
ghost use Rattle.np_file.specs.Reading.{sign_at};
ghost use Rattle.np_file.specs.Header.{arranged};
ghost use Rattle.np_file.specs.Views.{numbers, view_step, view_entry, view_header};

use crate::numbers::Numbers;
use crate::parts::{number, quoted, sign, skip_spaces, word};

/// What stands behind a number of a shape: another number, or the end of the shape.
#[derive(Clone, Copy)]
enum AfterNumber<'a> {
    Number(u64, &'a [u8]),
    End(&'a [u8]),
}

/// One entry of the dictionary.
#[derive(Clone, Copy)]
enum Entry<'a> {
    Descr(&'a [u8]),
    Order(bool),
    Shape(Numbers),
}

/// What a header says.
#[derive(Clone, Copy)]
pub struct Header<'a> {
    /// The name of the element type.
    pub descr: &'a [u8],
    /// Whether the first index runs fastest.
    pub first_fastest: bool,
    /// The extents.
    pub shape: Numbers,
}

fn end_or_number(text: &[u8]) -> Option<AfterNumber<'_>>
    ensures { Gives view_step result (number_or_end text.now (sign_at 41 text.now)) }
{
    if let Some(rest) = sign(text, b')') {
        return Some(AfterNumber::End(rest));
    }
    let (value, rest) = number(text)?;
    Some(AfterNumber::Number(value, rest))
}

/// What stands behind the number `count` of a shape. A single number has a comma behind it.
#[tactic(auto, unfolding(crate::specs::Reading::step_at))]
fn after_number(text: &[u8], count: usize) -> Option<AfterNumber<'_>>
    ensures { Gives view_step result (step_at count text.now) }
{
    if let Some(rest) = sign(text, b',') {
        return end_or_number(rest);
    }
    let rest = sign(text, b')')?;
    if count >= 2 {
        Some(AfterNumber::End(rest))
    } else {
        None
    }
}

/// The numbers of a shape behind its first one.
fn more_numbers(first: u64, text: &[u8]) -> Option<(Numbers, &[u8])>
    ensures { Gives (λ read. (numbers read.0, read.1.now)) result (numbers_at 4 (first ∷ []) text.now) }
{
    let mut count = 1;
    let mut number = [first, 1, 1, 1];
    let mut rest = text;
    for _turn in 0..3usize {
        match after_number(rest, count)? {
            AfterNumber::End(behind) => return Some((Numbers { count, number }, behind)),
            AfterNumber::Number(value, behind) => {
                number[count] = value;
                count += 1;
                rest = behind;
            }
        }
    }
    match after_number(rest, count)? {
        AfterNumber::End(behind) => Some((Numbers { count, number }, behind)),
        AfterNumber::Number(..) => None,
    }
}

/// A tuple of one to four numbers, and what stands behind it.
#[tactic(auto, unfolding(crate::specs::Reading::tuple_at))]
fn tuple(text: &[u8]) -> Option<(Numbers, &[u8])>
    ensures { Gives (λ read. (numbers read.0, read.1.now)) result (tuple_at text.now) }
{
    let text = sign(text, b'(')?;
    let (first, text) = number(text)?;
    more_numbers(first, text)
}

#[tactic(auto, unfolding(crate::specs::Reading::truth_at))]
fn truth(text: &[u8]) -> Option<(bool, &[u8])>
    ensures { Gives (λ read. (read.0, read.1.now)) result (truth_at text.now) }
{
    if let Some(rest) = word(text, b"True") {
        return Some((true, rest));
    }
    let rest = word(text, b"False")?;
    Some((false, rest))
}

#[tactic(auto, unfolding(crate::specs::Reading::descr_at))]
fn descr_entry(text: &[u8]) -> Option<(Entry<'_>, &[u8])>
    ensures { Gives (λ read. (view_entry read.0, read.1.now)) result (descr_at text.now) }
{
    let (descr, rest) = quoted(text)?;
    Some((Entry::Descr(descr), rest))
}

#[tactic(auto, unfolding(crate::specs::Reading::order_at))]
fn order_entry(text: &[u8]) -> Option<(Entry<'_>, &[u8])>
    ensures { Gives (λ read. (view_entry read.0, read.1.now)) result (order_at text.now) }
{
    let (first_fastest, rest) = truth(text)?;
    Some((Entry::Order(first_fastest), rest))
}

#[tactic(auto, unfolding(crate::specs::Reading::shape_at))]
fn shape_entry(text: &[u8]) -> Option<(Entry<'_>, &[u8])>
    ensures { Gives (λ read. (view_entry read.0, read.1.now)) result (shape_at text.now) }
{
    let (shape, rest) = tuple(text)?;
    Some((Entry::Shape(shape), rest))
}

/// The value that belongs to a key, and what stands behind it.
#[tactic(auto, unfolding(crate::specs::Reading::value_at))]
fn value<'a>(key: &[u8], text: &'a [u8]) -> Option<(Entry<'a>, &'a [u8])>
    ensures { Gives (λ read. (view_entry read.0, read.1.now)) result (value_at key.now text.now) }
{
    if key == b"descr".as_slice() {
        descr_entry(text)
    } else if key == b"fortran_order".as_slice() {
        order_entry(text)
    } else if key == b"shape".as_slice() {
        shape_entry(text)
    } else {
        None
    }
}

/// A key, a colon and a value, and what stands behind them.
#[tactic(auto, unfolding(crate::specs::Reading::field_at))]
fn field(text: &[u8]) -> Option<(Entry<'_>, &[u8])>
    ensures { Gives (λ read. (view_entry read.0, read.1.now)) result (field_at text.now) }
{
    let (key, text) = quoted(text)?;
    let text = sign(text, b':')?;
    value(key, text)
}

/// What stands behind the bracket that ends the dictionary, with a comma before it or none.
fn end_of_dictionary(text: &[u8]) -> Option<&[u8]>
    ensures { Gives (λ rest. rest.now) result (ended text.now (sign_at 44 text.now)) }
{
    let text = match sign(text, b',') {
        Some(rest) => rest,
        None => text,
    };
    sign(text, b'}')
}

/// Whether a text is spaces, and at most one line feed behind them.
#[tactic(auto, unfolding(crate::specs::Reading::ends_at))]
fn is_ending(text: &[u8]) -> bool
    ensures { result ≡ ends_at text.now }
{
    match skip_spaces(text) {
        [] => true,
        [byte, rest @ ..] => *byte == b'\n' && rest.is_empty(),
    }
}

/// The header that three entries make, each key standing once.
fn arrange<'a>(first: Entry<'a>, second: Entry<'a>, third: Entry<'a>) -> Option<Header<'a>>
    ensures { Gives view_header result
        (arranged (view_entry first.entry) (view_entry second.entry) (view_entry third.entry)) }
{
    let (descr, first_fastest, shape) = match (first, second, third) {
        (Entry::Descr(d), Entry::Order(f), Entry::Shape(s)) => (d, f, s),
        (Entry::Descr(d), Entry::Shape(s), Entry::Order(f)) => (d, f, s),
        (Entry::Order(f), Entry::Descr(d), Entry::Shape(s)) => (d, f, s),
        (Entry::Order(f), Entry::Shape(s), Entry::Descr(d)) => (d, f, s),
        (Entry::Shape(s), Entry::Descr(d), Entry::Order(f)) => (d, f, s),
        (Entry::Shape(s), Entry::Order(f), Entry::Descr(d)) => (d, f, s),
        _ => return None,
    };
    Some(Header {
        descr,
        first_fastest,
        shape,
    })
}

/// The three entries, and the end of the header.
#[tactic(auto, unfolding(crate::specs::Reading::fields_at))]
fn fields(text: &[u8]) -> Option<Header<'_>>
    ensures { Gives view_header result (fields_at text.now) }
{
    let (first, text) = field(text)?;
    let text = sign(text, b',')?;
    let (second, text) = field(text)?;
    let text = sign(text, b',')?;
    let (third, text) = field(text)?;
    let text = end_of_dictionary(text)?;
    if is_ending(text) {
        arrange(first, second, third)
    } else {
        None
    }
}

/// What the text of a header says, or nothing where it is malformed.
#[tactic(auto, unfolding(crate::specs::Reading::header_at))]
pub fn read_header(text: &[u8]) -> Option<Header<'_>>
    ensures { Gives view_header result (header_at text.now) }
{
    match text {
        [b'{', rest @ ..] => fields(rest),
        _ => None,
    }
}
