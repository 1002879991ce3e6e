//! The blanks and words of a note, and the places of its bytes.

ghost use Rattle.std.specs.Prelude.{◌≡◌, ◌≤◌, length};
ghost use Rattle.py_lex.specs.Bytes.{are_in};
ghost use Rattle.py_lex.specs.Words.{is_name};
ghost use Rattle.py_lex.specs.declared.bytes.Set.TheVariants.{Word};
ghost use Rattle.export_sig.specs.Blanks as blanks;
ghost use Rattle.export_sig.specs.Reading as spec;
ghost use Rattle.export_sig.specs.Reading.{Gives};

use krn_base::Loc;

/// Whether a byte is a space or a tab.
pub fn is_blank(b: u8) -> bool
    ensures { result ≡ blanks.is_blank b }
{
    b == b' ' || b == b'\t'
}

/// The text from its first byte on that is no blank.
pub fn after_blanks(text: &[u8]) -> &[u8]
    ensures { result.now ≡ blanks.after_blanks text.now }
{
    let mut rest = text;
    while let [b, more @ ..] = rest {
        if !is_blank(*b) {
            return rest;
        }
        rest = more;
    }
    rest
}

/// What stands behind the blanks at the front, of which there is at least one.
pub fn behind_blanks(text: &[u8]) -> Option<&[u8]>
    ensures { Gives (λ rest. rest.now) result (spec.behind_blanks text.now) }
{
    match text {
        [b, rest @ ..] if is_blank(*b) => Some(after_blanks(rest)),
        _ => None,
    }
}

/// What stands behind a byte at the front.
pub fn behind_byte(text: &[u8], byte: u8) -> Option<&[u8]>
    ensures { Gives (λ rest. rest.now) result (spec.behind_byte byte text.now) }
{
    match text {
        [first, rest @ ..] if *first == byte => Some(rest),
        _ => None,
    }
}

/// What stands behind a text at the front.
#[tactic(auto, unfolding(crate::specs::Reading::behind_text))]
pub fn behind_text<'a>(text: &'a [u8], own: &[u8]) -> Option<&'a [u8]>
    ensures { Gives (λ rest. rest.now) result (spec.behind_text own.now text.now) }
{
    text.strip_prefix(own)
}

// Whether a word ends before this text.
fn ends_word(text: &[u8]) -> bool
    ensures { result ≡ blanks.ends_word text.now }
{
    match text {
        [] => true,
        [b, ..] => is_blank(*b),
    }
}

fn is_first_word(text: &[u8], word: &[u8]) -> bool
    ensures { result ≡ blanks.is_first_word word.now text.now }
{
    match text.strip_prefix(word) {
        Some(rest) => ends_word(rest),
        None => false,
    }
}

/// Whether this is the first word of a comment.
pub fn has_first_word(comment: &[u8], word: &[u8]) -> bool
    ensures { result ≡ blanks.has_first_word word.now comment.now }
{
    match comment {
        [_, text @ ..] => is_first_word(after_blanks(text), word),
        [] => is_first_word(comment, word),
    }
}

fn is_of_word(b: u8) -> bool
    ensures { result ≡ spec.is_of_word b }
{
    b.is_ascii_alphanumeric() || b == b'_'
}

/// How many bytes of a word stand at the front.
pub fn word_len(text: &[u8]) -> usize
    ensures value { result ≡ spec.word_len text.now }
    ensures within { result ≤ length text.now }
{
    let mut len = 0;
    let mut rest = text;
    while let [b, more @ ..] = rest {
        if !is_of_word(*b) {
            break;
        }
        len += 1;
        rest = more;
    }
    len
}

fn are_of_word(text: &[u8]) -> bool
    ensures { result ≡ are_in Word text.now }
{
    text.iter().all(|b| is_of_word(*b))
}

/// Whether a word is a name by its letters: a keyword is one too.
#[tactic(auto, unfolding(py_lex::specs::Words::is_name))]
fn is_name(word: &[u8]) -> bool
    ensures { result ≡ is_name word.now }
{
    match word {
        [] => false,
        [first, ..] => !first.is_ascii_digit() && are_of_word(word),
    }
}

/// A name at the front, and what stands behind it.
#[tactic(auto, unfolding(crate::specs::Reading::name_in))]
pub fn name(text: &[u8]) -> Option<(&[u8], &[u8])>
    ensures { Gives (λ read. (read.0.now, read.1.now)) result (spec.name_in text.now) }
{
    let (word, rest) = text.split_at(word_len(text));
    if is_name(word) {
        Some((word, rest))
    } else {
        None
    }
}

/// The place of a byte of a comment that starts at a place, with so many bytes before it.
pub fn moved(start: Loc, before: usize) -> Loc
    ensures { result ≡ blanks.moved start before }
{
    let before = u32::try_from(before).unwrap_or(u32::MAX);
    Loc {
        line: start.line,
        col: start.col.saturating_add(before),
    }
}
