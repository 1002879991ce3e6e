//! The notes of a module, each with the token that it speaks of.

ghost use Rattle.std.specs.Prelude.{◌≡◌, IfOk};
ghost use Rattle.py_lex.specs.Lexed.{text_of};
ghost use Rattle.py_parse.specs.Notes.{is_move, is_behind, next_of, notes_of};
ghost use Rattle.py_parse.specs.NoteLists.{from_behind, first_or, IsRising};

use crate::cursor::text_of;
use crate::tree::Note;
use krn_base::Seq;
use py_lex::{Token, TokenKind};
use std::alloc::{AllocError, Global};

// An Indent and a Dedent only move with the token behind them.
fn is_move(kind: TokenKind) -> bool
    ensures { result ≡ is_move kind }
{
    matches!(kind, TokenKind::Indent | TokenKind::Dedent)
}

fn is_behind(note: &Token, token: &Token) -> bool
    ensures { result ≡ is_behind note.now token.now }
{
    note.end <= token.start && !is_move(token.kind)
}

// The tokens from the first behind the note on.
fn behind<'a>(note: &Token, tokens: &'a [Token]) -> &'a [Token]
    ensures { result.now ≡ from_behind note.now tokens.now }
{
    let mut rest = tokens;
    while let [token, more @ ..] = rest {
        if is_behind(note, token) {
            return rest;
        }
        rest = more;
    }
    rest
}

// The End stands behind every note, so the other token never serves.
fn first_or(other: Token, tokens: &[Token]) -> Token
    ensures { result ≡ first_or other tokens.now }
{
    match tokens {
        [token, ..] => *token,
        [] => other,
    }
}

fn note_of(alloc: Global, source: &[u8], note: &Token, next: Token) -> Result<Note, AllocError>
    ensures { IfOk result (λ n. n ≡ record { text = text_of source.now note.now; loc = note.now.loc; next = next }) }
{
    let text = Vec::from_slice(alloc, text_of(source, note))?;
    Ok(Note {
        text: Seq::from_vec(text),
        loc: note.loc,
        next,
    })
}

/// The notes, each with the first token behind it that is neither an Indent nor a Dedent. Both lists are read in one
/// pass.
pub fn notes(
    alloc: Global,
    source: &[u8],
    tokens: &[Token],
    notes: &[Token],
) -> Result<Vec<Note>, AllocError>
    requires { IsRising notes.now }
    ensures { IfOk result (λ found. found.items ≡ notes_of source.now tokens.now notes.now) }
{
    let mut found = Vec::new(alloc);
    let mut rest = tokens;
    let mut left = notes;
    while let [note, more @ ..] = left {
        rest = behind(note, rest);
        let next = first_or(*note, rest);
        found.push(note_of(alloc, source, note, next)?)?;
        left = more;
    }
    Ok(found)
}
