//! A cursor over the tokens of a source.

ghost use Rattle.std.specs.Prelude.{◌≡◌, ◌≤◌, ◌^◌, length, pos, Ok};
ghost use Rattle.py_lex.specs.Lexed.{text_of};
ghost use Rattle.py_parse.specs.Lexemes.{lexemes, same};
ghost use Rattle.py_parse.specs.Parser as spec;
ghost use Rattle.py_parse.specs.Parser.{Reads};
ghost use Rattle.py_parse.specs.Trees.{value_of};

use crate::failure::Failure;
use crate::terminal::{Terminal, terminal_of};
use crate::tree::Name;
use krn_base::{Loc, Seq};
use py_lex::{Token, number_value};
use std::alloc::Global;
use std::marker::Model;

/// The tokens of a source that are still to be read. Past the last one stands the end, at line and column 0.
#[derive(Drop)]
pub struct Cursor<'a> {
    source: &'a [u8],
    rest: &'a [Token],
    /// What the first of them is.
    kind: Terminal,
}

impl<'a> Model for Cursor<'a> {
    ghost use Rattle.std.specs.Prelude.{◌≡◌, ◌≤◌, ◌^◌, length};
    ghost use Rattle.py_parse.specs.Lexemes.{Lexemes, lexemes};
    ghost use Rattle.py_parse.specs.Parser as parser;

    ghost Value = { Lexemes };

    ghost view = { λ c. lexemes c.source.now c.rest.now };

    ghost invariant = { λ c. (c.kind ≡ parser.kind (lexemes c.source.now c.rest.now)) × (length c.rest.now ≤ 2 ^ 31) };
}

/// The bytes of a token, as far as the source has them.
pub fn text_of<'a>(source: &'a [u8], token: &Token) -> &'a [u8]
    ensures { result.now ≡ text_of source.now token.now }
{
    let end = (token.end as usize).min(source.len());
    let start = (token.start as usize).min(end);
    &source[start..end]
}

fn kind_of(source: &[u8], rest: &[Token]) -> Terminal
    ensures { result ≡ spec.kind (lexemes source.now rest.now) }
{
    match rest {
        [] => Terminal::End,
        [token, ..] => terminal_of(token.kind, text_of(source, token)),
    }
}

/// The value of a number's text, 0 for a text that is none.
#[tactic(auto, unfolding(crate::specs::Trees::value_of), using(crate::proofs::Values::within_bound))]
fn value_of(text: &[u8]) -> i64
    ensures { result ≡ pos (value_of text.now) }
{
    number_value(text).unwrap_or(0)
}

impl<'a> Cursor<'a> {
    /// Before the first of these tokens of a source.
    pub fn new(source: &'a [u8], rest: &'a [Token]) -> Cursor<'a>
        requires { length rest.now ≤ 2 ^ 31 }
        ensures { result ≡ lexemes source.now rest.now }
    {
        Cursor {
            source,
            rest,
            kind: kind_of(source, rest),
        }
    }

    /// What the next token is.
    pub fn kind(&self) -> Terminal
        ensures { result ≡ spec.kind self.now }
    {
        self.kind
    }

    /// Where the next token stands.
    pub fn loc(&self) -> Loc
        ensures { result ≡ spec.place self.now }
    {
        match self.rest {
            [] => Loc { line: 0, col: 0 },
            [token, ..] => token.loc,
        }
    }

    /// How many tokens are left.
    pub fn left(&self) -> usize
        ensures value { result ≡ length self.now }
        ensures few { result ≤ 2 ^ 31 }
    {
        self.rest.len()
    }

    fn spelling(&self) -> &'a [u8]
        ensures { result.now ≡ spec.spelling self.now }
    {
        match self.rest {
            [] => &[],
            [token, ..] => text_of(self.source, token),
        }
    }

    /// Goes on behind the next token, and answers its place.
    pub fn take(&mut self) -> Loc
        ensures place { result ≡ spec.place self.old }
        ensures next { self.new ≡ spec.next self.old }
    {
        let loc = self.loc();
        if let [_, rest @ ..] = self.rest {
            self.rest = rest;
            self.kind = kind_of(self.source, rest);
        }
        loc
    }

    /// Takes the next token as a name, whatever it is.
    pub fn take_name(&mut self, alloc: Global) -> Result<Name, Failure>
        ensures { Reads (spec.take_name self.old) result self.new }
    {
        let text = Seq::from_vec(Vec::from_slice(alloc, self.spelling())?);
        Ok(Name {
            text,
            loc: self.take(),
        })
    }

    /// Takes the next token as a number, whatever it is.
    pub fn take_value(&mut self) -> i64
        ensures { spec.take_value self.old ≡ Ok (result, self.new) }
    {
        let value = value_of(self.spelling());
        self.take();
        value
    }

    /// The place of a token of this kind.
    #[tactic(auto, unfolding(crate::specs::Parser::expect, crate::specs::Lexemes::same))]
    pub fn expect(&mut self, kind: Terminal) -> Result<Loc, Failure>
        ensures { Reads (spec.expect kind self.old) result self.new }
    {
        if self.kind() == kind {
            Ok(self.take())
        } else {
            Err(Failure::Refused)
        }
    }

    /// Takes a name; refused where the next token is none.
    #[tactic(auto, unfolding(crate::specs::Parser::name, crate::specs::Lexemes::same))]
    pub fn name(&mut self, alloc: Global) -> Result<Name, Failure>
        ensures { Reads (spec.name self.old) result self.new }
    {
        if self.kind() == Terminal::Name {
            self.take_name(alloc)
        } else {
            Err(Failure::Refused)
        }
    }

    /// Takes a number, and gives its value; refused where the next token is none.
    #[tactic(auto, unfolding(crate::specs::Parser::number, crate::specs::Lexemes::same))]
    pub fn number(&mut self) -> Result<i64, Failure>
        ensures { Reads (spec.number self.old) result self.new }
    {
        if self.kind() == Terminal::Number {
            Ok(self.take_value())
        } else {
            Err(Failure::Refused)
        }
    }

    /// Whether a comma comes next, which is then taken.
    #[tactic(auto, unfolding(crate::specs::Parser::comma, crate::specs::Lexemes::same))]
    pub fn comma(&mut self) -> bool
        ensures { spec.comma self.old ≡ Ok (result, self.new) }
    {
        let found = self.kind() == Terminal::Comma;
        if found {
            self.take();
        }
        found
    }

    /// Whether a token of this kind comes next.
    #[tactic(auto, unfolding(crate::specs::Lexemes::same))]
    pub fn sees(&self, kind: Terminal) -> bool
        ensures { result ≡ same (spec.kind self.now) kind }
    {
        self.kind() == kind
    }
}
