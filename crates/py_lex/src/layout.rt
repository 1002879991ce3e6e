//! Pieces laid out in lines and blocks.

ghost use Rattle.std.specs.Prelude.{◌≡◌, ℕ, ◌+◌, ◌^◌, ◌<◌, ◌≤◌, [], length, take, vec_len, OnOk};
ghost use Rattle.py_lex.specs.Layout as spec;
ghost use Rattle.py_lex.specs.Views as views;

use crate::piece::Class;
use crate::place::{Place, passed, start};
use crate::token::{Token, TokenKind, Tokens};
use crate::words::is_note;
use krn_base::{Loc, Refusal, Rule, Seq, Stop};
use std::alloc::Global;

/// A source has at most so many tokens.
const LIMIT: usize = 200_000;

/// How far a line has come.
#[derive(Clone, Copy, Debug, PartialEq, Eq)]
pub enum Line {
    /// No token yet: the number of spaces and the place of the first tab.
    Fresh(u32, Option<Loc>),
    /// A token stands in it.
    Inside,
}

/// What has been read of a source.
#[derive(Debug, Drop)]
pub struct Layout {
    pub place: Place,
    pub depth: u32,
    pub line: Line,
    pub indents: Vec<u32>,
    pub tokens: Vec<Token>,
    pub notes: Vec<Token>,
}

fn refused(loc: Loc) -> Stop
    ensures { views.IsLexAt loc result }
{
    Stop::Refused(Refusal {
        rule: Rule::Lex,
        loc,
    })
}

// The last number, 0 where there is none.
fn last(numbers: &[u32]) -> u32
    ensures { result ≡ spec.last_of numbers.now }
{
    if numbers.is_empty() {
        0
    } else {
        numbers[numbers.len() - 1]
    }
}

fn kept(spaces: u32, indents: &[u32]) -> usize
    ensures value { result ≡ spec.kept spaces indents.now }
    ensures within { result ≤ length indents.now }
{
    indents.iter().filter(|i| **i <= spaces).count()
}

#[tactic(auto, unfolding(crate::specs::Layout::depth_after))]
fn depth_after(text: &[u8], depth: u32) -> u32
    requires { depth ≤ 2 ^ 31 }
    ensures value { result ≡ spec.depth_after text.now depth }
    ensures near { result ≤ depth + 1 }
{
    match text {
        b"(" | b"[" => depth + 1,
        b")" | b"]" => depth.saturating_sub(1),
        _ => depth,
    }
}

fn spaced(more: u32, line: Line) -> Line
    requires { views.spaces_of line + more < 2 ^ 32 }
    ensures value { result ≡ spec.spaced more line }
    ensures near { views.spaces_of result ≤ views.spaces_of line + more }
{
    match line {
        Line::Inside => Line::Inside,
        Line::Fresh(spaces, tab) => Line::Fresh(spaces + more, tab),
    }
}

fn tabbed(at: Loc, line: Line) -> Line
    ensures value { result ≡ spec.tabbed at line }
    ensures near { views.spaces_of result ≡ views.spaces_of line }
{
    match line {
        Line::Inside => Line::Inside,
        Line::Fresh(spaces, Some(tab)) => Line::Fresh(spaces, Some(tab)),
        Line::Fresh(spaces, None) => Line::Fresh(spaces, Some(at)),
    }
}

#[tactic(auto, unfolding(crate::specs::Layout::refused_at))]
fn refused_at(place: Place, line: Line) -> Loc
    ensures { result ≡ spec.refused_at place line }
{
    match line {
        Line::Fresh(_, Some(tab)) => tab,
        Line::Fresh(_, None) => place.loc,
        Line::Inside => place.loc,
    }
}

impl Layout {
    /// Before the first byte of a source.
    #[tactic(auto, unfolding(crate::specs::Layout::first))]
    pub fn first(alloc: Global) -> Layout
        ensures value { views.view result ≡ spec.first }
        ensures near { views.IsFit result }
        ensures at { result.place.offset ≡ 0 }
    {
        Layout {
            place: start(),
            depth: 0,
            line: Line::Fresh(0, None),
            indents: Vec::new(alloc),
            tokens: Vec::new(alloc),
            notes: Vec::new(alloc),
        }
    }

    fn last(&self) -> u32
        ensures { result ≡ spec.last_of self.now.indents.items }
    {
        last(self.indents.as_slice())
    }

    fn last_of(&self, count: usize) -> u32
        requires { count ≤ vec_len self.now.indents }
        ensures { result ≡ spec.last_of (take count self.now.indents.items) }
    {
        last(&self.indents.as_slice()[..count])
    }

    fn kept(&self, spaces: u32) -> usize
        ensures value { result ≡ spec.kept spaces self.now.indents.items }
        ensures within { result ≤ vec_len self.now.indents }
    {
        kept(spaces, self.indents.as_slice())
    }

    fn token(&self, kind: TokenKind, text: &[u8]) -> Token
        requires { self.now.place.offset + length text.now < 2 ^ 32 }
        ensures { result ≡ spec.token_at kind text.now self.now.place }
    {
        Token {
            kind,
            start: self.place.offset,
            end: self.place.offset + text.len() as u32,
            loc: self.place.loc,
        }
    }

    #[tactic(auto, unfolding(crate::specs::Layout::put))]
    fn put(&mut self, kind: TokenKind, text: &[u8]) -> Result<(), Stop>
        requires { self.old.place.offset + length text.now < 2 ^ 32 }
        ensures value { views.Steps (spec.put kind text.now (views.view self.old)) result (views.view self.new) }
        ensures stays { views.Stays self.old self.new }
    {
        if self.tokens.len() >= LIMIT {
            return Err(refused(self.place.loc));
        }
        let token = self.token(kind, text);
        if self.tokens.push(token).is_err() {
            return Err(Stop::Memory);
        }
        Ok(())
    }

    #[tactic(auto, using(crate::proofs::Turns::turn), unfolding(crate::specs::Layout::put_dedents))]
    fn put_dedents(&mut self, count: usize) -> Result<(), Stop>
        requires { self.old.place.offset < 2 ^ 32 }
        ensures value { views.Steps (spec.put_dedents count (views.view self.old)) result (views.view self.new) }
        ensures stays { views.Stays self.old self.new }
    {
        for _turn in 0..count {
            self.put(TokenKind::Dedent, &[])?;
        }
        Ok(())
    }

    #[tactic(auto, unfolding(crate::specs::Layout::dedented))]
    fn dedent(&mut self, spaces: u32) -> Result<(), Stop>
        requires { self.old.place.offset < 2 ^ 32 }
        ensures value { views.Steps (spec.dedented spaces (views.view self.old)) result (views.view self.new) }
        ensures stays { views.Stays self.old self.new }
    {
        let kept = self.kept(spaces);
        if self.last_of(kept) != spaces {
            return Err(refused(self.place.loc));
        }
        let dropped = self.indents.len() - kept;
        self.put_dedents(dropped)?;
        self.indents.truncate(kept);
        Ok(())
    }

    #[tactic(auto, unfolding(crate::specs::Layout::indented))]
    fn indent(&mut self, spaces: u32) -> Result<(), Stop>
        requires { self.old.place.offset < 2 ^ 32 }
        ensures value { views.Steps (spec.indented spaces (views.view self.old)) result (views.view self.new) }
        ensures stays { views.Stays self.old self.new }
    {
        if self.last() >= spaces {
            return self.dedent(spaces);
        }
        self.put(TokenKind::Indent, &[])?;
        if self.indents.push(spaces).is_err() {
            return Err(Stop::Memory);
        }
        Ok(())
    }

    #[tactic(auto, unfolding(crate::specs::Layout::opened))]
    fn open(&mut self) -> Result<(), Stop>
        requires { self.old.place.offset < 2 ^ 32 }
        ensures value { views.Steps (spec.opened (views.view self.old) self.old.line) result (views.view self.new) }
        ensures stays { views.Stays self.old self.new }
    {
        match self.line {
            Line::Inside => Ok(()),
            Line::Fresh(_, Some(tab)) => Err(refused(tab)),
            Line::Fresh(spaces, None) => self.indent(spaces),
        }
    }

    #[tactic(auto, unfolding(crate::specs::Layout::solid))]
    fn solid(&mut self, kind: TokenKind, text: &[u8]) -> Result<(), Stop>
        requires near { views.IsFit self.old }
        requires room { self.old.place.offset + length text.now ≤ 2 ^ 31 }
        ensures value { views.Steps (spec.solid kind text.now (views.view self.old)) result (views.view self.new) }
        ensures moves { OnOk result (views.Moves self.old self.new) }
    {
        self.open()?;
        self.put(kind, text)?;
        self.line = Line::Inside;
        self.depth = depth_after(text, self.depth);
        Ok(())
    }

    #[tactic(auto, unfolding(crate::specs::Layout::ended))]
    fn end_line(&mut self, text: &[u8]) -> Result<(), Stop>
        requires { self.old.place.offset + length text.now < 2 ^ 32 }
        ensures value { views.EndsLine text.now self.old result self.new }
        ensures moves { OnOk result (views.Moves self.old self.new) }
    {
        if self.line == Line::Inside {
            if self.depth != 0 {
                return Ok(());
            }
            self.put(TokenKind::Newline, text)?;
        }
        self.line = Line::Fresh(0, None);
        Ok(())
    }

    #[tactic(auto, unfolding(crate::specs::Layout::commented))]
    fn comment(&mut self, text: &[u8]) -> Result<(), Stop>
        requires some { 0 < length text.now }
        requires room { self.old.place.offset + length text.now < 2 ^ 32 }
        ensures value { views.Comments text.now self.old result self.new }
        ensures moves { OnOk result (views.Moves self.old self.new) }
    {
        if self.line == Line::Inside || !is_note(text) {
            return Ok(());
        }
        let note = self.token(TokenKind::Note, text);
        if self.notes.push(note).is_err() {
            return Err(Stop::Memory);
        }
        Ok(())
    }

    #[tactic(auto, unfolding(crate::specs::Layout::done))]
    fn take(&mut self, class: Class, text: &[u8]) -> Result<(), Stop>
        requires some { 0 < length text.now }
        requires near { views.IsFit self.old }
        requires room { self.old.place.offset + length text.now ≤ 2 ^ 31 }
        ensures value { views.Steps (spec.done class text.now (views.view self.old)) result (views.view self.new) }
        ensures moves { OnOk result (views.MovesBy (length text.now) self.old self.new) }
    {
        match class {
            Class::Spaces => self.line = spaced(text.len() as u32, self.line),
            Class::Tabs => self.line = tabbed(self.place.loc, self.line),
            Class::LineEnd => return self.end_line(text),
            Class::Join => {}
            Class::Comment => return self.comment(text),
            Class::Bad => return Err(refused(refused_at(self.place, self.line))),
            Class::Solid(kind) => return self.solid(kind, text),
        }
        Ok(())
    }

    /// Takes the next piece.
    #[tactic(auto, unfolding(crate::specs::Layout::step))]
    pub fn step(&mut self, class: Class, text: &[u8]) -> Result<(), Stop>
        requires some { 0 < length text.now }
        requires near { views.IsFit self.old }
        requires room { self.old.place.offset + length text.now ≤ 2 ^ 31 }
        ensures value { views.Steps (spec.step class text.now (views.view self.old)) result (views.view self.new) }
        ensures moves { OnOk result (self.new.place.offset ≡ self.old.place.offset + length text.now) }
        ensures near { OnOk result (views.IsFit self.new) }
    {
        self.take(class, text)?;
        self.place = passed(self.place, text);
        Ok(())
    }

    /// Takes the end of the source.
    #[tactic(auto, unfolding(crate::specs::Layout::finished))]
    pub fn finish(&mut self) -> Result<(), Stop>
        requires { self.old.place.offset < 2 ^ 32 }
        ensures { views.Steps (spec.finished (views.view self.old)) result (views.view self.new) }
    {
        self.end_line(&[])?;
        let open = self.indents.len();
        self.put_dedents(open)?;
        self.put(TokenKind::End, &[])
    }

    /// The tokens and notes.
    pub fn into_tokens(self) -> Tokens
        ensures { result ≡ spec.gathered (views.view self) }
    {
        let Layout {
            place: _,
            depth: _,
            line: _,
            indents: _,
            tokens,
            notes,
        } = self;
        Tokens {
            tokens: Seq::from_vec(tokens),
            notes: Seq::from_vec(notes),
        }
    }
}
