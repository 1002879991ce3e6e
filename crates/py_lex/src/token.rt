use krn_base::{Loc, Seq};

/// What a token is.
#[derive(Clone, Copy, Debug, PartialEq, Eq)]
pub enum TokenKind {
    Name,
    /// One of Python's 35 keywords.
    Keyword,
    Number,
    Op,
    /// A text in quotes.
    Text,
    /// The end of a line with tokens.
    Newline,
    Indent,
    Dedent,
    /// The end of the source.
    End,
    /// An `omp` or `pythran` comment, which stands in no line of tokens.
    Note,
}

/// A token: the bytes of the source from `start` up to `end`, less the last, at its place.
#[derive(Clone, Copy, Debug, PartialEq, Eq)]
pub struct Token {
    pub kind: TokenKind,
    pub start: u32,
    pub end: u32,
    pub loc: Loc,
}

/// The tokens of a source and, apart from them, its notes, each in the order of the source.
#[derive(Debug, PartialEq, Eq, Drop)]
pub struct Tokens {
    pub tokens: Seq<Token>,
    pub notes: Seq<Token>,
}
