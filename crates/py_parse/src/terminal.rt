//! What a token is to the grammar.

ghost use Rattle.std.specs.Prelude.{◌≡◌, map};
ghost use Rattle.py_parse.specs.Lexemes as spec;
ghost use Rattle.py_parse.specs.Trees as trees;

use krn_base::BinOp;
use py_lex::TokenKind;

/// A terminal symbol of the grammar.
#[derive(Clone, Copy, Debug, PartialEq, Eq)]
pub enum Terminal {
    Name,
    Number,
    Text,
    Newline,
    Indent,
    Dedent,
    /// The end of the source.
    End,
    Import,
    As,
    Def,
    Pass,
    Return,
    If,
    Elif,
    Else,
    For,
    In,
    Or,
    And,
    Not,
    True,
    False,
    OpenParen,
    CloseParen,
    OpenBracket,
    CloseBracket,
    Comma,
    Colon,
    Dot,
    Assign,
    /// `~`
    Tilde,
    /// `**`
    Power,
    Star,
    DoubleSlash,
    Percent,
    Plus,
    Minus,
    ShiftLeft,
    ShiftRight,
    Ampersand,
    Caret,
    Bar,
    Equal,
    NotEqual,
    Less,
    LessEqual,
    Greater,
    GreaterEqual,
    PlusAssign,
    MinusAssign,
    StarAssign,
    DoubleSlashAssign,
    PercentAssign,
    ShiftLeftAssign,
    ShiftRightAssign,
    AmpersandAssign,
    BarAssign,
    CaretAssign,
    /// A token that stands in no rule.
    Other,
}

/// The words of the grammar. The other keywords stand in no rule.
const WORDS: [(&[u8], Terminal); 15] = [
    (b"import", Terminal::Import),
    (b"as", Terminal::As),
    (b"def", Terminal::Def),
    (b"pass", Terminal::Pass),
    (b"return", Terminal::Return),
    (b"if", Terminal::If),
    (b"elif", Terminal::Elif),
    (b"else", Terminal::Else),
    (b"for", Terminal::For),
    (b"in", Terminal::In),
    (b"or", Terminal::Or),
    (b"and", Terminal::And),
    (b"not", Terminal::Not),
    (b"True", Terminal::True),
    (b"False", Terminal::False),
];

/// The operators, brackets and marks.
const MARKS: [(&[u8], Terminal); 36] = [
    (b"(", Terminal::OpenParen),
    (b")", Terminal::CloseParen),
    (b"[", Terminal::OpenBracket),
    (b"]", Terminal::CloseBracket),
    (b",", Terminal::Comma),
    (b":", Terminal::Colon),
    (b".", Terminal::Dot),
    (b"=", Terminal::Assign),
    (b"+", Terminal::Plus),
    (b"-", Terminal::Minus),
    (b"*", Terminal::Star),
    (b"//", Terminal::DoubleSlash),
    (b"%", Terminal::Percent),
    (b"**", Terminal::Power),
    (b"~", Terminal::Tilde),
    (b"<<", Terminal::ShiftLeft),
    (b">>", Terminal::ShiftRight),
    (b"&", Terminal::Ampersand),
    (b"^", Terminal::Caret),
    (b"|", Terminal::Bar),
    (b"==", Terminal::Equal),
    (b"!=", Terminal::NotEqual),
    (b"<", Terminal::Less),
    (b"<=", Terminal::LessEqual),
    (b">", Terminal::Greater),
    (b">=", Terminal::GreaterEqual),
    (b"+=", Terminal::PlusAssign),
    (b"-=", Terminal::MinusAssign),
    (b"*=", Terminal::StarAssign),
    (b"//=", Terminal::DoubleSlashAssign),
    (b"%=", Terminal::PercentAssign),
    (b"<<=", Terminal::ShiftLeftAssign),
    (b">>=", Terminal::ShiftRightAssign),
    (b"&=", Terminal::AmpersandAssign),
    (b"|=", Terminal::BarAssign),
    (b"^=", Terminal::CaretAssign),
];

fn lookup(mut entries: &[(&[u8], Terminal)], text: &[u8]) -> Terminal
    ensures { result ≡ spec.lookup (map (λ e. (e.0.now, e.1)) entries.entry.now) text.now }
{
    while let [first, others @ ..] = entries {
        if text == first.0 {
            return first.1;
        }
        entries = others;
    }
    Terminal::Other
}

fn word(text: &[u8]) -> Terminal
    ensures { result ≡ spec.lookup spec.words text.now }
{
    lookup(&WORDS, text)
}

fn mark(text: &[u8]) -> Terminal
    ensures { result ≡ spec.lookup spec.marks text.now }
{
    lookup(&MARKS, text)
}

/// What a token of this kind and with these bytes is.
#[tactic(auto, unfolding(crate::specs::Lexemes::terminal))]
pub fn terminal_of(kind: TokenKind, text: &[u8]) -> Terminal
    ensures { result ≡ spec.terminal kind text.now }
{
    match kind {
        TokenKind::Name => Terminal::Name,
        TokenKind::Keyword => word(text),
        TokenKind::Number => Terminal::Number,
        TokenKind::Op => mark(text),
        TokenKind::Text => Terminal::Text,
        TokenKind::Newline => Terminal::Newline,
        TokenKind::Indent => Terminal::Indent,
        TokenKind::Dedent => Terminal::Dedent,
        TokenKind::End => Terminal::End,
        TokenKind::Note => Terminal::Other,
    }
}

/// The operator between two operands, of whatever level.
fn binary(terminal: Terminal) -> Option<BinOp>
    ensures { result ≡ trees.binary terminal }
{
    match terminal {
        Terminal::Star => Some(BinOp::Mul),
        Terminal::DoubleSlash => Some(BinOp::FloorDiv),
        Terminal::Percent => Some(BinOp::Mod),
        Terminal::Plus => Some(BinOp::Add),
        Terminal::Minus => Some(BinOp::Sub),
        Terminal::ShiftLeft => Some(BinOp::Shl),
        Terminal::ShiftRight => Some(BinOp::Shr),
        Terminal::Ampersand => Some(BinOp::And),
        Terminal::Caret => Some(BinOp::Xor),
        Terminal::Bar => Some(BinOp::Or),
        _ => None,
    }
}

/// The level of such an operator: `*` and its like bind tightest, at 1. 0 for what is none.
fn level(terminal: Terminal) -> u8
    ensures { result ≡ trees.level terminal }
{
    match terminal {
        Terminal::Star | Terminal::DoubleSlash | Terminal::Percent => 1,
        Terminal::Plus | Terminal::Minus => 2,
        Terminal::ShiftLeft | Terminal::ShiftRight => 3,
        Terminal::Ampersand => 4,
        Terminal::Caret => 5,
        Terminal::Bar => 6,
        _ => 0,
    }
}

/// The operator of this level, if the token is one.
#[tactic(auto, unfolding(crate::specs::Trees::operator_at))]
pub fn operator_at(at: u8, terminal: Terminal) -> Option<BinOp>
    ensures { result ≡ trees.operator_at at terminal }
{
    if level(terminal) == at {
        binary(terminal)
    } else {
        None
    }
}

/// The comparison that the token stands for.
pub fn comparison(terminal: Terminal) -> Option<BinOp>
    ensures { result ≡ trees.comparison terminal }
{
    match terminal {
        Terminal::Equal => Some(BinOp::Eq),
        Terminal::NotEqual => Some(BinOp::Ne),
        Terminal::Less => Some(BinOp::Lt),
        Terminal::LessEqual => Some(BinOp::Le),
        Terminal::Greater => Some(BinOp::Gt),
        Terminal::GreaterEqual => Some(BinOp::Ge),
        _ => None,
    }
}

/// The operation of an augmented assignment.
pub fn augmented(terminal: Terminal) -> Option<BinOp>
    ensures { result ≡ trees.augmented terminal }
{
    match terminal {
        Terminal::PlusAssign => Some(BinOp::Add),
        Terminal::MinusAssign => Some(BinOp::Sub),
        Terminal::StarAssign => Some(BinOp::Mul),
        Terminal::DoubleSlashAssign => Some(BinOp::FloorDiv),
        Terminal::PercentAssign => Some(BinOp::Mod),
        Terminal::ShiftLeftAssign => Some(BinOp::Shl),
        Terminal::ShiftRightAssign => Some(BinOp::Shr),
        Terminal::AmpersandAssign => Some(BinOp::And),
        Terminal::BarAssign => Some(BinOp::Or),
        Terminal::CaretAssign => Some(BinOp::Xor),
        _ => None,
    }
}

/// The byte of a sign.
pub fn sign(terminal: Terminal) -> Option<u8>
    ensures { result ≡ trees.sign terminal }
{
    match terminal {
        Terminal::Minus => Some(b'-'),
        Terminal::Plus => Some(b'+'),
        Terminal::Tilde => Some(b'~'),
        _ => None,
    }
}
