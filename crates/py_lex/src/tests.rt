//! Sources with their tokens, written from the rules by a reference in Python, and compared with CPython's tokenizer
//! where the two mean the same.

use crate::{Token, TokenKind, Tokens, tokens};
use krn_base::Stop;
use std::alloc::{AllocError, Global};
use std::fmt::Write;
use std::test::Fail;

// Sources, and their tokens and then their notes.
static GIVEN: [(&[u8], &[&str]); 38] = [
    (b"", &["End 0..0 1:1"]),
    (b"\n \t\n# c\n", &["End 8..8 4:1"]),
    (b"a", &["Name 0..1 1:1", "Newline 1..1 1:2", "End 1..1 1:2"]),
    (
        b"a\n",
        &["Name 0..1 1:1", "Newline 1..2 1:2", "End 2..2 2:1"],
    ),
    (
        b"a\r\nb",
        &[
            "Name 0..1 1:1",
            "Newline 1..3 1:2",
            "Name 3..4 2:1",
            "Newline 4..4 2:2",
            "End 4..4 2:2",
        ],
    ),
    (
        b"if x:\n  y = 1\n    # deep comment\n  \t\n  z\nw\n",
        &[
            "Keyword 0..2 1:1",
            "Name 3..4 1:4",
            "Op 4..5 1:5",
            "Newline 5..6 1:6",
            "Indent 8..8 2:3",
            "Name 8..9 2:3",
            "Op 10..11 2:5",
            "Number 12..13 2:7",
            "Newline 13..14 2:8",
            "Name 39..40 5:3",
            "Newline 40..41 5:4",
            "Dedent 41..41 6:1",
            "Name 41..42 6:1",
            "Newline 42..43 6:2",
            "End 43..43 7:1",
        ],
    ),
    (
        b"if a:\n if b:\n  c\nd\n",
        &[
            "Keyword 0..2 1:1",
            "Name 3..4 1:4",
            "Op 4..5 1:5",
            "Newline 5..6 1:6",
            "Indent 7..7 2:2",
            "Keyword 7..9 2:2",
            "Name 10..11 2:5",
            "Op 11..12 2:6",
            "Newline 12..13 2:7",
            "Indent 15..15 3:3",
            "Name 15..16 3:3",
            "Newline 16..17 3:4",
            "Dedent 17..17 4:1",
            "Dedent 17..17 4:1",
            "Name 17..18 4:1",
            "Newline 18..19 4:2",
            "End 19..19 5:1",
        ],
    ),
    (
        b" a\n",
        &[
            "Indent 1..1 1:2",
            "Name 1..2 1:2",
            "Newline 2..3 1:3",
            "Dedent 3..3 2:1",
            "End 3..3 2:1",
        ],
    ),
    (
        b"f(a,\n\t b)\n",
        &[
            "Name 0..1 1:1",
            "Op 1..2 1:2",
            "Name 2..3 1:3",
            "Op 3..4 1:4",
            "Name 7..8 2:3",
            "Op 8..9 2:4",
            "Newline 9..10 2:5",
            "End 10..10 3:1",
        ],
    ),
    (
        b"[\n# omp x\n]\n",
        &[
            "Op 0..1 1:1",
            "Op 10..11 3:1",
            "Newline 11..12 3:2",
            "End 12..12 4:1",
        ],
    ),
    (
        b"a = 1 + \\\n  2\n",
        &[
            "Name 0..1 1:1",
            "Op 2..3 1:3",
            "Number 4..5 1:5",
            "Op 6..7 1:7",
            "Number 12..13 2:3",
            "Newline 13..14 2:4",
            "End 14..14 3:1",
        ],
    ),
    (
        b"a \\\r\n b\n",
        &[
            "Name 0..1 1:1",
            "Name 6..7 2:2",
            "Newline 7..8 2:3",
            "End 8..8 3:1",
        ],
    ),
    (
        b"  \\\n  a\n",
        &[
            "Indent 6..6 2:3",
            "Name 6..7 2:3",
            "Newline 7..8 2:4",
            "Dedent 8..8 3:1",
            "End 8..8 3:1",
        ],
    ),
    (
        b"a\\",
        &["Name 0..1 1:1", "Newline 2..2 1:3", "End 2..2 1:3"],
    ),
    (b" \\\n", &["End 3..3 2:1"]),
    (
        b"a \\\n# omp for\n",
        &["Name 0..1 1:1", "Newline 13..14 2:10", "End 14..14 3:1"],
    ),
    (
        b"\\\n# omp for\nx\n",
        &[
            "Name 12..13 3:1",
            "Newline 13..14 3:2",
            "End 14..14 4:1",
            "Note 2..11 2:1",
        ],
    ),
    (
        b"#pythran export f(int)\ndef f(a): return a\n",
        &[
            "Keyword 23..26 2:1",
            "Name 27..28 2:5",
            "Op 28..29 2:6",
            "Name 29..30 2:7",
            "Op 30..31 2:8",
            "Op 31..32 2:9",
            "Keyword 33..39 2:11",
            "Name 40..41 2:18",
            "Newline 41..42 2:19",
            "End 42..42 3:1",
            "Note 0..22 1:1",
        ],
    ),
    (
        b"#omp\n#ompx\n# # omp\n#pythran.x\n# \tomp x\r\n",
        &["End 40..40 6:1", "Note 0..4 1:1", "Note 30..38 5:1"],
    ),
    (
        b"0 10 0x0fF 0X1 9223372036854775807 0x7fffffffffffffff\n",
        &[
            "Number 0..1 1:1",
            "Number 2..4 1:3",
            "Number 5..10 1:6",
            "Number 11..14 1:12",
            "Number 15..34 1:16",
            "Number 35..53 1:36",
            "Newline 53..54 1:54",
            "End 54..54 2:1",
        ],
    ),
    (
        b".5 a.b\n",
        &[
            "Op 0..1 1:1",
            "Number 1..2 1:2",
            "Name 3..4 1:4",
            "Op 4..5 1:5",
            "Name 5..6 1:6",
            "Newline 6..7 1:7",
            "End 7..7 2:1",
        ],
    ),
    (
        b"'a\\'b' \"c\" ''\n",
        &[
            "Text 0..6 1:1",
            "Text 7..10 1:8",
            "Text 11..13 1:12",
            "Newline 13..14 1:14",
            "End 14..14 2:1",
        ],
    ),
    (
        b"'''a\n'b''' \"\"\"c\\\"\"\"\"\n",
        &[
            "Text 0..10 1:1",
            "Text 11..20 2:7",
            "Newline 20..21 2:16",
            "End 21..21 3:1",
        ],
    ),
    (
        b"'a\\\nb'\n",
        &["Text 0..6 1:1", "Newline 6..7 2:3", "End 7..7 3:1"],
    ),
    (
        b"'\xc3\xa9' # \xff\x00\n",
        &["Text 0..4 1:1", "Newline 9..10 1:10", "End 10..10 2:1"],
    ),
    (
        b"'a\rb' # \r x\n",
        &["Text 0..5 1:1", "Newline 11..12 1:12", "End 12..12 2:1"],
    ),
    (
        b"a**b//c<<d>>e<=f>=g==h!=i\n",
        &[
            "Name 0..1 1:1",
            "Op 1..3 1:2",
            "Name 3..4 1:4",
            "Op 4..6 1:5",
            "Name 6..7 1:7",
            "Op 7..9 1:8",
            "Name 9..10 1:10",
            "Op 10..12 1:11",
            "Name 12..13 1:13",
            "Op 13..15 1:14",
            "Name 15..16 1:16",
            "Op 16..18 1:17",
            "Name 18..19 1:19",
            "Op 19..21 1:20",
            "Name 21..22 1:22",
            "Op 22..24 1:23",
            "Name 24..25 1:25",
            "Newline 25..26 1:26",
            "End 26..26 2:1",
        ],
    ),
    (
        b"a//=b<<=c>>=d&=e|=f^=g%=h*=i-=j+=k\n",
        &[
            "Name 0..1 1:1",
            "Op 1..4 1:2",
            "Name 4..5 1:5",
            "Op 5..8 1:6",
            "Name 8..9 1:9",
            "Op 9..12 1:10",
            "Name 12..13 1:13",
            "Op 13..15 1:14",
            "Name 15..16 1:16",
            "Op 16..18 1:17",
            "Name 18..19 1:19",
            "Op 19..21 1:20",
            "Name 21..22 1:22",
            "Op 22..24 1:23",
            "Name 24..25 1:25",
            "Op 25..27 1:26",
            "Name 27..28 1:28",
            "Op 28..30 1:29",
            "Name 30..31 1:31",
            "Op 31..33 1:32",
            "Name 33..34 1:34",
            "Newline 34..35 1:35",
            "End 35..35 2:1",
        ],
    ),
    (
        b"-+*%&|^~<>=()[],:.\n",
        &[
            "Op 0..1 1:1",
            "Op 1..2 1:2",
            "Op 2..3 1:3",
            "Op 3..4 1:4",
            "Op 4..5 1:5",
            "Op 5..6 1:6",
            "Op 6..7 1:7",
            "Op 7..8 1:8",
            "Op 8..9 1:9",
            "Op 9..11 1:10",
            "Op 11..12 1:12",
            "Op 12..13 1:13",
            "Op 13..14 1:14",
            "Op 14..15 1:15",
            "Op 15..16 1:16",
            "Op 16..17 1:17",
            "Op 17..18 1:18",
            "Newline 18..19 1:19",
            "End 19..19 2:1",
        ],
    ),
    (
        b"(]\n)\n",
        &[
            "Op 0..1 1:1",
            "Op 1..2 1:2",
            "Newline 2..3 1:3",
            "Op 3..4 2:1",
            "Newline 4..5 2:2",
            "End 5..5 3:1",
        ],
    ),
    (
        b"False nonlocal async falsey _\n",
        &[
            "Keyword 0..5 1:1",
            "Keyword 6..14 1:7",
            "Keyword 15..20 1:16",
            "Name 21..27 1:22",
            "Name 28..29 1:29",
            "Newline 29..30 1:30",
            "End 30..30 2:1",
        ],
    ),
    (b"(a\n", &["Op 0..1 1:1", "Name 1..2 1:2", "End 3..3 2:1"]),
    (
        b"if x:\n (a",
        &[
            "Keyword 0..2 1:1",
            "Name 3..4 1:4",
            "Op 4..5 1:5",
            "Newline 5..6 1:6",
            "Indent 7..7 2:2",
            "Op 7..8 2:2",
            "Name 8..9 2:3",
            "Dedent 9..9 2:4",
            "End 9..9 2:4",
        ],
    ),
    (
        b"if x:\n  a # c",
        &[
            "Keyword 0..2 1:1",
            "Name 3..4 1:4",
            "Op 4..5 1:5",
            "Newline 5..6 1:6",
            "Indent 8..8 2:3",
            "Name 8..9 2:3",
            "Newline 13..13 2:8",
            "Dedent 13..13 2:8",
            "End 13..13 2:8",
        ],
    ),
    (
        b"'a' # omp\n",
        &["Text 0..3 1:1", "Newline 9..10 1:10", "End 10..10 2:1"],
    ),
    (
        b"a#omp\n",
        &["Name 0..1 1:1", "Newline 5..6 1:6", "End 6..6 2:1"],
    ),
    (
        b"x = '''\n''' # omp\n",
        &[
            "Name 0..1 1:1",
            "Op 2..3 1:3",
            "Text 4..11 1:5",
            "Newline 17..18 2:10",
            "End 18..18 3:1",
        ],
    ),
    (
        b"***===\n",
        &[
            "Op 0..2 1:1",
            "Op 2..4 1:3",
            "Op 4..6 1:5",
            "Newline 6..7 1:7",
            "End 7..7 2:1",
        ],
    ),
];

// Sources, and the rule and the place of their refusals.
static REFUSED: [(&[u8], &str); 34] = [
    (b"\r", "Lex 1:1"),
    (b"a\rb", "Lex 1:2"),
    (b"a $\n", "Lex 1:3"),
    (b"a \xc3\xa9\n", "Lex 1:3"),
    (b"\ta\n", "Lex 1:1"),
    (b"if x:\n\ta\n", "Lex 2:1"),
    (b"  \t$\n", "Lex 1:3"),
    (b"\t\\\n a\n", "Lex 1:1"),
    (b"if x:\n    a\n  b\n", "Lex 3:3"),
    (b"if x:\n  a\n    b\n   c\n", "Lex 4:4"),
    (b"'a\n", "Lex 1:1"),
    (b"'a", "Lex 1:1"),
    (b"'a\\", "Lex 1:1"),
    (b"'a\\\r\n'", "Lex 1:1"),
    (b"'''a", "Lex 1:1"),
    (b"'''a\\'''", "Lex 1:1"),
    (b"x = 012\n", "Lex 1:5"),
    (b"0x", "Lex 1:1"),
    (b"0b1", "Lex 1:1"),
    (b"1e5", "Lex 1:1"),
    (b"1.5", "Lex 1:1"),
    (b"1_0", "Lex 1:1"),
    (b"9223372036854775808", "Lex 1:1"),
    (b"0x8000000000000000", "Lex 1:1"),
    (b"18446744073709551617", "Lex 1:1"),
    (b"a \\ b\n", "Lex 1:3"),
    (b"a ! b\n", "Lex 1:3"),
    (b"a @ b\n", "Lex 1:3"),
    (b"a ; b\n", "Lex 1:3"),
    (b"{", "Lex 1:1"),
    (b"a\\\\\n", "Lex 1:2"),
    (b"\x7f", "Lex 1:1"),
    (b"\x0c\n", "Lex 1:1"),
    (b"a\n \n  b\n c\n", "Lex 4:2"),
];

fn write_token(out: &mut String, token: &Token) -> Result<(), AllocError> {
    let Token {
        kind,
        start,
        end,
        loc,
    } = *token;
    let line = loc.line;
    let col = loc.col;
    if out.len() != 0 {
        out.push_str(" ")?;
    }
    write!(out, "{kind:?} {start}..{end} {line}:{col}")
}

fn shown(alloc: Global, source: &[u8]) -> Result<String, AllocError> {
    let mut out = String::new(alloc);
    if source.len() > 1 << 31 {
        return Ok(out);
    }
    match tokens(alloc, source) {
        Ok(found) => {
            for token in found.tokens.as_slice() {
                write_token(&mut out, token)?;
            }
            for note in found.notes.as_slice() {
                write_token(&mut out, note)?;
            }
        }
        Err(Stop::Refused(refusal)) => {
            let rule = refusal.rule;
            let line = refusal.loc.line;
            let col = refusal.loc.col;
            write!(&mut out, "{rule:?} {line}:{col}")?;
        }
        Err(Stop::Memory) => out.push_str("no memory")?,
    }
    Ok(out)
}

fn joined(alloc: Global, words: &[&str]) -> Result<String, AllocError> {
    let mut out = String::new(alloc);
    for word in words {
        if out.len() != 0 {
            out.push_str(" ")?;
        }
        out.push_str(word)?;
    }
    Ok(out)
}

#[test]
fn gives_tokens(rt: HostRuntime) -> Result<(), Fail> {
    for (source, wanted) in &GIVEN {
        let found = shown(rt.alloc(), source)?;
        let wanted = joined(rt.alloc(), wanted)?;
        assert_eq!(rt; found.as_str(), wanted.as_str());
    }
    Ok(())
}

#[test]
fn refuses(rt: HostRuntime) -> Result<(), Fail> {
    for (source, wanted) in &REFUSED {
        let found = shown(rt.alloc(), source)?;
        assert_eq!(rt; found.as_str(), *wanted);
    }
    Ok(())
}

fn count(tokens: &[Token], kind: TokenKind) -> usize {
    tokens.iter().filter(|t| t.kind == kind).count()
}

// What is read from a text that a loop made.
fn lexed(alloc: Global, source: &[u8]) -> Result<Tokens, Fail> {
    if source.len() > 1 << 31 {
        return Err(Fail::from("a longer text"));
    }
    match tokens(alloc, source) {
        Ok(found) => Ok(found),
        Err(_) => Err(Fail::from("no tokens")),
    }
}

// Line n stands behind n spaces, from 0 to 64.
#[test]
fn opens_and_closes_64_columns(rt: HostRuntime) -> Result<(), Fail> {
    let mut source = Vec::new(rt.alloc());
    for n in 0..65 {
        for _ in 0..n {
            source.push(b' ')?;
        }
        source.extend_from_slice(b"a\n")?;
    }
    let found = lexed(rt.alloc(), source.as_slice())?;
    let tokens = found.tokens.as_slice();
    assert_eq!(rt; tokens.len(), 259);
    assert_eq!(rt; count(tokens, TokenKind::Indent), 64);
    assert_eq!(rt; count(tokens, TokenKind::Dedent), 64);
    Ok(())
}

// 100 notes, each alone on its line, with a name behind each.
#[test]
fn gives_each_of_many_notes(rt: HostRuntime) -> Result<(), Fail> {
    let mut source = Vec::new(rt.alloc());
    for _ in 0..100 {
        source.extend_from_slice(b"# omp x\na # omp\n")?;
    }
    let found = lexed(rt.alloc(), source.as_slice())?;
    assert_eq!(rt; found.notes.as_slice().len(), 100);
    assert_eq!(rt; found.tokens.as_slice().len(), 201);
    Ok(())
}

// The densest source: each byte is a token.
#[test]
fn refuses_the_token_above_the_limit(rt: HostRuntime) -> Result<(), Fail> {
    let source = vec![in rt.alloc(); b'('; 1_048_576]?;
    let found = shown(rt.alloc(), source.as_slice())?;
    assert_eq!(rt; found.as_str(), "Lex 1:200001");
    Ok(())
}
