//! Lists of words, and what they ask for. A row has the words between blanks, where `''` is the empty word, and the
//! parts of the request, or `none`.

use crate::{Command, Request, read_request};
use std::alloc::{AllocError, Global};
use std::fmt::Write;
use std::process::Abort;
use std::test::Fail;

// ---- `run`

static RUN: [(&str, &str); 20] = [
    ("run m.py f", "run 1 m.py f"),
    ("run m.py f a b=@c", "run 1 m.py f a b=@c"),
    ("run", "none"),
    ("run m.py", "none"),
    ("run --workers 3 m.py f", "run 3 m.py f"),
    ("run m.py --workers 3 f a", "run 3 m.py f a"),
    ("run m.py f a --workers 3", "run 3 m.py f a"),
    ("run m.py f --workers=64 a", "run 64 m.py f a"),
    ("run m.py f --workers=1", "run 1 m.py f"),
    ("run m.py f --workers=65", "none"),
    ("run m.py f --workers=0", "none"),
    ("run m.py f --workers 0", "none"),
    ("run m.py f --workers=03", "none"),
    ("run m.py f --workers=+3", "none"),
    ("run m.py f --workers=-3", "none"),
    ("run m.py f --workers=", "none"),
    ("run m.py f --workers ''", "none"),
    ("run m.py f --workers 3a", "none"),
    ("run m.py f --workers 256", "none"),
    ("run m.py f --workers 18446744073709551617", "none"),
];

static OPTIONS: [(&str, &str); 20] = [
    ("run m.py f --workers", "none"),
    ("run --workers m.py", "none"),
    ("run --workers 2 m.py f --workers 2", "none"),
    ("run --workers=2 --workers=2 m.py f", "none"),
    ("run m.py f --workers --workers=2", "none"),
    ("run m.py f --workers -2", "none"),
    ("run m.py f --workers -", "none"),
    ("run m.py f --workers -- 2", "none"),
    ("run m.py f --workers --", "none"),
    ("run m.py f --worker 2", "none"),
    ("run m.py f --workerss 2", "none"),
    ("run m.py f --workers=2=3", "none"),
    ("run m.py f --WORKERS 2", "none"),
    ("run m.py f -w 2", "none"),
    ("run m.py f -x", "none"),
    ("run -x m.py f", "none"),
    ("run m.py f --help", "none"),
    ("run m.py f -h", "none"),
    ("run m.py f --version", "none"),
    ("run m.py f ---", "none"),
];

static PLAIN: [(&str, &str); 16] = [
    ("run - -", "run 1 - -"),
    ("run m.py f - a", "run 1 m.py f - a"),
    ("run '' ''", "run 1 '' ''"),
    ("run m.py f a-b --workers=7", "run 7 m.py f a-b"),
    ("run -- m.py f", "run 1 m.py f"),
    ("run m.py -- f", "run 1 m.py f"),
    ("run m.py f --", "run 1 m.py f"),
    ("run -- -x -y", "run 1 -x -y"),
    ("run -- -x", "none"),
    ("run --", "none"),
    ("run m.py f -- --", "run 1 m.py f --"),
    ("run m.py f -- -- -x", "run 1 m.py f -- -x"),
    ("run m.py f -- --workers 3", "run 1 m.py f --workers 3"),
    (
        "run m.py f --workers 5 -- --workers=3",
        "run 5 m.py f --workers=3",
    ),
    ("run m.py f =", "run 1 m.py f ="),
    ("run run run run", "run 1 run run run"),
];

// ---- `eager`, and words that are no command

static EAGER: [(&str, &str); 20] = [
    ("eager m.py f", "eager m.py f"),
    ("eager m.py f a=5 -", "eager m.py f a=5 -"),
    ("eager m.py", "none"),
    ("eager", "none"),
    ("eager m.py f --workers 3", "none"),
    ("eager m.py f --workers=3", "none"),
    ("eager --workers 1 m.py f", "none"),
    ("eager m.py f --workers", "none"),
    ("eager m.py f -- --workers 3", "eager m.py f --workers 3"),
    ("eager m.py f --", "eager m.py f"),
    ("eager -- m.py f --", "eager m.py f --"),
    ("eager m.py f -x", "none"),
    ("eager m.py f --help", "none"),
    ("''", "none"),
    ("-- run m.py f", "none"),
    ("--workers 2 run m.py f", "none"),
    ("-x run m.py f", "none"),
    ("runs m.py f", "none"),
    ("Run m.py f", "none"),
    ("help", "none"),
];

static LATER: [(&str, &str); 6] = [
    ("compile m.py", "none"),
    ("exec t.cpp f", "none"),
    ("exec t.cpp f --workers 2", "none"),
    ("sample 3", "none"),
    ("verify a b c", "none"),
    ("m.py f", "none"),
];

fn words(alloc: Global, line: &str) -> Result<Vec<String>, AllocError> {
    let mut words = Vec::new(alloc);
    for word in line.split_whitespace() {
        let word = if word == "''" { "" } else { word };
        words.push(word.to_string(alloc)?)?;
    }
    Ok(words)
}

fn write_word(line: &mut String, word: &str) -> Result<(), Fail> {
    let word = if word == "" { "''" } else { word };
    write!(line, " {word}")?;
    Ok(())
}

/// A request's parts in the form of the rows.
fn told(alloc: Global, request: &Request<'_>) -> Result<String, Fail> {
    let mut line = match request.command {
        Command::Run { workers } => format!(in alloc; "run {workers}")?,
        Command::Eager => "eager".to_string(alloc)?,
    };
    write_word(&mut line, request.source)?;
    write_word(&mut line, request.kernel)?;
    for item in request.items.as_slice() {
        write_word(&mut line, *item)?;
    }
    Ok(line)
}

fn reads(rt: &impl Abort, alloc: Global, rows: &[(&str, &str)]) -> Result<(), Fail> {
    for (line, want) in rows {
        let words = words(alloc, *line)?;
        let found = match read_request(alloc, words.as_slice())? {
            Some(request) => told(alloc, &request)?,
            None => "none".to_string(alloc)?,
        };
        assert_eq!(rt; found.as_str(), *want, "{line}");
    }
    Ok(())
}

#[test]
fn reads_run(rt: HostRuntime) -> Result<(), Fail> {
    reads(&rt, rt.alloc(), RUN.as_slice())
}

#[test]
fn reads_options(rt: HostRuntime) -> Result<(), Fail> {
    reads(&rt, rt.alloc(), OPTIONS.as_slice())
}

#[test]
fn reads_plain_words(rt: HostRuntime) -> Result<(), Fail> {
    reads(&rt, rt.alloc(), PLAIN.as_slice())
}

#[test]
fn reads_eager(rt: HostRuntime) -> Result<(), Fail> {
    reads(&rt, rt.alloc(), EAGER.as_slice())
}

#[test]
fn leaves_later_commands(rt: HostRuntime) -> Result<(), Fail> {
    reads(&rt, rt.alloc(), LATER.as_slice())
}

/// No words are no request.
#[test]
fn wants_words(rt: HostRuntime) -> Result<(), Fail> {
    let alloc = rt.alloc();
    let words = Vec::new(alloc);
    assert!(rt; read_request(alloc, words.as_slice())?.is_none());
    Ok(())
}

/// A hundred thousand words are read.
#[test]
fn reads_many_words(rt: HostRuntime) -> Result<(), Fail> {
    let alloc = rt.alloc();
    let mut words = words(alloc, "run m.py f")?;
    for _ in 0..100_000 {
        words.push("a=@b".to_string(alloc)?)?;
    }
    words.push("--workers=2".to_string(alloc)?)?;
    let request = read_request(alloc, words.as_slice())?.ok_or("a request")?;
    assert_eq!(rt; request.items.len(), 100_000);
    assert_eq!(rt; request.command, Command::Run { workers: 2 });
    Ok(())
}
