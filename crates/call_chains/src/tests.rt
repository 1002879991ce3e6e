//! Small modules with the place at which the rule refuses them, from the rule by hand, and modules of ample size.

use crate::recursion;
use krn_base::Stop;
use py_lex::tokens;
use py_parse::{Module, parse};
use std::alloc::{AllocError, Global};
use std::fmt::Write;
use std::test::Fail;

fn read(alloc: Global, source: &[u8]) -> Result<Module, Stop> {
    if source.len() > 1 << 31 {
        return Err(Stop::Memory);
    }
    let found = tokens(alloc, source)?;
    parse(alloc, source, &found)
}

fn judged(alloc: Global, source: &[u8], exported: &[usize]) -> Result<(), Stop> {
    let module = read(alloc, source)?;
    recursion(alloc, &module, exported)
}

fn shown(alloc: Global, answer: Result<(), Stop>) -> Result<String, AllocError> {
    let mut out = String::new(alloc);
    match answer {
        Ok(()) => out.push_str("ok")?,
        Err(Stop::Refused(refusal)) => {
            let rule = refusal.rule;
            let line = refusal.loc.line;
            let col = refusal.loc.col;
            write!(&mut out, "{rule:?} {line}:{col}")?;
        }
        Err(Stop::Memory) => out.push_str("no memory")?,
    }
    Ok(out)
}

/// A module, the number of its exported function, and the answer.
static CASES: [(&str, usize, &str); 20] = [
    ("", 0, "ok"),
    ("def f(a): return a\n", 0, "ok"),
    ("def f(a): return f(a)\n", 0, "Recursion 1:18"),
    // a function that no export reaches, and an export that isn't there
    ("def f(a): return a\ndef g(a): return g(a)\n", 0, "ok"),
    ("def f(a): return f(a)\n", 1, "ok"),
    (
        "def f(a): return g(a)\ndef g(a): return g(a)\n",
        0,
        "Recursion 2:18",
    ),
    // two that call each other, seen from either one
    (
        "def f(a): return g(a)\ndef g(a): return f(a)\n",
        0,
        "Recursion 1:18",
    ),
    (
        "def f(a): return g(a)\ndef g(a): return f(a)\n",
        1,
        "Recursion 1:18",
    ),
    // the call into a circle is none of it
    (
        "def f(a): return g(a)\ndef g(a): return h(a)\ndef h(a): return g(a)\n",
        0,
        "Recursion 2:18",
    ),
    // between two circles
    (
        "def f(a): return f(g(a))\ndef g(a): return h(a)\ndef h(a): return h(a)\n",
        0,
        "Recursion 1:18",
    ),
    (
        "def e(a): return g(f(a))\ndef f(a): return h(g(a))\ndef g(a): return h(a)\ndef h(a): return g(a)\n",
        0,
        "Recursion 3:18",
    ),
    // the first place in the text, whatever is called first
    ("def f(a): return a + f(f(a))\n", 0, "Recursion 1:22"),
    (
        "def f(a):\n if a: return a\n else:\n  a = 1\n  return f(a)\n",
        0,
        "Recursion 5:10",
    ),
    (
        "def f(a):\n for i in range(f(a)): pass\n",
        0,
        "Recursion 2:17",
    ),
    ("def f(a):\n a[f(a)] = 1\n", 0, "Recursion 2:4"),
    ("def f(a):\n a[0:f(a)] += f(a)\n", 0, "Recursion 2:6"),
    ("def f(a):\n f(a)[0] = 1\n", 0, "Recursion 2:2"),
    ("def f(a): return (f)(a)\n", 0, "Recursion 1:19"),
    ("def f(a): return a.f(a), f, f.x(a)\n", 0, "ok"),
    // the first of two functions with one name is called
    (
        "def g(a): return a\ndef f(a): return g(a)\ndef g(a): return f(a)\n",
        1,
        "ok",
    ),
];

#[test]
fn judges_chains(rt: HostRuntime) -> Result<(), Fail> {
    let alloc = rt.alloc();
    let mut wrong = String::new(alloc);
    for case in &CASES {
        let answer = shown(alloc, judged(alloc, case.0.as_bytes(), &[case.1]))?;
        if answer.as_str() != case.2 {
            wrong.push_str(case.0)?;
            wrong.push_str(answer.as_str())?;
        }
    }
    assert_eq!(rt; wrong.as_str(), "");
    Ok(())
}

// Functions of which each calls the next one, and a last one.
fn chain(alloc: Global, count: usize, last: &str) -> Result<String, AllocError> {
    let mut out = String::new(alloc);
    for number in 0..count {
        let next = number.wrapping_add(1);
        write!(&mut out, "def f{number}(a): return f{next}(a)\n")?;
    }
    write!(&mut out, "def f{count}(a): return {last}\n")?;
    Ok(out)
}

#[test]
fn counts_the_calls_of_a_chain(rt: HostRuntime) -> Result<(), Fail> {
    let alloc = rt.alloc();
    let short = chain(alloc, 32, "a")?;
    assert_eq!(rt;
        shown(alloc, judged(alloc, short.as_bytes(), &[0]))?.as_str(),
        "ok"
    );
    let long = chain(alloc, 33, "a")?;
    assert_eq!(rt;
        shown(alloc, judged(alloc, long.as_bytes(), &[0]))?.as_str(),
        "Recursion 33:20"
    );
    assert_eq!(rt;
        shown(alloc, judged(alloc, long.as_bytes(), &[1]))?.as_str(),
        "ok"
    );
    let longer = chain(alloc, 5_000, "a")?;
    assert_eq!(rt;
        shown(alloc, judged(alloc, longer.as_bytes(), &[0]))?.as_str(),
        "Recursion 33:20"
    );
    assert_eq!(rt;
        shown(alloc, judged(alloc, longer.as_bytes(), &[4_990]))?.as_str(),
        "ok"
    );
    Ok(())
}

// Each function calls one of two that both call one of the next: as many paths as there are lists of turns.
fn diamonds(alloc: Global, count: usize) -> Result<String, AllocError> {
    let mut out = String::new(alloc);
    for number in 0..count {
        let next = number.wrapping_add(1);
        write!(
            &mut out,
            "def f{number}(a): return g{number}(a) + h{number}(a)\n"
        )?;
        write!(&mut out, "def g{number}(a): return f{next}(a)\n")?;
        write!(&mut out, "def h{number}(a): return f{next}(a)\n")?;
    }
    write!(&mut out, "def f{count}(a): return a\n")?;
    Ok(out)
}

#[test]
fn goes_once_along_each_call(rt: HostRuntime) -> Result<(), Fail> {
    let alloc = rt.alloc();
    let most = diamonds(alloc, 16)?;
    assert_eq!(rt;
        shown(alloc, judged(alloc, most.as_bytes(), &[0]))?.as_str(),
        "ok"
    );
    let more = diamonds(alloc, 17)?;
    assert_eq!(rt;
        shown(alloc, judged(alloc, more.as_bytes(), &[0]))?.as_str(),
        "Recursion 49:20"
    );
    // One circle of 5,000 functions, and the same behind a way into it.
    let circle = chain(alloc, 5_000, "f0(a)")?;
    assert_eq!(rt;
        shown(alloc, judged(alloc, circle.as_bytes(), &[7]))?.as_str(),
        "Recursion 1:19"
    );
    let behind = chain(alloc, 5_000, "f4990(a)")?;
    assert_eq!(rt;
        shown(alloc, judged(alloc, behind.as_bytes(), &[4_970]))?.as_str(),
        "Recursion 4991:22"
    );
    Ok(())
}
