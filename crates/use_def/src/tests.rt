//! Small modules with the first place at which the rule refuses them, from the rule by hand, and modules of ample size.

use crate::assigned;
use krn_base::Stop;
use py_lex::tokens;
use py_parse::{Module, parse};
use std::alloc::{AllocError, Global};
use std::fmt::Write;
use std::test::Fail;

fn read(alloc: Global, source: &[u8]) -> Result<Module, Stop> {
    if source.len() > 1 << 31 {
        return Err(Stop::Memory);
    }
    let found = tokens(alloc, source)?;
    parse(alloc, source, &found)
}

fn judged(alloc: Global, source: &[u8], exported: &[usize]) -> Result<(), Stop> {
    let module = read(alloc, source)?;
    assigned(alloc, &module, exported)
}

fn shown(alloc: Global, answer: Result<(), Stop>) -> Result<String, AllocError> {
    let mut out = String::new(alloc);
    match answer {
        Ok(()) => out.push_str("ok")?,
        Err(Stop::Refused(refusal)) => {
            let rule = refusal.rule;
            let line = refusal.loc.line;
            let col = refusal.loc.col;
            write!(&mut out, "{rule:?} {line}:{col}")?;
        }
        Err(Stop::Memory) => out.push_str("no memory")?,
    }
    Ok(out)
}

// The cases of a table whose answer is another one, where the first function is exported; or no text.
fn differing(alloc: Global, cases: &[(&str, &str)]) -> Result<String, AllocError> {
    let mut wrong = String::new(alloc);
    for case in cases {
        let answer = shown(alloc, judged(alloc, case.0.as_bytes(), &[0]))?;
        if answer.as_str() != case.1 {
            wrong.push_str(case.0)?;
            wrong.push_str(answer.as_str())?;
        }
    }
    Ok(wrong)
}

/// Bodies of straight lines, and of an `if`.
static BRANCHES: [(&str, &str); 22] = [
    ("", "ok"),
    ("def f(a): return a\n", "ok"),
    ("def f(a):\n x = a\n return x\n", "ok"),
    ("def f(a):\n x = x + 1\n", "Unassigned 2:6"),
    ("def f(a):\n x += 1\n", "Unassigned 2:2"),
    ("def f(a):\n x = 1\n x += x\n", "ok"),
    ("def f(a):\n a[x] = y\n", "Unassigned 2:4"),
    ("def f(a):\n x[0] = a\n", "Unassigned 2:2"),
    ("def f(a):\n x[0] += a\n x = a\n", "Unassigned 2:2"),
    ("def f(a):\n if a:\n  x = 1\n return x\n", "Unassigned 4:9"),
    (
        "def f(a):\n if True:\n  x = 1\n return x\n",
        "Unassigned 4:9",
    ),
    (
        "def f(a):\n if a:\n  pass\n else:\n  x = 1\n return x\n",
        "Unassigned 6:9",
    ),
    (
        "def f(a):\n if a:\n  x = 1\n else:\n  x = 2\n return x\n",
        "ok",
    ),
    (
        "def f(a):\n if a:\n  x = 1\n elif a:\n  x = 2\n return x\n",
        "Unassigned 6:9",
    ),
    (
        "def f(a):\n if a:\n  x = 1\n elif a:\n  y = 2\n else:\n  x = 3\n return x\n",
        "Unassigned 8:9",
    ),
    (
        "def f(a):\n if a:\n  x = 1\n elif a:\n  x = 2\n else:\n  x = 3\n return x\n",
        "ok",
    ),
    (
        "def f(a):\n if a:\n  x = 1\n elif x:\n  pass\n",
        "Unassigned 4:7",
    ),
    (
        "def f(a):\n if a:\n  x = 1\n else:\n  a = x\n",
        "Unassigned 5:7",
    ),
    (
        "def f(a):\n if a:\n  if a:\n   x = 1\n  else:\n   x = 2\n else:\n  x = 3\n return x\n",
        "ok",
    ),
    (
        "def f(a):\n if a:\n  if a:\n   x = 1\n else:\n  x = 3\n return x\n",
        "Unassigned 7:9",
    ),
    (
        "def f(a):\n x = 1\n if a:\n  y = x\n else:\n  y = 2\n x = y\n return x\n",
        "ok",
    ),
    (
        "def f(a):\n if a:\n  x = 1\n  y = 2\n else:\n  y = 1\n  x = 2\n a = x\n return y\n",
        "ok",
    ),
];

/// Loops and ends of paths.
static LOOPS: [(&str, &str); 20] = [
    ("def f(a):\n for i in range(a):\n  a = i\n", "ok"),
    (
        "def f(a):\n for i in range(a):\n  pass\n return i\n",
        "Unassigned 4:9",
    ),
    (
        "def f(a):\n i = 0\n for i in range(a):\n  pass\n return i\n",
        "ok",
    ),
    (
        "def f(a):\n for i in range(i):\n  pass\n",
        "Unassigned 2:17",
    ),
    (
        "def f(a):\n for i in range(a):\n  x = i\n return x\n",
        "Unassigned 4:9",
    ),
    (
        "def f(a):\n for i in range(3):\n  x = i\n return x\n",
        "Unassigned 4:9",
    ),
    (
        "def f(a):\n for i in range(a):\n  a = x\n  x = i\n",
        "Unassigned 3:7",
    ),
    ("def f(a):\n for i in range(a):\n  x = i\n  a = x\n", "ok"),
    (
        "def f(a):\n for i in range(a):\n  for j in range(i):\n   x = j\n  a = j\n",
        "Unassigned 5:7",
    ),
    (
        "def f(a):\n for i in range(a):\n  for j in range(i):\n   a = i + j\n",
        "ok",
    ),
    (
        "def f(a):\n for i in range(a):\n  for j in range(i):\n   i = 1\n  a = i\n",
        "ok",
    ),
    (
        "def f(a):\n for i in range(a):\n  if i:\n   x = 1\n  a = x\n",
        "Unassigned 5:7",
    ),
    (
        "def f(a):\n for i in range(a):\n  x = 1\n for i in range(a):\n  a = x\n",
        "Unassigned 5:7",
    ),
    (
        "def f(a):\n x = 0\n for i in range(a):\n  a = x\n  x = i\n return x\n",
        "ok",
    ),
    (
        "def f(a):\n if a:\n  x = 1\n  return x\n else:\n  return x\n",
        "Unassigned 6:10",
    ),
    (
        "def f(a):\n if a:\n  return a\n else:\n  x = 1\n return x\n",
        "ok",
    ),
    (
        "def f(a):\n if a:\n  return 1\n else:\n  return 2\n return x\n",
        "ok",
    ),
    (
        "def f(a):\n if a:\n  if a:\n   return 1\n  x = 1\n elif a:\n  return 1\n else:\n  x = 2\n return x\n",
        "ok",
    ),
    (
        "def f(a):\n if a:\n  if a:\n   return 1\n elif a:\n  return 1\n else:\n  x = 2\n return x\n",
        "Unassigned 9:9",
    ),
    ("def f(a):\n return x, y\n", "Unassigned 2:9"),
];

/// Names in expressions.
static NAMES: [(&str, &str); 16] = [
    ("def f(a): return a and x\n", "Unassigned 1:24"),
    ("def f(a): return True or x\n", "Unassigned 1:26"),
    ("def f(a): return a + (x, y)\n", "Unassigned 1:23"),
    ("def f(a): return -x\n", "Unassigned 1:19"),
    ("def f(a): return not x\n", "Unassigned 1:22"),
    ("def f(a): return x ** 2\n", "Unassigned 1:18"),
    ("def f(a): return a[x:y]\n", "Unassigned 1:20"),
    ("def f(a): return a[::x]\n", "Unassigned 1:22"),
    ("def f(a): return a < x\n", "Unassigned 1:22"),
    ("def f(a): return x.sum()\n", "Unassigned 1:18"),
    ("def f(a): return x[0]\n", "Unassigned 1:18"),
    ("def f(a): return len(a) + int(x)\n", "Unassigned 1:31"),
    ("def f(a): return g(a, x)\n", "Unassigned 1:23"),
    (
        "import numpy as np\ndef f(a): return np.zeros(3, int)\n",
        "ok",
    ),
    (
        "import numpy as np\ndef f(a): return np.zeros(x, dtype=np.int64)\n",
        "Unassigned 2:27",
    ),
    ("def f(a): return (x)(a) + f(a)\n", "ok"),
];

/// Several functions, of which the first is exported.
static FUNCTIONS: [(&str, &str); 6] = [
    ("def f(a): return a\ndef g(a): return x\n", "ok"),
    (
        "def f(a): return g(a)\ndef g(a): return x\n",
        "Unassigned 2:18",
    ),
    (
        "def f(a): return g(a)\ndef g(a): return h(a)\ndef h(a): return x\n",
        "Unassigned 3:18",
    ),
    (
        "def f(a): return g(a) + y\ndef g(a): return x\n",
        "Unassigned 1:25",
    ),
    (
        "def f(x): return g(x)\ndef g(a): return x\n",
        "Unassigned 2:18",
    ),
    ("def f(a): return f, g, len\ndef g(a): return x\n", "ok"),
];

#[test]
fn judges_branches(rt: HostRuntime) -> Result<(), Fail> {
    let wrong = differing(rt.alloc(), &BRANCHES)?;
    assert_eq!(rt; wrong.as_str(), "");
    Ok(())
}

#[test]
fn judges_loops(rt: HostRuntime) -> Result<(), Fail> {
    let wrong = differing(rt.alloc(), &LOOPS)?;
    assert_eq!(rt; wrong.as_str(), "");
    Ok(())
}

#[test]
fn judges_names(rt: HostRuntime) -> Result<(), Fail> {
    let wrong = differing(rt.alloc(), &NAMES)?;
    assert_eq!(rt; wrong.as_str(), "");
    Ok(())
}

#[test]
fn judges_functions(rt: HostRuntime) -> Result<(), Fail> {
    let wrong = differing(rt.alloc(), &FUNCTIONS)?;
    assert_eq!(rt; wrong.as_str(), "");
    Ok(())
}

#[test]
fn looks_at_each_export(rt: HostRuntime) -> Result<(), Fail> {
    let alloc = rt.alloc();
    let two = "def f(a): return x\ndef g(a): return y\n".as_bytes();
    assert_eq!(rt;
        shown(alloc, judged(alloc, two, &[1, 0]))?.as_str(),
        "Unassigned 1:18"
    );
    assert_eq!(rt;
        shown(alloc, judged(alloc, two, &[1]))?.as_str(),
        "Unassigned 2:18"
    );
    assert_eq!(rt; shown(alloc, judged(alloc, two, &[2]))?.as_str(), "ok");
    assert_eq!(rt; shown(alloc, judged(alloc, two, &[]))?.as_str(), "ok");
    Ok(())
}

// So many lines, each with its number between two texts.
fn numbered(
    alloc: Global,
    head: &str,
    front: &str,
    count: usize,
    back: &str,
) -> Result<String, AllocError> {
    let mut out = String::from_str(alloc, head)?;
    for number in 0..count {
        write!(&mut out, "{front}{number}{back}")?;
    }
    Ok(out)
}

// A line at a depth.
fn line(out: &mut String, depth: usize, text: &str) -> Result<(), AllocError> {
    for _ in 0..depth {
        out.push_str(" ")?;
    }
    out.push_str(text)?;
    out.push_str("\n")
}

#[test]
fn judges_many_names(rt: HostRuntime) -> Result<(), Fail> {
    let alloc = rt.alloc();
    let mut many = numbered(alloc, "def f(a):\n", " x", 20_000, " = a\n")?;
    for _ in 0..2_000 {
        many.push_str(" if a:\n  y = x7\n else:\n  y = a\n")?;
    }
    for _ in 0..2_000 {
        many.push_str(" for i in range(y):\n  z = i\n")?;
    }
    assert_eq!(rt;
        shown(alloc, judged(alloc, many.as_bytes(), &[0]))?.as_str(),
        "ok"
    );
    many.push_str(" return z\n")?;
    assert_eq!(rt;
        shown(alloc, judged(alloc, many.as_bytes(), &[0]))?.as_str(),
        "Unassigned 32002:9"
    );
    Ok(())
}

// An `if` in an `if` and so on, the innermost of which binds many names.
fn nested(alloc: Global, levels: usize, names: usize) -> Result<String, AllocError> {
    let mut out = String::from_str(alloc, "def f(a):\n")?;
    for depth in 1..levels {
        line(&mut out, depth, "if a:")?;
    }
    for number in 0..names {
        line(
            &mut out,
            levels,
            format!(in alloc; "x{number} = a")?.as_str(),
        )?;
    }
    for depth in 1..levels {
        line(&mut out, levels - depth, "else:")?;
        line(&mut out, levels - depth + 1, "x0 = a")?;
    }
    Ok(out)
}

#[test]
fn judges_nested_parts(rt: HostRuntime) -> Result<(), Fail> {
    let alloc = rt.alloc();
    let mut deep = nested(alloc, 60, 10_000)?;
    line(&mut deep, 1, "a = x0")?;
    assert_eq!(rt;
        shown(alloc, judged(alloc, deep.as_bytes(), &[0]))?.as_str(),
        "ok"
    );
    line(&mut deep, 1, "a = x1")?;
    assert_eq!(rt;
        shown(alloc, judged(alloc, deep.as_bytes(), &[0]))?.as_str(),
        "Unassigned 10180:6"
    );
    Ok(())
}
