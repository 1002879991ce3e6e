//! Small modules with the first place at which each of the two rules refuses them, from the rules by hand, and
//! modules of ample size.

use crate::{names, profile};
use krn_base::Stop;
use py_lex::tokens;
use py_parse::{Module, parse};
use std::alloc::{AllocError, Global};
use std::fmt::Write;
use std::test::Fail;

fn read(alloc: Global, source: &[u8]) -> Result<Module, Stop> {
    if source.len() > 1 << 31 {
        return Err(Stop::Memory);
    }
    let found = tokens(alloc, source)?;
    parse(alloc, source, &found)
}

// Profile, and then Name.
fn judged(alloc: Global, source: &[u8]) -> Result<(), Stop> {
    let module = read(alloc, source)?;
    profile(alloc, &module)?;
    names(alloc, &module)
}

fn shown(alloc: Global, answer: Result<(), Stop>) -> Result<String, AllocError> {
    let mut out = String::new(alloc);
    match answer {
        Ok(()) => out.push_str("ok")?,
        Err(Stop::Refused(refusal)) => {
            let rule = refusal.rule;
            let line = refusal.loc.line;
            let col = refusal.loc.col;
            write!(&mut out, "{rule:?} {line}:{col}")?;
        }
        Err(Stop::Memory) => out.push_str("no memory")?,
    }
    Ok(out)
}

// The first case of a table whose answer is another one, or no text.
fn differing(alloc: Global, cases: &[(&str, &str)]) -> Result<String, AllocError> {
    let mut wrong = String::new(alloc);
    for case in cases {
        let answer = shown(alloc, judged(alloc, case.0.as_bytes()))?;
        if answer.as_str() != case.1 {
            wrong.push_str(case.0)?;
            wrong.push_str(answer.as_str())?;
        }
    }
    Ok(wrong)
}

static STATEMENTS: [(&str, &str); 30] = [
    ("def f(a): return a", "ok"),
    ("def f(a):\n return a\n pass\n", "Profile 2:2"),
    ("def f(a):\n return a\n 'text'\n", "Profile 2:2"),
    ("def f(a):\n if a:\n  return a\n else:\n  return a\n", "ok"),
    (
        "def f(a):\n if a:\n  return a\n elif a:\n  return a\n",
        "ok",
    ),
    ("def f(a):\n if a:\n  return a\n return a\n", "Profile 3:3"),
    ("def f(a):\n if a:\n  return a\n  pass\n", "Profile 3:3"),
    (
        "def f(a):\n for i in range(a):\n  return a\n",
        "Profile 3:3",
    ),
    ("def f(a):\n for i in range(a): pass\n", "ok"),
    ("def f(a):\n for i in range(0, a, 2): pass\n", "ok"),
    ("def f(a):\n for i in range(): pass\n", "Profile 2:2"),
    (
        "def f(a):\n for i in range(a, a, a, a): pass\n",
        "Profile 2:2",
    ),
    ("def f(a):\n for i in range(n=a): pass\n", "Profile 2:2"),
    ("def f(a):\n for i in a: pass\n", "Profile 2:2"),
    ("def f(a):\n for i in g(a): pass\n", "Profile 2:2"),
    ("def f(a):\n for i in range: pass\n", "Profile 2:2"),
    (
        "def f(a):\n for i in range(range(a)): pass\n",
        "Profile 2:17",
    ),
    ("def f(a):\n x = range(a)\n", "Profile 2:6"),
    ("def f(a):\n x = range\n", "Profile 2:6"),
    ("def f(a): range[0] = a", "Profile 1:11"),
    ("def f(a): range = a", "Name 1:11"),
    ("def f(a): f(a)", "ok"),
    ("def f(a): a", "Profile 1:11"),
    ("def f(a): f", "Profile 1:11"),
    ("def f(a): g(a)", "Profile 1:11"),
    ("def f(a): f(a)(a)", "Profile 1:11"),
    ("def f(a): len(a)", "Profile 1:11"),
    ("def f(a): f(a)[0] = 1", "ok"),
    ("def f(a): f(a) = 1", "Profile 1:11"),
    ("def f(a): a.T = 1", "Profile 1:11"),
];

static EXPRESSIONS: [(&str, &str); 36] = [
    ("def f(a): return (a, a)", "ok"),
    ("def f(a): return (a, a),", "ok"),
    ("def f(a): return a, (a,)", "Profile 1:21"),
    ("def f(a): return (a, (a, a))", "Profile 1:22"),
    ("def f(a): x = (a, a)", "Profile 1:15"),
    ("def f(a): x = a ** 62", "ok"),
    ("def f(a): x = a ** 63", "Profile 1:17"),
    ("def f(a): x = len", "Profile 1:15"),
    ("def f(a): x = f", "Profile 1:15"),
    ("def f(a): x = f.T", "Profile 1:15"),
    ("def f(a): len[0] = 1", "Profile 1:11"),
    ("def f(a): x = a.sum()", "ok"),
    ("def f(a): x = a.sum", "Profile 1:17"),
    ("def f(a): x = (a.sum)()", "ok"),
    ("def f(a): x = a.copy.T", "Profile 1:17"),
    ("def f(a): x = a.T()", "Profile 1:17"),
    ("def f(a): x = a.size()", "Profile 1:17"),
    ("def f(a): x = a.size", "ok"),
    ("def f(a): x = a.shape", "Profile 1:17"),
    ("def f(a): x = a.shape()", "Profile 1:17"),
    ("def f(a): x = a.shape[0]", "ok"),
    ("def f(a): x = a.shape[-1]", "ok"),
    ("def f(a): x = a.shape[0,]", "ok"),
    ("def f(a): x = a.shape[+1]", "Profile 1:17"),
    ("def f(a): x = a.shape[a]", "Profile 1:17"),
    ("def f(a): x = a.shape[0, 1]", "Profile 1:17"),
    ("def f(a): x = a.shape[0:1]", "Profile 1:17"),
    ("def f(a): a.shape[0] = 1", "Profile 1:13"),
    ("def f(a): a.T[0] = 1", "ok"),
    ("def f(a): x = min(a, key=a)", "Profile 1:15"),
    ("def f(a): x = a.sum(axis=0)", "Profile 1:17"),
    ("def f(a): x = a[0](a=1)", "Profile 1:19"),
    ("def f(a): x = a.abs()", "Name 1:17"),
    ("def f(a): x = a.mean()", "Name 1:17"),
    ("def f(a): x = y", "Name 1:15"),
    ("def f(a):\n if a == len:\n  x = (a, a)\n", "Profile 2:10"),
];

static NUMPY: [(&str, &str); 36] = [
    ("import numpy as np\ndef f(a): x = np.zeros(a, int)\n", "ok"),
    (
        "import numpy as np\ndef f(a): x = np.zeros((a, a), dtype=np.int64)\n",
        "ok",
    ),
    (
        "import numpy as np\ndef f(a): x = np.zeros((1, 1, 1, 1, 1), bool)\n",
        "ok",
    ),
    (
        "import numpy as np\ndef f(a): x = (np.zeros)(3, int)\n",
        "ok",
    ),
    (
        "import numpy as np\ndef f(a): x = np.ones(a.shape, np.bool_)\n",
        "ok",
    ),
    (
        "import numpy as np\ndef f(a): x = np.zeros(a)\n",
        "Profile 2:18",
    ),
    (
        "import numpy as np\ndef f(a): x = np.zeros()\n",
        "Profile 2:18",
    ),
    (
        "import numpy as np\ndef f(a): x = np.zeros(dtype=int)\n",
        "ok",
    ),
    (
        "import numpy as np\ndef f(a): x = np.zeros(a, a)\n",
        "Profile 2:18",
    ),
    (
        "import numpy as np\ndef f(a): x = np.zeros(a, dtype=np.int32)\n",
        "Profile 2:18",
    ),
    (
        "import numpy as np\ndef f(a): x = np.zeros(a, type=int)\n",
        "Profile 2:18",
    ),
    (
        "import numpy as np\ndef f(a): x = np.zeros(a, int, int)\n",
        "Profile 2:32",
    ),
    (
        "import numpy as np\ndef f(a): x = np.zeros(a, int, dtype=bool)\n",
        "ok",
    ),
    (
        "import numpy as np\ndef f(a): x = np.zeros(a, (a, a))\n",
        "Profile 2:18",
    ),
    ("import numpy as np\ndef f(a): x = np.arange(a)\n", "ok"),
    (
        "import numpy as np\ndef f(a): x = np.arange(a, dtype=bool)\n",
        "ok",
    ),
    (
        "import numpy as np\ndef f(a): x = np.arange(a, int)\n",
        "Profile 2:28",
    ),
    (
        "import numpy as np\ndef f(a): x = np.arange((a, a))\n",
        "Profile 2:25",
    ),
    (
        "import numpy as np\ndef f(a): x = np.abs((a, a))\n",
        "Profile 2:22",
    ),
    (
        "import numpy as np\ndef f(a): x = a.zeros((1, 1), int)\n",
        "Profile 2:23",
    ),
    ("import numpy as np\ndef f(a): x = np.sum\n", "Profile 2:18"),
    (
        "import numpy as np\ndef f(a): x = np.where\n",
        "Profile 2:18",
    ),
    ("import numpy as np\ndef f(a): x = np\n", "Profile 2:15"),
    ("import numpy as np\ndef f(a): x = np(a)\n", "Profile 2:15"),
    ("import numpy as np\ndef f(a): x = np[a]\n", "Profile 2:15"),
    (
        "import numpy as np\ndef f(a): x = np.size(a)\n",
        "Profile 2:18",
    ),
    (
        "import numpy as np\ndef f(a): x = np.shape(a)\n",
        "Profile 2:18",
    ),
    ("import numpy as np\ndef f(a): x = np.T\n", "Name 2:18"),
    ("import numpy as np\ndef f(a): x = np.int64\n", "Name 2:18"),
    (
        "import numpy as np\ndef f(a): x = np.mean(a)\n",
        "Name 2:18",
    ),
    ("import numpy as np\ndef f(a): x = np.sum(a).T\n", "ok"),
    ("import numpy as np\ndef f(a): np = a\n", "Name 2:11"),
    ("import numpy as np\ndef f(a, np): return a\n", "Name 2:10"),
    (
        "import numpy as np\nimport numpy as np\ndef f(a): return np.abs(a)\n",
        "ok",
    ),
    ("import numpy\ndef f(a): return np.abs(a)\n", "Name 2:18"),
    ("import numpy as np\ndef np(a): return a\n", "Name 2:5"),
];

static NAMES: [(&str, &str); 29] = [
    ("import scipy\n", "Name 1:8"),
    ("import scipy as numpy\n", "Name 1:8"),
    ("import numpy as len\n", "Name 1:17"),
    ("def len(a): return a\n", "Name 1:5"),
    ("def f(a): return a\ndef f(a): return a\n", "Name 2:5"),
    ("def f(a, a): return a\n", "Name 1:10"),
    ("def f(f): return f(f)\n", "Profile 1:20"),
    ("def f(f): return 1\n", "Name 1:7"),
    ("def f(min): return 1\n", "Name 1:7"),
    ("def f(a):\n for f in range(a): pass\n", "Name 2:6"),
    ("def f(a):\n for range in range(a): pass\n", "Name 2:6"),
    ("def f(a): int = 1", "Name 1:11"),
    ("def f(a): g = 1\ndef g(a): return a", "Name 1:11"),
    ("def f(a): x = x + 1", "Name 1:15"),
    ("def f(a): x += 1", "Name 1:11"),
    ("def f(a):\n for i in range(i): pass\n", "Name 2:17"),
    ("def f(a):\n for i in range(a): x = i\n return x\n", "ok"),
    ("def f(a):\n if a:\n  x = 1\n return x\n", "ok"),
    ("def f(a):\n if a:\n  y = x\n else:\n  x = 1\n", "Name 3:7"),
    (
        "def f(a):\n for i in range(a):\n  y = x\n  x = 1\n",
        "Name 3:7",
    ),
    ("def f(a): x[0] = 1", "Name 1:11"),
    ("def f(a): a[x] = 1", "Name 1:13"),
    ("def f(a): x = a(1)", "Name 1:15"),
    ("def f(a): x = bool(a)", "Name 1:15"),
    ("def f(a): x = int(a)", "ok"),
    ("def f(a): x = g(a)", "Name 1:15"),
    ("def f(a): x = g(a)\ndef g(a): return a", "ok"),
    ("def f(a): return a\ndef g(b): return a", "Name 2:18"),
    ("def f(a): x = a[y:z]", "Name 1:17"),
];

#[test]
fn judges_statements(rt: HostRuntime) -> Result<(), Fail> {
    let wrong = differing(rt.alloc(), &STATEMENTS)?;
    assert_eq!(rt; wrong.as_str(), "");
    Ok(())
}

#[test]
fn judges_expressions(rt: HostRuntime) -> Result<(), Fail> {
    let wrong = differing(rt.alloc(), &EXPRESSIONS)?;
    assert_eq!(rt; wrong.as_str(), "");
    Ok(())
}

#[test]
fn judges_calls_of_numpy(rt: HostRuntime) -> Result<(), Fail> {
    let wrong = differing(rt.alloc(), &NUMPY)?;
    assert_eq!(rt; wrong.as_str(), "");
    Ok(())
}

#[test]
fn judges_names(rt: HostRuntime) -> Result<(), Fail> {
    let wrong = differing(rt.alloc(), &NAMES)?;
    assert_eq!(rt; wrong.as_str(), "");
    Ok(())
}

// A part so many times between two others.
fn repeated(
    alloc: Global,
    first: &str,
    part: &str,
    count: usize,
    last: &str,
) -> Result<Vec<u8>, AllocError> {
    let mut out = Vec::from_slice(alloc, first.as_bytes())?;
    for _ in 0..count {
        out.extend_from_slice(part.as_bytes())?;
    }
    out.extend_from_slice(last.as_bytes())?;
    Ok(out)
}

// So many lines, each with its number between two texts.
fn numbered(
    alloc: Global,
    head: &str,
    front: &str,
    count: usize,
    back: &str,
) -> Result<String, AllocError> {
    let mut out = String::from_str(alloc, head)?;
    for number in 0..count {
        write!(&mut out, "{front}{number}{back}")?;
    }
    Ok(out)
}

#[test]
fn judges_wide_expressions(rt: HostRuntime) -> Result<(), Fail> {
    let alloc = rt.alloc();
    let sum = repeated(alloc, "def f(a): return a", " + a", 30_000, " + b\n")?;
    assert_eq!(rt;
        shown(alloc, judged(alloc, sum.as_slice()))?.as_str(),
        "Name 1:120022"
    );
    let arguments = repeated(alloc, "def f(a): return f(", "a, ", 99_000, "len)\n")?;
    assert_eq!(rt;
        shown(alloc, judged(alloc, arguments.as_slice()))?.as_str(),
        "Profile 1:297020"
    );
    Ok(())
}

#[test]
fn judges_many_names(rt: HostRuntime) -> Result<(), Fail> {
    let alloc = rt.alloc();
    let many = numbered(alloc, "def f(a):\n", " x", 20_000, " = a\n")?;
    assert_eq!(rt;
        shown(alloc, judged(alloc, many.as_bytes()))?.as_str(),
        "ok"
    );
    let functions = numbered(alloc, "", "def f", 5_000, "(a): return a\n")?;
    assert_eq!(rt;
        shown(alloc, judged(alloc, functions.as_bytes()))?.as_str(),
        "ok"
    );
    Ok(())
}
