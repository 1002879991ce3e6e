//! Calls of kernels that call own functions, and the limits of what comes in line. What is expected was worked out by
//! hand.

use crate::eager_tests::STATS;
use crate::tests::{Call, call_all, call_one};
use std::alloc::{AllocError, Global};
use std::fmt::Write;
use std::test::Fail;

/// A call that changes nothing and can't fault alone on a line.
const IDLE: &str =
    "import numpy as np\n#pythran export stats(int[])\ndef sq(x):\n    return x * x\n\
    def up(x):\n    return x + 1\ndef stats(a):\n    up(a)\n    return np.sum(sq(a)), a.max()\n";

/// A call that may fault alone on a line.
const ALONE: &str =
    "import numpy as np\n#pythran export stats(int[])\ndef sq(x):\n    return x * x\n\
    def stats(a):\n    sq(a)\n    return np.sum(sq(a)), a.max()\n";

/// A called function that stores before it may fault.
const CUT: &str =
    "#pythran export twice(int[], int)\ndef cut(a, n):\n    a[0] = n\n    return 5 // n\n\
    def twice(a, n):\n    return cut(a, n) + cut(a[1:], n + 1)\n";

/// A call of a call, with two ends.
const SPAN: &str =
    "#pythran export span(int, int)\ndef less(a, b):\n    if a < b:\n        return a\n    \
    else:\n        return b\ndef both(a, b):\n    m = less(a, b)\n    return a + b - m - m\n\
    def span(a, b):\n    return both(a, b)\n";

static OWN_CALLS: [Call; 7] = [
    (
        STATS,
        "run m.py stats buf:A=1,2,3 a=@A",
        0,
        "return int64 14\nreturn int64 3\nbuffer A int64 (3,) 1 2 3\ncounts nests 3 temps 0 parallel 0 serial 0\n",
        "",
    ),
    (
        IDLE,
        "run m.py stats buf:A=1,2,3 a=@A",
        0,
        "return int64 14\nreturn int64 3\nbuffer A int64 (3,) 1 2 3\ncounts nests 3 temps 0 parallel 0 serial 0\n",
        "",
    ),
    (
        ALONE,
        "run m.py stats buf:A=1,2,3 a=@A",
        0,
        "return int64 14\nreturn int64 3\nbuffer A int64 (3,) 1 2 3\ncounts nests 4 temps 0 parallel 0 serial 0\n",
        "",
    ),
    (
        CUT,
        "run m.py twice buf:A=7,7,7 a=@A n=2",
        0,
        "return int64 3\nbuffer A int64 (3,) 2 3 7\ncounts nests 0 temps 0 parallel 0 serial 0\n",
        "",
    ),
    (
        CUT,
        "run m.py twice buf:A=7,7,7 a=@A n=-1",
        1,
        "fault ZeroDivisionError 4:14\nbuffer A int64 (3,) -1 0 7\ncounts nests 0 temps 0 parallel 0 serial 0\n",
        "",
    ),
    (
        CUT,
        "eager m.py twice buf:A=7,7,7 a=@A n=-1",
        1,
        "fault ZeroDivisionError 4:14\nbuffer A int64 (3,) -1 0 7\n",
        "",
    ),
    (
        SPAN,
        "run m.py span a=9 b=4",
        0,
        "return int64 5\ncounts nests 0 temps 0 parallel 0 serial 0\n",
        "",
    ),
];

/// A module whose last function, which is exported, calls the one before it twice, and so on.
fn doubling(alloc: Global, count: usize) -> Result<String, AllocError> {
    let mut text = format!(in alloc;
        "#pythran export f{count}(int)\ndef f0(a):\n    return a + 1\n"
    )?;
    for at in 0..count {
        let next = at + 1;
        let more = format!(in alloc; "def f{next}(a):\n    return f{at}(a) + f{at}(a)\n")?;
        text.push_str(more.as_str())?;
    }
    Ok(text)
}

/// A function with a statement in so many loops.
fn push_loops(text: &mut String, head: &str, count: usize, inner: &str) -> Result<(), AllocError> {
    text.push_str(head)?;
    for depth in 0..count {
        for _ in 0..depth {
            text.push_str(" ")?;
        }
        text.push_str(" for i in range(1):\n")?;
    }
    for _ in 0..count {
        text.push_str(" ")?;
    }
    text.push_str(inner)?;
    text.push_str(" return m\n")
}

/// A module whose kernel is so many loops deep with what it calls.
fn nested(alloc: Global, count: usize) -> Result<String, AllocError> {
    let mut text = String::from_str(alloc, "#pythran export f(int)\n")?;
    push_loops(&mut text, "def f(m):\n", 50, " m = g(m)\n")?;
    push_loops(&mut text, "def g(m):\n", 50, " m = h(m)\n")?;
    push_loops(
        &mut text,
        "def h(m):\n",
        count.saturating_sub(100),
        " m = m + 1\n",
    )?;
    Ok(text)
}

#[test]
fn own_calls_come_in_line(rt: HostRuntime) -> Result<(), Fail> {
    call_all(&rt, rt.alloc(), OWN_CALLS.as_slice())
}

#[test]
fn heavy_modules_are_refused(rt: HostRuntime) -> Result<(), Fail> {
    let alloc = rt.alloc();
    let module = doubling(alloc, 15)?;
    for line in ["run m.py f15 a=1", "eager m.py f15 a=1"] {
        call_one(
            &rt,
            alloc,
            module.as_str(),
            line,
            (3, "", "refused TooLarge 1:1\n"),
        )?;
    }
    let directive = "def g(x):\n    # omp parallel for\n    for i in range(3): pass\n";
    let both = format!(in alloc; "{module}{directive}")?;
    call_one(
        &rt,
        alloc,
        both.as_str(),
        "run m.py f15 a=1",
        (3, "", "refused Profile 35:5\n"),
    )?;
    let light = doubling(alloc, 9)?;
    let report = "return int64 1024\ncounts nests 0 temps 0 parallel 0 serial 0\n";
    call_one(
        &rt,
        alloc,
        light.as_str(),
        "run m.py f9 a=1",
        (0, report, ""),
    )
}

#[test]
fn deep_modules_are_refused(rt: HostRuntime) -> Result<(), Fail> {
    let alloc = rt.alloc();
    let deep = nested(alloc, 129)?;
    for line in ["run m.py f m=1", "eager m.py f m=1"] {
        call_one(
            &rt,
            alloc,
            deep.as_str(),
            line,
            (3, "", "refused TooDeep 1:1\n"),
        )?;
    }
    let fit = nested(alloc, 128)?;
    let report = "return int64 2\ncounts nests 0 temps 0 parallel 0 serial 0\n";
    call_one(&rt, alloc, fit.as_str(), "run m.py f m=1", (0, report, ""))?;
    call_one(
        &rt,
        alloc,
        fit.as_str(),
        "eager m.py f m=1",
        (0, "return int64 2\n", ""),
    )
}
