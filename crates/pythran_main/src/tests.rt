ghost use Rattle.std.specs.Prelude.{◌≡◌, IfOk, codes};

use crate::command::pythran;
use host_io::{MemFiles, MemSink, OpenGate, Slot};
use krn_base::Seq;
use std::alloc::{AllocError, Global};
use std::process::Abort;
use std::test::Fail;
use std::thread::Threads;

const ADD: &str = "#pythran export add(int[], int[])\ndef add(a, b):\n    return a + b\n";

const MUL: &str = "#pythran export m_1(int[], int[])\ndef m_1(x, y):\n    return y * y";

const SUB: &str = "#pythran export add(int[], int[])\ndef add(a, b):\n    return a - b\n";

const LEN: &str = "#pythran export len(int[], int[])\ndef len(a, b):\n    return a + b\n";

/// Two kernels, a function that no export reaches, and an import.
const TWO: &str = "import numpy as np\n#pythran export plus(int[], int[])\n\
    #pythran export times(int[], int[])\ndef plus(a, b):\n    return b + a\ndef times(p, q):\n    c = p * q\n    \
    return c\ndef other(a): return a\n";

const SHORT: &str = "def add(a, b): return a + b\n\n#pythran export add(int[], int[])";

const ROW: &str = "return int64 (3,) 2 4 6\nbuffer A int64 (3,) 1 2 3\n\
    counts nests 1 temps 0 parallel 0 serial 0\n";

/// A module, the words of a call, and its status, output and error output.
pub type Call = (&'static str, &'static str, u8, &'static str, &'static str);

static REPORTS: [Call; 10] = [
    (ADD, "run m.py add buf:A=1,2,3 a=@A b=@A", 0, ROW, ""),
    (ADD, "run m.py add a=@A buf:A=1,2,3 b=@A", 0, ROW, ""),
    (
        ADD,
        "run m.py add buf:A=9223372036854775807 buf:B=1 a=@A b=@B",
        0,
        "return int64 (1,) -9223372036854775808\nbuffer A int64 (1,) 9223372036854775807\n\
        buffer B int64 (1,) 1\ncounts nests 1 temps 0 parallel 0 serial 0\n",
        "",
    ),
    (
        ADD,
        "run m.py add buf:A=1,2,3 buf:B=5 a=@A b=@B",
        0,
        "return int64 (3,) 6 7 8\nbuffer A int64 (3,) 1 2 3\nbuffer B int64 (1,) 5\n\
        counts nests 1 temps 0 parallel 0 serial 0\n",
        "",
    ),
    (
        ADD,
        "run m.py add buf:A= buf:B=5 a=@A b=@B",
        0,
        "return int64 (0,)\nbuffer A int64 (0,)\nbuffer B int64 (1,) 5\n\
        counts nests 1 temps 0 parallel 0 serial 0\n",
        "",
    ),
    (
        ADD,
        "run m.py add buf:A=1,2,3 buf:B=1,2 a=@A b=@B",
        1,
        "fault ValueError 3:14\nbuffer A int64 (3,) 1 2 3\nbuffer B int64 (2,) 1 2\n\
        counts nests 0 temps 0 parallel 0 serial 0\n",
        "",
    ),
    (
        MUL,
        "run m.py m_1 buf:A=1 buf:_b=-3,0,4 x=@A y=@_b",
        0,
        "return int64 (3,) 9 0 16\nbuffer A int64 (1,) 1\nbuffer _b int64 (3,) -3 0 4\n\
        counts nests 1 temps 0 parallel 0 serial 0\n",
        "",
    ),
    (
        TWO,
        "run m.py times buf:A=1,2,3 p=@A q=@A",
        0,
        "return int64 (3,) 1 4 9\nbuffer A int64 (3,) 1 2 3\n\
        counts nests 1 temps 0 parallel 0 serial 0\n",
        "",
    ),
    (
        TWO,
        "run m.py times buf:A=1,2,3 buf:B=1,2 p=@A q=@B",
        1,
        "fault ValueError 7:11\nbuffer A int64 (3,) 1 2 3\nbuffer B int64 (2,) 1 2\n\
        counts nests 0 temps 0 parallel 0 serial 0\n",
        "",
    ),
    (
        SHORT,
        "run m.py add buf:A=1,2,3 buf:B=1,2 a=@A b=@B",
        1,
        "fault ValueError 1:25\nbuffer A int64 (3,) 1 2 3\nbuffer B int64 (2,) 1 2\n\
        counts nests 0 temps 0 parallel 0 serial 0\n",
        "",
    ),
];

static REFUSALS: [Call; 16] = [
    (
        "def add(a, b): return a + 08",
        "run m.py sum buf:A=x",
        3,
        "",
        "refused Lex 1:27\n",
    ),
    (
        "def add(a, b)",
        "run m.py sum buf:A=x",
        3,
        "",
        "refused Syntax 1:14\n",
    ),
    (ADD, "", 2, "", "error words\n"),
    (ADD, "frob", 2, "", "error words\n"),
    (ADD, "run m.py", 2, "", "error words\n"),
    (ADD, "run --workers 2 m.py add", 4, "", "error item 0\n"),
    (ADD, "run m.py add -x", 2, "", "error words\n"),
    (
        SUB,
        "run m.py add buf:A=1 a=@A b=@A",
        0,
        "return int64 (1,) 0\nbuffer A int64 (1,) 1\ncounts nests 1 temps 0 parallel 0 serial 0\n",
        "",
    ),
    ("", "run m.py add", 4, "", "error item 0\n"),
    (LEN, "run m.py len", 3, "", "refused Name 2:5\n"),
    (
        ADD,
        "run m.py add buf:A=1,x a=@A b=@A",
        4,
        "",
        "error item 1\n",
    ),
    (
        ADD,
        "run m.py add buf:A=1 a=@Z b=@A",
        4,
        "",
        "error item 2\n",
    ),
    (ADD, "run m.py add buf:A=1 a=@A", 4, "", "error item 0\n"),
    (
        ADD,
        "run m.py sum buf:A=1 a=@A b=@A",
        4,
        "",
        "error item 0\n",
    ),
    (
        ADD,
        "run m.py add buf:A=1 a=@A b=@A c=@A",
        4,
        "",
        "error item 4\n",
    ),
    (ADD, "run n.py add buf:A=1 a=@A b=@A", 5, "", "error load\n"),
];

const NOTE: &str = "#pythran export add(int[], int[])\n";

const HEAD: &str = "def add(a, b):";

const OMP: &str = "#omp parallel for\n";

/// What stands before the note of a module, its `def` and its returned value: comments, blank lines, texts between, and
/// other layouts of the same tree.
static READINGS: [(&str, &str, &str); 11] = [
    ("# a sum\n\n", "def add(a, b):  # of rows\n", "a + b"),
    ("'a text'\n", HEAD, "a+b"),
    ("", "def add(\n  a, b,):", "a + b,"),
    ("", HEAD, "(a\n+ b)"),
    ("", "def add(a, b):\n    'a text'", "a + b"),
    ("import numpy\n", HEAD, "a + b"),
    ("def f():\n    pass\n", HEAD, "a + b"),
    ("", "def add(a, b):\n    c = a + b\n    pass", "c"),
    // own calls, and one that no export reaches
    ("def f(x): return x\n", HEAD, "f(a) + b"),
    (
        "def f(x):\n    return g(x)\ndef g(x):\n    return x\n",
        HEAD,
        "f(a) + g(b)",
    ),
    ("def f(x): return f(x)\n", HEAD, "a + b"),
];

/// The same of modules that are refused, with what is told of them.
static MODULES_1: [(&str, &str, &str, &str); 9] = [
    // no tokens
    ("", HEAD, "a + 9223372036854775808", "refused Lex 3:16\n"),
    ("", "def add(a, b)", "a + 012", "refused Lex 3:16\n"),
    ("", HEAD, "a + b\n  # c\n  x", "refused Lex 5:3\n"),
    ("", HEAD, "a $ b", "refused Lex 3:14\n"),
    // no tree
    ("", "def add(a, b)", "a + b", "refused Syntax 2:14\n"),
    ("", HEAD, "a + (b", "refused Syntax 4:1\n"),
    ("", HEAD, "a +", "refused Syntax 3:15\n"),
    ("", HEAD, "a < b < a", "refused Syntax 3:18\n"),
    ("", "x = 1", "a + b", "refused Syntax 2:1\n"),
];

static MODULES_2: [(&str, &str, &str, &str); 9] = [
    ("def\n", HEAD, "a + b", "refused Syntax 1:4\n"),
    // no signatures
    ("", "def add(a, b, c):", "a + b", "refused Export 1:1\n"),
    ("", "def sum(a, b):", "a + b", "refused Export 1:1\n"),
    (NOTE, HEAD, "a + b", "refused Export 2:1\n"),
    (OMP, "def add(a):", "a + b", "refused Export 2:1\n"),
    // no directives
    (OMP, HEAD, "a + b", "refused Directive 1:1\n"),
    ("# omp for\n", HEAD, "a $ b", "refused Lex 4:14\n"),
    // forms and names
    ("", HEAD, "(a, b)[0]", "refused Profile 3:12\n"),
    ("", HEAD, "a.sum", "refused Profile 3:14\n"),
];

static MODULES_3: [(&str, &str, &str, &str); 9] = [
    ("", HEAD, "a + c", "refused Name 3:16\n"),
    ("", "def add(a, a):", "a + a", "refused Name 2:12\n"),
    ("", "def add(add, b):", "b + b", "refused Name 2:9\n"),
    ("", "def add(a, max):", "a + max", "refused Profile 3:16\n"),
    ("import os\n", HEAD, "a + b", "refused Name 1:8\n"),
    // chains, and types
    ("", HEAD, "a + add(a, b)", "refused Recursion 3:16\n"),
    ("", HEAD, "a and b", "refused Type 3:14\n"),
    ("", HEAD, "a[0, 0]", "refused Type 3:13\n"),
    (
        "",
        "def add(a, b):\n    c = 1\n    c = a",
        "c",
        "refused Retype 4:5\n",
    ),
];

static MODULES_4: [(&str, &str, &str, &str); 3] = [
    // what isn't served
    (
        "def f(x):\n    # omp parallel for\n    for i in range(3): pass\n",
        HEAD,
        "a + b",
        "refused Profile 2:5\n",
    ),
    (
        "def f(x):\n    # omp parallel for\n    for i in range(3): pass\n    return x\n",
        HEAD,
        "a + f(b)",
        "refused Profile 2:5\n",
    ),
    (
        "def f(x):\n    return x\ndef g(x):\n    f(x)\n    # omp parallel for\n    for i in range(3): pass\n",
        HEAD,
        "a + b",
        "refused Profile 5:5\n",
    ),
];

const GOOD: &str = "run m.py add buf:A=1,2,3 a=@A b=@A";

const NONE: &[u64] = &[];

const FIRST: &[u64] = &[0];

/// The numbers of the calls that fail, and the room of the output.
#[derive(Clone, Copy)]
struct Faults {
    load: &'static [u64],
    room: u32,
    out: &'static [u64],
    err: &'static [u64],
}

const FINE: Faults = Faults {
    load: NONE,
    room: 1000,
    out: NONE,
    err: NONE,
};

/// The words of a call of `add`, what fails in it, and its status, output and error output.
static FAILURES: [(&str, Faults, u8, &str, &str); 8] = [
    (
        GOOD,
        Faults {
            load: FIRST,
            ..FINE
        },
        5,
        "",
        "error load\n",
    ),
    (
        GOOD,
        Faults {
            load: FIRST,
            err: FIRST,
            ..FINE
        },
        5,
        "",
        "",
    ),
    (GOOD, Faults { out: FIRST, ..FINE }, 5, "", "error write\n"),
    (
        GOOD,
        Faults { room: 6, ..FINE },
        5,
        "return",
        "error write\n",
    ),
    (
        GOOD,
        Faults {
            room: 6,
            err: FIRST,
            ..FINE
        },
        5,
        "return",
        "",
    ),
    ("run m.py", Faults { err: FIRST, ..FINE }, 5, "", ""),
    (
        "run m.py add buf:A=x",
        Faults { err: FIRST, ..FINE },
        5,
        "",
        "",
    ),
    (GOOD, Faults { err: FIRST, ..FINE }, 0, ROW, ""),
];

/// The file of a module.
fn make_slot(alloc: Global, bytes: Vec<u8>) -> Result<Slot, AllocError>
    ensures { IfOk result (λ slot. slot.name ≡ codes "m.py") }
{
    Ok(Slot {
        name: Seq::from_vec(Vec::from_slice(alloc, b"m.py")?),
        bytes,
        there: true,
        room: 0,
    })
}

/// The words of a line, which single spaces separate.
fn make_words(alloc: Global, line: &str) -> Result<Vec<String>, AllocError> {
    let mut words = Vec::new(alloc);
    for word in line.split(' ') {
        words.push(String::from_str(alloc, word)?)?;
    }
    Ok(words)
}

/// The status, the output and the error output of a call over files and sinks in memory.
fn call<R: Threads + Sync>(
    rt: &R,
    alloc: Global,
    module: &[u8],
    words: &[String],
    faults: Faults,
) -> Result<(u8, MemSink, MemSink), Fail> {
    let slots = vec![in alloc; make_slot(alloc, Vec::from_slice(alloc, module)?)?]?;
    let mut files = MemFiles::new(alloc, slots, Vec::from_slice(alloc, faults.load)?)?;
    let mut out = MemSink::new(alloc, faults.room, Vec::from_slice(alloc, faults.out)?)?;
    let mut err = MemSink::new(alloc, 100, Vec::from_slice(alloc, faults.err)?)?;
    let status = pythran(rt, alloc, words, &mut files, &mut out, &mut err, &OpenGate);
    Ok((status, out, err))
}

/// A call ends with this status, output and error output.
pub fn call_one<R: Threads + Sync + Abort>(
    rt: &R,
    alloc: Global,
    module: &str,
    line: &str,
    wanted: (u8, &str, &str),
) -> Result<(), Fail> {
    let words = make_words(alloc, line)?;
    let (status, out, err) = call(rt, alloc, module.as_bytes(), words.as_slice(), FINE)?;
    assert_eq!(rt; status, wanted.0, "{line}");
    assert_eq!(rt; out.written(), wanted.1.as_bytes(), "{line}");
    assert_eq!(rt; err.written(), wanted.2.as_bytes(), "{line}");
    Ok(())
}

/// Each call ends as its row says.
pub fn call_all<R: Threads + Sync + Abort>(
    rt: &R,
    alloc: Global,
    rows: &[Call],
) -> Result<(), Fail> {
    for (module, line, status, text, told) in rows {
        call_one(rt, alloc, *module, *line, (*status, *text, *told))?;
    }
    Ok(())
}

#[test]
fn reports_of_calls(rt: HostRuntime) -> Result<(), Fail> {
    call_all(&rt, rt.alloc(), REPORTS.as_slice())
}

#[test]
fn refusals_of_calls(rt: HostRuntime) -> Result<(), Fail> {
    call_all(&rt, rt.alloc(), REFUSALS.as_slice())
}

#[test]
fn readings_of_modules(rt: HostRuntime) -> Result<(), Fail> {
    let alloc = rt.alloc();
    let words = make_words(alloc, GOOD)?;
    for (before, head, value) in READINGS {
        let module = format!(in alloc; "{before}{NOTE}{head}\n    return {value}\n")?;
        let (status, out, err) = call(&rt, alloc, module.as_bytes(), words.as_slice(), FINE)?;
        assert_eq!(rt; status, 0, "{module}");
        assert_eq!(rt; out.written(), ROW.as_bytes(), "{module}");
        assert_eq!(rt; err.written().len(), 0, "{module}");
    }
    Ok(())
}

#[test]
fn first_refusals_of_modules(rt: HostRuntime) -> Result<(), Fail> {
    let alloc = rt.alloc();
    let words = make_words(alloc, GOOD)?;
    for (before, head, value, told) in MODULES_1 {
        let module = format!(in alloc; "{before}{NOTE}{head}\n    return {value}\n")?;
        let (status, out, err) = call(&rt, alloc, module.as_bytes(), words.as_slice(), FINE)?;
        assert_eq!(rt; status, 3, "{module}");
        assert_eq!(rt; out.written().len(), 0, "{module}");
        assert_eq!(rt; err.written(), told.as_bytes(), "{module}");
    }
    Ok(())
}

#[test]
fn second_refusals_of_modules(rt: HostRuntime) -> Result<(), Fail> {
    let alloc = rt.alloc();
    let words = make_words(alloc, GOOD)?;
    for (before, head, value, told) in MODULES_2 {
        let module = format!(in alloc; "{before}{NOTE}{head}\n    return {value}\n")?;
        let (status, out, err) = call(&rt, alloc, module.as_bytes(), words.as_slice(), FINE)?;
        assert_eq!(rt; status, 3, "{module}");
        assert_eq!(rt; out.written().len(), 0, "{module}");
        assert_eq!(rt; err.written(), told.as_bytes(), "{module}");
    }
    Ok(())
}

#[test]
fn third_refusals_of_modules(rt: HostRuntime) -> Result<(), Fail> {
    let alloc = rt.alloc();
    let words = make_words(alloc, GOOD)?;
    for (before, head, value, told) in MODULES_3 {
        let module = format!(in alloc; "{before}{NOTE}{head}\n    return {value}\n")?;
        let (status, out, err) = call(&rt, alloc, module.as_bytes(), words.as_slice(), FINE)?;
        assert_eq!(rt; status, 3, "{module}");
        assert_eq!(rt; out.written().len(), 0, "{module}");
        assert_eq!(rt; err.written(), told.as_bytes(), "{module}");
    }
    Ok(())
}

#[test]
fn fourth_refusals_of_modules(rt: HostRuntime) -> Result<(), Fail> {
    let alloc = rt.alloc();
    let words = make_words(alloc, GOOD)?;
    for (before, head, value, told) in MODULES_4 {
        let module = format!(in alloc; "{before}{NOTE}{head}\n    return {value}\n")?;
        let (status, out, err) = call(&rt, alloc, module.as_bytes(), words.as_slice(), FINE)?;
        assert_eq!(rt; status, 3, "{module}");
        assert_eq!(rt; out.written().len(), 0, "{module}");
        assert_eq!(rt; err.written(), told.as_bytes(), "{module}");
    }
    Ok(())
}

#[test]
fn failures_in_turn(rt: HostRuntime) -> Result<(), Fail> {
    let alloc = rt.alloc();
    for (line, faults, status, text, told) in FAILURES {
        let words = make_words(alloc, line)?;
        let (ended, out, err) = call(&rt, alloc, ADD.as_bytes(), words.as_slice(), faults)?;
        assert_eq!(rt; ended, status, "{line}");
        assert_eq!(rt; out.written(), text.as_bytes(), "{line}");
        assert_eq!(rt; err.written(), told.as_bytes(), "{line}");
    }
    Ok(())
}

/// A module one byte longer than one may be.
#[test]
fn a_long_module(rt: HostRuntime) -> Result<(), Fail> {
    let alloc = rt.alloc();
    let module = vec![in alloc; b'#'; 1_048_577]?;
    let words = make_words(alloc, "run m.py add")?;
    let (status, out, err) = call(&rt, alloc, module.as_slice(), words.as_slice(), FINE)?;
    assert_eq!(rt; status, 7);
    assert_eq!(rt; out.written().len(), 0);
    assert_eq!(rt; err.written(), b"error long\n".as_slice());
    Ok(())
}

/// An item of a buffer of so many elements.
fn row_item(alloc: Global, head: &str, element: &str, count: usize) -> Result<String, AllocError> {
    let mut item = String::from_str(alloc, head)?;
    for _ in 1..count {
        item.push_str(element)?;
    }
    Ok(item)
}

#[test]
fn extents_at_the_limit(rt: HostRuntime) -> Result<(), Fail> {
    let alloc = rt.alloc();
    for (count, text) in [(4_194_304, "error item 0\n"), (4_194_305, "error item 1\n")] {
        let mut words = make_words(alloc, "run m.py add")?;
        words.push(row_item(alloc, "buf:A=0", ",0", count)?)?;
        let (status, out, err) = call(&rt, alloc, ADD.as_bytes(), words.as_slice(), FINE)?;
        assert_eq!(rt; status, 4);
        assert_eq!(rt; out.written().len(), 0);
        assert_eq!(rt; err.written(), text.as_bytes());
    }
    Ok(())
}

/// The words of a call of 16 buffers, of which the first has 70,000 elements.
fn wide_words(alloc: Global) -> Result<Vec<String>, AllocError> {
    let mut words = make_words(alloc, "run m.py add a=@b0 b=@b15")?;
    words.push(row_item(alloc, "buf:b0=7", ",7", 70_000)?)?;
    for k in 1..16 {
        words.push(format!(in alloc; "buf:b{k}=1")?)?;
    }
    Ok(words)
}

/// Its report.
fn wide_report(alloc: Global) -> Result<String, AllocError> {
    let mut text = row_item(alloc, "return int64 (70000,) 8", " 8", 70_000)?;
    let row = row_item(alloc, "\nbuffer b0 int64 (70000,) 7", " 7", 70_000)?;
    text.push_str(row.as_str())?;
    for k in 1..16 {
        let line = format!(in alloc; "\nbuffer b{k} int64 (1,) 1")?;
        text.push_str(line.as_str())?;
    }
    text.push_str("\ncounts nests 1 temps 0 parallel 0 serial 0\n")?;
    Ok(text)
}

#[test]
fn a_wide_call(rt: HostRuntime) -> Result<(), Fail> {
    let alloc = rt.alloc();
    let words = wide_words(alloc)?;
    let text = wide_report(alloc)?;
    let room = Faults {
        room: 300_000,
        ..FINE
    };
    let (status, out, err) = call(&rt, alloc, ADD.as_bytes(), words.as_slice(), room)?;
    assert_eq!(rt; status, 0);
    assert_eq!(rt; out.written(), text.as_bytes());
    assert_eq!(rt; err.written().len(), 0);
    Ok(())
}
