//! Sources made by hand from the tables of calls, each with its term.

use crate::resolve;
use export_sig::directives;
use krn_base::Stop;
use py_lex::tokens;
use py_parse::{Module, parse};
use std::alloc::{AllocError, Global};
use std::fmt::Write;
use std::test::Fail;

static EXPRESSIONS: [(&str, &str); 50] = [
    ("a", "Name([97] 3:6)"),
    ("-7", "Apply(Minus, 3:6, [Int(7)])"),
    ("+True", "Apply(Plus, 3:6, [Truth(true)])"),
    ("~a", "Apply(Invert, 3:6, [Name([97] 3:7)])"),
    ("not a", "Apply(Not, 3:6, [Name([97] 3:10)])"),
    ("a ** 62", "Apply(Power(62), 3:8, [Name([97] 3:6)])"),
    (
        "a - b * 2 - 1",
        "Steps(Name([97] 3:6), [Operate(Binary(Sub), 3:8, [Steps(Name([98] 3:10), [], Operate(Binary(Mul), 3:12, \
         [Int(2)]))])], Operate(Binary(Sub), 3:16, [Int(1)]))",
    ),
    (
        "(a + b) - 1",
        "Steps(Name([97] 3:7), [Operate(Binary(Add), 3:9, [Name([98] 3:11)])], Operate(Binary(Sub), 3:14, [Int(1)]))",
    ),
    (
        "(a) < b",
        "Steps(Name([97] 3:7), [], Operate(Binary(Lt), 3:10, [Name([98] 3:12)]))",
    ),
    (
        "a and b and a",
        "Logic(true, Name([97] 3:6), [(3:8, Name([98] 3:12)), (3:14, Name([97] 3:18))])",
    ),
    (
        "a or b",
        "Logic(false, Name([97] 3:6), [(3:8, Name([98] 3:11))])",
    ),
    ("len(a)", "Apply(Length, 3:6, [Name([97] 3:10)])"),
    ("abs(a)", "Apply(Abs, 3:6, [Name([97] 3:10)])"),
    ("n.abs(a)", "Apply(Abs, 3:8, [Name([97] 3:12)])"),
    (
        "min(a, b)",
        "Apply(Least(Min), 3:6, [Name([97] 3:10), Name([98] 3:13)])",
    ),
    (
        "max(a, b)",
        "Apply(Least(Max), 3:6, [Name([97] 3:10), Name([98] 3:13)])",
    ),
    ("int(a)", "Apply(ToInt, 3:6, [Name([97] 3:10)])"),
    (
        "int(a, b)",
        "Apply(None, 3:6, [Name([97] 3:10), Name([98] 3:13)])",
    ),
    (
        "n.minimum(a, b)",
        "Apply(Binary(Min), 3:8, [Name([97] 3:16), Name([98] 3:19)])",
    ),
    (
        "n.maximum(a, b)",
        "Apply(Binary(Max), 3:8, [Name([97] 3:16), Name([98] 3:19)])",
    ),
    (
        "n.where(a, b, 1)",
        "Apply(Where, 3:8, [Name([97] 3:14), Name([98] 3:17), Int(1)])",
    ),
    (
        "n.where(a, b)",
        "Apply(None, 3:8, [Name([97] 3:14), Name([98] 3:17)])",
    ),
    ("n.sum(a)", "Apply(Reduce(Sum), 3:8, [Name([97] 3:12)])"),
    ("n.prod(a)", "Apply(Reduce(Prod), 3:8, [Name([97] 3:13)])"),
    ("n.min(a)", "Apply(Reduce(Min), 3:8, [Name([97] 3:12)])"),
    ("n.max(a)", "Apply(Reduce(Max), 3:8, [Name([97] 3:12)])"),
    ("n.any(a)", "Apply(Reduce(Any), 3:8, [Name([97] 3:12)])"),
    ("n.all(a)", "Apply(Reduce(All), 3:8, [Name([97] 3:12)])"),
    ("n.copy(a)", "Apply(Copy, 3:8, [Name([97] 3:13)])"),
    (
        "a.sum()",
        "Steps(Name([97] 3:6), [], Operate(Reduce(Sum), 3:8, []))",
    ),
    (
        "(a + b).all()",
        "Steps(Name([97] 3:7), [Operate(Binary(Add), 3:9, [Name([98] 3:11)])], Operate(Reduce(All), 3:14, []))",
    ),
    (
        "a.copy()",
        "Steps(Name([97] 3:6), [], Operate(Copy, 3:8, []))",
    ),
    (
        "a.sum(b)",
        "Steps(Name([97] 3:6), [], Operate(None, 3:8, [Name([98] 3:12)]))",
    ),
    (
        "a.T",
        "Steps(Name([97] 3:6), [], Operate(Transpose, 3:8, []))",
    ),
    (
        "a.size",
        "Steps(Name([97] 3:6), [], Operate(Size, 3:8, []))",
    ),
    (
        "a.shape[1]",
        "Steps(Name([97] 3:6), [], Operate(Extent(1), 3:8, []))",
    ),
    (
        "a.T.shape[-2]",
        "Steps(Name([97] 3:6), [Operate(Transpose, 3:8, [])], Operate(Extent(-2), 3:10, []))",
    ),
    (
        "n.zeros(4, dtype=int)",
        "Apply(Fresh(Zero, Int64), 3:8, [Int(4)])",
    ),
    (
        "n.ones((4, a), n.bool_)",
        "Apply(Fresh(One, Bool), 3:8, [Int(4), Name([97] 3:17)])",
    ),
    (
        "n.empty(a.shape, bool)",
        "Apply(FreshLike(Zero, Bool, 3:16), 3:8, [Name([97] 3:14)])",
    ),
    (
        "n.zeros((1, 2, 3, 4, 5), int)",
        "Apply(None, 3:8, [Int(1), Int(2), Int(3), Int(4), Int(5)])",
    ),
    (
        "n.zeros(4, int, a)",
        "Apply(None, 3:8, [Int(4), Name([97] 3:22)])",
    ),
    ("n.zeros(4, int, dtype=int)", "Apply(None, 3:8, [Int(4)])"),
    ("n.arange(4)", "Apply(Arange, 3:8, [Int(4)])"),
    ("n.arange(4, dtype=n.int64)", "Apply(Arange, 3:8, [Int(4)])"),
    ("n.arange(4, dtype=bool)", "Apply(None, 3:8, [Int(4)])"),
    (
        "n.arange(4, a)",
        "Apply(None, 3:8, [Int(4), Name([97] 3:18)])",
    ),
    (
        "a[1, :2, ::-3]",
        "Steps(Name([97] 3:6), [], Pick(3:7, [At(Int(1)), Cut(None, Some(Int(2)), None), Cut(None, None, \
         Some(Apply(Minus, 3:17, [Int(3)])))]))",
    ),
    (
        "g(a)[0].T",
        "Steps(Call([103] 3:6, [Name([97] 3:8)]), [Pick(3:10, [At(Int(0))])], Operate(Transpose, 3:14, []))",
    ),
    (
        "g(a)(b)",
        "Steps(Call([103] 3:6, [Name([97] 3:8)]), [], Operate(None, 3:10, [Name([98] 3:11)]))",
    ),
];

static STATEMENTS: (&str, &str) = (
    "import numpy as n\ndef f(a, b):\n pass\n a = 1\n a[0] = b\n a += 2\n a.T[1:] *= b\n f(a, b)\n for i in range(2, \
     b, -1):\n  a = i\n if a:\n  'text'\n elif b:\n  b = 1\n else:\n  b = 2\n return a, b\n",
    "[Routine { name: [102] 2:5, params: [[97] 2:7, [98] 2:10], weight: 97, body: [Assign([97] 4:2, 4:4, Int(1)), \
     Store(Name([97] 5:2), 5:3, [At(Int(0))], 5:7, Name([98] 5:9)), AugmentName([97] 6:2, Add, 6:4, Int(2)), \
     AugmentPick(Steps(Name([97] 7:2), [], Operate(Transpose, 7:4, [])), 7:5, [Cut(Some(Int(1)), None, None)], Mul, \
     7:10, Name([98] 7:13)), Alone([102] 8:2, [Name([97] 8:4), Name([98] 8:7)]), For(Loop { var: [105] 9:6, at: \
     9:11, args: [Int(2), Name([98] 9:20), Apply(Minus, 9:23, [Int(1)])], omp: None, [Assign([97] 10:3, 10:5, \
     Name([105] 10:7))]), If(11:2, Name([97] 11:5), [], [If(13:2, Name([98] 13:7), [Assign([98] 14:3, 14:5, \
     Int(1))], [Assign([98] 16:3, 16:5, Int(2))])]), Return(17:2, [Name([97] 17:9), Name([98] 17:12)])]]",
);

static DIRECTIVE: (&str, &str) = (
    "def f(a):\n for i in range(3):\n  pass\n #omp parallel for reduction(+:s)\n for i in range(4):\n  pass\n",
    "For(Loop { var: [105] 2:6, at: 2:11, args: [Int(3)], omp: None, []), \
     For(Loop { var: [105] 5:6, at: 5:11, args: [Int(4)], omp: Some([(Sum, [115] 4:32)]), [])",
);

// The printed lines in fewer words: lists in brackets, a place as `line:col`, a name as its bytes and place.
fn brief(alloc: Global, printed: &str) -> Result<String, AllocError> {
    printed
        .replace(alloc, "Seq { items: [", "[")?
        .replace(alloc, "Loc { line: ", "")?
        .replace(alloc, ", col: ", ":")?
        .replace(alloc, "Boxed { inner: ", "")?
        .replace(alloc, "Name { text: ", "")?
        .replace(alloc, ", loc: ", " ")?
        .replace(alloc, " }", "")
}

fn read(alloc: Global, source: &[u8]) -> Result<Module, Stop> {
    if source.len() > 1 << 31 {
        return Err(Stop::Memory);
    }
    let found = tokens(alloc, source)?;
    parse(alloc, source, &found)
}

// The routines of a source.
fn shown(alloc: Global, source: &[u8]) -> Result<String, Stop> {
    let module = read(alloc, source)?;
    let found = directives(alloc, &module)?;
    let routines = resolve(alloc, &module, found.as_slice())?;
    let mut out = String::new(alloc);
    write!(&mut out, "{routines:?}")?;
    Ok(brief(alloc, out.as_str())?)
}

fn source_of(alloc: Global, expression: &str) -> Result<String, AllocError> {
    let mut source = String::new(alloc);
    source.push_str("import numpy as n\ndef f(a, b):\n x = ")?;
    source.push_str(expression)?;
    source.push_str("\n")?;
    Ok(source)
}

fn line_of(alloc: Global, term: &str) -> Result<String, AllocError> {
    let mut line = String::new(alloc);
    line.push_str("[Assign([120] 3:2, 3:4, ")?;
    line.push_str(term)?;
    line.push_str(")]")?;
    Ok(line)
}

#[test]
fn expressions_have_their_terms(rt: HostRuntime) -> Result<(), Fail> {
    let alloc = rt.alloc();
    for row in &EXPRESSIONS {
        let source = source_of(alloc, row.0)?;
        let line = line_of(alloc, row.1)?;
        let text = shown(alloc, source.as_bytes())?;
        assert!(rt; text.contains(line.as_str()), "{} gives {text}", row.0);
    }
    Ok(())
}

#[test]
fn statements_have_their_lines(rt: HostRuntime) -> Result<(), Fail> {
    let text = shown(rt.alloc(), STATEMENTS.0.as_bytes())?;
    assert_eq!(rt; text.as_str(), STATEMENTS.1);
    let text = shown(rt.alloc(), DIRECTIVE.0.as_bytes())?;
    assert!(rt; text.contains(DIRECTIVE.1), "{text}");
    Ok(())
}

// Many imports, functions, statements and arguments.
fn large_source(alloc: Global) -> Result<String, AllocError> {
    let mut source = String::new(alloc);
    for _ in 0..300 {
        source.push_str("import numpy as n\n")?;
    }
    for _ in 0..300 {
        source.push_str(
            "def f(a):\n if a:\n  a = a + 1 + 2\n elif a:\n  pass\n else:\n  a[0] = n.sum(a)\n",
        )?;
    }
    source.push_str("def g(a):\n")?;
    for _ in 0..300 {
        source.push_str(" g(1, 2, 3, 4, 5, 6, 7, 8, 9)\n")?;
    }
    Ok(source)
}

// One expression of many operators, and one of many attributes.
fn long_lines(alloc: Global) -> Result<String, AllocError> {
    let mut source = String::new(alloc);
    source.push_str("def g(a):\n x = a")?;
    for _ in 0..20000 {
        source.push_str(" + 1")?;
    }
    source.push_str("\n y = a")?;
    for _ in 0..20000 {
        source.push_str(".T")?;
    }
    source.push_str("[0]\n y")?;
    for _ in 0..20000 {
        source.push_str("[0]")?;
    }
    source.push_str(" = x\n")?;
    Ok(source)
}

#[test]
fn long_lines_are_resolved(rt: HostRuntime) -> Result<(), Fail> {
    let alloc = rt.alloc();
    let source = long_lines(alloc)?;
    let module = read(alloc, source.as_bytes())?;
    let routines = resolve(alloc, &module, &[])?;
    let last = routines.as_slice().last().ok_or("no function")?;
    assert_eq!(rt; last.body.len(), 3);
    Ok(())
}

#[test]
fn large_modules_are_resolved(rt: HostRuntime) -> Result<(), Fail> {
    let alloc = rt.alloc();
    let source = large_source(alloc)?;
    let module = read(alloc, source.as_bytes())?;
    let routines = resolve(alloc, &module, &[])?;
    assert_eq!(rt; routines.len(), 301);
    let last = routines.as_slice().last().ok_or("no function")?;
    assert_eq!(rt; last.body.len(), 300);
    Ok(())
}
