//! Notes made by hand from the rules of this project, each with what it says or the place at which it is refused.

use crate::{directives, exports};
use krn_base::{Loc, Stop};
use py_lex::tokens;
use py_parse::{Module, Name, parse};
use std::alloc::{AllocError, Global};
use std::fmt::Write;
use std::test::Fail;

fn read(alloc: Global, source: &[u8]) -> Result<Module, Stop> {
    if source.len() > 1 << 31 {
        return Err(Stop::Memory);
    }
    let found = tokens(alloc, source)?;
    parse(alloc, source, &found)
}

fn push_loc(out: &mut String, loc: Loc) -> Result<(), AllocError> {
    let line = loc.line;
    let col = loc.col;
    write!(out, "{line}:{col}")
}

fn push_name(out: &mut String, name: &Name) -> Result<(), AllocError> {
    for b in name.text.as_slice() {
        out.push(char::from(*b))?;
    }
    out.push_str("@")?;
    push_loc(out, name.loc)
}

fn refused(alloc: Global, stop: Stop) -> Result<String, AllocError> {
    let mut out = String::new(alloc);
    match stop {
        Stop::Refused(refusal) => {
            let rule = refusal.rule;
            write!(&mut out, "{rule:?} ")?;
            push_loc(&mut out, refusal.loc)?;
        }
        Stop::Memory => out.push_str("no memory")?,
    }
    Ok(out)
}

// A line for each signature: the name with its place, the types, the place of the note.
fn exports_shown(alloc: Global, source: &[u8]) -> Result<String, AllocError> {
    match read(alloc, source).and_then(|module| exports(alloc, &module)) {
        Ok(signatures) => {
            let mut out = String::new(alloc);
            for signature in signatures.as_slice() {
                push_name(&mut out, &signature.name)?;
                let params = signature.params.as_slice();
                write!(&mut out, " {params:?} ")?;
                push_loc(&mut out, signature.loc)?;
                out.push_str(";")?;
            }
            Ok(out)
        }
        Err(stop) => refused(alloc, stop),
    }
}

// For each directive the place of the note, that of the `for`, and the reductions.
fn directives_shown(alloc: Global, source: &[u8]) -> Result<String, AllocError> {
    match read(alloc, source).and_then(|module| directives(alloc, &module)) {
        Ok(directives) => {
            let mut out = String::new(alloc);
            for directive in directives.as_slice() {
                push_loc(&mut out, directive.loc)?;
                out.push_str(" ")?;
                push_loc(&mut out, directive.target)?;
                for pair in directive.reductions.as_slice() {
                    let join = pair.0;
                    write!(&mut out, " {join:?} ")?;
                    push_name(&mut out, &pair.1)?;
                }
                out.push_str(";")?;
            }
            Ok(out)
        }
        Err(stop) => refused(alloc, stop),
    }
}

fn joined(alloc: Global, parts: &[&[u8]]) -> Result<Vec<u8>, AllocError> {
    let mut out = Vec::new(alloc);
    for part in parts {
        out.extend_from_slice(part)?;
    }
    Ok(out)
}

// What a note says that stands before functions of one, no and two parameters.
fn export_shown(alloc: Global, note: &[u8]) -> Result<String, AllocError> {
    let functions = b"\ndef f(a): pass\ndef g(): pass\ndef h(a, b): pass\n";
    let source = joined(alloc, &[note, functions.as_slice()])?;
    exports_shown(alloc, source.as_slice())
}

// What a note says that stands before a loop.
fn directive_shown(alloc: Global, note: &[u8]) -> Result<String, AllocError> {
    let before = b"def f(a):\n    ";
    let after = b"\n    for i in range(3): pass\n";
    let source = joined(alloc, &[before.as_slice(), note, after.as_slice()])?;
    directives_shown(alloc, source.as_slice())
}

static EXPORTS: [(&[u8], &str); 18] = [
    (b"#pythran export f(int)", "f@1:17 [Scalar(Int64)] 1:1;"),
    (b"#pythran export f(int64)", "f@1:17 [Scalar(Int64)] 1:1;"),
    (
        b"# \tpythran\t export  f ( bool )",
        "f@1:21 [Scalar(Bool)] 1:1;",
    ),
    (b"#pythran export g()", "g@1:17 [] 1:1;"),
    (b"#pythran export g ( \t)", "g@1:17 [] 1:1;"),
    (
        b"#pythran export h(int,bool)",
        "h@1:17 [Scalar(Int64), Scalar(Bool)] 1:1;",
    ),
    (
        b"#pythran export h(int[],bool[:,:])",
        "h@1:17 [Flat(Int64, 1), Flat(Bool, 2)] 1:1;",
    ),
    (
        b"#pythran export h(int64 [ ] [ ] [ ][ ] ,int[::])",
        "h@1:17 [Flat(Int64, 4), Strided(Int64, 1)] 1:1;",
    ),
    (
        b"#pythran export h(bool[::][::][::], int[ :: , : : ])",
        "h@1:17 [Strided(Bool, 3), Strided(Int64, 2)] 1:1;",
    ),
    (
        b"#pythran export h(int[:], int[][])",
        "h@1:17 [Flat(Int64, 1), Flat(Int64, 2)] 1:1;",
    ),
    (
        b"#pythran export h(int[][][], int[:,:,:])",
        "h@1:17 [Flat(Int64, 3), Flat(Int64, 3)] 1:1;",
    ),
    (
        b"#pythran export h(int[:,:,:,:], int[::,::,::,::])",
        "h@1:17 [Flat(Int64, 4), Strided(Int64, 4)] 1:1;",
    ),
    (
        b"#pythran export h(int[::][::], int[::,::,::])",
        "h@1:17 [Strided(Int64, 2), Strided(Int64, 3)] 1:1;",
    ),
    (
        b"#pythran export f(int[::][::][::][::])",
        "f@1:17 [Strided(Int64, 4)] 1:1;",
    ),
    (
        b"#pythran export f(int[])\n#pythran export f(int[::])",
        "f@1:17 [Flat(Int64, 1)] 1:1;f@2:17 [Strided(Int64, 1)] 2:1;",
    ),
    (
        b"def f(): pass\n#pythran export g()\n#pythran export f()",
        "g@2:17 [] 2:1;f@3:17 [] 3:1;",
    ),
    (b"#omp\n#pythranexport f(int)", ""),
    (b"", ""),
];

static REFUSED_EXPORTS: [(&[u8], &str); 43] = [
    (b"#pythran", "Export 1:1"),
    (b"#pythran export", "Export 1:1"),
    (b"#pythran export f", "Export 1:1"),
    (b"#pythran exportf(int)", "Export 1:1"),
    (b"#pythran  Export f(int)", "Export 1:1"),
    (b"#pythran export f(int) ", "Export 1:1"),
    (b"#pythran export f(int)\t", "Export 1:1"),
    (b"#pythran export f(int))", "Export 1:1"),
    (b"#pythran export f(int)x", "Export 1:1"),
    (b"#pythran export f(int", "Export 1:1"),
    (b"#pythran export f(int,)", "Export 1:1"),
    (b"#pythran export f(,int)", "Export 1:1"),
    (b"#pythran export h(int int)", "Export 1:1"),
    (b"#pythran export f(in t)", "Export 1:1"),
    (b"#pythran export f(int 64)", "Export 1:1"),
    (b"#pythran export f(int[][][][][])", "Export 1:1"),
    (b"#pythran export f(int[:,:,:,:,:])", "Export 1:1"),
    (b"#pythran export f(int[::][::][::][::][::])", "Export 1:1"),
    (b"#pythran export f(int[::,::,::,::,::])", "Export 1:1"),
    (b"#pythran export f(int[][::])", "Export 1:1"),
    (b"#pythran export f(int[:][:])", "Export 1:1"),
    (b"#pythran export f(int[::,:])", "Export 1:1"),
    (b"#pythran export f(int[:::])", "Export 1:1"),
    (b"#pythran export f(int[:,])", "Export 1:1"),
    (b"#pythran export f(int[,:])", "Export 1:1"),
    (b"#pythran export f(int[,])", "Export 1:1"),
    (b"#pythran export f(int[3])", "Export 1:1"),
    (b"#pythran export f(int[)", "Export 1:1"),
    (b"#pythran export f(int])", "Export 1:1"),
    (b"#pythran export f(int[]])", "Export 1:1"),
    (b"#pythran export f(int32[])", "Export 1:1"),
    (b"#pythran export f(float)", "Export 1:1"),
    (b"#pythran export f(int or bool)", "Export 1:1"),
    (b"#pythran export f(int), g()", "Export 1:1"),
    (b"#pythran export f()", "Export 1:1"),
    (b"#pythran export f(int, int)", "Export 1:1"),
    (b"#pythran export x(int)", "Export 1:1"),
    (b"#pythran export if(int)", "Export 1:1"),
    (b"#pythran export 1f(int)", "Export 1:1"),
    (b"#pythran export g()\n#pythran x", "Export 2:1"),
    (
        b"#pythran export f(int[][])\n\n#pythran export f( int64[:,:])",
        "Export 3:1",
    ),
    (b"#pythran export g()\n#pythran export g( )", "Export 2:1"),
    (
        b"def g(a): pass\n#pythran export g()\n#pythran export f()",
        "Export 2:1",
    ),
];

#[test]
fn reads_exports(rt: HostRuntime) -> Result<(), Fail> {
    for (note, wanted) in &EXPORTS {
        let shown = export_shown(rt.alloc(), note)?;
        assert_eq!(rt; shown.as_str(), *wanted);
    }
    Ok(())
}

#[test]
fn refuses_exports(rt: HostRuntime) -> Result<(), Fail> {
    for (note, wanted) in &REFUSED_EXPORTS {
        let shown = export_shown(rt.alloc(), note)?;
        assert_eq!(rt; shown.as_str(), *wanted);
    }
    Ok(())
}

static DIRECTIVES: [(&[u8], &str); 12] = [
    (b"#omp parallel for", "2:5 3:5;"),
    (b"#omp parallel for reduction(+:s)", "2:5 3:5 Sum s@2:35;"),
    (
        b"# \tomp\tparallel  for\t reduction(max:ab,c)",
        "2:5 3:5 Max ab@2:41 Max c@2:44;",
    ),
    (
        b"#omp parallel for reduction(*:a) reduction(&:b) reduction(|:c)",
        "2:5 3:5 Prod a@2:35 And b@2:50 Or c@2:65;",
    ),
    (
        b"#omp parallel for reduction(^:if) reduction(min:min)",
        "2:5 3:5 Xor if@2:35 Min min@2:53;",
    ),
    (
        b"#omp parallel for private(i,i) schedule(static) private(_a1) default(shared) schedule(static)",
        "2:5 3:5;",
    ),
    (
        b"#omp parallel for private(s) reduction(+:s)",
        "2:5 3:5 Sum s@2:46;",
    ),
    (b"pass\n  #omp parallel for", "3:3 4:5;"),
    (
        b"if a:\n        pass\n        #omp parallel for",
        "4:9 5:5;",
    ),
    (
        b"#omp parallel for\n    for j in range(2):\n        pass\n    #omp parallel for",
        "2:5 3:5;5:5 6:5;",
    ),
    (b"#omp parallel for\n#pythran x\n", "2:5 5:5;"),
    (b"pass", ""),
];

static REFUSED_DIRECTIVES: [(&[u8], &str); 28] = [
    (b"#omp", "Directive 2:5"),
    (b"#omp parallel", "Directive 2:5"),
    (b"#omp parallel for ", "Directive 2:5"),
    (b"#omp parallel for schedule(static) ", "Directive 2:5"),
    (b"#omp parallelfor", "Directive 2:5"),
    (b"#omp for parallel", "Directive 2:5"),
    (b"#omp parallel forreduction(+:s)", "Directive 2:5"),
    (
        b"#omp parallel for reduction(+:s)private(i)",
        "Directive 2:5",
    ),
    (b"#omp parallel for, private(i)", "Directive 2:5"),
    (b"#omp parallel for reduction(+: s)", "Directive 2:5"),
    (b"#omp parallel for reduction (+:s)", "Directive 2:5"),
    (b"#omp parallel for reduction(+:s )", "Directive 2:5"),
    (b"#omp parallel for reduction(-:s)", "Directive 2:5"),
    (b"#omp parallel for reduction(+:)", "Directive 2:5"),
    (b"#omp parallel for reduction(+:s,)", "Directive 2:5"),
    (b"#omp parallel for reduction(+:s;t)", "Directive 2:5"),
    (b"#omp parallel for reduction(+:1s)", "Directive 2:5"),
    (b"#omp parallel for reduction(+:s", "Directive 2:5"),
    (b"#omp parallel for reduction(+:s,s)", "Directive 2:5"),
    (
        b"#omp parallel for reduction(+:s) reduction(*:t,s)",
        "Directive 2:5",
    ),
    (b"#omp parallel for private()", "Directive 2:5"),
    (b"#omp parallel for schedule(dynamic)", "Directive 2:5"),
    (b"#omp parallel for schedule(static,4)", "Directive 2:5"),
    (b"#omp parallel for default(none)", "Directive 2:5"),
    (b"#omp parallel for collapse(2)", "Directive 2:5"),
    (b"#omp parallel for\n    pass", "Directive 2:5"),
    (b"#omp parallel for\n    #omp parallel for", "Directive 2:5"),
    (b"pass\n    #omp parallel for\ndef g():", "Directive 3:5"),
];

#[test]
fn reads_directives(rt: HostRuntime) -> Result<(), Fail> {
    for (note, wanted) in &DIRECTIVES {
        let shown = directive_shown(rt.alloc(), note)?;
        assert_eq!(rt; shown.as_str(), *wanted);
    }
    Ok(())
}

#[test]
fn refuses_directives(rt: HostRuntime) -> Result<(), Fail> {
    for (note, wanted) in &REFUSED_DIRECTIVES {
        let shown = directive_shown(rt.alloc(), note)?;
        assert_eq!(rt; shown.as_str(), *wanted);
    }
    Ok(())
}

fn push_times(out: &mut Vec<u8>, part: &[u8], count: usize) -> Result<(), AllocError> {
    for _ in 0..count {
        out.extend_from_slice(part)?;
    }
    Ok(())
}

// Functions of sixteen parameters and of seventeen, and as many exports of the first as are asked for, each with other
// types.
fn many_exports(alloc: Global, count: usize) -> Result<Vec<u8>, AllocError> {
    let types: [&[u8]; 9] = [
        b"int",
        b"bool",
        b"int[]",
        b"bool[]",
        b"int[::]",
        b"bool[::]",
        b"int[][]",
        b"bool[][]",
        b"int[][][]",
    ];
    let mut out = Vec::from_slice(alloc, b"def f(a,b,c,d,e,f,g,h,i,j,k,l,m,n,o,p): pass\n")?;
    out.extend_from_slice(b"def g(a,b,c,d,e,f,g,h,i,j,k,l,m,n,o,p,q): pass\n")?;
    for k in 0..count {
        out.extend_from_slice(b"#pythran export f(")?;
        push_times(&mut out, b"int,", 14)?;
        out.extend_from_slice(types[k / 9 % 9])?;
        out.extend_from_slice(b",")?;
        out.extend_from_slice(types[k % 9])?;
        out.extend_from_slice(b")\n")?;
    }
    Ok(out)
}

fn export_count(alloc: Global, source: &[u8]) -> Result<usize, Stop> {
    let module = read(alloc, source)?;
    Ok(exports(alloc, &module)?.as_slice().len())
}

#[test]
fn reads_as_many_exports_as_there_may_be(rt: HostRuntime) -> Result<(), Fail> {
    let source = many_exports(rt.alloc(), 64)?;
    assert_eq!(rt; export_count(rt.alloc(), source.as_slice())?, 64);
    let source = many_exports(rt.alloc(), 20_000)?;
    let shown = exports_shown(rt.alloc(), source.as_slice())?;
    assert_eq!(rt; shown.as_str(), "Export 67:1");
    let mut source = many_exports(rt.alloc(), 1)?;
    source.extend_from_slice(b"#pythran export g(")?;
    push_times(&mut source, b"int,", 16)?;
    source.extend_from_slice(b"int)\n")?;
    let shown = exports_shown(rt.alloc(), source.as_slice())?;
    assert_eq!(rt; shown.as_str(), "Export 4:1");
    Ok(())
}

#[test]
fn reads_long_notes(rt: HostRuntime) -> Result<(), Fail> {
    let mut note = Vec::from_slice(rt.alloc(), b"#pythran export f(")?;
    push_times(&mut note, b" ", 1_048_000)?;
    note.extend_from_slice(b"int)")?;
    let shown = export_shown(rt.alloc(), note.as_slice())?;
    assert_eq!(rt; shown.as_str(), "f@1:17 [Scalar(Int64)] 1:1;");
    let mut note = Vec::from_slice(rt.alloc(), b"#pythran export f(int")?;
    push_times(&mut note, b"[]", 500_000)?;
    note.extend_from_slice(b")")?;
    let shown = export_shown(rt.alloc(), note.as_slice())?;
    assert_eq!(rt; shown.as_str(), "Export 1:1");
    Ok(())
}

// Loops one behind the other, each with a note that names as many reductions as are asked for.
fn many_loops(alloc: Global, loops: usize, names: usize) -> Result<Vec<u8>, AllocError> {
    let mut out = Vec::from_slice(alloc, b"def f(a):\n")?;
    for _ in 0..loops {
        out.extend_from_slice(b" #omp parallel for reduction(+:n")?;
        for k in 0..names {
            let text = k.to_string(alloc)?;
            out.extend_from_slice(b",n")?;
            out.extend_from_slice(text.as_bytes())?;
        }
        out.extend_from_slice(b")\n for i in a: pass\n")?;
    }
    Ok(out)
}

// How many directives there are, and how many reductions in all.
fn counted(alloc: Global, source: &[u8]) -> Result<(usize, usize), Stop> {
    let module = read(alloc, source)?;
    let directives = directives(alloc, &module)?;
    let mut reductions = 0usize;
    for directive in directives.as_slice() {
        reductions = reductions.saturating_add(directive.reductions.as_slice().len());
    }
    Ok((directives.as_slice().len(), reductions))
}

#[test]
fn reads_many_directives(rt: HostRuntime) -> Result<(), Fail> {
    let source = many_loops(rt.alloc(), 10_000, 3)?;
    assert_eq!(rt; counted(rt.alloc(), source.as_slice())?, (10_000, 40_000));
    let source = many_loops(rt.alloc(), 1, 100_000)?;
    assert_eq!(rt; counted(rt.alloc(), source.as_slice())?, (1, 100_001));
    Ok(())
}
