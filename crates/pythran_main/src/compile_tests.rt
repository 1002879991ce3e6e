//! Texts that are compiled to loop programs, and texts that are refused.

use crate::compile::compile_text;
use krn_base::{Loc, Refusal, Rule, Stop};
use std::alloc::Global;
use std::test::Fail;

/// One function with two export notes.
const TWO: &str = "#pythran export f(int)\n#pythran export f(bool)\ndef f(n):\n    return n\n";

/// A call of an own function.
const OWN: &str = "#pythran export f(int)\ndef f(n):\n    return g(n)\ndef g(n):\n    return n\n";

/// An operand is missing.
const CUT: &str = "#pythran export f(int)\ndef f(n):\n    return n +\n";

/// A name that one path leaves unassigned.
const UNASSIGNED: &str =
    "#pythran export f(int)\ndef f(n):\n    if n > 0:\n        m = n\n    return m\n";

/// How many kernels the loop program of a text has.
fn kernels_of(alloc: Global, text: &str) -> Result<usize, Stop> {
    let source = text.as_bytes();
    if source.len() > 1 << 31 {
        return Err(Stop::Memory);
    }
    let loops = compile_text(alloc, source)?;
    Ok(loops.program().kernels.len())
}

fn refused(rule: Rule, line: u32, col: u32) -> Result<usize, Stop> {
    Err(Stop::Refused(Refusal {
        rule,
        loc: Loc { line, col },
    }))
}

#[test]
fn texts_are_compiled(rt: HostRuntime) -> Result<(), Fail> {
    let alloc = rt.alloc();
    assert_eq!(rt; kernels_of(alloc, TWO), Ok(2));
    assert_eq!(rt; kernels_of(alloc, ""), Ok(0));
    assert_eq!(rt; kernels_of(alloc, OWN), Ok(1));
    assert_eq!(rt; kernels_of(alloc, CUT), refused(Rule::Syntax, 3, 15));
    assert_eq!(rt;
        kernels_of(alloc, UNASSIGNED),
        refused(Rule::Unassigned, 5, 12)
    );
    Ok(())
}
