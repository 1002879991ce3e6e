use crate::{ValidProgram, place_loops, validate};
use krn_base::{Kind, Loc, NoMemory, Refusal, Rule, Seq, Stop};
use loop_prog::{
    Back, CheckStop, Guard, GuardPart, InvalidRule, Kernel, LoopProgram, Oper, Reg, Statement,
    check,
};
use std::alloc::Global;
use std::process::Abort;
use std::test::Fail;

const HERE: Loc = Loc { line: 3, col: 5 };

const FIRST: Loc = Loc { line: 2, col: 5 };

const ONE: Oper = Oper::Int(1);

fn list<T: Copy>(alloc: Global, items: &[T]) -> Result<Seq<T>, NoMemory> {
    let mut made = Seq::new(alloc);
    for item in items {
        made.push(*item)?;
    }
    Ok(made)
}

fn one(alloc: Global, statement: Statement) -> Result<Seq<Statement>, NoMemory> {
    let mut body = Seq::new(alloc);
    body.push(statement)?;
    Ok(body)
}

fn looped(body: Seq<Statement>) -> Statement {
    Statement::For {
        var: 0,
        lo: ONE,
        hi: ONE,
        step: ONE,
        at: FIRST,
        body,
    }
}

fn parallel(alloc: Global, at: Loc, body: Seq<Statement>) -> Statement {
    Statement::ParFor {
        var: 0,
        lo: ONE,
        hi: ONE,
        step: ONE,
        at,
        guard: Guard {
            parts: Seq::<GuardPart>::new(alloc),
        },
        reductions: Seq::new(alloc),
        privates: Seq::<Reg>::new(alloc),
        body,
    }
}

// A kernel of one scalar register without parameters: the statements, and a Return of 1 behind them.
fn kernel(alloc: Global, name: &[u8], body: Seq<Statement>) -> Result<Kernel, NoMemory> {
    let mut body = body;
    body.push(Statement::Return {
        values: list(alloc, &[Back::Word(ONE)])?,
    })?;
    Ok(Kernel {
        name: list(alloc, name)?,
        params: Seq::new(alloc),
        regs: list(alloc, &[Kind::Int64])?,
        views: Seq::new(alloc),
        rets: list(alloc, &[(Kind::Int64, 0)])?,
        body,
    })
}

// A program by its number: two kernels, the first of which is empty but for its Return.
fn program(alloc: Global, number: usize) -> Result<LoopProgram, NoMemory> {
    let empty = Seq::new(alloc);
    let body = match number {
        0 => empty,
        1 => one(alloc, looped(empty))?,
        2 => one(alloc, parallel(alloc, HERE, empty))?,
        3 => one(alloc, looped(one(alloc, parallel(alloc, HERE, empty))?))?,
        4 => one(
            alloc,
            Statement::If {
                cond: Oper::Truth(true),
                yes: one(alloc, looped(empty))?,
                no: one(alloc, parallel(alloc, HERE, Seq::new(alloc)))?,
            },
        )?,
        5 => {
            let inner = one(alloc, parallel(alloc, FIRST, empty))?;
            let mut body = one(alloc, looped(Seq::new(alloc)))?;
            body.push(parallel(alloc, HERE, inner))?;
            body
        }
        // A flaw behind a parallel loop: a Return that isn't the last.
        _ => {
            let mut body = one(alloc, parallel(alloc, HERE, empty))?;
            body.push(Statement::Return {
                values: list(alloc, &[Back::Word(ONE)])?,
            })?;
            body
        }
    };
    let mut kernels = Seq::new(alloc);
    kernels.push(kernel(alloc, b"first", Seq::new(alloc))?)?;
    kernels.push(kernel(alloc, b"second", body)?)?;
    Ok(LoopProgram { kernels })
}

// What validation says of each, counted over both kernels.
static FOUND: [Option<(u32, InvalidRule)>; 7] = [
    None,
    None,
    Some((1, InvalidRule::Loop)),
    Some((2, InvalidRule::Loop)),
    Some((3, InvalidRule::Loop)),
    Some((2, InvalidRule::Loop)),
    Some((2, InvalidRule::Return)),
];

// The first two programs are placed as they are; the others are refused.
fn placed<R: AllocGlobal + Abort>(
    rt: &R,
    alloc: Global,
    number: usize,
    answer: Result<ValidProgram, Stop>,
) -> Result<(), Fail> {
    match answer {
        Ok(valid) => {
            assert!(rt; number < 2);
            assert_eq!(rt; *valid.program(), program(alloc, number)?);
        }
        Err(stop) => {
            assert!(rt; 2 <= number);
            let refused = Refusal {
                rule: Rule::LoopForm,
                loc: HERE,
            };
            assert_eq!(rt; stop, Stop::Refused(refused));
        }
    }
    Ok(())
}

#[test]
fn programs_from_anywhere(rt: HostRuntime) -> Result<(), Fail> {
    let alloc = rt.alloc();
    for (number, found) in FOUND.iter().enumerate() {
        let answer = validate(alloc, program(alloc, number)?);
        match answer {
            Ok(valid) => {
                assert_eq!(rt; *valid.program(), program(alloc, number)?);
                assert_eq!(rt; None, *found);
            }
            Err(CheckStop::Invalid { at, rule }) => assert_eq!(rt; Some((at, rule)), *found),
            Err(CheckStop::Memory) => assert!(rt; false),
        }
    }
    Ok(())
}

#[test]
fn parallel_loops_at_their_places(rt: HostRuntime) -> Result<(), Fail> {
    let alloc = rt.alloc();
    for number in 0..6 {
        let made = program(alloc, number)?;
        match check(&made, alloc) {
            Ok(()) => placed(&rt, alloc, number, place_loops(made))?,
            Err(_flaw) => assert!(rt; false),
        }
    }
    Ok(())
}
