//! Whole loop programs, with what they give.
use crate::bank::Bank;
use crate::evaluation::run_program;
use crate::fitting::{fits, fits_at, is_nest_at};
use crate::numbered::run_nest;
use eager_rules::{Arg, Call, CoreSub, Counts, Outcome, Value};
use krn_base::{BinOp, Fault, Join, Kind, Loc, NoMemory, ParamType, Seq, UnOp};
use loop_prog::{
    Back, Fill, Kernel, LoopProgram, Oper, Statement, Template, TemplateStep, Test, WordOp,
};
use omp_loops::{ValidProgram, validate};
use std::alloc::Global;
use std::process::Abort;
use std::test::Fail;
use view_places::{Array, Shape, Slice, View};

const AT: Loc = Loc { line: 4, col: 7 };

// The scalar parameter n, further scalar registers, and one of kind Bool.
const N: Oper = Oper::Name(0);

const X: Oper = Oper::Name(1);

const I: Oper = Oper::Name(2);

const T: Oper = Oper::Name(3);

const ONE: Oper = Oper::Int(1);

// The views: the parameters a and b, another one, and one of two dimensions.
const A: u32 = 0;

const B: u32 = 1;

const C: u32 = 2;

const D: u32 = 3;

// A statement without blocks.
#[derive(Clone, Copy)]
enum Plain {
    Set(u32, WordOp, &'static [Oper]),
    Extent(u32, u32, Option<u8>),
    Get(u32, u32, &'static [Oper]),
    Put(u32, &'static [Oper], Oper),
    ViewOf(u32, u32, &'static [CoreSub]),
    Flip(u32, u32),
    Same(u32, u32),
    Fresh(u32, &'static [Oper], Fill),
    Like(u32, &'static [u32]),
    Check(Test, &'static [u32]),
    Nest(u32, &'static [TemplateStep]),
    Fold(u32, Join, &'static [TemplateStep]),
    Release(u32),
    Return(&'static [Back]),
}

// A line: a statement without blocks, or one with blocks of such.
#[derive(Clone, Copy)]
enum Line {
    One(Plain),
    If(Oper, &'static [Plain], &'static [Plain]),
    For(u32, [Oper; 3], &'static [Plain]),
}

// A view of the one buffer: all of it, or a slice.
type Part = Option<(Option<i64>, Option<i64>, Option<i64>)>;

// A returned value: a word, or an array of one dimension.
#[derive(Clone, Copy)]
enum Given {
    Word(Kind, i64),
    Row(&'static [i64]),
}

// A kernel with a call and what comes of it.
#[derive(Clone, Copy)]
struct Case {
    name: &'static str,
    rets: &'static [(Kind, u8)],
    body: &'static [Line],
    buffer: &'static [i64],
    a: Part,
    b: Part,
    n: i64,
    ret: &'static [Given],
    fault: Option<Fault>,
    after: &'static [i64],
    nests: u64,
    temps: u64,
}

const WORD: &[(Kind, u8)] = &[(Kind::Int64, 0)];

const ROW: &[(Kind, u8)] = &[(Kind::Int64, 1)];

const NUMBERS: &[i64] = &[1, 2, 3, 4, 5, 6];

// Twice b, stored into a.
const DOUBLED: &[Line] = &[
    Line::One(Plain::Nest(
        A,
        &[
            TemplateStep::Leaf(B),
            TemplateStep::Word(Oper::Int(2)),
            TemplateStep::Bin(BinOp::Mul),
        ],
    )),
    Line::One(Plain::Return(&[])),
];

// The sum of the numbers below n.
const SUMMED: &[Line] = &[
    Line::One(Plain::Set(1, WordOp::Move, &[Oper::Int(0)])),
    Line::For(
        2,
        [Oper::Int(0), N, ONE],
        &[Plain::Set(1, WordOp::Bin(BinOp::Add), &[X, I])],
    ),
    Line::One(Plain::Return(&[Back::Word(X)])),
];

// A variable behind its loop: 7, or the last number below n.
const LAST: &[Line] = &[
    Line::One(Plain::Set(2, WordOp::Move, &[Oper::Int(7)])),
    Line::For(2, [Oper::Int(0), N, ONE], &[]),
    Line::One(Plain::Return(&[Back::Word(I)])),
];

// The same with steps of n from 5 on down to 0.
const STEPPED: &[Line] = &[
    Line::One(Plain::Set(2, WordOp::Move, &[Oper::Int(7)])),
    Line::For(2, [Oper::Int(5), Oper::Int(0), N], &[]),
    Line::One(Plain::Return(&[Back::Word(I)])),
];

// The numbers below n, of which the second becomes 9, with the last one.
const COUNTED: &[Line] = &[
    Line::One(Plain::Fresh(C, &[N], Fill::Count)),
    Line::One(Plain::Put(C, &[ONE], Oper::Int(9))),
    Line::One(Plain::Get(1, C, &[Oper::Int(-1)])),
    Line::One(Plain::Return(&[Back::Word(X), Back::View(C)])),
];

// a[n:] turned round, and how many there are; a itself is given back.
const CUT: &[Line] = &[
    Line::One(Plain::ViewOf(C, A, &[CoreSub::Cut(Some(N), None, Some(ONE))])),
    Line::One(Plain::Extent(1, C, Some(0))),
    Line::One(Plain::ViewOf(C, C, &[CoreSub::Cut(None, None, Some(Oper::Int(-1)))])),
    Line::One(Plain::Flip(B, C)),
    Line::One(Plain::Same(C, B)),
    Line::One(Plain::Release(B)),
    Line::One(Plain::Return(&[Back::Word(X), Back::View(C)])),
];

// A table of n rows of two, its second axis and its size, and the element 1 of its last row.
const TABLE: &[Line] = &[
    Line::One(Plain::Fresh(D, &[N, Oper::Int(2)], Fill::One)),
    Line::One(Plain::Put(D, &[Oper::Int(-1), ONE], Oper::Int(5))),
    Line::One(Plain::Extent(1, D, Some(1))),
    Line::One(Plain::Extent(2, D, None)),
    Line::One(Plain::ViewOf(C, D, &[CoreSub::At(Oper::Int(-1))])),
    Line::One(Plain::Return(&[Back::Word(X), Back::Word(I), Back::View(C)])),
];

// a + b as a new array, behind a test of the shapes.
const ADDED: &[Line] = &[
    Line::One(Plain::Check(Test::Fits, &[A, B])),
    Line::One(Plain::Like(C, &[A, B])),
    Line::One(Plain::Nest(
        C,
        &[
            TemplateStep::Leaf(A),
            TemplateStep::Leaf(B),
            TemplateStep::Bin(BinOp::Add),
        ],
    )),
    Line::One(Plain::Return(&[Back::View(C)])),
];

// The greatest element of a, of which there must be one, and whether all are other than 0.
const FOLDED: &[Line] = &[
    Line::One(Plain::Check(Test::Filled, &[A])),
    Line::One(Plain::Fold(1, Join::Max, &[TemplateStep::Leaf(A)])),
    Line::One(Plain::Fold(
        3,
        Join::Prod,
        &[TemplateStep::Leaf(A), TemplateStep::Un(UnOp::Test)],
    )),
    Line::One(Plain::Return(&[Back::Word(X), Back::Word(T)])),
];

// n where it is below 3, else 12 by it and its remainder.
const CHOSEN: &[Line] = &[
    Line::One(Plain::Set(3, WordOp::Bin(BinOp::Lt), &[N, Oper::Int(3)])),
    Line::One(Plain::Set(1, WordOp::Bin(BinOp::FloorDiv), &[Oper::Int(12), N])),
    Line::If(
        T,
        &[Plain::Return(&[Back::Word(N)])],
        &[Plain::Return(&[Back::Word(X)])],
    ),
];

const ROWS: &[Case] = &[
    Case {
        name: "a leaf behind its target",
        rets: &[],
        body: DOUBLED,
        buffer: &[1, 2, 3, 4, 5],
        a: Some((Some(1), Some(5), None)),
        b: Some((Some(0), Some(4), None)),
        n: 0,
        ret: &[],
        fault: None,
        after: &[1, 2, 4, 6, 8],
        nests: 1,
        temps: 1,
    },
    Case {
        name: "a leaf ahead of its target",
        rets: &[],
        body: DOUBLED,
        buffer: &[1, 2, 3, 4, 5],
        a: Some((Some(0), Some(4), None)),
        b: Some((Some(1), Some(5), None)),
        n: 0,
        ret: &[],
        fault: None,
        after: &[4, 6, 8, 10, 5],
        nests: 1,
        temps: 0,
    },
    Case {
        name: "a leaf between the places of its target",
        rets: &[],
        body: DOUBLED,
        buffer: NUMBERS,
        a: Some((Some(0), Some(6), Some(2))),
        b: Some((Some(1), Some(6), Some(2))),
        n: 0,
        ret: &[],
        fault: None,
        after: &[4, 2, 8, 4, 12, 6],
        nests: 1,
        temps: 0,
    },
    Case {
        name: "a target turned round",
        rets: &[],
        body: DOUBLED,
        buffer: &[1, 2, 3],
        a: Some((None, None, Some(-1))),
        b: None,
        n: 0,
        ret: &[],
        fault: None,
        after: &[6, 4, 2],
        nests: 1,
        temps: 1,
    },
];

// A kernel whose call changes nothing of 1 to 6, which both arrays are, and what it returns.
fn on_numbers(
    name: &'static str,
    rets: &'static [(Kind, u8)],
    body: &'static [Line],
    n: i64,
    ret: &'static [Given],
) -> Case {
    Case {
        name,
        rets,
        body,
        buffer: NUMBERS,
        a: None,
        b: None,
        n,
        ret,
        fault: None,
        after: NUMBERS,
        nests: 0,
        temps: 0,
    }
}

// The same where it faults.
fn faulty(
    name: &'static str,
    rets: &'static [(Kind, u8)],
    body: &'static [Line],
    n: i64,
    fault: Fault,
) -> Case {
    let mut case = on_numbers(name, rets, body, n, &[]);
    case.fault = Some(fault);
    case
}

// Another part of the buffer as b.
fn beside(case: Case, b: Part) -> Case {
    let mut case = case;
    case.b = b;
    case
}

// So many nests.
fn counted(case: Case, nests: u64) -> Case {
    let mut case = case;
    case.nests = nests;
    case
}

const KINDS: &[(Kind, u8)] = &[(Kind::Int64, 0), (Kind::Bool, 0)];

const WORD_ROW: &[(Kind, u8)] = &[(Kind::Int64, 0), (Kind::Int64, 1)];

const WORDS_ROW: &[(Kind, u8)] = &[(Kind::Int64, 0), (Kind::Int64, 0), (Kind::Int64, 1)];

fn others() -> [Case; 23] {
    [
        beside(
            faulty(
                "a leaf of another shape",
                &[],
                DOUBLED,
                0,
                Fault::ValueError,
            ),
            Some((None, Some(2), None)),
        ),
        on_numbers("a sum", WORD, SUMMED, 5, &[Given::Word(Kind::Int64, 10)]),
        on_numbers(
            "a sum of nothing",
            WORD,
            SUMMED,
            -1,
            &[Given::Word(Kind::Int64, 0)],
        ),
        on_numbers(
            "the last turn",
            WORD,
            LAST,
            3,
            &[Given::Word(Kind::Int64, 2)],
        ),
        on_numbers("no turn", WORD, LAST, 0, &[Given::Word(Kind::Int64, 7)]),
        on_numbers(
            "downwards",
            WORD,
            STEPPED,
            -2,
            &[Given::Word(Kind::Int64, 1)],
        ),
        faulty("a step of 0", WORD, STEPPED, 0, Fault::ValueError),
        on_numbers(
            "a new buffer",
            WORD_ROW,
            COUNTED,
            3,
            &[Given::Word(Kind::Int64, 2), Given::Row(&[0, 9, 2])],
        ),
        faulty(
            "a place past the end",
            WORD_ROW,
            COUNTED,
            1,
            Fault::IndexError,
        ),
        faulty(
            "numbers below a negative one",
            WORD_ROW,
            COUNTED,
            -1,
            Fault::IndexError,
        ),
        faulty("a negative extent", WORDS_ROW, TABLE, -1, Fault::ValueError),
        faulty(
            "too many elements",
            WORD_ROW,
            COUNTED,
            4_194_305,
            Fault::SizeLimit,
        ),
        on_numbers(
            "a slice turned round",
            WORD_ROW,
            CUT,
            4,
            &[Given::Word(Kind::Int64, 2), Given::Row(&[6, 5])],
        ),
        on_numbers(
            "an empty slice",
            WORD_ROW,
            CUT,
            9,
            &[Given::Word(Kind::Int64, 0), Given::Row(&[])],
        ),
        on_numbers(
            "a table",
            WORDS_ROW,
            TABLE,
            3,
            &[
                Given::Word(Kind::Int64, 2),
                Given::Word(Kind::Int64, 6),
                Given::Row(&[1, 5]),
            ],
        ),
        counted(
            on_numbers(
                "a sum of arrays",
                ROW,
                ADDED,
                0,
                &[Given::Row(&[2, 4, 6, 8, 10, 12])],
            ),
            1,
        ),
        counted(
            beside(
                on_numbers(
                    "one element for all",
                    ROW,
                    ADDED,
                    0,
                    &[Given::Row(&[4, 5, 6, 7, 8, 9])],
                ),
                Some((Some(2), Some(3), None)),
            ),
            1,
        ),
        beside(
            faulty("shapes that don't fit", ROW, ADDED, 0, Fault::ValueError),
            Some((None, Some(2), None)),
        ),
        counted(
            on_numbers(
                "folds",
                KINDS,
                FOLDED,
                0,
                &[Given::Word(Kind::Int64, 6), Given::Word(Kind::Bool, 1)],
            ),
            2,
        ),
        on_numbers(
            "the first part",
            WORD,
            CHOSEN,
            2,
            &[Given::Word(Kind::Int64, 2)],
        ),
        on_numbers(
            "the second part",
            WORD,
            CHOSEN,
            5,
            &[Given::Word(Kind::Int64, 2)],
        ),
        faulty("division by 0", WORD, CHOSEN, 0, Fault::ZeroDivisionError),
        empty(faulty("nothing to fold", KINDS, FOLDED, 0, Fault::ValueError)),
    ]
}

// The same with no element in a.
fn empty(case: Case) -> Case {
    let mut case = case;
    case.a = Some((Some(6), None, None));
    case
}

fn list<T: Copy>(alloc: Global, items: &[T]) -> Result<Seq<T>, NoMemory> {
    let mut made = Seq::new(alloc);
    for item in items {
        made.push(*item)?;
    }
    Ok(made)
}

fn statement_of(alloc: Global, plain: Plain) -> Result<Statement, NoMemory> {
    let at = AT;
    Ok(match plain {
        Plain::Set(to, op, args) => Statement::Set {
            to,
            op,
            args: list(alloc, args)?,
            at,
        },
        Plain::Extent(to, of, axis) => Statement::Extent { to, of, axis },
        Plain::Get(to, of, index) => Statement::Get {
            to,
            of,
            index: list(alloc, index)?,
            at,
        },
        Plain::Put(of, index, value) => Statement::Put {
            of,
            index: list(alloc, index)?,
            value,
            at,
        },
        Plain::ViewOf(to, of, subs) => Statement::ViewOf {
            to,
            of,
            subs: list(alloc, subs)?,
            at,
        },
        Plain::Flip(to, of) => Statement::Flip { to, of },
        Plain::Same(to, of) => Statement::Same { to, of },
        Plain::Fresh(to, dims, fill) => Statement::Fresh {
            to,
            dims: list(alloc, dims)?,
            fill,
            at,
        },
        Plain::Like(to, views) => Statement::Like {
            to,
            views: list(alloc, views)?,
            at,
        },
        Plain::Check(test, views) => Statement::Check {
            test,
            views: list(alloc, views)?,
            at,
        },
        Plain::Nest(to, steps) => Statement::Nest {
            to,
            template: Template {
                steps: list(alloc, steps)?,
            },
            at,
        },
        Plain::Fold(to, join, steps) => Statement::Fold {
            to,
            join,
            template: Template {
                steps: list(alloc, steps)?,
            },
            at,
        },
        Plain::Release(view) => Statement::Release { view },
        Plain::Return(values) => Statement::Return {
            values: list(alloc, values)?,
        },
    })
}

fn block_of(alloc: Global, block: &[Plain]) -> Result<Seq<Statement>, NoMemory> {
    let mut made = Seq::new(alloc);
    for plain in block {
        made.push(statement_of(alloc, *plain)?)?;
    }
    Ok(made)
}

fn line_of(alloc: Global, line: Line) -> Result<Statement, NoMemory> {
    Ok(match line {
        Line::One(plain) => statement_of(alloc, plain)?,
        Line::If(cond, yes, no) => Statement::If {
            cond,
            yes: block_of(alloc, yes)?,
            no: block_of(alloc, no)?,
        },
        Line::For(var, range, body) => Statement::For {
            var,
            lo: range[0],
            hi: range[1],
            step: range[2],
            at: AT,
            body: block_of(alloc, body)?,
        },
    })
}

fn kernel_of(alloc: Global, case: &Case) -> Result<Kernel, NoMemory> {
    let mut body = Seq::new(alloc);
    for line in case.body {
        body.push(line_of(alloc, *line)?)?;
    }
    let mut params = Seq::new(alloc);
    params.push((list(alloc, b"a")?, ParamType::Strided(Kind::Int64, 1)))?;
    params.push((list(alloc, b"b")?, ParamType::Strided(Kind::Int64, 1)))?;
    params.push((list(alloc, b"n")?, ParamType::Scalar(Kind::Int64)))?;
    let int = Kind::Int64;
    Ok(Kernel {
        name: list(alloc, b"k")?,
        params,
        regs: list(alloc, &[int, int, int, Kind::Bool])?,
        views: list(alloc, &[(int, 1), (int, 1), (int, 1), (int, 2)])?,
        rets: list(alloc, case.rets)?,
        body,
    })
}

// The kernel behind another one of another name.
fn program_of(alloc: Global, case: &Case) -> Result<LoopProgram, NoMemory> {
    let mut first = kernel_of(alloc, &on_numbers("", WORD, SUMMED, 0, &[]))?;
    first.name = list(alloc, b"first")?;
    let mut kernels = Seq::new(alloc);
    kernels.push(first)?;
    kernels.push(kernel_of(alloc, case)?)?;
    Ok(LoopProgram { kernels })
}

fn row(alloc: Global, words: &[i64]) -> Result<Array, NoMemory> {
    let count = match u32::try_from(words.len()) {
        Ok(count) => count,
        Err(_) => 0,
    };
    Ok(Array {
        kind: Kind::Int64,
        shape: Shape {
            rank: 1,
            extent: [count, 1, 1, 1],
        },
        words: list(alloc, words)?,
    })
}

const THREE: Shape = Shape {
    rank: 1,
    extent: [3, 1, 1, 1],
};

const FIVE: Shape = Shape {
    rank: 1,
    extent: [5, 1, 1, 1],
};

const SIX: Shape = Shape {
    rank: 1,
    extent: [6, 1, 1, 1],
};

// The whole of a buffer of three, five or six words.
fn whole_of(buffer: &[i64]) -> View {
    match buffer.len() {
        3 => View::whole(0, &THREE),
        5 => View::whole(0, &FIVE),
        _ => View::whole(0, &SIX),
    }
}

// A part of the buffer.
fn view_of(buffer: &[i64], part: Part) -> View {
    let whole = whole_of(buffer);
    let Some((start, stop, step)) = part else {
        return whole;
    };
    if whole.rank == 0 {
        return whole;
    }
    match whole.slice(0, Slice { start, stop, step }) {
        Ok(view) => view,
        Err(_fault) => whole,
    }
}

fn call_of(alloc: Global, case: &Case) -> Result<Call, NoMemory> {
    let mut buffers = Seq::new(alloc);
    buffers.push(row(alloc, case.buffer)?)?;
    let args = [
        Arg::Array(view_of(case.buffer, case.a)),
        Arg::Array(view_of(case.buffer, case.b)),
        Arg::Word(case.n),
    ];
    Ok(Call {
        buffers,
        args: list(alloc, &args)?,
    })
}

fn outcome_of(alloc: Global, case: &Case) -> Result<Outcome, NoMemory> {
    let mut ret = Seq::new(alloc);
    for given in case.ret {
        ret.push(match given {
            Given::Word(kind, word) => Value::Word(*kind, *word),
            Given::Row(words) => Value::Array(row(alloc, words)?),
        })?;
    }
    let mut buffers = Seq::new(alloc);
    buffers.push(list(alloc, case.after)?)?;
    Ok(Outcome {
        ret,
        buffers,
        fault: match case.fault {
            Some(fault) => Some((fault, AT)),
            None => None,
        },
    })
}

// Runs the kernel of a case, and compares what it gives and counts.
fn run_case<R: AllocGlobal + Abort>(rt: &R, alloc: Global, case: &Case) -> Result<(), Fail> {
    let call = call_of(alloc, case)?;
    let Ok(program) = validate(alloc, program_of(alloc, case)?) else {
        assert!(rt; false, "{}", case.name);
        return Ok(());
    };
    if !fits_at(&program, 1, &call) {
        assert!(rt; false, "{}", case.name);
        return Ok(());
    }
    let ran = run_program(alloc, &program, 1, &call)?;
    let counts = Counts {
        nests: case.nests,
        temps: case.temps,
        parallel: 0,
        serial: 0,
    };
    assert_eq!(rt; ran.outcome, outcome_of(alloc, case)?, "{}", case.name);
    assert_eq!(rt; ran.counts, counts, "{}", case.name);
    Ok(())
}

#[test]
fn kernels_that_nest(rt: HostRuntime) -> Result<(), Fail> {
    let alloc = rt.alloc();
    for case in ROWS {
        run_case(&rt, alloc, case)?;
    }
    Ok(())
}

#[test]
fn kernels_of_every_statement(rt: HostRuntime) -> Result<(), Fail> {
    let alloc = rt.alloc();
    for case in &others() {
        run_case(&rt, alloc, case)?;
    }
    Ok(())
}

// A kernel that isn't there gives the buffers as they were.
#[test]
fn no_such_kernel(rt: HostRuntime) -> Result<(), Fail> {
    let alloc = rt.alloc();
    let case = on_numbers("", WORD, SUMMED, 0, &[]);
    let call = call_of(alloc, &case)?;
    let Ok(program) = validate(alloc, program_of(alloc, &case)?) else {
        assert!(rt; false);
        return Ok(());
    };
    if fits_at(&program, 2, &call) {
        let ran = run_program(alloc, &program, 2, &call)?;
        assert_eq!(rt; ran.outcome, outcome_of(alloc, &case)?);
    }
    Ok(())
}

// Starts a bank, runs the first statement, a nest, and compares the buffer that is left.
fn nest_case<R: AllocGlobal + Abort>(rt: &R, alloc: Global, case: &Case) -> Result<(), Fail> {
    let call = call_of(alloc, case)?;
    let kernel = kernel_of(alloc, case)?;
    if !fits(&kernel, &call) {
        assert!(rt; false, "{}", case.name);
        return Ok(());
    }
    let mut bank = Bank::start(alloc, &kernel, &call)?;
    if !is_nest_at(&kernel, 0, &bank) {
        assert!(rt; false, "{}", case.name);
        return Ok(());
    }
    let used = run_nest(alloc, &kernel, 0, &mut bank)?;
    assert_eq!(rt; used, case.temps == 1, "{}", case.name);
    assert_eq!(rt;
        bank.finish(),
        outcome_of(alloc, case)?.buffers,
        "{}",
        case.name
    );
    Ok(())
}

#[test]
fn nests_by_number(rt: HostRuntime) -> Result<(), Fail> {
    let alloc = rt.alloc();
    for case in ROWS {
        nest_case(&rt, alloc, case)?;
    }
    Ok(())
}
