use crate::fold;
use eager_rules::{Core, Instance, Oper, Program, WordOp};
use krn_base::{BinOp, Join, Kind, Loc, ParamType, Seq, UnOp};
use std::alloc::{AllocError, Global};
use std::process::Abort;
use std::test::Fail;

const AT: Loc = Loc { line: 1, col: 1 };

const INT: (Kind, u8) = (Kind::Int64, 0);

const BOOL: (Kind, u8) = (Kind::Bool, 0);

const ROW: (Kind, u8) = (Kind::Int64, 1);

const ADD: WordOp = WordOp::Bin(BinOp::Add);

const DIVIDE: WordOp = WordOp::Bin(BinOp::FloorDiv);

const LESS: WordOp = WordOp::Bin(BinOp::Lt);

/// A statement of a body, which is a list of them with each block behind its statement.
#[derive(Clone, Copy)]
enum Plain {
    Word(u32, WordOp, &'static [Oper]),
    Get(u32, u32, &'static [Oper]),
    /// The next two blocks are the parts.
    If(Oper),
    /// The next block is in a loop that adds to a name.
    Sum(u32, u32, Oper),
    Return(&'static [Oper]),
}

/// A body: its statements, and the blocks of its first statement that has blocks.
type Body = (&'static [Plain], &'static [Plain], &'static [Plain]);

fn list<T: Copy>(alloc: Global, items: &[T]) -> Result<Seq<T>, AllocError> {
    Ok(Seq::from_vec(Vec::from_slice(alloc, items)?))
}

/// The sum's directive.
fn added(alloc: Global, name: u32) -> Result<Seq<(Join, u32)>, AllocError> {
    list(alloc, &[(Join::Sum, name)])
}

fn core_of(
    alloc: Global,
    plain: &Plain,
    yes: Seq<Core>,
    no: Seq<Core>,
) -> Result<Core, AllocError> {
    Ok(match *plain {
        Plain::Word(to, op, args) => Core::Word {
            to,
            op,
            args: list(alloc, args)?,
            at: AT,
        },
        Plain::Get(to, of, index) => Core::Get {
            to,
            of,
            index: list(alloc, index)?,
            at: AT,
        },
        Plain::If(cond) => Core::If { cond, yes, no },
        Plain::Sum(var, name, hi) => Core::For {
            var,
            lo: Oper::Int(0),
            hi,
            step: Oper::Int(1),
            at: AT,
            omp: Some(added(alloc, name)?),
            body: yes,
        },
        Plain::Return(values) => Core::Return {
            values: list(alloc, values)?,
        },
    })
}

/// Statements without blocks.
fn block_of(alloc: Global, plains: &[Plain]) -> Result<Seq<Core>, AllocError> {
    let mut block = Seq::new(alloc);
    for plain in plains {
        block.push(core_of(alloc, plain, Seq::new(alloc), Seq::new(alloc))?)?;
    }
    Ok(block)
}

fn body_of(alloc: Global, body: Body) -> Result<Seq<Core>, AllocError> {
    let (plains, yes, no) = body;
    let mut cores = Seq::new(alloc);
    for plain in plains {
        let yes = block_of(alloc, yes)?;
        let no = block_of(alloc, no)?;
        cores.push(core_of(alloc, plain, yes, no)?)?;
    }
    Ok(cores)
}

/// The names: a parameter, an array that is one, numbers from 2 to 5, truth values from 6 on, and an array.
const NAMES: &[(Kind, u8)] = &[INT, ROW, INT, INT, INT, INT, BOOL, BOOL, ROW];

fn instance_of(
    alloc: Global,
    names: Seq<(Kind, u8)>,
    body: Seq<Core>,
) -> Result<Instance, AllocError> {
    let mut params = Seq::new(alloc);
    params.push((list(alloc, "n".as_bytes())?, ParamType::Scalar(Kind::Int64)))?;
    params.push((
        list(alloc, "a".as_bytes())?,
        ParamType::Flat(Kind::Int64, 1),
    ))?;
    Ok(Instance {
        name: list(alloc, "f".as_bytes())?,
        weight: 9,
        params,
        rets: list(alloc, &[INT])?,
        names,
        body,
    })
}

/// A program of one kernel.
fn program_of(
    alloc: Global,
    names: Seq<(Kind, u8)>,
    body: Seq<Core>,
) -> Result<Program, AllocError> {
    let mut instances = Seq::new(alloc);
    instances.push(instance_of(alloc, names, body)?)?;
    Ok(Program {
        instances,
        kernels: list(alloc, &[0])?,
    })
}

const NONE: &[Plain] = &[];

/// A move.
const MOVED: Body = (
    &[
        Plain::Word(2, WordOp::Move, &[Oper::Int(4)]),
        Plain::Return(&[Oper::Name(2)]),
    ],
    NONE,
    NONE,
);

/// A parameter that is bound again.
const PARAMETER: Body = (
    &[
        Plain::Word(0, ADD, &[Oper::Int(4), Oper::Int(4)]),
        Plain::Return(&[Oper::Name(0)]),
    ],
    NONE,
    NONE,
);

/// A name that is bound twice.
const TWICE: Body = (
    &[
        Plain::Word(2, ADD, &[Oper::Int(4), Oper::Int(4)]),
        Plain::Get(2, 1, &[Oper::Name(2)]),
        Plain::Return(&[Oper::Name(2)]),
    ],
    NONE,
    NONE,
);

/// An array, and a name that isn't there.
const NOWHERE: Body = (
    &[
        Plain::Word(8, ADD, &[Oper::Int(4), Oper::Int(4)]),
        Plain::Word(9, ADD, &[Oper::Int(4), Oper::Int(4)]),
    ],
    NONE,
    NONE,
);

/// A body and its folded form.
static BODIES: [(Body, Body); 14] = [
    // a chain of literals
    (
        (
            &[
                Plain::Word(2, ADD, &[Oper::Int(1), Oper::Int(2)]),
                Plain::Word(3, ADD, &[Oper::Name(2), Oper::Name(2)]),
                Plain::Word(4, ADD, &[Oper::Name(3), Oper::Name(0)]),
                Plain::Get(5, 1, &[Oper::Name(3)]),
                Plain::Return(&[Oper::Name(2)]),
            ],
            NONE,
            NONE,
        ),
        (
            &[
                Plain::Word(4, ADD, &[Oper::Int(6), Oper::Name(0)]),
                Plain::Get(5, 1, &[Oper::Int(6)]),
                Plain::Return(&[Oper::Int(3)]),
            ],
            NONE,
            NONE,
        ),
    ),
    // a truth value stays one, and counts as 1 or 0 where a number is made of it
    (
        (
            &[
                Plain::Word(6, LESS, &[Oper::Int(1), Oper::Int(2)]),
                Plain::Word(7, WordOp::Un(UnOp::Flip), &[Oper::Name(6)]),
                Plain::Word(2, ADD, &[Oper::Name(6), Oper::Truth(false)]),
                Plain::Return(&[Oper::Name(6), Oper::Name(7), Oper::Name(2)]),
            ],
            NONE,
            NONE,
        ),
        (
            &[Plain::Return(&[Oper::Truth(true), Oper::Truth(false), Oper::Int(1)])],
            NONE,
            NONE,
        ),
    ),
    // a power, and a sum past the greatest word
    (
        (
            &[
                Plain::Word(2, WordOp::Un(UnOp::Pow(3)), &[Oper::Int(-5)]),
                Plain::Word(3, ADD, &[Oper::Int(9223372036854775807), Oper::Int(1)]),
                Plain::Return(&[Oper::Name(2), Oper::Name(3)]),
            ],
            NONE,
            NONE,
        ),
        (
            &[Plain::Return(&[Oper::Int(-125), Oper::Int(-9223372036854775808)])],
            NONE,
            NONE,
        ),
    ),
    // a fault stays where it is
    (
        (
            &[
                Plain::Word(2, ADD, &[Oper::Int(0), Oper::Int(0)]),
                Plain::Word(3, DIVIDE, &[Oper::Int(1), Oper::Name(2)]),
                Plain::Return(&[Oper::Name(3)]),
            ],
            NONE,
            NONE,
        ),
        (
            &[
                Plain::Word(3, DIVIDE, &[Oper::Int(1), Oper::Int(0)]),
                Plain::Return(&[Oper::Name(3)]),
            ],
            NONE,
            NONE,
        ),
    ),
    // so does a move
    (MOVED, MOVED),
    // a parameter that is bound again
    (PARAMETER, PARAMETER),
    // a name that is bound twice
    (TWICE, TWICE),
    // a name to which a loop adds, and the loop's end
    (
        (
            &[
                Plain::Word(2, ADD, &[Oper::Int(4), Oper::Int(4)]),
                Plain::Word(3, ADD, &[Oper::Int(3), Oper::Int(4)]),
                Plain::Sum(4, 2, Oper::Name(3)),
                Plain::Return(&[Oper::Name(2)]),
            ],
            &[Plain::Get(5, 1, &[Oper::Name(3)])],
            NONE,
        ),
        (
            &[
                Plain::Word(2, ADD, &[Oper::Int(4), Oper::Int(4)]),
                Plain::Sum(4, 2, Oper::Int(7)),
                Plain::Return(&[Oper::Name(2)]),
            ],
            &[Plain::Get(5, 1, &[Oper::Int(7)])],
            NONE,
        ),
    ),
    // the first part
    (
        (
            &[
                Plain::Word(6, LESS, &[Oper::Int(1), Oper::Int(2)]),
                Plain::If(Oper::Name(6)),
                Plain::Return(&[Oper::Name(2)]),
            ],
            &[Plain::Get(2, 1, &[Oper::Int(1)])],
            &[Plain::Get(2, 1, &[Oper::Int(2)])],
        ),
        (
            &[
                Plain::Get(2, 1, &[Oper::Int(1)]),
                Plain::Return(&[Oper::Name(2)]),
            ],
            NONE,
            NONE,
        ),
    ),
    // the second
    (
        (
            &[
                Plain::Word(6, LESS, &[Oper::Int(2), Oper::Int(1)]),
                Plain::If(Oper::Name(6)),
                Plain::Return(&[Oper::Name(2)]),
            ],
            &[Plain::Get(2, 1, &[Oper::Int(1)])],
            &[Plain::Get(2, 1, &[Oper::Int(2)])],
        ),
        (
            &[
                Plain::Get(2, 1, &[Oper::Int(2)]),
                Plain::Return(&[Oper::Name(2)]),
            ],
            NONE,
            NONE,
        ),
    ),
    // an `If` that stays, with what is known inside
    (
        (
            &[
                Plain::Word(3, ADD, &[Oper::Int(1), Oper::Int(2)]),
                Plain::Word(6, LESS, &[Oper::Name(0), Oper::Name(3)]),
                Plain::If(Oper::Name(6)),
            ],
            &[Plain::Get(2, 1, &[Oper::Name(3)])],
            &[Plain::Get(4, 1, &[Oper::Name(3)])],
        ),
        (
            &[
                Plain::Word(6, LESS, &[Oper::Name(0), Oper::Int(3)]),
                Plain::If(Oper::Name(6)),
            ],
            &[Plain::Get(2, 1, &[Oper::Int(3)])],
            &[Plain::Get(4, 1, &[Oper::Int(3)])],
        ),
    ),
    // a part that goes leaves a name bound once, which the next round folds
    (
        (
            &[
                Plain::Word(6, LESS, &[Oper::Int(1), Oper::Int(2)]),
                Plain::If(Oper::Name(6)),
                Plain::Word(3, ADD, &[Oper::Name(2), Oper::Int(1)]),
                Plain::Return(&[Oper::Name(3)]),
            ],
            &[Plain::Word(2, ADD, &[Oper::Int(4), Oper::Int(4)])],
            &[Plain::Word(2, ADD, &[Oper::Int(5), Oper::Int(5)])],
        ),
        (&[Plain::Return(&[Oper::Int(9)])], NONE, NONE),
    ),
    // an array, and a name that isn't there
    (NOWHERE, NOWHERE),
    // nothing
    ((NONE, NONE, NONE), (NONE, NONE, NONE)),
];

fn check<A: Abort>(rt: &A, alloc: Global, number: usize, bodies: (Body, Body)) -> Result<(), Fail> {
    let (before, after) = bodies;
    let program = program_of(alloc, list(alloc, NAMES)?, body_of(alloc, before)?)?;
    let wanted = program_of(alloc, list(alloc, NAMES)?, body_of(alloc, after)?)?;
    match fold(alloc, &program) {
        Ok(folded) => assert!(rt; folded == wanted, "body {number}"),
        Err(_) => assert!(rt; false),
    }
    Ok(())
}

#[test]
fn bodies_are_folded(rt: HostRuntime) -> Result<(), Fail> {
    for (number, bodies) in BODIES.iter().enumerate() {
        check(&rt, rt.alloc(), number, *bodies)?;
    }
    Ok(())
}

/// The end of the names of a long chain, which begin at 2.
const END: u32 = 5002;

/// Names each of which is one more than the one before, and the last is returned.
fn chain(alloc: Global) -> Result<Program, AllocError> {
    let mut names = list(alloc, &[INT, ROW])?;
    let mut body = Seq::new(alloc);
    let mut last = Oper::Int(0);
    for name in 2..END {
        names.push(INT)?;
        body.push(Core::Word {
            to: name,
            op: ADD,
            args: list(alloc, &[last, Oper::Int(1)])?,
            at: AT,
        })?;
        last = Oper::Name(name);
    }
    body.push(Core::Return {
        values: list(alloc, &[last])?,
    })?;
    program_of(alloc, names, body)
}

/// Nothing gives up at the size of a body.
#[test]
fn a_long_chain_is_folded(rt: HostRuntime) -> Result<(), Fail> {
    let alloc = rt.alloc();
    let program = chain(alloc)?;
    let wanted = block_of(alloc, &[Plain::Return(&[Oper::Int(5000)])])?;
    match fold(alloc, &program) {
        Ok(folded) => match folded.instances.as_slice().first() {
            Some(kernel) => assert!(rt; kernel.body == wanted),
            None => assert!(rt; false),
        },
        Err(_) => assert!(rt; false),
    }
    Ok(())
}
