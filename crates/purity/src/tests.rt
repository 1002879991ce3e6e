use crate::effects;
use eager_rules::{Core, CoreSub, Fill, Instance, MapOp, Oper, Program, RedOp, WordOp};
use krn_base::{BinOp, Kind, Loc, NoMemory, ParamType, Seq};
use std::alloc::{AllocError, Global};
use std::process::Abort;
use std::test::Fail;

const AT: Loc = Loc { line: 1, col: 1 };

const INT: (Kind, u8) = (Kind::Int64, 0);

const ROW: (Kind, u8) = (Kind::Int64, 1);

/// A statement without blocks.
#[derive(Clone, Copy)]
enum Plain {
    Word(BinOp, Oper),
    Get,
    Put(u32),
    Pick(u32, u32, CoreSub),
    Flip(u32, u32),
    Alias(u32, u32),
    Fresh,
    Map(u32, &'static [Oper]),
    Reduce(RedOp),
    Store(u32, Oper),
    Call(&'static [u32], u32, &'static [Oper]),
    Return(&'static [Oper]),
    /// A loop with this step, and with a store into this name.
    Loop(Oper, u32),
    /// An `if` whose second part writes this name.
    Else(u32),
}

/// The body of an instance with two arrays as its parameters, which are the names 0 and 1; which of them it writes; and
/// whether it may fault. The names 2 to 5 are arrays, and the names 6 and 7 are numbers.
type Case = (&'static [Plain], [bool; 2], bool);

fn list<T: Copy>(alloc: Global, items: &[T]) -> Result<Seq<T>, AllocError> {
    Ok(Seq::from_vec(Vec::from_slice(alloc, items)?))
}

fn block(alloc: Global, core: Core) -> Result<Seq<Core>, AllocError> {
    let mut items = Seq::new(alloc);
    items.push(core)?;
    Ok(items)
}

fn store(of: u32) -> Core {
    Core::Store {
        of,
        value: Oper::Int(0),
        at: AT,
    }
}

fn core_of(alloc: Global, plain: &Plain) -> Result<Core, AllocError> {
    Ok(match *plain {
        Plain::Word(op, right) => Core::Word {
            to: 6,
            op: WordOp::Bin(op),
            args: list(alloc, &[Oper::Name(7), right])?,
            at: AT,
        },
        Plain::Get => Core::Get {
            to: 6,
            of: 0,
            index: list(alloc, &[Oper::Int(0)])?,
            at: AT,
        },
        Plain::Put(of) => Core::Put {
            of,
            index: list(alloc, &[Oper::Int(0)])?,
            value: Oper::Int(0),
            at: AT,
        },
        Plain::Pick(to, of, sub) => Core::Pick {
            to,
            of,
            subs: list(alloc, &[sub])?,
            at: AT,
        },
        Plain::Flip(to, of) => Core::Flip { to, of },
        Plain::Alias(to, of) => Core::Alias { to, of },
        Plain::Fresh => Core::Fresh {
            to: 5,
            dims: list(alloc, &[Oper::Int(3)])?,
            fill: Fill::Zero,
            at: AT,
        },
        Plain::Map(to, args) => Core::Map {
            to,
            op: MapOp::Bin(BinOp::Add),
            args: list(alloc, args)?,
            at: AT,
        },
        Plain::Reduce(op) => Core::Reduce {
            to: 6,
            op,
            of: 0,
            at: AT,
        },
        Plain::Store(of, value) => Core::Store { of, value, at: AT },
        Plain::Call(to, instance, args) => Core::Call {
            to: list(alloc, to)?,
            instance,
            args: list(alloc, args)?,
        },
        Plain::Return(values) => Core::Return {
            values: list(alloc, values)?,
        },
        Plain::Loop(step, of) => Core::For {
            var: 6,
            lo: Oper::Int(0),
            hi: Oper::Int(3),
            step,
            at: AT,
            omp: None,
            body: block(alloc, store(of))?,
        },
        Plain::Else(of) => Core::If {
            cond: Oper::Truth(true),
            yes: Seq::new(alloc),
            no: block(alloc, store(of))?,
        },
    })
}

fn instance(alloc: Global, case: &Case) -> Result<Instance, AllocError> {
    let mut body = Seq::new(alloc);
    for plain in case.0 {
        body.push(core_of(alloc, plain)?)?;
    }
    let mut params = Seq::new(alloc);
    for _param in 0..2 {
        params.push((Seq::new(alloc), ParamType::Strided(Kind::Int64, 1)))?;
    }
    Ok(Instance {
        name: Seq::new(alloc),
        weight: 1,
        params,
        rets: Seq::new(alloc),
        names: list(alloc, &[ROW, ROW, ROW, ROW, ROW, ROW, INT, INT])?,
        body,
    })
}

fn program(alloc: Global, cases: &[Case]) -> Result<Program, AllocError> {
    let mut instances = Seq::new(alloc);
    for case in cases {
        instances.push(instance(alloc, case)?)?;
    }
    Ok(Program {
        instances,
        kernels: Seq::new(alloc),
    })
}

const EMPTY: &[Plain] = &[];

const WHOLE: CoreSub = CoreSub::Cut(None, None, None);

/// Each statement by itself, and names that come from others.
static ALONE: [Case; 34] = [
    (EMPTY, [false, false], false),
    (&[Plain::Put(1)], [false, true], true),
    (&[Plain::Store(0, Oper::Int(1))], [true, false], false),
    (&[Plain::Store(0, Oper::Name(1))], [true, false], true),
    (
        &[Plain::Alias(2, 1), Plain::Store(2, Oper::Int(1))],
        [false, true],
        false,
    ),
    (
        &[Plain::Store(2, Oper::Int(1)), Plain::Alias(2, 1)],
        [false, true],
        false,
    ),
    (
        &[Plain::Flip(3, 0), Plain::Store(3, Oper::Int(1))],
        [true, false],
        false,
    ),
    (
        &[Plain::Pick(2, 0, WHOLE), Plain::Store(2, Oper::Int(1))],
        [true, false],
        false,
    ),
    (
        &[
            Plain::Alias(4, 3),
            Plain::Alias(3, 2),
            Plain::Alias(2, 0),
            Plain::Alias(2, 1),
            Plain::Store(4, Oper::Int(1)),
        ],
        [true, true],
        false,
    ),
    (
        &[
            Plain::Alias(2, 3),
            Plain::Alias(3, 2),
            Plain::Alias(2, 1),
            Plain::Store(3, Oper::Int(1)),
        ],
        [false, true],
        false,
    ),
    (
        &[
            Plain::Map(2, &[Oper::Name(0), Oper::Int(1)]),
            Plain::Store(2, Oper::Int(1)),
        ],
        [false, false],
        false,
    ),
    (
        &[Plain::Map(2, &[Oper::Name(0), Oper::Name(0)])],
        [false, false],
        true,
    ),
    (
        &[Plain::Map(2, &[Oper::Name(0), Oper::Name(7)])],
        [false, false],
        false,
    ),
    (&[Plain::Get], [false, false], true),
    (&[Plain::Fresh], [false, false], true),
    (
        &[Plain::Pick(2, 0, CoreSub::At(Oper::Int(0)))],
        [false, false],
        true,
    ),
    (
        &[Plain::Pick(2, 0, CoreSub::Cut(None, None, Some(Oper::Int(-2))))],
        [false, false],
        false,
    ),
    (
        &[Plain::Pick(2, 0, CoreSub::Cut(None, None, Some(Oper::Int(0))))],
        [false, false],
        true,
    ),
    (
        &[Plain::Pick(2, 0, CoreSub::Cut(None, Some(Oper::Name(7)), None))],
        [false, false],
        false,
    ),
    (
        &[Plain::Pick(2, 0, CoreSub::Cut(None, None, Some(Oper::Name(7))))],
        [false, false],
        true,
    ),
    (&[Plain::Reduce(RedOp::Min)], [false, false], true),
    (&[Plain::Reduce(RedOp::Max)], [false, false], true),
    (&[Plain::Reduce(RedOp::Sum)], [false, false], false),
    (
        &[Plain::Word(BinOp::FloorDiv, Oper::Int(-2))],
        [false, false],
        false,
    ),
    (
        &[Plain::Word(BinOp::FloorDiv, Oper::Int(0))],
        [false, false],
        true,
    ),
    (
        &[Plain::Word(BinOp::Mod, Oper::Name(7))],
        [false, false],
        true,
    ),
    (
        &[Plain::Word(BinOp::Mod, Oper::Truth(true))],
        [false, false],
        false,
    ),
    (
        &[Plain::Word(BinOp::Shl, Oper::Int(0))],
        [false, false],
        false,
    ),
    (
        &[Plain::Word(BinOp::Shr, Oper::Int(-1))],
        [false, false],
        true,
    ),
    (
        &[Plain::Word(BinOp::Add, Oper::Name(7))],
        [false, false],
        false,
    ),
    (&[Plain::Loop(Oper::Int(1), 0)], [true, false], false),
    (&[Plain::Loop(Oper::Int(0), 2)], [false, false], true),
    (&[Plain::Loop(Oper::Name(7), 1)], [false, true], true),
    (&[Plain::Else(1)], [false, true], false),
];

/// Calls: the first instance calls those behind it.
static CALLS: [Case; 8] = [
    (
        &[Plain::Call(&[], 1, &[Oper::Name(1), Oper::Name(0)])],
        [false, true],
        false,
    ),
    (&[Plain::Store(0, Oper::Int(1))], [true, false], false),
    (
        &[
            Plain::Call(&[2], 3, &[Oper::Name(1), Oper::Name(0)]),
            Plain::Call(&[3], 4, &[Oper::Name(2), Oper::Name(5)]),
            Plain::Store(3, Oper::Int(1)),
        ],
        [true, false],
        false,
    ),
    (
        &[Plain::Alias(3, 1), Plain::Return(&[Oper::Name(3)])],
        [false, false],
        false,
    ),
    (
        &[
            Plain::Return(&[Oper::Name(0)]),
            Plain::Return(&[Oper::Int(1)]),
        ],
        [false, false],
        false,
    ),
    (
        &[
            Plain::Call(&[2, 3], 6, &[Oper::Name(0), Oper::Name(1)]),
            Plain::Store(3, Oper::Int(1)),
        ],
        [true, false],
        true,
    ),
    (
        &[Plain::Get, Plain::Return(&[Oper::Name(1), Oper::Name(0)])],
        [false, false],
        true,
    ),
    (
        &[Plain::Call(&[], 5, &[Oper::Name(2), Oper::Name(3)])],
        [false, false],
        true,
    ),
];

fn run<A: Abort>(rt: &A, alloc: Global, cases: &[Case]) -> Result<(), Fail> {
    let program = program(alloc, cases)?;
    let found = effects(alloc, &program)?;
    let mut number = 0u32;
    for case in cases {
        let (_body, writes, faults) = *case;
        let first = writes[0];
        let second = writes[1];
        assert_eq!(rt;
            found.writes(number, 0),
            first,
            "first parameter of {number}"
        );
        assert_eq!(rt;
            found.writes(number, 1),
            second,
            "second parameter of {number}"
        );
        assert_eq!(rt; found.may_fault(number), faults, "faults of {number}");
        number = number.wrapping_add(1);
    }
    Ok(())
}

#[test]
fn statements_have_their_effects(rt: HostRuntime) -> Result<(), Fail> {
    run(&rt, rt.alloc(), &ALONE)
}

#[test]
fn calls_have_the_effects_of_what_they_call(rt: HostRuntime) -> Result<(), Fail> {
    run(&rt, rt.alloc(), &CALLS)
}

/// A chain of calls of many instances, the last of which writes, and a long chain of names in a loop's order.
#[test]
fn large_programs_are_answered(rt: HostRuntime) -> Result<(), Fail> {
    let alloc = rt.alloc();
    let mut instances = Seq::new(alloc);
    for number in 0u32..3000 {
        let mut one = instance(alloc, &(EMPTY, [false, false], false))?;
        one.body.push(Core::Call {
            to: Seq::new(alloc),
            instance: if number % 30 == 29 { 3000 } else { number + 1 },
            args: list(alloc, &[Oper::Name(0), Oper::Name(1)])?,
        })?;
        instances.push(one)?;
    }
    let mut last = instance(alloc, &(EMPTY, [false, false], false))?;
    last.body.push(store(2))?;
    for name in 2u32..60_000 {
        last.body.push(Core::Alias {
            to: name,
            of: name + 1,
        })?;
    }
    last.body.push(Core::Alias { to: 60_000, of: 1 })?;
    instances.push(last)?;
    let program = Program {
        instances,
        kernels: Seq::new(alloc),
    };
    let found = effects(alloc, &program)?;
    assert!(rt; !found.writes(0, 0) && found.writes(0, 1) && !found.may_fault(0));
    assert!(rt; !found.writes(2990, 0) && found.writes(2990, 1));
    Ok(())
}
