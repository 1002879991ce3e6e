// Calls past the sizes at which a body might give up, and programs without kernels.
use super::cases::{
    INT, Line, N0, N1, N2, N3, N4, Plain, ROW, Table, call_of, instance_of, list, params_of,
    program_of,
};
use crate::{
    Core, Fill, Instance, MapOp, Oper, Program, RedOp, Value, WordOp, eager, has_small_powers,
};
use krn_base::{BinOp, Kind, Loc, Seq};
use std::alloc::{AllocError, Global};
use std::test::Fail;

// A function of one word that has `count` names, each but the first a step from the one before, by `op`.
fn chain(alloc: Global, count: u32, op: BinOp) -> Result<Instance, AllocError> {
    let mut body = Vec::new(alloc);
    let mut names = Vec::new(alloc);
    names.push(INT)?;
    for to in 1..count {
        names.push(INT)?;
        body.push(Core::Word {
            to,
            op: WordOp::Bin(op),
            args: list(alloc, &[Oper::Name(to - 1), Oper::Int(1)])?,
            at: Loc { line: to, col: 1 },
        })?;
    }
    body.push(Core::Return {
        values: list(alloc, &[Oper::Name(count.saturating_sub(1))])?,
    })?;
    Ok(Instance {
        name: list(alloc, b"f")?,
        weight: 9,
        params: params_of(alloc, &[INT])?,
        rets: list(alloc, &[INT])?,
        names: Seq::from_vec(names),
        body: Seq::from_vec(body),
    })
}

// The word that the first kernel returns for a word.
fn word_of(alloc: Global, instances: Seq<Instance>, word: i64) -> Result<Option<i64>, Fail> {
    let program = Program {
        instances,
        kernels: list(alloc, &[0])?,
    };
    let call = call_of(alloc, &[word], &[])?;
    if !has_small_powers(&program) {
        return Ok(None);
    }
    let found = eager(alloc, &program, 0, &call)?;
    match found.ret.as_slice() {
        [Value::Word(_, z)] => Ok(Some(*z)),
        _ => Ok(None),
    }
}

#[test]
fn many_names_and_statements(rt: HostRuntime) -> Result<(), Fail> {
    let alloc = rt.alloc();
    let mut instances = Seq::new(alloc);
    instances.push(chain(alloc, 5001, BinOp::Add)?)?;
    assert_eq!(rt; word_of(alloc, instances, 7)?, Some(5007));
    Ok(())
}

static ONE_MORE: [Line; 1] = [Line::One(Plain::Word(
    1,
    WordOp::Bin(BinOp::Add),
    &[N0, Oper::Int(1)],
))];

// A function that returns what another gives for one more.
fn caller(alloc: Global, callee: u32) -> Result<Instance, AllocError> {
    let mut f = instance_of(alloc, &[INT], &[INT], &[INT, INT, INT], &ONE_MORE)?;
    f.body.push(Core::Call {
        to: list(alloc, &[2])?,
        instance: callee,
        args: list(alloc, &[N1])?,
    })?;
    f.body.push(Core::Return {
        values: list(alloc, &[N2])?,
    })?;
    Ok(f)
}

#[test]
fn calls_of_calls(rt: HostRuntime) -> Result<(), Fail> {
    let alloc = rt.alloc();
    let mut instances = Seq::new(alloc);
    for callee in 1..33u32 {
        instances.push(caller(alloc, callee)?)?;
    }
    instances.push(chain(alloc, 2, BinOp::Mul)?)?;
    assert_eq!(rt; word_of(alloc, instances, 5)?, Some(37));
    Ok(())
}

// An array of ones of each rank, with 5,000 elements.
static ONES: [Line; 4] = [
    Line::One(Plain::Fresh(1, &[Oper::Int(5000)], Fill::One)),
    Line::One(Plain::Fresh(1, &[Oper::Int(50), Oper::Int(100)], Fill::One)),
    Line::One(Plain::Fresh(1, &[Oper::Int(10), Oper::Int(50), Oper::Int(10)], Fill::One)),
    Line::One(Plain::Fresh(
        1,
        &[Oper::Int(5), Oper::Int(10), Oper::Int(10), Oper::Int(10)],
        Fill::One,
    )),
];

// What follows: a number more, stored, and the sum.
static MORE: [Line; 4] = [
    Line::One(Plain::Map(2, MapOp::Bin(BinOp::Add), &[N1, N0])),
    Line::One(Plain::Store(1, N2)),
    Line::One(Plain::Reduce(3, RedOp::Sum, 1)),
    Line::One(Plain::Return(&[N3])),
];

#[test]
fn thousands_of_elements_of_each_rank(rt: HostRuntime) -> Result<(), Fail> {
    let alloc = rt.alloc();
    let mut rank: u8 = 0;
    for ones in ONES {
        rank = rank.saturating_add(1);
        let names = [INT, (Kind::Int64, rank), (Kind::Int64, rank), INT];
        let body = [ones, MORE[0], MORE[1], MORE[2], MORE[3]];
        let mut instances = Seq::new(alloc);
        instances.push(instance_of(alloc, &[INT], &[INT], &names, &body)?)?;
        assert_eq!(rt; word_of(alloc, instances, 6)?, Some(35_000));
    }
    Ok(())
}

static TURNS: [Line; 4] = [
    Line::One(Plain::Fresh(1, &[N0], Fill::Count)),
    Line::One(Plain::Word(2, WordOp::Move, &[Oper::Int(0)])),
    Line::For(
        3,
        [Oper::Int(0), N0, Oper::Int(1)],
        &[
            Plain::Get(4, 1, &[N3]),
            Plain::Word(2, WordOp::Bin(BinOp::Add), &[N2, N4]),
        ],
    ),
    Line::One(Plain::Return(&[N2])),
];

#[test]
fn a_million_turns(rt: HostRuntime) -> Result<(), Fail> {
    let alloc = rt.alloc();
    let names = [INT, ROW, INT, INT, INT];
    let mut instances = Seq::new(alloc);
    instances.push(instance_of(alloc, &[INT], &[INT], &names, &TURNS)?)?;
    assert_eq!(rt;
        word_of(alloc, instances, 1_000_000)?,
        Some(499_999_500_000)
    );
    Ok(())
}

// An array of ones at each turn, under one name, whose words are given back at the next turn.
static TEMPORARIES: [Line; 3] = [
    Line::One(Plain::Word(1, WordOp::Move, &[Oper::Int(0)])),
    Line::For(
        2,
        [Oper::Int(0), N0, Oper::Int(1)],
        &[
            Plain::Fresh(3, &[Oper::Int(8)], Fill::One),
            Plain::Get(4, 3, &[Oper::Int(7)]),
            Plain::Word(1, WordOp::Bin(BinOp::Add), &[N1, N4]),
        ],
    ),
    Line::One(Plain::Return(&[N1])),
];

#[test]
fn a_million_arrays(rt: HostRuntime) -> Result<(), Fail> {
    let alloc = rt.alloc();
    let names = [INT, INT, INT, ROW, INT];
    let mut instances = Seq::new(alloc);
    instances.push(instance_of(alloc, &[INT], &[INT], &names, &TEMPORARIES)?)?;
    assert_eq!(rt; word_of(alloc, instances, 1_000_000)?, Some(1_000_000));
    Ok(())
}

static PAIR: [Table; 1] = [Table {
    kind: Kind::Int64,
    extents: &[2],
    words: &[1, 2],
}];

#[test]
fn no_such_kernel(rt: HostRuntime) -> Result<(), Fail> {
    let alloc = rt.alloc();
    let program = program_of(alloc, &[])?;
    let call = call_of(alloc, &[], &PAIR)?;
    let small = has_small_powers(&program);
    assert!(rt; small);
    let found = eager(alloc, &program, 0, &call)?;
    assert!(rt; found.ret.len() == 0);
    assert_eq!(rt; found.fault, None);
    assert!(rt; found.buffers.as_slice() == &[list(alloc, &[1, 2])?][..]);
    Ok(())
}
