use super::all_assigned;
use crate::tests::cases::{Function, INT, Line, Plain, ROW, program_of};
use crate::{Core, CoreSub, Instance, Oper, Program, WordOp};
use krn_base::{Loc, NoMemory, Seq};
use std::alloc::Global;
use std::test::Fail;

const C: Oper = Oper::Name(0);

const X: Oper = Oper::Name(1);

const Y: Oper = Oper::Name(2);

const ONE: Oper = Oper::Int(1);

const RANGE: [Oper; 3] = [ONE, ONE, ONE];

const BIND_X: Plain = Plain::Word(1, WordOp::Move, &[ONE]);

const BIND_Y: Plain = Plain::Word(2, WordOp::Move, &[ONE]);

const READ_X: Plain = Plain::Word(2, WordOp::Move, &[X]);

const END: Plain = Plain::Return(&[C]);

/// Bodies with one parameter, the name 0, and two more names; and whether each of their reads is of a bound name, by
/// hand.
static BODIES: [(&str, bool, &[Line]); 22] = [
    ("nothing", true, &[]),
    (
        "bound",
        true,
        &[Line::One(BIND_X), Line::One(Plain::Return(&[X]))],
    ),
    ("unbound", false, &[Line::One(Plain::Return(&[X]))]),
    (
        "bound behind",
        false,
        &[Line::One(READ_X), Line::One(BIND_X)],
    ),
    (
        "no such name",
        false,
        &[Line::One(Plain::Word(3, WordOp::Move, &[ONE]))],
    ),
    (
        "both parts",
        true,
        &[Line::If(C, &[BIND_X], &[BIND_X]), Line::One(READ_X)],
    ),
    (
        "first part",
        false,
        &[Line::If(C, &[BIND_X], &[]), Line::One(READ_X)],
    ),
    (
        "second part",
        false,
        &[Line::If(C, &[], &[BIND_X]), Line::One(READ_X)],
    ),
    (
        "other names",
        false,
        &[Line::If(C, &[BIND_X], &[BIND_Y]), Line::One(READ_X)],
    ),
    ("between parts", false, &[Line::If(C, &[BIND_X], &[READ_X])]),
    ("in the second part", false, &[Line::If(C, &[], &[READ_X])]),
    ("condition", false, &[Line::If(X, &[], &[])]),
    (
        "first part returns",
        true,
        &[Line::If(C, &[END], &[BIND_X]), Line::One(READ_X)],
    ),
    (
        "second part returns",
        true,
        &[Line::If(C, &[BIND_X], &[END]), Line::One(READ_X)],
    ),
    (
        "both return",
        true,
        &[Line::If(C, &[END], &[END]), Line::One(READ_X)],
    ),
    (
        "behind a return",
        true,
        &[Line::One(END), Line::One(READ_X)],
    ),
    ("variable", true, &[Line::For(1, RANGE, &[READ_X])]),
    (
        "behind a loop",
        false,
        &[Line::For(2, RANGE, &[BIND_X]), Line::One(READ_X)],
    ),
    (
        "variable behind",
        false,
        &[Line::For(1, RANGE, &[]), Line::One(READ_X)],
    ),
    (
        "next turn",
        false,
        &[Line::For(2, RANGE, &[READ_X, BIND_X])],
    ),
    ("range", false, &[Line::For(1, [ONE, X, ONE], &[])]),
    (
        "slice",
        false,
        &[Line::One(Plain::Pick(2, 0, &[CoreSub::Cut(None, Some(X), None)]))],
    ),
];

#[test]
fn judges_bodies(rt: HostRuntime) -> Result<(), Fail> {
    for case in &BODIES {
        let function = Function {
            params: &[INT],
            rets: &[],
            names: &[INT, INT, INT],
            body: case.2,
        };
        let program = program_of(rt.alloc(), &[function])?;
        let found = all_assigned(rt.alloc(), &program)?;
        assert_eq!(rt; found, case.1, "{}", case.0);
    }
    Ok(())
}

static ROWS: [Function; 2] = [
    Function {
        params: &[ROW, INT],
        rets: &[],
        names: &[ROW, INT, INT],
        body: &[
            Line::One(Plain::Get(2, 0, &[X])),
            Line::One(Plain::Put(0, &[Y], X)),
        ],
    },
    Function {
        params: &[],
        rets: &[],
        names: &[INT, INT],
        body: &[Line::One(Plain::Call(&[0], 0, &[X]))],
    },
];

#[test]
fn judges_each_instance(rt: HostRuntime) -> Result<(), Fail> {
    let none = program_of(rt.alloc(), &[])?;
    assert_eq!(rt; all_assigned(rt.alloc(), &none)?, true);
    let one = program_of(rt.alloc(), &ROWS[..1])?;
    assert_eq!(rt; all_assigned(rt.alloc(), &one)?, true);
    let both = program_of(rt.alloc(), &ROWS)?;
    assert_eq!(rt; all_assigned(rt.alloc(), &both)?, false);
    Ok(())
}

fn binding(alloc: Global, name: u32, from: Oper) -> Result<Core, NoMemory> {
    let mut args = Seq::new(alloc);
    args.push(from)?;
    Ok(Core::Word {
        to: name,
        op: WordOp::Move,
        args,
        at: Loc { line: 1, col: 1 },
    })
}

/// An `If` in each of whose parts a name is bound from another one.
fn fork(alloc: Global, name: u32, from: u32) -> Result<Core, NoMemory> {
    let mut yes = Seq::new(alloc);
    yes.push(binding(alloc, name, Oper::Name(from))?)?;
    let mut no = Seq::new(alloc);
    no.push(binding(alloc, name, Oper::Name(from))?)?;
    Ok(Core::If {
        cond: Oper::Truth(true),
        yes,
        no,
    })
}

/// A program of one instance with a parameter, so many forks, each of which reads what the one before has bound, and
/// one more name; behind the forks the name of this number is read.
fn forks(alloc: Global, count: u32, ahead: u32) -> Result<Program, NoMemory> {
    let mut params = Seq::new(alloc);
    params.push((
        Seq::new(alloc),
        krn_base::ParamType::Scalar(krn_base::Kind::Int64),
    ))?;
    let mut names = Seq::new(alloc);
    let mut body = Seq::new(alloc);
    names.push(INT)?;
    names.push(INT)?;
    for name in 0..count {
        names.push(INT)?;
        body.push(fork(alloc, name + 1, name)?)?;
    }
    body.push(binding(alloc, 0, Oper::Name(ahead))?)?;
    let mut instances = Seq::new(alloc);
    instances.push(Instance {
        name: Seq::new(alloc),
        weight: 9,
        params,
        rets: Seq::new(alloc),
        names,
        body,
    })?;
    Ok(Program {
        instances,
        kernels: Seq::new(alloc),
    })
}

#[test]
fn judges_many_names(rt: HostRuntime) -> Result<(), Fail> {
    let bound = forks(rt.alloc(), 20000, 20000)?;
    assert_eq!(rt; all_assigned(rt.alloc(), &bound)?, true);
    let unbound = forks(rt.alloc(), 20000, 20001)?;
    assert_eq!(rt; all_assigned(rt.alloc(), &unbound)?, false);
    Ok(())
}
