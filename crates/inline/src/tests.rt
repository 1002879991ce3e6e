use crate::flatten;
use eager_rules::{Core, Instance, Oper, Program, WordOp};
use export_sig::Signature;
use krn_base::{BinOp, Kind, Loc, ParamType, Refusal, Rule, Seq, Stop};
use purity::effects;
use py_parse::Name;
use std::alloc::{AllocError, Global};
use std::process::Abort;
use std::test::Fail;

const AT: Loc = Loc { line: 1, col: 1 };

const INT: (Kind, u8) = (Kind::Int64, 0);

const ROW: (Kind, u8) = (Kind::Int64, 1);

/// A statement without blocks.
#[derive(Clone, Copy)]
enum Plain {
    Add(u32, Oper, Oper),
    Store(u32),
    Divide(u32, Oper),
    Call(&'static [u32], u32, &'static [Oper]),
    Return(&'static [Oper]),
    Move(u32, Oper),
    Alias(u32, u32),
}

/// An instance: its tokens, its parameters, its values, its names and its body, which stands in so many loops.
type Function = (
    u32,
    usize,
    &'static [(Kind, u8)],
    &'static [(Kind, u8)],
    &'static [Plain],
    u32,
);

fn list<T: Copy>(alloc: Global, items: &[T]) -> Result<Seq<T>, AllocError> {
    Ok(Seq::from_vec(Vec::from_slice(alloc, items)?))
}

fn core_of(alloc: Global, plain: &Plain) -> Result<Core, AllocError> {
    Ok(match *plain {
        Plain::Add(to, left, right) => Core::Word {
            to,
            op: WordOp::Bin(BinOp::Add),
            args: list(alloc, &[left, right])?,
            at: AT,
        },
        Plain::Divide(to, by) => Core::Word {
            to,
            op: WordOp::Bin(BinOp::FloorDiv),
            args: list(alloc, &[Oper::Int(7), by])?,
            at: AT,
        },
        Plain::Move(to, x) => Core::Word {
            to,
            op: WordOp::Move,
            args: list(alloc, &[x])?,
            at: Loc { line: 0, col: 0 },
        },
        Plain::Alias(to, of) => Core::Alias { to, of },
        Plain::Store(of) => Core::Store {
            of,
            value: Oper::Int(0),
            at: AT,
        },
        Plain::Call(to, instance, args) => Core::Call {
            to: list(alloc, to)?,
            instance,
            args: list(alloc, args)?,
        },
        Plain::Return(values) => Core::Return {
            values: list(alloc, values)?,
        },
    })
}

fn body_of(alloc: Global, plains: &[Plain]) -> Result<Seq<Core>, AllocError> {
    let mut body = Seq::new(alloc);
    for plain in plains {
        body.push(core_of(alloc, plain)?)?;
    }
    Ok(body)
}

/// A body inside so many loops.
fn looped(alloc: Global, block: Seq<Core>, loops: u32) -> Result<Seq<Core>, AllocError> {
    let mut body = block;
    for _level in 0..loops {
        let mut outer = Seq::new(alloc);
        outer.push(Core::For {
            var: 0,
            lo: Oper::Int(0),
            hi: Oper::Int(1),
            step: Oper::Int(1),
            at: AT,
            omp: None,
            body,
        })?;
        body = outer;
    }
    Ok(body)
}

fn instance_of(alloc: Global, function: &Function) -> Result<Instance, AllocError> {
    let (weight, count, rets, names, plains, loops) = *function;
    let body = body_of(alloc, plains)?;
    let mut params = Seq::new(alloc);
    for at in 0..count.min(names.len()) {
        let (kind, rank) = names[at];
        let ty = if rank == 0 {
            ParamType::Scalar(kind)
        } else {
            ParamType::Flat(kind, rank)
        };
        params.push((list(alloc, "x".as_bytes())?, ty))?;
    }
    Ok(Instance {
        name: list(alloc, "f".as_bytes())?,
        weight,
        params,
        rets: list(alloc, rets)?,
        names: list(alloc, names)?,
        body: looped(alloc, body, loops)?,
    })
}

/// A program whose kernels are these instances.
fn program_of(
    alloc: Global,
    functions: &[Function],
    kernels: &[u32],
) -> Result<Program, AllocError> {
    let mut instances = Seq::new(alloc);
    for function in functions {
        instances.push(instance_of(alloc, function)?)?;
    }
    Ok(Program {
        instances,
        kernels: list(alloc, kernels)?,
    })
}

/// As many signatures, with their notes on the lines from 1 on.
fn signatures(alloc: Global, count: u32) -> Result<Seq<Signature>, AllocError> {
    let mut signatures = Seq::new(alloc);
    for at in 0..count {
        let loc = Loc {
            line: at + 1,
            col: 1,
        };
        signatures.push(Signature {
            name: Name {
                text: list(alloc, "f".as_bytes())?,
                loc,
            },
            params: Seq::new(alloc),
            loc,
        })?;
    }
    Ok(signatures)
}

fn flat_of(alloc: Global, functions: &[Function], kernels: &[u32]) -> Result<Program, Stop> {
    let program = program_of(alloc, functions, kernels)?;
    let notes = signatures(alloc, 4)?;
    let effects = effects(alloc, &program)?;
    flatten(alloc, &program, notes.as_slice(), &effects)
}

/// The body of a function, that of the kernel that calls it, and the kernel's flat form. The function's parameters are
/// a number and an array, and its name 2 is a number; the kernel's names 0 and 1 are numbers, and 2 is an array.
type Bodies = (&'static [Plain], &'static [Plain], &'static [Plain]);

static BODIES: [Bodies; 6] = [
    // the own name that is returned becomes the name of the value
    (
        &[
            Plain::Add(2, Oper::Name(0), Oper::Int(1)),
            Plain::Return(&[Oper::Name(2)]),
        ],
        &[
            Plain::Call(&[1], 1, &[Oper::Name(0), Oper::Name(2)]),
            Plain::Return(&[Oper::Name(1)]),
        ],
        &[
            Plain::Move(3, Oper::Name(0)),
            Plain::Alias(4, 2),
            Plain::Add(1, Oper::Name(3), Oper::Int(1)),
            Plain::Return(&[Oper::Name(1)]),
        ],
    ),
    // a parameter that is returned is moved, and so is a literal
    (
        &[Plain::Return(&[Oper::Name(0)])],
        &[
            Plain::Call(&[1], 1, &[Oper::Int(5), Oper::Name(2)]),
            Plain::Return(&[Oper::Name(1)]),
        ],
        &[
            Plain::Move(3, Oper::Int(5)),
            Plain::Alias(4, 2),
            Plain::Move(1, Oper::Name(3)),
            Plain::Return(&[Oper::Name(1)]),
        ],
    ),
    // a name that a move binds is no own name
    (
        &[
            Plain::Move(2, Oper::Name(0)),
            Plain::Return(&[Oper::Name(2)]),
        ],
        &[
            Plain::Call(&[1], 1, &[Oper::Int(5), Oper::Name(2)]),
            Plain::Return(&[Oper::Name(1)]),
        ],
        &[
            Plain::Move(3, Oper::Int(5)),
            Plain::Alias(4, 2),
            Plain::Move(5, Oper::Name(3)),
            Plain::Move(1, Oper::Name(5)),
            Plain::Return(&[Oper::Name(1)]),
        ],
    ),
    // a call that changes nothing and can't fault is left out
    (
        &[
            Plain::Add(2, Oper::Name(0), Oper::Int(1)),
            Plain::Return(&[Oper::Name(2)]),
        ],
        &[
            Plain::Call(&[], 1, &[Oper::Name(0), Oper::Name(2)]),
            Plain::Return(&[Oper::Name(0)]),
        ],
        &[Plain::Return(&[Oper::Name(0)])],
    ),
    // one that may fault stays, without its values
    (
        &[
            Plain::Divide(2, Oper::Name(0)),
            Plain::Return(&[Oper::Name(2)]),
        ],
        &[
            Plain::Call(&[], 1, &[Oper::Name(0), Oper::Name(2)]),
            Plain::Return(&[Oper::Name(0)]),
        ],
        &[
            Plain::Move(3, Oper::Name(0)),
            Plain::Alias(4, 2),
            Plain::Divide(5, Oper::Name(3)),
            Plain::Return(&[Oper::Name(0)]),
        ],
    ),
    // and so does one that writes; two copies have names of their own
    (
        &[Plain::Store(1), Plain::Return(&[Oper::Name(0)])],
        &[
            Plain::Call(&[], 1, &[Oper::Name(0), Oper::Name(2)]),
            Plain::Call(&[], 1, &[Oper::Name(0), Oper::Name(2)]),
            Plain::Return(&[Oper::Name(0)]),
        ],
        &[
            Plain::Move(3, Oper::Name(0)),
            Plain::Alias(4, 2),
            Plain::Store(4),
            Plain::Move(6, Oper::Name(0)),
            Plain::Alias(7, 2),
            Plain::Store(7),
            Plain::Return(&[Oper::Name(0)]),
        ],
    ),
];

const KERNEL: &[(Kind, u8)] = &[INT, INT, ROW];

const CALLEE: &[(Kind, u8)] = &[INT, ROW, INT];

fn check<A: Abort>(rt: &A, alloc: Global, bodies: Bodies) -> Result<(), Fail> {
    let (callee, caller, wanted) = bodies;
    let functions: [Function; 2] = [
        (9, 3, &[INT], KERNEL, caller, 0),
        (9, 2, &[INT], CALLEE, callee, 0),
    ];
    match flat_of(alloc, &functions, &[0]) {
        Ok(flat) => {
            let body = body_of(alloc, wanted)?;
            assert_eq!(rt; flat.kernels.as_slice(), [0_u32].as_slice());
            assert_eq!(rt; flat.instances.len(), 1);
            if let Some(kernel) = flat.instances.as_slice().first() {
                assert!(rt; kernel.body == body);
            }
        }
        Err(_) => assert!(rt; false),
    }
    Ok(())
}

#[test]
fn bodies_stand_in_place_of_calls(rt: HostRuntime) -> Result<(), Fail> {
    for bodies in &BODIES {
        check(&rt, rt.alloc(), *bodies)?;
    }
    Ok(())
}

/// Each of so many functions calls the one behind it twice; the last one calls none. The first is the kernel.
fn chain(alloc: Global, count: u32, weight: u32, loops: u32) -> Result<Program, AllocError> {
    let mut instances = Seq::new(alloc);
    for number in 0..count {
        let mut f = instance_of(alloc, &(weight, 3, &[INT], KERNEL, &[], 0))?;
        let mut body = Seq::new(alloc);
        for _call in 0..2 {
            if number + 1 < count {
                body.push(Core::Call {
                    to: list(alloc, &[1])?,
                    instance: number + 1,
                    args: list(alloc, &[Oper::Name(0)])?,
                })?;
            }
        }
        f.body = looped(alloc, body, loops)?;
        instances.push(f)?;
    }
    Ok(Program {
        instances,
        kernels: list(alloc, &[0])?,
    })
}

/// How a program with one kernel is refused.
fn refusal_of(alloc: Global, program: &Program) -> Result<Option<Rule>, Stop> {
    let notes = signatures(alloc, 1)?;
    let effects = effects(alloc, program)?;
    match flatten(alloc, program, notes.as_slice(), &effects) {
        Ok(_) => Ok(None),
        Err(Stop::Refused(refusal)) => Ok(Some(refusal.rule)),
        Err(Stop::Memory) => Err(Stop::Memory),
    }
}

/// Functions in a chain, the weight of each, the loops of each, and the rule that refuses them. `2^n - 1` bodies stand
/// in a chain of n.
static CHAINS: [(u32, u32, u32, Option<Rule>); 7] = [
    (1, 20_000, 0, None),
    (1, 20_001, 0, Some(Rule::TooLarge)),
    (16, 1, 0, Some(Rule::TooLarge)),
    (40, 1, 0, Some(Rule::TooLarge)),
    (4, 1333, 32, None),
    (4, 1333, 33, Some(Rule::TooDeep)),
    (4, 1334, 33, Some(Rule::TooLarge)),
];

#[test]
fn heavy_and_deep_kernels_are_refused(rt: HostRuntime) -> Result<(), Fail> {
    for row in &CHAINS {
        let (count, weight, loops, rule) = *row;
        let program = chain(rt.alloc(), count, weight, loops)?;
        match refusal_of(rt.alloc(), &program) {
            Ok(found) => assert_eq!(rt; found, rule, "{count} functions of {weight} in {loops}"),
            Err(_) => assert!(rt; false),
        }
    }
    Ok(())
}

/// The kernels so far are weighed, at the note of the one that is too much; a deep one is refused at its own.
#[test]
fn refusals_stand_at_notes(rt: HostRuntime) -> Result<(), Fail> {
    let alloc = rt.alloc();
    let functions: [Function; 3] = [
        (10_000, 3, &[INT], KERNEL, &[], 0),
        (5_000, 3, &[INT], KERNEL, &[], 129),
        (5_001, 3, &[INT], KERNEL, &[], 0),
    ];
    let large = flat_of(alloc, &functions, &[0, 1, 2]);
    assert!(rt; is_refused(large, Rule::TooLarge, 3));
    let deep = flat_of(alloc, &functions, &[0, 1]);
    assert!(rt; is_refused(deep, Rule::TooDeep, 2));
    Ok(())
}

fn is_refused(found: Result<Program, Stop>, rule: Rule, line: u32) -> bool {
    let loc = Loc { line, col: 1 };
    match found {
        Err(Stop::Refused(refusal)) => refusal == Refusal { rule, loc },
        _ => false,
    }
}
