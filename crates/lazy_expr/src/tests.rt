use crate::{is_flat, plain};
use array_ops::{Fill, MapOp, RedOp};
use eager_rules::{Core, CoreSub, Instance, Oper, WordOp};
use krn_base::{BinOp, Join, Kind, Loc, NoMemory, ParamType, Seq, UnOp};
use loop_prog::{Back, Guard, Kernel, Statement, Template, TemplateStep, Test};
use std::alloc::Global;
use std::test::Fail;

const AT: Loc = Loc { line: 3, col: 7 };

// The names of each instance here: arrays a of rank 2, b of rank 1 and m of truth values of rank 2; scalars n, t of
// truth values and k. The arrays have the view registers 0, 1 and 2 and the scalars the scalar registers 0, 1 and 2.
const A: u32 = 0;

const N: u32 = 1;

const B: u32 = 2;

const T: u32 = 3;

const M: u32 = 4;

const K: u32 = 5;

const NAMES: [(Kind, u8); 6] = [
    (Kind::Int64, 2),
    (Kind::Int64, 0),
    (Kind::Int64, 1),
    (Kind::Bool, 0),
    (Kind::Bool, 2),
    (Kind::Int64, 0),
];

fn list<T: Copy>(alloc: Global, items: &[T]) -> Result<Seq<T>, NoMemory> {
    let mut made = Seq::new(alloc);
    for item in items {
        made.push(*item)?;
    }
    Ok(made)
}

fn instance_of(alloc: Global, rets: &[(Kind, u8)], body: Seq<Core>) -> Result<Instance, NoMemory> {
    let mut params = Seq::new(alloc);
    params.push((list(alloc, b"a")?, ParamType::Strided(Kind::Int64, 2)))?;
    params.push((list(alloc, b"n")?, ParamType::Scalar(Kind::Int64)))?;
    Ok(Instance {
        name: list(alloc, b"k")?,
        weight: 9,
        params,
        rets: list(alloc, rets)?,
        names: list(alloc, &NAMES)?,
        body,
    })
}

fn kernel_of(
    alloc: Global,
    rets: &[(Kind, u8)],
    fresh: &[(Kind, u8)],
    body: Seq<Statement>,
) -> Result<Kernel, NoMemory> {
    let mut params = Seq::new(alloc);
    params.push((list(alloc, b"a")?, ParamType::Strided(Kind::Int64, 2)))?;
    params.push((list(alloc, b"n")?, ParamType::Scalar(Kind::Int64)))?;
    let mut views = list(
        alloc,
        &[(Kind::Int64, 2), (Kind::Int64, 1), (Kind::Bool, 2)],
    )?;
    for ty in fresh {
        views.push(*ty)?;
    }
    Ok(Kernel {
        name: list(alloc, b"k")?,
        params,
        regs: list(alloc, &[Kind::Int64, Kind::Bool, Kind::Int64])?,
        views,
        rets: list(alloc, rets)?,
        body,
    })
}

fn map(alloc: Global, to: u32, op: MapOp, args: &[Oper]) -> Result<Core, NoMemory> {
    Ok(Core::Map {
        to,
        op,
        args: list(alloc, args)?,
        at: AT,
    })
}

fn returned(alloc: Global, values: &[Oper]) -> Result<Core, NoMemory> {
    Ok(Core::Return {
        values: list(alloc, values)?,
    })
}

fn given(alloc: Global, values: &[Back]) -> Result<Statement, NoMemory> {
    Ok(Statement::Return {
        values: list(alloc, values)?,
    })
}

fn block(alloc: Global, core: Core) -> Result<Seq<Core>, NoMemory> {
    let mut body = Seq::new(alloc);
    body.push(core)?;
    Ok(body)
}

fn body(alloc: Global, statement: Statement) -> Result<Seq<Statement>, NoMemory> {
    let mut body = Seq::new(alloc);
    body.push(statement)?;
    Ok(body)
}

fn check(alloc: Global, test: Test, views: &[u32]) -> Result<Statement, NoMemory> {
    Ok(Statement::Check {
        test,
        views: list(alloc, views)?,
        at: AT,
    })
}

fn like(alloc: Global, to: u32, views: &[u32]) -> Result<Statement, NoMemory> {
    Ok(Statement::Like {
        to,
        views: list(alloc, views)?,
        at: AT,
    })
}

fn nest(alloc: Global, to: u32, steps: &[TemplateStep]) -> Result<Statement, NoMemory> {
    Ok(Statement::Nest {
        to,
        template: Template {
            steps: list(alloc, steps)?,
        },
        at: AT,
    })
}

fn fold(alloc: Global, to: u32, join: Join, steps: &[TemplateStep]) -> Result<Statement, NoMemory> {
    Ok(Statement::Fold {
        to,
        join,
        template: Template {
            steps: list(alloc, steps)?,
        },
        at: AT,
    })
}

fn turns(omp: Option<Seq<(Join, u32)>>, body: Seq<Core>) -> Core {
    Core::For {
        var: K,
        lo: Oper::Int(0),
        hi: Oper::Name(N),
        step: Oper::Int(2),
        at: AT,
        omp,
        body,
    }
}

// Statements on scalars, elements and views, by their numbers.
fn scalar_core(alloc: Global, number: u32) -> Result<Core, NoMemory> {
    let index = list(alloc, &[Oper::Name(N), Oper::Int(0)])?;
    match number {
        0 => Ok(Core::Word {
            to: K,
            op: WordOp::Bin(BinOp::Add),
            args: index,
            at: AT,
        }),
        1 => Ok(Core::Extent {
            to: N,
            of: B,
            axis: Some(0),
        }),
        2 => Ok(Core::Get {
            to: K,
            of: A,
            index,
            at: AT,
        }),
        3 => Ok(Core::Put {
            of: M,
            index,
            value: Oper::Truth(true),
            at: AT,
        }),
        4 => Ok(Core::Fresh {
            to: B,
            dims: index,
            fill: Fill::One,
            at: AT,
        }),
        5 => Ok(Core::Flip { to: A, of: A }),
        6 => Ok(Core::Alias { to: B, of: B }),
        _ => Ok(Core::Call {
            to: Seq::new(alloc),
            instance: 0,
            args: index,
        }),
    }
}

fn scalar_form(alloc: Global, number: u32) -> Result<Statement, NoMemory> {
    let index = list(alloc, &[Oper::Name(0), Oper::Int(0)])?;
    match number {
        0 => Ok(Statement::Set {
            to: 2,
            op: WordOp::Bin(BinOp::Add),
            args: index,
            at: AT,
        }),
        1 => Ok(Statement::Extent {
            to: 0,
            of: 1,
            axis: Some(0),
        }),
        2 => Ok(Statement::Get {
            to: 2,
            of: 0,
            index,
            at: AT,
        }),
        3 => Ok(Statement::Put {
            of: 2,
            index,
            value: Oper::Truth(true),
            at: AT,
        }),
        4 => Ok(Statement::Fresh {
            to: 1,
            dims: index,
            fill: Fill::One,
            at: AT,
        }),
        5 => Ok(Statement::Flip { to: 0, of: 0 }),
        _ => Ok(Statement::Same { to: 1, of: 1 }),
    }
}

fn reduce(to: u32, op: RedOp, of: u32) -> Core {
    Core::Reduce { to, op, of, at: AT }
}

fn store(value: Oper) -> Core {
    Core::Store {
        of: A,
        value,
        at: AT,
    }
}

// Operations on whole arrays, subscripts and a return, by their numbers.
fn array_core(alloc: Global, number: u32) -> Result<Core, NoMemory> {
    let (a, b, m) = (Oper::Name(A), Oper::Name(B), Oper::Name(M));
    match number {
        0 => map(alloc, M, MapOp::Bin(BinOp::Lt), &[a, Oper::Name(N)]),
        1 => map(alloc, A, MapOp::Bin(BinOp::Add), &[b, a]),
        2 => map(alloc, A, MapOp::Select, &[m, b, Oper::Truth(true)]),
        3 => Ok(reduce(N, RedOp::Sum, A)),
        4 => Ok(reduce(K, RedOp::Min, B)),
        5 => Ok(reduce(T, RedOp::All, M)),
        6 => Ok(reduce(T, RedOp::Any, A)),
        7 => Ok(store(b)),
        8 => Ok(store(Oper::Name(K))),
        9 => returned(alloc, &[b, Oper::Name(K), Oper::Int(5)]),
        _ => Ok(Core::Pick {
            to: B,
            of: A,
            subs: list(
                alloc,
                &[
                    CoreSub::At(Oper::Name(K)),
                    CoreSub::Cut(Some(Oper::Name(N)), None, Some(Oper::Int(2))),
                ],
            )?,
            at: AT,
        }),
    }
}

fn and(mut before: Seq<Statement>, last: Statement) -> Result<Seq<Statement>, NoMemory> {
    before.push(last)?;
    Ok(before)
}

// A test of leaves, a new buffer like them, and a nest that fills it.
fn filled(
    alloc: Global,
    to: u32,
    views: &[u32],
    steps: &[TemplateStep],
) -> Result<Seq<Statement>, NoMemory> {
    let made = body(alloc, check(alloc, Test::Fits, views)?)?;
    let made = and(made, like(alloc, to, views)?)?;
    and(made, nest(alloc, to, steps)?)
}

fn array_form(alloc: Global, number: u32) -> Result<Seq<Statement>, NoMemory> {
    let test = TemplateStep::Un(UnOp::Test);
    let (a, b, m) = (
        TemplateStep::Leaf(0),
        TemplateStep::Leaf(1),
        TemplateStep::Leaf(2),
    );
    let n = TemplateStep::Word(Oper::Name(0));
    let truth = TemplateStep::Word(Oper::Truth(true));
    match number {
        0 => filled(alloc, 2, &[0], &[a, n, TemplateStep::Bin(BinOp::Lt)]),
        1 => and(
            filled(alloc, 3, &[1, 0], &[b, a, TemplateStep::Bin(BinOp::Add)])?,
            Statement::Same { to: 0, of: 3 },
        ),
        2 => filled(alloc, 0, &[2, 1], &[m, b, truth, TemplateStep::Select]),
        3 => body(alloc, fold(alloc, 0, Join::Sum, &[a])?),
        4 => and(
            body(alloc, check(alloc, Test::Filled, &[1])?)?,
            fold(alloc, 2, Join::Min, &[b])?,
        ),
        5 => body(alloc, fold(alloc, 1, Join::Prod, &[m, test])?),
        6 => body(alloc, fold(alloc, 1, Join::Or, &[a, test])?),
        7 => body(alloc, nest(alloc, 0, &[b])?),
        8 => body(alloc, nest(alloc, 0, &[TemplateStep::Word(Oper::Name(2))])?),
        9 => body(
            alloc,
            given(
                alloc,
                &[
                    Back::View(1),
                    Back::Word(Oper::Name(2)),
                    Back::Word(Oper::Int(5)),
                ],
            )?,
        ),
        _ => body(
            alloc,
            Statement::ViewOf {
                to: 1,
                of: 0,
                subs: list(
                    alloc,
                    &[
                        CoreSub::At(Oper::Name(2)),
                        CoreSub::Cut(Some(Oper::Name(0)), None, Some(Oper::Int(2))),
                    ],
                )?,
                at: AT,
            },
        ),
    }
}

// Whether an instance without own calls becomes a kernel.
fn becomes(alloc: Global, instance: &Instance, kernel: &Kernel) -> Result<bool, NoMemory> {
    if !is_flat(instance) {
        return Ok(false);
    }
    Ok(plain(alloc, instance)? == *kernel)
}

#[test]
fn scalar_statements(rt: HostRuntime) -> Result<(), Fail> {
    let alloc = rt.alloc();
    let rets = [(Kind::Int64, 0)];
    for number in 0..7 {
        let instance = instance_of(alloc, &rets, block(alloc, scalar_core(alloc, number)?)?)?;
        let kernel = kernel_of(alloc, &rets, &[], body(alloc, scalar_form(alloc, number)?)?)?;
        assert!(rt; becomes(alloc, &instance, &kernel)?, "statement {number}");
    }
    Ok(())
}

#[test]
fn array_statements(rt: HostRuntime) -> Result<(), Fail> {
    let alloc = rt.alloc();
    let rets = [(Kind::Int64, 0)];
    for number in 0..11 {
        let instance = instance_of(alloc, &rets, block(alloc, array_core(alloc, number)?)?)?;
        let fresh: &[(Kind, u8)] = if number == 1 {
            &[(Kind::Int64, 2)]
        } else {
            &[]
        };
        let kernel = kernel_of(alloc, &rets, fresh, array_form(alloc, number)?)?;
        assert!(rt; becomes(alloc, &instance, &kernel)?, "statement {number}");
    }
    Ok(())
}

#[test]
fn own_calls(rt: HostRuntime) -> Result<(), Fail> {
    let alloc = rt.alloc();
    let call = block(alloc, scalar_core(alloc, 7)?)?;
    assert!(rt; !is_flat(&instance_of(alloc, &[], call)?));
    let inner = turns(None, block(alloc, scalar_core(alloc, 7)?)?);
    let part = branch(Seq::new(alloc), block(alloc, inner)?);
    assert!(rt; !is_flat(&instance_of(alloc, &[], block(alloc, part)?)?));
    Ok(())
}

fn negate(alloc: Global) -> Result<Seq<Core>, NoMemory> {
    block(
        alloc,
        map(alloc, A, MapOp::Un(UnOp::Neg), &[Oper::Name(A)])?,
    )
}

// What it becomes, with this new view register.
fn negated(alloc: Global, view: u32) -> Result<Seq<Statement>, NoMemory> {
    let steps = [TemplateStep::Leaf(0), TemplateStep::Un(UnOp::Neg)];
    let made = filled(alloc, view, &[0], &steps)?;
    and(made, Statement::Same { to: 0, of: view })
}

fn branch(yes: Seq<Core>, no: Seq<Core>) -> Core {
    Core::If {
        cond: Oper::Name(T),
        yes,
        no,
    }
}

fn branched(yes: Seq<Statement>, no: Seq<Statement>) -> Statement {
    Statement::If {
        cond: Oper::Name(1),
        yes,
        no,
    }
}

fn repeated(body: Seq<Statement>) -> Statement {
    Statement::For {
        var: 2,
        lo: Oper::Int(0),
        hi: Oper::Name(0),
        step: Oper::Int(2),
        at: AT,
        body,
    }
}

// The parts have new registers one after the other.
#[test]
fn blocks(rt: HostRuntime) -> Result<(), Fail> {
    let alloc = rt.alloc();
    let rets = [(Kind::Int64, 0)];
    let other = block(alloc, turns(None, negate(alloc)?))?;
    let cores = block(alloc, branch(negate(alloc)?, other))?;
    let behind = body(alloc, repeated(negated(alloc, 4)?))?;
    let all = body(alloc, branched(negated(alloc, 3)?, behind))?;
    let fresh = [(Kind::Int64, 2), (Kind::Int64, 2)];
    let kernel = kernel_of(alloc, &rets, &fresh, all)?;
    assert!(rt; becomes(alloc, &instance_of(alloc, &rets, cores)?, &kernel)?);
    Ok(())
}

// A loop under a directive.
#[test]
fn parallel_loops(rt: HostRuntime) -> Result<(), Fail> {
    let alloc = rt.alloc();
    let rets = [(Kind::Int64, 0)];
    let omp = Some(list(alloc, &[(Join::Sum, N), (Join::Max, K)])?);
    let inner = block(alloc, scalar_core(alloc, 5)?)?;
    let cores = block(alloc, turns(omp, inner))?;
    let parallel = Statement::ParFor {
        var: 2,
        lo: Oper::Int(0),
        hi: Oper::Name(0),
        step: Oper::Int(2),
        at: AT,
        guard: Guard {
            parts: Seq::new(alloc),
        },
        reductions: list(alloc, &[(Join::Sum, 0), (Join::Max, 2)])?,
        privates: Seq::new(alloc),
        body: body(alloc, scalar_form(alloc, 5)?)?,
    };
    let kernel = kernel_of(alloc, &rets, &[], body(alloc, parallel)?)?;
    assert!(rt; becomes(alloc, &instance_of(alloc, &rets, cores)?, &kernel)?);
    Ok(())
}

// Without values an empty body is a Return of nothing.
#[test]
fn empty_kernels(rt: HostRuntime) -> Result<(), Fail> {
    let alloc = rt.alloc();
    let instance = instance_of(alloc, &[], Seq::new(alloc))?;
    let kernel = kernel_of(alloc, &[], &[], body(alloc, given(alloc, &[])?)?)?;
    assert!(rt; becomes(alloc, &instance, &kernel)?);
    Ok(())
}

// Without values each block in tail position ends in a Return of nothing, and no other does.
#[test]
fn tail_blocks(rt: HostRuntime) -> Result<(), Fail> {
    let alloc = rt.alloc();
    let inner = block(alloc, scalar_core(alloc, 5)?)?;
    let last = block(alloc, turns(None, inner))?;
    let ends = block(alloc, returned(alloc, &[])?)?;
    let yes = block(alloc, branch(last, ends))?;
    let cores = block(alloc, branch(yes, Seq::new(alloc)))?;
    let mut part = body(alloc, repeated(body(alloc, scalar_form(alloc, 5)?)?))?;
    part.push(given(alloc, &[])?)?;
    let deep = body(alloc, branched(part, body(alloc, given(alloc, &[])?)?))?;
    let all = body(alloc, branched(deep, body(alloc, given(alloc, &[])?)?))?;
    let kernel = kernel_of(alloc, &[], &[], all)?;
    assert!(rt; becomes(alloc, &instance_of(alloc, &[], cores)?, &kernel)?);
    Ok(())
}

// Many statements, each with a new register, and many names.
#[test]
fn large_instances(rt: HostRuntime) -> Result<(), Fail> {
    let alloc = rt.alloc();
    let many: u32 = 70_000;
    let mut cores = Seq::new(alloc);
    let mut names = list(alloc, &NAMES)?;
    for _number in 0..many {
        cores.push(map(alloc, A, MapOp::Un(UnOp::Neg), &[Oper::Name(A)])?)?;
        names.push((Kind::Bool, 0))?;
    }
    let mut instance = instance_of(alloc, &[], cores)?;
    instance.names = names;
    let mut last = None;
    if is_flat(&instance) {
        let kernel = plain(alloc, &instance)?;
        assert_eq!(rt; kernel.regs.len(), 70_003);
        assert_eq!(rt; kernel.views.len(), 70_003);
        assert_eq!(rt; kernel.body.len(), 280_001);
        if let Some(Statement::Same { to, of }) = kernel.body.as_slice().get(279_999) {
            last = Some((*to, *of));
        }
    }
    assert_eq!(rt; last, Some((0, 70_002)));
    Ok(())
}
