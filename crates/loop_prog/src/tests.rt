use crate::{
    Back, CheckStop, Dims, Fill, Form, Guard, GuardPart, InvalidRule, Kernel, LoopProgram, Oper,
    Reg, Statement, Symbol, Template, TemplateStep, Test, WordOp, check,
};
use eager_rules::CoreSub;
use krn_base::{BinOp, Join, Kind, Loc, NoMemory, ParamType, Seq, Text, UnOp};
use std::alloc::Global;
use std::test::Fail;

const AT: Loc = Loc { line: 1, col: 1 };

const ONE: Oper = Oper::Int(1);

fn list<T: Copy>(alloc: Global, items: &[T]) -> Result<Seq<T>, NoMemory> {
    let mut made = Seq::new(alloc);
    for item in items {
        made.push(*item)?;
    }
    Ok(made)
}

fn set(alloc: Global, to: u32, op: WordOp, args: &[Oper]) -> Result<Statement, NoMemory> {
    Ok(Statement::Set {
        to,
        op,
        args: list(alloc, args)?,
        at: AT,
    })
}

fn moved(alloc: Global, to: u32, x: Oper) -> Result<Statement, NoMemory> {
    set(alloc, to, WordOp::Move, &[x])
}

fn view_of(alloc: Global, to: u32, of: u32, subs: &[CoreSub]) -> Result<Statement, NoMemory> {
    Ok(Statement::ViewOf {
        to,
        of,
        subs: list(alloc, subs)?,
        at: AT,
    })
}

fn like(alloc: Global, to: u32, views: &[u32]) -> Result<Statement, NoMemory> {
    Ok(Statement::Like {
        to,
        views: list(alloc, views)?,
        at: AT,
    })
}

fn fresh(alloc: Global, to: u32, fill: Fill, dims: &[Oper]) -> Result<Statement, NoMemory> {
    Ok(Statement::Fresh {
        to,
        dims: list(alloc, dims)?,
        fill,
        at: AT,
    })
}

fn nest(alloc: Global, to: u32, steps: &[TemplateStep]) -> Result<Statement, NoMemory> {
    Ok(Statement::Nest {
        to,
        template: Template {
            steps: list(alloc, steps)?,
        },
        at: AT,
    })
}

fn fold(alloc: Global, to: u32, join: Join, steps: &[TemplateStep]) -> Result<Statement, NoMemory> {
    Ok(Statement::Fold {
        to,
        join,
        template: Template {
            steps: list(alloc, steps)?,
        },
        at: AT,
    })
}

fn repeat(var: u32, lo: Oper, body: Seq<Statement>) -> Statement {
    Statement::For {
        var,
        lo,
        hi: ONE,
        step: ONE,
        at: AT,
        body,
    }
}

fn returned(alloc: Global, values: &[Back]) -> Result<Statement, NoMemory> {
    Ok(Statement::Return {
        values: list(alloc, values)?,
    })
}

fn one(alloc: Global, statement: Statement) -> Result<Seq<Statement>, NoMemory> {
    let mut body = Seq::new(alloc);
    body.push(statement)?;
    Ok(body)
}

// A kernel with the parameters a: int64[:], n: int64, t: bool. Its scalar registers are n, t, an Int64 and a Bool one,
// its view registers a, an Int64 one, a Bool one and an Int64 one of rank 2.
fn kernel_of(alloc: Global, body: Seq<Statement>) -> Result<Kernel, NoMemory> {
    let mut params = Seq::new(alloc);
    params.push((list(alloc, b"a")?, ParamType::Flat(Kind::Int64, 1)))?;
    params.push((list(alloc, b"n")?, ParamType::Scalar(Kind::Int64)))?;
    params.push((list(alloc, b"t")?, ParamType::Scalar(Kind::Bool)))?;
    Ok(Kernel {
        name: list(alloc, b"k")?,
        params,
        regs: list(alloc, &[Kind::Int64, Kind::Bool, Kind::Int64, Kind::Bool])?,
        views: list(
            alloc,
            &[
                (Kind::Int64, 1),
                (Kind::Int64, 1),
                (Kind::Bool, 1),
                (Kind::Int64, 2),
            ],
        )?,
        rets: list(alloc, &[(Kind::Int64, 0)])?,
        body,
    })
}

// What is found in a kernel with these statements and a Return of n behind them.
fn found(alloc: Global, first: Statement) -> Result<Result<(), CheckStop>, NoMemory> {
    let mut body = one(alloc, first)?;
    body.push(returned(alloc, &[Back::Word(Oper::Name(0))])?)?;
    found_in(alloc, body)
}

fn found_in(alloc: Global, body: Seq<Statement>) -> Result<Result<(), CheckStop>, NoMemory> {
    let mut kernels = Seq::new(alloc);
    kernels.push(kernel_of(alloc, body)?)?;
    Ok(check(&LoopProgram { kernels }, alloc))
}

// A statement inside as many loops.
fn nested(alloc: Global, innermost: Statement, depth: u32) -> Result<Statement, NoMemory> {
    let mut inner = innermost;
    for _level in 0..depth {
        inner = repeat(2, ONE, one(alloc, inner)?);
    }
    Ok(inner)
}

fn guarded(alloc: Global, var: u32, reg: u32, private: Reg) -> Result<Statement, NoMemory> {
    let form = Form {
        constant: 0,
        terms: list(alloc, &[(1, Symbol::Reg(reg))])?,
    };
    let mut parts = Seq::new(alloc);
    parts.push(GuardPart::Inside {
        view: 0,
        axis: 0,
        form,
    })?;
    parts.push(GuardPart::Fits(Seq::<Dims>::new(alloc)))?;
    Ok(Statement::ParFor {
        var,
        lo: ONE,
        hi: ONE,
        step: ONE,
        at: AT,
        guard: Guard { parts },
        reductions: list(alloc, &[(Join::Sum, 0)])?,
        privates: list(alloc, &[private])?,
        body: Seq::new(alloc),
    })
}

// A statement for each line of the rules, by its number.
fn line(alloc: Global, number: usize) -> Result<Statement, NoMemory> {
    let n = Oper::Name(0);
    let t = Oper::Name(1);
    match number {
        0 => moved(alloc, 4, ONE),
        1 => moved(alloc, 2, Oper::Name(4)),
        2 => like(alloc, 4, &[0]),
        3 => guarded(alloc, 2, 4, Reg::Word(2)),
        4 => guarded(alloc, 2, 2, Reg::View(4)),
        5 => set(alloc, 2, WordOp::Bin(BinOp::Add), &[t, Oper::Truth(true)]),
        6 => set(alloc, 2, WordOp::Bin(BinOp::Add), &[n]),
        7 => set(alloc, 3, WordOp::Bin(BinOp::Add), &[n, t]),
        8 => moved(alloc, 2, t),
        9 => set(alloc, 2, WordOp::Un(UnOp::Inv), &[t]),
        10 => view_of(alloc, 2, 0, &[]),
        11 => fresh(alloc, 2, Fill::Count, &[n]),
        12 => nest(alloc, 2, &[TemplateStep::Leaf(0)]),
        13 => fold(
            alloc,
            3,
            Join::Sum,
            &[TemplateStep::Leaf(0), TemplateStep::Un(UnOp::Test)],
        ),
        14 => fold(alloc, 3, Join::Prod, &[TemplateStep::Leaf(0)]),
        15 => Ok(repeat(3, ONE, Seq::new(alloc))),
        16 => view_of(alloc, 1, 0, &[CoreSub::At(n)]),
        17 => view_of(alloc, 1, 0, &[CoreSub::At(n), CoreSub::At(n)]),
        18 => fresh(alloc, 3, Fill::Zero, &[n]),
        19 => fresh(alloc, 3, Fill::Count, &[n, n]),
        20 => like(alloc, 3, &[0, 0]),
        21 => like(alloc, 1, &[]),
        22 => moved(alloc, 2, Oper::Name(2)),
        23 => like(alloc, 1, &[1]),
        24 => nest(alloc, 1, &[TemplateStep::Leaf(0)]),
        25 => set(alloc, 2, WordOp::Un(UnOp::Pow(63)), &[n]),
        26 => nest(alloc, 0, &[TemplateStep::Leaf(0), TemplateStep::Word(n)]),
        27 => nest(
            alloc,
            0,
            &[TemplateStep::Leaf(0), TemplateStep::Bin(BinOp::Add)],
        ),
        28 => fold(alloc, 2, Join::Sum, &[TemplateStep::Word(n)]),
        29 => nested(alloc, repeat(2, ONE, Seq::new(alloc)), 128),
        30 => returned(alloc, &[Back::Word(n)]),
        31 => moved(alloc, 2, n),
        32 => set(alloc, 2, WordOp::Un(UnOp::Pow(62)), &[n]),
        33 => nested(alloc, repeat(2, ONE, Seq::new(alloc)), 127),
        34 => fold(
            alloc,
            3,
            Join::Prod,
            &[TemplateStep::Leaf(0), TemplateStep::Un(UnOp::Test)],
        ),
        35 => nest(alloc, 0, &[TemplateStep::Word(t)]),
        36 => guarded(alloc, 2, 2, Reg::Word(2)),
        _ => Ok(Statement::Release { view: 2 }),
    }
}

const REGISTER: Option<(u32, InvalidRule)> = Some((0, InvalidRule::Register));

const KIND: Option<(u32, InvalidRule)> = Some((0, InvalidRule::Kind));

const RANK: Option<(u32, InvalidRule)> = Some((0, InvalidRule::Rank));

const UNASSIGNED: Option<(u32, InvalidRule)> = Some((0, InvalidRule::Unassigned));

const TEMPLATE: Option<(u32, InvalidRule)> = Some((0, InvalidRule::Template));

const NESTING: Option<(u32, InvalidRule)> = Some((128, InvalidRule::Nesting));

const RETURN: Option<(u32, InvalidRule)> = Some((0, InvalidRule::Return));

const RETURN_IN_LOOP: Option<(u32, InvalidRule)> = Some((1, InvalidRule::Return));

static WANTED: [Option<(u32, InvalidRule)>; 38] = [
    REGISTER, REGISTER, REGISTER, REGISTER, REGISTER, KIND, KIND, KIND, KIND, KIND, KIND, KIND,
    KIND, KIND, KIND, KIND, RANK, RANK, RANK, RANK, RANK, RANK, UNASSIGNED, UNASSIGNED, UNASSIGNED,
    TEMPLATE, TEMPLATE, TEMPLATE, TEMPLATE, NESTING, RETURN, None, None, None, None, None, None,
    None,
];

fn want(flaw: &Option<(u32, InvalidRule)>) -> Result<(), CheckStop> {
    match flaw {
        Some((at, rule)) => Err(CheckStop::Invalid {
            at: *at,
            rule: *rule,
        }),
        None => Ok(()),
    }
}

#[test]
fn a_line_of_each_rule(rt: HostRuntime) -> Result<(), Fail> {
    let alloc = rt.alloc();
    for (number, flaw) in WANTED.iter().enumerate() {
        let answer = found(alloc, line(alloc, number)?)?;
        assert_eq!(rt; answer, want(flaw));
    }
    Ok(())
}

#[test]
fn many_statements(rt: HostRuntime) -> Result<(), Fail> {
    let alloc = rt.alloc();
    let mut body = Seq::new(alloc);
    for _number in 0..200_000 {
        body.push(moved(alloc, 2, Oper::Name(0))?)?;
    }
    body.push(returned(alloc, &[Back::Word(Oper::Name(2))])?)?;
    assert_eq!(rt; found_in(alloc, body)?, Ok(()));
    Ok(())
}

#[test]
fn paths_and_ends(rt: HostRuntime) -> Result<(), Fail> {
    let alloc = rt.alloc();
    // A register that one part assigns is unassigned behind the If; the numbers go on over both parts.
    let mut body = one(
        alloc,
        Statement::If {
            cond: Oper::Name(1),
            yes: one(alloc, moved(alloc, 2, ONE)?)?,
            no: Seq::new(alloc),
        },
    )?;
    body.push(returned(alloc, &[Back::Word(Oper::Name(2))])?)?;
    assert_eq!(rt;
        found_in(alloc, body)?,
        Err(CheckStop::Invalid {
            at: 2,
            rule: InvalidRule::Unassigned
        })
    );
    // A view that a turn releases is unassigned in the next.
    let mut turn = one(alloc, like(alloc, 1, &[0])?)?;
    turn.push(Statement::Release { view: 0 })?;
    assert_eq!(rt;
        found(alloc, repeat(2, ONE, turn))?,
        Err(CheckStop::Invalid {
            at: 1,
            rule: InvalidRule::Unassigned
        })
    );
    // A kernel without a statement ends without a Return, at the number that its first one would have.
    assert_eq!(rt;
        found_in(alloc, Seq::new(alloc))?,
        Err(CheckStop::Invalid {
            at: 0,
            rule: InvalidRule::Return
        })
    );
    // A second kernel of one head is refused at its first statement's number, counted over the program.
    let mut kernels = Seq::new(alloc);
    for _kernel in 0..2 {
        let body = one(alloc, returned(alloc, &[Back::Word(Oper::Name(0))])?)?;
        kernels.push(kernel_of(alloc, body)?)?;
    }
    assert_eq!(rt;
        check(&LoopProgram { kernels }, alloc),
        Err(CheckStop::Invalid {
            at: 1,
            rule: InvalidRule::Register
        })
    );
    Ok(())
}

fn branch(cond: Oper, yes: Seq<Statement>, no: Seq<Statement>) -> Statement {
    Statement::If { cond, yes, no }
}

fn get(alloc: Global, to: u32, of: u32, index: &[Oper]) -> Result<Statement, NoMemory> {
    Ok(Statement::Get {
        to,
        of,
        index: list(alloc, index)?,
        at: AT,
    })
}

fn put(alloc: Global, of: u32, index: &[Oper], value: Oper) -> Result<Statement, NoMemory> {
    Ok(Statement::Put {
        of,
        index: list(alloc, index)?,
        value,
        at: AT,
    })
}

// A nest of as many steps, all but the first of which copy.
fn long_nest(alloc: Global, steps: usize) -> Result<Statement, NoMemory> {
    let mut made = Seq::new(alloc);
    made.push(TemplateStep::Leaf(0))?;
    for _step in 1..steps {
        made.push(TemplateStep::Un(UnOp::Copy))?;
    }
    nest(alloc, 0, made.as_slice())
}

// Statements of which each breaks the rule Kind.
fn kind_line(alloc: Global, number: usize) -> Result<Statement, NoMemory> {
    let n = Oper::Name(0);
    let t = Oper::Name(1);
    match number {
        0 => Ok(Statement::Extent {
            to: 3,
            of: 0,
            axis: None,
        }),
        1 => get(alloc, 3, 0, &[n]),
        2 => put(alloc, 2, &[n], n),
        3 => Ok(Statement::Flip { to: 2, of: 0 }),
        4 => Ok(Statement::Same { to: 2, of: 0 }),
        5 => Ok(branch(n, Seq::new(alloc), Seq::new(alloc))),
        6 => guarded(alloc, 3, 2, Reg::Word(2)),
        7 => nest(
            alloc,
            0,
            &[TemplateStep::Word(t), TemplateStep::Un(UnOp::Inv)],
        ),
        _ => nest(
            alloc,
            0,
            &[
                TemplateStep::Word(n),
                TemplateStep::Leaf(0),
                TemplateStep::Leaf(0),
                TemplateStep::Select,
            ],
        ),
    }
}

// Statements of which each breaks the rule Rank.
fn rank_line(alloc: Global, number: usize) -> Result<Statement, NoMemory> {
    let n = Oper::Name(0);
    match number {
        0 => Ok(Statement::Extent {
            to: 2,
            of: 0,
            axis: Some(1),
        }),
        1 => get(alloc, 2, 0, &[n, n]),
        2 => put(alloc, 0, &[], n),
        3 => Ok(Statement::Flip { to: 3, of: 0 }),
        4 => Ok(Statement::Same { to: 3, of: 0 }),
        5 => view_of(alloc, 3, 0, &[CoreSub::Cut(None, None, None)]),
        6 => nest(alloc, 0, &[TemplateStep::Leaf(3)]),
        7 => returned(alloc, &[Back::View(0)]),
        _ => returned(alloc, &[]),
    }
}

// Statements of which each breaks the rule Template.
fn template_line(alloc: Global, number: usize) -> Result<Statement, NoMemory> {
    match number {
        0 => nest(alloc, 0, &[]),
        1 => nest(
            alloc,
            0,
            &[TemplateStep::Leaf(0), TemplateStep::Un(UnOp::Pow(63))],
        ),
        2 => fold(
            alloc,
            2,
            Join::Sum,
            &[TemplateStep::Leaf(0), TemplateStep::Leaf(0)],
        ),
        3 => nest(alloc, 0, &[TemplateStep::Leaf(0), TemplateStep::Select]),
        _ => long_nest(alloc, 65),
    }
}

#[test]
fn other_lines_of_each_rule(rt: HostRuntime) -> Result<(), Fail> {
    let alloc = rt.alloc();
    for number in 0..9 {
        assert_eq!(rt; found(alloc, kind_line(alloc, number)?)?, want(&KIND));
        assert_eq!(rt; found(alloc, rank_line(alloc, number)?)?, want(&RANK));
    }
    for number in 0..5 {
        assert_eq!(rt;
            found(alloc, template_line(alloc, number)?)?,
            want(&TEMPLATE)
        );
    }
    assert_eq!(rt; found(alloc, long_nest(alloc, 64)?)?, Ok(()));
    // A loop's ends are read before its turns.
    assert_eq!(rt;
        found(alloc, repeat(2, Oper::Name(2), Seq::new(alloc)))?,
        want(&UNASSIGNED)
    );
    // An If inside 128 loops, and a parallel loop.
    let part = branch(Oper::Name(1), Seq::new(alloc), Seq::new(alloc));
    assert_eq!(rt; found(alloc, nested(alloc, part, 128)?)?, want(&NESTING));
    let turns = guarded(alloc, 2, 2, Reg::Word(2))?;
    assert_eq!(rt; found(alloc, nested(alloc, turns, 128)?)?, want(&NESTING));
    Ok(())
}

#[test]
fn places_of_returns(rt: HostRuntime) -> Result<(), Fail> {
    let alloc = rt.alloc();
    // The last statement is no Return; a part in tail position is empty.
    let last = one(alloc, moved(alloc, 2, ONE)?)?;
    assert_eq!(rt; found_in(alloc, last)?, want(&RETURN));
    let yes = one(alloc, returned(alloc, &[Back::Word(Oper::Name(0))])?)?;
    let ends = one(alloc, branch(Oper::Name(1), yes, Seq::new(alloc)))?;
    assert_eq!(rt; found_in(alloc, ends)?, want(&RETURN));
    // A Return inside a loop, and one before the end of its block.
    let inside = one(alloc, returned(alloc, &[Back::Word(Oper::Name(0))])?)?;
    assert_eq!(rt;
        found(alloc, repeat(2, ONE, inside))?,
        want(&RETURN_IN_LOOP)
    );
    let early = returned(alloc, &[Back::Word(Oper::Name(0))])?;
    assert_eq!(rt; found(alloc, early)?, want(&RETURN));
    Ok(())
}

fn alone(alloc: Global, kernel: Kernel) -> Result<Result<(), CheckStop>, NoMemory> {
    let mut kernels = Seq::new(alloc);
    kernels.push(kernel)?;
    Ok(check(&LoopProgram { kernels }, alloc))
}

fn sound_kernel(alloc: Global) -> Result<Kernel, NoMemory> {
    kernel_of(
        alloc,
        one(alloc, returned(alloc, &[Back::Word(Oper::Name(0))])?)?,
    )
}

#[test]
fn lines_of_a_kernels_own(rt: HostRuntime) -> Result<(), Fail> {
    let alloc = rt.alloc();
    assert_eq!(rt; alone(alloc, sound_kernel(alloc)?)?, Ok(()));
    // A parameter without a register, and one whose register has another kind.
    let mut kernel = sound_kernel(alloc)?;
    kernel.regs = list(alloc, &[Kind::Int64])?;
    assert_eq!(rt; alone(alloc, kernel)?, want(&REGISTER));
    let mut kernel = sound_kernel(alloc)?;
    kernel.regs = list(alloc, &[Kind::Int64, Kind::Int64])?;
    assert_eq!(rt; alone(alloc, kernel)?, want(&KIND));
    let mut kernel = sound_kernel(alloc)?;
    kernel.views = list(alloc, &[(Kind::Bool, 1)])?;
    assert_eq!(rt; alone(alloc, kernel)?, want(&KIND));
    // An array parameter of another rank than its register, a view of 5 dimensions and one of none, and a value of 5.
    let mut kernel = sound_kernel(alloc)?;
    kernel.views = list(alloc, &[(Kind::Int64, 2)])?;
    assert_eq!(rt; alone(alloc, kernel)?, want(&RANK));
    let mut kernel = sound_kernel(alloc)?;
    kernel.views = list(alloc, &[(Kind::Int64, 1), (Kind::Int64, 5)])?;
    assert_eq!(rt; alone(alloc, kernel)?, want(&RANK));
    let mut kernel = sound_kernel(alloc)?;
    kernel.views = list(alloc, &[(Kind::Int64, 1), (Kind::Int64, 0)])?;
    assert_eq!(rt; alone(alloc, kernel)?, want(&RANK));
    let mut kernel = sound_kernel(alloc)?;
    kernel.rets = list(alloc, &[(Kind::Int64, 5)])?;
    assert_eq!(rt; alone(alloc, kernel)?, want(&RANK));
    Ok(())
}

#[test]
fn many_registers_and_parts(rt: HostRuntime) -> Result<(), Fail> {
    let alloc = rt.alloc();
    let mut body = Seq::new(alloc);
    for number in 4..10_004 {
        let yes = one(alloc, moved(alloc, number, ONE)?)?;
        let no = one(alloc, moved(alloc, number, ONE)?)?;
        body.push(branch(Oper::Name(1), yes, no))?;
    }
    body.push(returned(alloc, &[Back::Word(Oper::Name(10_003))])?)?;
    let mut kernel = kernel_of(alloc, body)?;
    for _register in 0..20_000 {
        kernel.regs.push(Kind::Int64)?;
    }
    assert_eq!(rt; alone(alloc, kernel)?, Ok(()));
    Ok(())
}

#[test]
fn many_kernels(rt: HostRuntime) -> Result<(), Fail> {
    let alloc = rt.alloc();
    let mut kernels = Seq::new(alloc);
    for number in 0..5_000u32 {
        let mut kernel = sound_kernel(alloc)?;
        kernel.name = list(alloc, &number.to_le_bytes())?;
        kernels.push(kernel)?;
    }
    assert_eq!(rt; check(&LoopProgram { kernels }, alloc), Ok(()));
    Ok(())
}

// A kernel that returns nothing, whose 13 scalar parameters have the kinds of a number's bits.
fn kernel_by_bits(alloc: Global, number: u32) -> Result<Kernel, NoMemory> {
    let mut params = Seq::new(alloc);
    let mut regs = Seq::new(alloc);
    let mut left = number;
    for _bit in 0..13 {
        let kind = if left % 2 == 1 {
            Kind::Bool
        } else {
            Kind::Int64
        };
        params.push((list(alloc, b"a")?, ParamType::Scalar(kind)))?;
        regs.push(kind)?;
        left /= 2;
    }
    Ok(Kernel {
        name: list(alloc, b"k")?,
        params,
        regs,
        views: Seq::new(alloc),
        rets: Seq::new(alloc),
        body: one(alloc, returned(alloc, &[])?)?,
    })
}

#[test]
fn many_kernels_of_one_name(rt: HostRuntime) -> Result<(), Fail> {
    let alloc = rt.alloc();
    let mut kernels = Seq::new(alloc);
    for number in 0..5_000 {
        kernels.push(kernel_by_bits(alloc, number)?)?;
    }
    let mut program = LoopProgram { kernels };
    assert_eq!(rt; check(&program, alloc), Ok(()));
    // One of the heads once more.
    program.kernels.push(kernel_by_bits(alloc, 4_321)?)?;
    assert_eq!(rt;
        check(&program, alloc),
        want(&Some((5_000, InvalidRule::Register)))
    );
    Ok(())
}
