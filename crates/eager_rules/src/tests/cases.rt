// Cases: programs that are written by hand, calls of their first function, and the outcomes from Python and NumPy.
use crate::{
    Arg, Call, Core, CoreSub, Fill, Instance, MapOp, Oper, Outcome, Program, RedOp, Value, WordOp,
    eager, has_small_powers,
};
use array_ops::fresh_shape;
use krn_base::{BinOp, Fault, Kind, Loc, NoMemory, ParamType, Seq, UnOp};
use std::alloc::{AllocError, Global};
use std::test::Fail;
use view_places::{Array, Shape, View};

// A statement without blocks.
#[derive(Clone, Copy)]
pub enum Plain {
    Word(u32, WordOp, &'static [Oper]),
    Extent(u32, u32, Option<u8>),
    Get(u32, u32, &'static [Oper]),
    Put(u32, &'static [Oper], Oper),
    Pick(u32, u32, &'static [CoreSub]),
    Flip(u32, u32),
    Alias(u32, u32),
    Fresh(u32, &'static [Oper], Fill),
    Map(u32, MapOp, &'static [Oper]),
    Reduce(u32, RedOp, u32),
    Store(u32, Oper),
    Call(&'static [u32], u32, &'static [Oper]),
    Return(&'static [Oper]),
}

#[derive(Clone, Copy)]
pub enum Line {
    One(Plain),
    If(Oper, &'static [Plain], &'static [Plain]),
    For(u32, [Oper; 3], &'static [Plain]),
}

// A type: a kind and a rank.
pub type Type = (Kind, u8);

#[derive(Clone, Copy)]
pub struct Function {
    pub params: &'static [Type],
    pub rets: &'static [Type],
    pub names: &'static [Type],
    pub body: &'static [Line],
}

// An array by its kind, its extents and its words.
#[derive(Clone, Copy)]
pub struct Table {
    pub kind: Kind,
    pub extents: &'static [i64],
    pub words: &'static [i64],
}

#[derive(Clone, Copy)]
pub enum Given {
    Word(Kind, i64),
    Array(Table),
}

// A kernel, which is the first function; its arguments are words, and then the buffers as a whole.
#[derive(Clone, Copy)]
pub struct Case {
    pub name: &'static str,
    pub functions: &'static [Function],
    pub words: &'static [i64],
    pub buffers: &'static [Table],
    pub ret: &'static [Given],
    pub after: &'static [&'static [i64]],
    pub fault: Option<(Fault, u32, u32)>,
}

pub const INT: Type = (Kind::Int64, 0);

pub const BOOL: Type = (Kind::Bool, 0);

pub const ROW: Type = (Kind::Int64, 1);

pub const MASK: Type = (Kind::Bool, 1);

pub const GRID: Type = (Kind::Int64, 2);

pub fn list<T: Copy>(alloc: Global, items: &[T]) -> Result<Seq<T>, AllocError> {
    Ok(Seq::from_vec(Vec::from_slice(alloc, items)?))
}

pub fn core_of(alloc: Global, line: &Plain, at: Loc) -> Result<Core, AllocError> {
    Ok(match *line {
        Plain::Word(to, op, args) => Core::Word {
            to,
            op,
            args: list(alloc, args)?,
            at,
        },
        Plain::Extent(to, of, axis) => Core::Extent { to, of, axis },
        Plain::Get(to, of, index) => Core::Get {
            to,
            of,
            index: list(alloc, index)?,
            at,
        },
        Plain::Put(of, index, value) => Core::Put {
            of,
            index: list(alloc, index)?,
            value,
            at,
        },
        Plain::Pick(to, of, subs) => Core::Pick {
            to,
            of,
            subs: list(alloc, subs)?,
            at,
        },
        Plain::Flip(to, of) => Core::Flip { to, of },
        Plain::Alias(to, of) => Core::Alias { to, of },
        Plain::Fresh(to, dims, fill) => Core::Fresh {
            to,
            dims: list(alloc, dims)?,
            fill,
            at,
        },
        Plain::Map(to, op, args) => Core::Map {
            to,
            op,
            args: list(alloc, args)?,
            at,
        },
        Plain::Reduce(to, op, of) => Core::Reduce { to, op, of, at },
        Plain::Store(of, value) => Core::Store { of, value, at },
        Plain::Call(to, instance, args) => Core::Call {
            to: list(alloc, to)?,
            instance,
            args: list(alloc, args)?,
        },
        Plain::Return(values) => Core::Return {
            values: list(alloc, values)?,
        },
    })
}

// The statements of a block of the statement on a line; each stands in a column of its own, from 2.
pub fn part_of(alloc: Global, part: &[Plain], line: u32) -> Result<Seq<Core>, AllocError> {
    let mut block = Vec::new(alloc);
    let mut col: u32 = 1;
    for plain in part {
        col = col.saturating_add(1);
        block.push(core_of(alloc, plain, Loc { line, col })?)?;
    }
    Ok(Seq::from_vec(block))
}

pub fn line_of(alloc: Global, line: &Line, number: u32) -> Result<Core, AllocError> {
    let at = Loc {
        line: number,
        col: 1,
    };
    match *line {
        Line::One(plain) => core_of(alloc, &plain, at),
        Line::If(cond, yes, no) => Ok(Core::If {
            cond,
            yes: part_of(alloc, yes, number)?,
            no: part_of(alloc, no, number)?,
        }),
        Line::For(var, range, body) => Ok(Core::For {
            var,
            lo: range[0],
            hi: range[1],
            step: range[2],
            at,
            omp: None,
            body: part_of(alloc, body, number)?,
        }),
    }
}

pub fn body_of(alloc: Global, lines: &[Line]) -> Result<Seq<Core>, AllocError> {
    let mut body = Vec::new(alloc);
    let mut number: u32 = 0;
    for line in lines {
        number = number.saturating_add(1);
        body.push(line_of(alloc, line, number)?)?;
    }
    Ok(Seq::from_vec(body))
}

pub fn params_of(alloc: Global, types: &[Type]) -> Result<Seq<(Seq<u8>, ParamType)>, AllocError> {
    let mut params = Vec::new(alloc);
    for (kind, rank) in types {
        let param = if *rank == 0 {
            ParamType::Scalar(*kind)
        } else {
            ParamType::Strided(*kind, *rank)
        };
        params.push((list(alloc, b"p")?, param))?;
    }
    Ok(Seq::from_vec(params))
}

pub fn instance_of(
    alloc: Global,
    params: &[Type],
    rets: &[Type],
    names: &[Type],
    body: &[Line],
) -> Result<Instance, AllocError> {
    Ok(Instance {
        name: list(alloc, b"f")?,
        weight: 9,
        params: params_of(alloc, params)?,
        rets: list(alloc, rets)?,
        names: list(alloc, names)?,
        body: body_of(alloc, body)?,
    })
}

pub fn program_of(alloc: Global, functions: &[Function]) -> Result<Program, AllocError> {
    let mut instances = Vec::new(alloc);
    for f in functions {
        instances.push(instance_of(alloc, f.params, f.rets, f.names, f.body)?)?;
    }
    Ok(Program {
        instances: Seq::from_vec(instances),
        kernels: list(alloc, &[0])?,
    })
}

// The array of a table with its shape, which is one.
pub fn array_of(alloc: Global, table: &Table, shape: Shape) -> Result<Array, AllocError> {
    Ok(Array {
        kind: table.kind,
        shape,
        words: list(alloc, table.words)?,
    })
}

pub fn shape_of(table: &Table) -> Result<Shape, Fail> {
    match fresh_shape(Fill::Zero, table.extents) {
        Ok(shape) => Ok(shape),
        Err(_) => Err(Fail::from(NoMemory)),
    }
}

// The whole of a buffer with this number.
pub fn whole_of(number: u32, table: &Table) -> Result<Arg, Fail> {
    match fresh_shape(Fill::Zero, table.extents) {
        Ok(shape) => Ok(Arg::Array(View::whole(number, &shape))),
        Err(_) => Err(Fail::from(NoMemory)),
    }
}

pub fn call_of(alloc: Global, words: &[i64], tables: &[Table]) -> Result<Call, Fail> {
    let mut buffers = Vec::new(alloc);
    let mut args = Vec::new(alloc);
    for word in words {
        args.push(Arg::Word(*word))?;
    }
    let mut number: u32 = 0;
    for table in tables {
        args.push(whole_of(number, table)?)?;
        buffers.push(array_of(alloc, table, shape_of(table)?)?)?;
        number = number.saturating_add(1);
    }
    Ok(Call {
        buffers: Seq::from_vec(buffers),
        args: Seq::from_vec(args),
    })
}

pub fn outcome_of(alloc: Global, case: &Case) -> Result<Outcome, Fail> {
    let mut ret = Vec::new(alloc);
    for given in case.ret {
        ret.push(match given {
            Given::Word(kind, word) => Value::Word(*kind, *word),
            Given::Array(table) => Value::Array(array_of(alloc, table, shape_of(table)?)?),
        })?;
    }
    let mut buffers = Vec::new(alloc);
    for words in case.after {
        buffers.push(list(alloc, words)?)?;
    }
    Ok(Outcome {
        ret: Seq::from_vec(ret),
        buffers: Seq::from_vec(buffers),
        fault: match case.fault {
            None => None,
            Some((fault, line, col)) => Some((fault, Loc { line, col })),
        },
    })
}

// The name of the first case whose outcome is another; nothing where all are right.
pub fn first_wrong(alloc: Global, cases: &[Case]) -> Result<&'static str, Fail> {
    for case in cases {
        let program = program_of(alloc, case.functions)?;
        let call = call_of(alloc, case.words, case.buffers)?;
        if !has_small_powers(&program) {
            return Ok(case.name);
        }
        let found = eager(alloc, &program, 0, &call)?;
        let want = outcome_of(alloc, case)?;
        if found != want {
            return Ok(case.name);
        }
    }
    Ok("")
}

pub const N0: Oper = Oper::Name(0);

pub const N1: Oper = Oper::Name(1);

pub const N2: Oper = Oper::Name(2);

pub const N3: Oper = Oper::Name(3);

pub const N4: Oper = Oper::Name(4);

pub const N5: Oper = Oper::Name(5);

pub const N6: Oper = Oper::Name(6);

pub const ALL: CoreSub = CoreSub::Cut(None, None, None);

pub const BACK: CoreSub = CoreSub::Cut(None, None, Some(Oper::Int(-1)));

pub const FIRST: CoreSub = CoreSub::At(Oper::Int(0));

pub const REST: CoreSub = CoreSub::Cut(Some(Oper::Int(1)), None, None);

pub const FRONT: CoreSub = CoreSub::Cut(None, Some(Oper::Int(-1)), None);

pub const STILL: CoreSub = CoreSub::Cut(None, None, Some(Oper::Int(0)));

pub const FAR: CoreSub = CoreSub::At(Oper::Int(99));
