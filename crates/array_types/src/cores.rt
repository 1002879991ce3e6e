// The core statements that the forms of a text make.
ghost use Rattle.std.specs.Prelude.{◌≡◌, ◌∷◌, [], ◌++◌, map, IfOk, OnOk};
ghost use Rattle.eager_rules.specs.Types as core_types;
ghost use Rattle.array_types.specs.Forms as spec;
ghost use Rattle.array_types.specs.Rows as rows;

use crate::rows::axis_of;
use crate::state::{Range, Ty, Value};
use array_ops::{Fill, MapOp};
use eager_rules::{Core, CoreSub, Oper, WordOp};
use krn_base::{BinOp, Kind, Loc, NoMemory, Seq, UnOp};
use module_terms::Operation;
use std::alloc::Global;

/// The types of operands.
pub fn types_of(alloc: Global, values: &[Value]) -> Result<Seq<Ty>, NoMemory>
    ensures { IfOk result (λ types. types ≡ spec.types_in values.now) }
{
    let mut types = Seq::new(alloc);
    for v in values {
        types.push(v.ty)?;
    }
    Ok(types)
}

/// The operands themselves.
pub fn opers_of(alloc: Global, values: &[Value]) -> Result<Seq<Oper>, NoMemory>
    ensures { IfOk result (λ opers. opers ≡ spec.opers_in values.now) }
{
    let mut opers = Seq::new(alloc);
    for v in values {
        opers.push(v.oper)?;
    }
    Ok(opers)
}

/// One operand.
fn single(alloc: Global, x: Oper) -> Result<Seq<Oper>, NoMemory>
    ensures { IfOk result (λ opers. opers ≡ x ∷ []) }
{
    let mut opers = Seq::new(alloc);
    opers.push(x)?;
    Ok(opers)
}

/// Two operands.
pub fn both(alloc: Global, x: Oper, y: Oper) -> Result<Seq<Oper>, NoMemory>
    ensures { IfOk result (λ opers. opers ≡ x ∷ y ∷ []) }
{
    let mut opers = Seq::new(alloc);
    opers.push(x)?;
    opers.push(y)?;
    Ok(opers)
}

/// The number of a name, or 0 for a literal.
pub fn number_of(x: Oper) -> u32
    ensures { result ≡ spec.number_of x }
{
    match x {
        Oper::Name(n) => n,
        _ => 0,
    }
}

/// The number of the first operand.
pub fn array_of(values: &[Value]) -> u32
    ensures { result ≡ spec.array_of values.now }
{
    match values {
        [] => 0,
        [v, ..] => number_of(v.oper),
    }
}

/// An operator on scalars, or on arrays.
pub fn binary_core(rank: u8, to: u32, op: BinOp, args: Seq<Oper>, at: Loc) -> Core
    ensures { result ≡ spec.binary_core rank to op args at }
{
    match rank {
        0 => Core::Word {
            to,
            op: WordOp::Bin(op),
            args,
            at,
        },
        _ => Core::Map {
            to,
            op: MapOp::Bin(op),
            args,
            at,
        },
    }
}

fn unary_core(rank: u8, to: u32, op: UnOp, args: Seq<Oper>, at: Loc) -> Core
    ensures { result ≡ spec.unary_core rank to op args at }
{
    match rank {
        0 => Core::Word {
            to,
            op: WordOp::Un(op),
            args,
            at,
        },
        _ => Core::Map {
            to,
            op: MapOp::Un(op),
            args,
            at,
        },
    }
}

/// The operand itself under another name.
pub fn move_core(alloc: Global, rank: u8, to: u32, x: Oper, at: Loc) -> Result<Core, NoMemory>
    ensures { IfOk result (λ core. core ≡ spec.move_core rank to x at) }
{
    match rank {
        0 => {
            let args = single(alloc, x)?;
            Ok(Core::Word {
                to,
                op: WordOp::Move,
                args,
                at,
            })
        }
        _ => Ok(Core::Alias {
            to,
            of: number_of(x),
        }),
    }
}

fn invert(kind: Kind) -> UnOp
    ensures { result ≡ spec.invert kind }
{
    match kind {
        Kind::Int64 => UnOp::Inv,
        Kind::Bool => UnOp::Flip,
    }
}

/// The dimension of the first operand that a literal names.
fn literal_axis(values: &[Value], k: i64) -> Option<u8>
    ensures { result ≡ spec.literal_axis values.now k }
{
    match values {
        [] => None,
        [v, ..] => axis_of(v.ty.1, k),
    }
}

/// Operands and 0 behind them.
fn and_zero(mut opers: Seq<Oper>) -> Result<Seq<Oper>, NoMemory>
    ensures { IfOk result (λ all. all ≡ opers ++ spec.zero_oper ∷ []) }
{
    opers.push(Oper::Int(0))?;
    Ok(opers)
}

/// An operation on these operands with the result `r`, bound to `to`.
pub fn operation_core(
    alloc: Global,
    op: Operation,
    to: u32,
    values: &[Value],
    r: Ty,
    at: Loc,
) -> Result<Core, NoMemory>
    ensures { IfOk result (λ core. core ≡ spec.operation_core op to values.now r at) }
{
    let args = opers_of(alloc, values)?;
    let of = array_of(values);
    match op {
        Operation::Binary(op) => Ok(binary_core(r.1, to, op, args, at)),
        Operation::Least(op) => Ok(Core::Word {
            to,
            op: WordOp::Bin(op),
            args,
            at,
        }),
        Operation::Minus => Ok(unary_core(r.1, to, UnOp::Neg, args, at)),
        Operation::Plus => Ok(binary_core(r.1, to, BinOp::Add, and_zero(args)?, at)),
        Operation::Invert => Ok(unary_core(r.1, to, invert(r.0), args, at)),
        Operation::Not => Ok(Core::Word {
            to,
            op: WordOp::Un(UnOp::Flip),
            args,
            at,
        }),
        Operation::Power(k) => Ok(unary_core(r.1, to, UnOp::Pow(k), args, at)),
        Operation::Abs => Ok(unary_core(r.1, to, UnOp::Abs, args, at)),
        Operation::ToInt => Ok(Core::Word {
            to,
            op: WordOp::Bin(BinOp::Add),
            args: and_zero(args)?,
            at,
        }),
        Operation::Length => Ok(Core::Extent {
            to,
            of,
            axis: Some(0),
        }),
        Operation::Size => Ok(Core::Extent { to, of, axis: None }),
        Operation::Extent(k) => Ok(Core::Extent {
            to,
            of,
            axis: literal_axis(values, k),
        }),
        Operation::Transpose => Ok(Core::Flip { to, of }),
        Operation::Copy => Ok(Core::Map {
            to,
            op: MapOp::Un(UnOp::Copy),
            args,
            at,
        }),
        Operation::Where => Ok(Core::Map {
            to,
            op: MapOp::Select,
            args,
            at,
        }),
        Operation::Reduce(op) => Ok(Core::Reduce { to, op, of, at }),
        Operation::Fresh(fill, _) => Ok(Core::Fresh {
            to,
            dims: args,
            fill,
            at,
        }),
        Operation::FreshLike(fill, _, _) => Ok(Core::Fresh {
            to,
            dims: args,
            fill,
            at,
        }),
        Operation::Arange => Ok(Core::Fresh {
            to,
            dims: args,
            fill: Fill::Count,
            at,
        }),
        Operation::None => Ok(Core::Return {
            values: Seq::new(alloc),
        }),
    }
}

/// The integers among subscripts.
pub fn indices(alloc: Global, subs: &[CoreSub]) -> Result<Seq<Oper>, NoMemory>
    ensures { IfOk result (λ index. index ≡ rows.indices subs.now) }
{
    let mut index = Seq::new(alloc);
    for sub in subs {
        if let CoreSub::At(x) = sub {
            index.push(*x)?;
        }
    }
    Ok(index)
}

/// An element read, or a view.
pub fn pick_core(
    alloc: Global,
    to: u32,
    a: Value,
    subs: &[CoreSub],
    element: bool,
    at: Loc,
) -> Result<Core, NoMemory>
    ensures { IfOk result (λ core. core ≡ spec.pick_core_by element to a subs.now at) }
{
    let of = number_of(a.oper);
    if element {
        let index = indices(alloc, subs)?;
        return Ok(Core::Get { to, of, index, at });
    }
    let subs = Seq::from_vec(Vec::from_slice(alloc, subs)?);
    Ok(Core::Pick { to, of, subs, at })
}

/// The branch of an `and` or an `or`.
pub fn branch(alloc: Global, both: bool, n: u32, part: Seq<Core>) -> Core
    ensures { result ≡ spec.branch both n part }
{
    let cond = Oper::Name(n);
    if both {
        Core::If {
            cond,
            yes: part,
            no: Seq::new(alloc),
        }
    } else {
        Core::If {
            cond,
            yes: Seq::new(alloc),
            no: part,
        }
    }
}

/// The arguments of a range: the absent ones are 0 and 1.
pub fn range_by(values: &[Value]) -> Option<Range>
    ensures { result ≡ spec.range_by (spec.opers_in values.now) }
{
    match values {
        [hi] => Some(Range {
            lo: Oper::Int(0),
            hi: hi.oper,
            step: Oper::Int(1),
        }),
        [lo, hi] => Some(Range {
            lo: lo.oper,
            hi: hi.oper,
            step: Oper::Int(1),
        }),
        [lo, hi, step] => Some(Range {
            lo: lo.oper,
            hi: hi.oper,
            step: step.oper,
        }),
        _ => None,
    }
}
