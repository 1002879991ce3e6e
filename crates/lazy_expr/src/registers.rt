// Registers for the names of an instance, and what operands become by them.
ghost use Rattle.std.specs.Prelude.{◌≡◌, ◌∷◌, ◌++◌, [], IfOk, length, map, option_map};
ghost use Rattle.eager_rules.specs.Types.{is_array};
ghost use Rattle.lazy_expr.specs.Table as spec;

use eager_rules::{CoreSub, Oper};
use krn_base::{Kind, NoMemory, Seq};
use loop_prog::{Back, Reg};
use std::alloc::Global;

/// The kind and rank of a name or of a view register; rank 0 means a scalar.
pub type Ty = (Kind, u8);

/// Whether a type is that of an array.
pub fn is_array(ty: Ty) -> bool
    ensures { result ≡ is_array ty }
{
    ty.1 != 0
}

/// The register of each name, in the order of the names. Want of memory also where there would be more than 2^32 - 1
/// names.
pub fn table_of(alloc: Global, names: &[Ty]) -> Result<Seq<Reg>, NoMemory>
    ensures { IfOk result (λ table. table ≡ spec.table_of names.now) }
{
    if names.len() > u32::MAX as usize {
        return Err(NoMemory);
    }
    let mut table = Seq::new(alloc);
    let mut words: u32 = 0;
    let mut views: u32 = 0;
    for ty in names {
        if is_array(*ty) {
            table.push(Reg::View(views))?;
            views += 1;
        } else {
            table.push(Reg::Word(words))?;
            words += 1;
        }
    }
    Ok(table)
}

/// The kinds of the scalar names, in order.
pub fn word_kinds(alloc: Global, names: &[Ty]) -> Result<Seq<Kind>, NoMemory>
    ensures { IfOk result (λ kinds. kinds ≡ spec.word_kinds names.now) }
{
    let mut kinds = Seq::new(alloc);
    for ty in names {
        if !is_array(*ty) {
            kinds.push(ty.0)?;
        }
    }
    Ok(kinds)
}

/// The types of the arrays, in order.
pub fn view_types(alloc: Global, names: &[Ty]) -> Result<Seq<Ty>, NoMemory>
    ensures { IfOk result (λ types. types ≡ spec.view_types names.now) }
{
    let mut types = Seq::new(alloc);
    for ty in names {
        if is_array(*ty) {
            types.push(*ty)?;
        }
    }
    Ok(types)
}

/// The register of a name; that of a name that isn't there is free.
pub fn register(table: &[Reg], name: u32) -> Reg
    ensures { result ≡ spec.register table.now name }
{
    match table.get(name as usize) {
        Some(register) => *register,
        None => Reg::Word(0),
    }
}

/// The number of a name's register among those of its class.
pub fn number(table: &[Reg], name: u32) -> u32
    ensures { result ≡ spec.number table.now name }
{
    match register(table, name) {
        Reg::Word(r) => r,
        Reg::View(v) => v,
    }
}

/// A scalar operand, by registers.
pub fn oper_of(table: &[Reg], x: Oper) -> Oper
    ensures { result ≡ spec.oper_of table.now x }
{
    match x {
        Oper::Int(z) => Oper::Int(z),
        Oper::Truth(b) => Oper::Truth(b),
        Oper::Name(name) => Oper::Name(number(table, name)),
    }
}

/// Scalar operands, by registers.
pub fn opers_of(alloc: Global, table: &[Reg], xs: &[Oper]) -> Result<Seq<Oper>, NoMemory>
    ensures { IfOk result (λ opers. opers ≡ spec.opers_of table.now xs.now) }
{
    let mut opers = Seq::new(alloc);
    for x in xs {
        opers.push(oper_of(table, *x))?;
    }
    Ok(opers)
}

/// A part of a slice that may be left out.
fn part_of(table: &[Reg], part: Option<Oper>) -> Option<Oper>
    ensures { result ≡ option_map (spec.oper_of table.now) part }
{
    match part {
        None => None,
        Some(x) => Some(oper_of(table, x)),
    }
}

/// A subscript, by registers.
fn sub_of(table: &[Reg], sub: CoreSub) -> CoreSub
    ensures { result ≡ spec.sub_of table.now sub }
{
    match sub {
        CoreSub::At(x) => CoreSub::At(oper_of(table, x)),
        CoreSub::Cut(start, stop, step) => {
            CoreSub::Cut(
                part_of(table, start),
                part_of(table, stop),
                part_of(table, step),
            )
        }
    }
}

/// Subscripts, by registers.
pub fn subs_of(alloc: Global, table: &[Reg], subs: &[CoreSub]) -> Result<Seq<CoreSub>, NoMemory>
    ensures { IfOk result (λ list. list ≡ map (spec.sub_of table.now) subs.now) }
{
    let mut list = Seq::new(alloc);
    for sub in subs {
        list.push(sub_of(table, *sub))?;
    }
    Ok(list)
}

/// A returned value: a word, or the elements of a view register.
fn back_of(table: &[Reg], x: Oper) -> Back
    ensures { result ≡ spec.back_of table.now x }
{
    match x {
        Oper::Int(z) => Back::Word(Oper::Int(z)),
        Oper::Truth(b) => Back::Word(Oper::Truth(b)),
        Oper::Name(name) => match register(table, name) {
            Reg::Word(r) => Back::Word(Oper::Name(r)),
            Reg::View(v) => Back::View(v),
        },
    }
}

/// Returned values, by registers.
pub fn backs_of(alloc: Global, table: &[Reg], xs: &[Oper]) -> Result<Seq<Back>, NoMemory>
    ensures { IfOk result (λ backs. backs ≡ map (spec.back_of table.now) xs.now) }
{
    let mut backs = Seq::new(alloc);
    for x in xs {
        backs.push(back_of(table, *x))?;
    }
    Ok(backs)
}
