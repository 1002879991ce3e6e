//! Where the names of an instance stand in the kernel that its body is put into.
ghost use Rattle.std.specs.Prelude.{◌≡◌, ◌+◌, IfOk, map, option_map};
ghost use Rattle.inline.specs.Places as spec;

use eager_rules::{CoreSub, Oper};
use krn_base::{Join, NoMemory, Seq};
use std::alloc::Global;

/// The own name that a body returns, and the name that the caller gives the value.
#[derive(Clone, Copy, Debug, PartialEq, Eq, Drop)]
pub struct Own {
    pub name: u32,
    pub target: u32,
}

/// Names stand one after another from `first` on, but for the returned own name.
#[derive(Clone, Copy, Debug, PartialEq, Eq, Drop)]
pub struct Place {
    pub first: u32,
    pub own: Option<Own>,
}

/// The place of a body's names, the first of which is `first`, and whose values go to these names.
pub fn place_for(own: Option<u32>, to: &[u32], first: u32) -> Place
    ensures { result ≡ spec.place_for own to.now first }
{
    match (own, to) {
        (Some(name), [target, ..]) => Place {
            first,
            own: Some(Own {
                name,
                target: *target,
            }),
        },
        _ => Place { first, own: None },
    }
}

fn behind(first: u32, name: u32) -> Result<u32, NoMemory>
    ensures { IfOk result (λ n. n ≡ first + name) }
{
    match first.checked_add(name) {
        Some(n) => Ok(n),
        None => Err(NoMemory),
    }
}

/// Where a name stands. Want of memory where that is past the last number of a name.
pub fn placed(place: Place, name: u32) -> Result<u32, NoMemory>
    ensures { IfOk result (λ n. n ≡ spec.placed place name) }
{
    match place.own {
        None => behind(place.first, name),
        Some(own) => {
            if name == own.name {
                Ok(own.target)
            } else {
                behind(place.first, name)
            }
        }
    }
}

/// Where names stand, one after another.
pub fn placed_all(alloc: Global, place: Place, names: &[u32]) -> Result<Seq<u32>, NoMemory>
    ensures { IfOk result (λ list. list ≡ map (spec.placed place) names.now) }
{
    let mut list = Seq::new(alloc);
    for name in names {
        list.push(placed(place, *name)?)?;
    }
    Ok(list)
}

/// An operand by the places of names.
pub fn renamed(place: Place, x: Oper) -> Result<Oper, NoMemory>
    ensures { IfOk result (λ y. y ≡ spec.renamed place x) }
{
    match x {
        Oper::Int(z) => Ok(Oper::Int(z)),
        Oper::Truth(b) => Ok(Oper::Truth(b)),
        Oper::Name(name) => Ok(Oper::Name(placed(place, name)?)),
    }
}

/// Operands by the places of names.
pub fn renamed_all(alloc: Global, place: Place, xs: &[Oper]) -> Result<Seq<Oper>, NoMemory>
    ensures { IfOk result (λ list. list ≡ map (spec.renamed place) xs.now) }
{
    let mut list = Seq::new(alloc);
    for x in xs {
        list.push(renamed(place, *x)?)?;
    }
    Ok(list)
}

fn renamed_part(place: Place, part: Option<Oper>) -> Result<Option<Oper>, NoMemory>
    ensures { IfOk result (λ y. y ≡ option_map (spec.renamed place) part) }
{
    match part {
        None => Ok(None),
        Some(x) => Ok(Some(renamed(place, x)?)),
    }
}

fn renamed_sub(place: Place, sub: CoreSub) -> Result<CoreSub, NoMemory>
    ensures { IfOk result (λ s. s ≡ spec.renamed_sub place sub) }
{
    match sub {
        CoreSub::At(x) => Ok(CoreSub::At(renamed(place, x)?)),
        CoreSub::Cut(start, stop, step) => {
            let start = renamed_part(place, start)?;
            let stop = renamed_part(place, stop)?;
            let step = renamed_part(place, step)?;
            Ok(CoreSub::Cut(start, stop, step))
        }
    }
}

/// Subscripts by the places of names.
pub fn renamed_subs(alloc: Global, place: Place, subs: &[CoreSub]) -> Result<Seq<CoreSub>, NoMemory>
    ensures { IfOk result (λ list. list ≡ map (spec.renamed_sub place) subs.now) }
{
    let mut list = Seq::new(alloc);
    for sub in subs {
        list.push(renamed_sub(place, *sub)?)?;
    }
    Ok(list)
}

fn renamed_pair_list(
    alloc: Global,
    place: Place,
    pairs: &[(Join, u32)],
) -> Result<Seq<(Join, u32)>, NoMemory>
    ensures { IfOk result (λ list. list ≡ map (spec.renamed_pair place) pairs.now) }
{
    let mut list = Seq::new(alloc);
    for pair in pairs {
        list.push((pair.0, placed(place, pair.1)?))?;
    }
    Ok(list)
}

/// The reductions of a loop's directive.
pub fn renamed_pairs(
    alloc: Global,
    place: Place,
    pairs: &Option<Seq<(Join, u32)>>,
) -> Result<Option<Seq<(Join, u32)>>, NoMemory>
    ensures { IfOk result (λ list. list ≡ spec.renamed_pairs place pairs.now) }
{
    match pairs {
        None => Ok(None),
        Some(pairs) => Ok(Some(renamed_pair_list(alloc, place, pairs.as_slice())?)),
    }
}
