// The test that no path of a program reads a name that it leaves unbound.
//
// Each statement is met once, with the names that each path to it has bound. A block that may be skipped takes back at
// its end what it bound, so it takes time in its own size, and not in the number of names.
ghost use Rattle.std.specs.Prelude.{◌≡◌, ◌∷◌, [], ◌++◌, ◌&&◌, false, replicate, slice_get, slice_set, take, true};
ghost use Rattle.std.specs.Prelude.{IfOk, OnOk, length, nat_lt};
ghost use Rattle.std.specs.List.{filter, list_all};
ghost use Rattle.eager_rules.specs.Assigned.{beside, bindings, comes_to, outside, seen, set_all, walk_of};
ghost use Rattle.eager_rules.specs.Sound.{at_start, both, bound_in, is_assigned, names_fit, operand_bound, put_all};
ghost use Rattle.eager_rules.specs.Sound.{stay, tested, walk};

use crate::program::{Core, Instance, Oper, Program};
use crate::statement::{with_array, with_subscripts, with_value};
use krn_base::{NoMemory, Seq};
use std::alloc::Global;
use std::mem;

#[cfg(test)]
mod tests;

/// The names that are bound wherever a path comes.
#[derive(Drop)]
pub struct Names {
    /// Whether each name is bound.
    pub marks: Seq<bool>,
    /// The names that were bound since the block began.
    pub fresh: Seq<u32>,
    /// Whether no path comes here, so that every name counts as bound.
    pub ended: bool,
}

/// What a block puts aside until its end: the names that were bound in the block around it, and whether no path comes
/// to it.
#[derive(Drop)]
pub struct Outer {
    pub fresh: Seq<u32>,
    pub ended: bool,
}

/// What the first part of an `If` comes to.
#[derive(Drop)]
pub enum Part {
    /// It reads an unbound name.
    Unbound,
    /// No path leaves it, so that the second part may bind in the block around both.
    Ended,
    /// It binds these names, beside those that were bound before.
    Binds(Seq<u32>),
}

/// Whether a name is bound.
fn is_bound(names: &Names, name: u32) -> bool
    ensures { result ≡ bound_in (bindings names.now) name }
{
    match names.marks.as_slice().get(name as usize) {
        None => false,
        Some(mark) => names.ended || *mark,
    }
}

fn is_operand_bound(names: &Names, oper: &Oper) -> bool
    ensures { result ≡ operand_bound (bindings names.now) oper.now }
{
    match oper {
        Oper::Int(_) => true,
        Oper::Truth(_) => true,
        Oper::Name(name) => is_bound(names, *name),
    }
}

fn are_bound(names: &Names, reads: &[Oper]) -> bool
    ensures { result ≡ list_all (operand_bound (bindings names.now)) reads.now }
{
    reads.iter().all(|oper| is_operand_bound(names, oper))
}

fn are_below(to: &[u32], count: usize) -> bool
    ensures { result ≡ list_all (λ name. nat_lt name count) to.now }
{
    to.iter().all(|name| (*name as usize) < count)
}

/// Whether each number is that of a name.
fn are_names(names: &Names, to: &[u32]) -> bool
    ensures { result ≡ names_fit (bindings names.now) to.now }
{
    are_below(to, names.marks.len())
}

/// Whether there is such a name, and it isn't marked.
fn is_unmarked(marks: &[bool], name: u32) -> bool
    ensures there { result ≡ true → slice_get marks.now name ≡ Some false }
    ensures otherwise { result ≡ false → slice_set marks.now name true ≡ marks.now }
{
    match marks.get(name as usize) {
        None => false,
        Some(mark) => !*mark,
    }
}

/// Binds a name.
fn bind(name: u32, names: &mut Names) -> Result<(), NoMemory>
    ensures marks { OnOk result (names.new.marks ≡ slice_set names.old.marks name true) }
    ensures outside { OnOk result (outside names.new ≡ outside names.old) }
    ensures ended { OnOk result (names.new.ended ≡ names.old.ended) }
{
    if is_unmarked(names.marks.as_slice(), name) {
        names.marks.set(name as usize, true);
        names.fresh.push(name)?;
    }
    Ok(())
}

/// Binds several names.
fn bind_all(to: &[u32], names: &mut Names) -> Result<(), NoMemory>
    ensures marks { OnOk result (names.new.marks ≡ put_all to.now names.old.marks) }
    ensures outside { OnOk result (outside names.new ≡ outside names.old) }
    ensures ended { OnOk result (names.new.ended ≡ names.old.ended) }
{
    for name in to {
        bind(*name, names)?;
    }
    Ok(())
}

/// Those of some names that are bound.
fn bound_of(alloc: Global, among: &[u32], names: &Names) -> Result<Seq<u32>, NoMemory>
    ensures { IfOk result (λ kept. kept ≡ filter (bound_in (bindings names.now)) among.now) }
{
    let mut kept = Seq::new(alloc);
    for name in among {
        if is_bound(names, *name) {
            kept.push(*name)?;
        }
    }
    Ok(kept)
}

/// Begins a block, and gives what [`end_block`] needs.
fn begin_block(alloc: Global, names: &mut Names) -> Outer
    ensures outer { result ≡ record { fresh = names.old.fresh; ended = names.old.ended } }
    ensures names { names.new ≡ record { marks = names.old.marks; fresh = []; ended = names.old.ended } }
{
    Outer {
        fresh: mem::replace(&mut names.fresh, Seq::new(alloc)),
        ended: names.ended,
    }
}

fn unmark(name: u32, marks: &mut Seq<bool>)
    ensures { marks.new ≡ slice_set marks.old name false }
{
    let at = name as usize;
    if at < marks.len() {
        marks.set(at, false);
    }
}

fn unmark_all(fresh: &[u32], marks: &mut Seq<bool>)
    ensures { marks.new ≡ set_all fresh.now false marks.old }
{
    for name in fresh {
        unmark(*name, marks);
    }
}

/// Ends a block, and takes back what was bound in it.
fn end_block(outer: Outer, names: &mut Names)
    ensures { names.new ≡ record { marks = outside names.old; fresh = outer.fresh; ended = outer.ended } }
{
    let fresh = mem::replace(&mut names.fresh, outer.fresh);
    unmark_all(fresh.as_slice(), &mut names.marks);
    names.ended = outer.ended;
}

/// A statement without blocks, by what it reads and binds: whether it reads bound names alone.
fn step(reads: &[Oper], to: &[u32], names: &mut Names) -> Result<bool, NoMemory>
    ensures { IfOk result (λ b. seen b names.new ≡ beside (outside names.old)
        (tested (list_all (operand_bound (bindings names.old)) reads.now && names_fit (bindings names.old) to.now)
        (Some (put_all to.now (bindings names.old))))) }
{
    if !are_bound(names, reads) || !are_names(names, to) {
        return Ok(false);
    }
    bind_all(to, names)?;
    Ok(true)
}

/// The same of a return, behind which no path comes.
fn returned(values: &[Oper], names: &mut Names) -> bool
    ensures { seen result names.new ≡ beside (outside names.old)
        (tested (list_all (operand_bound (bindings names.old)) values.now)
        (Some (replicate (length (bindings names.old)) true))) }
{
    if !are_bound(names, values) {
        return false;
    }
    names.ended = true;
    true
}

/// The same of statements in a row.
#[cycle(assigned)]
fn block(body: &[Core], alloc: Global, names: &mut Names) -> Result<bool, NoMemory>
    ensures { IfOk result (λ b. seen b names.new ≡ beside (outside names.old) (walk body.now (bindings names.old))) }
{
    for core in body {
        if !statement(core, alloc, names)? {
            return Ok(false);
        }
    }
    Ok(true)
}

/// The first part of an `If`, behind which the names are what they were.
#[cycle(assigned)]
fn first_part(body: &[Core], alloc: Global, names: &mut Names) -> Result<Part, NoMemory>
    ensures { IfOk result (λ part. comes_to part names.new ≡ beside names.old (walk body.now (bindings names.old))) }
{
    let outer = begin_block(alloc, names);
    if !block(body, alloc, names)? {
        return Ok(Part::Unbound);
    }
    let ended = names.ended;
    let bound = bound_of(alloc, names.fresh.as_slice(), names)?;
    end_block(outer, names);
    Ok(if ended {
        Part::Ended
    } else {
        Part::Binds(bound)
    })
}

/// The same of the second part of an `If`, by the names that the first one binds. Behind it those are bound that both
/// parts bind.
#[cycle(assigned)]
fn second_part(
    body: &[Core],
    first: &[u32],
    alloc: Global,
    names: &mut Names,
) -> Result<bool, NoMemory>
    ensures { IfOk result (λ b. seen b names.new ≡ beside (outside names.old)
        (both (Some (put_all first.now names.old.marks)) (walk body.now (bindings names.old)))) }
{
    let outer = begin_block(alloc, names);
    if !block(body, alloc, names)? {
        return Ok(false);
    }
    let common = bound_of(alloc, first, names)?;
    end_block(outer, names);
    names.ended = false;
    bind_all(common.as_slice(), names)?;
    Ok(true)
}

/// The same of a loop, which may have no turn: behind it the names are what they were.
#[cycle(assigned)]
fn turns(var: u32, body: &[Core], alloc: Global, names: &mut Names) -> Result<bool, NoMemory>
    ensures { IfOk result (λ b. seen b names.new ≡ beside (outside names.old)
        (stay (bindings names.old) (walk body.now (slice_set (bindings names.old) var true)))) }
{
    let outer = begin_block(alloc, names);
    bind(var, names)?;
    if !block(body, alloc, names)? {
        return Ok(false);
    }
    end_block(outer, names);
    Ok(true)
}

/// The same of one statement.
#[cycle(assigned)]
fn statement(core: &Core, alloc: Global, names: &mut Names) -> Result<bool, NoMemory>
    ensures { IfOk result (λ b. seen b names.new ≡ beside (outside names.old)
        (walk_of core.now (bindings names.old))) }
{
    match core {
        Core::Word { to, args, .. } => step(args.as_slice(), &[*to], names),
        Core::Extent { to, of, .. } => step(&[Oper::Name(*of)], &[*to], names),
        Core::Get { to, of, index, .. } => {
            let reads = with_array(alloc, *of, index.as_slice())?;
            step(reads.as_slice(), &[*to], names)
        }
        Core::Put {
            of,
            index,
            value,
            ..
        } => {
            let reads = with_value(alloc, *of, *value, index.as_slice())?;
            step(reads.as_slice(), &[], names)
        }
        Core::Pick { to, of, subs, .. } => {
            let reads = with_subscripts(alloc, *of, subs.as_slice())?;
            step(reads.as_slice(), &[*to], names)
        }
        Core::Flip { to, of } => step(&[Oper::Name(*of)], &[*to], names),
        Core::Alias { to, of } => step(&[Oper::Name(*of)], &[*to], names),
        Core::Fresh { to, dims, .. } => step(dims.as_slice(), &[*to], names),
        Core::Map { to, args, .. } => step(args.as_slice(), &[*to], names),
        Core::Reduce { to, of, .. } => step(&[Oper::Name(*of)], &[*to], names),
        Core::Store { of, value, .. } => step(&[Oper::Name(*of), *value], &[], names),
        Core::Call { to, args, .. } => step(args.as_slice(), to.as_slice(), names),
        Core::If { cond, yes, no } => {
            if !is_operand_bound(names, cond) {
                return Ok(false);
            }
            match first_part(yes.as_slice(), alloc, names)? {
                Part::Unbound => Ok(false),
                Part::Ended => block(no.as_slice(), alloc, names),
                Part::Binds(first) => second_part(no.as_slice(), first.as_slice(), alloc, names),
            }
        }
        Core::For {
            var,
            lo,
            hi,
            step,
            body,
            ..
        } => {
            if !are_bound(names, &[*lo, *hi, *step]) || !are_names(names, &[*var]) {
                return Ok(false);
            }
            turns(*var, body.as_slice(), alloc, names)
        }
        Core::Return { values } => Ok(returned(values.as_slice(), names)),
    }
}

/// So many tests, of which the first hold.
#[tactic(auto, using(crate::proofs::BoundNames::at_start_more))]
fn first_marked(alloc: Global, params: usize, count: usize) -> Result<Seq<bool>, NoMemory>
    ensures { IfOk result (λ marks. marks ≡ take count (replicate params true ++ replicate count false)) }
{
    let mut marks = Seq::from_vec(Vec::with_capacity(alloc, count)?);
    for name in 0..count {
        marks.push(name < params)?;
    }
    Ok(marks)
}

/// Whether no path of an instance reads a name that it leaves unbound.
fn is_assigned(alloc: Global, f: &Instance) -> Result<bool, NoMemory>
    ensures { IfOk result (λ b. b ≡ is_assigned f.now) }
{
    let mut names = Names {
        marks: first_marked(alloc, f.params.len(), f.names.len())?,
        fresh: Seq::new(alloc),
        ended: false,
    };
    block(f.body.as_slice(), alloc, &mut names)
}

/// Whether no path of a program's instances reads a name that it leaves unbound, whatever its conditions are, and each
/// statement binds names of its instance. An `If` has a path through each of its parts; a loop may have no turn; a
/// return ends a path, and what stands behind it reads bound names alone. A program that is well typed besides is
/// sound, and so never stuck.
///
/// Takes time linear in the statements, their operands and the names of the instances, and for each `If` whose second
/// part always returns once more in the names that its first part binds.
pub fn all_assigned(alloc: Global, program: &Program) -> Result<bool, NoMemory>
    ensures { IfOk result (λ b. b ≡ list_all is_assigned program.now.instances) }
{
    for f in program.instances.as_slice() {
        if !is_assigned(alloc, f)? {
            return Ok(false);
        }
    }
    Ok(true)
}
