//! How often the names of an instance are bound.
ghost use Rattle.std.specs.Prelude.{◌≡◌, ◌++◌, ◌&&◌, ◌∷◌, [], ℕ, IfOk, List, OnOk, Some, length, nat_le};
ghost use Rattle.std.specs.Prelude.{option_map, replicate, slice_get};
ghost use Rattle.eager_rules.specs.Statements.{binds, binds_of, binds_step};
ghost use Rattle.eager_rules.specs.declared.program.Core.{out-Core};
ghost use Rattle.eager_rules.specs.declared.program.Core.TheFolds.{fold-Core};
ghost use Rattle.const_fold.specs.Folded.{reduced, reduced_names, reduced_step, times};
ghost use Rattle.const_fold.specs.Tallies as spec;
ghost use Rattle.const_fold.specs.declared.tallies.Tally.TheVariants.{Never};

use eager_rules::{Core, Instance};
use krn_base::{Join, NoMemory, Seq};
use std::alloc::{AllocError, Global};

/// How often a name is bound, as far as that matters.
#[derive(Clone, Copy, Debug, PartialEq, Eq, Drop)]
pub enum Tally {
    Never,
    Once,
    More,
}

/// Puts names behind others.
fn add_names(names: &[u32], list: &mut Seq<u32>) -> Result<(), NoMemory>
    ensures { OnOk result (list.new ≡ list.old ++ names.now) }
{
    for name in names {
        list.push(*name)?;
    }
    Ok(())
}

/// The names that a statement binds by itself, its blocks apart.
fn add_bound_here(core: &Core, list: &mut Seq<u32>) -> Result<(), NoMemory>
    ensures { OnOk result (list.new ≡ list.old ++ binds_of (out-Core core.now)) }
{
    match core {
        Core::Word { to, .. } => list.push(*to)?,
        Core::Extent { to, .. } => list.push(*to)?,
        Core::Get { to, .. } => list.push(*to)?,
        Core::Pick { to, .. } => list.push(*to)?,
        Core::Flip { to, .. } => list.push(*to)?,
        Core::Alias { to, .. } => list.push(*to)?,
        Core::Fresh { to, .. } => list.push(*to)?,
        Core::Map { to, .. } => list.push(*to)?,
        Core::Reduce { to, .. } => list.push(*to)?,
        Core::Call { to, .. } => add_names(to.as_slice(), list)?,
        Core::For { var, .. } => list.push(*var)?,
        _ => {}
    }
    Ok(())
}

/// The names that a statement and those of its blocks bind.
#[cycle(bound)]
fn add_bound(core: &Core, list: &mut Seq<u32>) -> Result<(), NoMemory>
    ensures { OnOk result (list.new ≡ list.old ++ fold-Core (List ℕ) binds_step core.now) }
{
    match core {
        Core::If { yes, no, .. } => {
            add_all_bound(yes.as_slice(), list)?;
            add_all_bound(no.as_slice(), list)
        }
        Core::For { var, body, .. } => {
            list.push(*var)?;
            add_all_bound(body.as_slice(), list)
        }
        _ => add_bound_here(core, list),
    }
}

/// The names that the statements of a block bind.
#[cycle(bound)]
fn add_all_bound(block: &[Core], list: &mut Seq<u32>) -> Result<(), NoMemory>
    ensures { OnOk result (list.new ≡ list.old ++ binds block.now) }
{
    for core in block {
        add_bound(core, list)?;
    }
    Ok(())
}

/// Puts the names of reductions behind others.
fn add_pairs(pairs: &[(Join, u32)], list: &mut Seq<u32>) -> Result<(), NoMemory>
    ensures { OnOk result (list.new ≡ list.old ++ reduced_names (Some pairs.now)) }
{
    for pair in pairs {
        list.push(pair.1)?;
    }
    Ok(())
}

/// The names in a directive's reductions.
fn add_reduced_names(pairs: &Option<Seq<(Join, u32)>>, list: &mut Seq<u32>) -> Result<(), NoMemory>
    ensures { OnOk result (list.new ≡ list.old ++ reduced_names pairs.now) }
{
    match pairs {
        None => Ok(()),
        Some(pairs) => add_pairs(pairs.as_slice(), list),
    }
}

/// The names in the reductions of a statement's loops.
#[cycle(reduced)]
fn add_reduced(core: &Core, list: &mut Seq<u32>) -> Result<(), NoMemory>
    ensures { OnOk result (list.new ≡ list.old ++ fold-Core (List ℕ) reduced_step core.now) }
{
    match core {
        Core::If { yes, no, .. } => {
            add_all_reduced(yes.as_slice(), list)?;
            add_all_reduced(no.as_slice(), list)
        }
        Core::For { omp, body, .. } => {
            add_reduced_names(omp, list)?;
            add_all_reduced(body.as_slice(), list)
        }
        _ => Ok(()),
    }
}

/// The names in the reductions of a block's loops.
#[cycle(reduced)]
fn add_all_reduced(block: &[Core], list: &mut Seq<u32>) -> Result<(), NoMemory>
    ensures { OnOk result (list.new ≡ list.old ++ reduced block.now) }
{
    for core in block {
        add_reduced(core, list)?;
    }
    Ok(())
}

/// The names that the statements of a body bind, each as often as it is bound.
pub fn bound_names(alloc: Global, body: &[Core]) -> Result<Seq<u32>, NoMemory>
    ensures { IfOk result (λ names. names ≡ binds body.now) }
{
    let mut list = Seq::new(alloc);
    add_all_bound(body, &mut list)?;
    Ok(list)
}

/// The names in the reductions of a body's loops.
fn names_in_reductions(alloc: Global, body: &[Core]) -> Result<Seq<u32>, NoMemory>
    ensures { IfOk result (λ names. names ≡ reduced body.now) }
{
    let mut list = Seq::new(alloc);
    add_all_reduced(body, &mut list)?;
    Ok(list)
}

/// The tally with one time more.
fn one_more(tally: Tally) -> Tally
    ensures { result ≡ spec.one_more tally }
{
    match tally {
        Tally::Never => Tally::Once,
        Tally::Once | Tally::More => Tally::More,
    }
}

/// Counts a name once, where the table has it.
fn count(name: u32, table: &mut Vec<Tally>)
    ensures { (k : ℕ) → slice_get table.new.items k ≡
        option_map (spec.after (times k (name ∷ []))) (slice_get table.old.items k) }
{
    let at = name as usize;
    if at < table.len() {
        table[at] = one_more(table[at]);
    }
}

/// Counts names as often as they stand in a list.
fn count_all(names: &[u32], table: &mut Vec<Tally>)
    ensures { (k : ℕ) → slice_get table.new.items k ≡
        option_map (spec.after (times k names.now)) (slice_get table.old.items k) }
{
    for name in names {
        count(*name, table);
    }
}

/// Names that were never bound.
fn nothing(alloc: Global, count: usize) -> Result<Vec<Tally>, AllocError>
    ensures { IfOk result (λ table. table.items ≡ replicate count Never) }
{
    Ok(vec![in alloc; Tally::Never; count]?)
}

/// How often each name of an instance is bound; a name in a loop's reductions counts as bound more than once.
pub fn tallies(alloc: Global, f: &Instance) -> Result<Seq<Tally>, NoMemory>
    ensures { IfOk result (spec.AreTallies f.now) }
{
    let bound = bound_names(alloc, f.body.as_slice())?;
    let reduced = names_in_reductions(alloc, f.body.as_slice())?;
    let mut table = nothing(alloc, f.names.len())?;
    count_all(bound.as_slice(), &mut table);
    // Twice, so that such a name is never one that is bound once.
    count_all(reduced.as_slice(), &mut table);
    count_all(reduced.as_slice(), &mut table);
    Ok(Seq::from_vec(table))
}

fn is_once(tallies: &[Tally], name: u32) -> bool
    ensures { result ≡ spec.is_once (slice_get tallies.now name) }
{
    match tallies.get(name as usize) {
        Some(Tally::Once) => true,
        _ => false,
    }
}

/// Whether a name is no parameter and is bound once.
pub fn may_fold(f: &Instance, tallies: &[Tally], name: u32) -> bool
    ensures { result ≡ (nat_le (length f.now.params) name && spec.is_once (slice_get tallies.now name)) }
{
    f.params.len() <= name as usize && is_once(tallies, name)
}
