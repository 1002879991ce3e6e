//! Lists by number, and what the uses of an instance come to.
ghost use Rattle.std.specs.Prelude.{◌≡◌, ◌≤◌, ◌<◌, ◌++◌, ◌∷◌, [], ℕ, IfOk, OnOk, length, replicate, slice_set};
ghost use Rattle.std.specs.List.{flat_map, list_any};
ghost use Rattle.purity.specs.Marks.{row};
ghost use Rattle.purity.specs.Uses.{flow_into, given_as, is_fault, only_at, written};

use crate::uses::Use;
use krn_base::Seq;
use std::alloc::{AllocError, Global};

/// The list with a number; where it isn't there, no items.
pub fn row(rows: &[Seq<u32>], number: usize) -> &[u32]
    ensures { result.now ≡ row rows.now number }
{
    if number < rows.len() {
        rows[number].as_slice()
    } else {
        &[]
    }
}

/// Empty lists, this many.
fn empty_rows(alloc: Global, count: usize) -> Result<Vec<Seq<u32>>, AllocError>
    ensures { IfOk result (λ rows. rows.items ≡ replicate count []) }
{
    let mut rows = Vec::new(alloc);
    for _at in 0..count {
        rows.push(Seq::new(alloc))?;
    }
    Ok(rows)
}

/// Makes empty lists until there is one with this number.
#[tactic(auto, using(crate::proofs::RowLaws::row_grown))]
fn grow(alloc: Global, rows: &mut Vec<Seq<u32>>, number: usize) -> Result<(), AllocError>
    ensures there { OnOk result (number < length rows.new.items) }
    ensures longer { OnOk result (length rows.old.items ≤ length rows.new.items) }
    ensures same { OnOk result ((k : ℕ) → row rows.new.items k ≡ row rows.old.items k) }
{
    'more: while rows.len() <= number {
        rows.push(Seq::new(alloc))?;
    }
    Ok(())
}

/// Puts an item behind those of a list that is there.
fn push_at(rows: &mut Vec<Seq<u32>>, number: usize, item: u32) -> Result<(), AllocError>
    requires { number < length rows.old.items }
    ensures { OnOk result (rows.new.items ≡
        slice_set rows.old.items number (row rows.old.items number ++ item ∷ [])) }
{
    rows[number].push(item)
}

/// Puts an item behind those of the list with this number.
fn add(alloc: Global, rows: &mut Vec<Seq<u32>>, number: usize, item: u32) -> Result<(), AllocError>
    ensures longer { OnOk result (length rows.old.items ≤ length rows.new.items) }
    ensures rows { OnOk result ((k : ℕ) → row rows.new.items k ≡
        row rows.old.items k ++ only_at number k item) }
{
    grow(alloc, rows, number)?;
    push_at(rows, number, item)?;
    Ok(())
}

/// Puts what flows in one step behind the other flows.
fn add_flow(alloc: Global, rows: &mut Vec<Seq<u32>>, found: &Use) -> Result<(), AllocError>
    ensures longer { OnOk result (length rows.old.items ≤ length rows.new.items) }
    ensures rows { OnOk result ((k : ℕ) → row rows.new.items k ≡ row rows.old.items k ++ flow_into k found.now) }
{
    match found {
        Use::Flow { from, name } => add(alloc, rows, *name as usize, *from),
        Use::Write(_) => Ok(()),
        Use::Give { .. } => Ok(()),
        Use::Fault => Ok(()),
    }
}

/// For each name those that it takes its array from. There is a list for each parameter at least.
pub fn flows(alloc: Global, uses: &[Use], params: usize) -> Result<Vec<Seq<u32>>, AllocError>
    ensures count { IfOk result (λ rows. params ≤ length rows.items) }
    ensures rows { IfOk result (λ rows. (k : ℕ) → row rows.items k ≡ flat_map (flow_into k) uses.now) }
{
    let mut rows = empty_rows(alloc, params)?;
    for found in uses {
        add_flow(alloc, &mut rows, found)?;
    }
    Ok(rows)
}

/// Puts a returned name behind those that were returned as the same value.
fn add_given(alloc: Global, rows: &mut Vec<Seq<u32>>, found: &Use) -> Result<(), AllocError>
    ensures { OnOk result ((k : ℕ) → row rows.new.items k ≡ row rows.old.items k ++ given_as k found.now) }
{
    match found {
        Use::Give { value, name } => add(alloc, rows, *value, *name),
        Use::Write(_) => Ok(()),
        Use::Flow { .. } => Ok(()),
        Use::Fault => Ok(()),
    }
}

/// For each value the names that are returned as it.
pub fn given(alloc: Global, uses: &[Use]) -> Result<Vec<Seq<u32>>, AllocError>
    ensures { IfOk result (λ rows. (k : ℕ) → row rows.items k ≡ flat_map (given_as k) uses.now) }
{
    let mut rows = Vec::new(alloc);
    for found in uses {
        add_given(alloc, &mut rows, found)?;
    }
    Ok(rows)
}

/// Puts a written name behind others.
fn add_written(names: &mut Seq<u32>, found: &Use) -> Result<(), AllocError>
    ensures { OnOk result (names.new ≡ names.old ++ written found.now) }
{
    match found {
        Use::Write(name) => names.push(*name),
        _ => Ok(()),
    }
}

/// The names whose arrays are written.
pub fn writes(alloc: Global, uses: &[Use]) -> Result<Seq<u32>, AllocError>
    ensures { IfOk result (λ names. names ≡ flat_map written uses.now) }
{
    let mut names = Seq::new(alloc);
    for found in uses {
        add_written(&mut names, found)?;
    }
    Ok(names)
}

fn is_fault(found: &Use) -> bool
    ensures { result ≡ is_fault found.now }
{
    match found {
        Use::Fault => true,
        _ => false,
    }
}

/// Whether something may fault.
pub fn faults(uses: &[Use]) -> bool
    ensures { result ≡ list_any is_fault uses.now }
{
    uses.iter().any(|found| is_fault(found))
}
