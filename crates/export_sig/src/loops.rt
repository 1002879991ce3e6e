//! The loops of a module, by the places of their `for`.

ghost use Rattle.std.specs.Prelude.{◌≡◌, ◌++◌, IfOk, OnOk};
ghost use Rattle.export_sig.specs.Loops as spec;
ghost use Rattle.export_sig.specs.Listing.{HoldsPlaces, is_among, is_place};

use indexmap::IndexSet;
use krn_base::{Loc, Seq};
use py_parse::{Expr, Function, Stmt};
use std::alloc::{AllocError, Global};

/// Places by line and column.
pub type Places = IndexSet<(u32, u32)>;

#[cycle(loops)]
fn push_arms(arms: &[(Loc, Expr, Seq<Stmt>)], found: &mut Vec<Loc>) -> Result<(), AllocError>
    ensures { OnOk result (found.new.items ≡ found.old.items ++ spec.arm_loops arms.now) }
{
    for arm in arms {
        push_block(arm.2.as_slice(), found)?;
    }
    Ok(())
}

#[cycle(loops)]
fn push_statement(statement: &Stmt, found: &mut Vec<Loc>) -> Result<(), AllocError>
    ensures { OnOk result (found.new.items ≡ found.old.items ++ spec.loops_of statement.now) }
{
    match statement {
        Stmt::For(at, _, _, body) => {
            found.push(*at)?;
            push_block(body.as_slice(), found)
        }
        Stmt::If(arms, other) => {
            push_arms(arms.as_slice(), found)?;
            push_block(other.as_slice(), found)
        }
        Stmt::Doc => Ok(()),
        Stmt::Pass => Ok(()),
        Stmt::Return(..) => Ok(()),
        Stmt::Alone(_) => Ok(()),
        Stmt::Assign(..) => Ok(()),
        Stmt::Augment(..) => Ok(()),
    }
}

#[cycle(loops)]
fn push_block(block: &[Stmt], found: &mut Vec<Loc>) -> Result<(), AllocError>
    ensures { OnOk result (found.new.items ≡ found.old.items ++ spec.block_loops block.now) }
{
    for statement in block {
        push_statement(statement, found)?;
    }
    Ok(())
}

fn all_loops(alloc: Global, functions: &[Function]) -> Result<Vec<Loc>, AllocError>
    ensures { IfOk result (λ found. found.items ≡ spec.all_loops functions.now) }
{
    let mut found = Vec::new(alloc);
    for function in functions {
        push_block(function.body.as_slice(), &mut found)?;
    }
    Ok(found)
}

fn places(alloc: Global, list: &[Loc]) -> Result<Places, AllocError>
    ensures { IfOk result (λ set. HoldsPlaces list.now set.keys) }
{
    let mut set = IndexSet::new(alloc);
    for place in list {
        set.insert((place.line, place.col))?;
    }
    Ok(set)
}

/// The places of all loops, in one pass.
pub fn loop_places(alloc: Global, functions: &[Function]) -> Result<Places, AllocError>
    ensures { IfOk result (λ set. HoldsPlaces (spec.all_loops functions.now) set.keys) }
{
    let list = all_loops(alloc, functions)?;
    places(alloc, list.as_slice())
}

/// Whether a place is among these.
pub fn is_among(places: &Places, at: Loc) -> bool
    ensures { result ≡ is_among places.now.keys at }
{
    places.contains(&(at.line, at.col))
}

/// Whether two places are one.
pub fn is_place(a: Loc, b: Loc) -> bool
    ensures { result ≡ is_place a b }
{
    a == b
}
