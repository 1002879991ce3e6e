//! What is known of an instance's names, by a walk over its body in the order of the text.
ghost use Rattle.std.specs.Prelude.{◌≡◌, IfOk, None, OnOk, Some, replicate, true};
ghost use Rattle.eager_rules.specs.declared.program.Core.TheFolds.{fold-Core};
ghost use Rattle.const_fold.specs.Folded as spec;
ghost use Rattle.const_fold.specs.Tallies.{AreTallies};

use crate::literals::makes;
use crate::tallies::{Tally, may_fold, tallies};
use eager_rules::{Core, Instance, Oper, WordOp};
use krn_base::{NoMemory, Seq};
use std::alloc::{AllocError, Global};

/// A name is known to hold a literal from now on.
fn enter(to: u32, literal: Oper, table: &mut Vec<Option<Oper>>)
    ensures { table.new.items ≡ spec.enter true to (Some literal) table.old.items }
{
    if (to as usize) < table.len() {
        table[to as usize] = Some(literal);
    }
}

/// Learns from a statement on scalars.
fn learn_word(
    alloc: Global,
    f: &Instance,
    tallies: &[Tally],
    to: u32,
    op: WordOp,
    args: &[Oper],
    table: &mut Vec<Option<Oper>>,
) -> Result<(), NoMemory>
    requires { AreTallies f.now tallies.now }
    ensures { OnOk result (table.new.items ≡ spec.enter (spec.may_fold f.now to) to
        (spec.makes f.now.names table.old.items to op args.now) table.old.items) }
{
    if may_fold(f, tallies, to) {
        let literal = makes(alloc, f.names.as_slice(), table.as_slice(), to, op, args)?;
        if let Some(literal) = literal {
            enter(to, literal, table);
        }
    }
    Ok(())
}

/// Learns from a statement and those of its blocks.
#[cycle(learn)]
fn learn(
    alloc: Global,
    f: &Instance,
    tallies: &[Tally],
    core: &Core,
    table: &mut Vec<Option<Oper>>,
) -> Result<(), NoMemory>
    requires { AreTallies f.now tallies.now }
    ensures { OnOk result (table.new.items ≡
        fold-Core spec.Learning (spec.learn_step f.now) core.now table.old.items) }
{
    match core {
        Core::Word { to, op, args, .. } => {
            learn_word(alloc, f, tallies, *to, *op, args.as_slice(), table)
        }
        Core::If { yes, no, .. } => {
            learn_all(alloc, f, tallies, yes.as_slice(), table)?;
            learn_all(alloc, f, tallies, no.as_slice(), table)
        }
        Core::For { body, .. } => learn_all(alloc, f, tallies, body.as_slice(), table),
        _ => Ok(()),
    }
}

/// Learns from the statements of a block.
#[cycle(learn)]
fn learn_all(
    alloc: Global,
    f: &Instance,
    tallies: &[Tally],
    block: &[Core],
    table: &mut Vec<Option<Oper>>,
) -> Result<(), NoMemory>
    requires { AreTallies f.now tallies.now }
    ensures { OnOk result (table.new.items ≡ spec.learn f.now block.now table.old.items) }
{
    for core in block {
        learn(alloc, f, tallies, core, table)?;
    }
    Ok(())
}

/// Nothing known of so many names.
fn nothing(alloc: Global, count: usize) -> Result<Vec<Option<Oper>>, AllocError>
    ensures { IfOk result (λ table. table.items ≡ replicate count None) }
{
    Ok(vec![in alloc; None; count]?)
}

/// For each name of an instance the literal that it always holds, where that is known.
pub fn literals(alloc: Global, f: &Instance) -> Result<Seq<Option<Oper>>, NoMemory>
    ensures { IfOk result (λ table. table ≡ spec.literals_of f.now) }
{
    let tallies = tallies(alloc, f)?;
    let mut table = nothing(alloc, f.names.len())?;
    learn_all(alloc, f, tallies.as_slice(), f.body.as_slice(), &mut table)?;
    Ok(Seq::from_vec(table))
}
