// The reductions of loops by the numbers of their names.
ghost use Rattle.std.specs.Prelude.{◌≡◌, [], IfOk, map};
ghost use Rattle.array_types.specs.Settle as spec;
ghost use Rattle.array_types.specs.Walk.{Walks};

use crate::state::State;
use crate::walk::{need, number_for, place_of};
use eager_rules::Core;
use krn_base::{Join, NoMemory, Seq, Stop, Text};
use std::alloc::Global;

fn number_of_text(text: &[u8], i: u32, state: &State) -> Result<u32, Stop>
    ensures { Walks (spec.number_of_text text.now i state.now) result state.now }
{
    let found = number_for(text, &state.known);
    need(found, place_of(i, state.places.as_slice()), state)
}

fn numbers_for(alloc: Global, entries: &[(Text, u32)], state: &State) -> Result<Seq<u32>, Stop>
    ensures { Walks (spec.numbers_from [] entries.now state.now) result state.now }
{
    let mut found = Seq::new(alloc);
    for entry in entries {
        let n = number_of_text(entry.0.as_slice(), entry.1, state)?;
        found.push(n)?;
    }
    Ok(found)
}

/// The numbers of the names that waited, in order.
pub fn numbers(alloc: Global, state: &State) -> Result<Seq<u32>, Stop>
    ensures { Walks (spec.numbers_from [] state.now.awaited state.now) result state.now }
{
    numbers_for(alloc, state.awaited.entries(), state)
}

fn settled_pair(pair: (Join, u32), numbers: &[u32]) -> (Join, u32)
    ensures { result ≡ spec.settled_pair numbers.now pair }
{
    match numbers.get(pair.1 as usize) {
        Some(n) => (pair.0, *n),
        None => (pair.0, 0),
    }
}

fn settled_list(
    alloc: Global,
    pairs: &[(Join, u32)],
    numbers: &[u32],
) -> Result<Seq<(Join, u32)>, NoMemory>
    ensures { IfOk result (λ list. list ≡ map (spec.settled_pair numbers.now) pairs.now) }
{
    let mut list = Seq::new(alloc);
    for pair in pairs {
        list.push(settled_pair(*pair, numbers))?;
    }
    Ok(list)
}

fn settled_pairs(
    alloc: Global,
    pairs: Option<Seq<(Join, u32)>>,
    numbers: &[u32],
) -> Result<Option<Seq<(Join, u32)>>, NoMemory>
    ensures { IfOk result (λ list. list ≡ spec.settled_pairs numbers.now pairs) }
{
    match pairs {
        None => Ok(None),
        Some(pairs) => Ok(Some(settled_list(alloc, pairs.as_slice(), numbers)?)),
    }
}

/// A statement with the numbers of its reductions.
#[cycle(settle)]
#[tactic(auto, unfolding(crate::specs::Settle::settled))]
fn settled(alloc: Global, core: Core, numbers: &[u32]) -> Result<Core, NoMemory>
    ensures { IfOk result (λ c. c ≡ spec.settled numbers.now core) }
{
    match core {
        Core::If { cond, yes, no } => Ok(Core::If {
            cond,
            yes: settled_block(alloc, yes, numbers)?,
            no: settled_block(alloc, no, numbers)?,
        }),
        Core::For {
            var,
            lo,
            hi,
            step,
            at,
            omp,
            body,
        } => Ok(Core::For {
            var,
            lo,
            hi,
            step,
            at,
            omp: settled_pairs(alloc, omp, numbers)?,
            body: settled_block(alloc, body, numbers)?,
        }),
        other => Ok(other),
    }
}

/// A block with the numbers of its reductions, in one pass.
#[cycle(settle)]
pub fn settled_block(
    alloc: Global,
    block: Seq<Core>,
    numbers: &[u32],
) -> Result<Seq<Core>, NoMemory>
    ensures { IfOk result (λ list. list ≡ spec.settled_block numbers.now block) }
{
    let mut list = Seq::new(alloc);
    for core in block.into_vec() {
        list.push(settled(alloc, core, numbers)?)?;
    }
    Ok(list)
}
