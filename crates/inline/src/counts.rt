//! How heavy and how deep instances are with the bodies of those that they call, counted without a copy.
ghost use Rattle.std.specs.Prelude.{◌≡◌, ◌+◌, min, IfOk, ℕ, length, replicate, true};
ghost use Rattle.eager_rules.specs.declared.program.Core.TheFolds.{fold-Core};
ghost use Rattle.inline.specs.Counts.{block_depth, called_step, called_weight, depth_step};
ghost use Rattle.inline.specs.Tables.{held, in_table, round, rounds};

use eager_rules::{Core, Instance};
use krn_base::{NoMemory, Seq};
use std::alloc::Global;

/// What is counted of an instance: its tokens, or how many blocks stand within one another.
#[derive(Clone, Copy, Debug, PartialEq, Eq)]
pub enum Measure {
    Weight,
    Depth,
}

/// Weights are held at one past what all kernels together may weigh.
const HEAVY: u32 = 20_001;

/// Depths are held at one past what each kernel may have.
const DEEP: u32 = 129;

/// What a table has for the instance with this number; 0 where there is none.
pub fn in_table(table: &[u32], number: u32) -> u32
    ensures { result ≡ in_table table.now number }
{
    match table.get(number as usize) {
        Some(count) => *count,
        None => 0,
    }
}

fn heavy_sum(left: u32, right: u32) -> u32
    ensures { result ≡ min 20001 (left + right) }
{
    left.saturating_add(right).min(HEAVY)
}

/// The weights of the instances that a statement calls.
#[cycle(weight)]
fn called_by(core: &Core, table: &[u32]) -> u32
    ensures { result ≡ min 20001 (fold-Core ℕ (called_step (in_table table.now)) core.now) }
{
    match core {
        Core::Call { instance, .. } => in_table(table, *instance).min(HEAVY),
        Core::If { yes, no, .. } => {
            heavy_sum(
                called_in(yes.as_slice(), table),
                called_in(no.as_slice(), table),
            )
        }
        Core::For { body, .. } => called_in(body.as_slice(), table),
        _ => 0,
    }
}

/// The weights of the instances that the statements of a block call.
#[cycle(weight)]
fn called_in(block: &[Core], table: &[u32]) -> u32
    ensures { result ≡ min 20001 (called_weight (in_table table.now) block.now) }
{
    let mut sum = 0;
    for core in block {
        sum = heavy_sum(sum, called_by(core, table));
    }
    sum
}

/// How deep a statement is.
#[cycle(depth)]
fn depth_by(core: &Core, table: &[u32]) -> u32
    ensures { result ≡ min 129 (fold-Core ℕ (depth_step (in_table table.now)) core.now) }
{
    match core {
        Core::Call { instance, .. } => in_table(table, *instance).min(DEEP),
        Core::If { yes, no, .. } => {
            let part = depth_in(yes.as_slice(), table);
            let other = depth_in(no.as_slice(), table);
            (part.max(other) + 1).min(DEEP)
        }
        Core::For { body, .. } => (depth_in(body.as_slice(), table) + 1).min(DEEP),
        _ => 0,
    }
}

/// How deep the deepest statement of a block is.
#[cycle(depth)]
fn depth_in(block: &[Core], table: &[u32]) -> u32
    ensures { result ≡ min 129 (block_depth (in_table table.now) block.now) }
{
    let mut deepest = 0;
    for core in block {
        deepest = depth_by(core, table).max(deepest);
    }
    deepest
}

/// What an instance counts by a table of what the others count.
fn count(measure: Measure, f: &Instance, table: &[u32]) -> u32
    ensures { result ≡ held measure table.now f.now }
{
    match measure {
        Measure::Weight => heavy_sum(f.weight, called_in(f.body.as_slice(), table)),
        Measure::Depth => depth_in(f.body.as_slice(), table),
    }
}

/// What each instance counts by a table of what the others count.
fn round(
    alloc: Global,
    measure: Measure,
    instances: &[Instance],
    table: &[u32],
) -> Result<Seq<u32>, NoMemory>
    ensures { IfOk result (λ counts. counts ≡ round measure instances.now table.now) }
{
    let mut counts = Seq::new(alloc);
    for f in instances {
        counts.push(count(measure, f, table))?;
    }
    Ok(counts)
}

/// No counts.
fn zeros(alloc: Global, count: usize) -> Result<Seq<u32>, NoMemory>
    ensures { IfOk result (λ table. table ≡ replicate count 0) }
{
    Ok(Seq::from_vec(vec![in alloc; 0_u32; count]?))
}

/// Whether two tables have the same counts.
fn is_same(left: &[u32], right: &[u32]) -> bool
    ensures { result ≡ true → left.now ≡ right.now }
{
    left == right
}

/// What each instance counts, held at one past the limit. Takes one pass over the instances for each level of calls
/// within calls, and one more.
pub fn counts(alloc: Global, measure: Measure, instances: &[Instance]) -> Result<Seq<u32>, NoMemory>
    ensures { IfOk result (λ table. table ≡ rounds measure instances.now (length instances.now)) }
{
    let mut table = zeros(alloc, instances.len())?;
    for _level in 0..instances.len() {
        let next = round(alloc, measure, instances, table.as_slice())?;
        if is_same(next.as_slice(), table.as_slice()) {
            return Ok(table);
        }
        table = next;
    }
    Ok(table)
}
