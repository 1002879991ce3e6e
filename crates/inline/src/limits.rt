//! The limits of a module's kernels.
ghost use Rattle.std.specs.Prelude.{◌≡◌, ◌+◌, IfOk, map, min};
ghost use Rattle.inline.specs.Limits as spec;
ghost use Rattle.inline.specs.Tables.{held_sums, in_table};

use crate::counts::{Measure, counts, in_table};
use eager_rules::Program;
use export_sig::Signature;
use krn_base::{Loc, NoMemory, Refusal, Rule, Seq};
use std::alloc::Global;

/// How many tokens all kernels may weigh together.
const MAX_WEIGHT: u32 = 20_000;

/// How many blocks may stand within one another in a kernel.
const MAX_DEPTH: u32 = 128;

/// The weight of the kernels so far and of one more, held at one past the limit.
fn more(so_far: u32, weight: u32) -> u32
    ensures { result ≡ min 20001 (so_far + weight) }
{
    so_far.saturating_add(weight).min(MAX_WEIGHT + 1)
}

/// What the first count comes to, the first two and on, each held at one past the limit.
fn sums(alloc: Global, counts: &[u32]) -> Result<Seq<u32>, NoMemory>
    ensures { IfOk result (λ sums. sums ≡ held_sums 0 counts.now) }
{
    let mut sums = Seq::new(alloc);
    let mut so_far = 0;
    for count in counts {
        so_far = more(so_far, *count);
        sums.push(so_far)?;
    }
    Ok(sums)
}

/// What a table has for each kernel.
fn kernel_counts(alloc: Global, kernels: &[u32], table: &[u32]) -> Result<Seq<u32>, NoMemory>
    ensures { IfOk result (λ counts. counts ≡ map (in_table table.now) kernels.now) }
{
    let mut counts = Seq::new(alloc);
    for number in kernels {
        counts.push(in_table(table, *number))?;
    }
    Ok(counts)
}

/// Which count is the first above a limit.
fn first_above(limit: u32, counts: &[u32]) -> Option<usize>
    ensures { result ≡ spec.first_above limit counts.now }
{
    counts.iter().position(|count| *count > limit)
}

/// The place of a kernel's export note.
fn note_at(signatures: &[Signature], at: Option<usize>) -> Option<Loc>
    ensures { result ≡ spec.note_at signatures.now at }
{
    match signatures.get(at?) {
        Some(signature) => Some(signature.loc),
        None => None,
    }
}

/// The first kernel with which the kernels are too heavy.
fn too_large(alloc: Global, program: &Program) -> Result<Option<usize>, NoMemory>
    ensures { IfOk result (λ at. at ≡ spec.too_large program.now) }
{
    let table = counts(alloc, Measure::Weight, program.instances.as_slice())?;
    let weights = kernel_counts(alloc, program.kernels.as_slice(), table.as_slice())?;
    let sums = sums(alloc, weights.as_slice())?;
    Ok(first_above(MAX_WEIGHT, sums.as_slice()))
}

/// The first kernel that is too deep.
fn too_deep(alloc: Global, program: &Program) -> Result<Option<usize>, NoMemory>
    ensures { IfOk result (λ at. at ≡ spec.too_deep program.now) }
{
    let table = counts(alloc, Measure::Depth, program.instances.as_slice())?;
    let depths = kernel_counts(alloc, program.kernels.as_slice(), table.as_slice())?;
    Ok(first_above(MAX_DEPTH, depths.as_slice()))
}

/// The refusal by the notes at which kernels are too heavy and too deep.
fn refusal_by(large: Option<Loc>, deep: Option<Loc>) -> Option<Refusal>
    ensures { result ≡ spec.refusal_by large deep }
{
    match (large, deep) {
        (Some(loc), _) => Some(Refusal {
            rule: Rule::TooLarge,
            loc,
        }),
        (None, Some(loc)) => Some(Refusal {
            rule: Rule::TooDeep,
            loc,
        }),
        (None, None) => None,
    }
}

/// The refusal of a program whose kernels are too heavy or too deep with the bodies of called functions in place of the
/// calls. `signatures` are those of its kernels, in order. Makes no copy of a body: takes time linear in the program
/// for each level of calls within calls.
pub fn refused(
    alloc: Global,
    program: &Program,
    signatures: &[Signature],
) -> Result<Option<Refusal>, NoMemory>
    ensures { IfOk result (λ refusal. refusal ≡ spec.refusal program.now signatures.now) }
{
    let large = too_large(alloc, program)?;
    let deep = too_deep(alloc, program)?;
    Ok(refusal_by(note_at(signatures, large), note_at(signatures, deep)))
}
