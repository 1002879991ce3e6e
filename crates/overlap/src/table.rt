//! The table of verdicts.
ghost use Rattle.std.specs.Prelude.{◌≡◌, nat_le, ◌||◌};
ghost use Rattle.std.specs.Ordering.{int_eq};
ghost use Rattle.overlap.specs.Verdicts.{of_spread, verdict_of, are_alike as are_alike_dims};

use crate::apart_row::is_apart;
use crate::span::{all, rises};
use view_places::Spread;

/// How a leaf of a target's shape overlaps with the target.
#[derive(Clone, Copy, Debug, PartialEq, Eq)]
pub enum Verdict {
    /// No place is common, or the buffers differ.
    Apart,
    /// Each entry of the leaf stands at the place of the target's entry.
    Same,
    /// No entry of the leaf stands at the place of an earlier entry of the target.
    Ahead,
    /// Nothing of this is known.
    Clash,
}

/// Whether two strides are equal or not in use.
fn is_alike(extent: u32, first: i64, second: i64) -> bool
    ensures { result ≡ (nat_le extent 1 || int_eq first second) }
{
    extent <= 1 || first == second
}

/// Whether two views of one shape have equal strides in use.
fn are_alike(a: &Spread, b: &Spread) -> bool
    ensures { result ≡ are_alike_dims (of_spread a.now).dims (of_spread b.now).dims }
{
    all(
        is_alike(a.extent[0], a.stride[0], b.stride[0]),
        is_alike(a.extent[1], a.stride[1], b.stride[1]),
        is_alike(a.extent[2], a.stride[2], b.stride[2]),
        is_alike(a.extent[3], a.stride[3], b.stride[3]),
    )
}

/// The verdict on a target and a leaf of its shape.
#[tactic(auto, unfolding(crate::specs::Verdicts::verdict_of))]
pub fn judged(to: &Spread, from: &Spread) -> Verdict
    ensures { result ≡ verdict_of (of_spread to.now) (of_spread from.now) }
{
    if is_apart(to, from) {
        return Verdict::Apart;
    }
    if !are_alike(to, from) {
        return Verdict::Clash;
    }
    if to.offset == from.offset {
        return Verdict::Same;
    }
    if to.offset <= from.offset && rises(to) {
        return Verdict::Ahead;
    }
    Verdict::Clash
}
