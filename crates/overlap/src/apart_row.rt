//! The first row of the table.
ghost use Rattle.std.specs.Prelude.{◌≡◌, false};
ghost use Rattle.overlap.specs.Spans.{is_empty as is_empty_list, are_disjoint as are_disjoint_lists};
ghost use Rattle.overlap.specs.Verdicts.{of_spread, entries, is_apart as is_apart_row, can_meet as may_meet};

use crate::divisor::{divisor, gcd, is_multiple};
use crate::span::{greatest, is_empty, least};
use view_places::Spread;

/// Whether the intervals from least to greatest place of two views with elements are disjoint.
fn are_disjoint(a: &Spread, b: &Spread) -> bool
    requires first { is_empty_list (entries (of_spread a.now)) ≡ false }
    requires second { is_empty_list (entries (of_spread b.now)) ≡ false }
    ensures { result ≡ are_disjoint_lists (entries (of_spread a.now)) (entries (of_spread b.now)) }
{
    greatest(a) < least(b) || greatest(b) < least(a)
}

/// Whether the difference of the offsets is a multiple of the greatest common divisor of all strides in use.
fn can_meet(a: &Spread, b: &Spread) -> bool
    ensures { result ≡ may_meet (of_spread a.now) (of_spread b.now) }
{
    let common = gcd(divisor(b), divisor(a));
    is_multiple(common, i128::from(b.offset) - i128::from(a.offset))
}

/// Whether two views are apart.
#[tactic(auto, unfolding(crate::specs::Verdicts::is_apart))]
pub fn is_apart(a: &Spread, b: &Spread) -> bool
    ensures { result ≡ is_apart_row (of_spread a.now) (of_spread b.now) }
{
    if a.buffer != b.buffer {
        return true;
    }
    if is_empty(a) {
        return true;
    }
    if is_empty(b) {
        return true;
    }
    if are_disjoint(a, b) {
        return true;
    }
    !can_meet(a, b)
}
