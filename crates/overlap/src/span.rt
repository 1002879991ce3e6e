//! Least and greatest places, and whether places rise, from an offset and strides in numbers wide enough for them.
ghost use Rattle.std.specs.Prelude.{◌≡◌, ◌≤◌, ◌^◌, pred, zip, unsigned_abs, ◌+ℤ◌, ◌*ℤ◌, pos, false};
ghost use Rattle.std.specs.Prelude.{Bool, true, ◌&&◌, ◌||◌, ◌==◌};
ghost use Rattle.overlap.specs.Spans.{is_empty as is_empty_list, least as least_of, greatest as greatest_of};
ghost use Rattle.overlap.specs.Spans.{rises as rises_of};
ghost use Rattle.overlap.specs.Verdicts.{of_spread, entries};
ghost use Rattle.overlap.specs.Dimensions.{fall as fall_of, climb as climb_of, rises_here};

use view_places::Spread;

/// Whether one of four holds.
pub fn any(first: bool, second: bool, third: bool, fourth: bool) -> bool
    ensures { result ≡ (first || (second || (third || (fourth || false)))) }
{
    first || second || third || fourth
}

/// Whether all of four hold.
pub fn all(first: bool, second: bool, third: bool, fourth: bool) -> bool
    ensures { result ≡ (first && (second && (third && (fourth && true)))) }
{
    first && second && third && fourth
}

/// Whether a view has no element.
pub fn is_empty(at: &Spread) -> bool
    ensures { result ≡ is_empty_list (entries (of_spread at.now)) }
{
    any(
        at.extent[0] == 0,
        at.extent[1] == 0,
        at.extent[2] == 0,
        at.extent[3] == 0,
    )
}

/// How far the last entry of a dimension stands from its first.
fn travel(extent: u32, stride: i64) -> i128
    ensures value { result ≡ stride *ℤ pos (pred extent) }
    ensures few { unsigned_abs result ≤ 2 ^ 95 }
{
    i128::from(stride) * i128::from(extent.saturating_sub(1))
}

/// How far the least entry of a dimension stands from its first.
fn fall(extent: u32, stride: i64) -> i128
    ensures value { result ≡ fall_of (pred extent) stride }
    ensures few { unsigned_abs result ≤ 2 ^ 95 }
{
    if stride < 0 {
        travel(extent, stride)
    } else {
        0
    }
}

/// How far the greatest entry of a dimension stands from its first.
fn climb(extent: u32, stride: i64) -> i128
    ensures value { result ≡ climb_of (pred extent) stride }
    ensures few { unsigned_abs result ≤ 2 ^ 95 }
{
    if stride < 0 {
        0
    } else {
        travel(extent, stride)
    }
}

/// A sum of two distances.
fn plus(a: i128, b: i128) -> i128
    requires first { unsigned_abs a ≤ 2 ^ 100 }
    requires second { unsigned_abs b ≤ 2 ^ 126 }
    ensures { result ≡ a +ℤ b }
{
    a + b
}

/// A sum of four distances.
fn sum(first: i128, second: i128, third: i128, fourth: i128) -> i128
    requires first { unsigned_abs first ≤ 2 ^ 95 }
    requires second { unsigned_abs second ≤ 2 ^ 95 }
    requires third { unsigned_abs third ≤ 2 ^ 95 }
    requires fourth { unsigned_abs fourth ≤ 2 ^ 95 }
    ensures value { result ≡ first +ℤ (second +ℤ (third +ℤ (fourth +ℤ pos 0))) }
    ensures few { unsigned_abs result ≤ 2 ^ 97 }
{
    let inner = plus(third, fourth);
    let middle = plus(second, inner);
    plus(first, middle)
}

/// The least place of a view that has an element.
pub fn least(at: &Spread) -> i128
    requires { is_empty_list (entries (of_spread at.now)) ≡ false }
    ensures { result ≡ least_of (entries (of_spread at.now)) }
{
    let first = fall(at.extent[0], at.stride[0]);
    let second = fall(at.extent[1], at.stride[1]);
    let third = fall(at.extent[2], at.stride[2]);
    let fourth = fall(at.extent[3], at.stride[3]);
    plus(i128::from(at.offset), sum(first, second, third, fourth))
}

/// The greatest place of a view that has an element.
pub fn greatest(at: &Spread) -> i128
    requires { is_empty_list (entries (of_spread at.now)) ≡ false }
    ensures { result ≡ greatest_of (entries (of_spread at.now)) }
{
    let first = climb(at.extent[0], at.stride[0]);
    let second = climb(at.extent[1], at.stride[1]);
    let third = climb(at.extent[2], at.stride[2]);
    let fourth = climb(at.extent[3], at.stride[3]);
    plus(i128::from(at.offset), sum(first, second, third, fourth))
}

/// Whether each row of a dimension begins above the end of the row before.
fn rises_along(extent: u32, stride: i64, behind: i128) -> bool
    ensures { result ≡ rises_here extent stride behind }
{
    extent <= 1 || behind < i128::from(stride)
}

/// Whether the places rise, of a view that has an element.
pub fn rises(at: &Spread) -> bool
    requires { is_empty_list (entries (of_spread at.now)) ≡ false }
    ensures { result ≡ rises_of (entries (of_spread at.now)) }
{
    let second = travel(at.extent[1], at.stride[1]);
    let third = travel(at.extent[2], at.stride[2]);
    let fourth = travel(at.extent[3], at.stride[3]);
    all(
        rises_along(at.extent[0], at.stride[0], sum(second, third, fourth, 0)),
        rises_along(at.extent[1], at.stride[1], sum(third, fourth, 0, 0)),
        rises_along(at.extent[2], at.stride[2], fourth),
        rises_along(at.extent[3], at.stride[3], 0),
    )
}
