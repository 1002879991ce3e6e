//! What a slice counts out of a dimension, by Python's `slice.indices`.
ghost use Rattle.std.specs.Prelude.{◌≡◌, ◌≢◌, ◌↔◌, ℕ, ◌+◌, ◌-◌, ◌*◌, ◌^◌, ◌<◌, ◌≤◌, ℤ, pos, negsuc, ◌-ℤ◌, ◌≤ℤ◌, ◌<ℤ◌};
ghost use Rattle.std.specs.Prelude.{unsigned_abs, map, MatchOption, IfSome, None, Some};
ghost use Rattle.std.specs.List.{range_with_len};
ghost use Rattle.view_places.specs.Slice.{from_front, clip, bound, walk, slice_indices, IsDistance};
ghost use Rattle.view_places.specs.Arrays.{max_elements};
ghost use Rattle.view_places.specs.Walk.{picks, StaysWithin};

use crate::slice::Slice;
use crate::walk::Walk;

/// A bound counted from the front.
fn counted_from_front(n: u32, given: i64) -> i64
    requires { n ≤ max_elements }
    ensures { result ≡ from_front n given }
{
    if given < 0 {
        given + i64::from(n)
    } else {
        given
    }
}

/// The nearest number from `least` to `most` to a bound that is counted from the front.
fn clipped(n: u32, least: i64, most: i64, given: i64) -> i64
    requires small { n ≤ max_elements }
    requires order { least ≤ℤ most }
    ensures value { result ≡ clip least most (from_front n given) }
    ensures least { least ≤ℤ result }
    ensures most { result ≤ℤ most }
{
    counted_from_front(n, given).clamp(least, most)
}

/// A bound of a slice, or the absent one.
fn bound_of(n: u32, least: i64, most: i64, absent: i64, given: Option<i64>) -> i64
    requires small { n ≤ max_elements }
    requires order { least ≤ℤ most }
    requires least { least ≤ℤ absent }
    requires most { absent ≤ℤ most }
    ensures value { result ≡ bound n least most absent given }
    ensures least { least ≤ℤ result }
    ensures most { result ≤ℤ most }
{
    match given {
        None => absent,
        Some(given) => clipped(n, least, most, given),
    }
}

/// How many multiples of a length, from 0 on, are below a distance.
fn steps_in(distance: u32, length: u64) -> u32
    requires { 0 < length }
    ensures steps { (k : ℕ) → (k < result) ↔ (k * length < distance) }
    ensures few { result ≤ distance }
{
    if distance == 0 {
        return 0;
    }
    ((u64::from(distance) - 1) / length + 1) as u32
}

/// How far a stop is past a start, or 0.
fn distance(start: i64, stop: i64) -> u32
    requires start { negsuc 0 ≤ℤ start }
    requires stop { stop ≤ℤ pos max_elements }
    ensures { IsDistance start stop result }
{
    if start < stop {
        (stop - start) as u32
    } else {
        0
    }
}

/// What a slice with a positive step counts out.
fn rising(n: u32, s: &Slice, step: i64) -> Walk
    requires small { n ≤ max_elements }
    requires step { pos 0 <ℤ step }
    ensures value { map unsigned_abs (walk n (bound n (pos 0) (pos n) (pos 0) s.now.start)
        (bound n (pos 0) (pos n) (pos n) s.now.stop) step) ≡ picks result }
    ensures step { result.step ≡ step }
    ensures within { StaysWithin n result }
{
    let most = i64::from(n);
    let start = bound_of(n, 0, most, 0, s.start);
    let stop = bound_of(n, 0, most, most, s.stop);
    let far = distance(start, stop);
    let count = steps_in(far, step.unsigned_abs());
    Walk { start, step, count }
}

/// What a slice with a negative step counts out.
fn falling(n: u32, s: &Slice, step: i64) -> Walk
    requires small { n ≤ max_elements }
    requires step { step <ℤ pos 0 }
    ensures value { map unsigned_abs (walk n (bound n (negsuc 0) (pos n -ℤ pos 1) (pos n -ℤ pos 1) s.now.start)
        (bound n (negsuc 0) (pos n -ℤ pos 1) (negsuc 0) s.now.stop) step) ≡ picks result }
    ensures step { result.step ≡ step }
    ensures within { StaysWithin n result }
{
    let most = i64::from(n) - 1;
    let start = bound_of(n, -1, most, most, s.start);
    let stop = bound_of(n, -1, most, -1, s.stop);
    let far = distance(stop, start);
    let count = steps_in(far, step.unsigned_abs());
    Walk { start, step, count }
}

/// What a slice counts out of a dimension with n entries; None at step 0.
pub fn slice_walk(n: u32, s: &Slice) -> Option<Walk>
    requires { n ≤ max_elements }
    ensures value { MatchOption result (slice_indices n s.now ≡ None) (λ w. slice_indices n s.now ≡ Some (picks w)) }
    ensures within { IfSome result (StaysWithin n) }
{
    let step = s.step.unwrap_or(1);
    if step == 0 {
        None
    } else if step > 0 {
        Some(rising(n, s, step))
    } else {
        Some(falling(n, s, step))
    }
}
