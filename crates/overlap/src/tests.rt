// Verdicts on parts of whole buffers with 48 elements, and on leaves that are spread to them. A slow function over
// lists of places and the table gave the values.
use crate::Verdict::{self, Ahead, Apart, Clash, Same};
use crate::{apart, verdict};
use std::test::Fail;
use view_places::{Shape, Slice, View};

// Start, stop and step of a slice.
type Cut = (i64, i64, i64);

const ALL: Cut = (0, 99, 1);

const BACK: Cut = (-1, -99, -1);

const EVEN: Cut = (0, 99, 2);

const ODD: Cut = (1, 99, 2);

const FRONT: Cut = (0, -1, 1);

const REST: Cut = (1, 99, 1);

const FIRST: Cut = (0, 1, 1);

const LAST: Cut = (-1, 99, 1);

const NONE: Cut = (0, 0, 1);

const HEAD: Cut = (0, 2, 1);

const TAIL: Cut = (-2, 99, 1);

const HALF: Cut = (0, 24, 1);

const TURN: Cut = (23, -99, -1);

const OVER: Cut = (24, 99, 1);

const THREE: Cut = (0, 3, 1);

const UPPER: Cut = (3, 99, 1);

const DOWN: Cut = (-2, -99, -1);

const TOP: Cut = (-1, 0, -1);

const SIX: Cut = (0, 6, 1);

const EIGHT: Cut = (0, 8, 1);

const ENDING: Cut = (40, 99, 1);

const FOUR: Cut = (0, 4, 1);

const BEHIND: Cut = (1, 2048, 1);

// Target and leaf.
static RANK_1: [(Cut, Cut, Verdict); 24] = [
    (EVEN, ODD, Apart),
    (ODD, EVEN, Apart),
    (BACK, BACK, Same),
    (ALL, BACK, Clash),
    (BACK, ALL, Clash),
    (HALF, TURN, Clash),
    (REST, FRONT, Clash),
    (FRONT, REST, Ahead),
    (HALF, OVER, Apart),
    (OVER, HALF, Apart),
    (NONE, NONE, Apart),
    (NONE, FIRST, Apart),
    (DOWN, TOP, Clash),
    (TOP, DOWN, Clash),
    (HALF, EVEN, Clash),
    (ALL, ALL, Same),
    (EVEN, EVEN, Same),
    (FIRST, FIRST, Same),
    (FIRST, LAST, Apart),
    (HEAD, TAIL, Apart),
    (ODD, FIRST, Apart),
    (REST, FIRST, Apart),
    (TAIL, FIRST, Apart),
    (TAIL, TAIL, Same),
];

// Target and leaf, each by its slices and whether it is transposed afterwards.
static RANK_2: [([Cut; 2], bool, [Cut; 2], bool, Verdict); 22] = [
    ([ALL, SIX], false, [ALL, SIX], true, Clash),
    ([ALL, SIX], true, [ALL, SIX], true, Same),
    ([ALL, SIX], true, [ALL, SIX], false, Clash),
    ([FRONT, ALL], false, [REST, ALL], false, Ahead),
    ([REST, ALL], false, [FRONT, ALL], false, Clash),
    ([ALL, EVEN], false, [ALL, ODD], false, Apart),
    ([ALL, FRONT], false, [ALL, REST], false, Ahead),
    ([ALL, REST], false, [ALL, FRONT], false, Clash),
    ([ALL, ALL], false, [FIRST, ALL], false, Clash),
    ([FRONT, ALL], false, [LAST, ALL], false, Apart),
    ([ALL, REST], false, [ALL, FIRST], false, Clash),
    ([EVEN, ALL], false, [ODD, ALL], false, Ahead),
    ([BACK, ALL], false, [BACK, ALL], false, Same),
    ([ALL, BACK], false, [ALL, ALL], false, Clash),
    ([ALL, NONE], false, [FIRST, FIRST], false, Apart),
    ([NONE, ALL], true, [NONE, ALL], true, Apart),
    ([ALL, FIRST], false, [ALL, FIRST], false, Same),
    ([ALL, FIRST], false, [ALL, LAST], false, Apart),
    ([THREE, BACK], false, [LAST, BACK], false, Apart),
    ([UPPER, ODD], false, [EVEN, ODD], false, Clash),
    ([BACK, REST], false, [BACK, REST], false, Same),
    ([FRONT, HEAD], false, [FIRST, HEAD], false, Clash),
];

static RANK_3: [([Cut; 3], bool, [Cut; 3], bool, Verdict); 14] = [
    ([ALL, EVEN, ALL], false, [ALL, ODD, ALL], false, Ahead),
    ([ALL, ALL, EVEN], false, [ALL, ALL, ODD], false, Apart),
    ([HEAD, HEAD, HEAD], false, [HEAD, HEAD, HEAD], true, Clash),
    ([ALL, ALL, ALL], true, [ALL, ALL, ALL], true, Same),
    ([ALL, ALL, ALL], false, [FIRST, ALL, FIRST], false, Clash),
    ([FIRST, ALL, ALL], false, [LAST, ALL, ALL], false, Apart),
    ([ALL, FRONT, ALL], false, [ALL, REST, ALL], false, Ahead),
    ([ALL, REST, ALL], false, [ALL, FRONT, ALL], false, Clash),
    ([BACK, BACK, BACK], false, [BACK, BACK, BACK], false, Same),
    (
        [FRONT, FRONT, EVEN],
        false,
        [FIRST, REST, EVEN],
        false,
        Ahead,
    ),
    ([HEAD, HEAD, BACK], false, [BACK, HEAD, BACK], false, Clash),
    ([ODD, TAIL, LAST], false, [ODD, TAIL, LAST], false, Same),
    ([FIRST, LAST, TAIL], false, [LAST, LAST, TAIL], false, Apart),
    ([ALL, ALL, LAST], false, [ALL, LAST, LAST], false, Clash),
];

static RANK_4: [([Cut; 4], bool, [Cut; 4], bool, Verdict); 13] = [
    (
        [ALL, ALL, ALL, EVEN],
        false,
        [ALL, ALL, ALL, ODD],
        false,
        Apart,
    ),
    (
        [ALL, ALL, HEAD, HEAD],
        false,
        [ALL, ALL, HEAD, HEAD],
        true,
        Clash,
    ),
    ([ALL, ALL, ALL, ALL], true, [ALL, ALL, ALL, ALL], true, Same),
    (
        [ALL, ALL, ALL, FRONT],
        false,
        [ALL, ALL, ALL, REST],
        false,
        Ahead,
    ),
    (
        [ALL, ALL, FRONT, ALL],
        false,
        [ALL, ALL, REST, ALL],
        false,
        Ahead,
    ),
    (
        [ALL, ALL, REST, ALL],
        false,
        [ALL, ALL, FRONT, ALL],
        false,
        Clash,
    ),
    (
        [ALL, ALL, ALL, ALL],
        false,
        [FIRST, FIRST, ALL, ALL],
        false,
        Clash,
    ),
    (
        [ALL, BACK, ALL, ALL],
        false,
        [ALL, ALL, ALL, ALL],
        false,
        Clash,
    ),
    (
        [FIRST, ALL, ALL, ALL],
        false,
        [LAST, ALL, ALL, ALL],
        false,
        Apart,
    ),
    (
        [TAIL, FIRST, FIRST, ODD],
        false,
        [REST, REST, FIRST, ODD],
        false,
        Apart,
    ),
    (
        [TAIL, TAIL, LAST, BACK],
        false,
        [ALL, FRONT, LAST, BACK],
        false,
        Clash,
    ),
    (
        [LAST, EVEN, LAST, TAIL],
        false,
        [LAST, EVEN, LAST, TAIL],
        false,
        Same,
    ),
    (
        [ODD, FIRST, REST, TAIL],
        false,
        [LAST, LAST, EVEN, TAIL],
        false,
        Apart,
    ),
];

/// All elements of a buffer with 48 elements, in a shape of this rank.
fn whole(rank: u8) -> View {
    match rank {
        1 => View::whole(
            0,
            &Shape {
                rank: 1,
                extent: [48, 1, 1, 1],
            },
        ),
        2 => View::whole(
            0,
            &Shape {
                rank: 2,
                extent: [6, 8, 1, 1],
            },
        ),
        3 => View::whole(
            0,
            &Shape {
                rank: 3,
                extent: [2, 4, 6, 1],
            },
        ),
        _ => View::whole(
            0,
            &Shape {
                rank: 4,
                extent: [2, 2, 3, 4],
            },
        ),
    }
}

/// The entries that a slice counts out, where the view has that dimension.
fn cut(view: View, axis: u8, cut: Cut) -> View {
    if axis >= view.rank {
        return view;
    }
    let (start, stop, step) = cut;
    let slice = Slice {
        start: Some(start),
        stop: Some(stop),
        step: Some(step),
    };
    view.slice(axis, slice).unwrap_or(view)
}

/// A part of a whole buffer.
fn part(rank: u8, cuts: [Cut; 4], turned: bool) -> View {
    let view = cut(whole(rank), 0, cuts[0]);
    let view = cut(view, 1, cuts[1]);
    let view = cut(view, 2, cuts[2]);
    let view = cut(view, 3, cuts[3]);
    if turned { view.transpose() } else { view }
}

/// The verdict on a leaf that is spread to the target's shape, where it fits.
fn judged(to: &View, from: &View) -> Option<Verdict> {
    match from.spread(&to.shape()) {
        Some(spread) => Some(verdict(to, &spread)),
        None => None,
    }
}

#[test]
fn ranks_1_and_2(rt: HostRuntime) -> Result<(), Fail> {
    for (to, from, wanted) in RANK_1 {
        let target = part(1, [to, ALL, ALL, ALL], false);
        let leaf = part(1, [from, ALL, ALL, ALL], false);
        assert_eq!(rt; judged(&target, &leaf), Some(wanted), "{to:?} {from:?}");
        assert_eq!(rt; apart(&target, &leaf), wanted == Apart, "{to:?} {from:?}");
    }
    for (to, to_turned, from, from_turned, wanted) in RANK_2 {
        let target = part(2, [to[0], to[1], ALL, ALL], to_turned);
        let leaf = part(2, [from[0], from[1], ALL, ALL], from_turned);
        assert_eq!(rt; judged(&target, &leaf), Some(wanted), "{to:?} {from:?}");
        assert_eq!(rt; apart(&target, &leaf), wanted == Apart, "{to:?} {from:?}");
    }
    Ok(())
}

#[test]
fn ranks_3_and_4(rt: HostRuntime) -> Result<(), Fail> {
    for (to, to_turned, from, from_turned, wanted) in RANK_3 {
        let target = part(3, [to[0], to[1], to[2], ALL], to_turned);
        let leaf = part(3, [from[0], from[1], from[2], ALL], from_turned);
        assert_eq!(rt; judged(&target, &leaf), Some(wanted), "{to:?} {from:?}");
        assert_eq!(rt; apart(&target, &leaf), wanted == Apart, "{to:?} {from:?}");
    }
    for (to, to_turned, from, from_turned, wanted) in RANK_4 {
        let target = part(4, to, to_turned);
        let leaf = part(4, from, from_turned);
        assert_eq!(rt; judged(&target, &leaf), Some(wanted), "{to:?} {from:?}");
        assert_eq!(rt; apart(&target, &leaf), wanted == Apart, "{to:?} {from:?}");
    }
    Ok(())
}

// A row: rank, slices and transposition of the target, rank and slices of a leaf of a lower rank.
#[test]
fn leaves_of_lower_ranks(rt: HostRuntime) -> Result<(), Fail> {
    let rows = [
        (
            2,
            [ALL, ALL, ALL, ALL],
            false,
            1,
            [EIGHT, ALL, ALL, ALL],
            Clash,
        ),
        (
            3,
            [ALL, ALL, ALL, ALL],
            false,
            2,
            [FOUR, SIX, ALL, ALL],
            Clash,
        ),
        (
            4,
            [ALL, ALL, ALL, ALL],
            false,
            1,
            [FOUR, ALL, ALL, ALL],
            Clash,
        ),
        (
            3,
            [ALL, ALL, ALL, ALL],
            true,
            1,
            [HEAD, ALL, ALL, ALL],
            Clash,
        ),
        (
            2,
            [FRONT, ALL, ALL, ALL],
            false,
            1,
            [ENDING, ALL, ALL, ALL],
            Apart,
        ),
        (
            4,
            [FIRST, FIRST, FIRST, ALL],
            false,
            1,
            [FOUR, ALL, ALL, ALL],
            Same,
        ),
        (
            4,
            [FIRST, ALL, ALL, ALL],
            false,
            2,
            [UPPER, FOUR, ALL, ALL],
            Apart,
        ),
    ];
    for (rank, to, turned, rank_of_leaf, from, wanted) in rows {
        let target = part(rank, to, turned);
        let leaf = part(rank_of_leaf, from, false);
        assert_eq!(rt; judged(&target, &leaf), Some(wanted), "{to:?} {from:?}");
        assert_eq!(rt; apart(&target, &leaf), wanted == Apart, "{to:?} {from:?}");
    }
    let large = Shape {
        rank: 2,
        extent: [2048, 2048, 1, 1],
    };
    let all = View::whole(0, &large);
    let other = View::whole(1, &large);
    assert_eq!(rt; judged(&all, &other), Some(Apart));
    assert_eq!(rt; judged(&all, &all), Some(Same));
    assert_eq!(rt;
        judged(&cut(all, 1, FRONT), &cut(all, 1, BEHIND)),
        Some(Ahead)
    );
    assert_eq!(rt;
        judged(&cut(all, 1, BEHIND), &cut(all, 1, FRONT)),
        Some(Clash)
    );
    Ok(())
}

// Each entry takes the word of the entry before it: the leaf stands behind the target.
#[test]
fn a_clash_makes_a_difference(rt: HostRuntime) -> Result<(), Fail> {
    let whole = whole(1);
    let target = cut(whole, 0, REST);
    let leaf = cut(whole, 0, FRONT);
    assert_eq!(rt; judged(&target, &leaf), Some(Clash));
    let mut at_once = [1, 2, 3, 4];
    let mut afterwards = [1, 2, 3, 4];
    let read = afterwards;
    for k in 0..3usize {
        at_once[k + 1] = at_once[k];
        afterwards[k + 1] = read[k];
    }
    assert_eq!(rt; at_once, [1, 1, 1, 1]);
    assert_eq!(rt; afterwards, [1, 1, 2, 3]);
    Ok(())
}
