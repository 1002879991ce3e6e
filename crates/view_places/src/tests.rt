use crate::{Odometer, Shape, Slice, View, broadcast, broadcast_all};
use krn_base::Fault;
use std::test::Fail;

#[test]
fn worked_views(rt: HostRuntime) -> Result<(), Fail> {
    let whole = View::whole(
        3,
        &Shape {
            rank: 3,
            extent: [2, 1, 3, 1],
        },
    );
    assert_eq!(rt; whole.stride, [3, 0, 1, 0]);
    assert_eq!(rt; whole.length, 6);
    let turned = whole.transpose();
    assert_eq!(rt; turned.extent, [3, 1, 2, 1]);
    assert_eq!(rt; turned.stride, [1, 0, 3, 0]);
    assert_eq!(rt; whole.rank, 3);
    assert_eq!(rt; whole.is_contiguous(), true);
    assert_eq!(rt; turned.is_contiguous(), false);
    let backwards = Slice {
        start: None,
        stop: None,
        step: Some(-2),
    };
    let part = whole.slice(2, backwards).map(|v| (v.offset, v.stride[2]));
    assert_eq!(rt; part, Ok((2, -2)));
    let last = whole.index(0, -1).map(|v| (v.rank, v.offset));
    assert_eq!(rt; last, Ok((2, 3)));
    let outside = whole.index(2, 3).map(|v| v.offset);
    assert_eq!(rt; outside, Err(Fault::IndexError));
    let empty = View::whole(
        0,
        &Shape {
            rank: 4,
            extent: [1, 0, 4194304, 1],
        },
    );
    assert_eq!(rt; empty.stride, [0, 0, 0, 0]);
    Ok(())
}

// A row: the number of entries, start, stop and step of a slice, and of what CPython's `slice.indices` gives: how many
// numbers, the first one (0 where there is none), and their distance (0 where there is one at most).
#[test]
fn slices_as_python_counts(rt: HostRuntime) -> Result<(), Fail> {
    let rows = [
        (5, None, None, None, Ok((5, 0, 1))),
        (5, None, None, Some(-1), Ok((5, 4, -1))),
        (5, Some(1), Some(4), Some(2), Ok((2, 1, 2))),
        (5, Some(4), Some(1), Some(-2), Ok((2, 4, -2))),
        (5, Some(-1), None, None, Ok((1, 4, 0))),
        (5, None, Some(-1), None, Ok((4, 0, 1))),
        (5, Some(-100), Some(100), None, Ok((5, 0, 1))),
        (5, Some(100), Some(-100), Some(-1), Ok((5, 4, -1))),
        (5, Some(3), Some(3), None, Ok((0, 0, 0))),
        (5, Some(3), Some(2), None, Ok((0, 0, 0))),
        (5, None, None, Some(2), Ok((3, 0, 2))),
        (5, None, None, Some(3), Ok((2, 0, 3))),
        (5, None, None, Some(-3), Ok((2, 4, -3))),
        (5, None, None, Some(5), Ok((1, 0, 0))),
        (5, None, None, Some(-5), Ok((1, 4, 0))),
        (5, None, None, Some(4), Ok((2, 0, 4))),
        (0, None, None, None, Ok((0, 0, 0))),
        (0, None, None, Some(-1), Ok((0, 0, 0))),
        (0, Some(0), Some(0), Some(1), Ok((0, 0, 0))),
        (0, Some(-1), Some(1), Some(-1), Ok((0, 0, 0))),
        (1, None, None, Some(-1), Ok((1, 0, 0))),
        (1, Some(0), None, Some(i64::MAX), Ok((1, 0, 0))),
        (1, Some(-1), None, Some(i64::MIN), Ok((1, 0, 0))),
        (
            7,
            Some(i64::MIN),
            Some(i64::MAX),
            Some(i64::MAX),
            Ok((1, 0, 0)),
        ),
        (
            7,
            Some(i64::MAX),
            Some(i64::MIN),
            Some(i64::MIN),
            Ok((1, 6, 0)),
        ),
        (7, Some(i64::MIN), Some(i64::MAX), Some(1), Ok((7, 0, 1))),
        (7, Some(i64::MAX), Some(i64::MIN), Some(-1), Ok((7, 6, -1))),
        (
            7,
            Some(i64::MAX),
            Some(i64::MAX),
            Some(i64::MAX),
            Ok((0, 0, 0)),
        ),
        (
            7,
            Some(i64::MIN),
            Some(i64::MIN),
            Some(i64::MIN),
            Ok((0, 0, 0)),
        ),
        (7, Some(0), Some(i64::MAX), Some(i64::MAX), Ok((1, 0, 0))),
        (7, Some(6), Some(i64::MIN), Some(i64::MIN), Ok((1, 6, 0))),
        (7, None, None, Some(i64::MIN), Ok((1, 6, 0))),
        (7, None, None, Some(i64::MAX), Ok((1, 0, 0))),
        (7, Some(i64::MIN), None, Some(-1), Ok((0, 0, 0))),
        (7, None, Some(i64::MIN), Some(-2), Ok((4, 6, -2))),
        (7, Some(-7), Some(-1), Some(3), Ok((2, 0, 3))),
        (7, Some(-8), Some(-1), Some(3), Ok((2, 0, 3))),
        (7, Some(6), Some(-8), Some(-6), Ok((2, 6, -6))),
        (7, Some(6), Some(-7), Some(-6), Ok((1, 6, 0))),
        (7, Some(5), Some(0), Some(-2), Ok((3, 5, -2))),
        (
            4194304,
            None,
            None,
            Some(-4194303),
            Ok((2, 4194303, -4194303)),
        ),
        (4194304, None, None, Some(4194303), Ok((2, 0, 4194303))),
        (4194304, Some(1), None, Some(4194303), Ok((1, 1, 0))),
        (5, Some(1), None, Some(0), Err(Fault::ValueError)),
    ];
    for (n, start, stop, step, wanted) in rows {
        assert!(rt; n <= 1 << 22);
        let whole = View::whole(
            0,
            &Shape {
                rank: 1,
                extent: [n, 1, 1, 1],
            },
        );
        assert_eq!(rt; whole.rank, 1);
        let part = whole.slice(0, Slice { start, stop, step });
        let seen = part.map(|v| (v.extent[0], v.offset, v.stride[0]));
        assert_eq!(rt; seen, wanted, "{n} {start:?} {stop:?} {step:?}");
    }
    Ok(())
}

// A row: shapes, and what `numpy.broadcast_shapes` gives for them, or the fault.
#[test]
fn broadcasts_as_numpy_has_them(rt: HostRuntime) -> Result<(), Fail> {
    let none = Shape {
        rank: 0,
        extent: [1; 4],
    };
    let row = Shape {
        rank: 1,
        extent: [3, 1, 1, 1],
    };
    let column = Shape {
        rank: 2,
        extent: [2, 1, 1, 1],
    };
    let block = Shape {
        rank: 4,
        extent: [5, 1, 1, 3],
    };
    let tall = Shape {
        rank: 2,
        extent: [4194304, 1, 1, 1],
    };
    let wide = Shape {
        rank: 2,
        extent: [1, 2, 1, 1],
    };
    let both = Shape {
        rank: 2,
        extent: [2, 3, 1, 1],
    };
    let all = Shape {
        rank: 4,
        extent: [5, 1, 2, 3],
    };
    assert_eq!(rt; broadcast(&row, &column), Ok(both));
    assert_eq!(rt; broadcast_all(&[]), Ok(none));
    assert_eq!(rt; broadcast_all(&[row, column, block]), Ok(all));
    assert_eq!(rt; broadcast_all(&[tall, wide]), Err(Fault::SizeLimit));
    assert_eq!(rt; broadcast_all(&[tall, wide, row]), Err(Fault::ValueError));
    Ok(())
}

#[test]
fn spreads_and_their_places(rt: HostRuntime) -> Result<(), Fail> {
    let column = View::whole(
        7,
        &Shape {
            rank: 2,
            extent: [2, 1, 1, 1],
        },
    );
    let whole = Shape {
        rank: 3,
        extent: [2, 2, 3, 1],
    };
    assert_eq!(rt; column.rank, 2);
    assert_eq!(rt; column.extent, [2, 1, 1, 1]);
    assert_eq!(rt; column.place(&[1, 0, 9, 9]), 1);
    let spread = column.spread(&whole);
    assert_eq!(rt; spread.is_some(), true);
    if let Some(spread) = spread {
        assert_eq!(rt; spread.rank, 3);
        assert_eq!(rt; spread.stride, [0, 1, 0, 0]);
        assert_eq!(rt; spread.extent, [2, 2, 3, 1]);
        assert_eq!(rt; spread.place(&[1, 1, 2, 9]), 1);
        assert_eq!(rt; spread.count(), 12);
        assert_eq!(rt; spread.leaps(), [-1, 1, 0, 0]);
    }
    assert_eq!(rt; View::whole(7, &whole).spread(&column.shape()), None);
    Ok(())
}

#[test]
fn an_odometer_goes_on(rt: HostRuntime) -> Result<(), Fail> {
    let mut odometer = Odometer::start(&[1, 1, 2, 2]);
    assert_eq!(rt; odometer.at, [0, 0, 0, 0]);
    let first = odometer.step();
    assert_eq!(rt; odometer.at, [0, 0, 0, 1]);
    let second = odometer.step();
    assert_eq!(rt; odometer.at, [0, 0, 1, 0]);
    let third = odometer.step();
    assert_eq!(rt; odometer.at, [0, 0, 1, 1]);
    assert_eq!(rt; (first, second, third), (3, 2, 3));
    assert_eq!(rt; odometer.number, 3);
    Ok(())
}
