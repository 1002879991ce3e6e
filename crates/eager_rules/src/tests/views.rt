// Views, and stores through them.
use super::cases::{
    ALL, BACK, Case, FAR, FIRST, FRONT, Function, GRID, Given, INT, Line, N0, N1, N2, N3, Plain,
    REST, ROW, STILL, Table, first_wrong,
};
use crate::{CoreSub, Oper};
use krn_base::{Fault, Kind};
use std::test::Fail;

static VIEWS_AND_STORES: [Case; 15] = [
    Case {
        name: "extents",
        functions: &[Function {
            params: &[GRID],
            rets: &[INT, INT, INT],
            names: &[GRID, INT, INT, INT],
            body: &[
                Line::One(Plain::Extent(1, 0, Some(0))),
                Line::One(Plain::Extent(2, 0, Some(1))),
                Line::One(Plain::Extent(3, 0, None)),
                Line::One(Plain::Return(&[N1, N2, N3])),
            ],
        }],
        words: &[],
        buffers: &[Table {
            kind: Kind::Int64,
            extents: &[2, 3],
            words: &[1, 2, 3, 4, 5, 6],
        }],
        ret: &[
            Given::Word(Kind::Int64, 2),
            Given::Word(Kind::Int64, 3),
            Given::Word(Kind::Int64, 6),
        ],
        after: &[&[1, 2, 3, 4, 5, 6]],
        fault: None,
    },
    Case {
        name: "an element by negative subscripts",
        functions: &[Function {
            params: &[GRID],
            rets: &[INT],
            names: &[GRID, INT],
            body: &[
                Line::One(Plain::Get(1, 0, &[Oper::Int(-2), Oper::Int(-1)])),
                Line::One(Plain::Return(&[N1])),
            ],
        }],
        words: &[],
        buffers: &[Table {
            kind: Kind::Int64,
            extents: &[2, 3],
            words: &[1, 2, 3, 4, 5, 6],
        }],
        ret: &[Given::Word(Kind::Int64, 3)],
        after: &[&[1, 2, 3, 4, 5, 6]],
        fault: None,
    },
    Case {
        name: "an element past the end",
        functions: &[Function {
            params: &[GRID],
            rets: &[INT],
            names: &[GRID, INT],
            body: &[
                Line::One(Plain::Get(1, 0, &[Oper::Int(1), Oper::Int(3)])),
                Line::One(Plain::Return(&[N1])),
            ],
        }],
        words: &[],
        buffers: &[Table {
            kind: Kind::Int64,
            extents: &[2, 3],
            words: &[1, 2, 3, 4, 5, 6],
        }],
        ret: &[],
        after: &[&[1, 2, 3, 4, 5, 6]],
        fault: Some((Fault::IndexError, 1, 1)),
    },
    Case {
        name: "an element before the first",
        functions: &[Function {
            params: &[ROW],
            rets: &[INT],
            names: &[ROW, INT],
            body: &[
                Line::One(Plain::Put(0, &[Oper::Int(-2)], Oper::Int(7))),
                Line::One(Plain::Put(0, &[Oper::Int(-3)], Oper::Int(8))),
            ],
        }],
        words: &[],
        buffers: &[Table {
            kind: Kind::Int64,
            extents: &[2],
            words: &[1, 2],
        }],
        ret: &[],
        after: &[&[7, 2]],
        fault: Some((Fault::IndexError, 2, 1)),
    },
    Case {
        name: "a view by subscripts from the first",
        functions: &[Function {
            params: &[GRID],
            rets: &[ROW],
            names: &[GRID, ROW],
            body: &[
                Line::One(Plain::Pick(1, 0, &[CoreSub::At(Oper::Int(1)), FRONT])),
                Line::One(Plain::Return(&[N1])),
            ],
        }],
        words: &[],
        buffers: &[Table {
            kind: Kind::Int64,
            extents: &[2, 3],
            words: &[1, 2, 3, 4, 5, 6],
        }],
        ret: &[Given::Array(Table {
            kind: Kind::Int64,
            extents: &[2],
            words: &[4, 5],
        })],
        after: &[&[1, 2, 3, 4, 5, 6]],
        fault: None,
    },
    Case {
        name: "rows backwards, a column less",
        functions: &[Function {
            params: &[GRID],
            rets: &[GRID],
            names: &[GRID, GRID],
            body: &[
                Line::One(Plain::Pick(1, 0, &[BACK, REST])),
                Line::One(Plain::Return(&[N1])),
            ],
        }],
        words: &[],
        buffers: &[Table {
            kind: Kind::Int64,
            extents: &[2, 3],
            words: &[1, 2, 3, 4, 5, 6],
        }],
        ret: &[Given::Array(Table {
            kind: Kind::Int64,
            extents: &[2, 2],
            words: &[5, 6, 2, 3],
        })],
        after: &[&[1, 2, 3, 4, 5, 6]],
        fault: None,
    },
    Case {
        name: "the first faulty subscript, an index",
        functions: &[Function {
            params: &[GRID],
            rets: &[ROW],
            names: &[GRID, ROW],
            body: &[
                Line::One(Plain::Pick(1, 0, &[FAR, STILL])),
                Line::One(Plain::Return(&[N1])),
            ],
        }],
        words: &[],
        buffers: &[Table {
            kind: Kind::Int64,
            extents: &[2, 3],
            words: &[1, 2, 3, 4, 5, 6],
        }],
        ret: &[],
        after: &[&[1, 2, 3, 4, 5, 6]],
        fault: Some((Fault::IndexError, 1, 1)),
    },
    Case {
        name: "the first faulty subscript, a step of 0",
        functions: &[Function {
            params: &[GRID],
            rets: &[ROW],
            names: &[GRID, ROW],
            body: &[
                Line::One(Plain::Pick(1, 0, &[STILL, FAR])),
                Line::One(Plain::Return(&[N1])),
            ],
        }],
        words: &[],
        buffers: &[Table {
            kind: Kind::Int64,
            extents: &[2, 3],
            words: &[1, 2, 3, 4, 5, 6],
        }],
        ret: &[],
        after: &[&[1, 2, 3, 4, 5, 6]],
        fault: Some((Fault::ValueError, 1, 1)),
    },
    Case {
        name: "dimensions reversed",
        functions: &[Function {
            params: &[GRID],
            rets: &[GRID],
            names: &[GRID, GRID],
            body: &[
                Line::One(Plain::Flip(1, 0)),
                Line::One(Plain::Return(&[N1])),
            ],
        }],
        words: &[],
        buffers: &[Table {
            kind: Kind::Int64,
            extents: &[2, 3],
            words: &[1, 2, 3, 4, 5, 6],
        }],
        ret: &[Given::Array(Table {
            kind: Kind::Int64,
            extents: &[3, 2],
            words: &[1, 4, 2, 5, 3, 6],
        })],
        after: &[&[1, 2, 3, 4, 5, 6]],
        fault: None,
    },
    Case {
        name: "another name for an array",
        functions: &[Function {
            params: &[ROW],
            rets: &[ROW],
            names: &[ROW, ROW],
            body: &[
                Line::One(Plain::Alias(1, 0)),
                Line::One(Plain::Put(1, &[Oper::Int(-1)], Oper::Int(5))),
                Line::One(Plain::Return(&[N0])),
            ],
        }],
        words: &[],
        buffers: &[Table {
            kind: Kind::Int64,
            extents: &[2],
            words: &[1, 2],
        }],
        ret: &[Given::Array(Table {
            kind: Kind::Int64,
            extents: &[2],
            words: &[1, 5],
        })],
        after: &[&[1, 5]],
        fault: None,
    },
    Case {
        name: "a store through views that overlap",
        functions: &[Function {
            params: &[ROW],
            rets: &[],
            names: &[ROW, ROW, ROW],
            body: &[
                Line::One(Plain::Pick(1, 0, &[REST])),
                Line::One(Plain::Pick(2, 0, &[FRONT])),
                Line::One(Plain::Store(1, N2)),
            ],
        }],
        words: &[],
        buffers: &[Table {
            kind: Kind::Int64,
            extents: &[4],
            words: &[1, 2, 3, 4],
        }],
        ret: &[],
        after: &[&[1, 1, 2, 3]],
        fault: None,
    },
    Case {
        name: "a store from a view backwards",
        functions: &[Function {
            params: &[ROW],
            rets: &[],
            names: &[ROW, ROW],
            body: &[
                Line::One(Plain::Pick(1, 0, &[BACK])),
                Line::One(Plain::Store(0, N1)),
            ],
        }],
        words: &[],
        buffers: &[Table {
            kind: Kind::Int64,
            extents: &[4],
            words: &[1, 2, 3, 4],
        }],
        ret: &[],
        after: &[&[4, 3, 2, 1]],
        fault: None,
    },
    Case {
        name: "a row stored into each row",
        functions: &[Function {
            params: &[GRID, ROW],
            rets: &[],
            names: &[GRID, ROW],
            body: &[Line::One(Plain::Store(0, N1))],
        }],
        words: &[],
        buffers: &[
            Table {
                kind: Kind::Int64,
                extents: &[2, 3],
                words: &[1, 2, 3, 4, 5, 6],
            },
            Table {
                kind: Kind::Int64,
                extents: &[3],
                words: &[7, 8, 9],
            },
        ],
        ret: &[],
        after: &[&[7, 8, 9, 7, 8, 9], &[7, 8, 9]],
        fault: None,
    },
    Case {
        name: "a word stored into a column",
        functions: &[Function {
            params: &[GRID],
            rets: &[],
            names: &[GRID, ROW],
            body: &[
                Line::One(Plain::Pick(1, 0, &[ALL, FIRST])),
                Line::One(Plain::Store(1, Oper::Int(0))),
            ],
        }],
        words: &[],
        buffers: &[Table {
            kind: Kind::Int64,
            extents: &[2, 3],
            words: &[1, 2, 3, 4, 5, 6],
        }],
        ret: &[],
        after: &[&[0, 2, 3, 0, 5, 6]],
        fault: None,
    },
    Case {
        name: "a store that doesn't fit",
        functions: &[Function {
            params: &[ROW, ROW],
            rets: &[],
            names: &[ROW, ROW],
            body: &[Line::One(Plain::Store(0, N1))],
        }],
        words: &[],
        buffers: &[
            Table {
                kind: Kind::Int64,
                extents: &[1],
                words: &[5],
            },
            Table {
                kind: Kind::Int64,
                extents: &[3],
                words: &[7, 8, 9],
            },
        ],
        ret: &[],
        after: &[&[5], &[7, 8, 9]],
        fault: Some((Fault::ValueError, 1, 1)),
    },
];

#[test]
fn views_and_stores(rt: HostRuntime) -> Result<(), Fail> {
    assert_eq!(rt; first_wrong(rt.alloc(), &VIEWS_AND_STORES)?, "");
    Ok(())
}
