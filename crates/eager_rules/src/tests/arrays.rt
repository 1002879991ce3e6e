// Whole arrays: new ones, element operations and reductions.
use super::cases::{
    BOOL, Case, Function, GRID, Given, INT, Line, MASK, N0, N1, N2, N3, N4, N5, N6, Plain, REST,
    ROW, Table, first_wrong,
};
use crate::{Fill, MapOp, Oper, RedOp};
use krn_base::{BinOp, Fault, Kind, UnOp};
use std::test::Fail;

static WHOLE_ARRAYS: [Case; 14] = [
    Case {
        name: "zeros, ones, counting",
        functions: &[Function {
            params: &[],
            rets: &[GRID, ROW, ROW],
            names: &[GRID, ROW, ROW],
            body: &[
                Line::One(Plain::Fresh(0, &[Oper::Int(2), Oper::Int(2)], Fill::Zero)),
                Line::One(Plain::Fresh(1, &[Oper::Int(3)], Fill::One)),
                Line::One(Plain::Fresh(2, &[Oper::Int(4)], Fill::Count)),
                Line::One(Plain::Return(&[N0, N1, N2])),
            ],
        }],
        words: &[],
        buffers: &[],
        ret: &[
            Given::Array(Table {
                kind: Kind::Int64,
                extents: &[2, 2],
                words: &[0, 0, 0, 0],
            }),
            Given::Array(Table {
                kind: Kind::Int64,
                extents: &[3],
                words: &[1, 1, 1],
            }),
            Given::Array(Table {
                kind: Kind::Int64,
                extents: &[4],
                words: &[0, 1, 2, 3],
            }),
        ],
        after: &[],
        fault: None,
    },
    Case {
        name: "no counting numbers below 0",
        functions: &[Function {
            params: &[INT],
            rets: &[ROW],
            names: &[INT, ROW],
            body: &[
                Line::One(Plain::Fresh(1, &[N0], Fill::Count)),
                Line::One(Plain::Return(&[N1])),
            ],
        }],
        words: &[-3],
        buffers: &[],
        ret: &[Given::Array(Table {
            kind: Kind::Int64,
            extents: &[0],
            words: &[],
        })],
        after: &[],
        fault: None,
    },
    Case {
        name: "a negative dimension before the limit",
        functions: &[Function {
            params: &[INT],
            rets: &[GRID],
            names: &[INT, GRID],
            body: &[
                Line::One(Plain::Fresh(1, &[Oper::Int(4194305), N0], Fill::Zero)),
                Line::One(Plain::Return(&[N1])),
            ],
        }],
        words: &[-1],
        buffers: &[],
        ret: &[],
        after: &[],
        fault: Some((Fault::ValueError, 1, 1)),
    },
    Case {
        name: "too many elements",
        functions: &[Function {
            params: &[INT],
            rets: &[GRID],
            names: &[INT, GRID],
            body: &[
                Line::One(Plain::Fresh(1, &[Oper::Int(4096), N0], Fill::Zero)),
                Line::One(Plain::Return(&[N1])),
            ],
        }],
        words: &[1025],
        buffers: &[],
        ret: &[],
        after: &[],
        fault: Some((Fault::SizeLimit, 1, 1)),
    },
    Case {
        name: "a column and a row",
        functions: &[Function {
            params: &[GRID, ROW],
            rets: &[GRID],
            names: &[GRID, ROW, GRID],
            body: &[
                Line::One(Plain::Map(2, MapOp::Bin(BinOp::Add), &[N0, N1])),
                Line::One(Plain::Return(&[N2])),
            ],
        }],
        words: &[],
        buffers: &[
            Table {
                kind: Kind::Int64,
                extents: &[2, 1],
                words: &[10, 20],
            },
            Table {
                kind: Kind::Int64,
                extents: &[3],
                words: &[1, 2, 3],
            },
        ],
        ret: &[Given::Array(Table {
            kind: Kind::Int64,
            extents: &[2, 3],
            words: &[11, 12, 13, 21, 22, 23],
        })],
        after: &[&[10, 20], &[1, 2, 3]],
        fault: None,
    },
    Case {
        name: "where, by each element",
        functions: &[Function {
            params: &[ROW],
            rets: &[ROW],
            names: &[ROW, MASK, ROW],
            body: &[
                Line::One(Plain::Map(1, MapOp::Bin(BinOp::Gt), &[N0, Oper::Int(2)])),
                Line::One(Plain::Map(2, MapOp::Select, &[N1, N0, Oper::Int(-1)])),
                Line::One(Plain::Return(&[N2])),
            ],
        }],
        words: &[],
        buffers: &[Table {
            kind: Kind::Int64,
            extents: &[4],
            words: &[3, 1, 4, 2],
        }],
        ret: &[Given::Array(Table {
            kind: Kind::Int64,
            extents: &[4],
            words: &[3, -1, 4, -1],
        })],
        after: &[&[3, 1, 4, 2]],
        fault: None,
    },
    Case {
        name: "an operation on one operand",
        functions: &[Function {
            params: &[ROW],
            rets: &[ROW],
            names: &[ROW, ROW],
            body: &[
                Line::One(Plain::Map(1, MapOp::Un(UnOp::Abs), &[N0])),
                Line::One(Plain::Return(&[N1])),
            ],
        }],
        words: &[],
        buffers: &[Table {
            kind: Kind::Int64,
            extents: &[3],
            words: &[-3, 0, 4],
        }],
        ret: &[Given::Array(Table {
            kind: Kind::Int64,
            extents: &[3],
            words: &[3, 0, 4],
        })],
        after: &[&[-3, 0, 4]],
        fault: None,
    },
    Case {
        name: "shapes that differ",
        functions: &[Function {
            params: &[ROW, ROW],
            rets: &[ROW],
            names: &[ROW, ROW, ROW],
            body: &[
                Line::One(Plain::Map(2, MapOp::Bin(BinOp::Mul), &[N0, N1])),
                Line::One(Plain::Return(&[N2])),
            ],
        }],
        words: &[],
        buffers: &[
            Table {
                kind: Kind::Int64,
                extents: &[2],
                words: &[1, 2],
            },
            Table {
                kind: Kind::Int64,
                extents: &[3],
                words: &[1, 2, 3],
            },
        ],
        ret: &[],
        after: &[&[1, 2], &[1, 2, 3]],
        fault: Some((Fault::ValueError, 1, 1)),
    },
    Case {
        name: "two shapes above the limit",
        functions: &[Function {
            params: &[],
            rets: &[GRID],
            names: &[GRID, GRID, GRID],
            body: &[
                Line::One(Plain::Fresh(0, &[Oper::Int(2048), Oper::Int(1)], Fill::Zero)),
                Line::One(Plain::Fresh(1, &[Oper::Int(1), Oper::Int(4096)], Fill::Zero)),
                Line::One(Plain::Map(2, MapOp::Bin(BinOp::Add), &[N0, N1])),
                Line::One(Plain::Return(&[N2])),
            ],
        }],
        words: &[],
        buffers: &[],
        ret: &[],
        after: &[],
        fault: Some((Fault::SizeLimit, 3, 1)),
    },
    Case {
        name: "three shapes that differ, of which two are above the limit",
        functions: &[Function {
            params: &[MASK],
            rets: &[GRID],
            names: &[MASK, GRID, GRID, GRID, GRID],
            body: &[
                Line::One(Plain::Fresh(1, &[Oper::Int(2048), Oper::Int(1)], Fill::Zero)),
                Line::One(Plain::Fresh(2, &[Oper::Int(1), Oper::Int(4096)], Fill::Zero)),
                Line::One(Plain::Map(3, MapOp::Select, &[N0, N1, N2])),
                Line::One(Plain::Return(&[N3])),
            ],
        }],
        words: &[],
        buffers: &[Table {
            kind: Kind::Bool,
            extents: &[3],
            words: &[1, 0, 1],
        }],
        ret: &[],
        after: &[&[1, 0, 1]],
        fault: Some((Fault::ValueError, 3, 1)),
    },
    Case {
        name: "reductions",
        functions: &[Function {
            params: &[ROW, MASK],
            rets: &[INT, INT, INT, INT, BOOL, BOOL],
            names: &[ROW, MASK, INT, INT, INT, INT, BOOL, BOOL],
            body: &[
                Line::One(Plain::Reduce(2, RedOp::Sum, 0)),
                Line::One(Plain::Reduce(3, RedOp::Prod, 0)),
                Line::One(Plain::Reduce(4, RedOp::Min, 0)),
                Line::One(Plain::Reduce(5, RedOp::Max, 0)),
                Line::One(Plain::Reduce(6, RedOp::Any, 0)),
                Line::One(Plain::Reduce(7, RedOp::All, 1)),
                Line::One(Plain::Return(&[N2, N3, N4, N5, N6, Oper::Name(7)])),
            ],
        }],
        words: &[],
        buffers: &[
            Table {
                kind: Kind::Int64,
                extents: &[4],
                words: &[2, -2, 3, -3],
            },
            Table {
                kind: Kind::Bool,
                extents: &[3],
                words: &[1, 1, 0],
            },
        ],
        ret: &[
            Given::Word(Kind::Int64, 0),
            Given::Word(Kind::Int64, 36),
            Given::Word(Kind::Int64, -3),
            Given::Word(Kind::Int64, 3),
            Given::Word(Kind::Bool, 1),
            Given::Word(Kind::Bool, 0),
        ],
        after: &[&[2, -2, 3, -3], &[1, 1, 0]],
        fault: None,
    },
    Case {
        name: "reductions of nothing",
        functions: &[Function {
            params: &[ROW],
            rets: &[INT, INT, BOOL, BOOL],
            names: &[ROW, INT, INT, BOOL, BOOL],
            body: &[
                Line::One(Plain::Reduce(1, RedOp::Sum, 0)),
                Line::One(Plain::Reduce(2, RedOp::Prod, 0)),
                Line::One(Plain::Reduce(3, RedOp::Any, 0)),
                Line::One(Plain::Reduce(4, RedOp::All, 0)),
                Line::One(Plain::Return(&[N1, N2, N3, N4])),
            ],
        }],
        words: &[],
        buffers: &[Table {
            kind: Kind::Int64,
            extents: &[0],
            words: &[],
        }],
        ret: &[
            Given::Word(Kind::Int64, 0),
            Given::Word(Kind::Int64, 1),
            Given::Word(Kind::Bool, 0),
            Given::Word(Kind::Bool, 1),
        ],
        after: &[&[]],
        fault: None,
    },
    Case {
        name: "the least of nothing",
        functions: &[Function {
            params: &[ROW],
            rets: &[INT],
            names: &[ROW, INT],
            body: &[
                Line::One(Plain::Reduce(1, RedOp::Min, 0)),
                Line::One(Plain::Return(&[N1])),
            ],
        }],
        words: &[],
        buffers: &[Table {
            kind: Kind::Int64,
            extents: &[0],
            words: &[],
        }],
        ret: &[],
        after: &[&[]],
        fault: Some((Fault::ValueError, 1, 1)),
    },
    Case {
        name: "an array is read when the kernel returns",
        functions: &[Function {
            params: &[ROW],
            rets: &[ROW],
            names: &[ROW, ROW],
            body: &[
                Line::One(Plain::Pick(1, 0, &[REST])),
                Line::One(Plain::Put(0, &[Oper::Int(1)], Oper::Int(9))),
                Line::One(Plain::Return(&[N1])),
            ],
        }],
        words: &[],
        buffers: &[Table {
            kind: Kind::Int64,
            extents: &[3],
            words: &[1, 2, 3],
        }],
        ret: &[Given::Array(Table {
            kind: Kind::Int64,
            extents: &[2],
            words: &[9, 3],
        })],
        after: &[&[1, 9, 3]],
        fault: None,
    },
];

#[test]
fn whole_arrays(rt: HostRuntime) -> Result<(), Fail> {
    assert_eq!(rt; first_wrong(rt.alloc(), &WHOLE_ARRAYS)?, "");
    Ok(())
}
