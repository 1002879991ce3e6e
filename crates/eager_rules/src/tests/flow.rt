// Scalars, loops, branches and own calls.
use super::cases::{
    BOOL, Case, Function, Given, INT, Line, N0, N1, N2, N3, N4, N5, N6, Plain, ROW, Table,
    first_wrong,
};
use crate::{Fill, MapOp, Oper, RedOp, WordOp};
use krn_base::{BinOp, Fault, Kind, UnOp};
use std::test::Fail;

static SCALAR_STATEMENTS: [Case; 6] = [
    Case {
        name: "scalar operations",
        functions: &[Function {
            params: &[INT, INT],
            rets: &[INT, INT, INT, BOOL, BOOL],
            names: &[INT, INT, INT, INT, INT, INT, INT, BOOL, BOOL, INT],
            body: &[
                Line::One(Plain::Word(2, WordOp::Bin(BinOp::FloorDiv), &[N0, N1])),
                Line::One(Plain::Word(3, WordOp::Bin(BinOp::Mod), &[N0, N1])),
                Line::One(Plain::Word(4, WordOp::Bin(BinOp::Add), &[N2, N3])),
                Line::One(Plain::Word(5, WordOp::Un(UnOp::Neg), &[N4])),
                Line::One(Plain::Word(6, WordOp::Un(UnOp::Pow(3)), &[N5])),
                Line::One(Plain::Word(7, WordOp::Bin(BinOp::Lt), &[N0, N1])),
                Line::One(Plain::Word(8, WordOp::Un(UnOp::Flip), &[Oper::Name(7)])),
                Line::One(Plain::Word(9, WordOp::Move, &[N6])),
                Line::One(Plain::Return(&[N2, N3, Oper::Name(9), Oper::Name(7), Oper::Name(8)])),
            ],
        }],
        words: &[-7, 2],
        buffers: &[],
        ret: &[
            Given::Word(Kind::Int64, -4),
            Given::Word(Kind::Int64, 1),
            Given::Word(Kind::Int64, 27),
            Given::Word(Kind::Bool, 1),
            Given::Word(Kind::Bool, 0),
        ],
        after: &[],
        fault: None,
    },
    Case {
        name: "a sum that wraps",
        functions: &[Function {
            params: &[INT],
            rets: &[INT],
            names: &[INT, INT],
            body: &[
                Line::One(Plain::Word(1, WordOp::Bin(BinOp::Add), &[N0, Oper::Int(1)])),
                Line::One(Plain::Return(&[N1])),
            ],
        }],
        words: &[9223372036854775807],
        buffers: &[],
        ret: &[Given::Word(Kind::Int64, -9223372036854775808)],
        after: &[],
        fault: None,
    },
    Case {
        name: "a division by 0 keeps what was stored",
        functions: &[Function {
            params: &[INT, ROW],
            rets: &[INT],
            names: &[INT, ROW, INT],
            body: &[
                Line::One(Plain::Put(1, &[Oper::Int(0)], Oper::Int(9))),
                Line::One(Plain::Word(2, WordOp::Bin(BinOp::FloorDiv), &[Oper::Int(1), N0])),
                Line::One(Plain::Return(&[N2])),
            ],
        }],
        words: &[0],
        buffers: &[Table {
            kind: Kind::Int64,
            extents: &[2],
            words: &[1, 2],
        }],
        ret: &[],
        after: &[&[9, 2]],
        fault: Some((Fault::ZeroDivisionError, 2, 1)),
    },
    Case {
        name: "a negative shift",
        functions: &[Function {
            params: &[INT],
            rets: &[INT],
            names: &[INT, INT],
            body: &[
                Line::One(Plain::Word(1, WordOp::Bin(BinOp::Shl), &[Oper::Int(1), N0])),
                Line::One(Plain::Return(&[N1])),
            ],
        }],
        words: &[-1],
        buffers: &[],
        ret: &[],
        after: &[],
        fault: Some((Fault::ValueError, 1, 1)),
    },
    Case {
        name: "literals",
        functions: &[Function {
            params: &[],
            rets: &[BOOL, INT],
            names: &[],
            body: &[Line::One(Plain::Return(&[Oper::Truth(true), Oper::Int(-5)]))],
        }],
        words: &[],
        buffers: &[],
        ret: &[Given::Word(Kind::Bool, 1), Given::Word(Kind::Int64, -5)],
        after: &[],
        fault: None,
    },
    Case {
        name: "no values",
        functions: &[Function {
            params: &[INT],
            rets: &[],
            names: &[INT],
            body: &[],
        }],
        words: &[3],
        buffers: &[],
        ret: &[],
        after: &[],
        fault: None,
    },
];

#[test]
fn scalar_statements(rt: HostRuntime) -> Result<(), Fail> {
    assert_eq!(rt; first_wrong(rt.alloc(), &SCALAR_STATEMENTS)?, "");
    Ok(())
}

static LOOPS_AND_BRANCHES: [Case; 11] = [
    Case {
        name: "a range by 2",
        functions: &[Function {
            params: &[INT],
            rets: &[INT, INT],
            names: &[INT, INT, INT],
            body: &[
                Line::One(Plain::Word(1, WordOp::Move, &[N0])),
                Line::One(Plain::Word(2, WordOp::Move, &[Oper::Int(0)])),
                Line::For(
                    1,
                    [Oper::Int(0), Oper::Int(5), Oper::Int(2)],
                    &[Plain::Word(2, WordOp::Bin(BinOp::Add), &[N2, N1])],
                ),
                Line::One(Plain::Return(&[N1, N2])),
            ],
        }],
        words: &[7],
        buffers: &[],
        ret: &[Given::Word(Kind::Int64, 4), Given::Word(Kind::Int64, 6)],
        after: &[],
        fault: None,
    },
    Case {
        name: "a range down",
        functions: &[Function {
            params: &[INT],
            rets: &[INT, INT],
            names: &[INT, INT, INT],
            body: &[
                Line::One(Plain::Word(1, WordOp::Move, &[N0])),
                Line::One(Plain::Word(2, WordOp::Move, &[Oper::Int(0)])),
                Line::For(
                    1,
                    [Oper::Int(5), Oper::Int(0), Oper::Int(-2)],
                    &[Plain::Word(2, WordOp::Bin(BinOp::Add), &[N2, N1])],
                ),
                Line::One(Plain::Return(&[N1, N2])),
            ],
        }],
        words: &[7],
        buffers: &[],
        ret: &[Given::Word(Kind::Int64, 1), Given::Word(Kind::Int64, 9)],
        after: &[],
        fault: None,
    },
    Case {
        name: "an empty range binds nothing",
        functions: &[Function {
            params: &[INT],
            rets: &[INT, INT],
            names: &[INT, INT, INT],
            body: &[
                Line::One(Plain::Word(1, WordOp::Move, &[N0])),
                Line::One(Plain::Word(2, WordOp::Move, &[Oper::Int(0)])),
                Line::For(
                    1,
                    [Oper::Int(3), Oper::Int(3), Oper::Int(1)],
                    &[Plain::Word(2, WordOp::Bin(BinOp::Add), &[N2, N1])],
                ),
                Line::One(Plain::Return(&[N1, N2])),
            ],
        }],
        words: &[7],
        buffers: &[],
        ret: &[Given::Word(Kind::Int64, 7), Given::Word(Kind::Int64, 0)],
        after: &[],
        fault: None,
    },
    Case {
        name: "a range away from its end",
        functions: &[Function {
            params: &[INT],
            rets: &[INT, INT],
            names: &[INT, INT, INT],
            body: &[
                Line::One(Plain::Word(1, WordOp::Move, &[N0])),
                Line::One(Plain::Word(2, WordOp::Move, &[Oper::Int(0)])),
                Line::For(
                    1,
                    [Oper::Int(0), Oper::Int(3), Oper::Int(-1)],
                    &[Plain::Word(2, WordOp::Bin(BinOp::Add), &[N2, N1])],
                ),
                Line::One(Plain::Return(&[N1, N2])),
            ],
        }],
        words: &[7],
        buffers: &[],
        ret: &[Given::Word(Kind::Int64, 7), Given::Word(Kind::Int64, 0)],
        after: &[],
        fault: None,
    },
    Case {
        name: "a step of 0",
        functions: &[Function {
            params: &[INT],
            rets: &[INT, INT],
            names: &[INT, INT, INT],
            body: &[
                Line::One(Plain::Word(1, WordOp::Move, &[N0])),
                Line::One(Plain::Word(2, WordOp::Move, &[Oper::Int(0)])),
                Line::For(
                    1,
                    [Oper::Int(0), Oper::Int(3), Oper::Int(0)],
                    &[Plain::Word(2, WordOp::Bin(BinOp::Add), &[N2, N1])],
                ),
                Line::One(Plain::Return(&[N1, N2])),
            ],
        }],
        words: &[7],
        buffers: &[],
        ret: &[],
        after: &[],
        fault: Some((Fault::ValueError, 3, 1)),
    },
    Case {
        name: "a range up to the greatest word",
        functions: &[Function {
            params: &[INT],
            rets: &[INT, INT],
            names: &[INT, INT, INT],
            body: &[
                Line::One(Plain::Word(1, WordOp::Move, &[N0])),
                Line::One(Plain::Word(2, WordOp::Move, &[Oper::Int(0)])),
                Line::For(
                    1,
                    [
                        Oper::Int(9223372036854775805),
                        Oper::Int(9223372036854775807),
                        Oper::Int(2),
                    ],
                    &[Plain::Word(2, WordOp::Bin(BinOp::Add), &[N2, N1])],
                ),
                Line::One(Plain::Return(&[N1, N2])),
            ],
        }],
        words: &[7],
        buffers: &[],
        ret: &[
            Given::Word(Kind::Int64, 9223372036854775805),
            Given::Word(Kind::Int64, 9223372036854775805),
        ],
        after: &[],
        fault: None,
    },
    Case {
        name: "the first part",
        functions: &[Function {
            params: &[BOOL],
            rets: &[INT],
            names: &[BOOL, INT],
            body: &[
                Line::If(
                    N0,
                    &[Plain::Word(1, WordOp::Move, &[Oper::Int(1)])],
                    &[Plain::Word(1, WordOp::Move, &[Oper::Int(2)])],
                ),
                Line::One(Plain::Return(&[N1])),
            ],
        }],
        words: &[1],
        buffers: &[],
        ret: &[Given::Word(Kind::Int64, 1)],
        after: &[],
        fault: None,
    },
    Case {
        name: "the second part",
        functions: &[Function {
            params: &[BOOL],
            rets: &[INT],
            names: &[BOOL, INT],
            body: &[
                Line::If(
                    N0,
                    &[Plain::Word(1, WordOp::Move, &[Oper::Int(1)])],
                    &[Plain::Word(1, WordOp::Move, &[Oper::Int(2)])],
                ),
                Line::One(Plain::Return(&[N1])),
            ],
        }],
        words: &[0],
        buffers: &[],
        ret: &[Given::Word(Kind::Int64, 2)],
        after: &[],
        fault: None,
    },
    Case {
        name: "a part that returns",
        functions: &[Function {
            params: &[BOOL],
            rets: &[INT],
            names: &[BOOL],
            body: &[
                Line::If(N0, &[Plain::Return(&[Oper::Int(1)])], &[]),
                Line::One(Plain::Return(&[Oper::Int(2)])),
            ],
        }],
        words: &[1],
        buffers: &[],
        ret: &[Given::Word(Kind::Int64, 1)],
        after: &[],
        fault: None,
    },
    Case {
        name: "a fault in a turn",
        functions: &[Function {
            params: &[ROW],
            rets: &[],
            names: &[ROW, INT, INT],
            body: &[Line::For(
                1,
                [Oper::Int(0), Oper::Int(3), Oper::Int(1)],
                &[
                    Plain::Word(2, WordOp::Bin(BinOp::FloorDiv), &[Oper::Int(6), N1]),
                    Plain::Put(0, &[N1], N2),
                ],
            )],
        }],
        words: &[],
        buffers: &[Table {
            kind: Kind::Int64,
            extents: &[3],
            words: &[1, 2, 3],
        }],
        ret: &[],
        after: &[&[1, 2, 3]],
        fault: Some((Fault::ZeroDivisionError, 1, 2)),
    },
    Case {
        name: "a fault in a later turn",
        functions: &[Function {
            params: &[ROW],
            rets: &[],
            names: &[ROW, INT],
            body: &[Line::For(
                1,
                [Oper::Int(0), Oper::Int(3), Oper::Int(1)],
                &[Plain::Put(0, &[N1], Oper::Int(7))],
            )],
        }],
        words: &[],
        buffers: &[Table {
            kind: Kind::Int64,
            extents: &[2],
            words: &[1, 2],
        }],
        ret: &[],
        after: &[&[7, 7]],
        fault: Some((Fault::IndexError, 1, 2)),
    },
];

#[test]
fn loops_and_branches(rt: HostRuntime) -> Result<(), Fail> {
    assert_eq!(rt; first_wrong(rt.alloc(), &LOOPS_AND_BRANCHES)?, "");
    Ok(())
}

static OWN_CALLS: [Case; 7] = [
    Case {
        name: "a callee stores into its argument",
        functions: &[
            Function {
                params: &[ROW],
                rets: &[INT],
                names: &[ROW, INT],
                body: &[
                    Line::One(Plain::Call(&[1], 1, &[N0])),
                    Line::One(Plain::Return(&[N1])),
                ],
            },
            Function {
                params: &[ROW],
                rets: &[INT],
                names: &[ROW, ROW, INT],
                body: &[
                    Line::One(Plain::Map(1, MapOp::Bin(BinOp::Mul), &[N0, Oper::Int(2)])),
                    Line::One(Plain::Store(0, N1)),
                    Line::One(Plain::Reduce(2, RedOp::Sum, 0)),
                    Line::One(Plain::Return(&[N2])),
                ],
            },
        ],
        words: &[],
        buffers: &[Table {
            kind: Kind::Int64,
            extents: &[3],
            words: &[1, 2, 3],
        }],
        ret: &[Given::Word(Kind::Int64, 12)],
        after: &[&[2, 4, 6]],
        fault: None,
    },
    Case {
        name: "values that are dropped",
        functions: &[
            Function {
                params: &[ROW],
                rets: &[INT],
                names: &[ROW, INT],
                body: &[
                    Line::One(Plain::Word(1, WordOp::Move, &[Oper::Int(5)])),
                    Line::One(Plain::Call(&[], 1, &[N0])),
                    Line::One(Plain::Return(&[N1])),
                ],
            },
            Function {
                params: &[ROW],
                rets: &[INT],
                names: &[ROW, ROW, INT],
                body: &[
                    Line::One(Plain::Map(1, MapOp::Bin(BinOp::Mul), &[N0, Oper::Int(2)])),
                    Line::One(Plain::Store(0, N1)),
                    Line::One(Plain::Reduce(2, RedOp::Sum, 0)),
                    Line::One(Plain::Return(&[N2])),
                ],
            },
        ],
        words: &[],
        buffers: &[Table {
            kind: Kind::Int64,
            extents: &[3],
            words: &[1, 2, 3],
        }],
        ret: &[Given::Word(Kind::Int64, 5)],
        after: &[&[2, 4, 6]],
        fault: None,
    },
    Case {
        name: "two values, and names of the callee's own",
        functions: &[
            Function {
                params: &[INT, INT],
                rets: &[INT, INT],
                names: &[INT, INT, INT, INT],
                body: &[
                    Line::One(Plain::Call(&[2, 3], 1, &[N1, N0])),
                    Line::One(Plain::Return(&[N2, N3])),
                ],
            },
            Function {
                params: &[INT, INT],
                rets: &[INT, INT],
                names: &[INT, INT, INT, INT],
                body: &[
                    Line::One(Plain::Word(2, WordOp::Bin(BinOp::Sub), &[N0, N1])),
                    Line::One(Plain::Word(3, WordOp::Bin(BinOp::Add), &[N0, N1])),
                    Line::One(Plain::Return(&[N2, N3])),
                ],
            },
        ],
        words: &[10, 3],
        buffers: &[],
        ret: &[Given::Word(Kind::Int64, -7), Given::Word(Kind::Int64, 13)],
        after: &[],
        fault: None,
    },
    Case {
        name: "a fault in a callee",
        functions: &[
            Function {
                params: &[ROW],
                rets: &[],
                names: &[ROW],
                body: &[
                    Line::One(Plain::Call(&[], 1, &[N0])),
                    Line::One(Plain::Put(0, &[Oper::Int(1)], Oper::Int(9))),
                ],
            },
            Function {
                params: &[ROW],
                rets: &[],
                names: &[ROW],
                body: &[
                    Line::One(Plain::Put(0, &[Oper::Int(0)], Oper::Int(8))),
                    Line::One(Plain::Put(0, &[Oper::Int(5)], Oper::Int(9))),
                ],
            },
        ],
        words: &[],
        buffers: &[Table {
            kind: Kind::Int64,
            extents: &[2],
            words: &[1, 2],
        }],
        ret: &[],
        after: &[&[8, 2]],
        fault: Some((Fault::IndexError, 2, 1)),
    },
    Case {
        name: "an array that a callee makes",
        functions: &[
            Function {
                params: &[INT],
                rets: &[ROW],
                names: &[INT, ROW, ROW],
                body: &[
                    Line::One(Plain::Call(&[1], 1, &[N0])),
                    Line::One(Plain::Call(&[2], 1, &[N0])),
                    Line::One(Plain::Put(2, &[Oper::Int(0)], Oper::Int(9))),
                    Line::One(Plain::Return(&[N1])),
                ],
            },
            Function {
                params: &[INT],
                rets: &[ROW],
                names: &[INT, ROW],
                body: &[
                    Line::One(Plain::Fresh(1, &[N0], Fill::Count)),
                    Line::One(Plain::Return(&[N1])),
                ],
            },
        ],
        words: &[3],
        buffers: &[],
        ret: &[Given::Array(Table {
            kind: Kind::Int64,
            extents: &[3],
            words: &[0, 1, 2],
        })],
        after: &[],
        fault: None,
    },
    Case {
        name: "arrays that a callee exchanges",
        functions: &[
            Function {
                params: &[INT],
                rets: &[ROW, ROW],
                names: &[INT, ROW, ROW],
                body: &[
                    Line::One(Plain::Fresh(1, &[N0], Fill::One)),
                    Line::One(Plain::Fresh(2, &[Oper::Int(2)], Fill::Count)),
                    Line::One(Plain::Call(&[1, 2], 1, &[N1, N2])),
                    Line::One(Plain::Return(&[N1, N2])),
                ],
            },
            Function {
                params: &[ROW, ROW],
                rets: &[ROW, ROW],
                names: &[ROW, ROW],
                body: &[Line::One(Plain::Return(&[N1, N0]))],
            },
        ],
        words: &[3],
        buffers: &[],
        ret: &[
            Given::Array(Table {
                kind: Kind::Int64,
                extents: &[2],
                words: &[0, 1],
            }),
            Given::Array(Table {
                kind: Kind::Int64,
                extents: &[3],
                words: &[1, 1, 1],
            }),
        ],
        after: &[],
        fault: None,
    },
    Case {
        name: "a view whose array has no name any more",
        functions: &[Function {
            params: &[INT],
            rets: &[INT, INT],
            names: &[INT, ROW, ROW, INT, INT],
            body: &[
                Line::One(Plain::Fresh(1, &[N0], Fill::Count)),
                Line::One(Plain::Flip(2, 1)),
                Line::One(Plain::Fresh(1, &[N0], Fill::One)),
                Line::One(Plain::Reduce(3, RedOp::Sum, 2)),
                Line::One(Plain::Alias(2, 1)),
                Line::One(Plain::Reduce(4, RedOp::Sum, 2)),
                Line::One(Plain::Return(&[N3, N4])),
            ],
        }],
        words: &[5],
        buffers: &[],
        ret: &[Given::Word(Kind::Int64, 10), Given::Word(Kind::Int64, 5)],
        after: &[],
        fault: None,
    },
];

#[test]
fn own_calls(rt: HostRuntime) -> Result<(), Fail> {
    assert_eq!(rt; first_wrong(rt.alloc(), &OWN_CALLS)?, "");
    Ok(())
}
