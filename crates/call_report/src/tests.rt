use crate::{BufferHead, report};
use eager_rules::{Counts, Outcome, Value};
use krn_base::{Fault, Kind, Loc, Seq};
use std::alloc::{AllocError, Global};
use std::test::Fail;
use view_places::{Array, Shape};

#[derive(Clone, Copy)]
enum Given<'a> {
    Word(Kind, i64),
    Array(Kind, Shape, &'a [i64]),
}

#[derive(Clone, Copy)]
struct Case<'a> {
    values: &'a [Given<'a>],
    fault: Option<(Fault, Loc)>,
    buffers: &'a [(&'a str, Shape, &'a [i64])],
    counts: Option<Counts>,
    text: &'a str,
}

fn row(extent: u32) -> Shape {
    Shape {
        rank: 1,
        extent: [extent, 1, 1, 1],
    }
}

fn counted(nests: u64, temps: u64, parallel: u64, serial: u64) -> Option<Counts> {
    Some(Counts {
        nests,
        temps,
        parallel,
        serial,
    })
}

fn at(line: u32, col: u32) -> Loc {
    Loc { line, col }
}

fn list<T: Copy>(alloc: Global, items: &[T]) -> Result<Seq<T>, AllocError> {
    Ok(Seq::from_vec(Vec::from_slice(alloc, items)?))
}

fn outcome_of(alloc: Global, case: &Case) -> Result<Outcome, AllocError> {
    let mut values = Vec::new(alloc);
    for given in case.values {
        values.push(match given {
            Given::Word(kind, word) => Value::Word(*kind, *word),
            Given::Array(kind, shape, words) => Value::Array(Array {
                kind: *kind,
                shape: *shape,
                words: list(alloc, words)?,
            }),
        })?;
    }
    let mut buffers = Vec::new(alloc);
    for (_, _, words) in case.buffers {
        buffers.push(list(alloc, words)?)?;
    }
    Ok(Outcome {
        ret: Seq::from_vec(values),
        buffers: Seq::from_vec(buffers),
        fault: case.fault,
    })
}

fn heads_of(alloc: Global, case: &Case) -> Result<Vec<BufferHead>, AllocError> {
    let mut heads = Vec::new(alloc);
    for (name, shape, _) in case.buffers {
        heads.push(BufferHead {
            name: list(alloc, name.as_bytes())?,
            kind: Kind::Int64,
            shape: *shape,
        })?;
    }
    Ok(heads)
}

/// Reports of finished calls, as the command prints them.
#[test]
fn prints_reports(rt: HostRuntime) -> Result<(), Fail> {
    let alloc = rt.alloc();
    let cases = [
        Case {
            values: &[Given::Array(Kind::Int64, row(3), &[2, 4, 6])],
            fault: None,
            buffers: &[("A", row(3), &[1, 2, 3])],
            counts: counted(1, 0, 0, 0),
            text: "return int64 (3,) 2 4 6\nbuffer A int64 (3,) 1 2 3\ncounts nests 1 temps 0 parallel 0 serial 0\n",
        },
        Case {
            values: &[],
            fault: Some((Fault::ValueError, at(3, 14))),
            buffers: &[("A", row(3), &[1, 2, 3]), ("B", row(2), &[1, 2])],
            counts: counted(0, 0, 0, 0),
            text: "fault ValueError 3:14\nbuffer A int64 (3,) 1 2 3\nbuffer B int64 (2,) 1 2\ncounts nests 0 temps 0 p\
                arallel 0 serial 0\n",
        },
        Case {
            values: &[],
            fault: None,
            buffers: &[("A", row(5), &[1, 2, 4, 6, 8])],
            counts: None,
            text: "return none\nbuffer A int64 (5,) 1 2 4 6 8\n",
        },
        Case {
            values: &[Given::Word(Kind::Int64, -3)],
            fault: None,
            buffers: &[("A", row(2), &[9, 2])],
            counts: counted(0, 0, 0, 0),
            text: "return int64 -3\nbuffer A int64 (2,) 9 2\ncounts nests 0 temps 0 parallel 0 serial 0\n",
        },
        Case {
            values: &[],
            fault: Some((Fault::ZeroDivisionError, at(4, 14))),
            buffers: &[("A", row(2), &[9, 2])],
            counts: counted(0, 0, 0, 0),
            text: "fault ZeroDivisionError 4:14\nbuffer A int64 (2,) 9 2\ncounts nests 0 temps 0 parallel 0 serial 0\n",
        },
        Case {
            values: &[
                Given::Word(Kind::Int64, 0),
                Given::Word(Kind::Bool, 0),
                Given::Word(Kind::Bool, 1),
            ],
            fault: None,
            buffers: &[("A", row(0), &[])],
            counts: counted(3, 0, 0, 0),
            text: "return int64 0\nreturn bool False\nreturn bool True\nbuffer A int64 (0,)\ncounts nests 3 temps 0 pa\
                rallel 0 serial 0\n",
        },
        Case {
            values: &[Given::Array(
                Kind::Int64,
                Shape {
                    rank: 2,
                    extent: [2, 3, 1, 1],
                },
                &[1, 2, 3, 2, 4, 6],
            )],
            fault: None,
            buffers: &[
                (
                    "A",
                    Shape {
                        rank: 2,
                        extent: [2, 1, 1, 1],
                    },
                    &[1, 2],
                ),
                ("B", row(3), &[1, 2, 3]),
            ],
            counts: counted(1, 0, 0, 0),
            text: "return int64 (2, 3) 1 2 3 2 4 6\nbuffer A int64 (2, 1) 1 2\nbuffer B int64 (3,) 1 2 3\ncounts nests\
                \x201 temps 0 parallel 0 serial 0\n",
        },
        Case {
            values: &[Given::Array(
                Kind::Bool,
                Shape {
                    rank: 4,
                    extent: [1, 2, 1, 1],
                },
                &[1, 0],
            )],
            fault: None,
            buffers: &[],
            counts: counted(4, 3, 2, 1),
            text: "return bool (1, 2, 1, 1) True False\ncounts nests 4 temps 3 parallel 2 serial 1\n",
        },
    ];
    for case in cases {
        let heads = heads_of(alloc, &case)?;
        let outcome = outcome_of(alloc, &case)?;
        assert_eq!(rt; heads.len(), outcome.buffers.as_slice().len());
        let text = report(alloc, heads.as_slice(), &outcome, case.counts)?;
        assert_eq!(rt; text.as_slice(), case.text.as_bytes(), "{}", case.text);
    }
    Ok(())
}
