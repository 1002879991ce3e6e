use crate::bank::Bank;
use crate::nest::nest;
use crate::nested::Nested;
use krn_base::{BinOp, NoMemory, Seq};
use loop_prog::{Oper, TemplateStep};
use std::alloc::Global;
use std::test::Fail;
use view_places::{Shape, Slice, View};

fn list<T: Copy>(alloc: Global, items: &[T]) -> Result<Seq<T>, NoMemory> {
    let mut made = Seq::new(alloc);
    for item in items {
        made.push(*item)?;
    }
    Ok(made)
}

// A buffer of six words.
fn whole() -> View {
    let shape = Shape {
        rank: 1,
        extent: [6, 1, 1, 1],
    };
    View::whole(0, &shape)
}

// A slice of it; the whole where there is none.
fn cut(start: Option<i64>, stop: Option<i64>, step: Option<i64>) -> View {
    let all = whole();
    if all.rank == 0 {
        return all;
    }
    match all.slice(0, Slice { start, stop, step }) {
        Ok(part) => part,
        Err(_) => all,
    }
}

// Twice the second view, stored into the first: how it ended, and the buffer behind it.
fn doubled(alloc: Global, a: View, b: View) -> Result<(Nested, Seq<i64>), NoMemory> {
    let mut buffers = Seq::new(alloc);
    buffers.push(list(alloc, &[1, 2, 3, 4, 5, 6])?)?;
    let mut bank = Bank {
        words: Seq::new(alloc),
        views: list(alloc, &[Some(a), Some(b)])?,
        buffers,
        given: 1,
    };
    let steps = [
        TemplateStep::Leaf(1),
        TemplateStep::Word(Oper::Int(2)),
        TemplateStep::Bin(BinOp::Mul),
    ];
    let ended = nest(alloc, 0, &steps, &mut bank)?;
    let mut last = Seq::new(alloc);
    for words in bank.buffers.as_slice() {
        last = words.try_copy()?;
    }
    Ok((ended, last))
}

#[test]
fn leaf_behind_the_target(rt: HostRuntime) -> Result<(), Fail> {
    let alloc = rt.alloc();
    let a = cut(Some(1), Some(5), None);
    let b = cut(Some(0), Some(4), None);
    let (ended, words) = doubled(alloc, a, b)?;
    assert_eq!(rt; ended, Nested::Temporary);
    assert_eq!(rt; words, list(alloc, &[1, 2, 4, 6, 8, 6])?);
    Ok(())
}

#[test]
fn leaf_ahead_of_the_target(rt: HostRuntime) -> Result<(), Fail> {
    let alloc = rt.alloc();
    let a = cut(Some(0), Some(4), None);
    let b = cut(Some(1), Some(5), None);
    let (ended, words) = doubled(alloc, a, b)?;
    assert_eq!(rt; ended, Nested::Direct);
    assert_eq!(rt; words, list(alloc, &[4, 6, 8, 10, 5, 6])?);
    Ok(())
}

#[test]
fn leaf_between_the_target(rt: HostRuntime) -> Result<(), Fail> {
    let alloc = rt.alloc();
    let a = cut(Some(0), Some(6), Some(2));
    let b = cut(Some(1), Some(6), Some(2));
    let (ended, words) = doubled(alloc, a, b)?;
    assert_eq!(rt; ended, Nested::Direct);
    assert_eq!(rt; words, list(alloc, &[4, 2, 8, 4, 12, 6])?);
    Ok(())
}

#[test]
fn target_turned_round(rt: HostRuntime) -> Result<(), Fail> {
    let alloc = rt.alloc();
    let (ended, words) = doubled(alloc, cut(None, None, Some(-1)), whole())?;
    assert_eq!(rt; ended, Nested::Temporary);
    assert_eq!(rt; words, list(alloc, &[12, 10, 8, 6, 4, 2])?);
    Ok(())
}

#[test]
fn shapes_that_differ(rt: HostRuntime) -> Result<(), Fail> {
    let alloc = rt.alloc();
    let (ended, words) = doubled(alloc, whole(), cut(Some(0), Some(2), None))?;
    assert_eq!(rt; ended, Nested::Unfit);
    assert_eq!(rt; words, list(alloc, &[1, 2, 3, 4, 5, 6])?);
    Ok(())
}
