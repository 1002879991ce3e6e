use crate::{
    Fill, MapOp, Operand, RedOp, Subscript, constant, element_place, elements, fill, flip,
    fresh_shape, map_elements, operand_elements, pick, put_words, reduce, set_word, shape_of,
    word_at,
};
use krn_base::{BinOp, Fault, NoMemory, Seq};
use std::alloc::Global;
use std::test::Fail;
use view_places::{Shape, Slice, View};

// The sum of two arrays, or none where the shapes don't broadcast.
fn sum_of(
    alloc: Global,
    a: View,
    b: View,
    buffers: &[Seq<i64>],
) -> Result<Option<Seq<i64>>, NoMemory> {
    let operands = [Operand::Array(a), Operand::Array(b)];
    match shape_of(alloc, &operands)? {
        Ok(shape) => Ok(Some(map_elements(
            alloc,
            MapOp::Bin(BinOp::Add),
            &shape,
            &operands,
            buffers,
        )?)),
        Err(_) => Ok(None),
    }
}

// Puts one word at each place of an array.
fn set_all(
    alloc: Global,
    target: &View,
    word: i64,
    buffers: &mut Seq<Seq<i64>>,
) -> Result<(), NoMemory> {
    let shape = target.shape();
    let words = operand_elements(alloc, &shape, &Operand::Word(word), buffers.as_slice())?;
    target.places_are_distinct();
    put_words(buffers, target, words.as_slice());
    Ok(())
}

fn backwards() -> Subscript {
    Subscript::Cut(Slice {
        start: None,
        stop: None,
        step: Some(-1),
    })
}

#[test]
fn small_arrays(rt: HostRuntime) -> Result<(), Fail> {
    let alloc = rt.alloc();
    let mut buffers = Seq::new(alloc);
    buffers.push(fill(alloc, Fill::Count, 6)?)?;
    buffers.push(constant(alloc, 5, 2)?)?;
    assert_eq!(rt; fresh_shape(Fill::One, &[2, -1]), Err(Fault::ValueError));
    assert_eq!(rt;
        fresh_shape(Fill::Zero, &[4_194_305]),
        Err(Fault::SizeLimit)
    );
    let table = View::whole(
        0,
        &Shape {
            rank: 2,
            extent: [2, 3, 1, 1],
        },
    );
    assert_eq!(rt; element_place(&table, &[-1, 1]), Ok(4));
    assert_eq!(rt; element_place(&table, &[2, 0]), Err(Fault::IndexError));
    assert_eq!(rt; element_place(&table, &[0]), Err(Fault::IndexError));
    let turned = elements(alloc, &flip(&table), buffers.as_slice())?;
    assert_eq!(rt; turned.as_slice(), &[0, 3, 1, 4, 2, 5][..]);
    let Ok(last) = pick(&table, &[backwards(), Subscript::At(2)]) else {
        return Err(Fail::from(NoMemory));
    };
    let column = elements(alloc, &last, buffers.as_slice())?;
    assert_eq!(rt; column.as_slice(), &[5, 2][..]);
    let least = reduce(alloc, RedOp::Min, &last, buffers.as_slice())?;
    assert_eq!(rt; least, Ok(2));
    set_word(&mut buffers, 1, 1, 0);
    assert_eq!(rt; word_at(buffers.as_slice(), 1, 1), 0);
    set_all(alloc, &last, 9, &mut buffers)?;
    let after = elements(alloc, &table, buffers.as_slice())?;
    assert_eq!(rt; after.as_slice(), &[0, 1, 9, 3, 4, 9][..]);
    Ok(())
}

#[test]
fn thousands_of_elements(rt: HostRuntime) -> Result<(), Fail> {
    let alloc = rt.alloc();
    let mut buffers = Seq::new(alloc);
    buffers.push(fill(alloc, Fill::Count, 4200)?)?;
    let table = View::whole(
        0,
        &Shape {
            rank: 2,
            extent: [60, 70, 1, 1],
        },
    );
    let Ok(row) = pick(&table, &[Subscript::At(0), backwards()]) else {
        return Err(Fail::from(NoMemory));
    };
    // Element (i, j) is 70 i + j + 69 - j.
    let Some(sums) = sum_of(alloc, table, row, buffers.as_slice())? else {
        return Err(Fail::from(NoMemory));
    };
    for (k, sum) in sums.as_slice().iter().enumerate() {
        assert_eq!(rt; *sum, (k as i64) / 70 * 70 + 69);
    }
    assert_eq!(rt; sums.len(), 4200);
    let total = reduce(alloc, RedOp::Sum, &flip(&table), buffers.as_slice())?;
    assert_eq!(rt; total, Ok(8_817_900));
    let ones = fill(alloc, Fill::One, 4200)?;
    assert_eq!(rt; ones.as_slice().last(), Some(&1));
    set_all(alloc, &table, 3, &mut buffers)?;
    let product = reduce(alloc, RedOp::All, &table, buffers.as_slice())?;
    assert_eq!(rt; product, Ok(1));
    assert_eq!(rt; word_at(buffers.as_slice(), 0, 4199), 3);
    Ok(())
}
