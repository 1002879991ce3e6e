ghost use Rattle.std.specs.Prelude.{◌≡◌, ◌<◌, ◌^◌, IfOk, length, vec_len};

use crate::{BindStop, KernelHead, bind, read_integer};
use eager_rules::Arg;
use host_io::{MemFiles, Slot};
use krn_base::{Kind, ParamType, Seq, Text};
use std::alloc::{AllocError, Global};
use std::test::Fail;

/// What is an integer here and what isn't: Python's decimal literals with `-` in front, within 64 bits.
#[test]
fn reads_integers(rt: HostRuntime) {
    let rows = [
        ("0", Some(0)),
        ("-0", Some(0)),
        ("7", Some(7)),
        ("-7", Some(-7)),
        ("1234567890", Some(1_234_567_890)),
        ("9223372036854775807", Some(9_223_372_036_854_775_807)),
        ("-9223372036854775808", Some(-9_223_372_036_854_775_807 - 1)),
        ("9223372036854775808", None),
        ("-9223372036854775809", None),
        ("99999999999999999999999", None),
        ("", None),
        ("-", None),
        ("--1", None),
        ("+1", None),
        ("00", None),
        ("-00", None),
        ("01", None),
        ("-01", None),
        ("1_0", None),
        (" 1", None),
        ("1 ", None),
        ("1.0", None),
        ("0x1", None),
        ("\u{0661}", None),
    ];
    for (text, want) in rows {
        assert_eq!(rt; read_integer(text), want, "{text}");
    }
}

fn text(alloc: Global, name: &str) -> Result<Text, AllocError>
    ensures { IfOk result (λ text. text ≡ name.now) }
{
    Ok(Seq::from_vec(Vec::from_slice(alloc, name.as_bytes())?))
}

fn head(
    alloc: Global,
    name: &str,
    first: ParamType,
    second: ParamType,
) -> Result<KernelHead, AllocError> {
    let a = (text(alloc, "a")?, first);
    let b = (text(alloc, "b")?, second);
    Ok(KernelHead {
        name: text(alloc, name)?,
        params: Seq::from_vec(vec![in alloc; a, b]?),
    })
}

/// Kernels of parameters `a` and `b`: one of several signatures, one of matrices, one of rank 4
/// and one of words, whose first signature stands twice.
fn heads(alloc: Global) -> Result<Vec<KernelHead>, AllocError>
    ensures { IfOk result (λ kernels. vec_len kernels ≡ 9) }
{
    let int = ParamType::Scalar(Kind::Int64);
    let truth = ParamType::Scalar(Kind::Bool);
    let row = ParamType::Flat(Kind::Int64, 1);
    let strided = ParamType::Strided(Kind::Int64, 1);
    let first = head(alloc, "one", int, row)?;
    let second = head(alloc, "one", truth, row)?;
    let third = head(alloc, "one", row, strided)?;
    let fourth = head(alloc, "one", strided, ParamType::Flat(Kind::Int64, 2))?;
    let two = head(
        alloc,
        "two",
        ParamType::Flat(Kind::Int64, 2),
        ParamType::Strided(Kind::Int64, 2),
    )?;
    let four = head(
        alloc,
        "four",
        ParamType::Strided(Kind::Bool, 1),
        ParamType::Flat(Kind::Int64, 4),
    )?;
    let fifth = head(alloc, "same", int, truth)?;
    let again = head(alloc, "same", int, truth)?;
    let truths = head(alloc, "same", truth, truth)?;
    Ok(vec![in alloc;
        first, second, third, fourth, two, four, fifth, again, truths,
    ]?)
}

fn make_slot(alloc: Global, name: &str, bytes: Vec<u8>) -> Result<Slot, AllocError>
    ensures { IfOk result (λ slot. slot.name ≡ name.now) }
{
    Ok(Slot {
        name: text(alloc, name)?,
        bytes,
        there: true,
        room: 0,
    })
}

/// What stands before the 5000 integers of a row.
const ROW: &[u8] =
    b"\x93NUMPY\x01\x00\x35\x00{'descr':'<i8','fortran_order':False,'shape':(5000,)}";

/// A matrix of truth values whose columns stand one after another.
const MATRIX: &[u8] =
    b"\x93NUMPY\x01\x00\x32\x00{'descr':'|b1','fortran_order':True,'shape':(2,3)}\x01\x00\x00\x02\x00\x00";

/// A row of 5000 integers under `row.npy`, a matrix of truth values under `a=b`, a file that is cut off under `cut`,
/// and one of so many zeros under `zeros`. The loads with these numbers fail.
fn files(alloc: Global, zeros: usize, fails: &[u64]) -> Result<MemFiles, Fail> {
    let mut bytes = Vec::from_slice(alloc, ROW)?;
    let elements = vec![in alloc; 0; 40_000]?;
    bytes.extend_from_slice(elements.as_slice())?;
    let row = make_slot(alloc, "row.npy", bytes)?;
    let matrix = make_slot(alloc, "a=b", Vec::from_slice(alloc, MATRIX)?)?;
    let cut = make_slot(alloc, "cut", Vec::from_slice(alloc, ROW)?)?;
    let long = make_slot(alloc, "zeros", vec![in alloc; 0; zeros]?)?;
    let slots = vec![in alloc; row, matrix, cut, long]?;
    Ok(MemFiles::new(alloc, slots, Vec::from_slice(alloc, fails)?)?)
}

fn words(alloc: Global, line: &str) -> Result<Vec<&str>, AllocError> {
    let mut items = Vec::new(alloc);
    for word in line.split_whitespace() {
        items.push(word)?;
    }
    Ok(items)
}

/// The kernel's place, or why there is no call.
fn outcome(
    alloc: Global,
    kernels: &[KernelHead],
    kernel: &str,
    line: &str,
    mut files: MemFiles,
) -> Result<Result<u32, BindStop>, Fail>
    requires { length kernels.now < 2 ^ 32 }
{
    let items = words(alloc, line)?;
    if items.len() > 1000 {
        return Err("many".into());
    }
    Ok(bind(alloc, kernels, kernel, items.as_slice(), &mut files).map(|bound| bound.kernel))
}

/// Sixteen buffers.
const MANY: &str =
    "buf:B0= npy:B1=a=b buf:B2= buf:B3= buf:B4= buf:B5= buf:B6= buf:B7= buf:B8= buf:B9= buf:B10= buf:B11= buf:B12= \
     buf:B13= buf:B14= buf:B15=";

/// Calls that bind, with the first signature that fits.
#[test]
fn binds_the_first_that_fits(rt: HostRuntime) -> Result<(), Fail> {
    let alloc = rt.alloc();
    let kernels = heads(alloc)?;
    let full = format!(in alloc; "{MANY} a=5 b=@B15")?;
    let rows = [
        ("one", "a=-0 b=@A buf:A=1,2", 0),
        ("one", "b=@A buf:A=1,2 a=True", 1),
        ("one", "buf:A=1,2,3 a=@A b=@A[::-1]", 2),
        ("one", "buf:A(2,3)=1,2,3,4,5,6 a=@A[:,1] b=@A", 3),
        ("one", "buf:A(2,3)=1,2,3,4,5,6 a=@A[1] b=@A[-1,0:2]", 2),
        ("one", "buf:A(0,3)= a=@A[:,1] b=@A[:,2]", 2),
        ("one", full.as_str(), 0),
        ("two", "buf:M(2,3)=1,2,3,4,5,6 a=@M[1:] b=@M[:,::2]", 4),
        (
            "four",
            "npy:M=a=b buf:F(1,1,2,1)=7,8 a=@M[:,1] b=@F out:M=m out:F=m",
            5,
        ),
        ("one", "npy:R=row.npy a=@R b=@R[::3]", 2),
    ];
    for (kernel, line, want) in rows {
        assert_eq!(rt;
            outcome(
                alloc,
                kernels.as_slice(),
                kernel,
                line,
                files(alloc, 0, &[])?
            )?,
            Ok(want),
            "{line}"
        );
    }
    Ok(())
}

/// Words that are passed, with the first signature that takes them, or the refused item's number.
static SCALARS: [(&str, &str, Result<u32, u32>); 18] = [
    ("one", "b=@A buf:A=1,2 a=False", Ok(1)),
    ("one", "a=-9223372036854775808 b=@A buf:A=1,2", Ok(0)),
    ("same", "a=3 b=True", Ok(6)),
    ("same", "b=False a=0", Ok(6)),
    ("same", "a=True b=True", Ok(8)),
    ("one", "buf:A=1 a=@A[0:1] b=5", Err(0)),
    ("same", "a=3 b=1", Err(0)),
    ("same", "a=True b=0", Err(0)),
    ("same", "a=3 b=@A buf:A=True", Err(0)),
    ("same", "a=3 a=4 b=True", Err(2)),
    ("same", "a=3 b=True c=1", Err(3)),
    ("same", "a=5 b=-", Err(2)),
    ("same", "a=05", Err(1)),
    ("same", "a=+5", Err(1)),
    ("same", "a=9223372036854775808", Err(1)),
    ("same", "a=true", Err(1)),
    ("same", "a=True,False", Err(1)),
    ("same", "a=", Err(1)),
];

#[test]
fn binds_words(rt: HostRuntime) -> Result<(), Fail> {
    let alloc = rt.alloc();
    let kernels = heads(alloc)?;
    for (kernel, line, want) in SCALARS {
        let found = outcome(
            alloc,
            kernels.as_slice(),
            kernel,
            line,
            files(alloc, 0, &[])?,
        )?;
        assert_eq!(rt; found, want.map_err(BindStop::Item), "{line}");
    }
    Ok(())
}

/// Each test with its number, and in its place before the ones behind it.
#[test]
fn tests_items_in_order(rt: HostRuntime) -> Result<(), Fail> {
    let alloc = rt.alloc();
    let kernels = heads(alloc)?;
    let over = format!(in alloc; "out:B0=p a=@B0 b=@none {MANY} npy:B16=gone")?;
    let rows = [
        // misspelled
        ("none", "buf:A=1,,3 buf:A=2", 1),
        ("none", "buf:A=1,", 1),
        ("none", "buf:A=1,True", 1),
        ("none", "buf:A=01", 1),
        ("none", "buf:A=true", 1),
        ("none", "buf:A", 1),
        ("none", "buf:1A=1", 1),
        ("none", "buf:buf:A=1", 1),
        ("none", "bfu:A=1", 1),
        ("none", "buf:A(2,3)=1", 1),
        ("none", "buf:A()=", 1),
        ("none", "buf:A(1,1,1,1,1)=1", 1),
        ("none", "buf:A(18446744073709551616,0)=", 1),
        ("none", "buf:A(4194305,0)=", 1),
        ("none", "buf:A(02)=1,2", 1),
        ("none", "buf:A(-0)=", 1),
        ("none", "buf:A(2)x=1,2", 1),
        ("none", "npy:A=", 1),
        ("none", "npy:A(1)=p", 1),
        ("none", "out:=p", 1),
        ("none", "buf:A=1 a=@A[]", 2),
        ("none", "buf:A=1 a=@A[:::]", 2),
        ("none", "buf:A=1 a=@A[1:2][0]", 2),
        ("none", "buf:A=1 a=@A[0", 2),
        ("none", "buf:A=1 a=@", 2),
        ("none", "buf:A=1 a=A", 2),
        ("none", "buf:A=1 a=1,2", 2),
        ("none", "buf:A=1 =5", 2),
        // the second of a name, and the 17th buffer
        ("none", "buf:A=1 a=@B npy:A=gone c=@A", 3),
        ("none", "buf:A=1 a=5 a=@A buf:A=2", 3),
        ("none", "out:A=p out:B=p out:A=q", 3),
        ("none", over.as_str(), 20),
        // no such buffer
        ("none", "buf:A=1 c=5 a=@B", 3),
        ("none", "buf:A=1 out:C=p a=@B", 2),
        // no such kernel
        ("none", "npy:A=cut c=@A a=@A", 0),
        // no such parameter
        ("one", "npy:A=cut c=@A a=@A", 2),
        // a parameter without item
        ("one", "npy:A=cut a=@A", 0),
        // no array file
        ("one", "a=@A[9] b=@A npy:A=cut npy:B=gone", 3),
        // a view with a fault
        ("two", "buf:A=1 a=@A[::0] b=@A[9]", 2),
        ("two", "buf:A=1 a=@A[0:9,0] b=@A", 2),
        ("two", "buf:A=1 a=@A b=@A[0]", 3),
        ("two", "buf:A=1 a=@A b=@A[-2]", 3),
        // no signature that fits
        ("two", "buf:A(2,2)=1,2,3,4 a=@A[:,:1] b=@A", 0),
        ("four", "buf:A= a=@A b=@A", 0),
    ];
    for (kernel, line, want) in rows {
        assert_eq!(rt;
            outcome(
                alloc,
                kernels.as_slice(),
                kernel,
                line,
                files(alloc, 0, &[])?
            )?,
            Err(BindStop::Item(want)),
            "{line}"
        );
    }
    Ok(())
}

/// Array files are loaded in word order, each with its limit, and refused before the next one is loaded.
#[test]
fn loads_in_word_order(rt: HostRuntime) -> Result<(), Fail> {
    let alloc = rt.alloc();
    let kernels = heads(alloc)?;
    let rows: [(&str, &[u64], BindStop); 4] = [
        ("npy:A=gone a=5 b=@A", &[], BindStop::LoadFailed),
        (
            "npy:A=row.npy npy:B=row.npy a=5 b=@A",
            &[1],
            BindStop::LoadFailed,
        ),
        ("npy:A=cut npy:B=row.npy a=5 b=@A", &[1], BindStop::Item(1)),
        ("npy:A=row.npy a=5 b=@A[9999]", &[1], BindStop::Item(3)),
    ];
    for (line, fails, want) in rows {
        assert_eq!(rt;
            outcome(
                alloc,
                kernels.as_slice(),
                "one",
                line,
                files(alloc, 0, fails)?
            )?,
            Err(want),
            "{line}"
        );
    }
    Ok(())
}

/// A file that is longer than one may be ends the binding before the next one is loaded.
#[test]
fn stops_at_a_long_file(rt: HostRuntime) -> Result<(), Fail> {
    let alloc = rt.alloc();
    let kernels = heads(alloc)?;
    let files = files(alloc, 34_000_001, &[1])?;
    let line = "npy:A=zeros npy:B=cut a=5 b=@A";
    assert_eq!(rt;
        outcome(alloc, kernels.as_slice(), "one", line, files)?,
        Err(BindStop::TooLong)
    );
    Ok(())
}

/// What a call is made of.
#[test]
fn makes_calls(rt: HostRuntime) -> Result<(), Fail> {
    let alloc = rt.alloc();
    let kernels = heads(alloc)?;
    let line =
        "npy:M=a=b out:F=f.npy buf:F(1,1,2,1)=7,-9223372036854775808 b=@F a=@M[1,::-2] out:M=m";
    let items = words(alloc, line)?;
    assert!(rt; items.len() == 6);
    let mut files = files(alloc, 0, &[])?;
    let bound = bind(
        alloc,
        kernels.as_slice(),
        "four",
        items.as_slice(),
        &mut files,
    )
    .ok()
    .ok_or("refused")?;
    let buffers = bound.call.buffers.as_slice();
    assert_eq!(rt;
        (bound.kernel, bound.names.as_slice().len(), buffers.len()),
        (5, 2, 2)
    );
    assert!(rt; buffers.len() == 2);
    assert_eq!(rt; buffers[0].words.as_slice(), [1, 0, 0, 0, 1, 0].as_slice());
    assert_eq!(rt;
        buffers[1].words.as_slice(),
        [7, -9_223_372_036_854_775_807 - 1].as_slice()
    );
    assert_eq!(rt; buffers[1].shape.extent, [1, 1, 2, 1]);
    let saves = bound.saves.as_slice();
    assert!(rt; saves.len() == 2);
    assert_eq!(rt; (saves[0].buffer, saves[1].buffer), (1, 0));
    assert_eq!(rt; saves[0].path.as_slice(), b"f.npy".as_slice());
    let args = bound.call.args.as_slice();
    assert!(rt; args.len() == 2);
    match (args[0], args[1]) {
        (Arg::Array(a), Arg::Array(b)) => {
            assert_eq!(rt; (a.buffer, a.length, a.offset, a.rank), (0, 6, 5, 1));
            assert_eq!(rt; (a.extent[0], a.stride[0]), (2, -2));
            assert_eq!(rt; (b.buffer, b.length, b.offset, b.rank), (1, 2, 0, 4));
        }
        _ => assert!(rt; false, "words"),
    }
    Ok(())
}
