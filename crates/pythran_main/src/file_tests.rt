//! Calls with array files: what they load, store and leave where something fails.
ghost use Rattle.std.specs.Prelude.{◌≡◌, IfOk};

use crate::command::pythran;
use host_io::{MemFiles, MemSink, OpenGate, Slot};
use krn_base::Seq;
use std::alloc::{AllocError, Global};
use std::test::Fail;
use std::thread::Threads;

const ADD: &str = "#pythran export add(int[], int[])\ndef add(a, b):\n    return a + b\n";

/// What NumPy writes for the integers 1, 2 and 3.
const ROW: &[u8] =
    b"\x93NUMPY\x01\x00v\x00{'descr': '<i8', 'fortran_order': False, 'shape': (3,), }\
    \x20\x20\x20\x20\x20\x20\x20\x20\x20\x20\x20\x20\x20\x20\x20\x20\x20\x20\x20\x20\x20\x20\x20\x20\x20\
    \x20\x20\x20\x20\x20\x20\x20\x20\x20\x20\x20\x20\x20\x20\x20\x20\x20\x20\x20\x20\x20\x20\x20\x20\x20\
    \x20\x20\x20\x20\x20\x20\x20\x20\x20\x20\
    \n\x01\x00\x00\x00\x00\x00\x00\x00\x02\x00\x00\x00\x00\x00\x00\x00\x03\x00\x00\x00\x00\x00\x00\x00";

/// The same for 5.
const FIVE: &[u8] =
    b"\x93NUMPY\x01\x00v\x00{'descr': '<i8', 'fortran_order': False, 'shape': (1,), }\
    \x20\x20\x20\x20\x20\x20\x20\x20\x20\x20\x20\x20\x20\x20\x20\x20\x20\x20\x20\x20\x20\x20\x20\x20\x20\
    \x20\x20\x20\x20\x20\x20\x20\x20\x20\x20\x20\x20\x20\x20\x20\x20\x20\x20\x20\x20\x20\x20\x20\x20\x20\
    \x20\x20\x20\x20\x20\x20\x20\x20\x20\x20\
    \n\x05\x00\x00\x00\x00\x00\x00\x00";

/// The same for the integers from 1 to 4 as a matrix.
const SQUARE: &[u8] =
    b"\x93NUMPY\x01\x00v\x00{'descr': '<i8', 'fortran_order': False, 'shape': (2, 2), }\
    \x20\x20\x20\x20\x20\x20\x20\x20\x20\x20\x20\x20\x20\x20\x20\x20\x20\x20\x20\x20\x20\x20\x20\x20\x20\
    \x20\x20\x20\x20\x20\x20\x20\x20\x20\x20\x20\x20\x20\x20\x20\x20\x20\x20\x20\x20\x20\x20\x20\x20\x20\
    \x20\x20\x20\x20\x20\x20\x20\x20\
    \n\x01\x00\x00\x00\x00\x00\x00\x00\x02\x00\x00\x00\x00\x00\x00\x00\
    \x03\x00\x00\x00\x00\x00\x00\x00\x04\x00\x00\x00\x00\x00\x00\x00";

/// The integers 1, 2 and 3 with the keys in another order, and as a file whose first index runs fastest.
const OTHER: &[u8] =
    b"\x93NUMPY\x01\x00\x38\x00{'shape':(3,),\"fortran_order\": True , 'descr': '<i8' }\x20\x20\
    \x01\0\0\0\0\0\0\0\x02\0\0\0\0\0\0\0\x03\0\0\0\0\0\0\0";

const REPORT: &str = "return int64 (3,) 6 7 8\nbuffer A int64 (3,) 1 2 3\nbuffer B int64 (1,) 5\n\
    counts nests 1 temps 0 parallel 0 serial 0\n";

const FAULT: &str = "fault ValueError 3:14\nbuffer A int64 (3,) 1 2 3\nbuffer B int64 (2,) 1 2\n\
    counts nests 0 temps 0 parallel 0 serial 0\n";

const OLD: &[u8] = b"what was there";

const NONE: &[u64] = &[];

/// A call, the numbers of the loads and stores, and of the puts on the output and the error output, that fail, and the
/// room of the output; and then its status, output and error output, and what `y.npy` and `z.npy` hold.
struct Case {
    line: &'static str,
    files: &'static [u64],
    out: &'static [u64],
    err: &'static [u64],
    room: u32,
    status: u8,
    written: &'static str,
    told: &'static str,
    y: Option<&'static [u8]>,
    z: Option<&'static [u8]>,
}

const GOOD: Case = Case {
    line: "run m.py add npy:A=x.npy out:B=z.npy buf:B=5 a=@A out:A=y.npy b=@B",
    files: NONE,
    out: NONE,
    err: NONE,
    room: 1000,
    status: 0,
    written: REPORT,
    told: "",
    y: Some(ROW),
    z: Some(FIVE),
};

/// Nothing is written or stored.
const STILL: Case = Case {
    written: "",
    y: None,
    z: Some(OLD),
    ..GOOD
};

const REFUSED: Case = Case { status: 4, ..STILL };

const FAILED: Case = Case { status: 5, ..STILL };

/// Each load, put and store fails in turn: the module's load is the call 0 of the files, that of `x.npy` the call 1,
/// and the stores in word order are the calls 2 and 3.
static CASES: [Case; 16] = [
    GOOD,
    Case {
        files: &[0],
        told: "error load\n",
        ..FAILED
    },
    Case {
        files: &[1],
        told: "error load\n",
        ..FAILED
    },
    Case {
        files: &[1],
        err: &[0],
        ..FAILED
    },
    Case {
        out: &[0],
        told: "error write\n",
        ..FAILED
    },
    Case {
        room: 6,
        written: "return",
        told: "error write\n",
        ..FAILED
    },
    Case {
        files: &[2],
        written: REPORT,
        told: "error store\n",
        ..FAILED
    },
    Case {
        files: &[3],
        written: REPORT,
        told: "error store\n",
        z: Some(FIVE),
        ..FAILED
    },
    Case {
        files: &[3],
        err: &[0],
        written: REPORT,
        z: Some(FIVE),
        ..FAILED
    },
    Case {
        files: &[4],
        ..GOOD
    },
    // no slot of this name
    Case {
        line: "run m.py add npy:A=x.npy out:A=none a=@A buf:B=5 out:B=z.npy b=@B",
        written: REPORT,
        told: "error store\n",
        ..FAILED
    },
    // no file of this name
    Case {
        line: "run m.py add npy:A=none out:A=z.npy a=@A b=@A",
        told: "error load\n",
        ..FAILED
    },
    // after a fault of the kernel, in the shape that was given, and of other files of the same array
    Case {
        line: "run m.py add npy:A=x.npy buf:B=1,2 a=@A b=@B out:A=z.npy",
        status: 1,
        written: FAULT,
        y: None,
        z: Some(ROW),
        ..GOOD
    },
    Case {
        line: "run m.py add buf:A(2,2)=1,2,3,4 a=@A[0] b=@A[1] out:A=y.npy",
        written: "return int64 (2,) 4 6\nbuffer A int64 (2, 2) 1 2 3 4\n\
            counts nests 1 temps 0 parallel 0 serial 0\n",
        y: Some(SQUARE),
        z: Some(OLD),
        ..GOOD
    },
    Case {
        line: "run m.py add npy:A=other buf:B=5 a=@A b=@B out:A=y.npy",
        z: Some(OLD),
        ..GOOD
    },
    Case {
        line: "run m.py add buf:A=1,2,3 a=@A[0:2] b=@A[1:] out:A=y.npy",
        written: "return int64 (2,) 3 5\nbuffer A int64 (3,) 1 2 3\ncounts nests 1 temps 0 parallel 0 serial 0\n",
        z: Some(OLD),
        ..GOOD
    },
];

/// Items that are refused, each with its number, before anything is written or stored.
static REFUSALS: [(&str, &str); 14] = [
    ("buf:A(2,3)=1", "1"),
    ("out:A=y.npy buf:A()=", "2"),
    ("buf:A(1,1,1,1,1)=1", "1"),
    ("buf:A(18446744073709551616,0)=", "1"),
    ("buf:A(4194305,0)=", "1"),
    ("npy:A=", "1"),
    ("npy:A=x.npy out:A=y.npy a=@A[::0] b=@A", "3"),
    ("npy:A=x.npy out:A=y.npy b=@A a=@A[9]", "4"),
    ("a=@A b=@A npy:A=cut out:A=y.npy", "3"),
    ("npy:B=x.npy npy:A=m.py a=@A b=@A out:A=y.npy", "2"),
    ("npy:A=x.npy out:B=y.npy a=@A b=@A", "2"),
    ("npy:A=x.npy out:A=y.npy out:A=z.npy a=@A b=@A", "3"),
    ("npy:A=cut npy:B=none a=@A b=@A", "1"),
    ("buf:A=1,2,3,4 a=@A[0:4:2] b=@A out:A=y.npy", "0"),
];

/// A file of this name.
fn slot(alloc: Global, name: &str, bytes: &[u8], there: bool) -> Result<Slot, AllocError>
    ensures { IfOk result (λ slot. slot.name ≡ name.now) }
{
    Ok(Slot {
        name: Seq::from_vec(Vec::from_slice(alloc, name.as_bytes())?),
        bytes: Vec::from_slice(alloc, bytes)?,
        there,
        room: 200,
    })
}

/// The module, the array files, a file that is cut off, and the two files that are stored.
fn files(alloc: Global, fails: &[u64]) -> Result<MemFiles, Fail> {
    let module = slot(alloc, "m.py", ADD.as_bytes(), true)?;
    let x = slot(alloc, "x.npy", ROW, true)?;
    let other = slot(alloc, "other", OTHER, true)?;
    let cut = slot(alloc, "cut", &ROW[..151], true)?;
    let y = slot(alloc, "y.npy", b"", false)?;
    let z = slot(alloc, "z.npy", OLD, true)?;
    let slots = vec![in alloc; module, x, other, cut, y, z]?;
    Ok(MemFiles::new(alloc, slots, Vec::from_slice(alloc, fails)?)?)
}

/// The words of a line, which single spaces separate.
fn make_words(alloc: Global, line: &str) -> Result<Vec<String>, AllocError> {
    let mut words = Vec::new(alloc);
    for word in line.split(' ') {
        words.push(String::from_str(alloc, word)?)?;
    }
    Ok(words)
}

/// The status of a call over files and sinks in memory, and what it leaves of them.
fn call<R: Threads + Sync>(
    rt: &R,
    alloc: Global,
    case: &Case,
) -> Result<(u8, MemFiles, MemSink, MemSink), Fail> {
    let words = make_words(alloc, case.line)?;
    let mut files = files(alloc, case.files)?;
    let mut out = MemSink::new(alloc, case.room, Vec::from_slice(alloc, case.out)?)?;
    let mut err = MemSink::new(alloc, 100, Vec::from_slice(alloc, case.err)?)?;
    let status = pythran(
        rt,
        alloc,
        words.as_slice(),
        &mut files,
        &mut out,
        &mut err,
        &OpenGate,
    );
    Ok((status, files, out, err))
}

#[test]
fn files_are_loaded_and_stored(rt: HostRuntime) -> Result<(), Fail> {
    let alloc = rt.alloc();
    for case in &CASES {
        let (status, files, out, err) = call(&rt, alloc, case)?;
        assert_eq!(rt; status, case.status, "{}", case.line);
        assert_eq!(rt; out.written(), case.written.as_bytes(), "{}", case.line);
        assert_eq!(rt; err.written(), case.told.as_bytes(), "{}", case.line);
        assert_eq!(rt; files.held("x.npy"), Some(ROW), "{}", case.line);
        assert_eq!(rt; files.held("y.npy"), case.y, "{}", case.line);
        assert_eq!(rt; files.held("z.npy"), case.z, "{}", case.line);
    }
    Ok(())
}

#[test]
fn refused_items_store_nothing(rt: HostRuntime) -> Result<(), Fail> {
    let alloc = rt.alloc();
    for (items, number) in REFUSALS {
        let words = make_words(alloc, format!(in alloc; "run m.py add {items}")?.as_str())?;
        let mut files = files(alloc, NONE)?;
        let mut out = MemSink::new(alloc, 1000, Vec::new(alloc))?;
        let mut err = MemSink::new(alloc, 100, Vec::new(alloc))?;
        let status = pythran(
            &rt,
            alloc,
            words.as_slice(),
            &mut files,
            &mut out,
            &mut err,
            &OpenGate,
        );
        let told = format!(in alloc; "error item {number}\n")?;
        assert_eq!(rt; status, 4, "{items}");
        assert_eq!(rt; out.written().len(), 0, "{items}");
        assert_eq!(rt; err.written(), told.as_bytes(), "{items}");
        assert_eq!(rt; files.held("y.npy"), None, "{items}");
        assert_eq!(rt; files.held("z.npy"), Some(OLD), "{items}");
    }
    Ok(())
}
