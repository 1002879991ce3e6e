use crate::{NpyFault, read_npy, write_npy};
use krn_base::{Kind, Seq};
use std::test::*;
use view_places::{Array, Shape};

// The files were made by Python's `struct` and text formatting, after the description of the form.

/// `[1, 2, 3]` as int64, as NumPy writes it.
const ONE_TWO_THREE: &[u8] =
    b"\x93NUMPY\x01\x00v\x00{'descr': '<i8', 'fortran_order': False, 'shape': (3,), }                                 \
      \x20                          \n\x01\x00\x00\x00\x00\x00\x00\x00\x02\x00\x00\x00\x00\x00\x00\x00\x03\x00\x00\x00\
      \x00\x00\x00\x00";

#[test]
fn reads_each_form(rt: HostRuntime) -> Result<(), Fail> {
    let table: [(&[u8], Kind, u8, [u32; 4], &[i64]); 15] = [
        (ONE_TWO_THREE, Kind::Int64, 1, [3, 1, 1, 1], &[1, 2, 3]),
        (
            b"\x93NUMPY\x01\x007\x00{'shape': (3,), 'fortran_order': False, 'descr': '<i8'}\x01\x00\x00\x00\x00\x00\
              \x00\x00\x02\x00\x00\x00\x00\x00\x00\x00\x03\x00\x00\x00\x00\x00\x00\x00",
            Kind::Int64,
            1,
            [3, 1, 1, 1],
            &[1, 2, 3],
        ),
        (
            b"\x93NUMPY\x01\x007\x00{'fortran_order': False, 'descr': '<i8', 'shape': (3,)}\x01\x00\x00\x00\x00\x00\
              \x00\x00\x02\x00\x00\x00\x00\x00\x00\x00\x03\x00\x00\x00\x00\x00\x00\x00",
            Kind::Int64,
            1,
            [3, 1, 1, 1],
            &[1, 2, 3],
        ),
        (
            b"\x93NUMPY\x01\x007\x00{'fortran_order': False, 'shape': (3,), 'descr': '<i8'}\x01\x00\x00\x00\x00\x00\
              \x00\x00\x02\x00\x00\x00\x00\x00\x00\x00\x03\x00\x00\x00\x00\x00\x00\x00",
            Kind::Int64,
            1,
            [3, 1, 1, 1],
            &[1, 2, 3],
        ),
        (
            b"\x93NUMPY\x01\x007\x00{'shape': (3,), 'descr': '<i8', 'fortran_order': False}\x01\x00\x00\x00\x00\x00\
              \x00\x00\x02\x00\x00\x00\x00\x00\x00\x00\x03\x00\x00\x00\x00\x00\x00\x00",
            Kind::Int64,
            1,
            [3, 1, 1, 1],
            &[1, 2, 3],
        ),
        (
            b"\x93NUMPY\x01\x003\x00{\"descr\":\"<i8\",\"shape\":(3,),\"fortran_order\":False}\n\x01\x00\x00\x00\x00\
              \x00\x00\x00\x02\x00\x00\x00\x00\x00\x00\x00\x03\x00\x00\x00\x00\x00\x00\x00",
            Kind::Int64,
            1,
            [3, 1, 1, 1],
            &[1, 2, 3],
        ),
        (
            b"\x93NUMPY\x01\x00H\x00{  'descr'  :  \"<i8\" , 'fortran_order' :False ,'shape' : ( 3 , ) , }   \n\x01\
              \x00\x00\x00\x00\x00\x00\x00\x02\x00\x00\x00\x00\x00\x00\x00\x03\x00\x00\x00\x00\x00\x00\x00",
            Kind::Int64,
            1,
            [3, 1, 1, 1],
            &[1, 2, 3],
        ),
        (
            b"\x93NUMPY\x01\x008\x00{'descr': '<i8', 'fortran_order': True, 'shape': (3,), }\x01\x00\x00\x00\x00\x00\
              \x00\x00\x02\x00\x00\x00\x00\x00\x00\x00\x03\x00\x00\x00\x00\x00\x00\x00",
            Kind::Int64,
            1,
            [3, 1, 1, 1],
            &[1, 2, 3],
        ),
        (
            b"\x93NUMPY\x01\x00v\x00{'descr': '<i8', 'fortran_order': False, 'shape': (2, 3), }                       \
              \x20                                  \n\x01\x00\x00\x00\x00\x00\x00\x00\x02\x00\x00\x00\x00\x00\x00\x00\
              \x03\x00\x00\x00\x00\x00\x00\x00\x04\x00\x00\x00\x00\x00\x00\x00\x05\x00\x00\x00\x00\x00\x00\x00\x06\x00\
              \x00\x00\x00\x00\x00\x00",
            Kind::Int64,
            2,
            [2, 3, 1, 1],
            &[1, 2, 3, 4, 5, 6],
        ),
        (
            b"\x93NUMPY\x01\x008\x00{'descr': '<i8', 'fortran_order': True, 'shape': (2,3,)}\x01\x00\x00\x00\x00\x00\
              \x00\x00\x04\x00\x00\x00\x00\x00\x00\x00\x02\x00\x00\x00\x00\x00\x00\x00\x05\x00\x00\x00\x00\x00\x00\x00\
              \x03\x00\x00\x00\x00\x00\x00\x00\x06\x00\x00\x00\x00\x00\x00\x00",
            Kind::Int64,
            2,
            [2, 3, 1, 1],
            &[1, 2, 3, 4, 5, 6],
        ),
        (
            b"\x93NUMPY\x01\x00;\x00{'descr': '<i8', 'fortran_order': True, 'shape': (2, 3, 2)}\x00\x00\x00\x00\x00\
              \x00\x00\x00d\x00\x00\x00\x00\x00\x00\x00\n\x00\x00\x00\x00\x00\x00\x00n\x00\x00\x00\x00\x00\x00\x00\x14\
              \x00\x00\x00\x00\x00\x00\x00x\x00\x00\x00\x00\x00\x00\x00\x01\x00\x00\x00\x00\x00\x00\x00e\x00\x00\x00\
              \x00\x00\x00\x00\x0b\x00\x00\x00\x00\x00\x00\x00o\x00\x00\x00\x00\x00\x00\x00\x15\x00\x00\x00\x00\x00\
              \x00\x00y\x00\x00\x00\x00\x00\x00\x00",
            Kind::Int64,
            3,
            [2, 3, 2, 1],
            &[0, 1, 10, 11, 20, 21, 100, 101, 110, 111, 120, 121],
        ),
        (
            b"\x93NUMPY\x01\x00v\x00{'descr': '|b1', 'fortran_order': False, 'shape': (4,), }                         \
              \x20                                  \n\x00\x01\x02\xff",
            Kind::Bool,
            1,
            [4, 1, 1, 1],
            &[0, 1, 1, 1],
        ),
        (
            b"\x93NUMPY\x01\x00v\x00{'descr': '<i8', 'fortran_order': False, 'shape': (2,), }                         \
              \x20                                  \n\xff\xff\xff\xff\xff\xff\xff\xff\x00\x00\x00\x00\x00\x00\x00\x80",
            Kind::Int64,
            1,
            [2, 1, 1, 1],
            &[-1, -9223372036854775808],
        ),
        (
            b"\x93NUMPY\x01\x00v\x00{'descr': '<i8', 'fortran_order': False, 'shape': (1, 1, 2, 1), }                 \
              \x20                                  \n\x05\x00\x00\x00\x00\x00\x00\x00\x06\x00\x00\x00\x00\x00\x00\x00",
            Kind::Int64,
            4,
            [1, 1, 2, 1],
            &[5, 6],
        ),
        (
            b"\x93NUMPY\x01\x00>\x00{'descr': '|b1', 'fortran_order': True, 'shape': (4194304, 0)}",
            Kind::Bool,
            2,
            [4194304, 0, 1, 1],
            &[],
        ),
    ];
    for (bytes, kind, rank, extent, words) in table {
        let array = read_npy(rt.alloc(), bytes)
            .ok()
            .ok_or("the bytes are a file")?;
        assert!(rt; array.kind == kind);
        assert!(rt; array.shape == Shape { rank, extent });
        assert!(rt; array.words.as_slice() == words);
    }
    Ok(())
}

#[test]
fn refuses_by_the_first_part(rt: HostRuntime) {
    let table: [(&[u8], NpyFault); 49] = [
        (b"", NpyFault::BadMagic),
        (b"\x93NUMP", NpyFault::BadMagic),
        (b"\x92NUMPY\x01\x00", NpyFault::BadMagic),
        (b"\x93NUMpy\x01\x00", NpyFault::BadMagic),
        (b"\x93NUMPY", NpyFault::BadVersion),
        (b"\x93NUMPY\x01", NpyFault::BadVersion),
        (
            b"\x93NUMPY\x02\x00v\x00{'descr': '<i8', 'fortran_order': False, 'shape': (3,), }                         \
              \x20                                  \n\x01\x00\x00\x00\x00\x00\x00\x00\x02\x00\x00\x00\x00\x00\x00\x00\
              \x03\x00\x00\x00\x00\x00\x00\x00",
            NpyFault::BadVersion,
        ),
        (
            b"\x93NUMPY\x01\x01v\x00{'descr': '<i8', 'fortran_order': False, 'shape': (3,), }                         \
              \x20                                  \n\x01\x00\x00\x00\x00\x00\x00\x00\x02\x00\x00\x00\x00\x00\x00\x00\
              \x03\x00\x00\x00\x00\x00\x00\x00",
            NpyFault::BadVersion,
        ),
        (b"\x93NUMPY\x01\x00v", NpyFault::BadHeader),
        (
            b"\x93NUMPY\x01\x00\x00\x00\x01\x00\x00\x00\x00\x00\x00\x00\x02\x00\x00\x00\x00\x00\x00\x00\x03\x00\x00\
              \x00\x00\x00\x00\x00",
            NpyFault::BadHeader,
        ),
        (
            b"\x93NUMPY\x01\x00v\x00{'descr': '<i8', 'fortran_order': False, 'shape': (3,), }                         \
              \x20       ",
            NpyFault::BadHeader,
        ),
        (
            b"\x93NUMPY\x01\x00C\x00{'descr': '<i8', 'fortran_order': False, 'shape': (3,), 'order': 1}\x01\x00\x00\
              \x00\x00\x00\x00\x00\x02\x00\x00\x00\x00\x00\x00\x00\x03\x00\x00\x00\x00\x00\x00\x00",
            NpyFault::BadHeader,
        ),
        (
            b"\x93NUMPY\x01\x00(\x00{'descr': '<i8', 'fortran_order': False}\x01\x00\x00\x00\x00\x00\x00\x00\x02\x00\
              \x00\x00\x00\x00\x00\x00\x03\x00\x00\x00\x00\x00\x00\x00",
            NpyFault::BadHeader,
        ),
        (
            b"\x93NUMPY\x01\x00.\x00{'descr': '<i8', 'shape': (3,), 'shape': (3,)}\x01\x00\x00\x00\x00\x00\x00\x00\x02\
              \x00\x00\x00\x00\x00\x00\x00\x03\x00\x00\x00\x00\x00\x00\x00",
            NpyFault::BadHeader,
        ),
        (
            b"\x93NUMPY\x01\x007\x00{'descr': '<i8', 'fortran_order': False, 'sizes': (3,)}\x01\x00\x00\x00\x00\x00\
              \x00\x00\x02\x00\x00\x00\x00\x00\x00\x00\x03\x00\x00\x00\x00\x00\x00\x00",
            NpyFault::BadHeader,
        ),
        (
            b"\x93NUMPY\x01\x005\x00{'descr': '<i8', 'fortran_order': False, 'shape': ()}\x01\x00\x00\x00\x00\x00\x00\
              \x00\x02\x00\x00\x00\x00\x00\x00\x00\x03\x00\x00\x00\x00\x00\x00\x00",
            NpyFault::BadHeader,
        ),
        (
            b"\x93NUMPY\x01\x006\x00{'descr': '<i8', 'fortran_order': False, 'shape': (3)}\x01\x00\x00\x00\x00\x00\x00\
              \x00\x02\x00\x00\x00\x00\x00\x00\x00\x03\x00\x00\x00\x00\x00\x00\x00",
            NpyFault::BadHeader,
        ),
        (
            b"\x93NUMPY\x01\x006\x00{'descr': '<i8', 'fortran_order': False, 'shape': (,)}\x01\x00\x00\x00\x00\x00\x00\
              \x00\x02\x00\x00\x00\x00\x00\x00\x00\x03\x00\x00\x00\x00\x00\x00\x00",
            NpyFault::BadHeader,
        ),
        (
            b"\x93NUMPY\x01\x008\x00{'descr': '<i8', 'fortran_order': False, 'shape': (3,,)}\x01\x00\x00\x00\x00\x00\
              \x00\x00\x02\x00\x00\x00\x00\x00\x00\x00\x03\x00\x00\x00\x00\x00\x00\x00",
            NpyFault::BadHeader,
        ),
        (
            b"\x93NUMPY\x01\x00B\x00{'descr': '<i8', 'fortran_order': False, 'shape': (1, 1, 1, 1, 3)}\x01\x00\x00\x00\
              \x00\x00\x00\x00\x02\x00\x00\x00\x00\x00\x00\x00\x03\x00\x00\x00\x00\x00\x00\x00",
            NpyFault::BadHeader,
        ),
        (
            b"\x93NUMPY\x01\x008\x00{'descr': '<i8', 'fortran_order': False, 'shape': (03,)}\x01\x00\x00\x00\x00\x00\
              \x00\x00\x02\x00\x00\x00\x00\x00\x00\x00\x03\x00\x00\x00\x00\x00\x00\x00",
            NpyFault::BadHeader,
        ),
        (
            b"\x93NUMPY\x01\x00I\x00{'descr': '<i8', 'fortran_order': False, 'shape': (9223372036854775808,)}\x01\x00\
              \x00\x00\x00\x00\x00\x00\x02\x00\x00\x00\x00\x00\x00\x00\x03\x00\x00\x00\x00\x00\x00\x00",
            NpyFault::BadHeader,
        ),
        (
            b"\x93NUMPY\x01\x008\x00{'descr': '<i8', 'fortran_order': False, 'shape': (-3,)}\x01\x00\x00\x00\x00\x00\
              \x00\x00\x02\x00\x00\x00\x00\x00\x00\x00\x03\x00\x00\x00\x00\x00\x00\x00",
            NpyFault::BadHeader,
        ),
        (
            b"\x93NUMPY\x01\x007\x00{'descr': '<i8', 'fortran_order': false, 'shape': (3,)}\x01\x00\x00\x00\x00\x00\
              \x00\x00\x02\x00\x00\x00\x00\x00\x00\x00\x03\x00\x00\x00\x00\x00\x00\x00",
            NpyFault::BadHeader,
        ),
        (
            b"\x93NUMPY\x01\x007\x00{'descr': '<i8\", 'fortran_order': False, 'shape': (3,)}\x01\x00\x00\x00\x00\x00\
              \x00\x00\x02\x00\x00\x00\x00\x00\x00\x00\x03\x00\x00\x00\x00\x00\x00\x00",
            NpyFault::BadHeader,
        ),
        (
            b"\x93NUMPY\x01\x008\x00{'descr': \xff'<i8', 'fortran_order': False, 'shape': (3,)}\x01\x00\x00\x00\x00\
              \x00\x00\x00\x02\x00\x00\x00\x00\x00\x00\x00\x03\x00\x00\x00\x00\x00\x00\x00",
            NpyFault::BadHeader,
        ),
        (
            b"\x93NUMPY\x01\x005\x00{'descr': '\xff', 'fortran_order': False, 'shape': (3,)}\x01\x00\x00\x00\x00\x00\
              \x00\x00\x02\x00\x00\x00\x00\x00\x00\x00\x03\x00\x00\x00\x00\x00\x00\x00",
            NpyFault::BadHeader,
        ),
        (
            b"\x93NUMPY\x01\x008\x00 {'descr': '<i8', 'fortran_order': False, 'shape': (3,)}\x01\x00\x00\x00\x00\x00\
              \x00\x00\x02\x00\x00\x00\x00\x00\x00\x00\x03\x00\x00\x00\x00\x00\x00\x00",
            NpyFault::BadHeader,
        ),
        (
            b"\x93NUMPY\x01\x007\x00{'descr':\x09'<i8', 'fortran_order': False, 'shape': (3,)}\x01\x00\x00\x00\x00\x00\
              \x00\x00\x02\x00\x00\x00\x00\x00\x00\x00\x03\x00\x00\x00\x00\x00\x00\x00",
            NpyFault::BadHeader,
        ),
        (
            b"\x93NUMPY\x01\x009\x00{'descr': '<i8', 'fortran_order': False, 'shape': (3,)}\n\n\x01\x00\x00\x00\x00\
              \x00\x00\x00\x02\x00\x00\x00\x00\x00\x00\x00\x03\x00\x00\x00\x00\x00\x00\x00",
            NpyFault::BadHeader,
        ),
        (
            b"\x93NUMPY\x01\x009\x00{'descr': '<i8', 'fortran_order': False, 'shape': (3,)}\n \x01\x00\x00\x00\x00\x00\
              \x00\x00\x02\x00\x00\x00\x00\x00\x00\x00\x03\x00\x00\x00\x00\x00\x00\x00",
            NpyFault::BadHeader,
        ),
        (
            b"\x93NUMPY\x01\x009\x00{'descr': '<i8', 'fortran_order': False, 'shape': (3,),,}\x01\x00\x00\x00\x00\x00\
              \x00\x00\x02\x00\x00\x00\x00\x00\x00\x00\x03\x00\x00\x00\x00\x00\x00\x00",
            NpyFault::BadHeader,
        ),
        (
            b"\x93NUMPY\x01\x006\x00{'descr': '>i8', 'fortran_order': False, 'shape': (3)}\x01\x00\x00\x00\x00\x00\x00\
              \x00\x02\x00\x00\x00\x00\x00\x00\x00\x03\x00\x00\x00\x00\x00\x00\x00",
            NpyFault::BadHeader,
        ),
        (
            b"\x93NUMPY\x01\x007\x00{'descr': '>i8', 'fortran_order': False, 'shape': (3,)}\x01\x00\x00\x00\x00\x00\
              \x00\x00\x02\x00\x00\x00\x00\x00\x00\x00\x03\x00\x00\x00\x00\x00\x00\x00",
            NpyFault::BadKind,
        ),
        (
            b"\x93NUMPY\x01\x007\x00{'descr': '<i4', 'fortran_order': False, 'shape': (3,)}\x01\x00\x00\x00\x00\x00\
              \x00\x00\x02\x00\x00\x00\x00\x00\x00\x00\x03\x00\x00\x00\x00\x00\x00\x00",
            NpyFault::BadKind,
        ),
        (
            b"\x93NUMPY\x01\x007\x00{'descr': '<f8', 'fortran_order': False, 'shape': (3,)}\x01\x00\x00\x00\x00\x00\
              \x00\x00\x02\x00\x00\x00\x00\x00\x00\x00\x03\x00\x00\x00\x00\x00\x00\x00",
            NpyFault::BadKind,
        ),
        (
            b"\x93NUMPY\x01\x006\x00{'descr': 'i8', 'fortran_order': False, 'shape': (3,)}\x01\x00\x00\x00\x00\x00\x00\
              \x00\x02\x00\x00\x00\x00\x00\x00\x00\x03\x00\x00\x00\x00\x00\x00\x00",
            NpyFault::BadKind,
        ),
        (
            b"\x93NUMPY\x01\x004\x00{'descr': '', 'fortran_order': False, 'shape': (3,)}\x01\x00\x00\x00\x00\x00\x00\
              \x00\x02\x00\x00\x00\x00\x00\x00\x00\x03\x00\x00\x00\x00\x00\x00\x00",
            NpyFault::BadKind,
        ),
        (
            b"\x93NUMPY\x01\x00?\x00{'descr': 'a \\ \"{text}', 'fortran_order': False, 'shape': (3,)}\x01\x00\x00\x00\
              \x00\x00\x00\x00\x02\x00\x00\x00\x00\x00\x00\x00\x03\x00\x00\x00\x00\x00\x00\x00",
            NpyFault::BadKind,
        ),
        (
            b"\x93NUMPY\x01\x00=\x00{'descr': '<f8', 'fortran_order': False, 'shape': (4194305,)}",
            NpyFault::BadKind,
        ),
        (
            b"\x93NUMPY\x01\x00=\x00{'descr': '<i8', 'fortran_order': False, 'shape': (4194305,)}",
            NpyFault::TooLarge,
        ),
        (
            b"\x93NUMPY\x01\x00?\x00{'descr': '<i8', 'fortran_order': False, 'shape': (2097153, 2)}",
            NpyFault::TooLarge,
        ),
        (
            b"\x93NUMPY\x01\x00?\x00{'descr': '<i8', 'fortran_order': False, 'shape': (0, 4194305)}",
            NpyFault::TooLarge,
        ),
        (
            b"\x93NUMPY\x01\x00I\x00{'descr': '<i8', 'fortran_order': False, 'shape': (9223372036854775807,)}",
            NpyFault::TooLarge,
        ),
        (
            b"\x93NUMPY\x01\x00W\x00{'descr': '<i8', 'fortran_order': False, 'shape': (4194304, 4194304, 4194304, 4194\
              304)}",
            NpyFault::TooLarge,
        ),
        (
            b"\x93NUMPY\x01\x00v\x00{'descr': '<i8', 'fortran_order': False, 'shape': (3,), }                         \
              \x20                                  \n\x01\x00\x00\x00\x00\x00\x00\x00\x02\x00\x00\x00\x00\x00\x00\x00\
              \x03\x00\x00\x00\x00\x00\x00",
            NpyFault::BadLength,
        ),
        (
            b"\x93NUMPY\x01\x00v\x00{'descr': '<i8', 'fortran_order': False, 'shape': (3,), }                         \
              \x20                                  \n\x01\x00\x00\x00\x00\x00\x00\x00\x02\x00\x00\x00\x00\x00\x00\x00\
              \x03\x00\x00\x00\x00\x00\x00\x00\x00",
            NpyFault::BadLength,
        ),
        (
            b"\x93NUMPY\x01\x00v\x00{'descr': '|b1', 'fortran_order': False, 'shape': (3,), }                         \
              \x20                                  \n\x01\x00\x00\x00\x00\x00\x00\x00\x02\x00\x00\x00\x00\x00\x00\x00\
              \x03\x00\x00\x00\x00\x00\x00\x00",
            NpyFault::BadLength,
        ),
        (
            b"\x93NUMPY\x01\x00v\x00{'descr': '<i8', 'fortran_order': False, 'shape': (0,), }                         \
              \x20                                  \n\x00",
            NpyFault::BadLength,
        ),
    ];
    for (bytes, fault) in table {
        assert!(rt; read_npy(rt.alloc(), bytes).err() == Some(fault));
    }
}

#[test]
fn refuses_a_file_that_is_cut(rt: HostRuntime) {
    for len in 0..ONE_TWO_THREE.len() {
        let fault = match len {
            0..=5 => NpyFault::BadMagic,
            6..=7 => NpyFault::BadVersion,
            8..=127 => NpyFault::BadHeader,
            _ => NpyFault::BadLength,
        };
        assert!(rt; read_npy(rt.alloc(), &ONE_TWO_THREE[..len]).err() == Some(fault));
    }
}

#[test]
fn writes_as_numpy(rt: HostRuntime) -> Result<(), Fail> {
    let words = Vec::from_slice(rt.alloc(), &[1, 2, 3])?;
    let array = Array {
        kind: Kind::Int64,
        shape: Shape {
            rank: 1,
            extent: [3, 1, 1, 1],
        },
        words: Seq::from_vec(words),
    };
    let bytes = write_npy(rt.alloc(), &array)
        .ok()
        .ok_or("memory is wanting")?;
    assert!(rt; bytes.as_slice() == ONE_TWO_THREE);
    let words = Vec::from_slice(rt.alloc(), &[0, 1, 1, 0, 0, 1])?;
    let array = Array {
        kind: Kind::Bool,
        shape: Shape {
            rank: 2,
            extent: [2, 3, 1, 1],
        },
        words: Seq::from_vec(words),
    };
    let bytes = write_npy(rt.alloc(), &array)
        .ok()
        .ok_or("memory is wanting")?;
    assert!(rt;
        bytes.as_slice()
            == b"\x93NUMPY\x01\x00v\x00{'descr': '|b1', 'fortran_order': False, 'shape': (2, 3), }                    \
                \x20                                     \n\x00\x01\x01\x00\x00\x01"
                .as_slice()
    );
    Ok(())
}

// Arrays of thousands of elements, of each rank.
#[test]
fn reads_back_what_it_wrote(rt: HostRuntime) -> Result<(), Fail> {
    let alloc = rt.alloc();
    let mut words = Vec::new(alloc);
    for k in 0..6000_i64 {
        words.push(k.wrapping_mul(1_000_003))?;
    }
    assert_eq!(rt; words.len(), 6000);
    let three = Array {
        kind: Kind::Int64,
        shape: Shape {
            rank: 3,
            extent: [10, 20, 30, 1],
        },
        words: Seq::from_vec(words),
    };
    let bytes = write_npy(alloc, &three).ok().ok_or("memory is wanting")?;
    assert_eq!(rt; bytes.len(), 128 + 8 * 6000);
    assert!(rt; read_npy(alloc, &bytes).ok() == Some(three));
    let mut words = Vec::new(alloc);
    for k in 0..6561_i64 {
        words.push(k.wrapping_mul(-3))?;
    }
    assert_eq!(rt; words.len(), 6561);
    let four = Array {
        kind: Kind::Int64,
        shape: Shape {
            rank: 4,
            extent: [9, 9, 9, 9],
        },
        words: Seq::from_vec(words),
    };
    let bytes = write_npy(alloc, &four).ok().ok_or("memory is wanting")?;
    assert!(rt; read_npy(alloc, &bytes).ok() == Some(four));
    Ok(())
}

#[test]
fn says_what_is_wrong(rt: HostRuntime) -> Result<(), Fail> {
    for (fault, text) in [
        (
            NpyFault::BadMagic,
            "the bytes do not begin as an array file",
        ),
        (NpyFault::BadVersion, "the version is not 1.0"),
        (NpyFault::BadHeader, "the header is malformed"),
        (
            NpyFault::BadKind,
            "the element type is neither `<i8` nor `|b1`",
        ),
        (NpyFault::TooLarge, "the array is too large"),
        (
            NpyFault::BadLength,
            "the number of bytes does not fit the shape",
        ),
        (NpyFault::Memory, "memory is wanting"),
    ] {
        let shown = format!(in rt.alloc(); "{fault}")?;
        assert_eq!(rt; shown.as_str(), text);
    }
    Ok(())
}
