ghost use Rattle.std.specs.Prelude.{◌≡◌, ◌≤◌, [], length, IsOk};
ghost use Rattle.host_io.specs.MemSink.{left_on};

use super::*;
use std::test::Fail;

// Over a sink without calls that are to fail, a piece that fits is written and counts no fault.
fn put_fitting(sink: &mut MemSink, bytes: &[u8]) -> Result<(), PutFault>
    requires none { sink.old.fails ≡ [] }
    requires room { length bytes.now ≤ left_on sink.old }
    ensures done { IsOk result }
    ensures uncounted { sink.new.faults ≡ sink.old.faults }
{
    sink.put(bytes)
}

// Each row: the room, the calls that are to fail, pieces with whether they are written whole, and all that is written.
#[test]
fn puts_in_order(rt: HostRuntime) -> Result<(), Fail> {
    let tables = [
        (
            5,
            [1, 9].as_slice(),
            [
                ("ab", true),
                ("cd", false),
                ("cdefg", false),
                ("", true),
                ("x", false),
            ]
            .as_slice(),
            "abcde",
        ),
        (
            3,
            [].as_slice(),
            [("", true), ("a", true), ("bc", true), ("d", false)].as_slice(),
            "abc",
        ),
        (
            9,
            [0, 0, 2].as_slice(),
            [("a", false), ("b", true), ("c", false), ("d", true)].as_slice(),
            "bd",
        ),
        (0, [].as_slice(), [("a", false), ("", true)].as_slice(), ""),
    ];
    for (room, fails, pieces, written) in tables {
        let mut sink = MemSink::new(rt.alloc(), room, Vec::from_slice(rt.alloc(), fails)?)?;
        for (piece, whole) in pieces {
            assert_eq!(rt;
                sink.put(piece.as_bytes()).is_ok(),
                *whole,
                "{piece} of {written}"
            );
        }
        assert_eq!(rt; sink.written(), written.as_bytes());
    }
    Ok(())
}

#[test]
fn keeps_the_last_number_of_a_call(rt: HostRuntime) -> Result<(), Fail> {
    let mut sink = MemSink {
        bytes: Vec::with_capacity(rt.alloc(), 8)?,
        room: 8,
        fails: Vec::from_slice(rt.alloc(), &[u64::MAX])?,
        calls: u64::MAX - 1,
        faults: u64::MAX - 1,
    };
    for (whole, faults) in [(true, u64::MAX - 1), (false, u64::MAX), (false, u64::MAX)] {
        assert_eq!(rt; sink.put(b"a").is_ok(), whole);
        assert_eq!(rt; sink.faults, faults);
    }
    Ok(())
}
