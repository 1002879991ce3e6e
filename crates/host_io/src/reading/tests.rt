use super::*;
use crate::streams::{Reader, Step};
use std::io::ErrorKind;
use std::test::Fail;

// Each row: what the calls of a reader of `abcdef` do, the limit, the answer, what was kept, and how many faults there
// were.
#[test]
fn reads_in_any_pieces(rt: HostRuntime) -> Result<(), Fail> {
    use ErrorKind::{BrokenPipe, Interrupted};
    use Step::{Fail as Broken, Pass};
    let rows = [
        ([].as_slice(), 9, Ok(()), "abcdef", 0),
        ([].as_slice(), 6, Ok(()), "abcdef", 0),
        ([Pass(1), Pass(2)].as_slice(), 9, Ok(()), "abcdef", 0),
        (
            [Pass(2)].as_slice(),
            5,
            Err(LoadFault::TooLong),
            "abcdef",
            0,
        ),
        (
            [Pass(1), Pass(4)].as_slice(),
            2,
            Err(LoadFault::TooLong),
            "abc",
            0,
        ),
        (
            [Broken(Interrupted), Pass(2), Broken(Interrupted)].as_slice(),
            9,
            Ok(()),
            "abcdef",
            2,
        ),
        (
            [Pass(2), Broken(BrokenPipe)].as_slice(),
            9,
            Err(LoadFault::Failed),
            "ab",
            1,
        ),
        (
            [Broken(BrokenPipe)].as_slice(),
            9,
            Err(LoadFault::Failed),
            "",
            1,
        ),
        ([Pass(2), Pass(0)].as_slice(), 9, Ok(()), "ab", 0),
    ];
    let mut into = Vec::from_slice(rt.alloc(), b"before")?;
    for (steps, most, answer, bytes, counted) in rows {
        let mut faults = 0;
        let mut reader = Reader {
            steps,
            left: b"abcdef",
        };
        let given = read_up_to(&mut reader, most, &mut into, &mut faults);
        assert_eq!(rt; given, answer, "{bytes} up to {most}");
        assert_eq!(rt; into.as_slice(), bytes.as_bytes(), "{bytes} up to {most}");
        assert_eq!(rt; faults, counted, "{bytes} up to {most}");
    }
    Ok(())
}
