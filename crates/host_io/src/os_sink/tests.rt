use super::*;
use crate::streams::{Step, Writer};
use std::io::ErrorKind;
use std::path::PathBuf;
use std::test::Fail;
use std::{env, fs, process};

// Each row: what the calls of a writer do, whether flushes are refused, whether `abcdef` is written whole, what the
// writer then has, and how many faults there were.
#[test]
fn writes_in_any_pieces(rt: HostRuntime) -> Result<(), Fail> {
    use ErrorKind::{BrokenPipe, Interrupted};
    use Step::{Fail as Broken, Pass};
    let rows = [
        ([].as_slice(), false, true, "abcdef", 0),
        ([Pass(1), Pass(2)].as_slice(), false, true, "abcdef", 0),
        ([Pass(2), Pass(0)].as_slice(), false, false, "", 1),
        ([Pass(0)].as_slice(), false, false, "", 1),
        (
            [Broken(Interrupted), Pass(3), Broken(Interrupted)].as_slice(),
            false,
            true,
            "abcdef",
            2,
        ),
        (
            [Pass(4), Broken(BrokenPipe)].as_slice(),
            false,
            false,
            "",
            1,
        ),
        ([Pass(6)].as_slice(), true, false, "", 1),
    ];
    for (steps, refuses_flush, is_whole, flushed, faults) in rows {
        let mut sink = OsSink::new(Writer {
            steps,
            waiting: Vec::new(rt.alloc()),
            flushed: Vec::new(rt.alloc()),
            refuses_flush,
        });
        assert_eq!(rt;
            sink.put(b"abcdef").is_ok(),
            is_whole,
            "{flushed} with {faults}"
        );
        assert_eq!(rt; sink.stream.flushed.as_slice(), flushed.as_bytes());
        assert_eq!(rt; sink.faults, faults, "{flushed}");
    }
    Ok(())
}

// A path that no other test uses.
fn make_path(rt: &HostRuntime) -> Result<PathBuf, Fail> {
    let name = format!(in rt.alloc(); "host_io_sink_{}", process::id(rt.process()))?;
    Ok(env::temp_dir(rt)?.join(rt.alloc(), name.as_str())?)
}

// What a file has after two pieces and after a third that a stream which is open for reading alone refuses, how
// often each of the three was written, and the faults of the two streams.
fn put_three(rt: &HostRuntime, path: &str) -> Result<(String, bool, u64, u64), Fail> {
    let mut file = OsSink::new(fs::create(rt, path)?);
    let is_written = file.put(b"two ").is_ok()
        && file.put(b"").is_ok()
        && file.put(b"pieces\n").is_ok();
    let mut closed = OsSink::new(fs::open(rt, path)?);
    let is_refused = closed.put(b"more").is_err() && closed.put(b"more").is_err();
    let text = fs::read_to_string(rt, path)?;
    Ok((text, is_written && is_refused, file.faults, closed.faults))
}

#[test]
fn writes_to_real_streams(rt: HostRuntime) -> Result<(), Fail> {
    let path = make_path(&rt)?;
    let outcome = put_three(&rt, path.as_str());
    let removed = fs::remove_file(&rt, path.as_str());
    let (text, is_right, faults, closed_faults) = outcome?;
    removed?;
    assert_eq!(rt; text.as_str(), "two pieces\n");
    assert!(rt; is_right && faults == 0 && closed_faults == 2);
    let mut out = OsSink::new(rt.stdout());
    assert!(rt; out.put(b"a piece\n").is_ok() && out.faults == 0);
    Ok(())
}
