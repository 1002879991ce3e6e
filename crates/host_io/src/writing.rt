ghost use Rattle.std.specs.Prelude.{◌≡◌, ℕ, ◌<◌, ◌≤◌, length, take, IsTrue, OnOk, OnErr, if◌then◌else◌};
ghost use Rattle.std.specs.Io.KnownBytes.{Appends, Keeps};
ghost use Rattle.host_io.specs.Counts.{Rose, raised};
ghost use Rattle.host_io.specs.Streams.{passed, has_passed};

use crate::attempt::{Attempt, count_failure};
use crate::counts::raise;
use crate::sink::PutFault;
use std::io::Write;

/// Calls the writer once. A call that fails raises the count, and one that takes none of the bytes has failed.
fn write_once<W: Write>(stream: &mut W, bytes: &[u8], faults: &mut u64) -> Attempt
    ensures within { passed result ≤ length bytes.now }
    ensures some { IsTrue (has_passed result) → 0 < passed result }
    ensures bytes { Appends (W.contents stream.old) (W.contents stream.new) (take (passed result) bytes.now) }
    ensures count { faults.old ≤ faults.new }
    ensures counted { faults.new ≡ (if has_passed result then faults.old else raised faults.old) }
{
    match stream.write(bytes) {
        Ok(0) => {
            *faults = raise(*faults);
            Attempt::Failed
        }
        Ok(count) => Attempt::Passed(count),
        Err(error) => count_failure(&error, faults),
    }
}

/// Flushes the stream. A refused flush raises the count.
fn flush_out<W: Write>(stream: &mut W, faults: &mut u64) -> Result<(), PutFault>
    ensures count { faults.old ≤ faults.new }
    ensures bytes { Keeps (W.contents stream.old) (W.contents stream.new) }
    ensures failed { OnErr result (Rose faults.old faults.new) }
{
    match stream.flush() {
        Ok(()) => Ok(()),
        Err(_) => {
            *faults = raise(*faults);
            Err(PutFault::Failed)
        }
    }
}

/// Writes all the bytes, and flushes. Each call of the system that fails raises the count, and one that a
/// signal cut off is tried again. Where the answer is an error, only first ones of the bytes were written.
pub fn write_out<W: Write>(stream: &mut W, bytes: &[u8], faults: &mut u64) -> Result<(), PutFault>
    ensures count { faults.old ≤ faults.new }
    ensures whole { OnOk result (Appends (W.contents stream.old) (W.contents stream.new) bytes.now) }
    ensures part { OnErr result
        ((n : ℕ) × Appends (W.contents stream.old) (W.contents stream.new) (take n bytes.now)) }
    ensures failed { OnErr result (Rose faults.old faults.new) }
{
    let mut at = 0;
    for _ in 0..u64::MAX {
        if at == bytes.len() {
            return flush_out(stream, faults);
        }
        match write_once(stream, &bytes[at..], faults) {
            Attempt::Passed(count) => at += count,
            Attempt::Interrupted => continue,
            Attempt::Failed => return Err(PutFault::Failed),
        }
    }
    *faults = raise(*faults);
    Err(PutFault::Failed)
}
