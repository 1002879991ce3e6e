ghost use Rattle.std.specs.Prelude.{◌≡◌, ◌+◌, ◌<◌, ◌≤◌, ◌++◌, length, take, IfSome, OnOk, OnErr, IsErrOf};
ghost use Rattle.std.specs.Prelude.{if◌then◌else◌};
ghost use Rattle.std.specs.Io.{StartsWith};
ghost use Rattle.std.specs.Io.KnownBytes.{Consumes, IsAtEnd};
ghost use Rattle.host_io.specs.Counts.{Rose, raised};
ghost use Rattle.host_io.specs.Files.{IsContent, IsCutContent};
ghost use Rattle.host_io.specs.Streams.{passed, has_passed, left_in};

use crate::attempt::{Attempt, count_failure};
use crate::counts::raise;
use crate::files::LoadFault;
use std::io::Read;

/// Calls the reader once. A call that fails raises the count. None of the bytes pass only at the end, or where the
/// buffer has no room.
fn read_once<F: Read>(file: &mut F, buffer: &mut [u8], faults: &mut u64) -> Attempt
    ensures within { passed result ≤ length buffer.new }
    ensures bytes { Consumes (F.remaining file.old) (F.remaining file.new) (take (passed result) buffer.new) }
    ensures end { result ≡ Attempt.Passed 0 → 0 < length buffer.old → IsAtEnd (F.remaining file.new) }
    ensures count { faults.old ≤ faults.new }
    ensures counted { faults.new ≡ (if has_passed result then faults.old else raised faults.old) }
{
    match file.read(buffer) {
        Ok(count) => Attempt::Passed(count),
        Err(error) => count_failure(&error, faults),
    }
}

/// Appends the bytes, or as many of them as make one more than `most` in all.
fn take_up_to(bytes: &[u8], most: usize, into: &mut Vec<u8>) -> Result<(), LoadFault>
    requires { length into.old.items ≤ most }
    ensures whole { OnOk result (into.new.items ≡ into.old.items ++ bytes.now) }
    ensures within { OnOk result (length into.new.items ≤ most) }
    ensures told { IsErrOf result LoadFault.Failed → ⊥ }
    ensures cut { IsErrOf result LoadFault.TooLong →
        into.new.items ≡ take (most + 1) (into.old.items ++ bytes.now) }
    ensures past { IsErrOf result LoadFault.TooLong → length into.new.items ≡ most + 1 }
    ensures kept { IsErrOf result LoadFault.Memory → into.new.items ≡ into.old.items }
{
    let left = most - into.len();
    if bytes.len() <= left {
        into.extend_from_slice(bytes)?;
        Ok(())
    } else {
        into.extend_from_slice(&bytes[..left + 1])?;
        Err(LoadFault::TooLong)
    }
}

/// Puts the rest of the file into `into`, from which all bytes are taken first, or the first `most + 1` bytes of it
/// where there are more than `most`. Each call of the system that fails raises the count, and one that a signal cut
/// off is tried again. Whatever the answer, `into` has first bytes of the rest.
pub fn read_up_to<F: Read>(
    file: &mut F,
    most: usize,
    into: &mut Vec<u8>,
    faults: &mut u64,
) -> Result<(), LoadFault>
    ensures count { faults.old ≤ faults.new }
    ensures content { OnOk result (IsContent (left_in (F.remaining file.old)) into.new.items) }
    ensures within { OnOk result (length into.new.items ≤ most) }
    ensures failed { IsErrOf result LoadFault.Failed → Rose faults.old faults.new }
    ensures cut { IsErrOf result LoadFault.TooLong →
        IsCutContent (left_in (F.remaining file.old)) most into.new.items }
    ensures past { IsErrOf result LoadFault.TooLong → length into.new.items ≡ most + 1 }
    ensures part { IfSome (F.remaining file.old) (λ rest. StartsWith rest into.new.items) }
{
    into.clear();
    let mut buffer = [0u8; 8192];
    for _ in 0..u64::MAX {
        match read_once(file, &mut buffer, faults) {
            Attempt::Passed(0) => return Ok(()),
            Attempt::Passed(count) => take_up_to(&buffer[..count], most, into)?,
            Attempt::Interrupted => continue,
            Attempt::Failed => return Err(LoadFault::Failed),
        }
    }
    *faults = raise(*faults);
    Err(LoadFault::Failed)
}

#[cfg(test)]
mod tests;
