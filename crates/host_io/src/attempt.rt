ghost use Rattle.std.specs.Prelude.{◌≡◌, ◌≤◌, false};
ghost use Rattle.host_io.specs.Counts.{raised};
ghost use Rattle.host_io.specs.Streams.{has_passed};

use crate::counts::raise;
use std::io::{Error, ErrorKind};

/// What one call of a stream came to.
#[derive(Clone, Copy, Debug, PartialEq, Eq)]
pub enum Attempt {
    /// So many bytes were passed.
    Passed(usize),
    /// A signal cut the call off before a byte was passed.
    Interrupted,
    /// The call failed before a byte was passed.
    Failed,
}

/// Counts a call that failed, and says how it did.
pub fn count_failure(error: &Error, faults: &mut u64) -> Attempt
    ensures failed { has_passed result ≡ false }
    ensures count { faults.old ≤ faults.new }
    ensures counted { faults.new ≡ raised faults.old }
{
    *faults = raise(*faults);
    if error.kind() == ErrorKind::Interrupted {
        Attempt::Interrupted
    } else {
        Attempt::Failed
    }
}
