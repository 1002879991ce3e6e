ghost use Rattle.std.specs.Prelude.{◌≡◌, ℕ, ◌≤◌, List, Option, take, OnOk, OnErr};
ghost use Rattle.host_io.specs.Counts.{Rose};
ghost use Rattle.host_io.specs.Sink.{appended};

use thiserror::Error;

/// Why bytes were not written whole.
#[derive(Clone, Copy, Debug, PartialEq, Eq, Error)]
pub enum PutFault {
    #[error("the bytes could not be written")]
    Failed,
}

/// A place that bytes are written to, one piece after the other.
pub trait Sink {
    // The bytes that were written, where that is told.
    ghost written: { Self → Option (List ℕ) };

    // How many faults there were, up to 2^64 - 1, where it stays.
    ghost faults: { Self → ℕ };

    /// Writes the bytes behind those that were written before. Where that fails, only first ones of them may
    /// have been written.
    fn put(&mut self, bytes: &[u8]) -> Result<(), PutFault>
        ensures count { faults self.old ≤ faults self.new }
        ensures ok { OnOk result (written self.new ≡ appended (written self.old) bytes.now) }

        // It fails only where the count rose, and then a prefix was written.
        ensures failed { OnErr result (Rose (faults self.old) (faults self.new)) }
        ensures part { OnErr result
            ((n : ℕ) × (written self.new ≡ appended (written self.old) (take n bytes.now))) };
}

#[cfg(test)]
mod tests {
    use super::*;
    use std::test::Fail;

    #[test]
    fn fault_has_a_text(rt: HostRuntime) -> Result<(), Fail> {
        let fault = PutFault::Failed.to_string(rt.alloc())?;
        assert_eq!(rt; fault.as_str(), "the bytes could not be written");
        Ok(())
    }
}
