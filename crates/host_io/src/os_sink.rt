ghost use Rattle.std.specs.Prelude.{◌≡◌, ℕ, ◌≤◌, None, take, OnOk, OnErr};
ghost use Rattle.std.specs.Io.KnownBytes.{Appends};
ghost use Rattle.host_io.specs.Counts.{Rose};
ghost use Rattle.host_io.specs.Sink.{appended};

use crate::sink::{PutFault, Sink};
use crate::writing::write_out;
use std::io::Write;

/// One of the system's streams. What was written is not told.
#[derive(Drop)]
pub struct OsSink<W> {
    stream: W,
    faults: u64,
}

impl<W: Write> OsSink<W> {
    /// A sink that writes to this stream.
    pub fn new(stream: W) -> OsSink<W>
        ensures { result.faults ≡ 0 }
    {
        OsSink { stream, faults: 0 }
    }
}

impl<W: Write> Sink for OsSink<W> {
    ghost written = { λ _. None };

    ghost faults = { λ sink. sink.faults };

    /// Writes the bytes to the stream, and flushes it. Each call of the system that fails raises the count of
    /// faults, and one that a signal cut off is tried again. A write that takes none of the bytes is a failure.
    fn put(&mut self, bytes: &[u8]) -> Result<(), PutFault>
        ensures count { self.old.faults ≤ self.new.faults }
        ensures ok { OnOk result (None ≡ appended None bytes.now) }
        ensures failed { OnErr result (Rose self.old.faults self.new.faults) }
        ensures part { OnErr result ((n : ℕ) × (None ≡ appended None (take n bytes.now))) }

        // What the stream holds, where it says so: all the bytes more, or first ones of them.
        ensures whole { OnOk result
            (Appends (W.contents self.old.stream) (W.contents self.new.stream) bytes.now) }
        ensures first { OnErr result ((n : ℕ)
            × Appends (W.contents self.old.stream) (W.contents self.new.stream) (take n bytes.now)) }
    {
        write_out(&mut self.stream, bytes, &mut self.faults)
    }
}

#[cfg(test)]
mod tests;
