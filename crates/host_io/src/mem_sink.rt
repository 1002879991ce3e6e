ghost use Rattle.std.specs.Prelude.{◌≡◌, ℕ, ◌+◌, ◌≤◌, [], ◌++◌, ◌||◌, length, take, nat_lt, nat_le, is_err};
ghost use Rattle.std.specs.Prelude.{if◌then◌else◌, Some, IfOk, OnOk, OnErr};
ghost use Rattle.host_io.specs.Counts.{Rose, raised, is_to_fail};
ghost use Rattle.host_io.specs.MemSink.{left_on};
ghost use Rattle.host_io.specs.Sink.{appended};

use crate::counts::{fails_at, raise};
use crate::sink::{PutFault, Sink};
use krn_base::NoMemory;
use std::alloc::Global;
use std::marker::Model;

/// A sink in memory, whose bytes can be looked at.
#[derive(Debug, Drop)]
pub struct MemSink {
    bytes: Vec<u8>,
    room: usize,
    fails: Vec<u64>,
    calls: u64,
    faults: u64,
}

impl Model for MemSink {
    ghost use Rattle.std.specs.Prelude.{◌≤◌, vec_len, vec_capacity};
    ghost use Rattle.host_io.specs.MemSink.{Page};

    ghost Value = { Page };

    ghost view = { λ sink. record {
      bytes = sink.bytes.items;
      room = sink.room;
      fails = sink.fails.items;
      calls = sink.calls;
      faults = sink.faults;
    } };

    ghost invariant = { λ sink. (vec_len sink.bytes ≤ sink.room) × (sink.room ≤ vec_capacity sink.bytes) };
}

impl MemSink {
    /// An empty sink with room for this many bytes, whose calls with the numbers of `fails`, from 0, fail. Calls
    /// past number 2^64 - 1 keep that number. All memory is taken here.
    pub fn new(alloc: Global, room: u32, fails: Vec<u64>) -> Result<MemSink, NoMemory>
        ensures empty { IfOk result (λ sink. sink.bytes ≡ []) }
        ensures room { IfOk result (λ sink. sink.room ≡ room) }
        ensures fails { IfOk result (λ sink. sink.fails ≡ fails.items) }
        ensures calls { IfOk result (λ sink. sink.calls ≡ 0) }
        ensures faults { IfOk result (λ sink. sink.faults ≡ 0) }
    {
        Ok(MemSink {
            bytes: Vec::with_capacity(alloc, room as usize)?,
            room: room as usize,
            fails,
            calls: 0,
            faults: 0,
        })
    }

    /// The bytes that were written. Takes no memory.
    pub fn written(&self) -> &[u8]
        ensures { result.now ≡ self.now.bytes }
    {
        self.bytes.as_slice()
    }

    // Appends as many of the bytes as fit, and says whether they all did.
    fn append(&mut self, bytes: &[u8]) -> bool
        ensures whole { result ≡ nat_le (length bytes.now) (left_on self.old) }
        ensures bytes { self.new ≡
            record self.old { bytes = self.old.bytes ++ take (left_on self.old) bytes.now } }
    {
        let left = self.room - self.bytes.len();
        let fitting = left.min(bytes.len());
        self.bytes.extend_from_slice(&bytes[..fitting]).unwrap();
        fitting == bytes.len()
    }
}

impl Sink for MemSink {
    ghost written = { λ sink. Some sink.bytes };

    ghost faults = { λ sink. sink.faults };

    /// Fails exactly at a call that is to fail, of which nothing is written, and for a piece that is longer than
    /// the room left, of which as many bytes are written as fit. Takes no memory.
    fn put(&mut self, bytes: &[u8]) -> Result<(), PutFault>
        ensures count { self.old.faults ≤ self.new.faults }
        ensures ok { OnOk result (Some self.new.bytes ≡ appended (Some self.old.bytes) bytes.now) }
        ensures failed { OnErr result (Rose self.old.faults self.new.faults) }
        ensures part { OnErr result ((n : ℕ) ×
            (Some self.new.bytes ≡ appended (Some self.old.bytes) (take n bytes.now))) }

        // Which calls fail, and what is written then.
        ensures fails { is_err result ≡ (is_to_fail self.old.fails self.old.calls
            || nat_lt (left_on self.old) (length bytes.now)) }
        ensures bytes { self.new.bytes ≡ self.old.bytes
            ++ (if is_to_fail self.old.fails self.old.calls then [] else take (left_on self.old) bytes.now) }

        // What is counted, and what stays.
        ensures faults { self.new.faults ≡
            (if is_err result then raised self.old.faults else self.old.faults) }
        ensures calls { self.new.calls ≡ raised self.old.calls }
        ensures same_room { self.new.room ≡ self.old.room }
        ensures same_fails { self.new.fails ≡ self.old.fails }
    {
        let is_refused = fails_at(self.fails.as_slice(), self.calls);
        self.calls = raise(self.calls);
        if is_refused {
            self.faults = raise(self.faults);
            return Err(PutFault::Failed);
        }
        if self.append(bytes) {
            return Ok(());
        }
        self.faults = raise(self.faults);
        Err(PutFault::Failed)
    }
}

#[cfg(test)]
mod tests;
