ghost use Rattle.std.specs.Prelude.{◌≡◌, ◌≢◌, ℕ, ◌+◌, ◌<◌, ◌≤◌, ◌||◌, not, false, List, length, vec_capacity};
ghost use Rattle.std.specs.Prelude.{slice_get, if◌then◌else◌, is_err, Some, IfOk, OnOk, OnErr, IsErr, IsErrOf};
ghost use Rattle.std.specs.Prelude.{IsTrue, MatchOption};
ghost use Rattle.std.specs.List.{list_any};
ghost use Rattle.std.specs.Str.{bytes_eq};
ghost use Rattle.host_io.specs.Counts.{Rose, raised, is_to_fail};
ghost use Rattle.host_io.specs.Files.{Missing, Bytes, IsContent, IsCutContent, stored, has_failed, is_missing};
ghost use Rattle.host_io.specs.MemFiles.{mem_held, mem_room, copied_len};
ghost use Rattle.host_io.specs.Shelves.{slot_files, slot_file, slot_names, are_distinct, content, can_hold, rooms};
ghost use Rattle.host_io.specs.declared.slot.Slot.{Slot};

use crate::counts::{fails_at, raise};
use crate::files::{Files, LoadFault, StoreFault};
use crate::shelf::Shelf;
use crate::shelves::{file_at, load_bytes, shelve_all, store_bytes};
use crate::slot::Slot;
use krn_base::NoMemory;
use std::alloc::Global;
use std::marker::Model;

/// Files in memory, in slots of a fixed size. Loads and stores are numbered together from 0.
#[derive(Debug, Drop)]
pub struct MemFiles {
    shelves: Vec<Shelf>,
    fails: Vec<u64>,
    calls: u64,
    faults: u64,
}

impl Model for MemFiles {
    ghost use Rattle.host_io.specs.MemFiles.{Memory};

    ghost Value = { Memory };

    ghost use Rattle.host_io.specs.Shelves.{shelf_files};

    ghost view = { λ files. record {
      files = shelf_files files.shelves.items;
      fails = files.fails.items;
      calls = files.calls;
      faults = files.faults;
    } };
}

impl MemFiles {
    /// The files of the slots, whose names differ. The calls with the numbers of `fails`, from 0, fail. Calls past
    /// number 2^64 - 1 keep that number. All memory is taken here.
    pub fn new(alloc: Global, slots: Vec<Slot>, fails: Vec<u64>) -> Result<MemFiles, NoMemory>
        requires { IsTrue (are_distinct (slot_names slots.items)) }

        // Each name holds what its slot says, and no other name holds a file.
        ensures slots { IfOk result (λ made. (k : ℕ) (slot : Slot) → slice_get slots.items k ≡ Some slot →
            mem_held made slot.name ≡ content (slot_file slot)) }
        ensures others { IfOk result (λ made. (name : List ℕ) →
            list_any (bytes_eq name) (slot_names slots.items) ≡ false → mem_held made name ≡ Missing) }

        // The files with their limits, the numbers, and the counts.
        ensures files { IfOk result (λ made. made.files ≡ slot_files slots.items) }
        ensures fails { IfOk result (λ made. made.fails ≡ fails.items) }
        ensures calls { IfOk result (λ made. made.calls ≡ 0) }
        ensures faults { IfOk result (λ made. made.faults ≡ 0) }
    {
        Ok(MemFiles {
            shelves: shelve_all(alloc, slots)?,
            fails,
            calls: 0,
            faults: 0,
        })
    }

    /// What the name holds, or none exactly where no file is there. Takes no memory.
    pub fn held(&self, name: &str) -> Option<&[u8]>
        ensures { MatchOption result (mem_held self.now name.now ≡ Missing)
            (λ bytes. mem_held self.now name.now ≡ Bytes bytes.now) }
    {
        file_at(self.shelves.as_slice(), name)
    }

    // Numbers the next call, and says whether it is to fail.
    fn begin_call(&mut self) -> bool
        ensures fails { result ≡ is_to_fail self.old.fails self.old.calls }
        ensures call { self.new ≡ record self.old { calls = raised self.old.calls } }
    {
        let is_refused = fails_at(self.fails.as_slice(), self.calls);
        self.calls = raise(self.calls);
        is_refused
    }

    // Counts a fault.
    fn count_fault(&mut self)
        ensures faults { self.new ≡ record self.old { faults = raised self.old.faults } }
        ensures grows { self.old.faults ≤ self.new.faults }
    {
        self.faults = raise(self.faults);
    }
}

impl Files for MemFiles {
    ghost held = { λ files name. mem_held files name };

    ghost faults = { λ files. files.faults };

    /// Fails exactly at a call that is to fail, and for a name without a file.
    fn load(&mut self, name: &str, most: usize, into: &mut Vec<u8>) -> Result<(), LoadFault>
        ensures count { self.old.faults ≤ self.new.faults }
        ensures kept { (other : List ℕ) → mem_held self.new other ≡ mem_held self.old other }
        ensures content { OnOk result (IsContent (mem_held self.old name.now) into.new.items) }
        ensures within { OnOk result (length into.new.items ≤ most) }
        ensures failed { IsErrOf result LoadFault.Failed → Rose self.old.faults self.new.faults }
        ensures cut { IsErrOf result LoadFault.TooLong →
            IsCutContent (mem_held self.old name.now) most into.new.items }
        ensures past { IsErrOf result LoadFault.TooLong → length into.new.items ≡ most + 1 }
        ensures long { (file : List ℕ) → mem_held self.old name.now ≡ Bytes file → most < length file →
            IsErr result }

        // Which calls fail, and where memory can be wanting.
        ensures fails { has_failed result ≡ (is_to_fail self.old.fails self.old.calls
            || is_missing (mem_held self.old name.now)) }
        ensures memory { IsErrOf result LoadFault.Memory →
            vec_capacity into.old < copied_len (mem_held self.old name.now) most }

        // What is counted, and what stays.
        ensures faults { self.new.faults ≡
            (if has_failed result then raised self.old.faults else self.old.faults) }
        ensures calls { self.new.calls ≡ raised self.old.calls }
        ensures same_files { self.new.files ≡ self.old.files }
        ensures same_fails { self.new.fails ≡ self.old.fails }
    {
        let is_refused = self.begin_call();
        let found = if is_refused {
            None
        } else {
            file_at(self.shelves.as_slice(), name)
        };
        match found {
            Some(bytes) => load_bytes(bytes, most, into),
            None => {
                into.clear();
                self.count_fault();
                Err(LoadFault::Failed)
            }
        }
    }

    /// Fails exactly at a call that is to fail, for a name without a slot, and for more bytes than the slot can hold.
    /// No file has changed then. Takes no memory.
    fn store(&mut self, name: &str, bytes: &[u8]) -> Result<(), StoreFault>
        ensures count { self.old.faults ≤ self.new.faults }
        ensures others { (other : List ℕ) → other ≢ name.now → mem_held self.new other ≡ mem_held self.old other }
        ensures ok { OnOk result (mem_held self.new name.now ≡ stored (mem_held self.old name.now) bytes.now) }
        ensures failed { OnErr result (Rose self.old.faults self.new.faults) }

        // Which calls fail, and what the name holds.
        ensures fails { is_err result ≡ (is_to_fail self.old.fails self.old.calls
            || not (can_hold (mem_room self.old name.now) (length bytes.now))) }
        ensures bytes { OnOk result (mem_held self.new name.now ≡ Bytes bytes.now) }
        ensures unchanged { OnErr result (self.new.files ≡ self.old.files) }

        // What is counted, and what stays.
        ensures faults { self.new.faults ≡
            (if is_err result then raised self.old.faults else self.old.faults) }
        ensures calls { self.new.calls ≡ raised self.old.calls }
        ensures same_rooms { rooms self.new.files ≡ rooms self.old.files }
        ensures same_fails { self.new.fails ≡ self.old.fails }
    {
        let is_refused = self.begin_call();
        if !is_refused && store_bytes(self.shelves.as_mut_slice(), name, bytes) {
            return Ok(());
        }
        self.count_fault();
        Err(StoreFault::Failed)
    }
}

#[cfg(test)]
mod tests;
