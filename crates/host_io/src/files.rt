ghost use Rattle.std.specs.Prelude.{◌≡◌, ◌≢◌, ℕ, ◌+◌, ◌<◌, ◌≤◌, List, length, IsErr, IsErrOf, OnOk, OnErr};
ghost use Rattle.host_io.specs.Counts.{Rose};
ghost use Rattle.host_io.specs.Files.{Held, Bytes, IsContent, IsCutContent, stored};

use std::alloc::AllocError;
use thiserror::Error;

/// Why a file was not loaded.
#[derive(Clone, Copy, Debug, PartialEq, Eq, Error)]
pub enum LoadFault {
    /// There is no such file, or it could not be read.
    #[error("the file could not be loaded")]
    Failed,
    /// The file has more bytes than were asked for.
    #[error("the file is too long")]
    TooLong,
    /// Memory was wanting.
    #[error("out of memory")]
    Memory,
}

impl From<AllocError> for LoadFault {
    ghost use Rattle.host_io.specs.declared.files.LoadFault.TheVariants.{Memory};

    ghost from_gives = { λ _ fault. fault ≡ Memory };

    fn from(_error: AllocError) -> LoadFault {
        LoadFault::Memory
    }
}

/// Why a file was not stored.
#[derive(Clone, Copy, Debug, PartialEq, Eq, Error)]
pub enum StoreFault {
    /// The file could not be made, or not all bytes could be written.
    #[error("the file could not be stored")]
    Failed,
}

/// Files under names.
pub trait Files {
    // What each name holds, where that is told.
    ghost held: { Self → List ℕ → Held };

    // How many faults there were, up to 2^64 - 1, where it stays.
    ghost faults: { Self → ℕ };

    /// Puts the bytes of the file into `into`, from which all bytes are taken first, unless it has more than
    /// `most` bytes. After `TooLong` its first `most + 1` bytes are in `into`, after the other errors any bytes.
    /// A name without a file counts as a fault.
    fn load(&mut self, name: &str, most: usize, into: &mut Vec<u8>) -> Result<(), LoadFault>
        // No count falls, and what the names hold stays.
        ensures count { faults self.old ≤ faults self.new }
        ensures kept { (other : List ℕ) → held self.new other ≡ held self.old other }

        // The whole file is loaded, and it is within the limit.
        ensures content { OnOk result (IsContent (held self.old name.now) into.new.items) }
        ensures within { OnOk result (length into.new.items ≤ most) }

        // A load fails only where the count rose.
        ensures failed { IsErrOf result LoadFault.Failed → Rose (faults self.old) (faults self.new) }

        // A file is called too long exactly where it is, unless the load failed or memory was wanting.
        ensures cut { IsErrOf result LoadFault.TooLong →
            IsCutContent (held self.old name.now) most into.new.items }
        ensures past { IsErrOf result LoadFault.TooLong → length into.new.items ≡ most + 1 }
        ensures long { (file : List ℕ) → held self.old name.now ≡ Bytes file → most < length file →
            IsErr result };

    /// Makes a file of this name that has these bytes, in place of what the name held. After an error the name holds
    /// anything.
    fn store(&mut self, name: &str, bytes: &[u8]) -> Result<(), StoreFault>
        // No count falls, and what every other name holds stays.
        ensures count { faults self.old ≤ faults self.new }
        ensures others { (other : List ℕ) → other ≢ name.now → held self.new other ≡ held self.old other }

        // The name holds the bytes.
        ensures ok { OnOk result (held self.new name.now ≡ stored (held self.old name.now) bytes.now) }

        // A store fails only where the count rose.
        ensures failed { OnErr result (Rose (faults self.old) (faults self.new)) };
}

#[cfg(test)]
mod tests;
