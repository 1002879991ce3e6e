ghost use Rattle.std.specs.Prelude.{◌≡◌};
ghost use Rattle.host_io.specs.Files.{Untold};

use crate::counts::raise;
use crate::files::{Files, LoadFault, StoreFault};
use crate::reading::read_up_to;
use crate::writing::write_out;
use std::{fs, rt};

/// The system's files, under their paths. What they hold is not told.
#[derive(Drop)]
pub struct OsFiles<'a, R> {
    rt: &'a R,
    faults: u64,
}

impl<'a, R: rt::Files> OsFiles<'a, R> {
    /// The files that this runtime reaches.
    pub fn new(rt: &'a R) -> OsFiles<'a, R>
        ensures { result.faults ≡ 0 }
    {
        OsFiles { rt, faults: 0 }
    }
}

impl<'a, R: rt::Files> Files for OsFiles<'a, R> {
    ghost held = { λ _ _. Untold };

    ghost faults = { λ files. files.faults };

    /// Opens the file of this path and reads it. Each call of the system that fails raises the count of faults, and
    /// a read that a signal cut off is tried again.
    fn load(&mut self, name: &str, most: usize, into: &mut Vec<u8>) -> Result<(), LoadFault> {
        match fs::open(self.rt, name) {
            Ok(mut file) => read_up_to(&mut file, most, into, &mut self.faults),
            Err(_) => {
                into.clear();
                self.faults = raise(self.faults);
                Err(LoadFault::Failed)
            }
        }
    }

    /// Makes the file of this path, or empties it, and writes the bytes. Each call of the system that fails raises the
    /// count of faults, and a write that a signal cut off is tried again.
    fn store(&mut self, name: &str, bytes: &[u8]) -> Result<(), StoreFault> {
        match fs::create(self.rt, name) {
            Ok(mut file) => match write_out(&mut file, bytes, &mut self.faults) {
                Ok(()) => Ok(()),
                Err(_) => Err(StoreFault::Failed),
            },
            Err(_) => {
                self.faults = raise(self.faults);
                Err(StoreFault::Failed)
            }
        }
    }
}

#[cfg(test)]
mod tests;
