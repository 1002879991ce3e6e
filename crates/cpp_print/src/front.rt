// A text that grows at its front.
ghost use Rattle.std.specs.Prelude.{◌≡◌, ◌++◌, [], OnOk};
ghost use Rattle.cpp_print.specs.Words.{opening};

use krn_base::{NoMemory, Seq};
use std::alloc::Global;
use std::marker::Model;

/// Bytes that were written from the last one to the first.
#[derive(Drop)]
pub struct Front {
    bytes: Seq<u8>,
}

impl Model for Front {
    ghost use Rattle.std.specs.Prelude.{List, ℕ, reverse};

    ghost Value = { List ℕ };

    ghost view = { λ front. reverse front.bytes };
}

impl Front {
    /// No bytes. Takes no memory.
    pub fn new(alloc: Global) -> Front
        ensures { result ≡ [] }
    {
        Front {
            bytes: Seq::new(alloc),
        }
    }

    /// The bytes from the first one on.
    pub fn into_bytes(self) -> Vec<u8>
        ensures { result.items ≡ self }
    {
        let Front { bytes } = self;
        let mut bytes = bytes.into_vec();
        bytes.reverse();
        bytes
    }

    /// Writes bytes before those that there are.
    pub fn put(&mut self, bytes: &[u8]) -> Result<(), NoMemory>
        ensures { OnOk result (self.new ≡ bytes.now ++ self.old) }
    {
        let mut left = bytes;
        while let [before @ .., byte] = left {
            self.bytes.push(*byte)?;
            left = before;
        }
        Ok(())
    }

    /// Writes a call up to its first operand.
    #[tactic(auto, unfolding(crate::specs::Words::opening))]
    pub fn put_opening(&mut self, name: &[u8]) -> Result<(), NoMemory>
        ensures { OnOk result (self.new ≡ opening name.now ++ self.old) }
    {
        self.put(b"(")?;
        self.put(name)?;
        self.put(b"krn::")
    }
}
