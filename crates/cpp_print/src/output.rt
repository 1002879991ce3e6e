// A text that grows at its end.
ghost use Rattle.std.specs.Prelude.{◌≡◌, ◌++◌, ◌≤◌, [], OnOk, replicate};
ghost use Rattle.std.specs.Fmt.{decimal, signed_decimal};

use krn_base::NoMemory;
use std::alloc::Global;
use std::marker::Model;

/// Bytes that were written, and where memory for more comes from.
#[derive(Drop)]
pub struct Output {
    alloc: Global,
    bytes: Vec<u8>,
}

impl Model for Output {
    ghost use Rattle.std.specs.Prelude.{List, ℕ};
    ghost use Rattle.std.specs.Coded.{coded_list};

    ghost Value = { List ℕ };

    ghost view = { λ output. output.bytes.items };
}

impl Output {
    /// No bytes. Takes no memory.
    pub fn new(alloc: Global) -> Output
        ensures { result ≡ [] }
    {
        Output {
            alloc,
            bytes: Vec::new(alloc),
        }
    }

    /// Where memory comes from.
    pub fn allocator(&self) -> Global {
        self.alloc
    }

    /// What was written.
    pub fn into_bytes(self) -> Vec<u8>
        ensures { result.items ≡ self }
    {
        let Output { alloc: _, bytes } = self;
        bytes
    }

    /// Writes bytes as they are.
    pub fn put(&mut self, bytes: &[u8]) -> Result<(), NoMemory>
        ensures { OnOk result (self.new ≡ self.old ++ bytes.now) }
    {
        self.bytes.extend_from_slice(bytes)?;
        Ok(())
    }

    /// Writes a number in decimal.
    pub fn number(&mut self, number: u64) -> Result<(), NoMemory>
        ensures { OnOk result (self.new ≡ self.old ++ decimal number) }
    {
        let text = number.to_string(self.alloc)?;
        self.put(text.as_bytes())
    }

    /// Writes a number in decimal, with `-` before it where it is below 0.
    pub fn signed(&mut self, number: i64) -> Result<(), NoMemory>
        ensures { OnOk result (self.new ≡ self.old ++ signed_decimal number) }
    {
        let text = number.to_string(self.alloc)?;
        self.put(text.as_bytes())
    }

    /// Writes spaces.
    pub fn spaces(&mut self, count: usize) -> Result<(), NoMemory>
        requires { count ≤ 255 }
        ensures { OnOk result (self.new ≡ self.old ++ replicate count 32) }
    {
        self.bytes.resize(self.bytes.len() + count, b' ')?;
        Ok(())
    }
}
