//! Effects of a program's instances.
ghost use Rattle.std.specs.Prelude.{◌≡◌};
ghost use Rattle.purity.specs.Answers.{may_fault_in, may_write_in};

use crate::summary::{Summary, may_fault, may_write};
use krn_base::Seq;

/// What calls of a program's instances may do.
#[derive(Debug, PartialEq, Eq, Drop)]
pub struct Effects {
    pub known: Seq<Option<Summary>>,
}

impl Effects {
    /// Whether calls of an instance may write the array that they get for this parameter. Takes no memory.
    pub fn writes(&self, instance: u32, param: u32) -> bool
        ensures { result ≡ may_write_in self.now instance param }
    {
        may_write(self.known.as_slice(), instance, param)
    }

    /// Whether calls of an instance may fault. Takes no memory.
    pub fn may_fault(&self, instance: u32) -> bool
        ensures { result ≡ may_fault_in self.now instance }
    {
        may_fault(self.known.as_slice(), instance)
    }
}
