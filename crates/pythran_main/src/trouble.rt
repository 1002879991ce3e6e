use call_binding::BindStop;
use krn_base::{NoMemory, Refusal};
use std::alloc::AllocError;

/// What ends a command before all is written and stored.
#[derive(Clone, Copy, Debug, PartialEq, Eq)]
pub enum Trouble {
    /// The words are no request.
    NoRequest,
    /// The module is refused.
    Refused(Refusal),
    /// The item with this number is refused; 0 is the kernel itself.
    RefusedItem(u32),
    /// A file could not be loaded.
    LoadFailed,
    /// The output could not be written whole.
    WriteFailed,
    /// A file could not be stored.
    StoreFailed,
    /// Memory was wanting.
    Memory,
    /// A file is longer than its limit.
    TooLong,
}

impl From<AllocError> for Trouble {
    ghost use Rattle.std.specs.Prelude.{◌≡◌};
    ghost use Rattle.pythran_main.specs.declared.trouble.Trouble.TheVariants.{Memory};

    ghost from_gives = { λ _ trouble. trouble ≡ Memory };

    fn from(_error: AllocError) -> Trouble {
        Trouble::Memory
    }
}

impl From<NoMemory> for Trouble {
    ghost use Rattle.std.specs.Prelude.{◌≡◌};
    ghost use Rattle.pythran_main.specs.declared.trouble.Trouble.TheVariants.{Memory};

    ghost from_gives = { λ _ trouble. trouble ≡ Memory };

    fn from(_error: NoMemory) -> Trouble {
        Trouble::Memory
    }
}

impl From<BindStop> for Trouble {
    ghost use Rattle.std.specs.Prelude.{◌≡◌};
    ghost use Rattle.pythran_main.specs.Steps.{stopped};

    ghost from_gives = { λ stop trouble. trouble ≡ stopped stop };

    fn from(stop: BindStop) -> Trouble {
        match stop {
            BindStop::Item(number) => Trouble::RefusedItem(number),
            BindStop::LoadFailed => Trouble::LoadFailed,
            BindStop::TooLong => Trouble::TooLong,
            BindStop::Memory => Trouble::Memory,
        }
    }
}

impl Trouble {
    ghost use Rattle.std.specs.Prelude.{◌≡◌};
    ghost use Rattle.pythran_main.specs.Ending.{status_of};

    /// The exit status of a command that this ended.
    pub fn status(self) -> u8
        ensures { result ≡ status_of self }
    {
        match self {
            Trouble::NoRequest => 2,
            Trouble::Refused(_) => 3,
            Trouble::RefusedItem(_) => 4,
            Trouble::LoadFailed | Trouble::WriteFailed | Trouble::StoreFailed => 5,
            Trouble::Memory => 6,
            Trouble::TooLong => 7,
        }
    }
}
