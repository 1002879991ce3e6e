ghost use Rattle.std.specs.Prelude.{◌≡◌};

use eager_rules::Call;
use krn_base::{ParamType, Seq, Text};
use std::alloc::AllocError;

/// What binding needs of a kernel: its name, and its parameters with their types, in order.
#[derive(Debug, PartialEq, Eq, Drop)]
pub struct KernelHead {
    pub name: Text,
    pub params: Seq<(Text, ParamType)>,
}

/// A buffer that is saved after the run.
#[derive(Debug, PartialEq, Eq, Drop)]
pub struct Save {
    /// The number of the buffer among the call's, from 0.
    pub buffer: u32,
    /// The path of the file, which is UTF-8.
    pub path: Text,
}

/// A call of one of some kernels.
#[derive(Debug, PartialEq, Eq, Drop)]
pub struct BoundCall {
    /// The number of the kernel among them, from 0.
    pub kernel: u32,
    /// The names of the call's buffers, in their order.
    pub names: Seq<Text>,
    pub call: Call,
    /// The buffers that are saved, in word order.
    pub saves: Seq<Save>,
}

/// Why items make no call.
#[derive(Clone, Copy, Debug, PartialEq, Eq)]
pub enum BindStop {
    /// The item with this number, from 1, is refused; 0 where the kernel itself is at fault.
    Item(u32),
    /// An array file could not be loaded.
    LoadFailed,
    /// An array file is longer than its limit.
    TooLong,
    /// Memory was wanting.
    Memory,
}

impl From<AllocError> for BindStop {
    ghost use Rattle.call_binding.specs.declared.head.BindStop.TheVariants.{Memory};

    ghost from_gives = { λ _ stop. stop ≡ Memory };

    fn from(_error: AllocError) -> BindStop {
        BindStop::Memory
    }
}
