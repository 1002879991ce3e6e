ghost use Rattle.std.specs.Prelude.{◌≡◌};

use std::alloc::AllocError;
use thiserror::Error;

/// Why bytes are no array file: the first part that breaks the form, in this order. Want of memory is the last.
#[derive(Clone, Copy, Debug, PartialEq, Eq, Error)]
pub enum NpyFault {
    /// The first six bytes are missing or others.
    #[error("the bytes do not begin as an array file")]
    BadMagic,
    /// The next two bytes are not 1 and 0.
    #[error("the version is not 1.0")]
    BadVersion,
    /// The header's length or the header is cut off or malformed.
    #[error("the header is malformed")]
    BadHeader,
    /// The element type is neither `<i8` nor `|b1`.
    #[error("the element type is neither `<i8` nor `|b1`")]
    BadKind,
    /// An extent or the number of elements is above 2^22.
    #[error("the array is too large")]
    TooLarge,
    /// The elements take more or fewer bytes than stand behind the header.
    #[error("the number of bytes does not fit the shape")]
    BadLength,
    /// Memory is wanting.
    #[error("memory is wanting")]
    Memory,
}

impl From<AllocError> for NpyFault {
    ghost use Rattle.np_file.specs.declared.fault.NpyFault.TheVariants.{Memory};

    ghost from_gives = { λ _ fault. fault ≡ Memory };

    fn from(_error: AllocError) -> NpyFault {
        NpyFault::Memory
    }
}
