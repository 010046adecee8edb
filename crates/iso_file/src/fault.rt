// Why an isomorphism file is not read.
ghost use Rattle.std.specs.Prelude.{◌≡◌};

use c_terms::NoMemory;
use std::alloc::{AllocError, AllocFailed};

/// Why an isomorphism file is not read. A number is the offset of a byte.
#[derive(Clone, Copy, Debug, PartialEq, Eq)]
pub enum IsoFault {
    /// A block isn't of the form; the offset is that of its first word.
    BadIso(u32),
    /// The first word of a block isn't `Expression`; the offset is that of the word.
    NotExpression(u32),
    /// A side contains a variable that another side that may become it doesn't; the offset is the variable's first
    /// place in that side.
    VariableLost(u32),
    /// The file has more than 1,048,576 bytes.
    TooLong,
    /// Out of memory.
    NoMemory,
}

impl From<AllocError> for IsoFault {
    ghost use Rattle.iso_file.specs.declared.fault.IsoFault.TheVariants.{NoMemory};

    ghost from_gives = { λ _ e. e ≡ NoMemory };

    fn from(_: AllocError) -> IsoFault {
        IsoFault::NoMemory
    }
}

impl<T: Drop> From<AllocFailed<T>> for IsoFault {
    ghost use Rattle.iso_file.specs.declared.fault.IsoFault.TheVariants.{NoMemory};

    ghost from_gives = { λ _ e. e ≡ NoMemory };

    fn from(_: AllocFailed<T>) -> IsoFault {
        IsoFault::NoMemory
    }
}

impl From<NoMemory> for IsoFault {
    ghost use Rattle.iso_file.specs.declared.fault.IsoFault.TheVariants as fault;

    ghost from_gives = { λ _ e. e ≡ fault.NoMemory };

    fn from(_: NoMemory) -> IsoFault {
        IsoFault::NoMemory
    }
}
