// Why a patch is not expanded.
ghost use Rattle.std.specs.Prelude.{◌≡◌};

use c_terms::NoMemory;
use std::alloc::{AllocError, AllocFailed};

/// Why a patch is not expanded.
#[derive(Clone, Copy, Debug, PartialEq, Eq)]
pub enum ExpandFault {
    /// The patterns of this rule have more than 10,000 forms together, and those of no earlier rule do.
    TooManyForms(u32),
    /// Out of memory.
    NoMemory,
}

impl From<AllocError> for ExpandFault {
    ghost use Rattle.iso_expand.specs.declared.fault.ExpandFault.TheVariants.{NoMemory};

    ghost from_gives = { λ _ e. e ≡ NoMemory };

    fn from(_: AllocError) -> ExpandFault {
        ExpandFault::NoMemory
    }
}

impl<T: Drop> From<AllocFailed<T>> for ExpandFault {
    ghost use Rattle.iso_expand.specs.declared.fault.ExpandFault.TheVariants.{NoMemory};

    ghost from_gives = { λ _ e. e ≡ NoMemory };

    fn from(_: AllocFailed<T>) -> ExpandFault {
        ExpandFault::NoMemory
    }
}

impl From<NoMemory> for ExpandFault {
    ghost use Rattle.iso_expand.specs.declared.fault.ExpandFault.TheVariants as fault;

    ghost from_gives = { λ _ e. e ≡ fault.NoMemory };

    fn from(_: NoMemory) -> ExpandFault {
        ExpandFault::NoMemory
    }
}
