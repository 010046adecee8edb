// Why there is no forest.
ghost use Rattle.std.specs.Prelude.{◌≡◌};

use c_terms::NoMemory;
use std::alloc::{AllocError, AllocFailed};

/// Why there is no forest.
#[derive(Clone, Copy, Debug, PartialEq, Eq)]
pub enum ForestFault {
    /// It has more than 1,000,000 touches and binds.
    TooMany,
    /// Out of memory. This is the only error that a caller cannot foresee.
    NoMemory,
}

impl From<AllocError> for ForestFault {
    ghost use Rattle.wit_forest.specs.declared.fault.ForestFault.TheVariants as fault;

    ghost from_gives = { λ _ e. e ≡ fault.NoMemory };

    fn from(_: AllocError) -> ForestFault {
        ForestFault::NoMemory
    }
}

impl<T: Drop> From<AllocFailed<T>> for ForestFault {
    ghost use Rattle.wit_forest.specs.declared.fault.ForestFault.TheVariants as fault;

    ghost from_gives = { λ _ e. e ≡ fault.NoMemory };

    fn from(_: AllocFailed<T>) -> ForestFault {
        ForestFault::NoMemory
    }
}

impl From<NoMemory> for ForestFault {
    ghost use Rattle.wit_forest.specs.declared.fault.ForestFault.TheVariants as fault;

    ghost from_gives = { λ _ e. e ≡ fault.NoMemory };

    fn from(_: NoMemory) -> ForestFault {
        ForestFault::NoMemory
    }
}
