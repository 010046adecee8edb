// Why there is no layout.
ghost use Rattle.std.specs.Prelude.{◌≡◌};

use c_terms::NoMemory;
use std::alloc::{AllocError, AllocFailed};

/// Why there is no layout.
#[derive(Clone, Copy, Debug, PartialEq, Eq)]
pub enum BodyFault {
    /// What stands in the place of some body is no list of statements. The token is the last of such a body, the least.
    Body(u32),
    /// Out of memory.
    NoMemory,
}

impl From<NoMemory> for BodyFault {
    ghost use Rattle.edit_bodies.specs.declared.fault.BodyFault.TheVariants as fault;

    ghost from_gives = { λ _ e. e ≡ fault.NoMemory };

    fn from(_: NoMemory) -> Self {
        BodyFault::NoMemory
    }
}

impl From<AllocError> for BodyFault {
    ghost use Rattle.edit_bodies.specs.declared.fault.BodyFault.TheVariants as fault;

    ghost from_gives = { λ _ e. e ≡ fault.NoMemory };

    fn from(_: AllocError) -> Self {
        BodyFault::NoMemory
    }
}

impl<T: Drop> From<AllocFailed<T>> for BodyFault {
    ghost use Rattle.edit_bodies.specs.declared.fault.BodyFault.TheVariants as fault;

    ghost from_gives = { λ _ e. e ≡ fault.NoMemory };

    fn from(_: AllocFailed<T>) -> Self {
        BodyFault::NoMemory
    }
}
