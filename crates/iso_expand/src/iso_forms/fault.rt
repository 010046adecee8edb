// Why the forms of a tree are not returned.
ghost use Rattle.std.specs.Prelude.{◌≡◌};

use c_terms::NoMemory;
use std::alloc::{AllocError, AllocFailed};

/// Why the forms of a tree are not returned.
#[derive(Clone, Copy, Debug, PartialEq, Eq)]
pub enum FormsFault {
    /// There are more than the limit.
    TooMany,
    /// Out of memory.
    NoMemory,
}

impl From<AllocError> for FormsFault {
    ghost use Rattle.iso_expand.specs.declared.iso_forms.fault.FormsFault.TheVariants.{NoMemory};

    ghost from_gives = { λ _ e. e ≡ NoMemory };

    fn from(_: AllocError) -> FormsFault {
        FormsFault::NoMemory
    }
}

impl<T: Drop> From<AllocFailed<T>> for FormsFault {
    ghost use Rattle.iso_expand.specs.declared.iso_forms.fault.FormsFault.TheVariants.{NoMemory};

    ghost from_gives = { λ _ e. e ≡ NoMemory };

    fn from(_: AllocFailed<T>) -> FormsFault {
        FormsFault::NoMemory
    }
}

impl From<NoMemory> for FormsFault {
    ghost use Rattle.iso_expand.specs.declared.iso_forms.fault.FormsFault.TheVariants as fault;

    ghost from_gives = { λ _ e. e ≡ fault.NoMemory };

    fn from(_: NoMemory) -> FormsFault {
        FormsFault::NoMemory
    }
}
