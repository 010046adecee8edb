// Why a parser returns no tree.
ghost use Rattle.std.specs.Prelude.{◌≡◌};

use c_terms::NoMemory;
use std::alloc::{AllocError, AllocFailed};

/// Why a parser returns no tree. A range that is too deep is reported as such, whatever else is wrong with it.
#[derive(Clone, Copy, Debug, PartialEq, Eq)]
pub enum ParseFault {
    /// The range is not too deep, and no tree spells it.
    NoTree,
    /// More than 200 brackets are open at once.
    TooDeep,
    /// Memory was refused. This is the one result that a caller cannot foresee.
    NoMemory,
}

impl From<AllocError> for ParseFault {
    ghost use Rattle.c_expr.specs.declared.fault.ParseFault.TheVariants.{NoMemory};

    ghost from_gives = { λ _ e. e ≡ NoMemory };

    fn from(_: AllocError) -> ParseFault {
        ParseFault::NoMemory
    }
}

impl<T: Drop> From<AllocFailed<T>> for ParseFault {
    ghost use Rattle.c_expr.specs.declared.fault.ParseFault.TheVariants.{NoMemory};

    ghost from_gives = { λ _ e. e ≡ NoMemory };

    fn from(_: AllocFailed<T>) -> ParseFault {
        ParseFault::NoMemory
    }
}

impl From<NoMemory> for ParseFault {
    ghost use Rattle.c_expr.specs.declared.fault.ParseFault.TheVariants as fault;

    ghost from_gives = { λ _ e. e ≡ fault.NoMemory };

    fn from(_: NoMemory) -> ParseFault {
        ParseFault::NoMemory
    }
}
