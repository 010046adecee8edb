// Why edits produce no text.
ghost use Rattle.std.specs.Prelude.{◌≡◌};

use c_terms::NoMemory;
use edit_marks::Edit;
use std::alloc::{AllocError, AllocFailed};

/// Why the edits of a rule produce no text.
#[derive(Drop)]
pub enum EditFault {
    /// Two edits clash at the token with this id.
    Conflict(u64, Edit, Edit),
    /// What stands in the place of a body is no list of statements. The id is that of the body's last token.
    Body(u64),
    /// The text would have more than 16,777,216 bytes.
    TooLong,
    /// Out of memory.
    NoMemory,
}

impl From<NoMemory> for EditFault {
    ghost use Rattle.rule_chain.specs.declared.rule_edits.fault.EditFault.TheVariants as fault;

    ghost from_gives = { λ _ e. e ≡ fault.NoMemory };

    fn from(_: NoMemory) -> EditFault {
        EditFault::NoMemory
    }
}

impl From<AllocError> for EditFault {
    ghost use Rattle.rule_chain.specs.declared.rule_edits.fault.EditFault.TheVariants as fault;

    ghost from_gives = { λ _ e. e ≡ fault.NoMemory };

    fn from(_: AllocError) -> EditFault {
        EditFault::NoMemory
    }
}

impl<T: Drop> From<AllocFailed<T>> for EditFault {
    ghost use Rattle.rule_chain.specs.declared.rule_edits.fault.EditFault.TheVariants as fault;

    ghost from_gives = { λ _ e. e ≡ fault.NoMemory };

    fn from(_: AllocFailed<T>) -> EditFault {
        EditFault::NoMemory
    }
}
