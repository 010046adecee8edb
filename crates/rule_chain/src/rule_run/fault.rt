// Why a file has no result.
ghost use Rattle.std.specs.Prelude.{◌≡◌};
ghost use Rattle.rule_chain.specs.RuleRun.OneRule.{edit_fault, match_fault};

use crate::rule_edits::EditFault;
use crate::rule_matches::MatchFault;
use c_terms::NoMemory;
use edit_marks::Edit;
use std::alloc::{AllocError, AllocFailed};

/// Why a file has no result. The first number is that of the rule.
#[derive(Drop)]
pub enum FileFault {
    /// The text would have more than 16,777,216 bytes.
    FileTooLong(u32),
    /// Two edits clash at the token with this id.
    Conflict(u32, u64, Edit, Edit),
    /// What stands in the place of a body is no list of statements. The id is that of the body's last token.
    Body(u32, u64),
    /// The witnesses in one item under one environment have more than 1,000,000 touches and binds.
    TooManyWitnesses(u32),
    /// More than 10,000 environments result.
    TooManyEnvironments(u32),
    /// Out of memory.
    NoMemory,
}

impl From<NoMemory> for FileFault {
    ghost use Rattle.rule_chain.specs.declared.rule_run.fault.FileFault.TheVariants as fault;

    ghost from_gives = { λ _ e. e ≡ fault.NoMemory };

    fn from(_: NoMemory) -> FileFault {
        FileFault::NoMemory
    }
}

impl From<AllocError> for FileFault {
    ghost use Rattle.rule_chain.specs.declared.rule_run.fault.FileFault.TheVariants as fault;

    ghost from_gives = { λ _ e. e ≡ fault.NoMemory };

    fn from(_: AllocError) -> FileFault {
        FileFault::NoMemory
    }
}

impl<T: Drop> From<AllocFailed<T>> for FileFault {
    ghost use Rattle.rule_chain.specs.declared.rule_run.fault.FileFault.TheVariants as fault;

    ghost from_gives = { λ _ e. e ≡ fault.NoMemory };

    fn from(_: AllocFailed<T>) -> FileFault {
        FileFault::NoMemory
    }
}

/// Returns the file's fault for a fault of the edits of the rule with this number.
pub fn of_edits(number: u32, fault: EditFault) -> FileFault
    ensures { result ≡ edit_fault number fault }
{
    match fault {
        EditFault::Conflict(id, first, second) => FileFault::Conflict(number, id, first, second),
        EditFault::Body(id) => FileFault::Body(number, id),
        EditFault::TooLong => FileFault::FileTooLong(number),
        EditFault::NoMemory => FileFault::NoMemory,
    }
}

/// Returns the file's fault for a fault of the rule with this number, apart from its edits.
pub fn of_matches(number: u32, fault: MatchFault) -> FileFault
    ensures { result ≡ match_fault number fault }
{
    match fault {
        MatchFault::TooManyWitnesses => FileFault::TooManyWitnesses(number),
        MatchFault::TooManyEnvironments => FileFault::TooManyEnvironments(number),
        MatchFault::NoMemory => FileFault::NoMemory,
    }
}
