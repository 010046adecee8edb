// Why the witnesses of one item are not returned.
ghost use Rattle.std.specs.Prelude.{◌≡◌};
ghost use Rattle.wit_forest.specs.declared.fault.ForestFault.TheVariants as forest;

use c_terms::NoMemory;
use std::alloc::{AllocError, AllocFailed};
use wit_forest::ForestFault;

/// Why the witnesses of one item are not returned.
#[derive(Clone, Copy, Debug, PartialEq, Eq)]
pub enum ItemFault {
    /// Their forests have more than 1,000,000 touches and binds in all.
    TooMany,
    /// Out of memory. This is the only result that a caller cannot foresee.
    NoMemory,
}

impl From<NoMemory> for ItemFault {
    ghost use Rattle.rule_chain.specs.declared.rule_witnesses.fault.ItemFault.TheVariants as fault;

    ghost from_gives = { λ _ e. e ≡ fault.NoMemory };

    fn from(_: NoMemory) -> ItemFault {
        ItemFault::NoMemory
    }
}

impl From<AllocError> for ItemFault {
    ghost use Rattle.rule_chain.specs.declared.rule_witnesses.fault.ItemFault.TheVariants as fault;

    ghost from_gives = { λ _ e. e ≡ fault.NoMemory };

    fn from(_: AllocError) -> ItemFault {
        ItemFault::NoMemory
    }
}

/// Returns the fault of a forest as the fault of its job.
pub fn fault_of(of_forest: ForestFault) -> ItemFault
    ensures only { result ≡ ItemFault.TooMany → of_forest ≡ forest.TooMany }
    ensures each { of_forest ≡ forest.TooMany → result ≡ ItemFault.TooMany }
{
    match of_forest {
        ForestFault::TooMany => ItemFault::TooMany,
        ForestFault::NoMemory => ItemFault::NoMemory,
    }
}
