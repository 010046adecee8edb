// Why a rule fails on a file, apart from its edits.
ghost use Rattle.std.specs.Prelude.{◌≡◌};

use crate::rule_witnesses::ItemFault;
use c_terms::NoMemory;
use rule_envs::EnvsFault;

/// Why a rule fails on a file, apart from its edits.
#[derive(Drop)]
pub enum MatchFault {
    /// The witnesses in one item under one environment have more than 1,000,000 touches and binds.
    TooManyWitnesses,
    /// More than 10,000 environments result.
    TooManyEnvironments,
    /// Out of memory.
    NoMemory,
}

impl From<NoMemory> for MatchFault {
    ghost use Rattle.rule_chain.specs.declared.rule_matches.fault.MatchFault.TheVariants as fault;

    ghost from_gives = { λ _ e. e ≡ fault.NoMemory };

    fn from(_: NoMemory) -> MatchFault {
        MatchFault::NoMemory
    }
}

impl From<ItemFault> for MatchFault {
    ghost use Rattle.rule_chain.specs.RuleMatches.Matching.{job_fault};

    ghost from_gives = { λ fault e. e ≡ job_fault fault };

    fn from(fault: ItemFault) -> MatchFault {
        match fault {
            ItemFault::TooMany => MatchFault::TooManyWitnesses,
            ItemFault::NoMemory => MatchFault::NoMemory,
        }
    }
}

impl From<EnvsFault> for MatchFault {
    ghost use Rattle.rule_chain.specs.RuleMatches.Matching.{envs_fault};

    ghost from_gives = { λ fault e. e ≡ envs_fault fault };

    fn from(fault: EnvsFault) -> MatchFault {
        match fault {
            EnvsFault::TooMany => MatchFault::TooManyEnvironments,
            EnvsFault::NoMemory => MatchFault::NoMemory,
        }
    }
}
