// Why there are no environments after a rule.
ghost use Rattle.std.specs.Prelude.{◌≡◌};

use c_terms::NoMemory;
use std::alloc::{AllocError, AllocFailed};

/// Why there are no environments after a rule.
#[derive(Clone, Copy, Debug, PartialEq, Eq)]
pub enum EnvsFault {
    /// More than 10,000 environments result.
    TooMany,
    /// Out of memory.
    NoMemory,
}

impl From<NoMemory> for EnvsFault {
    ghost use Rattle.rule_envs.specs.declared.fault.EnvsFault.{EnvsFault};

    ghost from_gives = { λ _ e. e ≡ EnvsFault.NoMemory };

    fn from(_: NoMemory) -> EnvsFault {
        EnvsFault::NoMemory
    }
}

impl From<AllocError> for EnvsFault {
    ghost use Rattle.rule_envs.specs.declared.fault.EnvsFault.{EnvsFault};

    ghost from_gives = { λ _ e. e ≡ EnvsFault.NoMemory };

    fn from(_: AllocError) -> EnvsFault {
        EnvsFault::NoMemory
    }
}

impl<T: Drop> From<AllocFailed<T>> for EnvsFault {
    ghost use Rattle.rule_envs.specs.declared.fault.EnvsFault.{EnvsFault};

    ghost from_gives = { λ _ e. e ≡ EnvsFault.NoMemory };

    fn from(_: AllocFailed<T>) -> EnvsFault {
        EnvsFault::NoMemory
    }
}
