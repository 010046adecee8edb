// Why there is no list of answers.
ghost use Rattle.std.specs.Prelude.{◌≡◌};

use std::alloc::{AllocError, AllocFailed};

/// Why there is no list of answers.
#[derive(Clone, Copy, Debug, PartialEq, Eq)]
pub enum JobFault<F> {
    /// The job with this number failed with this fault, and every job with a lower number has an answer.
    Worker(usize, F),
    /// Out of memory. This is the one error that a caller cannot foresee.
    NoMemory,
}

impl<F> From<AllocError> for JobFault<F> {
    ghost use Rattle.par_match.specs.declared.fault.JobFault.TheVariants as fault;

    ghost from_gives = { λ _ e. e ≡ fault.NoMemory };

    fn from(_: AllocError) -> JobFault<F> {
        JobFault::NoMemory
    }
}

impl<F, T: Drop> From<AllocFailed<T>> for JobFault<F> {
    ghost use Rattle.par_match.specs.declared.fault.JobFault.TheVariants as fault;

    ghost from_gives = { λ _ e. e ≡ fault.NoMemory };

    fn from(_: AllocFailed<T>) -> JobFault<F> {
        JobFault::NoMemory
    }
}
