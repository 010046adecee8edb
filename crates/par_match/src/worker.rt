// The trait of workers, which do the jobs.
ghost use Rattle.std.specs.Prelude.{ℕ, ◌<◌, IfOk, IfErr};

/// Does the jobs. All threads share one worker, so a job only reads data that does not change, and
/// only writes its answer.
pub trait Worker: Sync {
    type Answer: Send + Drop;

    type Fault: Send + Drop;

    /// How many jobs the worker has.
    ghost jobs: { Self → ℕ };

    /// Which answers a job may give.
    ghost may_answer: { Self → ℕ → Self.Answer → Type 0 };

    /// Which faults a job may give.
    ghost may_fail: { Self → ℕ → Self.Fault → Type 0 };

    fn answer(&self, job: usize) -> Result<Self::Answer, Self::Fault>
        requires known { job < jobs self.now }
        ensures answer { IfOk result (λ a. may_answer self.now job a) }
        ensures fault { IfErr result (λ f. may_fail self.now job f) };
}
