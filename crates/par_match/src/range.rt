// A range of jobs, done one after another.
ghost use Rattle.std.specs.Prelude.{◌<◌, ◌≤◌, IfOk, IfErr};
ghost use Rattle.par_match.specs.Answers.{AreAnswers, IsWhy};

use crate::{Gate, JobFault, Worker};
use std::alloc::Global;

/// Does the jobs from `from` up to, but not including, `to`, and stops at the first that fails.
pub(crate) fn do_range<W: Worker, G: Gate>(
    alloc: Global,
    from: usize,
    to: usize,
    worker: &W,
    gate: &G,
) -> Result<Vec<W::Answer>, JobFault<W::Fault>>
    requires rises { from ≤ to }
    requires known { to ≤ W.jobs worker.now }
    ensures answers { IfOk result (λ v. AreAnswers (W.may_answer worker.now) from to v.items) }
    ensures fault { IfErr result (λ e. IsWhy (W.may_answer worker.now) (W.may_fail worker.now) from to e) }
{
    let mut answers = Vec::with_capacity(alloc, to - from)?;
    for job in from..to {
        gate.reached(job);
        match worker.answer(job) {
            Ok(answer) => answers.push(answer)?,
            Err(fault) => return Err(JobFault::Worker(job, fault)),
        }
    }
    Ok(answers)
}

/// Returns the end of the range of this size that begins at `from`.
pub(crate) fn end_of(from: usize, size: usize, n: usize) -> usize
    requires size { 0 < size }
    requires within { from < n }
    ensures rises { from < result }
    ensures within { result ≤ n }
{
    if n - from < size { n } else { from + size }
}
