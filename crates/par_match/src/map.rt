// The jobs, shared among threads.
ghost use Rattle.std.specs.Prelude.{◌<◌, ◌≤◌, IfOk, IfErr};
ghost use Rattle.par_match.specs.Answers.{AreAnswers, IsWhy};

use crate::join::{in_order, joined};
use crate::parts::take_ranges;
use crate::range::do_range;
use crate::ranges::Ranges;
use crate::{Gate, JobFault, Worker, Workers};
use std::sync::atomic::AtomicUsize;
use std::thread;
use std::thread::Threads;

/// The greatest number of ranges of one call. It is small enough that the cost of the ranges is
/// negligible, and large enough that costly jobs which are side by side are seldom in one range.
const MOST_RANGES: usize = 4_096;

/// Does the jobs 0 to `n - 1` of a worker, as many at a time as `workers` says, and returns their answers in order. If jobs
/// fail, returns the fault of the one with the lowest number. The gate is notified of each job before it begins.
///
/// Starts no thread for one job, or if only one may be done at a time. Allocates memory for the answers and a few words for each
/// range: up to 4,096 jobs have a range each, and more are divided among at most 4,096 ranges.
pub fn map_jobs<R: Threads + Sync, W: Worker, G: Gate>(
    workers: &Workers<'_, R, G>,
    n: usize,
    worker: &W,
) -> Result<Vec<W::Answer>, JobFault<W::Fault>>
    requires known { n ≤ W.jobs worker.now }
    ensures answers { IfOk result (λ v. AreAnswers (W.may_answer worker.now) 0 n v.items) }
    ensures fault { IfErr result (λ e. IsWhy (W.may_answer worker.now) (W.may_fail worker.now) 0 n e) }
{
    let alloc = workers.alloc;
    let gate = workers.gate;
    if workers.jobs == 1 || n < 2 {
        return do_range(alloc, 0, n, worker, gate);
    }
    let size = range_size(n);
    let ranges = Ranges { n, size };
    let count = n.div_ceil(size);
    let threads = count.min(workers.jobs as usize);
    let next = AtomicUsize::new(0);
    let taken = thread::map_indices(
        workers.rt,
        alloc,
        threads,
        &|_|
            requires { ranges.n ≤ W.jobs worker.now }
        { take_ranges(alloc, ranges, &next, worker, gate) },
    )?;
    let cells = in_order(alloc, count, size, taken, worker)?;
    joined(alloc, ranges, cells, worker, gate)
}

/// Returns the number of jobs in a range.
fn range_size(n: usize) -> usize
    ensures some { 0 < result }
{
    n.div_ceil(MOST_RANGES).max(1)
}
