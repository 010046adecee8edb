// Ranges that threads take, and their outcomes.
ghost use Rattle.std.specs.Prelude.{◌≡◌, ◌<◌, ◌≤◌, All, IfOk, IfSome, OnOk};
ghost use Rattle.par_match.specs.Parts.{IsPartOf, Holds};

use crate::range::{do_range, end_of};
use crate::ranges::Ranges;
use crate::{Gate, JobFault, Worker};
use std::alloc::{AllocError, Global};
use std::sync::atomic::{AtomicUsize, Ordering};

/// The outcome of the jobs from `from` up to, but not including, `to`.
#[derive(Drop)]
pub(crate) struct Part<A, F> {
    pub(crate) from: usize,
    pub(crate) to: usize,
    pub(crate) outcome: Result<Vec<A>, JobFault<F>>,
}

/// Does one range after another, up to the first with a fault. The number at which the next range
/// begins is shared with the other threads, so each thread takes ranges that no other has taken.
pub(crate) fn take_ranges<W: Worker, G: Gate>(
    alloc: Global,
    ranges: Ranges,
    next: &AtomicUsize,
    worker: &W,
    gate: &G,
) -> Result<Vec<Part<W::Answer, W::Fault>>, AllocError>
    requires known { ranges.n ≤ W.jobs worker.now }
    ensures parts { IfOk result (λ v. All (IsPartOf (W.may_answer worker.now) (W.may_fail worker.now)) v.items) }
{
    let mut parts = Vec::new(alloc);
    for _ in 0..ranges.n {
        let from = next.fetch_add(ranges.size, Ordering::SeqCst);
        if from >= ranges.n {
            break;
        }
        let part = do_part(alloc, ranges, from, worker, gate);
        let failed = part.outcome.is_err();
        parts.push(part)?;
        if failed {
            break;
        }
    }
    Ok(parts)
}

/// Does the range that begins here.
fn do_part<W: Worker, G: Gate>(
    alloc: Global,
    ranges: Ranges,
    from: usize,
    worker: &W,
    gate: &G,
) -> Part<W::Answer, W::Fault>
    requires within { from < ranges.n }
    requires known { ranges.n ≤ W.jobs worker.now }
    ensures part { IsPartOf (W.may_answer worker.now) (W.may_fail worker.now) result }
    ensures from { result.from ≡ from }
    ensures rises { from < result.to }
    ensures within { result.to ≤ ranges.n }
{
    let to = end_of(from, ranges.size, ranges.n);
    let outcome = do_range(alloc, from, to, worker, gate);
    Part { from, to, outcome }
}

/// Returns the part that begins here: the one that a thread left, or else one that is done now.
pub(crate) fn part_at<W: Worker, G: Gate>(
    alloc: Global,
    ranges: Ranges,
    from: usize,
    left: Option<Part<W::Answer, W::Fault>>,
    worker: &W,
    gate: &G,
) -> Part<W::Answer, W::Fault>
    requires within { from < ranges.n }
    requires known { ranges.n ≤ W.jobs worker.now }
    requires left { IfSome left (IsPartOf (W.may_answer worker.now) (W.may_fail worker.now)) }
    ensures part { IsPartOf (W.may_answer worker.now) (W.may_fail worker.now) result }
    ensures from { result.from ≡ from }
    ensures rises { from < result.to }
    ensures within { result.to ≤ ranges.n }
{
    match left {
        Some(part) if part.from == from && from < part.to && part.to <= ranges.n => part,
        _ => do_part(alloc, ranges, from, worker, gate),
    }
}
