// The parts that the threads left, put in order and joined.
ghost use Rattle.std.specs.Prelude.{◌≡◌, ◌<◌, ◌≤◌, ℕ, All, IfOk, IfErr, OnOk};
ghost use Rattle.par_match.specs.Answers.{AreAnswers, IsWhy};
ghost use Rattle.par_match.specs.Parts.{IsPartOf, Holds};

use crate::parts::{Part, part_at};
use crate::ranges::Ranges;
use crate::{Gate, JobFault, Worker};
use std::alloc::{AllocError, Global};

/// Returns a cell for each range, with the part that begins there if a thread left one.
pub(crate) fn in_order<W: Worker>(
    alloc: Global,
    count: usize,
    size: usize,
    mut taken: Vec<Result<Vec<Part<W::Answer, W::Fault>>, AllocError>>,
    worker: &W,
) -> Result<Vec<Option<Part<W::Answer, W::Fault>>>, AllocError>
    requires size { 0 < size }
    requires parts { All (λ r. IfOk r (λ v. All (IsPartOf (W.may_answer worker.now) (W.may_fail worker.now)) v.items)) taken.items }
    ensures parts { IfOk result (λ v. All (Holds (W.may_answer worker.now) (W.may_fail worker.now)) v.items) }
{
    let mut cells = empty(alloc, count, worker)?;
    while let Some(parts) = taken.pop() {
        put_parts(size, parts?, &mut cells, worker);
    }
    Ok(cells)
}

fn empty<W: Worker>(
    alloc: Global,
    count: usize,
    worker: &W,
) -> Result<Vec<Option<Part<W::Answer, W::Fault>>>, AllocError>
    ensures parts { IfOk result (λ v. All (Holds (W.may_answer worker.now) (W.may_fail worker.now)) v.items) }
{
    let mut cells = Vec::with_capacity(alloc, count)?;
    for _ in 0..count {
        cells.push(None)?;
    }
    Ok(cells)
}

fn put_parts<W: Worker>(
    size: usize,
    mut parts: Vec<Part<W::Answer, W::Fault>>,
    cells: &mut Vec<Option<Part<W::Answer, W::Fault>>>,
    worker: &W,
)
    requires size { 0 < size }
    requires parts { All (IsPartOf (W.may_answer worker.now) (W.may_fail worker.now)) parts.items }
    requires cells { All (Holds (W.may_answer worker.now) (W.may_fail worker.now)) cells.old.items }
    ensures cells { All (Holds (W.may_answer worker.now) (W.may_fail worker.now)) cells.new.items }
{
    while let Some(part) = parts.pop() {
        let place = part.from / size;
        if place < cells.len() {
            cells[place] = Some(part);
        }
    }
}

/// Returns the answers of all parts in order, or the first fault. A range that no thread left is
/// done now.
pub(crate) fn joined<W: Worker, G: Gate>(
    alloc: Global,
    ranges: Ranges,
    cells: Vec<Option<Part<W::Answer, W::Fault>>>,
    worker: &W,
    gate: &G,
) -> Result<Vec<W::Answer>, JobFault<W::Fault>>
    requires known { ranges.n ≤ W.jobs worker.now }
    requires parts { All (Holds (W.may_answer worker.now) (W.may_fail worker.now)) cells.items }
    ensures answers { IfOk result (λ v. AreAnswers (W.may_answer worker.now) 0 ranges.n v.items) }
    ensures fault { IfErr result (λ e. IsWhy (W.may_answer worker.now) (W.may_fail worker.now) 0 ranges.n e) }
{
    let mut answers = Vec::with_capacity(alloc, ranges.n)?;
    let mut cells = cells.into_iter();
    let mut from = 0;
    while from < ranges.n {
        let left = cells.next().flatten();
        let Part {
            from: _,
            to,
            outcome,
        } = part_at(alloc, ranges, from, left, worker, gate);
        match outcome {
            Ok(mut more) => answers.append(&mut more)?,
            Err(fault) => return Err(fault),
        }
        from = to;
    }
    Ok(answers)
}
