// What no clause says: that jobs run side by side, and that each call succeeds with ample memory.
ghost use Rattle.std.specs.Prelude.{◌^◌};

use crate::{FreeGate, Gate, JobFault, Worker, Workers, map_jobs};
use std::alloc::Global;
use std::sync::atomic::{AtomicBool, Ordering};
use std::thread::Threads;

const MANY: usize = 100_000;

/// Answers the square of its job; jobs from a given number on fail with their number.
#[derive(Drop)]
struct Squares {
    fails_from: usize,
}

impl Worker for Squares {
    type Answer = usize;

    type Fault = usize;

    ghost jobs = { λ _. 2 ^ 64 };

    ghost may_answer = { λ _ _ _. Unit {0} };

    ghost may_fail = { λ _ _ _. Unit {0} };

    fn answer(&self, job: usize) -> Result<usize, usize> {
        if self.fails_from <= job {
            return Err(job);
        }
        Ok(job.wrapping_mul(job))
    }
}

fn ask<R: Threads + Sync, G: Gate>(
    rt: &R,
    alloc: Global,
    jobs: u32,
    n: usize,
    fails_from: usize,
    gate: &G,
) -> Result<Vec<usize>, JobFault<usize>> {
    if jobs == 0 || jobs > 64 {
        return Err(JobFault::NoMemory);
    }
    let workers = Workers {
        rt,
        alloc,
        gate,
        jobs,
    };
    map_jobs(&workers, n, &Squares { fails_from })
}

/// Whether the answers to jobs 0 to `n - 1` are their squares, in order.
fn are_squares<R: Threads + Sync>(rt: &R, alloc: Global, jobs: u32, n: usize) -> bool {
    match ask(rt, alloc, jobs, n, MANY, &FreeGate) {
        Ok(answers) => {
            answers.len() == n
                && answers
                    .iter()
                    .enumerate()
                    .all(|(job, square)| *square == job.wrapping_mul(job))
        }
        Err(_) => false,
    }
}

#[test]
fn answers_are_in_order_for_every_number_of_jobs(rt: HostRuntime) {
    for jobs in [1, 2, 3, 64] {
        for n in [0, 1, 2, 3, 1000, MANY] {
            assert!(rt; are_squares(&rt, rt.alloc(), jobs, n));
        }
    }
}

/// Whether the fault is that of the first of the failing jobs.
fn names<R: Threads + Sync>(rt: &R, alloc: Global, jobs: u32, n: usize, first: usize) -> bool {
    matches!(ask(rt, alloc, jobs, n, first, &FreeGate), Err(JobFault::Worker(job, fault)) if job == first && fault == first)
}

#[test]
fn the_first_fault_is_named(rt: HostRuntime) {
    for jobs in [1, 2, 64] {
        for first in [0, 1, 2] {
            assert!(rt; names(&rt, rt.alloc(), jobs, 3, first));
        }
        assert!(rt; names(&rt, rt.alloc(), jobs, 1000, 517));
    }
}

/// Two jobs that wait for one another, each for a while.
#[derive(Drop)]
struct Meeting {
    here: [AtomicBool; 2],
    seen: [AtomicBool; 2],
}

impl Gate for Meeting {
    fn reached(&self, job: usize) {
        let (Some(mine), Some(seen)) = (self.here.get(job), self.seen.get(job)) else {
            return;
        };
        let Some(other) = self.here.get(1_usize.wrapping_sub(job)) else {
            return;
        };
        mine.store(true, Ordering::SeqCst);
        for _ in 0..2_000_000_000_u64 {
            if other.load(Ordering::SeqCst) {
                seen.store(true, Ordering::SeqCst);
                return;
            }
        }
    }
}

#[test]
fn two_jobs_see_one_another(rt: HostRuntime) {
    let gate = Meeting {
        here: [AtomicBool::new(false), AtomicBool::new(false)],
        seen: [AtomicBool::new(false), AtomicBool::new(false)],
    };
    assert!(rt; ask(&rt, rt.alloc(), 2, 2, MANY, &gate).is_ok());
    assert!(rt; gate.seen[0].load(Ordering::SeqCst) && gate.seen[1].load(Ordering::SeqCst));
}
