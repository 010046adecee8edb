// The threads that do the jobs, and what they need.
ghost use Rattle.std.specs.Prelude.{◌≤◌, ◌≡◌};

use crate::Gate;
use std::alloc::Global;
use std::thread::Threads;

/// How the jobs of a call are done: where threads and memory come from, the gate that is notified of each job before it begins,
/// and how many jobs may be done at a time.
#[derive(Drop)]
pub struct Workers<'w, R, G> {
    pub rt: &'w R,
    pub alloc: Global,
    pub gate: &'w G,
    /// How many jobs may be done at a time: from 1 to 64.
    pub jobs: u32,
    pub ghost some: { 1 ≤ jobs },
    pub ghost few: { jobs ≤ 64 },
}

impl<'w, R: Threads + Sync, G: Gate> Workers<'w, R, G> {
    /// Returns the same, with at most this many jobs at a time.
    pub fn at_most(&self, jobs: usize) -> Workers<'w, R, G>
        requires some { 1 ≤ jobs }
        ensures jobs { result.jobs ≤ jobs }
        ensures fewer { result.jobs ≤ self.now.jobs }
    {
        Workers {
            rt: self.rt,
            alloc: self.alloc,
            gate: self.gate,
            jobs: jobs.min(self.jobs as usize) as u32,
        }
    }
}
