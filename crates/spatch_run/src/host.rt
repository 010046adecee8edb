// What a run is carried out with, before the number of jobs is known.
use std::alloc::Global;

/// What a run is carried out with: the runtime, the allocator, and the gate that is notified of each job.
#[derive(Drop)]
pub struct Host<'h, R, G> {
    pub rt: &'h R,
    pub alloc: Global,
    pub gate: &'h G,
}
