//! Many jobs, shared among threads, with the same answers as one thread gives.
//!
//! - [`map_jobs`] does the jobs of a [`Worker`] in up to 64 threads, and returns their answers in order.
//! - [`Workers`] says how they are done: how many at a time, and where threads and memory come from.
//! - [`JobFault`] says which job failed first, or that memory ran out.
//! - A [`Gate`] is notified of each job before it begins; [`FreeGate`] lets each pass.
//!
//! A worker that answers the square of its job gives `[0, 1, 4]` for three jobs, whatever the
//! number of threads.
//!
//! Threads take ranges of jobs, each the next range whenever it is done with one. So jobs that cost
//! nothing are cheap, and a job that costs much holds up no other, or, of more than 4,096 jobs,
//! only those of its range. Nothing here recurses, and each thread has the system's default stack.
//!
//! Depends on no crate of the project, so that any worker can use it.
#![tactic(auto)]

mod fault;
mod gate;
mod join;
mod map;
mod parts;
mod range;
mod ranges;
mod worker;
mod workers;

pub use fault::JobFault;
pub use gate::{FreeGate, Gate};
pub use map::map_jobs;
pub use worker::Worker;
pub use workers::Workers;

#[cfg(test)]
mod tests;
