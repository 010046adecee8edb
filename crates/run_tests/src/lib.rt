//! Tests of whole runs, for what the built program can't show. The crate has nothing else, and no public items.
//!
//! The program's gate doesn't observe its jobs, and a test can't make another program write between two given calls of the
//! program. Here a run has a gate that does, or a shelf to which another program writes too.
#![tactic(auto)]

#[cfg(test)]
mod jobs;
#[cfg(test)]
mod rewrites;
