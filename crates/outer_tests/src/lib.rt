//! Tests of stores of real files, and of what run_acts does. The crate has no public items.
//!
//! The tests are here rather than in outer_io and run_acts because a crate with tests is proved twice.
#![tactic(auto)]

#[cfg(test)]
mod acts;
#[cfg(test)]
mod failing_files;
#[cfg(test)]
mod files;
#[cfg(test)]
mod others;
#[cfg(test)]
mod place;
#[cfg(test)]
mod trouble;
