//! Laws of the chain for patches that are read: each rule may be run.
//!
//! The functions do nothing.
#![tactic(auto)]

mod laws;

pub use laws::rules_that_are_read_may_run;
