//! Runs one rule of a patch over one reading of a file: `match_rule` of rule_matches, then
//! `text_after_edits` or `tidied_text_after_edits` of rule_edits.
//!
//! [`run_rule`] takes what the rules before it left, and returns what this one leaves, or the first fault that it meets. If the
//! rule edits the text, reading it again is left to the chain of rules.
#![tactic(auto)]

mod fault;
mod outcome;
mod state;

pub use fault::FileFault;
pub use outcome::{RuleOutcome, run_rule};
pub use state::{FileState, SkipNote};
