//! Finds the witnesses of one rule over one reading of a file, and the environments after it. `run_rule` of rule_run calls it;
//! it makes no edits.
#![tactic(auto)]

mod fault;
mod matching;

pub use fault::MatchFault;
pub use matching::{RuleMatches, match_rule};
