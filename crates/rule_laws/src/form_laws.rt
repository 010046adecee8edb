//! Laws of the chain for patches whose patterns have all their forms under isomorphisms.
//!
//! - [`rules_with_forms_may_run`]: the rules of a patch that is read may be run also when their patterns have all forms.
//!
//! The function does nothing.
#![tactic(auto)]

mod laws;

pub use laws::rules_with_forms_may_run;
