//! The metavariables that the pattern of a touched atom uses have terms at the touch.
//!
//! - [`touches_show_terms`]: this holds at the touches of a rule's witnesses, and the environments after the rule preserve
//!   it.
//!
//! The function does nothing.
#![tactic(auto)]

mod laws;

pub use laws::touches_show_terms;
