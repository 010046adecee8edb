//! The plus code that a patch inserts into a text is instantiated: each of its metavariables has a term.
//!
//! - [`plus_code_is_instantiated`]: this holds at each touch of each rule of each patch that is read, at whatever point of
//!   the run.
//!
//! The function does nothing.
//!
//! Its folders:
//!
//! - `term_laws`: The values of metavariables, when forms fit and formulas hold, are terms, not places.
//! - `scope_laws`: Where the formulas of rules quantify the variables that their atoms use.
//! - `name_laws`: The names that a patch declares are words: none begins with `{`, as the hidden variables of blocks do.
//! - `aligned_laws`: The pattern tokens of an alignment belong to the compared part of the pattern.
//! - `touch_laws`: The metavariables that the pattern of a touched atom uses have terms at the touch.
#![tactic(auto)]

mod aligned_laws;
mod laws;
mod name_laws;
mod scope_laws;
mod term_laws;
mod touch_laws;

pub use laws::plus_code_is_instantiated;
pub use term_laws::metavariables_have_terms;
