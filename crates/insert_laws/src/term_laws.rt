//! The values of metavariables, when forms fit and formulas hold, are terms, not places.
//!
//! - [`metavariables_have_terms`]: if a form fits, each variable that is sure in it and no position has a term.
//! - [`bound_metavariables_have_terms`]: if a formula holds, each variable that it binds has one too.
//!
//! The functions do nothing.
#![tactic(auto)]

mod laws;

pub use laws::{bound_metavariables_have_terms, metavariables_have_terms};
