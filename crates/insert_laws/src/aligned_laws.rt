//! The pattern tokens of an alignment belong to the compared part of the pattern.
//!
//! - [`aligned_tokens_are_compared`]: this holds of any form, except for one with bodies at a simple node.
//! - [`simple_nodes_have_no_bodies`]: such a node holds no tree with bodies, so the exception never occurs.
//! - [`forms_keep_plus_code`]: tokens with plus code in the compared part of a form are in that of the pattern as it was
//!   written.
//!
//! The functions do nothing.
#![tactic(auto)]

mod laws;

pub use laws::{aligned_tokens_are_compared, forms_keep_plus_code, simple_nodes_have_no_bodies};
