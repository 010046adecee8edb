//! The text that a rule leaves is cut again into exactly the kept and the added tokens.
//!
//! - [`new_texts_are_of_their_tokens`]: this holds of a rule whose plus code consists of tokens of C and which starts from
//!   a sound state.
//! - [`patches_leave_their_tokens`]: this holds of each rule of each patch that is read, at whatever point of the run.
//!
//! The functions do nothing.
#![tactic(auto)]

mod laws;

pub use laws::{new_texts_are_of_their_tokens, patches_leave_their_tokens};
