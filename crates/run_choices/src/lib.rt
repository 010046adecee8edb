//! What a run is asked for besides its patch and files, as its words name it and its engine reads it.
//!
//! - [`Unread`] is the value of `--unread`: which of the items that can't be read are told of.
//!
//! Depends on no crate of the project, so that the words and the engine share it. Which items `needed` means is defined in
//! rule_chain.
#![tactic(auto)]

mod unread;

pub use unread::Unread;
