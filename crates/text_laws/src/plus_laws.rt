//! The plus code of patches that are read consists of tokens of C and metavariables, with white space between them.
//!
//! - [`read_plus_code_is_sound`]: this holds of each rule, and of each rule whose patterns have all their forms.
//!
//! The function does nothing.
#![tactic(auto)]

mod laws;

pub use laws::read_plus_code_is_sound;
