//! What the rules of a patch preserve, from the first reading of a text on, and that a text which they leave is cut into
//! the tokens whose ids it has.
//!
//! - [`first_states_are_sound`], [`states_stay_sound`]: ids differ and are below the next one, and values consist of tokens
//!   of C.
//! - [`new_texts_are_cut`]: the text that a rule leaves has as many tokens as ids, so it is cut into pieces with these ids.
//!
//! The functions do nothing.
#![tactic(auto)]

mod laws;

pub use laws::{first_states_are_sound, new_texts_are_cut, states_stay_sound};
