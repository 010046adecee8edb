//! The values that a rule finds in a reading of a text are places, or terms of tokens of C that are no Strays.
//!
//! - [`found_values_are_sound`]: those of its witnesses, and those of the environments after it.
//!
//! The function does nothing.
#![tactic(auto)]

mod laws;

pub use laws::found_values_are_sound;
