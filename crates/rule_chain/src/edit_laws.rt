//! Laws of the edits of witnesses that the calls of other modules need. They restate what one module says in the terms of
//! another.
//!
//! - [`plain_inserts_are_fair`]: inserts whose texts are blanks and tokens of C are such as writing the new text requires.
//! - [`ids_of_values_do_not_count`]: witnesses have the same edits whatever ids the tokens of their values have.
//!
//! The functions do nothing.
#![tactic(auto)]

mod laws;

pub use laws::{ids_of_values_do_not_count, plain_inserts_are_fair};
