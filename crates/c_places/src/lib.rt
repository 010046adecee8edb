//! Finds where the tokens of a C text begin.
//!
//! - [`places_in`] returns the [`TextPlaces`] of a text: the offset of each token, by its id.
//! - [`places_are_one`] and [`tokens_are_placed`] are laws: their contracts hold, and calling them does nothing.
//!
//! In the text of the two lines `int x;` and `f();` tokens begin at 0, 4, 5, 7, 8, 9 and 10.
//!
//! text_places says which line and column an offset has.
#![tactic(auto)]

mod laws;
mod places;

pub use laws::{places_are_one, tokens_are_placed};
pub use places::{TextPlaces, places_in};
