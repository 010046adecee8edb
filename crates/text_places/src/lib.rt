//! Lines and columns of a text, from the offsets of its bytes.
//!
//! - [`Places`] finds the places of bytes of one text, one after another.
//! - [`place_of`] finds a single place.
//!
//! In the text of the two lines `int x;` and `f();` the byte 8 is at line 2, column 2.
//!
//! A line ends after its newline. Columns count bytes, so a tab is one, and a letter of two bytes is two. Takes no memory.
#![tactic(auto)]

mod place;
mod places;

pub use place::Place;
pub use places::{Places, place_of};
