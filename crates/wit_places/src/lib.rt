//! Finds where the touches of a witness are in the text of a file, by the ids of the file's tokens.
//!
//! - [`touch_spans`] returns a [`TokenSpan`] for each touch of a forest: the first and the last token of the subtree at its
//!   path that were loaded.
//! - [`touches_have_spans`], [`ends_are_loaded`] and [`spans_go_forward`] are laws: their contracts hold, and calling them
//!   does nothing.
//!
//! In the item `void f(void) { g(1); }` of a text the path 2.1 leads to `g(1);`, whose tokens have the ids 6 to 10. If a rule
//! put `h` in place of `g`, which gives the new token an id that no token of the text had, the span is that from 7 to 10.
//!
//! Calls recurse once per level of a tree or of a forest, and copy no tree. c_places says where the token with an id begins.
#![tactic(auto)]

mod laws;
mod spans;

pub use laws::{ends_are_loaded, spans_go_forward, touches_have_spans};
pub use spans::{TokenSpan, touch_spans};
