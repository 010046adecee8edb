//! What stands in the place of a statement's body after edits, and the braces that it needs.
//!
//! - [`lay_out`] returns where the inserts of edits stand, and what else the tidied text depends on ([`TidyLayout`]): the
//!   statements of which nothing stays, the lists whose commas may go, and the braces that come.
//! - [`BodyFault`] says why there is none: what stands in the place of some body is no list of statements.
//! - [`edits_have_one_layout`] is a law, and does nothing: edits have at most one layout, and none if they break a body.
//!
//! If `if (a) d(a);` gets an `e(a);` behind the `d(a);` that a pattern names alone, then ` {` comes behind the `)`, and a `}`
//! behind the `e(a);`. If all of `d(a);` is replaced by `e(a);`, no brace comes.
//!
//! The row of a body, that is the tokens that stand in its place, is read with the names that are known at its item, as the
//! statements of a file are. The body needs no braces if its row is one statement that may be a body by itself, unless an
//! `else` behind it would then belong to that statement.
//!
//! The calls recurse as parsing does. The edits are those of edit_marks, and the text is made by edit_unparse.
#![tactic(auto)]

mod anchors;
mod braces;
mod calm;
mod fault;
mod gone;
mod laws;
mod lay;
mod needs;
mod next;
mod place;
mod rows;
mod scene;
mod see;
mod statements;
mod words;

pub use fault::BodyFault;
pub use laws::edits_have_one_layout;
pub use lay::{TidyLayout, lay_out};
