//! The edits of a rule where the text is tidied.
//!
//! - [`tidied_edits`] returns the edits of witnesses, with what their new text depends on: the statements of the patterns, and
//!   an [`Outline`] of the items that they touch.
//! - [`witnesses_have_one_tidied_list`] is a law: the definition allows witnesses only one list of tidied edits. The function
//!   does nothing.
//!
//! They differ from the plain edits in four things. The last `;` of a body that would go whole stays. A new line is indented
//! as the statement around it. A value that would not hold together has brackets around it. A comma beside a list that has no
//! member is left out.
#![tactic(auto)]

mod bodies;
mod brackets;
mod depth;
mod edges;
mod edit;
mod insert;
mod laws;
mod lines;
mod place;
mod shape;
mod touch;
mod walk;
mod words;

pub use laws::witnesses_have_one_tidied_list;
pub use shape::{Body, BracketList, LeafRange, Outline};
pub use touch::PatternStatement;
pub use walk::{TidiedEdits, tidied_edits};
