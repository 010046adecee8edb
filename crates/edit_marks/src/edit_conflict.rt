//! Edits of one version of a text, and whether two of them clash.
//!
//! - An [`Edit`] removes tokens and adds [`Insert`]s before or after tokens; tokens are given by their numbers in this
//!   version.
//! - [`EditList::of`] keeps the first of several equal edits, and sorts what the edits do by token, as a list of [`Mark`]s.
//! - [`first_clash`] returns the first [`Clash`] of a list.
//!
//! Take two edits of the text `a b c`: if one removes `b` and the other inserts after `b`, they clash at token 1. If one
//! inserts before `b` and the other after it, they don't clash.
//!
//! Two edits clash at a token if both remove it, if both insert on one side of it and one of these inserts is not from `++`
//! lines, or if one inserts at it and the other removes it. Equal edits count once. The calls fail only when out of memory.
//! Nothing recurses.
//!
//! [`edits`](crate::edits) returns the edits of a rule, and `edited_text` of edit_unparse makes the new text.
#![tactic(auto)]

mod clash;
mod edit;
mod list;
mod mark;

pub use clash::{Clash, first_clash};
pub use edit::{Edit, Insert, Side};
pub use list::EditList;
pub use mark::{Act, Mark};
