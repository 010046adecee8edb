//! Finds the tokens of a C text that are shown, and the spans of its items.
//!
//! - [`arms`] takes a text that c_lexer has cut, and returns a [`Visible`]: the text and the numbers of its shown tokens.
//! - [`items`] returns an [`ItemSpan`] for each item of the shown tokens.
//! - [`shown_once`] and [`items_stand_end_to_end`] are laws, and do nothing.
//!
//! Lines such as `#if` open groups. A group shows its first arm, or its second arm if `#if 0` opens it. A token is shown
//! if it is in the shown arm of each group around it, and is not a marker such as `__init`, not `__attribute__`, and not
//! in a bracket group that follows `__attribute__`.
//!
//! An item ends after a `;` outside all brackets, and after the `}` of a body. The text
//! `int x; int f(void) { g(); } struct s { int a; };` has three items.
//!
//! Groups and brackets may nest arbitrarily deep, since nothing recurses. Bad nesting is not an error: an unmatched closing
//! line or bracket has no effect, and what is left open runs to the end. The calls fail only when out of memory.
//!
//! This crate doesn't check whether an item is C. c_file finds what it is read as, an [`Item`].
#![tactic(auto)]

mod directive;
mod group;
mod item;
mod laws;
mod mask;
mod reading;
mod shown;
mod sign;
mod span;
mod visible;

pub use laws::{items_stand_end_to_end, shown_once};
pub use reading::{Item, Why};
pub use shown::arms;
pub use span::{ItemSpan, items};
pub use visible::Visible;
