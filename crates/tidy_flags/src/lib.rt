//! Flags for a tidied text: which tokens go, which lines are emptied, and which commas are left beside nothing.
//!
//! - [`put_all`], [`put_pairs`] and [`put_range`] set the flags of tokens, and [`flag_at`], [`flag_before`] read them.
//! - [`emptied`] says for each byte whether its line is emptied, and [`left_of`] returns what is left of a text. The bytes come
//!   from [`put_removed`], [`put_blank`] and [`put_solid`].
//! - [`clear_commas`] clears the flags of the commas of a list that go, and of the blanks behind them, given what each part is
//!   ([`Sign`]).
//!
//! In `{`, newline, tab, `a();`, newline, `}` the middle line is emptied if all of `a();` goes. In `(, b)` the comma goes.
//!
//! The calls fail only when out of memory. Nothing recurses, and all is linear.
#![tactic(auto)]

mod clear;
mod flags;
mod lines;
mod signs;

pub use clear::clear_commas;
pub use flags::{flag_at, flag_before, number_at, put_all, put_pairs, put_range};
pub use lines::{LineByte, emptied, left_of, put_blank, put_removed, put_solid};
pub use signs::{ListState, Sign};
