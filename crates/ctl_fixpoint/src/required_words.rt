//! The words that a formula needs: if no token of an item is such a word, the formula holds nowhere in the item.
//!
//! - [`needed_words`] finds them, once per formula.
//! - [`may_hold`] says whether each of them is among an item's tokens. If one isn't, the item needs no graph.
//! - [`formulas_need_words`] is the law.
//! - [`looks_of`] groups the forms of a pattern into runs that need the same word, and [`solve_by`] tries a run's forms at a
//!   node only if the node's tree may have the word.
//!
//! An atom needs the names, keywords, numbers and literals that all forms of its pattern spell; a disjunction spells those
//! that each of its branches spells. An `and` needs what either part needs, an `or` what both parts need, and an until what
//! its end needs. A `not` needs nothing.
//!
//! ```text
//!     lock(x); ... \( unlock(x); \| unlock_all(); \)        needs lock
//! ```
//!
//! An item that has all the needed words is left to the fixpoint.
#![tactic(auto)]

mod form_groups;
mod laws;
mod needs;
mod solving;
mod spell;
mod word;
mod words;

pub use form_groups::{FormGroup, looks_of};
pub use laws::formulas_need_words;
pub use solving::solve_by;
pub use words::{may_hold, needed_words};
