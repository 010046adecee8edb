//! The forms of a pattern's tree under isomorphisms.
//!
//! - [`forms_of`] returns the forms of a tree in their order, or reports that there are more than a limit.
//! - [`the_tree_comes_first`] is a law: the tree is the first of its forms.
//!
//! Under `X == NULL <=> NULL == X => !X` the tree `f(p == NULL)` has three forms: itself, `f(NULL == p)` and `f(!p)`.
//!
//! An expression whose tokens carry two marks, or have a position or plus code at one of them, is left alone; parts of
//! it may still be replaced. Forms are told apart by their spelling, looked up in a hash set. Which trees a patch has
//! is up to iso_expand.
#![tactic(auto)]

mod arrows;
mod choices;
mod fault;
mod forms;
mod kinds;
mod labels;
mod laws;
mod listed;
mod making;
mod matching;
mod open;
mod replacing;
mod spelled;

pub use fault::FormsFault;
pub use forms::forms_of;
pub use laws::the_tree_comes_first;
