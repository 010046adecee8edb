//! What a formula says about the declared variables.
//!
//! - [`bindings_of`] returns what a part of a table says about each of them, and [`Bindings::of`] looks one up.
//! - [`Binds`] is what it says about one: whether the variable has a value of the graph wherever the formula holds, and
//!   wherever it doesn't, and whether each of its quantifiers is over a formula that binds it.
//!
//! If `f(x) and EX (g(y) or h(x))` holds, x has a value, and y may have none. So the quantifier of
//! `exists y. EX (g(y) or h(x))` isn't guarded.
//!
//! The variables are numbered, and 64 of them are processed at once, one bit each. Each pattern of the table is read
//! once, to look up the variables it surely has. After that n variables cost n / 64 passes, each over the table and
//! over the list of which part names which of the 64 variables. Nothing here recurses over a formula.
//!
//! Which variables a pattern surely has is up to pattern_vars, and what a formula binds is defined in ctl_formula.
#![tactic(auto)]

mod groups;
mod masks;
mod naming;
mod steps;

pub use groups::{Bindings, bindings_of};
pub use masks::Binds;
