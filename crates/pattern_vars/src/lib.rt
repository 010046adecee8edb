//! The variables that appear in patterns, as sets.
//!
//! - [`VarSet`] is a set of variables. One look-up finds whether a variable is in it.
//! - [`put_set`] puts another set in, [`put_met`] what two other sets have in common.
//! - [`Decls`] is a rule's declarations. One look-up finds what a metavariable's name is declared as.
//! - [`declared_vars`] returns their variables.
//! - [`put_pattern`] puts the variables of a pattern into a set, [`put_block`] those of plus code.
//! - [`put_sure`] puts in the variables that have a value wherever the pattern matches. Of a disjunction, these are the ones
//!   that all its branches have.
//!
//! For `f(x)@p;` with `expression x` and `position p`, the set is x and p.
//!
//! A set has exactly the variables that appear in the pattern, or are used there, as smpl_patch defines it. To ask that of
//! each of many variables takes one reading of the pattern per variable; to make the set takes one in all.
//!
//! Its folders:
//!
//! - `var_places`: Where the variables of a rule are quantified: each at the smallest part of the body that holds all its
//!   occurrences.
#![tactic(auto)]

mod common;
mod decls;
mod reads;
mod set;
mod sure;
mod var_places;

pub use common::{put_met, put_set};
pub use decls::{Decls, declared_vars};
pub use reads::{put_block, put_pattern, put_vars};
pub use set::{Key, VarSet};
pub use sure::put_sure;
pub use var_places::{
    Ordered, Place, Reader, Scope, among, at_atom, copied_vars, extended, in_body, places_of,
    standing_in_atom, standing_in_body, used_in_body,
};
