//! The terms of semantic patches: variables, values and environments.
//!
//! - [`Var`] is a metavariable or a position, by the rule that declares it and its name; [`var_order`] sorts variables.
//! - [`Value`] is what a variable stands for: a term, or the place of a token. [`same_value`]
//!   compares values, ids aside.
//! - [`Env`] gives some variables their values. It is a [`VarMap`], the one type of list that is
//!   sorted by variable.
//! - [`Shared`] and [`SharedList`] are allocated once: a copy is one more owner. Contracts see only
//!   the value and the list.
//!
//! `x` of rule 0 is before `y` of rule 0, which is before `x` of rule 1. The terms `f(a)` at two places of a file are
//! the same value, and two places are not.
//!
//! Everything here is data. Copies of values and environments share their trees and pairs, so
//! copying takes the same time at any size. Comparing recurses once per level of a tree, and
//! allocates nothing.
//! Which values a variable may have is up to env_sets.
#![tactic(auto)]

mod env;
mod map;
mod shared;
mod value;
mod var;

pub use env::Env;
pub use map::{VarMap, place};
pub use shared::{Copied, Shared, SharedList, copied_items};
pub use value::{Value, same_value, value_order};
pub use var::{Var, same_var, var_order};
