//! Where the variables of a rule are quantified: each at the smallest part of the body that holds all its occurrences.
//!
//! - [`places_of`] returns the places of a sequence's elements: what is quantified at, inside and around each.
//! - [`Scope`] is what is quantified around an element. It is shared, and extended without a copy of what is around.
//! - [`in_body`], [`at_atom`] and [`among`] return those of some variables that a part or a set has, in their order.
//! - [`Ordered`] is a list of variables. It finds those that are in a set without a look at the others.
//! - [`used_in_body`], [`standing_in_body`] and [`standing_in_atom`] return the variables of a part, as a set.
//!
//! In `f(x); ... g(x, y);` with the variables x and y, x is quantified at the whole sequence, and y inside the last call.
//!
//! A part is read a few times for each statement around it, and each variable is looked up a few times there; names are
//! never compared one by one. ctl_table makes formulas from the places.
#![tactic(auto)]

mod counted;
mod homes;
mod numbered;
mod ordered;
mod place;
mod reader;
mod scope;
mod sets;

pub use ordered::Ordered;
pub use place::{Place, among, at_atom, copied_vars, extended, in_body, places_of};
pub use reader::Reader;
pub use scope::Scope;
pub use sets::{standing_in_atom, standing_in_body, used_in_body};
