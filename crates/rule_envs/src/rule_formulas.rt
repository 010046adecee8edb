//! What the rules of a patch are run by: the formula of each rule, and the variables that it takes from earlier rules. Made
//! once per patch, however many files it is applied to.
//!
//! - [`prepare`] makes both, with [`formula_of`](ctl_translate::formula_of) and [`inherited_of`](crate::inherited_of).
//! - [`exported_variables_are_bound`] is a law, and does nothing: the formula gives each exported variable a value.
#![tactic(auto)]

mod laws;
mod prepared;

pub use laws::exported_variables_are_bound;
pub use prepared::{Prepared, PreparedRule, prepare};
