//! Gives the patterns of a patch their forms under isomorphisms.
//!
//! - [`expand`] returns the patch in which each pattern has all its forms, or the first rule that would have too many.
//! - [`rules_keep_their_shape`] is a law: what a rule keeps when its patterns get forms.
//!
//! Under `X == NULL <=> NULL == X => !X` the pattern `f(p == NULL);` gets the forms `f(NULL == p);` and `f(!p);`
//! besides its own.
//!
//! The patterns of a rule may have 10,000 forms together. The forms of a tree are defined by iso_forms.
//!
//! Its folders:
//!
//! - `iso_forms`: The forms of a pattern's tree under isomorphisms.
#![tactic(auto)]

mod bodies;
mod copies;
mod fault;
mod iso_forms;
mod laws;
mod rules;

pub use fault::ExpandFault;
pub use iso_forms::{FormsFault, forms_of, the_tree_comes_first};
pub use laws::rules_keep_their_shape;
pub use rules::expand;
