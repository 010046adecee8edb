//! The formulas of rules whose patterns have all their forms under isomorphisms.
//!
//! - [`formulas_keep_their_shape`]: such a rule's formula is that of the original rule, with all forms in its patterns.
//! - [`accepted_patches_stay_accepted`]: a patch with all forms has the same first fault as the original, or none if that
//!   has none.
//!
//! The functions do nothing.
#![tactic(auto)]

mod laws;

pub use laws::{accepted_patches_stay_accepted, formulas_keep_their_shape};
