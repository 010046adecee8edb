//! Laws of the rules of patches that are read: each rule may be run.
//!
//! - [`formulas_have_patterns_of_their_bodies`]: a rule's formula has no patterns but those of its body.
//! - [`exports_are_apart`]: each variable that a rule exports occurs once among its exports, and isn't inherited.
//! - [`exports_are_bound`]: the formula of a rule binds what the rule exports.
//! - [`plus_blocks_are_even`]: a line of plus code has as many gaps as tokens.
//! - [`rules_have_formulas`]: if a patch has no fault of meaning, its rules have formulas.
//! - [`rules_may_run`]: each rule of a patch that is read has all of this.
//!
//! The functions do nothing.
//!
//! Its folders:
//!
//! - `iso_formulas`: The formulas of rules whose patterns have all their forms under isomorphisms.
//! - `chain_laws`: Laws of the chain for patches that are read: each rule may be run.
//! - `form_laws`: Laws of the chain for patches whose patterns have all their forms under isomorphisms.
#![tactic(auto)]

mod chain_laws;
mod form_laws;
mod iso_formulas;
mod laws;

pub use chain_laws::rules_that_are_read_may_run;
pub use form_laws::rules_with_forms_may_run;
pub use iso_formulas::{accepted_patches_stay_accepted, formulas_keep_their_shape};
pub use laws::{
    exports_are_apart, exports_are_bound, formulas_have_patterns_of_their_bodies,
    plus_blocks_are_even, rules_have_formulas, rules_may_run,
};
