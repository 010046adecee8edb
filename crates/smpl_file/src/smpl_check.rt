//! The last check of a patch once it is read: formulas that are too large, and variables that may have no value.
//!
//! - [`check`] returns the first fault of a patch's rules, if there is one.
//!
//! `@@ expression x, y; @@` with `- f(y);` and `+ g(x, y);` has the fault that x is in plus code alone.
//!
//! For each rule in order, the size of the formula is checked first. Then the variables are checked in declared order:
//! first whether the variable is in plus code alone, then whether it may stay unbound. So the fault of an earlier variable
//! comes before any fault of a later one.
#![tactic(auto)]

mod plus;
mod rules;

pub use rules::check;
