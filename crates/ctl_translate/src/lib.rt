//! From rules to formulas.
//!
//! - [`formula_of`] returns a rule's formula, or says why it has no usable one.
//! - [`standing_outside_whens`] returns the variables that occur in a rule's pattern, except in `when` code.
//!
//! Which formula the elements of a body have is up to ctl_table. This crate has the rule's own part of it, the limits,
//! and which variables may stay unbound.
//!
//! `a(); ... b();` under `exists` is `Atom 0 and EX E[not Atom 0 and not Atom 1 U Atom 1]`.
//!
//! Its folders:
//!
//! - `ctl_bound`: What a formula says about the declared variables.
#![tactic(auto)]

mod ctl_bound;
mod deep;
mod least;
mod rule;
mod unbound;

pub use rule::{FormulaFault, formula_of, standing_outside_whens};
