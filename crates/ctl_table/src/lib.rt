//! The table from the elements of a body to formulas.
//!
//! - [`sequence`] returns the part for a sequence, under the variables quantified inside it and around it.
//! - [`Setting`] holds the other inputs of the table; its `within` returns that of a block. [`Continuation`] is what follows a
//!   sequence.
//! - [`blocks`] returns the [`Blocks`] of a body, by which their hidden variables are named.
//!
//! A part that occurs several times in the formula is stored once. `specs/Table` says which formula a body has, row by
//! row; the module `rows` is that table, row for row. A sequence is processed from its end, so what follows an element
//! is made before it. The inside of a disjunction is processed once for everything that may follow it: what follows the
//! disjunction, what follows each one around it, and nothing.
//!
//! `a(); ... b();` under `exists` is `Atom 0 and EX E[not Atom 0 and not Atom 1 U Atom 1]`.
//!
//! Limits, and variables that may stay unbound, are up to ctl_translate.
#![tactic(auto)]

mod braces;
mod dots;
mod each;
mod element;
mod end_atoms;
mod ends_of;
mod follow;
mod numbers;
mod own;
mod rows;
mod setting;
mod unquantified;
mod wrap;

pub use braces::blocks;
pub use end_atoms::{EndAtoms, LastAtoms};
pub use follow::{Continuation, DotsContinuation, NestPart, Start};
pub use numbers::Blocks;
pub use rows::sequence;
pub use setting::Setting;
