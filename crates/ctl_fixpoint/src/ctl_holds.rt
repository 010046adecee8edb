//! Path satisfaction: at which nodes of a control-flow graph, and under which environments, a formula holds.
//!
//! The definitions are in `specs/`. [`walks_by_rounds`] and [`bound_variables_have_values`] are the laws that all users of
//! these definitions share. [`sure_variables_stand`] tests the precondition of the second law.
//!
//! ```text
//!       0 head ─► 1 {  ─► 2 a(); ─► 3 if ─┬─► 4 b(); ─┐
//!                                         └───────────┴─► 5 } ─► 6 exit (goes to itself)
//! ```
//!
//! `E[True U b();]` holds at nodes 0 to 4, `A[True U b();]` only at node 4: the walk past the `if` never reaches it.
//!
//! An until is defined over finite walks of at most m nodes. Each node has a successor, and once m is greater than the
//! number of nodes, a larger bound makes no difference, so the bound is not part of the meaning.
#![tactic(auto)]

mod laws;
mod stands;

pub use laws::{bound_variables_have_values, every_part_has_a_number, walks_by_rounds};
pub use stands::sure_variables_stand;
